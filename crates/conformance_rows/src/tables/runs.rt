// The rows of standard input, run one after the other.

use crate::tables::calls::{StorageName, is_run_in, takes_words};
use crate::tables::case::{Case, case_of};
use crate::tables::fault::Fault;
use crate::tables::on_bytes::CallsOnBytes;
use crate::tables::repeated::expanded;
use crate::tables::tally::Tally;
use crate::tables::ways::Run;
use crate::tables::words::{digits_bytes, is_one};
use std::alloc::Global;
use std::env;
use std::io::{self, BufRead, BufReader, Stderr};
use std::process::ExitCode;

// The bytes that a row reads; none where it is given a value.
fn bytes_of(alloc: Global, case: &Case<'_>) -> Result<Vec<u8>, Fault> {
    if takes_words(case.call) {
        return Ok(Vec::new(alloc));
    }
    digits_bytes(alloc, case.input())
}

// Runs a row in the ways that it is to be run in.
fn run_by<C: CallsOnBytes>(
    alloc: Global,
    run: &Run<'_>,
    bytes: &[u8],
    refusing: bool,
    tally: &mut Tally,
) {
    match (run.case.says("ways", "once"), refusing) {
        (true, true) => run.refused_at_ends::<C>(alloc, bytes, tally),
        (true, false) => run.whole::<C>(alloc, bytes, tally),
        (false, true) => run.refused::<C>(alloc, bytes, tally),
        (false, false) => run.each_way::<C>(alloc, bytes, tally),
    }
}

// Runs a row in one storage.
fn run_in<C: CallsOnBytes>(
    alloc: Global,
    case: &Case<'_>,
    storage: StorageName,
    errors: Stderr,
    refusing: bool,
    tally: &mut Tally,
) {
    let run = Run {
        case,
        storage,
        errors,
    };
    match bytes_of(alloc, case) {
        Ok(bytes) => run_by::<C>(alloc, &run, bytes.as_slice(), refusing, tally),
        Err(fault) => tally.note(Err(fault)),
    }
}

// Runs a row in each storage.
fn run_row<C: CallsOnBytes>(
    alloc: Global,
    case: &Case<'_>,
    errors: Stderr,
    refusing: bool,
) -> Tally {
    let mut tally = Tally::new();
    for storage in [
        StorageName::Ordered,
        StorageName::Hashed,
        StorageName::Indexed,
    ] {
        if is_run_in(case, storage) {
            run_in::<C>(alloc, case, storage, errors, refusing, &mut tally);
        }
    }
    tally.of_row()
}

// Runs the row of a line that stands out in full; a line that is no row doesn't hold.
fn run_whole<C: CallsOnBytes>(alloc: Global, line: &str, errors: Stderr, refusing: bool) -> Tally {
    match case_of(line) {
        None => Tally::one_wrong(),
        Some(case) => run_row::<C>(alloc, &case, errors, refusing),
    }
}

// Runs the row of a line.
fn run_line<C: CallsOnBytes>(alloc: Global, line: &str, errors: Stderr, refusing: bool) -> Tally {
    match expanded(alloc, line) {
        Ok(line) => run_whole::<C>(alloc, line.as_str(), errors, refusing),
        Err(_) => Tally::one_wrong(),
    }
}

// Whether a word of the call, if there is one, asks for refusals.
fn asks_for_refusals(word: Option<String>) -> bool {
    match word {
        None => false,
        Some(word) => is_one(word.as_str(), "refused"),
    }
}

// Whether the words of the call ask for refusals.
fn is_refusing(rt: &HostRuntime) -> bool {
    match env::args(rt) {
        Err(_) => false,
        Ok(mut words) => asks_for_refusals(words.nth(1)),
    }
}

// The runs of all rows, and how many rows held.
#[derive(Clone, Copy)]
struct Sums {
    all: Tally,
    held: u64,
    failed: u64,
}

impl Sums {
    // Adds the runs of a row; whether it holds.
    fn add(&mut self, tally: Tally) -> bool {
        self.all = self.all.and(tally);
        if tally.holds() {
            self.held = self.held.saturating_add(1);
            return true;
        }
        self.failed = self.failed.saturating_add(1);
        false
    }
}

// Tells how many runs of a row are wrong.
fn tell_wrong(rt: &HostRuntime, row: &str, tally: Tally) -> io::Result<()> {
    println!(rt; "{} of {} runs are wrong: {row}", tally.wrong, tally.runs)
}

// Runs a row, adds its runs to those of all, and tells where it doesn't hold.
fn add_row<C: CallsOnBytes>(
    rt: &HostRuntime,
    row: &str,
    refusing: bool,
    sums: &mut Sums,
) -> io::Result<()> {
    if row.is_empty() || row.starts_with('#') {
        return Ok(());
    }
    let tally = run_line::<C>(rt.alloc(), row, rt.stderr(), refusing);
    if sums.add(tally) {
        return Ok(());
    }
    tell_wrong(rt, row, tally)
}

// Runs the row of a line, if it was read.
fn add_line<C: CallsOnBytes>(
    rt: &HostRuntime,
    line: io::Result<String>,
    refusing: bool,
    sums: &mut Sums,
) -> io::Result<()> {
    let line = line?;
    add_row::<C>(rt, line.as_str(), refusing, sums)
}

// Runs the rows of standard input, and adds them.
fn add_all<C: CallsOnBytes>(rt: &HostRuntime, refusing: bool, sums: &mut Sums) -> io::Result<()> {
    let alloc = rt.alloc();
    for line in BufReader::new(alloc, rt.reader())?.lines(alloc) {
        add_line::<C>(rt, line, refusing, sums)?;
    }
    Ok(())
}

// Tells how often memory was refused.
fn tell_refused(rt: &HostRuntime, all: Tally) -> io::Result<()> {
    println!(rt;
        "{} runs, {} requests for memory refused",
        all.runs, all.refused
    )
}

// Tells how many rows held, and where memory is refused how often it was.
fn tell_all(rt: &HostRuntime, refusing: bool, sums: Sums) -> io::Result<()> {
    if refusing {
        tell_refused(rt, sums.all)?;
    }
    println!(rt; "{} held, {} did not", sums.held, sums.failed)
}

// Runs the rows of standard input; whether all hold.
fn run_all<C: CallsOnBytes>(rt: &HostRuntime) -> io::Result<bool> {
    let refusing = is_refusing(rt);
    let mut sums = Sums {
        all: Tally::new(),
        held: 0,
        failed: 0,
    };
    add_all::<C>(rt, refusing, &mut sums)?;
    tell_all(rt, refusing, sums)?;
    Ok(sums.failed == 0)
}

/// Runs the rows of standard input, and tells which of them don't hold.
pub fn run_rows<C: CallsOnBytes>(rt: &HostRuntime) -> ExitCode {
    match run_all::<C>(rt) {
        Ok(true) => ExitCode::from(0),
        Ok(false) => ExitCode::from(1),
        Err(_) => ExitCode::from(3),
    }
}
