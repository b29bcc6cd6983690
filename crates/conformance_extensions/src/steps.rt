// Steps: sets and clears of any numbers, one after the other.

use crate::told::{are_same, got_told, stand_told};
use buffa_ext::change_records::replace;
use buffa_ext::{ReplayFault, Step, replay};
use buffa_wire::{UnknownField, UnknownFieldData, UnknownFields};
use conformance_rows::case::Case;
use conformance_rows::fault::Fault;
use conformance_rows::mark::Mark;
use conformance_rows::outcome::{Outcome, in_words, records_told};
use conformance_rows::words::records_of;
use std::alloc::Global;

// The records then, and how many steps stand where a replay ended early.
#[derive(Drop)]
struct Replayed {
    fields: UnknownFields,
    answer: Result<(), ReplayFault>,
}

// Puts what a record holds behind others.
fn push_payload(payloads: &mut Vec<UnknownFieldData>, field: &UnknownField) -> Result<(), Fault> {
    let UnknownField { number: _, payload } = field.copy()?;
    payloads.push(payload)?;
    Ok(())
}

// What records of any number hold.
fn payloads_of(alloc: Global, digits: &str) -> Result<Vec<UnknownFieldData>, Fault> {
    let fields = records_of(alloc, digits)?;
    let mut payloads = Vec::new(alloc);
    for field in fields.iter() {
        push_payload(&mut payloads, field)?;
    }
    Ok(payloads)
}

// The step of a word: `7` clears number 7, `7=0805` sets it to what the records behind the sign hold.
fn step_of(alloc: Global, word: &str) -> Result<Step, Fault> {
    match word.split_once('=') {
        None => {
            let number = word.parse::<u32>()?;
            Ok(Step::Clear { number })
        }
        Some((front, digits)) => {
            let number = front.parse::<u32>()?;
            let records = payloads_of(alloc, digits)?;
            Ok(Step::Set { number, records })
        }
    }
}

// The steps of the first words, at most so many.
fn steps_of(alloc: Global, words: &str, most: usize) -> Result<Vec<Step>, Fault> {
    let mut steps = Vec::new(alloc);
    for word in words.split_ascii_whitespace() {
        if steps.len() < most {
            steps.push(step_of(alloc, word)?)?;
        }
    }
    Ok(steps)
}

// Takes steps.
fn take_steps(alloc: Global, mut fields: UnknownFields, steps: Vec<Step>) -> Replayed {
    let answer = replay(alloc, &mut fields, steps);
    Replayed { fields, answer }
}

// What stands where memory ran out: what so many steps, fewer than there are, make of the old records.
fn stopped_told(
    alloc: Global,
    case: &Case<'_>,
    fields: &UnknownFields,
    done: usize,
    count: usize,
) -> Result<String, Fault> {
    let old = records_of(alloc, case.before())?;
    let steps = steps_of(alloc, case.input(), done)?;
    let wanted = take_steps(alloc, old, steps);
    if wanted.answer.is_err() {
        return Err(Fault::Memory);
    }
    let may = done < count && are_same(alloc, fields, &wanted.fields)?;
    stand_told(alloc, fields, may)
}

// How many steps stand, and the records.
fn replayed_told(
    alloc: Global,
    case: &Case<'_>,
    replayed: &Replayed,
    count: usize,
    refused: bool,
) -> Result<Outcome, Fault> {
    let fields = &replayed.fields;
    match replayed.answer {
        Ok(()) => {
            let records = records_told(alloc, fields);
            got_told(alloc, true, in_words(alloc, &count), records, refused)
        }
        Err(fault) => {
            let records = stopped_told(alloc, case, fields, fault.done, count);
            got_told(alloc, false, in_words(alloc, &fault.done), records, refused)
        }
    }
}

/// What steps make of records.
pub fn steps(alloc: Global, case: &Case<'_>, mark: &mut Mark) -> Result<Outcome, Fault> {
    let fields = records_of(alloc, case.before())?;
    let steps = steps_of(alloc, case.input(), usize::MAX)?;
    let count = steps.len();
    mark.begin(alloc);
    let replayed = take_steps(alloc, fields, steps);
    let refused = mark.end();
    replayed_told(alloc, case, &replayed, count, refused)
}

/// Records in the place of those of a number.
pub fn replaced(alloc: Global, case: &Case<'_>, mark: &mut Mark) -> Result<Outcome, Fault> {
    let number = case.number()?;
    let staged = records_of(alloc, case.input())?;
    let mut fields = records_of(alloc, case.before())?;
    mark.begin(alloc);
    let answer = replace(&mut fields, number, staged);
    let refused = mark.end();
    let none = Ok(String::new(alloc));
    let records = records_told(alloc, &fields);
    got_told(alloc, answer.is_ok(), none, records, refused)
}
