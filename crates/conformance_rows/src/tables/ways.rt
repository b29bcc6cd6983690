// The ways to run a row that reads bytes: whole, cut, each beginning, and with memory refused.

use crate::tables::calls::{
    StorageName, keeps_a_map, reads_a_buffer, reads_bytes, reads_to_the_end,
};
use crate::tables::case::{Case, given};
use crate::tables::fault::Fault;
use crate::tables::mark::{Mark, NO_REQUEST};
use crate::tables::on_bytes::CallsOnBytes;
use crate::tables::outcome::{Found, Outcome, and};
use crate::tables::tally::Tally;
use crate::tables::words::{copied, in_order, is_one, joined, push_text};
use bytes::Bytes;
use std::alloc::Global;
use std::io::Stderr;

/// A row, its bytes, and the storage that it is run in.
#[derive(Clone, Copy)]
pub struct Run<'a> {
    /// The row.
    pub case: &'a Case<'a>,
    /// The storage.
    pub storage: StorageName,
    /// Standard error.
    pub errors: Stderr,
}

// Whether two texts are one, if both are there.
fn are_one(text: Result<String, Fault>, other: Result<String, Fault>) -> Result<bool, Fault> {
    let text = text?;
    let other = other?;
    Ok(is_one(text.as_str(), other.as_str()))
}

// Whether two outcomes are one, but for the pairs.
fn is_alike(outcome: &Outcome, other: &Outcome) -> bool {
    is_one(outcome.answer(), other.answer())
        && is_one(outcome.rest(), other.rest())
        && is_one(outcome.left(), other.left())
        && outcome.unread == other.unread
}

// Whether an answer is any fault but want of memory.
fn is_fault(answer: &str) -> bool {
    !is_one(answer, "ok") && !is_one(answer, "OutOfMemory")
}

// Whether bytes are cut off, by the answer; of a rewrite no encoding stands.
fn is_torn(call: &str, answer: &str, rest: &str) -> bool {
    is_one(answer, "UnexpectedEof") && (!is_one(call, "rewrite") || is_one(rest, "text -"))
}

// Puts a line behind others, if it is there.
fn push_line(lines: &mut String, line: Result<String, Fault>) -> Result<(), Fault> {
    let line = line?;
    push_text(lines, line.as_str())?;
    push_text(lines, "\n")
}

// Whether a line is one of others.
fn has_line(lines: &str, line: &str) -> bool {
    for one in lines.split('\n') {
        if is_one(one, line) {
            return true;
        }
    }
    false
}

// Puts a piece behind others, with an empty one before it.
fn push_piece<'a>(pieces: &mut Vec<&'a [u8]>, piece: &'a [u8]) -> Result<(), Fault> {
    pieces.push(&[])?;
    pieces.push(piece)?;
    Ok(())
}

// The bytes one by one, with an empty slice before each.
fn single_bytes<'a>(alloc: Global, bytes: &'a [u8]) -> Result<Vec<&'a [u8]>, Fault> {
    let mut pieces: Vec<&'a [u8]> = Vec::new(alloc);
    for piece in bytes.chunks(1) {
        push_piece(&mut pieces, piece)?;
    }
    Ok(pieces)
}

impl Run<'_> {
    // The pairs as they are compared: in order, where the storage keeps none.
    fn pairs(&self, alloc: Global, pairs: &str) -> Result<String, Fault> {
        match self.storage {
            StorageName::Indexed => copied(alloc, pairs),
            StorageName::Ordered | StorageName::Hashed => in_order(alloc, pairs),
        }
    }

    // What stands after, in words; the pairs come first.
    fn state(&self, alloc: Global, pairs: &str, rest: &str) -> Result<String, Fault> {
        let pairs = self.pairs(alloc, pairs)?;
        joined(alloc, pairs.as_str(), "; ", rest)
    }

    // The same as the row says it.
    fn expected(&self, alloc: Global) -> Result<String, Fault> {
        let after = self.case.after;
        match after.split_once("; ") {
            Some((pairs, rest)) => self.state(alloc, given(pairs), rest),
            None => self.state(alloc, given(after), ""),
        }
    }

    // The same as an outcome has it, with what is left.
    fn found(&self, alloc: Global, outcome: &Outcome) -> Result<String, Fault> {
        let rest = and(alloc, outcome.rest(), outcome.left())?;
        self.state(alloc, outcome.pairs(), rest.as_str())
    }

    // Whether an outcome is the row's. `refused` is any fault but want of memory, and says nothing of the state.
    fn is_right(&self, alloc: Global, outcome: &Outcome) -> Result<bool, Fault> {
        let answer = self.case.answer;
        if is_one(answer, "refused") {
            return Ok(is_fault(outcome.answer()));
        }
        if !is_one(answer, outcome.answer()) {
            return Ok(false);
        }
        are_one(self.found(alloc, outcome), self.expected(alloc))
    }

    // What comes of a slice.
    fn slice<C: CallsOnBytes>(&self, alloc: Global, bytes: &[u8], nth: Option<u64>) -> Found {
        let case = self.case;
        let storage = self.storage;
        let mut mark = Mark::new(self.errors, nth);
        if reads_a_buffer(case.call) {
            C::slice(alloc, case, storage, &mut mark, bytes)
        } else {
            C::called(alloc, case, storage, &mut mark, bytes)
        }
    }

    // What comes of shared bytes.
    fn shared<C: CallsOnBytes>(&self, alloc: Global, bytes: &[u8], nth: Option<u64>) -> Found {
        let mut mark = Mark::new(self.errors, nth);
        let bytes = Bytes::copy_from_slice(alloc, bytes)?;
        C::shared(alloc, self.case, self.storage, &mut mark, bytes)
    }

    // What comes of pieces.
    fn pieces<C: CallsOnBytes>(&self, alloc: Global, pieces: &[&[u8]], nth: Option<u64>) -> Found {
        let mut mark = Mark::new(self.errors, nth);
        C::pieces(alloc, self.case, self.storage, &mut mark, pieces)
    }

    // What comes of single bytes.
    fn singles<C: CallsOnBytes>(&self, alloc: Global, bytes: &[u8], nth: Option<u64>) -> Found {
        let parts = single_bytes(alloc, bytes)?;
        self.pieces::<C>(alloc, parts.as_slice(), nth)
    }

    // Counts whether there is no outcome, or the row's.
    fn tell(&self, alloc: Global, found: Found, tally: &mut Tally) {
        if let Some(outcome) = tally.kept(found) {
            tally.add_told(self.is_right(alloc, &outcome));
        }
    }

    /// The row in one piece: a slice, and shared bytes.
    pub fn whole<C: CallsOnBytes>(&self, alloc: Global, bytes: &[u8], tally: &mut Tally) {
        self.tell(alloc, self.slice::<C>(alloc, bytes, None), tally);
        self.tell(alloc, self.shared::<C>(alloc, bytes, None), tally);
    }

    // The row in two, with an empty slice before each.
    fn in_two<C: CallsOnBytes>(&self, alloc: Global, front: &[u8], back: &[u8], tally: &mut Tally) {
        let parts: [&[u8]; 4] = [&[], front, &[], back];
        self.tell(alloc, self.pieces::<C>(alloc, &parts, None), tally);
    }

    // The row in one piece, and cut.
    fn whole_and_cut<C: CallsOnBytes>(&self, alloc: Global, bytes: &[u8], tally: &mut Tally) {
        self.whole::<C>(alloc, bytes, tally);
        for cut in 0..=bytes.len() {
            self.in_two::<C>(alloc, &bytes[..cut], &bytes[cut..], tally);
        }
        self.tell(alloc, self.singles::<C>(alloc, bytes, None), tally);
    }

    /// The row in one piece, and cut; and each beginning, where it is accepted.
    pub fn each_way<C: CallsOnBytes>(&self, alloc: Global, bytes: &[u8], tally: &mut Tally) {
        self.whole_and_cut::<C>(alloc, bytes, tally);
        if is_one(self.case.answer, "ok") {
            self.beginnings::<C>(alloc, bytes, tally);
        }
    }

    // Whether a beginning is whole: records, or all that the row takes.
    fn is_whole<C: CallsOnBytes>(&self, alloc: Global, front: &[u8], taken: usize) -> bool {
        if reads_to_the_end(self.case.call) {
            return C::are_records(alloc, front);
        }
        front.len() >= taken
    }

    // What stands before the call beside the pairs.
    fn rest_before(&self, alloc: Global) -> Result<String, Fault> {
        if is_one(self.case.call, "rewrite") {
            return copied(alloc, "text -");
        }
        match self.case.setting("list") {
            Some(list) => joined(alloc, "list ", list, ""),
            None => Ok(String::new(alloc)),
        }
    }

    // What stands before the call, as it is told after a refusal.
    fn start(&self, alloc: Global) -> Result<String, Fault> {
        let rest = self.rest_before(alloc)?;
        self.state(alloc, self.case.before(), rest.as_str())
    }

    // What stands of an outcome, of a rewrite without its encoding.
    fn standing(&self, alloc: Global, outcome: &Outcome) -> Result<String, Fault> {
        let rest = if is_one(self.case.call, "rewrite") {
            "text -"
        } else {
            outcome.rest()
        };
        self.state(alloc, outcome.pairs(), rest)
    }

    // Whether a beginning that is refused is cut off, and what its whole records make stands.
    fn is_cut_off(&self, alloc: Global, outcome: &Outcome, standing: &str) -> Result<bool, Fault> {
        if !is_torn(self.case.call, outcome.answer(), outcome.rest()) {
            return Ok(false);
        }
        if !keeps_a_map(self.case.call) {
            return Ok(true);
        }
        let found = self.standing(alloc, outcome)?;
        Ok(is_one(found.as_str(), standing))
    }

    // Whether an outcome is another one.
    fn are_alike(&self, alloc: Global, outcome: &Outcome, other: &Outcome) -> Result<bool, Fault> {
        if !is_alike(outcome, other) {
            return Ok(false);
        }
        are_one(
            self.pairs(alloc, outcome.pairs()),
            self.pairs(alloc, other.pairs()),
        )
    }

    // Counts whether another way, if it is run, has the same outcome, and leaves the same.
    fn tell_alike(&self, alloc: Global, outcome: &Outcome, found: Found, tally: &mut Tally) {
        match tally.kept(found) {
            None => tally.add(true),
            Some(other) => tally.add_told(self.are_alike(alloc, outcome, &other)),
        }
    }

    // A beginning that is whole: it is accepted, and what it makes stands.
    fn stands(&self, alloc: Global, outcome: &Outcome, standing: &mut String, tally: &mut Tally) {
        tally.add(is_one(outcome.answer(), "ok"));
        match self.standing(alloc, outcome) {
            Ok(found) => *standing = found,
            Err(fault) => tally.note(Err(fault)),
        }
    }

    // One beginning: of its whole records what stands, where it is cut off of those before it. In single bytes it has
    // the same outcome.
    fn beginning<C: CallsOnBytes>(
        &self,
        alloc: Global,
        front: &[u8],
        taken: usize,
        standing: &mut String,
        tally: &mut Tally,
    ) {
        if let Some(outcome) = tally.kept(self.slice::<C>(alloc, front, None)) {
            self.tell_alike(
                alloc,
                &outcome,
                self.singles::<C>(alloc, front, None),
                tally,
            );
            if self.is_whole::<C>(alloc, front, taken) {
                self.stands(alloc, &outcome, standing, tally);
            } else {
                tally.add_told(self.is_cut_off(alloc, &outcome, standing.as_str()));
            }
        }
    }

    // Each beginning of a row that takes so many bytes.
    fn each_beginning<C: CallsOnBytes>(
        &self,
        alloc: Global,
        bytes: &[u8],
        taken: usize,
        standing: &mut String,
        tally: &mut Tally,
    ) {
        for cut in 0..bytes.len() {
            self.beginning::<C>(alloc, &bytes[..cut], taken, standing, tally);
        }
    }

    // Each beginning, behind what stands before the call.
    fn from_start<C: CallsOnBytes>(
        &self,
        alloc: Global,
        bytes: &[u8],
        taken: usize,
        tally: &mut Tally,
    ) {
        match self.start(alloc) {
            Ok(mut standing) => {
                self.each_beginning::<C>(alloc, bytes, taken, &mut standing, tally);
            }
            Err(fault) => tally.note(Err(fault)),
        }
    }

    // Each beginning of a row that is accepted: whole, or cut off, and then what its whole records make stands.
    fn beginnings<C: CallsOnBytes>(&self, alloc: Global, bytes: &[u8], tally: &mut Tally) {
        if !reads_bytes(self.case.call) {
            return;
        }
        if let Some(all) = tally.kept(self.slice::<C>(alloc, bytes, None)) {
            let taken = bytes.len().saturating_sub(all.unread);
            self.from_start::<C>(alloc, bytes, taken, tally);
        }
    }

    // Adds what stands after a beginning that is accepted.
    fn push_standing<C: CallsOnBytes>(
        &self,
        alloc: Global,
        front: &[u8],
        lines: &mut String,
        tally: &mut Tally,
    ) {
        if let Some(outcome) = tally.kept(self.slice::<C>(alloc, front, None)) {
            if is_one(outcome.answer(), "ok") {
                tally.note(push_line(lines, self.standing(alloc, &outcome)));
            }
        }
    }

    // What may stand where memory ran out, a line each: what stood before, and of a run what each beginning of records
    // makes.
    fn may_stand<C: CallsOnBytes>(&self, alloc: Global, bytes: &[u8], tally: &mut Tally) -> String {
        let mut lines = String::new(alloc);
        tally.note(push_line(&mut lines, self.start(alloc)));
        if reads_to_the_end(self.case.call) && keeps_a_map(self.case.call) {
            for cut in 0..=bytes.len() {
                self.push_standing::<C>(alloc, &bytes[..cut], &mut lines, tally);
            }
        }
        lines
    }

    // Whether a text is a part of what the row says.
    fn is_expected_in_part(&self, alloc: Global, text: &str) -> Result<bool, Fault> {
        let expected = self.expected(alloc)?;
        Ok(expected.as_str().contains(text))
    }

    // Whether the records or the encoding of an outcome may stand where memory ran out: the records are those
    // before, the encoding is a beginning of the row's.
    fn rest_stands(&self, alloc: Global, rest: &str) -> Result<bool, Fault> {
        if let Some(records) = rest.strip_prefix("records ") {
            return Ok(is_one(records, self.case.before));
        }
        if rest.starts_with("text ") && !is_one(rest, "text -") {
            return self.is_expected_in_part(alloc, rest);
        }
        Ok(true)
    }

    // Whether an outcome is want of memory, and what stands may stand then.
    fn is_refused_well(&self, alloc: Global, outcome: &Outcome, may: &str) -> Result<bool, Fault> {
        if !is_one(outcome.answer(), "OutOfMemory") || !self.rest_stands(alloc, outcome.rest())? {
            return Ok(false);
        }
        if !keeps_a_map(self.case.call) {
            return Ok(true);
        }
        let found = self.standing(alloc, outcome)?;
        Ok(has_line(may, found.as_str()))
    }

    // The outcome of a way: whole, or in single bytes.
    fn by<C: CallsOnBytes>(&self, alloc: Global, bytes: &[u8], cut: bool, nth: u64) -> Found {
        if !cut {
            return self.slice::<C>(alloc, bytes, Some(nth));
        }
        self.singles::<C>(alloc, bytes, Some(nth))
    }

    // Whether an outcome after a request that was refused is as it may be: want of memory, or where the row says that
    // memory is spared, the row's.
    fn is_excused(&self, alloc: Global, outcome: &Outcome, may: &str) -> Result<bool, Fault> {
        if self.case.says("memory", "spared") && self.is_right(alloc, outcome)? {
            return Ok(true);
        }
        self.is_refused_well(alloc, outcome, may)
    }

    // Counts what comes of a request that was refused, or of none, as the outcome tells; whether one was.
    fn tell_refused(&self, alloc: Global, found: Found, may: &str, tally: &mut Tally) -> bool {
        match tally.kept(found) {
            None => false,
            Some(outcome) => {
                if outcome.refused {
                    tally.add_refused_told(self.is_excused(alloc, &outcome, may));
                } else {
                    tally.add_told(self.is_right(alloc, &outcome));
                }
                outcome.refused
            }
        }
    }

    // How many requests the call may make, and one more.
    fn requests(&self, tally: &mut Tally) -> u64 {
        match self.case.number_or("requests", 1000) {
            Ok(most) => most.saturating_add(1),
            Err(fault) => {
                tally.note(Err(fault));
                0
            }
        }
    }

    // Each request refused in turn.
    fn refused_by<C: CallsOnBytes>(
        &self,
        alloc: Global,
        bytes: &[u8],
        cut: bool,
        may: &str,
        tally: &mut Tally,
    ) {
        for nth in 1..=self.requests(tally) {
            if !self.tell_refused(alloc, self.by::<C>(alloc, bytes, cut, nth), may, tally) {
                return;
            }
        }
        tally.add(false);
    }

    // Counts whether an outcome is the row's, and no request was made that could be refused.
    fn tell_none(&self, alloc: Global, found: Found, tally: &mut Tally) {
        if let Some(outcome) = tally.kept(found) {
            let right = self.is_right(alloc, &outcome);
            tally.add(!outcome.refused);
            tally.add_told(right);
        }
    }

    // All requests refused of a row in two.
    fn in_two_with_none<C: CallsOnBytes>(
        &self,
        alloc: Global,
        front: &[u8],
        back: &[u8],
        tally: &mut Tally,
    ) {
        let parts: [&[u8]; 2] = [front, back];
        self.tell_none(alloc, self.pieces::<C>(alloc, &parts, Some(0)), tally);
    }

    // All requests refused of a row that makes none, cut: in single bytes, and in two.
    fn cut_with_none<C: CallsOnBytes>(&self, alloc: Global, bytes: &[u8], tally: &mut Tally) {
        self.tell_none(alloc, self.by::<C>(alloc, bytes, true, 0), tally);
        for cut in 0..=bytes.len() {
            self.in_two_with_none::<C>(alloc, &bytes[..cut], &bytes[cut..], tally);
        }
    }

    // All requests refused of a row that says that it makes none (`none`), or none of bytes in one piece (`whole`).
    fn with_none<C: CallsOnBytes>(&self, alloc: Global, bytes: &[u8], tally: &mut Tally) {
        let none = self.case.says("memory", "none");
        if none || self.case.says("memory", "whole") {
            self.tell_none(alloc, self.by::<C>(alloc, bytes, false, 0), tally);
        }
        if none {
            self.cut_with_none::<C>(alloc, bytes, tally);
        }
    }

    /// Each request for memory refused in turn, whole and in single bytes; and all of them, where the row says that
    /// it makes none, and it is seen that it made none.
    pub fn refused<C: CallsOnBytes>(&self, alloc: Global, bytes: &[u8], tally: &mut Tally) {
        let may = self.may_stand::<C>(alloc, bytes, tally);
        self.refused_by::<C>(alloc, bytes, false, may.as_str(), tally);
        self.refused_by::<C>(alloc, bytes, true, may.as_str(), tally);
        self.with_none::<C>(alloc, bytes, tally);
    }

    // Whether records of a length end at a place near one of both ends of bytes: of the first sixty-four, or the last
    // twelve.
    fn is_near_an_end(&self, place: usize, step: usize, len: usize) -> bool {
        place.checked_rem(step) == Some(0)
            && (place < step.saturating_mul(64)
                || len.saturating_sub(place) < step.saturating_mul(12))
    }

    // What may stand where one of the first or last requests is refused: what stood before, and where the row says how
    // long each of its records is what those near both ends make.
    fn may_stand_at_ends<C: CallsOnBytes>(
        &self,
        alloc: Global,
        bytes: &[u8],
        step: usize,
        tally: &mut Tally,
    ) -> String {
        let mut lines = String::new(alloc);
        tally.note(push_line(&mut lines, self.start(alloc)));
        for cut in 0..=bytes.len() {
            if self.is_near_an_end(cut, step, bytes.len()) {
                self.push_standing::<C>(alloc, &bytes[..cut], &mut lines, tally);
            }
        }
        lines
    }

    // How many requests the call makes where none is refused.
    fn count<C: CallsOnBytes>(&self, alloc: Global, bytes: &[u8], tally: &mut Tally) -> u64 {
        self.tell(
            alloc,
            self.slice::<C>(alloc, bytes, Some(NO_REQUEST)),
            tally,
        );
        Mark::new(self.errors, Some(0)).requests(alloc)
    }

    // Some of the requests of a call refused in turn.
    fn some_refused<C: CallsOnBytes>(
        &self,
        alloc: Global,
        bytes: &[u8],
        which: (u64, u64),
        may: &str,
        tally: &mut Tally,
    ) {
        for nth in which.0..=which.1 {
            let found = self.slice::<C>(alloc, bytes, Some(nth));
            if !self.tell_refused(alloc, found, may, tally) {
                tally.add(false);
            }
        }
    }

    // Whether the call makes no more requests than the row says, where it says how many.
    fn is_within(&self, all: u64) -> Result<bool, Fault> {
        Ok(all <= self.case.number_or("requests", all)?)
    }

    /// The first fifty requests for memory refused in turn, and the last ten, of a row that is run once, and whether there are
    /// no more than it says.
    pub fn refused_at_ends<C: CallsOnBytes>(&self, alloc: Global, bytes: &[u8], tally: &mut Tally) {
        let Ok(step) = self.case.number_or("step", 0) else {
            return tally.add(false);
        };
        let may = self.may_stand_at_ends::<C>(alloc, bytes, step as usize, tally);
        let all = self.count::<C>(alloc, bytes, tally);
        tally.add_told(self.is_within(all));
        self.some_refused::<C>(alloc, bytes, (1, all.min(50)), may.as_str(), tally);
        let last = all.saturating_sub(9).max(51);
        self.some_refused::<C>(alloc, bytes, (last, all), may.as_str(), tally);
    }
}
