// What comes of a call, in words.

use crate::tables::case::Case;
use crate::tables::fault::Fault;
use crate::tables::outcome::left_told;
pub use crate::tables::outcome::{
    Outcome, and, digits_told, got, in_words, text_told, two_in_words,
};
use crate::words::records_word;
use buffa_wire::{Budget, Buf, DecodeError, EncodeError, UnknownFields};
use std::alloc::Global;

/// The word of an answer.
pub fn told<T: Drop>(alloc: Global, answer: Result<T, DecodeError>) -> Result<String, Fault> {
    match answer {
        Ok(_) => got(alloc, true),
        Err(fault) => in_words(alloc, &fault),
    }
}

/// The word of a write's answer.
pub fn written<T: Drop>(alloc: Global, answer: Result<T, EncodeError>) -> Result<String, Fault> {
    match answer {
        Ok(_) => got(alloc, true),
        Err(fault) => in_words(alloc, &fault),
    }
}

/// Records, in hexadecimal.
pub fn records_told(alloc: Global, fields: &UnknownFields) -> Result<String, Fault> {
    let digits = records_word(alloc, fields)?;
    digits_told(alloc, "records", digits.as_str())
}

/// A number of bytes where a call wrote or counted them, nothing where it failed.
pub fn count_told(alloc: Global, count: Result<u64, EncodeError>) -> Result<String, Fault> {
    match count {
        Ok(count) => in_words(alloc, &count),
        Err(_) => Ok(String::new(alloc)),
    }
}

/// What is left of a budget, where the row's settings name it, and of the buffer, where some is.
pub fn left(
    alloc: Global,
    case: &Case<'_>,
    budget: &Budget,
    unread: usize,
) -> Result<String, Fault> {
    left_told(
        alloc,
        case,
        budget.unknown_left(),
        budget.memory_left(),
        unread,
    )
}

/// The budget that a row's settings give.
pub fn budget_of(case: &Case<'_>) -> Result<Budget, Fault> {
    let unknown = case.unknown()?;
    let units = case.units()?;
    Ok(Budget::new(unknown).with_element_memory(units))
}

/// An outcome with what is left of a budget and of the buffer, and how many bytes are unread.
pub fn with_left(
    alloc: Global,
    case: &Case<'_>,
    budget: &Budget,
    outcome: Result<Outcome, Fault>,
    unread: usize,
) -> Result<Outcome, Fault> {
    outcome?.with_left(left(alloc, case, budget, unread), unread)
}

/// The same of a call that has no budget.
pub fn with_unread(
    alloc: Global,
    case: &Case<'_>,
    outcome: Result<Outcome, Fault>,
    unread: usize,
) -> Result<Outcome, Fault> {
    with_left(alloc, case, &Budget::new(0), outcome, unread)
}

/// How many bytes are unread where an answer is ok.
pub fn unread<B: Buf>(is_ok: bool, buf: &B) -> usize {
    if is_ok { buf.remaining() } else { 0 }
}
