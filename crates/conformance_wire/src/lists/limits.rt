// Limits by their names, and what is told past those that are spent.

use buffa_wire::message::MAX_MESSAGE_BYTES;
use buffa_wire::{
    Budget, DEFAULT_ELEMENT_MEMORY_LIMIT, DEFAULT_UNKNOWN_FIELD_LIMIT, DecodeContext, DecodeError,
    MAX_FIELD_NUMBER, RECURSION_LIMIT,
};
use conformance_rows::case::Case;
use conformance_rows::fault::Fault;
use conformance_rows::mark::Mark;
use conformance_rows::outcome::{Outcome, in_words, told};
use std::alloc::Global;

// A number, and what is told past it.
type Limit = (u64, Result<(), DecodeError>);

// How many levels there are, and what is told of one more.
fn levels() -> Limit {
    let mut budget = Budget::new(0);
    let mut ctx = DecodeContext::new(RECURSION_LIMIT, &mut budget);
    for level in 0..1000u64 {
        match ctx.descend() {
            Ok(inner) => ctx = inner,
            Err(fault) => return (level, Err(fault)),
        }
    }
    (1000, Ok(()))
}

// How many unknown fields there are, and what is told of one more.
fn unknown() -> Limit {
    let mut budget = Budget::new(DEFAULT_UNKNOWN_FIELD_LIMIT);
    for taken in 0..10_000_000u64 {
        if let Err(fault) = budget.take_unknown() {
            return (taken, Err(fault));
        }
    }
    (10_000_000, Ok(()))
}

// How many units a budget has where nothing is said, and what is told of one more than the limit.
fn units() -> Limit {
    let mut budget = Budget::new(0);
    let all = budget.memory_left() as u64;
    match budget.take_memory(DEFAULT_ELEMENT_MEMORY_LIMIT) {
        Ok(()) => (all, budget.take_memory(1)),
        Err(_) => (0, Ok(())),
    }
}

// The limit of a name.
fn limit_of(name: &str) -> Option<Limit> {
    match name {
        "depth" => Some(levels()),
        "unknown" => Some(unknown()),
        "units" => Some(units()),
        "number" => Some((u64::from(MAX_FIELD_NUMBER), Ok(()))),
        "bytes" => Some((u64::from(MAX_MESSAGE_BYTES), Ok(()))),
        _ => None,
    }
}

/// A limit by its name, and what is told past it.
pub fn limits(alloc: Global, case: &Case<'_>, mark: &mut Mark) -> Result<Outcome, Fault> {
    mark.begin(alloc);
    let found = limit_of(case.types);
    let refused = mark.end();
    let Some((limit, answer)) = found else {
        return Err(Fault::Form);
    };
    let words = in_words(alloc, &limit);
    let none = Ok(String::new(alloc));
    Outcome::of_words(alloc, told(alloc, answer), words, none, refused)
}
