// What stands in a message whose members are told as words, where bytes that are merged are refused.

use crate::merges::{field, limits_of, merging, outcome_of, standing};
use crate::messages::message;
use crate::parts::{Parted, Parts, parts_of};
use buffa_wire::{Budget, Buf, DecodeContext, DecodeError, Message, RECURSION_LIMIT, Tag};
use conformance_rows::calls::StorageName;
use conformance_rows::case::Case;
use conformance_rows::fault::Fault;
use conformance_rows::mark::Mark;
use conformance_rows::outcome::Outcome;
use conformance_rows::words::Worded;
use std::alloc::Global;

// The number of the next field; 0 where no tag is read.
fn next_number(bytes: &[u8]) -> u32 {
    let mut rest = bytes;
    match Tag::decode(&mut rest) {
        Ok(tag) => tag.field_number(),
        Err(_) => 0,
    }
}

// Whether a message is one that was found, but for the member of the next field.
fn is_found<By, M: Parted<By>>(
    alloc: Global,
    message: &M,
    found: &Parts<By>,
    rest: &[u8],
) -> Result<bool, Fault> {
    let parts = parts_of::<By, M>(alloc, message)?;
    Ok(found.is_same_but(&parts, next_number(rest)))
}

// What is merged field by field: the bytes that are left, the levels, the budget, and whether what was found stood.
#[derive(Drop)]
struct Walk<'a> {
    rest: &'a [u8],
    levels: u32,
    budget: Budget,
    seen: bool,
}

// The walk over the fields of a row.
fn walk_of<'a>(case: &Case<'_>, bytes: &'a [u8]) -> Result<Walk<'a>, Fault> {
    let (budget, depth) = limits_of(case)?;
    let alone = case.says("how", "alone");
    Ok(Walk {
        rest: bytes,
        levels: if alone { RECURSION_LIMIT } else { depth },
        budget,
        seen: false,
    })
}

// Merges the next field; whether the row has one more then, or none where this one is refused.
fn next<M: Message>(
    alloc: Global,
    case: &Case<'_>,
    message: &mut M,
    walk: &mut Walk<'_>,
) -> Option<bool> {
    let ctx = DecodeContext::new(walk.levels, &mut walk.budget);
    match field::<M>(alloc, message, &mut walk.rest, ctx) {
        Ok(()) => Some(walk.rest.remaining() > 0 && case.call != "merge-field"),
        Err(_) => None,
    }
}

// Judges what stands before the next field, which is merged; whether what was found may stand, once that is known.
fn judged<By, M: Message + Parted<By>>(
    alloc: Global,
    case: &Case<'_>,
    message: &mut M,
    found: &Parts<By>,
    full: bool,
    walk: &mut Walk<'_>,
) -> Result<Option<bool>, Fault> {
    let here = is_found::<By, M>(alloc, message, found, walk.rest)?;
    walk.seen = here || (full && walk.seen);
    match next::<M>(alloc, case, message, walk) {
        None => Ok(Some(walk.seen)),
        Some(true) => Ok(None),
        Some(false) => Ok(Some(full && walk.seen)),
    }
}

// Whether what was found is what the first of some fields make of a message.
fn comes<By, M: Message + Parted<By>>(
    alloc: Global,
    case: &Case<'_>,
    message: &mut M,
    found: &Parts<By>,
    full: bool,
    mut walk: Walk<'_>,
) -> Result<bool, Fault> {
    for _ in 0..=walk.rest.len() {
        if let Some(may) = judged::<By, M>(alloc, case, message, found, full, &mut walk)? {
            return Ok(may);
        }
    }
    Ok(false)
}

// Whether what stands after a refusal is what the fields before the refused one make of the message before, but for the
// member of the refused one; where memory ran out any of the fields may be the refused one.
fn stands<By, M: Message + Parted<By>>(
    alloc: Global,
    case: &Case<'_>,
    bytes: &[u8],
    found: &Parts<By>,
    full: bool,
) -> Result<bool, Fault> {
    let walk = walk_of(case, bytes)?;
    let mut message = standing::<M>(alloc, case)?;
    comes::<By, M>(alloc, case, &mut message, found, full, walk)
}

// Whether what stands after a fault may.
fn may_stand<By, M: Message + Parted<By>>(
    alloc: Global,
    case: &Case<'_>,
    bytes: &[u8],
    fault: DecodeError,
    message: &M,
) -> Result<bool, Fault> {
    let found = parts_of::<By, M>(alloc, message)?;
    let full = fault == DecodeError::OutOfMemory;
    stands::<By, M>(alloc, case, bytes, &found, full)
}

// What stands in words; after a refusal, when the refused field's member is some value of its type, only where it is to
// be told. It is no outcome where other fields stand than may.
fn state<By, M: Message + Parted<By> + Worded<By>>(
    alloc: Global,
    case: &Case<'_>,
    bytes: &[u8],
    answer: Result<usize, DecodeError>,
    message: &M,
    is_told: bool,
) -> Result<String, Fault> {
    let Err(fault) = answer else {
        return message.word(alloc);
    };
    if !may_stand::<By, M>(alloc, case, bytes, fault, message)? {
        return Err(Fault::Form);
    }
    if is_told {
        return message.word(alloc);
    }
    Ok(String::new(alloc))
}

/// What comes of bytes that are merged, all of them or one field: the message in words, after a refusal only where it
/// is to be told.
pub fn merge<By, M: Message + Parted<By> + Worded<By>>(
    alloc: Global,
    case: &Case<'_>,
    mark: &mut Mark,
    bytes: &[u8],
    is_told: bool,
) -> Result<Outcome, Fault> {
    let (mut budget, depth) = limits_of(case)?;
    let mut message = standing::<M>(alloc, case)?;
    let ctx = DecodeContext::new(depth, &mut budget);
    let (answer, refused) = merging::<M>(alloc, case, mark, bytes, &mut message, ctx);
    let words = state::<By, M>(alloc, case, bytes, answer, &message, is_told);
    outcome_of(alloc, case, answer, words, &budget, refused)
}

/// What comes of a row on a message whose members are told as words; after a refusal where the row says `state=told`.
pub fn parted<By, M: Message + Parted<By> + Worded<By>>(
    alloc: Global,
    case: &Case<'_>,
    storage: StorageName,
    mark: &mut Mark,
    bytes: &[u8],
) -> Result<Outcome, Fault> {
    match case.call {
        "merge" | "merge-field" => {
            let is_told = case.says("state", "told");
            merge::<By, M>(alloc, case, mark, bytes, is_told)
        }
        _ => message::<By, M>(alloc, case, storage, mark, bytes),
    }
}
