// Bytes that are merged into a message, and what stands where they are refused.

use crate::nodes::Nodes;
use buffa_wire::{Buf, DecodeContext, DecodeError, Message, RECURSION_LIMIT};
use conformance_messages::merges::{field, merging, standing};
use conformance_rows::case::Case;
use conformance_rows::fault::Fault;
use conformance_rows::mark::Mark;
use conformance_rows::outcome::{Outcome, budget_of, in_words, left, told};
use conformance_rows::words::{Worded, joined};
use std::alloc::Global;

// How many levels a row gives.
fn levels(case: &Case<'_>) -> Result<u32, Fault> {
    if case.says("how", "alone") {
        return Ok(RECURSION_LIMIT);
    }
    case.depth()
}

// Whether a message's word is this one.
fn has_word<M: Worded<Nodes>>(alloc: Global, message: &M, word: &str) -> Result<bool, Fault> {
    Ok(message.word(alloc)?.as_str() == word)
}

// Whether what stands after a refusal is what the fields before the refused one make of the message before, merged one
// by one; where memory ran out any of the fields may be the refused one.
fn stands<M: Message + Worded<Nodes>>(
    alloc: Global,
    case: &Case<'_>,
    bytes: &[u8],
    word: &str,
    full: bool,
) -> Result<bool, Fault> {
    let mut message = standing::<M>(alloc, case)?;
    let mut budget = budget_of(case)?;
    let levels = levels(case)?;
    let mut rest = bytes;
    let mut found = false;
    for _ in 0..=bytes.len() {
        found = has_word::<M>(alloc, &message, word)? || (full && found);
        let ctx = DecodeContext::new(levels, &mut budget);
        if field::<M>(alloc, &mut message, &mut rest, ctx).is_err() {
            return Ok(found);
        }
        if rest.remaining() == 0 || case.call == "merge-field" {
            return Ok(full && found);
        }
    }
    Ok(false)
}

// The answer of a merge; another one where other fields stand than those before a refused one.
fn answer_told<M: Message + Worded<Nodes>>(
    alloc: Global,
    case: &Case<'_>,
    bytes: &[u8],
    answer: Result<usize, DecodeError>,
    word: &str,
) -> Result<String, Fault> {
    let Err(fault) = answer else {
        return told(alloc, answer);
    };
    let full = fault == DecodeError::OutOfMemory;
    if stands::<M>(alloc, case, bytes, word, full)? {
        return told(alloc, answer);
    }
    let fault = in_words(alloc, &fault)?;
    joined(alloc, fault.as_str(), ", and other fields stand", "")
}

/// What comes of bytes that are merged, all of them or one field: the message, also where a field is refused.
pub(crate) fn merge<M: Message + Worded<Nodes>>(
    alloc: Global,
    case: &Case<'_>,
    mark: &mut Mark,
    bytes: &[u8],
) -> Result<Outcome, Fault> {
    let mut budget = budget_of(case)?;
    let ctx = DecodeContext::new(case.depth()?, &mut budget);
    let mut message = standing::<M>(alloc, case)?;
    let (answer, refused) = merging::<M>(alloc, case, mark, bytes, &mut message, ctx);
    let word = message.word(alloc)?;
    let told = answer_told::<M>(alloc, case, bytes, answer, word.as_str());
    let unread = answer.unwrap_or(0);
    let none = Ok(String::new(alloc));
    let left = left(alloc, case, &budget, unread);
    Outcome::of_words(alloc, told, Ok(word), none, refused)?.with_left(left, unread)
}
