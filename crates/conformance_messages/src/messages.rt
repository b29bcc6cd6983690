// Calls on messages.

use crate::merges::{limits_of, merging, outcome_of, standing};
use crate::passes::of_map;
use crate::slots::{sized, sized_outcome, with_slots};
use buffa_wire::{DecodeContext, EncodeError, Message};
use conformance_rows::calls::StorageName;
use conformance_rows::case::Case;
use conformance_rows::fault::Fault;
use conformance_rows::mark::Mark;
use conformance_rows::outcome::{Outcome, got, text_told, written};
use conformance_rows::words::Worded;
use std::alloc::Global;

/// The word of a message; after a refusal, when it is some value of its type, only where the row says `state=told`.
pub(crate) fn merged_told<By, M: Worded<By>>(
    alloc: Global,
    case: &Case<'_>,
    is_ok: bool,
    message: &M,
) -> Result<String, Fault> {
    if is_ok || case.says("state", "told") {
        return message.word(alloc);
    }
    Ok(String::new(alloc))
}

// Bytes that are merged into a message, and what it is then.
fn merge<By, M: Message + Worded<By>>(
    alloc: Global,
    case: &Case<'_>,
    mark: &mut Mark,
    bytes: &[u8],
) -> Result<Outcome, Fault> {
    let (mut budget, depth) = limits_of(case)?;
    let mut message = standing::<M>(alloc, case)?;
    let ctx = DecodeContext::new(depth, &mut budget);
    let (answer, refused) = merging::<M>(alloc, case, mark, bytes, &mut message, ctx);
    let words = merged_told::<By, M>(alloc, case, answer.is_ok(), &message);
    outcome_of(alloc, case, answer, words, &budget, refused)
}

// An encoding that was made, or none.
fn made_told(alloc: Global, made: &Result<Vec<u8>, EncodeError>) -> Result<String, Fault> {
    let text = match made {
        Ok(text) => text.as_slice(),
        Err(_) => &[],
    };
    text_told(alloc, text)
}

// The encoding of a message, by both passes.
fn encoded<M: Message>(alloc: Global, message: &M) -> Result<Vec<u8>, EncodeError> {
    message.try_encode_to_vec(alloc)
}

// The encoding of a message.
fn encode<M: Message>(alloc: Global, case: &Case<'_>, mark: &mut Mark) -> Result<Outcome, Fault> {
    let message = standing::<M>(alloc, case)?;
    mark.begin(alloc);
    let made = encoded::<M>(alloc, &message);
    let refused = mark.end();
    let text = made_told(alloc, &made);
    Outcome::of_words(
        alloc,
        written(alloc, made),
        Ok(String::new(alloc)),
        text,
        refused,
    )
}

// The size of a message, and the slots of the cache, where the row tells them.
fn size<M: Message>(alloc: Global, case: &Case<'_>, mark: &mut Mark) -> Result<Outcome, Fault> {
    let message = standing::<M>(alloc, case)?;
    let mut cache = with_slots(alloc, case)?;
    mark.begin(alloc);
    let made = sized::<M>(&message, &mut cache);
    let refused = mark.end();
    sized_outcome(alloc, case, &mut cache, made, refused)
}

// Clears a message.
fn empty<M: Message>(alloc: Global, message: &mut M) {
    message.clear(alloc);
}

// A message that is cleared.
fn clear<By, M: Message + Worded<By>>(
    alloc: Global,
    case: &Case<'_>,
    mark: &mut Mark,
) -> Result<Outcome, Fault> {
    let mut message = standing::<M>(alloc, case)?;
    mark.begin(alloc);
    empty::<M>(alloc, &mut message);
    let refused = mark.end();
    let word = message.word(alloc);
    Outcome::of_words(
        alloc,
        got(alloc, true),
        word,
        Ok(String::new(alloc)),
        refused,
    )
}

/// What comes of a row on a message, or on a map of them.
pub fn message<By, M: Message + Worded<By>>(
    alloc: Global,
    case: &Case<'_>,
    storage: StorageName,
    mark: &mut Mark,
    bytes: &[u8],
) -> Result<Outcome, Fault> {
    match case.call {
        "merge" | "merge-field" => merge::<By, M>(alloc, case, mark, bytes),
        "encode" => encode::<M>(alloc, case, mark),
        "message-size" => size::<M>(alloc, case, mark),
        "message-clear" => clear::<By, M>(alloc, case, mark),
        "size-messages" | "write-messages" => of_map::<M>(alloc, case, storage, mark),
        _ => Err(Fault::Form),
    }
}
