// Bytes that are merged into a message.

use buffa_wire::{Budget, Buf, DecodeContext, DecodeError, Message, Tag};
use conformance_rows::case::Case;
use conformance_rows::fault::Fault;
use conformance_rows::mark::Mark;
use conformance_rows::outcome::{Outcome, budget_of, told, with_left};
use std::alloc::Global;

// Merges all fields under budgets of their own.
fn alone<M: Message>(alloc: Global, message: &mut M, bytes: &[u8]) -> Result<(), DecodeError> {
    message.merge_from_slice(alloc, bytes)
}

// Merges all fields.
fn together<M: Message>(
    alloc: Global,
    message: &mut M,
    bytes: &[u8],
    ctx: DecodeContext<'_>,
) -> Result<(), DecodeError> {
    let mut rest = bytes;
    message.merge(alloc, &mut rest, ctx)
}

// The message that bytes are read as.
fn message_of<M: Message>(alloc: Global, bytes: &[u8]) -> Result<M, Fault> {
    let mut message = M::blank(alloc);
    match alone::<M>(alloc, &mut message, bytes) {
        Ok(()) => Ok(message),
        Err(_) => Err(Fault::Form),
    }
}

/// The message that the bytes before are read as.
pub fn standing<M: Message>(alloc: Global, case: &Case<'_>) -> Result<M, Fault> {
    let bytes = hex::decode(alloc, case.before())?;
    message_of::<M>(alloc, bytes.as_slice())
}

/// The budget of a row, and its depth.
pub(crate) fn limits_of(case: &Case<'_>) -> Result<(Budget, u32), Fault> {
    let budget = budget_of(case)?;
    Ok((budget, case.depth()?))
}

// A tag.
fn tag_of(buf: &mut &[u8]) -> Result<Tag, DecodeError> {
    Tag::decode(buf)
}

// Merges the field of a tag.
fn tagged<M: Message>(
    alloc: Global,
    message: &mut M,
    tag: Tag,
    buf: &mut &[u8],
    ctx: DecodeContext<'_>,
) -> Result<(), DecodeError> {
    message.merge_field(alloc, tag, buf, ctx)
}

/// Merges one field, tag and all.
pub fn field<M: Message>(
    alloc: Global,
    message: &mut M,
    buf: &mut &[u8],
    ctx: DecodeContext<'_>,
) -> Result<(), DecodeError> {
    let tag = tag_of(buf)?;
    tagged::<M>(alloc, message, tag, buf, ctx)
}

// Merges all fields; under budgets of their own, where the row says `how=alone`.
fn fields<M: Message>(
    alloc: Global,
    case: &Case<'_>,
    message: &mut M,
    bytes: &[u8],
    ctx: DecodeContext<'_>,
) -> Result<(), DecodeError> {
    if case.says("how", "alone") {
        return alone::<M>(alloc, message, bytes);
    }
    together::<M>(alloc, message, bytes, ctx)
}

// Merges the first field of bytes, and says how many are unread.
fn field_of<M: Message>(
    alloc: Global,
    message: &mut M,
    bytes: &[u8],
    ctx: DecodeContext<'_>,
) -> Result<usize, DecodeError> {
    let mut buf = bytes;
    field::<M>(alloc, message, &mut buf, ctx)?;
    Ok(buf.remaining())
}

// Merges what the row says, all fields or one, and says how many bytes are unread.
fn merged<M: Message>(
    alloc: Global,
    case: &Case<'_>,
    message: &mut M,
    bytes: &[u8],
    ctx: DecodeContext<'_>,
) -> Result<usize, DecodeError> {
    if case.call == "merge-field" {
        return field_of::<M>(alloc, message, bytes, ctx);
    }
    fields::<M>(alloc, case, message, bytes, ctx)?;
    Ok(0)
}

/// What comes of a merge, with the message in words: the answer says how many bytes are unread.
pub(crate) fn outcome_of(
    alloc: Global,
    case: &Case<'_>,
    answer: Result<usize, DecodeError>,
    words: Result<String, Fault>,
    budget: &Budget,
    refused: bool,
) -> Result<Outcome, Fault> {
    let unread = answer.unwrap_or(0);
    let none = Ok(String::new(alloc));
    let outcome = Outcome::of_words(alloc, told(alloc, answer), words, none, refused);
    with_left(alloc, case, budget, outcome, unread)
}

/// Merges what the row says, and says how many bytes are unread, and whether a request for memory was refused.
pub fn merging<M: Message>(
    alloc: Global,
    case: &Case<'_>,
    mark: &mut Mark,
    bytes: &[u8],
    message: &mut M,
    ctx: DecodeContext<'_>,
) -> (Result<usize, DecodeError>, bool) {
    mark.begin(alloc);
    let answer = merged::<M>(alloc, case, message, bytes, ctx);
    (answer, mark.end())
}
