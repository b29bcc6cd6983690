// Messages behind a length, which leave what follows them.

use crate::merges::{limits_of, outcome_of, standing};
use crate::messages::merged_told;
use buffa_wire::{Buf, DecodeContext, DecodeError, Message};
use conformance_rows::case::Case;
use conformance_rows::fault::Fault;
use conformance_rows::mark::Mark;
use conformance_rows::outcome::Outcome;
use conformance_rows::words::Worded;
use std::alloc::Global;

// Merges a length and so many bytes into a message.
fn merge<M: Message, B: Buf>(
    alloc: Global,
    message: &mut M,
    buf: &mut B,
    ctx: DecodeContext<'_>,
) -> Result<(), DecodeError> {
    message.merge_length_delimited::<B>(alloc, buf, ctx)
}

// The same, and says how many bytes are unread.
fn merged<M: Message, B: Buf>(
    alloc: Global,
    message: &mut M,
    buf: &mut B,
    ctx: DecodeContext<'_>,
) -> Result<usize, DecodeError> {
    merge::<M, B>(alloc, message, buf, ctx)?;
    Ok(buf.remaining())
}

// The same, and whether a request for memory was refused.
fn merging<M: Message, B: Buf>(
    alloc: Global,
    mark: &mut Mark,
    buf: &mut B,
    message: &mut M,
    ctx: DecodeContext<'_>,
) -> (Result<usize, DecodeError>, bool) {
    mark.begin(alloc);
    let answer = merged::<M, B>(alloc, message, buf, ctx);
    (answer, mark.end())
}

/// What comes of a length and so many bytes that are merged into a message.
pub fn delimited<By, M: Message + Worded<By>, B: Buf>(
    alloc: Global,
    case: &Case<'_>,
    mark: &mut Mark,
    buf: &mut B,
) -> Result<Outcome, Fault> {
    let (mut budget, depth) = limits_of(case)?;
    let mut message = standing::<M>(alloc, case)?;
    let ctx = DecodeContext::new(depth, &mut budget);
    let (answer, refused) = merging::<M, B>(alloc, mark, buf, &mut message, ctx);
    let words = merged_told::<By, M>(alloc, case, answer.is_ok(), &message);
    outcome_of(alloc, case, answer, words, &budget, refused)
}
