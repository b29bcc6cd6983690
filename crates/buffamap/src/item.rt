// `item`: the number, the message bytes and the rest of a MessageSet's Item.
ghost use Rattle.std.specs.Prelude.{◌≡◌, IfErr, IfOk};
ghost use Rattle.buffamap.specs.Fault.{TellsReply};
ghost use Rattle.buffamap.specs.Item.{IsFound, RepliesToItem, item_of_input, item_lines};
ghost use Rattle.buffamap.specs.Reply.{success};

use crate::fault::Fault;
use crate::forms::{hex_bytes, without_newline};
use buffa_message_set::message_set::merge_item;
use buffa_wire::{Budget, DEFAULT_UNKNOWN_FIELD_LIMIT, DecodeContext, RECURSION_LIMIT};
use std::alloc::{AllocError, Global};

// An Item is one level deep.
const DEPTH: u32 = RECURSION_LIMIT - 1;

// A line for each part.
fn item_lines(
    alloc: Global,
    number: u32,
    payload: &[u8],
    rest: &[u8],
) -> Result<Vec<u8>, AllocError>
    ensures { IfOk result (λ text. text.items ≡ item_lines number payload.now rest.now) }
{
    let payload = hex::encode(alloc, payload)?;
    let rest = hex::encode(alloc, rest)?;
    let text = format!(in alloc; "{number}\n{payload}\n{rest}\n")?;
    Ok(text.into_bytes())
}

// The answer to an Item.
fn item_bytes(alloc: Global, bytes: &[u8]) -> Result<Vec<u8>, Fault>
    ensures text { IfOk result (λ text. IsFound (item_of_input bytes.now) (success text.items)) }
    ensures fault { IfErr result (TellsReply (IsFound (item_of_input bytes.now))) }
{
    let mut budget = Budget::new(DEFAULT_UNKNOWN_FIELD_LIMIT);
    let ctx = DecodeContext::new(DEPTH, &mut budget);
    let mut rest = bytes;
    let (number, payload) = merge_item(alloc, &mut rest, ctx)?;
    Ok(item_lines(alloc, number, payload.as_slice(), rest)?)
}

/// Three lines on an Item, of which the input gives in hexadecimal what follows the start tag: the number, the
/// message bytes, and what follows the Item, both in hexadecimal.
pub fn item_reply(alloc: Global, input: &[u8]) -> Result<Vec<u8>, Fault>
    ensures text { IfOk result (λ text. RepliesToItem input.now (success text.items)) }
    ensures fault { IfErr result (TellsReply (RepliesToItem input.now)) }
{
    let bytes = hex_bytes(alloc, without_newline(input))?;
    item_bytes(alloc, bytes.as_slice())
}
