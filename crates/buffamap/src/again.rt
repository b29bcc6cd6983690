// `again node`, `again set`: a message, read and written again.
ghost use Rattle.std.specs.Prelude.{IfErr, IfOk};
ghost use Rattle.buffamap.specs.Again.{IsReadAgain, RepliesToAgain};
ghost use Rattle.buffamap.specs.Fault.{TellsReply};
ghost use Rattle.buffamap.specs.Reply.{success};

use crate::fault::Fault;
use crate::forms::{hex_bytes, hex_line, without_newline};
use buffa_wire::Message;
use std::alloc::Global;

// The answer to a message.
fn again_bytes<M: Message>(alloc: Global, bytes: &[u8]) -> Result<Vec<u8>, Fault>
    ensures text { IfOk result (λ text. IsReadAgain M.merged M.cost M.encoding M.blank_is bytes.now (success text.items)) }
    ensures fault { IfErr result (TellsReply (IsReadAgain M.merged M.cost M.encoding M.blank_is bytes.now)) }
{
    let mut message = M::blank(alloc);
    message.merge_from_slice(alloc, bytes)?;
    let encoding = message.try_encode_to_vec(alloc)?;
    Ok(hex_line(alloc, encoding.as_slice())?)
}

/// The encoding, in hexadecimal, of what the bytes that the input gives in hexadecimal make of a blank message.
pub fn again_reply<M: Message>(alloc: Global, input: &[u8]) -> Result<Vec<u8>, Fault>
    ensures text { IfOk result (λ text. RepliesToAgain M.merged M.cost M.encoding M.blank_is input.now (success text.items)) }
    ensures fault { IfErr result (TellsReply (RepliesToAgain M.merged M.cost M.encoding M.blank_is input.now)) }
{
    let bytes = hex_bytes(alloc, without_newline(input))?;
    again_bytes::<M>(alloc, bytes.as_slice())
}
