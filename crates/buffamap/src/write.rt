// `write N`: the field of a map whose pairs are given in lines.
ghost use Rattle.std.specs.Prelude.{IfErr, IfOk};
ghost use Rattle.buffa_bytes.specs.Number.{IsNumber};
ghost use Rattle.buffamap.specs.Lines.{pairs_of};
ghost use Rattle.buffamap.specs.Fault.{TellsReply};
ghost use Rattle.buffamap.specs.Reply.{success};
ghost use Rattle.buffamap.specs.Write.{IsFieldReply, RepliesToWrite};

use crate::fault::Fault;
use crate::forms::hex_line;
use crate::lines::map_in;
use buffa_map::map_codec::{Int32, Str, write_field};
use std::alloc::Global;
use std::collections::BTreeMap;

// The field of a map.
fn write_pairs(alloc: Global, number: u32, pairs: &BTreeMap<String, i32>) -> Result<Vec<u8>, Fault>
    requires { IsNumber number }
    ensures text { IfOk result (λ text. IsFieldReply number (pairs_of pairs.now.entries) (success text.items)) }
    ensures fault { IfErr result (TellsReply (IsFieldReply number (pairs_of pairs.now.entries))) }
{
    let mut field = Vec::new(alloc);
    write_field::<Str, Int32, BTreeMap<String, i32>, Vec<u8>>(pairs, number, &mut field)?;
    Ok(hex_line(alloc, field.as_slice())?)
}

/// The field `number`, in hexadecimal, of the map whose pairs the input gives in lines.
pub fn write_reply(alloc: Global, number: u32, input: &[u8]) -> Result<Vec<u8>, Fault>
    requires { IsNumber number }
    ensures text { IfOk result (λ text. RepliesToWrite number input.now (success text.items)) }
    ensures fault { IfErr result (TellsReply (RepliesToWrite number input.now)) }
{
    let pairs = map_in(alloc, input)?;
    write_pairs(alloc, number, &pairs)
}
