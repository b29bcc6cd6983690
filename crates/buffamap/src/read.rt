// `read N`: the pairs of a run, a line each.
ghost use Rattle.std.specs.Prelude.{◌≡◌, ◌≢◌, [], IfErr, IfOk, OnOk, Err, Ok};
ghost use Rattle.buffa_bytes.specs.declared.error.DecodeError.TheVariants.{OutOfMemory};
ghost use Rattle.buffamap.specs.Lines.{pairs_of};
ghost use Rattle.buffamap.specs.Read.{ArePairsOfRun, RepliesToRead, RepliesToRun, run_from};
ghost use Rattle.buffamap.specs.Fault.{TellsReply};
ghost use Rattle.buffamap.specs.Reply.{success};

use crate::fault::Fault;
use crate::forms::{hex_bytes, without_newline};
use crate::lines::lines_of;
use buffa_map::map_codec::{Int32, Str, read_map_field};
use buffa_wire::{
    Budget, DEFAULT_UNKNOWN_FIELD_LIMIT, DecodeContext, DecodeError, RECURSION_LIMIT,
};
use std::alloc::Global;
use std::collections::BTreeMap;

// Reads a run into an empty map.
fn read_pairs(
    alloc: Global,
    number: u32,
    bytes: &[u8],
    pairs: &mut BTreeMap<String, i32>,
) -> Result<(), DecodeError>
    requires { pairs.old.entries ≡ [] }
    ensures ok { OnOk result (ArePairsOfRun (run_from number bytes.now) (pairs_of pairs.new.entries)) }
    ensures fault { IfErr result (λ f. f ≢ OutOfMemory → run_from number bytes.now ≡ Err f) }
{
    let mut budget = Budget::new(DEFAULT_UNKNOWN_FIELD_LIMIT);
    let ctx = DecodeContext::new(RECURSION_LIMIT, &mut budget);
    let mut rest = bytes;
    read_map_field::<Str, Int32, BTreeMap<String, i32>, &[u8]>(
        alloc, pairs, number, &mut rest, ctx, None,
    )
}

// The answer to a run.
fn read_run(alloc: Global, number: u32, bytes: &[u8]) -> Result<Vec<u8>, Fault>
    ensures text { IfOk result (λ text. RepliesToRun (run_from number bytes.now) (success text.items)) }
    ensures fault { IfErr result (TellsReply (RepliesToRun (run_from number bytes.now))) }
{
    let mut pairs = BTreeMap::new(alloc);
    read_pairs(alloc, number, bytes, &mut pairs)?;
    Ok(lines_of(alloc, &pairs)?)
}

/// The lines of the pairs of a run of field `number`, which the input gives in hexadecimal.
pub fn read_reply(alloc: Global, number: u32, input: &[u8]) -> Result<Vec<u8>, Fault>
    ensures text { IfOk result (λ text. RepliesToRead number input.now (success text.items)) }
    ensures fault { IfErr result (TellsReply (RepliesToRead number input.now)) }
{
    let bytes = hex_bytes(alloc, without_newline(input))?;
    read_run(alloc, number, bytes.as_slice())
}
