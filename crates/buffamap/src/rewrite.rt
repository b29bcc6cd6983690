// `rewrite N`: a run as a reader of two values writes it.
ghost use Rattle.std.specs.Prelude.{◌≡◌, [], IfErr, IfOk, OnOk};
ghost use Rattle.buffa_bytes.specs.Number.{IsNumber};
ghost use Rattle.buffamap.specs.Fault.{TellsReply};
ghost use Rattle.buffamap.specs.Reply.{success};
ghost use Rattle.buffamap.specs.Rewrite.{IsRewriteError, IsRewritten, RepliesToRewrite, RunRewritesTo, choice_run};

use crate::choice::Choice;
use crate::fault::Fault;
use crate::forms::{hex_bytes, hex_line, without_newline};
use buffa_map::map_codec::{ClosedEnum, Int32, RewriteError, rewrite_map_field};
use buffa_wire::{Budget, DEFAULT_UNKNOWN_FIELD_LIMIT, DecodeContext, RECURSION_LIMIT};
use std::alloc::Global;
use std::collections::BTreeMap;

// Rewrites a run into an empty vector.
fn rewrite_into(
    alloc: Global,
    number: u32,
    bytes: &[u8],
    run: &mut Vec<u8>,
) -> Result<(), RewriteError>
    requires number { IsNumber number }
    requires empty { run.old.items ≡ [] }
    ensures run { OnOk result (RunRewritesTo number (choice_run number bytes.now) run.new.items) }
    ensures refused { IfErr result (IsRewriteError (choice_run number bytes.now)) }
{
    let mut budget = Budget::new(DEFAULT_UNKNOWN_FIELD_LIMIT);
    let ctx = DecodeContext::new(RECURSION_LIMIT, &mut budget);
    let mut pairs = BTreeMap::new(alloc);
    let mut rest = bytes;
    let rewritten = rewrite_map_field::<
        Int32,
        ClosedEnum<Choice>,
        BTreeMap<i32, Choice>,
        &[u8],
        Vec<u8>,
    >(alloc, &mut pairs, number, &mut rest, ctx, run);
    // its contract says that the keys ascend
    let _ = pairs.len();
    rewritten
}

// The answer to a run.
fn rewrite_run(alloc: Global, number: u32, bytes: &[u8]) -> Result<Vec<u8>, Fault>
    requires { IsNumber number }
    ensures text { IfOk result (λ text. IsRewritten number (choice_run number bytes.now) (success text.items)) }
    ensures fault { IfErr result (TellsReply (IsRewritten number (choice_run number bytes.now))) }
{
    let mut run = Vec::new(alloc);
    rewrite_into(alloc, number, bytes, &mut run)?;
    Ok(hex_line(alloc, run.as_slice())?)
}

/// The rewrite, in hexadecimal, of a run of field `number`, which the input gives in hexadecimal: the pairs
/// of its map in the order of their keys, and behind them the entries with a value that is undeclared.
pub fn rewrite_reply(alloc: Global, number: u32, input: &[u8]) -> Result<Vec<u8>, Fault>
    requires { IsNumber number }
    ensures text { IfOk result (λ text. RepliesToRewrite number input.now (success text.items)) }
    ensures fault { IfErr result (TellsReply (RepliesToRewrite number input.now)) }
{
    let bytes = hex_bytes(alloc, without_newline(input))?;
    rewrite_run(alloc, number, bytes.as_slice())
}
