//! The rewrite of a map field by a reader that doesn't know all its values.

ghost use Rattle.std.specs.Prelude.{◌≡◌, ◌+◌, ◌++◌, ◌<◌, ◌≤◌, ℕ, List, [], IfErr, OnOk, length, true};
ghost use Rattle.buffa_bytes.specs.Number.{IsNumber};
ghost use Rattle.buffa_bytes.specs.declared.error.EncodeError.TheVariants.{OutOfMemory};
ghost use Rattle.buffa_wire.specs.BudgetLeft.{budget_left};
ghost use Rattle.buffa_wire.specs.Records.{FieldData};
ghost use Rattle.buffa_map.specs.Encoding.{AllHold, HasEncoding};
ghost use Rattle.buffa_map.specs.Merge.{ReadsRun, RefusesRun, rules, state};
ghost use Rattle.buffa_map.specs.Pairs.{ListsOnce};
ghost use Rattle.buffa_map.specs.Rewrite.{ForEntriesOf, IfNotDecoded, IfNotEncoded, StopsRewrite, WhereDecoded, WritesWalk, field_writing, rewrite_encoding, rewrite_error_text};

use crate::codec::MapCodec;
use crate::map_write::MapWrite;
use crate::run::read_run_by;
use crate::storage::MapStorage;
use buffa_wire::{Buf, DecodeContext, DecodeError, EncodeError, EncodeSink, UnknownFields};
use std::alloc::Global;
use std::error::Error;
use std::fmt;

/// Why a map field was not rewritten.
///
/// `Display` prints the text of the error that it holds.
///
/// ```ignore
/// let refused = RewriteError::Decode(DecodeError::UnexpectedField(6)); // prints UnexpectedField 6
/// ```
#[derive(Clone, Copy, Debug, PartialEq, Eq)]
pub enum RewriteError {
    /// The bytes were refused; nothing was written.
    Decode(DecodeError),
    /// The encoding was refused, after a beginning of it.
    Encode(EncodeError),
}

impl fmt::Display for RewriteError {
    ghost use Rattle.std.specs.Prelude.{Some};

    ghost output = { λ e. Some (rewrite_error_text e) };

    fn fmt<W: fmt::Write>(&self, f: &mut fmt::Formatter<W>) -> fmt::Result {
        match self {
            RewriteError::Decode(fault) => write!(f, "{fault}"),
            RewriteError::Encode(error) => write!(f, "{error}"),
        }
    }
}

impl Error for RewriteError {}

// Empties the map, and merges the records of a run into it; the entries that are undeclared go to the list.
fn read_anew<KC: MapCodec, VC: MapCodec, C: MapStorage<Key = KC::Value, Value = VC::Value>, B: Buf>(
    alloc: Global,
    map: &mut C,
    number: u32,
    buf: &mut B,
    ctx: DecodeContext<'_>,
    unknowns: &mut UnknownFields,
) -> Result<(), DecodeError>
    ensures ok { OnOk result (ReadsRun
        (rules (KC.reading, KC.COST) (VC.reading, VC.COST) (C.equal, C.keeps_order) ctx.entry.depth number true)
        (state [] unknowns.old.records ctx.entry.budget.now) (B.unread buf.old)
        (state (C.pairs map.new) unknowns.new.records (budget_left ctx.exit)) (B.unread buf.new)) }
    ensures err { IfErr result (RefusesRun
        (rules (KC.reading, KC.COST) (VC.reading, VC.COST) (C.equal, C.keeps_order) ctx.entry.depth number true)
        (state [] unknowns.old.records ctx.entry.budget.now) (B.unread buf.old)
        (state (C.pairs map.new) unknowns.new.records (budget_left ctx.exit)) (B.unread buf.new)) }
    ensures kept { B.beyond buf.new ≡ B.beyond buf.old }
{
    map.storage_clear();
    read_run_by::<KC, VC, C, B, UnknownFields>(alloc, map, number, buf, ctx, unknowns)
}

// Writes the map, and the records of the list behind it.
fn write_with<
    KC: MapCodec,
    VC: MapCodec,
    C: MapWrite + MapStorage<Key = KC::Value, Value = VC::Value>,
    S: EncodeSink,
>(map: &C, number: u32, unknowns: &UnknownFields, sink: &mut S) -> Result<(), EncodeError>
    requires { IsNumber number }
    ensures { WritesWalk C.equal (C.walks map.now) KC.writing VC.writing KC.fits VC.fits number (C.pairs map.now)
        unknowns.now.records (S.written sink.old) (S.room sink.old) result (S.written sink.new) (S.room sink.new) }
{
    map.storage_write::<KC, VC, S>(number, sink)?;
    unknowns.write_to(sink)
}

/// Rewrites a map field: empties the map, reads the records to the end of the buffer into it, and writes
/// the map and behind it, in order, the entries with a value that is undeclared, byte for byte.
///
/// `number` is 1 to [`MAX_FIELD_NUMBER`](buffa_wire::MAX_FIELD_NUMBER). Take a reader whose enum declares more
/// numbers, and has the same default. If the run is ordered (docs/DEFINITIONS.md says what that is), the reader makes
/// the same map of what was written as of what was read. Into an empty map it does so only then. The law is
/// [`crate::laws::rewrite_means`], in `map_laws.rt`.
///
/// # Errors
/// [`RewriteError::Decode`] with the faults of [`crate::map_codec::read_map_field`] where a list is passed;
/// nothing was written, and the map has the entries before the fault. [`RewriteError::Encode`] with those
/// of [`crate::map_codec::write_field`]; the map has all entries. What the sink has room for isn't refused for
/// want of memory.
///
/// Source: the protobuf language guide on unknown values of an enum in a map.
///
/// ```ignore
/// rewrite_map_field::<Int32, ClosedEnum<Choice>, _, _, _>(alloc, &mut pairs, number, &mut rest, ctx, sink)?;
/// ```
pub fn rewrite_map_field<
    KC: MapCodec,
    VC: MapCodec,
    C: MapWrite + MapStorage<Key = KC::Value, Value = VC::Value>,
    B: Buf,
    S: EncodeSink,
>(
    alloc: Global,
    map: &mut C,
    number: u32,
    buf: &mut B,
    ctx: DecodeContext<'_>,
    sink: &mut S,
) -> Result<(), RewriteError>
    requires { IsNumber number }
    // Where the bytes weren't refused, they are a run, which was read into the emptied map, and paid.
    ensures read { WhereDecoded result ((kept : List (ℕ × FieldData)) × ReadsRun
        (rules (KC.reading, KC.COST) (VC.reading, VC.COST) (C.equal, C.keeps_order) ctx.entry.depth number true)
        (state [] [] ctx.entry.budget.now) (B.unread buf.old)
        (state (C.pairs map.new) kept (budget_left ctx.exit)) (B.unread buf.new)) }
    // Accepted: behind what stood in the sink are the records of the map, in the order of a walk that it has, and then the
    // undeclared entries.
    ensures written { OnOk result (ForEntriesOf
        (rules (KC.reading, KC.COST) (VC.reading, VC.COST) (C.equal, C.keeps_order) ctx.entry.depth number true)
        (B.unread buf.old) (λ es. (l : List (KC.Value.Meaning × VC.Value.Meaning)) × C.walks map.new l
        × ListsOnce C.equal (C.pairs map.new) l × (S.written sink.new
        ≡ S.written sink.old ++ rewrite_encoding (field_writing KC.writing VC.writing number) l es))) }
    // No entry of the map is too long, and what its keys and values mean is of their types.
    ensures short { OnOk result ((l : List (KC.Value.Meaning × VC.Value.Meaning)) → ListsOnce C.equal (C.pairs map.new) l →
        HasEncoding KC.writing VC.writing l) }
    ensures fits { OnOk result ((l : List (KC.Value.Meaning × VC.Value.Meaning)) → ListsOnce C.equal (C.pairs map.new) l →
        AllHold KC.fits VC.fits l) }
    // No more room was used than was written.
    ensures room { OnOk result (S.room sink.old + length (S.written sink.old)
        ≤ S.room sink.new + length (S.written sink.new)) }
    // The bytes were refused: the fault is as if they were read into an empty map, and nothing was written.
    ensures fault { IfNotDecoded result (λ f. (kept : List (ℕ × FieldData)) × RefusesRun
        (rules (KC.reading, KC.COST) (VC.reading, VC.COST) (C.equal, C.keeps_order) ctx.entry.depth number true)
        (state [] [] ctx.entry.budget.now) (B.unread buf.old)
        (state (C.pairs map.new) kept (budget_left ctx.exit)) (B.unread buf.new) f) }
    ensures unwritten { IfNotDecoded result (λ _. S.written sink.new ≡ S.written sink.old) }
    // The encoding was refused: a beginning of it was written, up to an entry that is too long, or to where memory ran out.
    ensures stopped { IfNotEncoded result (λ e. ForEntriesOf
        (rules (KC.reading, KC.COST) (VC.reading, VC.COST) (C.equal, C.keeps_order) ctx.entry.depth number true)
        (B.unread buf.old) (λ es. (l : List (KC.Value.Meaning × VC.Value.Meaning)) × C.walks map.new l
        × ListsOnce C.equal (C.pairs map.new) l
        × StopsRewrite (field_writing KC.writing VC.writing number) l es (S.written sink.old) (S.written sink.new) e)) }
    // Memory runs out only where the sink has no room for all of it.
    ensures full { IfNotEncoded result (λ e. e ≡ OutOfMemory → ForEntriesOf
        (rules (KC.reading, KC.COST) (VC.reading, VC.COST) (C.equal, C.keeps_order) ctx.entry.depth number true)
        (B.unread buf.old) (λ es. (l : List (KC.Value.Meaning × VC.Value.Meaning)) → ListsOnce C.equal (C.pairs map.new) l →
        S.room sink.old < length (rewrite_encoding (field_writing KC.writing VC.writing number) l es))) }
    // What lies behind the end of a limited buffer stays there.
    ensures kept { B.beyond buf.new ≡ B.beyond buf.old }
{
    let mut unknowns = UnknownFields::new(alloc);
    match read_anew::<KC, VC, C, B>(alloc, map, number, buf, ctx, &mut unknowns) {
        Err(fault) => Err(RewriteError::Decode(fault)),
        Ok(()) => match write_with::<KC, VC, C, S>(map, number, &unknowns, sink) {
            Ok(()) => Ok(()),
            Err(error) => Err(RewriteError::Encode(error)),
        },
    }
}
