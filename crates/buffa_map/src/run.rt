//! A run of map records. `docs/CONTRACTS.md` reads the contract of [`read_map_field`] aloud.

ghost use Rattle.std.specs.Prelude.{◌≡◌, ◌+◌, ◌≤◌, IfErr, OnOk, is_some};
ghost use Rattle.buffa_wire.specs.BudgetLeft.{budget_left};
ghost use Rattle.buffa_map.specs.Merge.{ReadsRun, RefusesRun, rules, state};
ghost use Rattle.buffa_map.specs.PassedList.{records_before, records_after, capacity_before, capacity_after};

use crate::codec::{MapCodec, MapValueDecode};
use crate::entry::merge_entry_by;
use crate::keep::{Dropped, Keeper};
use crate::merge_value::ByCodec;
use crate::storage::MapStorage;
use buffa_wire::{Buf, DecodeContext, DecodeError, Tag, UnknownFields, WireType, check_wire_type};
use std::alloc::Global;

/// Merges the records of a run; the entries that are undeclared go to the keeper.
///
/// # Errors
/// Those of [`read_map_field`].
pub fn read_run_by<
    KC: MapCodec,
    VC: MapValueDecode,
    C: MapStorage<Key = KC::Value, Value = VC::Value>,
    B: Buf,
    L: Keeper,
>(
    alloc: Global,
    map: &mut C,
    number: u32,
    buf: &mut B,
    ctx: DecodeContext<'_>,
    keeper: &mut L,
) -> Result<(), DecodeError>
    ensures ok { OnOk result (ReadsRun
        (rules (KC.reading, KC.COST) (VC.reading, VC.COST) (C.equal, C.keeps_order) ctx.entry.depth number L.KEEPS)
        (state (C.pairs map.old) (L.records keeper.old) ctx.entry.budget.now) (B.unread buf.old)
        (state (C.pairs map.new) (L.records keeper.new) (budget_left ctx.exit)) (B.unread buf.new)) }
    ensures err { IfErr result (RefusesRun
        (rules (KC.reading, KC.COST) (VC.reading, VC.COST) (C.equal, C.keeps_order) ctx.entry.depth number L.KEEPS)
        (state (C.pairs map.old) (L.records keeper.old) ctx.entry.budget.now) (B.unread buf.old)
        (state (C.pairs map.new) (L.records keeper.new) (budget_left ctx.exit)) (B.unread buf.new)) }
    ensures room { L.room keeper.old ≤ L.room keeper.new }
    ensures kept { B.beyond buf.new ≡ B.beyond buf.old }
{
    let DecodeContext { depth, budget } = ctx;
    let how = ByCodec::<VC>::new();
    'records: while buf.remaining() > 0 {
        let tag = Tag::decode(buf)?;
        if tag.field_number() != number {
            return Err(DecodeError::UnexpectedField(tag.field_number()));
        }
        check_wire_type(tag, WireType::LengthDelimited)?;
        let lent = DecodeContext {
            depth,
            budget: &mut *budget,
        };
        merge_entry_by::<KC, _, C, B, L>(alloc, map, buf, lent, number, &how, keeper)?;
    }
    Ok(())
}

/// Merges the records of a map field, to the end of the buffer, into the map.
///
/// An entry is undeclared if its value is a number that its closed enum doesn't declare. Such an
/// entry is appended to the list, if one is passed, as a length-delimited record of the field's
/// `number`, byte for byte, and takes one of the unknown fields left; without a list it is dropped,
/// and takes none.
///
/// # Errors
/// The first fault of a record, in this order: of its tag; [`DecodeError::UnexpectedField`] for another
/// number; [`DecodeError::WireTypeMismatch`]; those of [`crate::entry::merge_entry_with_unknowns`]. The
/// entries of the records before it are in the map and in the list, and what they cost stays spent.
///
/// Source: the protobuf encoding guide, "Maps".
///
/// ```ignore
/// read_map_field::<Str, Int32, _, _>(alloc, &mut map, 5, &mut rest, ctx, None)?;
/// ```
pub fn read_map_field<
    KC: MapCodec,
    VC: MapValueDecode,
    C: MapStorage<Key = KC::Value, Value = VC::Value>,
    B: Buf,
>(
    alloc: Global,
    map: &mut C,
    number: u32,
    buf: &mut B,
    ctx: DecodeContext<'_>,
    unknown: Option<&mut UnknownFields>,
) -> Result<(), DecodeError>
    // Accepted: the bytes are a run of records. The declared entries are folded over the old pairs, the undeclared ones are
    // kept where a list is passed, what they cost is spent, and nothing is left unread.
    ensures ok { OnOk result (ReadsRun
        (rules (KC.reading, KC.COST) (VC.reading, VC.COST) (C.equal, C.keeps_order) ctx.entry.depth number (is_some unknown.entry))
        (state (C.pairs map.old) (records_before unknown.entry) ctx.entry.budget.now) (B.unread buf.old)
        (state (C.pairs map.new) (records_after unknown.exit) (budget_left ctx.exit)) (B.unread buf.new)) }
    // Refused: the records in front were read as above, and the refused one puts and keeps nothing. The error is its first fault,
    // or memory ran out where merging it takes memory. `RefusesEntry` says what is left open of the error, of what is spent and of
    // what is unread: all of it in messages, or where memory ran out.
    ensures err { IfErr result (RefusesRun
        (rules (KC.reading, KC.COST) (VC.reading, VC.COST) (C.equal, C.keeps_order) ctx.entry.depth number (is_some unknown.entry))
        (state (C.pairs map.old) (records_before unknown.entry) ctx.entry.budget.now) (B.unread buf.old)
        (state (C.pairs map.new) (records_after unknown.exit) (budget_left ctx.exit)) (B.unread buf.new)) }
    // The list can hold no fewer records than before without new memory; what is behind a limit of the buffer stays there.
    ensures room { capacity_before unknown.entry ≤ capacity_after unknown.exit }
    ensures kept { B.beyond buf.new ≡ B.beyond buf.old }
{
    match unknown {
        None => read_run_by::<KC, VC, C, B, Dropped>(alloc, map, number, buf, ctx, &mut Dropped),
        Some(list) => read_run_by::<KC, VC, C, B, UnknownFields>(
            alloc, map, number, buf, ctx, list,
        ),
    }
}
