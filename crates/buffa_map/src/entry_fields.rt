//! The fields of an entry.

ghost use Rattle.std.specs.Prelude.{◌≡◌, ◌<◌, IfErr, IfOk, MatchOption, Ok, OnOk};
ghost use Rattle.buffa_bytes.specs.Readings.{tag_at, Gives};
ghost use Rattle.buffa_wire.specs.BudgetLeft.{budget_left};
ghost use Rattle.buffa_map.specs.Entry.{entry_meaning, MergesEntryField, MergesFields, RefusesEntryField, RefusesFields};

use crate::codec::{MapValueDecode, MapValueDecodeStatus};
use crate::map_entry::MapEntry;
use crate::merge_value::MergeValue;
use buffa_wire::{
    Blank, Buf, DecodeContext, DecodeError, Tag, WireType, check_wire_type, skip_field_depth,
};
use std::alloc::Global;

// Takes the tag at the front, where it is a byte, that of this number and wire type.
#[inline(always)]
fn take_tag<B: Buf>(buf: &mut B, number: u32, wire_type: WireType) -> Option<Tag>
    requires { (0 < number) × (number < 16) }
    ensures taken { MatchOption result (B.unread buf.new ≡ B.unread buf.old)
        (λ tag. tag_at (B.unread buf.old) ≡ Ok (tag.number, tag.wire_type, B.unread buf.new)) }
    ensures kept { B.beyond buf.new ≡ B.beyond buf.old }
{
    let byte = *buf.chunk().first()?;
    if u32::from(byte) != number * 8 + wire_type.number() {
        return None;
    }
    buf.advance(1);
    Some(Tag::new(number, wire_type))
}

// Reads the tag at the front. It is compared first with those of a byte that a key and a value have as a rule.
#[inline(always)]
fn read_tag<KC: MapValueDecode, W: MergeValue, B: Buf>(buf: &mut B) -> Result<Tag, DecodeError>
    ensures reads { Gives (λ tag. (tag.number, tag.wire_type, B.unread buf.new)) result
        (tag_at (B.unread buf.old)) }
    ensures kept { B.beyond buf.new ≡ B.beyond buf.old }
{
    if let Some(tag) = take_tag(buf, 1, KC::WIRE_TYPE) {
        return Ok(tag);
    }
    if let Some(tag) = take_tag(buf, 2, W::WIRE_TYPE) {
        return Ok(tag);
    }
    Tag::decode(buf)
}

// Merges the field at the front.
fn merge_field<KC: MapValueDecode, W: MergeValue, B: Buf>(
    alloc: Global,
    parts: &mut MapEntry<KC::Value, W::Value>,
    buf: &mut B,
    ctx: DecodeContext<'_>,
    how: &W,
) -> Result<(), DecodeError>
    requires { W.may how.now ctx.depth }
    ensures ok { OnOk result (MergesEntryField KC.reading W.reading ctx.entry.depth (entry_meaning KC.Value.meaning W.Value.meaning parts.old)
        ctx.entry.budget.now (B.unread buf.old) (entry_meaning KC.Value.meaning W.Value.meaning parts.new) (budget_left ctx.exit) (B.unread buf.new)) }
    ensures err { IfErr result (RefusesEntryField KC.reading W.reading ctx.entry.depth (entry_meaning KC.Value.meaning W.Value.meaning parts.old)
        ctx.entry.budget.now (B.unread buf.old) (budget_left ctx.exit)) }
    ensures kept { B.beyond buf.new ≡ B.beyond buf.old }
{
    let tag = read_tag::<KC, W, B>(buf)?;
    if tag.field_number() == 1 {
        check_wire_type(tag, KC::WIRE_TYPE)?;
        KC::merge(alloc, &mut parts.key, buf, ctx)?;
    } else if tag.field_number() == 2 {
        check_wire_type(tag, W::WIRE_TYPE)?;
        let status = how.merge(alloc, &mut parts.value, buf, ctx)?;
        parts.known = match status {
            MapValueDecodeStatus::Known => true,
            // undeclared
            _ => false,
        };
    } else {
        skip_field_depth(tag, buf, ctx.depth)?;
    }
    Ok(())
}

// Merges the fields of an entry, all that is left of the bytes.
pub(crate) fn merge_fields<KC: MapValueDecode, W: MergeValue, B: Buf>(
    alloc: Global,
    buf: &mut B,
    ctx: DecodeContext<'_>,
    how: &W,
) -> Result<MapEntry<KC::Value, W::Value>, DecodeError>
    requires { W.may how.now ctx.depth }
    ensures ok { IfOk result (λ parts. MergesFields KC.reading W.reading ctx.entry.depth (B.unread buf.old)
        ctx.entry.budget.now (entry_meaning KC.Value.meaning W.Value.meaning parts) (budget_left ctx.exit)) }
    ensures err { IfErr result (RefusesFields KC.reading W.reading ctx.entry.depth (B.unread buf.old)
        ctx.entry.budget.now (budget_left ctx.exit)) }
    ensures kept { B.beyond buf.new ≡ B.beyond buf.old }
{
    let mut parts = MapEntry {
        key: <KC::Value as Blank>::blank(alloc),
        value: <W::Value as Blank>::blank(alloc),
        known: true,
    };
    'fields: while buf.remaining() > 0 {
        let lent = DecodeContext {
            depth: ctx.depth,
            budget: &mut *ctx.budget,
        };
        merge_field::<KC, W, B>(alloc, &mut parts, buf, lent, how)?;
    }
    Ok(parts)
}
