//! Calls of map fields, as a message makes them.

ghost use Rattle.std.specs.Prelude.{◌≡◌, ◌+◌, length};
ghost use Rattle.buffa_bytes.specs.Readings.{FullOnlyIf};
ghost use Rattle.buffa_bytes.specs.Number.{IsNumber};
ghost use Rattle.buffa_wire.specs.Passes.{cap};
ghost use Rattle.buffa_wire.specs.Encoding.{records_encoding};
ghost use Rattle.buffa_map.specs.Pairs.{means, put};
ghost use Rattle.buffa_fields.specs.Calls.{ChecksWire};
ghost use Rattle.buffa_fields.specs.ListAndMapCalls.{TakesEntry};
ghost use Rattle.buffa_fields.specs.MapFields.{PairTakesMemory, WritesMap, map_records};
ghost use Rattle.buffa_fields.specs.Refusals.{RefusesPairIn};

use buffa_map::laws::{limits_are_reported_where_charges_are_not_left, size_is_length};
use buffa_map::map_codec::{
    Map, MapCodec, MapStorage, MapValueDecode, StableWalk, field_len, merge_entry, write_field,
};
use buffa_wire::{
    DecodeContext, DecodeError, EncodeError, EncodeSink, MapKey, Tag, WireType, capped,
    check_wire_type,
};
use std::alloc::Global;
use std::hash::Hash;

// The length of a map field, or 2^32 - 1 where it is more.
pub(crate) fn map_len<
    'a,
    KC: MapCodec,
    VC: MapCodec,
    C: StableWalk<'a> + MapStorage<Key = KC::Value, Value = VC::Value>,
>(number: u32, map: &'a C) -> u32
where
    KC::Value: 'a,
    VC::Value: 'a,
    requires { IsNumber number }
    ensures { result ≡ cap (length (records_encoding (map_records KC.writing VC.writing number (C.walk map.now)))) }
{
    size_is_length::<KC, VC>();
    let tag = Tag::new(number, WireType::LengthDelimited).encoded_len() as u64;
    let total = field_len::<KC, VC, C>(map, tag);
    capped(total)
}

// Merges the entry of the field whose tag was read.
#[tactic(auto, unfolding(crate::specs::EntriesTaken::entry_taken, crate::specs::EntriesTaken::entry_cost))]
pub(crate) fn take_entry<KC: MapCodec, VC: MapValueDecode>(
    alloc: Global,
    map: &mut Map<KC::Value, VC::Value>,
    tag: Tag,
    buf: &mut &[u8],
    ctx: DecodeContext<'_>,
) -> Result<(), DecodeError>
where
    KC::Value: MapKey + Hash,
    ensures taken { TakesEntry tag ctx.entry ctx.exit map.old map.new buf.old buf.new result KC.Value.meaning
        VC.Value.meaning KC.reading VC.reading (put KC.Value.same) (KC.COST + VC.COST) }
    ensures full { FullOnlyIf result (PairTakesMemory KC.reading VC.reading ctx.entry.depth tag.number tag.wire_type
        buf.old.now) }
    ensures wire { ChecksWire tag WireType.LengthDelimited result
        (means KC.Value.meaning VC.Value.meaning map.old.entries)
        (means KC.Value.meaning VC.Value.meaning map.new.entries) buf.old buf.new }
    ensures refused { RefusesPairIn tag ctx.entry.depth ctx.entry.budget.now map.old.entries map.new.entries buf.old result
        KC.Value.meaning VC.Value.meaning KC.reading VC.reading (KC.COST + VC.COST) }
{
    limits_are_reported_where_charges_are_not_left::<KC, VC>();
    check_wire_type(tag, WireType::LengthDelimited)?;
    merge_entry::<KC, VC, Map<KC::Value, VC::Value>, &[u8]>(alloc, map, buf, ctx)?;
    Ok(())
}

// Writes a map field. An entry that is too long for any length is in no encoding of a message.
pub(crate) fn write_map<
    'a,
    KC: MapCodec,
    VC: MapCodec,
    C: StableWalk<'a> + MapStorage<Key = KC::Value, Value = VC::Value>,
    S: EncodeSink,
>(number: u32, map: &'a C, sink: &mut S) -> Result<(), EncodeError>
where
    KC::Value: 'a,
    VC::Value: 'a,
    requires { IsNumber number }
    ensures { WritesMap KC.writing VC.writing number (C.walk map.now) (S.written sink.old) result (S.written sink.new) }
{
    match write_field::<KC, VC, C, S>(map, number, sink) {
        Ok(()) => Ok(()),
        Err(_) => Err(EncodeError::OutOfMemory),
    }
}
