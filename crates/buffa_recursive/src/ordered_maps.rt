//! Map fields of messages in the order of their keys, by a function for each message.
//!
//! A type that holds a map of itself is sized, written and merged by functions that come to themselves again through
//! these.

ghost use Rattle.std.specs.Prelude.{◌≡◌, ◌≢◌, ◌+◌, [], OnErr};
ghost use Rattle.std.specs.BTreeMap.{insert_entry};
ghost use Rattle.std.specs.List.{Contains};
ghost use Rattle.std.specs.Map.{values_of};
ghost use Rattle.buffa_bytes.specs.Readings.{FullOnlyIf};
ghost use Rattle.buffa_bytes.specs.Number.{IsNumber};
ghost use Rattle.buffa_bytes.specs.declared.wire_type.WireType.TheVariants.{LengthDelimited};
ghost use Rattle.buffa_wire.specs.Passes.{IsNext};
ghost use Rattle.buffa_wire.specs.Takes.{IsTaken};
ghost use Rattle.buffa_map.specs.Calls.{MergesMessages, SizesMessages, WritesMessages};
ghost use Rattle.buffa_map.specs.Message.{message_reading};
ghost use Rattle.buffa_map.specs.Pairs.{means};
ghost use Rattle.buffa_fields.specs.Calls.{ChecksWire};
ghost use Rattle.buffa_fields.specs.MapFields.{PairTakesMemory, pair_cost, pair_taken};
ghost use Rattle.buffa_fields.specs.ListAndMapCalls.{SizesPairs, WritesPairs};
ghost use Rattle.buffa_fields.specs.MapsOfMessages.{pair_slots};
ghost use Rattle.buffa_fields.specs.Refusals.{RefusesPairIn};

use buffa_fields::members::ordered_key::OrderedKey;
use buffa_map::map_codec::{
    MapCodec, merge_message_entry_by, message_field_len_by, write_message_field_by,
};
use buffa_wire::{
    Budget, DecodeContext, DecodeError, EncodeError, EncodeSink, MessageSpec, SizeCache, Tag,
    WireType, capped, check_wire_type,
};
use std::alloc::Global;
use std::collections::BTreeMap;

// The length of a map field of messages, or 2^32 - 1 where it is more, by a function that sizes a message. Most messages of
// a tree have no pairs, and are not walked.
pub(crate) fn pairs_len_by<'a, KC: MapCodec, M: MessageSpec + 'a, F>(
    number: u32,
    map: &'a BTreeMap<KC::Value, M>,
    cache: &mut SizeCache,
    size: F,
) -> Result<u32, EncodeError>
where
    KC::Value: OrderedKey + 'a,
    F: Fn(&M, &mut SizeCache) -> Result<u32, EncodeError>,
    requires number { IsNumber number }
    requires may { (x : _) (c : _) → Contains (values_of (means KC.Value.meaning M.meaning map.now.entries))
        (M.meaning x.now) → F.pre size x c }
    requires keeps { SizesMessages (F.post size) (Contains (values_of (means KC.Value.meaning M.meaning map.now.entries)))
        M.meaning M.encoding M.slots }
    ensures sized { SizesPairs M.encoding M.slots number KC.writing (means KC.Value.meaning M.meaning map.now.entries)
        cache.old result cache.new }
    ensures some { OnErr result (means KC.Value.meaning M.meaning map.now.entries ≢ []) }
{
    if map.is_empty() {
        return Ok(0);
    }
    let tag = Tag::new(number, WireType::LengthDelimited).encoded_len() as u64;
    let total = message_field_len_by::<KC, M, BTreeMap<KC::Value, M>, F>(map, tag, cache, size)?;
    Ok(capped(total))
}

// Writes a map field of messages, whose slots are next, by a function that writes a message.
#[tactic(auto, unfolding(buffa_fields::specs::MapsOfMessages::pair_slots))]
pub(crate) fn write_pairs_by<'a, KC: MapCodec, M: MessageSpec + 'a, S: EncodeSink, F>(
    number: u32,
    map: &'a BTreeMap<KC::Value, M>,
    cache: &mut SizeCache,
    sink: &mut S,
    write: F,
) -> Result<(), EncodeError>
where
    KC::Value: OrderedKey + 'a,
    F: Fn(&M, &mut SizeCache, &mut S) -> Result<(), EncodeError>,
    requires number { IsNumber number }
    requires next { IsNext (pair_slots M.encoding M.slots (means KC.Value.meaning M.meaning map.now.entries)) cache.old }
    requires may { (x : _) (c : _) (s : _) → Contains (values_of (means KC.Value.meaning M.meaning map.now.entries))
        (M.meaning x.now) → IsNext (M.slots (M.meaning x.now)) c.now → F.pre write x c s }
    requires keeps { WritesMessages (F.post write)
        (λ x. Contains (values_of (means KC.Value.meaning M.meaning map.now.entries)) (M.meaning x)) M.meaning
        M.encoding M.slots S.written }
    ensures { WritesPairs cache.old (S.written sink.old) result cache.new (S.written sink.new) M.encoding M.slots number
        KC.writing (means KC.Value.meaning M.meaning map.now.entries) }
{
    if map.is_empty() {
        return Ok(());
    }
    write_message_field_by::<KC, M, BTreeMap<KC::Value, M>, S, F>(map, number, cache, sink, write)
}

// Merges the entry of the field whose tag was read, by a function that merges the bytes of its message. `map.len()` is
// called before and after only for its contract, by which the checker knows that the keys ascend.
#[tactic(auto, unfolding(buffa_fields::specs::EntriesTaken::entry_taken, buffa_fields::specs::EntriesTaken::entry_cost))]
pub(crate) fn take_pair_by<KC: MapCodec, M: MessageSpec, F>(
    alloc: Global,
    map: &mut BTreeMap<KC::Value, M>,
    tag: Tag,
    buf: &mut &[u8],
    depth: u32,
    budget: &mut Budget,
    merge: F,
) -> Result<(), DecodeError>
where
    KC::Value: OrderedKey,
    F: Fn(&mut M, &[u8], u32, &mut Budget) -> Result<(), DecodeError>,
    requires may { (x : _) (b : _) (d : _) (w : _) → d + 1 ≡ depth → F.pre merge x b d w }
    requires keeps { MergesMessages (F.post merge) M.meaning M.merged M.cost depth }
    ensures taken { IsTaken (pair_taken KC.reading (message_reading M.blank_is M.merged M.cost) (insert_entry KC.Value.order))
        (pair_cost KC.reading (message_reading M.blank_is M.merged M.cost) (KC.COST + M.COST)) depth
        (means KC.Value.meaning M.meaning map.old.entries) tag.number tag.wire_type buf.old.now budget.old result
        (means KC.Value.meaning M.meaning map.new.entries) budget.new buf.new.now }
    ensures full { FullOnlyIf result (PairTakesMemory KC.reading (message_reading M.blank_is M.merged M.cost) depth
        tag.number tag.wire_type buf.old.now) }
    ensures wire { ChecksWire tag WireType.LengthDelimited result (means KC.Value.meaning M.meaning map.old.entries)
        (means KC.Value.meaning M.meaning map.new.entries) buf.old buf.new }
    ensures refused { RefusesPairIn tag depth budget.old map.old.entries map.new.entries buf.old result KC.Value.meaning
        M.meaning KC.reading (message_reading M.blank_is M.merged M.cost) (KC.COST + M.COST) }
{
    check_wire_type(tag, WireType::LengthDelimited)?;
    let _old = map.len();
    let lent = DecodeContext {
        depth,
        budget: &mut *budget,
    };
    let answer = merge_message_entry_by::<KC, M, BTreeMap<KC::Value, M>, &[u8], F>(
        alloc, map, buf, lent, merge,
    );
    let _new = map.len();
    answer?;
    Ok(())
}
