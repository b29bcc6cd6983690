// Map fields of messages, sized and written by both passes.

ghost use Rattle.std.specs.Prelude.{◌≡◌, length};
ghost use Rattle.buffa_bytes.specs.Number.{IsNumber};
ghost use Rattle.buffa_wire.specs.Passes.{IsNext};
ghost use Rattle.buffa_map.specs.MessageField.{IsFieldSized, field_slots};

use crate::slots::{sized_outcome, with_slots, with_slots_behind};
use buffa_map::map_codec::{
    Int32, Map, MapCodec, MapStorage, Msg, StableWalk, message_field_len, message_field_len_by,
    read_map_field, write_message_field, write_message_field_by,
};
use buffa_wire::{
    Budget, DecodeContext, DecodeError, EncodeError, Message, RECURSION_LIMIT, SizeCache,
    varint_len,
};
use conformance_rows::calls::StorageName;
use conformance_rows::case::Case;
use conformance_rows::fault::Fault;
use conformance_rows::mark::Mark;
use conformance_rows::outcome::{Outcome, count_told, text_told, written};
use std::alloc::Global;
use std::collections::BTreeMap;

// The bytes of the tag of a map field.
fn tag_len_of(number: u32) -> u64 {
    varint_len(u64::from(number) * 8 + 2) as u64
}

// The length of a map field of messages, and their slots, by the call that is passed a function.
fn size_by_function<
    'a,
    KC: MapCodec,
    M: Message + 'a,
    C: StableWalk<'a> + MapStorage<Key = KC::Value, Value = M>,
>(map: &'a C, tag_len: u64, cache: &mut SizeCache) -> Result<u64, EncodeError>
where
    KC::Value: 'a,
    ensures { IsFieldSized KC.writing M.encoding M.slots tag_len (C.walk map.now) cache.old result cache.new }
{
    message_field_len_by::<KC, M, C, _>(
        map,
        tag_len,
        cache,
        |value: &M, cache: &mut SizeCache| value.compute_size(cache),
    )
}

// The same, or by the call for messages.
fn size_field<
    'a,
    KC: MapCodec,
    M: Message + 'a,
    C: StableWalk<'a> + MapStorage<Key = KC::Value, Value = M>,
>(map: &'a C, tag_len: u64, cache: &mut SizeCache, by_function: bool) -> Result<u64, EncodeError>
where
    KC::Value: 'a,
    ensures { IsFieldSized KC.writing M.encoding M.slots tag_len (C.walk map.now) cache.old result cache.new }
{
    if by_function {
        return size_by_function::<KC, M, C>(map, tag_len, cache);
    }
    message_field_len::<KC, M, C>(map, tag_len, cache)
}

// The encoding of a map field of messages whose slots are the next, by the call that is passed a function.
fn write_by_function<
    'a,
    KC: MapCodec,
    M: Message + 'a,
    C: StableWalk<'a> + MapStorage<Key = KC::Value, Value = M>,
>(map: &'a C, number: u32, cache: &mut SizeCache, text: &mut Vec<u8>) -> Result<(), EncodeError>
where
    KC::Value: 'a,
    requires number { IsNumber number }
    requires next { IsNext (field_slots M.encoding M.slots (C.walk map.now)) cache.old }
{
    write_message_field_by::<KC, M, C, Vec<u8>, _>(
        map,
        number,
        cache,
        text,
        |value: &M, cache: &mut SizeCache, text: &mut Vec<u8>| value.write_to(cache, text),
    )
}

// The same, or by the call for messages.
fn write_field<
    'a,
    KC: MapCodec,
    M: Message + 'a,
    C: StableWalk<'a> + MapStorage<Key = KC::Value, Value = M>,
>(
    map: &'a C,
    number: u32,
    cache: &mut SizeCache,
    text: &mut Vec<u8>,
    by_function: bool,
) -> Result<(), EncodeError>
where
    KC::Value: 'a,
    requires number { IsNumber number }
    requires next { IsNext (field_slots M.encoding M.slots (C.walk map.now)) cache.old }
{
    if by_function {
        return write_by_function::<KC, M, C>(map, number, cache, text);
    }
    write_message_field::<KC, M, C, Vec<u8>>(map, number, cache, text)
}

// The length and the encoding of a map field of messages, with a cache of which every slot was consumed.
fn both_passes<
    'a,
    KC: MapCodec,
    M: Message + 'a,
    C: StableWalk<'a> + MapStorage<Key = KC::Value, Value = M>,
>(
    map: &'a C,
    number: u32,
    cache: &mut SizeCache,
    text: &mut Vec<u8>,
    by_function: bool,
) -> Result<u64, EncodeError>
where
    KC::Value: 'a,
    requires number { IsNumber number }
    requires behind { cache.old.next ≡ length cache.old.slots }
{
    let size = size_field::<KC, M, C>(map, tag_len_of(number), cache, by_function)?;
    write_field::<KC, M, C>(map, number, cache, text, by_function)?;
    Ok(size)
}

// The length of a map field of messages, by the first pass alone.
fn first_pass<
    'a,
    KC: MapCodec,
    M: Message + 'a,
    C: StableWalk<'a> + MapStorage<Key = KC::Value, Value = M>,
>(map: &'a C, number: u32, cache: &mut SizeCache, by_function: bool) -> Result<u64, EncodeError>
where
    KC::Value: 'a,
    ensures { cache.new.next ≡ cache.old.next }
{
    match size_field::<KC, M, C>(map, tag_len_of(number), cache, by_function) {
        Ok(size) => Ok(size),
        Err(fault) => Err(fault),
    }
}

// Reads a map field into a map.
fn read<KC: MapCodec, M: Message, C: MapStorage<Key = KC::Value, Value = M>>(
    alloc: Global,
    map: &mut C,
    number: u32,
    bytes: &[u8],
    ctx: DecodeContext<'_>,
) -> Result<(), DecodeError> {
    let mut rest = bytes;
    read_map_field::<KC, Msg<M>, C, _>(alloc, map, number, &mut rest, ctx, None)
}

// Fills a map field into a map.
fn fill_of<KC: MapCodec, M: Message, C: MapStorage<Key = KC::Value, Value = M>>(
    alloc: Global,
    number: u32,
    unknown: usize,
    bytes: &[u8],
    map: &mut C,
) -> Result<(), Fault> {
    let mut budget = Budget::new(unknown);
    let ctx = DecodeContext::new(RECURSION_LIMIT, &mut budget);
    match read::<KC, M, C>(alloc, map, number, bytes, ctx) {
        Ok(()) => Ok(()),
        Err(_) => Err(Fault::Form),
    }
}

// The map field that stands before, filled into a map.
fn fill<KC: MapCodec, M: Message, C: MapStorage<Key = KC::Value, Value = M>>(
    alloc: Global,
    case: &Case<'_>,
    map: &mut C,
) -> Result<(), Fault> {
    let number = case.number()?;
    let unknown = case.unknown()?;
    let bytes = hex::decode(alloc, case.before())?;
    fill_of::<KC, M, C>(alloc, number, unknown, bytes.as_slice(), map)
}

// The length of a map of messages, and the slots of the cache, where the row tells them.
fn sizing<
    'a,
    KC: MapCodec,
    M: Message + 'a,
    C: StableWalk<'a> + MapStorage<Key = KC::Value, Value = M>,
>(alloc: Global, case: &Case<'_>, mark: &mut Mark, map: &'a C) -> Result<Outcome, Fault>
where
    KC::Value: 'a,
{
    let number = case.number()?;
    let by_function = case.says("by", "functions");
    let mut cache = with_slots(alloc, case)?;
    mark.begin(alloc);
    let size = first_pass::<KC, M, C>(map, number, &mut cache, by_function);
    let refused = mark.end();
    sized_outcome(alloc, case, &mut cache, size, refused)
}

// What comes of a size and an encoding.
fn written_outcome(
    alloc: Global,
    size: Result<u64, EncodeError>,
    text: &[u8],
    refused: bool,
) -> Result<Outcome, Fault> {
    let words = count_told(alloc, size);
    let text = text_told(alloc, text);
    Outcome::of_words(alloc, written(alloc, size), words, text, refused)
}

// The length and the encoding of a map of messages.
fn writing<
    'a,
    KC: MapCodec,
    M: Message + 'a,
    C: StableWalk<'a> + MapStorage<Key = KC::Value, Value = M>,
>(alloc: Global, case: &Case<'_>, mark: &mut Mark, map: &'a C) -> Result<Outcome, Fault>
where
    KC::Value: 'a,
{
    let number = case.field_number()?;
    let by_function = case.says("by", "functions");
    let mut cache = with_slots_behind(alloc, case)?;
    let mut text = Vec::new(alloc);
    mark.begin(alloc);
    let size = both_passes::<KC, M, C>(map, number, &mut cache, &mut text, by_function);
    let refused = mark.end();
    written_outcome(alloc, size, text.as_slice(), refused)
}

// What comes of a row on a map of messages, by its call.
fn field<
    'a,
    KC: MapCodec,
    M: Message + 'a,
    C: StableWalk<'a> + MapStorage<Key = KC::Value, Value = M>,
>(alloc: Global, case: &Case<'_>, mark: &mut Mark, map: &'a C) -> Result<Outcome, Fault>
where
    KC::Value: 'a,
{
    if case.call == "size-messages" {
        return sizing::<KC, M, C>(alloc, case, mark, map);
    }
    writing::<KC, M, C>(alloc, case, mark, map)
}

// What comes of a row on a map of messages in a `BTreeMap`.
fn of_ordered<M: Message>(
    alloc: Global,
    case: &Case<'_>,
    mark: &mut Mark,
) -> Result<Outcome, Fault> {
    let mut map: BTreeMap<i32, M> = BTreeMap::new(alloc);
    fill::<Int32, M, _>(alloc, case, &mut map)?;
    field::<Int32, M, _>(alloc, case, mark, &map)
}

// What comes of a row on a map of messages in a `Map`.
fn of_indexed<M: Message>(
    alloc: Global,
    case: &Case<'_>,
    mark: &mut Mark,
) -> Result<Outcome, Fault> {
    let mut map: Map<i32, M> = Map::new(alloc);
    fill::<Int32, M, _>(alloc, case, &mut map)?;
    field::<Int32, M, _>(alloc, case, mark, &map)
}

/// What comes of a row on a map of messages: in a `BTreeMap`, or in a `Map`.
pub(crate) fn of_map<M: Message>(
    alloc: Global,
    case: &Case<'_>,
    storage: StorageName,
    mark: &mut Mark,
) -> Result<Outcome, Fault> {
    if storage == StorageName::Ordered {
        of_ordered::<M>(alloc, case, mark)
    } else {
        of_indexed::<M>(alloc, case, mark)
    }
}
