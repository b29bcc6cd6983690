//! Map fields: storages, codecs, and the calls on entries, runs, sizes and encodings.

use buffa::map_codec::{
    ClosedEnum, Int32, MapCodec, MapStorage, MapValueDecode, MapValueDecodeStatus, MapWalk, Msg,
    RewriteError, Str, field_len, merge_entry, merge_entry_with_unknowns, merge_message_entry_by,
    message_field_len, message_field_len_by, read_map_field, rewrite_map_field, write_field,
    write_message_field, write_message_field_by,
};
use buffa::{
    Budget, Buf, DecodeContext, DecodeError, EncodeError, Map, Message, RECURSION_LIMIT, SizeCache,
    UnknownFields, WireType,
};
use sample_types::flat::FlatMsg;
use sample_types::hues::Old;
use std::alloc::Global;
use std::collections::{BTreeMap, HashMap};
use std::test::Fail;

// The pair of "a" and 1, in a record of number 5.
const RECORD: [u8; 7] = [0x2A, 0x05, 0x0A, 0x01, 0x61, 0x10, 0x01];

// The entry of it.
const ENTRY: [u8; 6] = [0x05, 0x0A, 0x01, 0x61, 0x10, 0x01];

// The pair of 3 and a message whose value is 5, in a record of number 4.
const MESSAGE_RECORD: [u8; 8] = [0x22, 0x06, 0x08, 0x03, 0x12, 0x02, 0x08, 0x05];

// The pairs of a storage, counted by a walk.
fn walked<'a, C: MapWalk<'a>>(map: &'a C) -> usize
where
    C::Key: 'a,
    C::Value: 'a,
{
    let mut count = 0usize;
    for (_key, _value) in map.storage_iter() {
        count = count.saturating_add(1);
    }
    count
}

#[test]
fn storages(rt: HostRuntime) -> Result<(), Fail> {
    let mut ordered: BTreeMap<i32, i32> = BTreeMap::new(rt.alloc());
    ordered.storage_insert(1, 2)?;
    assert!(rt; ordered.storage_len() == 1);
    assert!(rt; walked(&ordered) == 1);
    ordered.storage_clear();
    assert!(rt; ordered.storage_len() == 0);
    let mut usual: Map<i32, i32> = Map::new(rt.alloc());
    usual.storage_insert(1, 2)?;
    assert!(rt; walked(&usual) == 1);
    Ok(())
}

#[test]
fn codecs(rt: HostRuntime) -> Result<(), Fail> {
    let mut budget = Budget::new(0);
    let ctx = DecodeContext::new(RECURSION_LIMIT, &mut budget);
    let mut value = Old::A;
    let mut rest: &[u8] = &[1];
    let status = <ClosedEnum<Old> as MapValueDecode>::merge(
        rt.alloc(),
        &mut value,
        &mut rest,
        ctx,
    )?;
    assert!(rt; status == MapValueDecodeStatus::Known);
    assert!(rt; status != MapValueDecodeStatus::Unknown);
    assert!(rt; <ClosedEnum<Old> as MapValueDecode>::WIRE_TYPE == WireType::Varint);
    assert!(rt; <ClosedEnum<Old> as MapValueDecode>::MAY_RETURN_UNKNOWN);
    assert!(rt; <Int32 as MapValueDecode>::COST > 0);
    assert!(rt; <Int32 as MapCodec>::FIXED_LEN == None);
    assert!(rt; <Int32 as MapCodec>::encoded_len(&300) == 2u64);
    let mut sink = Vec::new(rt.alloc());
    <Int32 as MapCodec>::encode(&300, &mut sink)?;
    assert!(rt; sink.as_slice() == [0xAC, 2].as_slice());
    Ok(())
}

#[test]
fn entries_are_merged(rt: HostRuntime) -> Result<(), Fail> {
    let mut budget = Budget::new(1);
    let mut map: BTreeMap<String, i32> = BTreeMap::new(rt.alloc());
    let ctx = DecodeContext::new(RECURSION_LIMIT, &mut budget);
    let mut rest: &[u8] = &ENTRY;
    merge_entry::<Str, Int32, _, _>(rt.alloc(), &mut map, &mut rest, ctx)?;
    assert!(rt; map.get("a") == Some(&1));
    let mut kept = UnknownFields::new(rt.alloc());
    let mut closed: BTreeMap<i32, Old> = BTreeMap::new(rt.alloc());
    let ctx = DecodeContext::new(RECURSION_LIMIT, &mut budget);
    let mut rest: &[u8] = &[0x04, 0x08, 0x07, 0x10, 0x63];
    merge_entry_with_unknowns::<Int32, ClosedEnum<Old>, _, _>(
        rt.alloc(),
        &mut closed,
        &mut rest,
        ctx,
        5,
        Some(&mut kept),
    )?;
    assert!(rt; (closed.storage_len(), kept.len()) == (0, 1));
    Ok(())
}

#[test]
fn runs_are_read(rt: HostRuntime) -> Result<(), Fail> {
    let mut budget = Budget::new(0);
    let mut map: Map<String, i32> = Map::new(rt.alloc());
    let ctx = DecodeContext::new(RECURSION_LIMIT, &mut budget);
    let mut rest: &[u8] = &RECORD;
    read_map_field::<Str, Int32, _, _>(rt.alloc(), &mut map, 5, &mut rest, ctx, None)?;
    assert!(rt; map.get("a") == Some(&1));
    Ok(())
}

// The rewrite of a run of number 5.
fn rewritten(alloc: Global, bytes: &[u8]) -> Result<Vec<u8>, RewriteError> {
    let mut budget = Budget::new(0);
    let mut map: HashMap<String, i32> = HashMap::new(alloc);
    let ctx = DecodeContext::new(RECURSION_LIMIT, &mut budget);
    let mut rest = bytes;
    let mut sink = Vec::new(alloc);
    rewrite_map_field::<Str, Int32, _, _, _>(alloc, &mut map, 5, &mut rest, ctx, &mut sink)?;
    Ok(sink)
}

#[test]
fn runs_are_rewritten(rt: HostRuntime) -> Result<(), Fail> {
    let sink = rewritten(rt.alloc(), &RECORD)?;
    assert!(rt; sink.as_slice() == RECORD.as_slice());
    let refused = rewritten(rt.alloc(), &[0x32, 0x00]).err();
    assert!(rt; refused == Some(RewriteError::Decode(DecodeError::UnexpectedField(6))));
    assert!(rt; refused != Some(RewriteError::Encode(EncodeError::MessageTooLarge)));
    Ok(())
}

// The map of "a" and 1.
fn map_of_one(alloc: Global) -> Result<BTreeMap<String, i32>, Fail> {
    let mut map = BTreeMap::new(alloc);
    let key = String::from_str(alloc, "a")?;
    map.storage_insert(key, 1)?;
    Ok(map)
}

#[test]
fn fields_are_written(rt: HostRuntime) -> Result<(), Fail> {
    let map = map_of_one(rt.alloc())?;
    let len: u64 = field_len::<Str, Int32, _>(&map, 1);
    assert!(rt; len == 7);
    let mut sink = Vec::new(rt.alloc());
    write_field::<Str, Int32, _, _>(&map, 5, &mut sink)?;
    assert!(rt; sink.as_slice() == RECORD.as_slice());
    Ok(())
}

// The map of 3 and a message whose value is 5.
fn map_of_message(alloc: Global) -> Result<BTreeMap<i32, FlatMsg>, Fail> {
    let mut map = BTreeMap::new(alloc);
    map.storage_insert(3, FlatMsg { value: 5 })?;
    Ok(map)
}

#[test]
fn fields_of_messages_are_written(rt: HostRuntime) -> Result<(), Fail> {
    let map = map_of_message(rt.alloc())?;
    let mut cache = SizeCache::new(rt.alloc());
    let len: u64 = message_field_len::<Int32, FlatMsg, _>(&map, 1, &mut cache)?;
    assert!(rt; len == 8);
    let mut sink = Vec::new(rt.alloc());
    write_message_field::<Int32, FlatMsg, _, _>(&map, 4, &mut cache, &mut sink)?;
    assert!(rt; sink.as_slice() == MESSAGE_RECORD.as_slice());
    Ok(())
}

#[test]
fn fields_of_messages_are_written_by_functions(rt: HostRuntime) -> Result<(), Fail> {
    let map = map_of_message(rt.alloc())?;
    let mut cache = SizeCache::new(rt.alloc());
    let len: u64 = message_field_len_by::<Int32, FlatMsg, _, _>(
        &map,
        1,
        &mut cache,
        |value: &FlatMsg, cache: &mut SizeCache| value.compute_size(cache),
    )?;
    assert!(rt; len == 8);
    let mut sink = Vec::new(rt.alloc());
    write_message_field_by::<Int32, FlatMsg, _, _, _>(
        &map,
        4,
        &mut cache,
        &mut sink,
        |value: &FlatMsg, cache: &mut SizeCache, sink: &mut Vec<u8>| value.write_to(cache, sink),
    )?;
    assert!(rt; sink.as_slice() == MESSAGE_RECORD.as_slice());
    Ok(())
}

// Merges an entry by the message's own way to merge bytes.
fn merged_by<B: Buf>(
    alloc: Global,
    map: &mut BTreeMap<i32, FlatMsg>,
    buf: &mut B,
    ctx: DecodeContext<'_>,
) -> Result<(), DecodeError> {
    merge_message_entry_by::<Int32, FlatMsg, _, _, _>(
        alloc,
        map,
        buf,
        ctx,
        |message: &mut FlatMsg, bytes: &[u8], depth: u32, budget: &mut Budget| {
            let mut rest = bytes;
            message.merge(alloc, &mut rest, DecodeContext { depth, budget })
        },
    )
}

#[test]
fn entries_of_messages_are_merged(rt: HostRuntime) -> Result<(), Fail> {
    let mut budget = Budget::new(0);
    let mut map: BTreeMap<i32, FlatMsg> = BTreeMap::new(rt.alloc());
    let ctx = DecodeContext::new(RECURSION_LIMIT, &mut budget);
    let mut rest: &[u8] = &MESSAGE_RECORD[1..];
    merged_by(rt.alloc(), &mut map, &mut rest, ctx)?;
    let ctx = DecodeContext::new(RECURSION_LIMIT, &mut budget);
    let mut rest: &[u8] = &[0x00];
    merge_entry::<Int32, Msg<FlatMsg>, _, _>(rt.alloc(), &mut map, &mut rest, ctx)?;
    assert!(rt; map.storage_len() == 2);
    Ok(())
}
