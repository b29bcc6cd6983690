//! Worked examples of docs/BY_HAND.md, run.

use buffa::map_codec::{
    Int32, Map, MapStorage, Msg, Str, merge_entry, message_field_len, read_map_field,
    write_message_field,
};
use buffa::{Budget, DecodeContext, EncodeError, RECURSION_LIMIT, SizeCache};
use sample_types::census::Census;
use sample_types::two::TestMsg;
use std::alloc::Global;
use std::test::Fail;

// The census that the bytes are.
fn census_of(alloc: Global, bytes: &[u8]) -> Result<Census, Fail> {
    let mut census = Census::new(alloc);
    let mut budget = Budget::new(0);
    let mut rest = bytes;
    let ctx = DecodeContext::new(RECURSION_LIMIT, &mut budget);
    census.merge(alloc, &mut rest, ctx)?;
    Ok(census)
}

// Whether a census has this count under a name.
fn has(census: &Census, name: &str, count: i32) -> bool {
    census.counts.get(name) == Some(&count)
}

// The bytes that a census is written as.
fn encoding_of(alloc: Global, census: &Census) -> Result<Vec<u8>, EncodeError> {
    let mut encoding = Vec::new(alloc);
    census.write(&mut encoding)?;
    Ok(encoding)
}

#[test]
fn a_message_with_a_map_field(rt: HostRuntime) -> Result<(), Fail> {
    let bytes: &[u8] = &[
        0x2A, 0x05, 0x0A, 0x01, 0x61, 0x10, 0x01, 0x38, 0x07, 0x2A, 0x05, 0x0A, 0x01, 0x62, 0x10,
        0x02,
    ];
    let census = census_of(rt.alloc(), bytes)?;
    assert!(rt; census.counts.storage_len() == 2);
    assert!(rt; has(&census, "b", 2));
    assert_eq!(rt; census.encoded_len(), 14);
    let encoding = encoding_of(rt.alloc(), &census)?;
    let written: &[u8] = &[
        0x2A, 0x05, 0x0A, 0x01, 0x61, 0x10, 0x01, 0x2A, 0x05, 0x0A, 0x01, 0x62, 0x10, 0x02,
    ];
    assert!(rt; encoding.as_slice() == written);
    Ok(())
}

#[test]
fn an_entry_is_merged(rt: HostRuntime) -> Result<(), Fail> {
    let alloc = rt.alloc();
    let mut budget = Budget::new(0);
    let ctx = DecodeContext::new(RECURSION_LIMIT, &mut budget);
    let mut rest: &[u8] = &[0x05, 0x0A, 0x01, 0x61, 0x10, 0x01];
    let mut map: Map<String, i32> = Map::new(alloc);
    merge_entry::<Str, Int32, _, _>(alloc, &mut map, &mut rest, ctx)?;
    assert!(rt; map.get("a") == Some(&1));
    Ok(())
}

// The entry of 3 and a message whose `a` is 5, in a record of number 5.
const ENTRY: [u8; 8] = [0x2A, 0x06, 0x08, 0x03, 0x12, 0x02, 0x08, 0x05];

// The map of that entry.
fn map_of_one(alloc: Global) -> Result<Map<i32, TestMsg>, Fail> {
    let mut map: Map<i32, TestMsg> = Map::new(alloc);
    map.storage_insert(3, TestMsg { a: 5, b: 0 })?;
    Ok(map)
}

// The size that is announced of a map, and its records.
fn sized_and_written(alloc: Global, map: Map<i32, TestMsg>) -> Result<(u64, Vec<u8>), EncodeError> {
    let mut cache = SizeCache::new(alloc);
    let size = message_field_len::<Int32, TestMsg, _>(&map, 1, &mut cache)?;
    let mut encoding = Vec::new(alloc);
    write_message_field::<Int32, TestMsg, _, _>(&map, 5, &mut cache, &mut encoding)?;
    Ok((size, encoding))
}

#[test]
fn a_map_field_of_messages(rt: HostRuntime) -> Result<(), Fail> {
    let map = map_of_one(rt.alloc())?;
    let (size, encoding) = sized_and_written(rt.alloc(), map)?;
    assert!(rt; size == 8);
    assert!(rt; encoding.as_slice() == ENTRY.as_slice());
    Ok(())
}

// The map that records of number 5 are.
fn map_of(alloc: Global, bytes: &[u8]) -> Result<Map<i32, TestMsg>, Fail> {
    let mut read: Map<i32, TestMsg> = Map::new(alloc);
    let mut budget = Budget::new(0);
    let mut rest = bytes;
    let ctx = DecodeContext::new(RECURSION_LIMIT, &mut budget);
    read_map_field::<Int32, Msg<TestMsg>, _, _>(alloc, &mut read, 5, &mut rest, ctx, None)?;
    Ok(read)
}

#[test]
fn messages_are_read_into_a_map(rt: HostRuntime) -> Result<(), Fail> {
    let read = map_of(rt.alloc(), &ENTRY)?;
    match read.get(&3) {
        Some(message) => assert!(rt; (message.a, message.b) == (5, 0)),
        None => assert!(rt; false),
    }
    Ok(())
}
