//! Examples on map fields: calls that no other proved function makes in this way.

use buffa_map::map_codec::{
    Bool, BytesBuf, ClosedEnum, Int32, Map, MapStorage, OpenEnum, ProtoBytesMap, ProtoStringMap,
    Str, field_len, read_map_field, size_and_write_field, write_field,
};
use buffa_wire::{Budget, DecodeContext, EncodeError, EnumValue, RECURSION_LIMIT, UnknownFields};
use bytes::Bytes;
use sample_types::hues::Old;
use sample_types::word::Word;
use std::alloc::Global;
use std::test::Fail;

// The entry of "a" and 1, in a record of number 5.
const ENTRY: [u8; 7] = [0x2A, 0x05, 0x0A, 0x01, 0x61, 0x10, 0x01];

// The map that a record of number 5 is.
fn map_of(alloc: Global, record: &[u8]) -> Result<Map<String, i32>, Fail> {
    let mut budget = Budget::new(0);
    let ctx = DecodeContext::new(RECURSION_LIMIT, &mut budget);
    let mut bytes = record;
    let mut counts: Map<String, i32> = Map::new(alloc);
    read_map_field::<Str, Int32, _, _>(alloc, &mut counts, 5, &mut bytes, ctx, None)?;
    Ok(counts)
}

// The records that a map is written as.
fn encoding_of(alloc: Global, counts: Map<String, i32>) -> Result<Vec<u8>, EncodeError> {
    let mut encoding = Vec::new(alloc);
    write_field::<Str, Int32, _, _>(&counts, 5, &mut encoding)?;
    Ok(encoding)
}

#[test]
fn a_map_field_is_read_sized_and_written(rt: HostRuntime) -> Result<(), Fail> {
    let alloc = rt.alloc();
    let counts = map_of(alloc, &ENTRY)?;
    let size = field_len::<Str, Int32, _>(&counts, 1);
    assert!(rt; size == 7);
    let encoding = encoding_of(alloc, counts)?;
    assert!(rt; encoding.as_slice() == ENTRY.as_slice());
    Ok(())
}

// The size that is announced of a map, and its records behind what is there.
fn at_once(counts: Map<String, i32>, mut encoding: Vec<u8>) -> Result<(u64, Vec<u8>), EncodeError> {
    let size = size_and_write_field::<Str, Int32, _>(&counts, 5, &mut encoding)?;
    Ok((size, encoding))
}

#[test]
fn a_map_field_is_sized_and_written_at_once(rt: HostRuntime) -> Result<(), Fail> {
    let alloc = rt.alloc();
    let counts = map_of(alloc, &ENTRY)?;
    let (size, encoding) = at_once(counts, Vec::from_slice(alloc, &ENTRY)?)?;
    assert!(rt; size == 7);
    assert!(rt; encoding.len() == 14);
    Ok(())
}

// 1 = B, 2 = 7, in records of number 5.
const HUES: [u8; 12] = [
    0x2A, 0x04, 0x08, 0x01, 0x10, 0x01, 0x2A, 0x04, 0x08, 0x02, 0x10, 0x07,
];

// The map of an enum that the records are, and those whose value it doesn't declare.
fn hues_of(alloc: Global, records: &[u8]) -> Result<(Map<i32, Old>, UnknownFields), Fail> {
    let mut budget = Budget::new(1);
    let ctx = DecodeContext::new(RECURSION_LIMIT, &mut budget);
    let mut rest = records;
    let mut map: Map<i32, Old> = Map::new(alloc);
    let mut unknown = UnknownFields::new(alloc);
    read_map_field::<Int32, ClosedEnum<Old>, _, _>(
        alloc,
        &mut map,
        5,
        &mut rest,
        ctx,
        Some(&mut unknown),
    )?;
    Ok((map, unknown))
}

// Whether a map has B under 1.
fn has_b(map: &Map<i32, Old>) -> bool {
    map.get(&1) == Some(&Old::B)
}

#[test]
fn undeclared_values_of_a_closed_enum_are_kept(rt: HostRuntime) -> Result<(), Fail> {
    let (map, unknown) = hues_of(rt.alloc(), &HUES)?;
    assert!(rt; has_b(&map));
    assert!(rt; unknown.len() == 1);
    Ok(())
}

// A map with that undeclared value, as a number.
fn open_hues(alloc: Global) -> Result<Map<i32, EnumValue<Old>>, Fail> {
    let mut open: Map<i32, EnumValue<Old>> = Map::new(alloc);
    open.storage_insert(1, EnumValue::Known(Old::B))?;
    open.storage_insert(2, EnumValue::Unknown(7))?;
    Ok(open)
}

#[test]
fn undeclared_values_of_an_open_enum_are_numbers(rt: HostRuntime) -> Result<(), Fail> {
    let open = open_hues(rt.alloc())?;
    let mut encoding = Vec::new(rt.alloc());
    write_field::<Int32, OpenEnum<Old>, _, _>(&open, 5, &mut encoding)?;
    assert!(rt; encoding.as_slice() == HUES.as_slice());
    Ok(())
}

#[test]
fn words_are_read_into_a_map(rt: HostRuntime) -> Result<(), Fail> {
    let alloc = rt.alloc();
    // b = true, B = false.
    let mut rest: &[u8] = &[
        0x0A, 0x05, 0x0A, 0x01, 0x62, 0x10, 0x01, 0x0A, 0x05, 0x0A, 0x01, 0x42, 0x10, 0x00,
    ];
    let mut budget = Budget::new(0);
    let ctx = DecodeContext::new(RECURSION_LIMIT, &mut budget);
    let mut words: Map<Word, bool> = Map::new(alloc);
    read_map_field::<ProtoStringMap<Word>, Bool, _, _>(alloc, &mut words, 1, &mut rest, ctx, None)?;
    assert!(rt; words.storage_len() == 1);
    Ok(())
}

// 1 = DE AD, in a record of number 5.
const BYTES: [u8; 8] = [0x2A, 0x06, 0x08, 0x01, 0x12, 0x02, 0xDE, 0xAD];

// The map of that record.
fn map_of_bytes(alloc: Global) -> Result<Map<i32, Vec<u8>>, Fail> {
    let mut map: Map<i32, Vec<u8>> = Map::new(alloc);
    map.storage_insert(1, Vec::from_slice(alloc, &[0xDE, 0xAD])?)?;
    Ok(map)
}

#[test]
fn values_that_are_bytes_are_written(rt: HostRuntime) -> Result<(), Fail> {
    let map = map_of_bytes(rt.alloc())?;
    let mut encoding = Vec::new(rt.alloc());
    write_field::<Int32, ProtoBytesMap<Vec<u8>>, _, _>(&map, 5, &mut encoding)?;
    assert!(rt; encoding.as_slice() == BYTES.as_slice());
    Ok(())
}

// The map of shared bytes that the record is.
fn shared_bytes(alloc: Global, record: &[u8]) -> Result<Map<i32, Bytes>, Fail> {
    let mut budget = Budget::new(0);
    let ctx = DecodeContext::new(RECURSION_LIMIT, &mut budget);
    let mut rest = record;
    let mut shared: Map<i32, Bytes> = Map::new(alloc);
    read_map_field::<Int32, BytesBuf, _, _>(alloc, &mut shared, 5, &mut rest, ctx, None)?;
    Ok(shared)
}

#[test]
fn values_that_are_bytes_are_read(rt: HostRuntime) -> Result<(), Fail> {
    let shared = shared_bytes(rt.alloc(), &BYTES)?;
    match shared.get(&1) {
        Some(bytes) => assert!(rt; bytes.as_slice() == [0xDE, 0xAD].as_slice()),
        None => assert!(rt; false),
    }
    Ok(())
}
