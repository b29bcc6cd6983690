//! Buffers and sinks of the crate `bytes`.

use buffa_bytes::{Adapted, decode_varint};
use buffa_map::map_codec::{Int32, Map, MapStorage, Str, merge_entry, write_field};
use buffa_wire::{Budget, DecodeContext, DecodeError, EncodeError, RECURSION_LIMIT};
use bytes::{Buf, Bytes, BytesMut};
use std::alloc::Global;
use std::io::Cursor;
use std::test::Fail;

// An entry of a map<string, int32> behind its tag, as the protobuf encoding guide spells it: its length, the key
// "ab", the value 150. Then a 7.
const ENTRY: [u8; 9] = [7, 0x0A, 2, b'a', b'b', 0x10, 0x96, 0x01, 7];

// Merges an entry that lies in two pieces, and counts what is left of each.
fn merge_from_two(
    alloc: Global,
    counts: &mut Map<String, i32>,
    front: Bytes,
    back: Bytes,
) -> Result<(usize, usize), DecodeError> {
    let mut budget = Budget::new(0);
    let ctx = DecodeContext::new(RECURSION_LIMIT, &mut budget);
    let mut both = Adapted(front.chain(back));
    merge_entry::<Str, Int32, _, _>(alloc, counts, &mut both, ctx)?;
    let (front, back) = both.0.into_inner();
    Ok((front.len(), back.len()))
}

// Merges an entry that lies in two shared pieces: the counts, and what is left of each.
fn merge_shared(
    alloc: Global,
    front: &[u8],
    back: &[u8],
) -> Result<(Map<String, i32>, (usize, usize)), Fail> {
    let front = Bytes::copy_from_slice(alloc, front)?;
    let back = Bytes::copy_from_slice(alloc, back)?;
    let mut counts: Map<String, i32> = Map::new(alloc);
    let left = merge_from_two(alloc, &mut counts, front, back)?;
    Ok((counts, left))
}

// Whether there is this count under a name.
fn has(counts: &Map<String, i32>, name: &str, count: i32) -> bool {
    counts.get(name) == Some(&count)
}

#[test]
fn an_entry_in_two_shared_pieces(rt: HostRuntime) -> Result<(), Fail> {
    let entry: &[u8] = &ENTRY;
    for cut in 0..entry.len() {
        let (counts, left) = merge_shared(rt.alloc(), &entry[..cut], &entry[cut..])?;
        assert!(rt; left == (0, 1));
        assert!(rt; has(&counts, "ab", 150));
    }
    Ok(())
}

// Writes the counts behind what `out` holds.
fn write_counts(counts: &Map<String, i32>, out: &mut BytesMut) -> Result<(), EncodeError> {
    write_field::<Str, Int32, _, _>(counts, 5, out)
}

// The count of "ab" alone.
fn one_count(alloc: Global) -> Result<Map<String, i32>, Fail> {
    let mut counts: Map<String, i32> = Map::new(alloc);
    counts.storage_insert(String::from_str(alloc, "ab")?, 150)?;
    Ok(counts)
}

#[test]
fn a_field_behind_what_is_there(rt: HostRuntime) -> Result<(), Fail> {
    let counts = one_count(rt.alloc())?;
    let mut out = BytesMut::copy_from_slice(rt.alloc(), &[7])?;
    write_counts(&counts, &mut out)?;
    let written: &[u8] = &[7, 0x2A, 7, 0x0A, 2, b'a', b'b', 0x10, 0x96, 0x01];
    assert!(rt; out.as_slice() == written);
    Ok(())
}

#[test]
fn a_lent_buffer_up_to_a_limit(rt: HostRuntime) -> Result<(), Fail> {
    let mut rest = BytesMut::copy_from_slice(rt.alloc(), &[0x96, 0x01, 0x96, 7])?;
    let mut within = Adapted(Buf::take(&mut rest, 3));
    assert!(rt; decode_varint(&mut within)? == 150);
    assert!(rt; decode_varint(&mut within) == Err(DecodeError::UnexpectedEof));
    assert!(rt; rest.as_slice() == [7].as_slice());
    Ok(())
}

#[test]
fn a_cursor_is_read_from_its_position(rt: HostRuntime) -> Result<(), Fail> {
    let all: &[u8] = &[7, 0x96, 0x01];
    let mut cursor = Cursor::new(all);
    cursor.set_position(1);
    let mut buf = Adapted(cursor);
    assert!(rt; decode_varint(&mut buf)? == 150);
    assert!(rt; buf.0.position() == 3);
    Ok(())
}
