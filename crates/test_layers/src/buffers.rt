//! Readers over bytes that are limited, and the front of bytes that are cut.

ghost use Rattle.std.specs.Prelude.{◌≡◌, ◌≤◌, length, drop, OnOk};

use buffa_bytes::buf::front;
use buffa_bytes::{Buf, DecodeError, Limited, Pieces, decode_varint, types};
use std::alloc::Global;
use std::test::Fail;

// 150, "ok" and the fixed32 1, as the protobuf encoding guide spells them; then a 7.
const ENCODING: [u8; 10] = [0x96, 0x01, 2, b'o', b'k', 1, 0, 0, 0, 7];

fn read_three<B: Buf>(alloc: Global, buf: &mut B) -> Result<(u64, String, u32), DecodeError>
    ensures kept { B.beyond buf.new ≡ B.beyond buf.old }
{
    let number = decode_varint(buf)?;
    let word = types::decode_string(alloc, buf)?;
    let one = types::decode_fixed32(buf)?;
    Ok((number, word, one))
}

// Whether these are the three.
fn are_three(number: u64, word: &String, one: u32) -> bool {
    number == 150 && word.as_str() == "ok" && one == 1
}

// Reads within the first `limit` bytes, and passes over all of these.
fn read_within<B: Buf>(
    alloc: Global,
    buf: &mut B,
    limit: usize,
) -> Result<(u64, String, u32), DecodeError>
    requires { limit ≤ length (B.unread buf.old) }
    ensures rest { OnOk result (B.unread buf.new ≡ drop limit (B.unread buf.old)) }
    ensures kept { B.beyond buf.new ≡ B.beyond buf.old }
{
    let mut within = Limited::new(buf, limit);
    let read = read_three(alloc, &mut within)?;
    within.finish();
    Ok(read)
}

// The same within the first `inner` of the first `outer` bytes.
fn read_within_twice<B: Buf>(
    alloc: Global,
    buf: &mut B,
    outer: usize,
    inner: usize,
) -> Result<(u64, String, u32), DecodeError>
    requires { (inner ≤ outer) × (outer ≤ length (B.unread buf.old)) }
    ensures rest { OnOk result (B.unread buf.new ≡ drop outer (B.unread buf.old)) }
    ensures kept { B.beyond buf.new ≡ B.beyond buf.old }
{
    let mut within = Limited::new(buf, outer);
    let read = read_within(alloc, &mut within, inner)?;
    within.finish();
    Ok(read)
}

#[test]
fn the_front_is_shown_where_it_lies_together(rt: HostRuntime) {
    let encoding: &[u8] = &ENCODING;
    assert!(rt; front(&encoding, 2) == Some([0x96, 0x01].as_slice()));
    assert!(rt; front(&encoding, 10) == Some(encoding));
    assert!(rt; front(&encoding, 11) == None);
    let parts: [&[u8]; 2] = [&encoding[..1], &encoding[1..]];
    let pieces = Pieces::new(&parts);
    assert!(rt; front(&pieces, 1) == Some([0x96].as_slice()));
    assert!(rt; front(&pieces, 2) == None);
}

#[test]
fn a_limit_under_a_limit(rt: HostRuntime) -> Result<(), Fail> {
    let mut rest: &[u8] = &ENCODING;
    let (number, word, one) = read_within_twice(rt.alloc(), &mut rest, 9, 9)?;
    assert!(rt; are_three(number, &word, one));
    assert!(rt; rest == [7].as_slice());
    let mut rest: &[u8] = &ENCODING;
    let refused = read_within_twice(rt.alloc(), &mut rest, 10, 8).err();
    assert!(rt; refused == Some(DecodeError::UnexpectedEof));
    Ok(())
}

#[test]
fn limits_over_bytes_that_are_cut(rt: HostRuntime) -> Result<(), Fail> {
    let parts: [&[u8]; 3] = [&ENCODING[..4], &[], &ENCODING[4..]];
    let mut pieces = Pieces::new(&parts);
    let (number, word, one) = read_within_twice(rt.alloc(), &mut pieces, 10, 9)?;
    assert!(rt; are_three(number, &word, one));
    assert!(rt; pieces.remaining() == 0);
    Ok(())
}
