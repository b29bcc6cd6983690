//! Buffers, sinks, varints, tags, and fields that are passed over.

use buffa::{
    Buf, DecodeError, EncodeSink, Limited, MAX_FIELD_NUMBER, Pieces, RECURSION_LIMIT, Tag,
    WireType, check_wire_type, decode_varint, encode_varint, skip_field_depth, varint_len,
};
use std::test::Fail;

// Passes over the first chunk; how much is left.
fn past_chunk<B: Buf>(buf: &mut B) -> usize {
    let shown = buf.chunk().len();
    if shown <= buf.remaining() {
        buf.advance(shown);
    }
    buf.remaining()
}

#[test]
fn buffers(rt: HostRuntime) {
    let mut rest: &[u8] = &[1, 2, 3];
    assert!(rt; past_chunk(&mut rest) == 0);
    let parts: [&[u8]; 3] = [&[1, 2], &[], &[3]];
    let mut pieces = Pieces::new(&parts);
    assert!(rt; past_chunk(&mut pieces) == 1);
    let mut rest: &[u8] = &[1, 2, 3];
    let mut front = Limited::new(&mut rest, 2);
    assert!(rt; past_chunk(&mut front) == 0);
}

#[test]
fn varints(rt: HostRuntime) -> Result<(), Fail> {
    let mut sink = Vec::new(rt.alloc());
    encode_varint(300, &mut sink)?;
    sink.put_slice(&[7])?;
    assert!(rt; sink.as_slice() == [0xAC, 2, 7].as_slice());
    let mut rest = sink.as_slice();
    let read = decode_varint(&mut rest)?;
    assert!(rt; read == 300);
    assert!(rt; varint_len(300) == 2);
    Ok(())
}

#[test]
fn wire_types(rt: HostRuntime) {
    assert!(rt; WireType::Varint.number() == 0);
    assert!(rt; WireType::Fixed64.number() == 1);
    assert!(rt; WireType::LengthDelimited.number() == 2);
    assert!(rt; WireType::StartGroup.number() == 3);
    assert!(rt; WireType::EndGroup.number() == 4);
    assert!(rt; WireType::Fixed32.number() == 5);
}

#[test]
fn tags(rt: HostRuntime) -> Result<(), Fail> {
    let mut sink = Vec::new(rt.alloc());
    Tag::new(MAX_FIELD_NUMBER, WireType::Varint).encode(&mut sink)?;
    encode_varint(1, &mut sink)?;
    let mut rest = sink.as_slice();
    let tag = Tag::decode(&mut rest)?;
    assert!(rt; tag.field_number() == 536_870_911);
    assert!(rt; tag.wire_type() == WireType::Varint);
    check_wire_type(tag, WireType::Varint)?;
    skip_field_depth(tag, &mut rest, RECURSION_LIMIT)?;
    assert!(rt; rest.remaining() == 0);
    let refused = check_wire_type(tag, WireType::Fixed32);
    assert!(rt;
        refused
            == Err(DecodeError::WireTypeMismatch {
                field_number: 536_870_911,
                expected: WireType::Fixed32,
                actual: WireType::Varint,
            })
    );
    Ok(())
}
