//! Messages, enums, strings and bytes, and defaults.

use buffa::{
    Blank, Budget, DecodeContext, DecodeError, EncodeError, EnumValue, Enumeration,
    MAX_MESSAGE_BYTES, Message, MessageSpec, ProtoBytes, ProtoString, RECURSION_LIMIT, SizeCache,
    Tag,
};
use sample_types::flat::FlatMsg;
use sample_types::hues::Old;
use std::alloc::Global;
use std::test::Fail;

// The size of a message, and its encoding by the two passes.
fn by_two_passes<M: Message>(alloc: Global, message: &M) -> Result<(u32, Vec<u8>), EncodeError> {
    let mut cache = SizeCache::new(alloc);
    let size: u32 = message.compute_size(&mut cache)?;
    let mut sink = Vec::new(alloc);
    message.write_to(&mut cache, &mut sink)?;
    Ok((size, sink))
}

// Merges the one field that the bytes are.
fn merge_one<M: Message>(alloc: Global, message: &mut M, bytes: &[u8]) -> Result<(), DecodeError> {
    let mut budget = Budget::new(1);
    let ctx = DecodeContext::new(RECURSION_LIMIT, &mut budget);
    let mut rest = bytes;
    let tag = Tag::decode(&mut rest)?;
    message.merge_field(alloc, tag, &mut rest, ctx)
}

// Merges bytes, and then bytes behind their length.
fn merge_both<M: Message>(alloc: Global, message: &mut M, bytes: &[u8]) -> Result<(), DecodeError> {
    let mut budget = Budget::new(1);
    let ctx = DecodeContext::new(RECURSION_LIMIT, &mut budget);
    let mut rest = bytes;
    message.merge(alloc, &mut rest, ctx)?;
    let mut rest: &[u8] = &[2, 0x08, 7];
    let ctx = DecodeContext::new(RECURSION_LIMIT, &mut budget);
    message.merge_length_delimited(alloc, &mut rest, ctx)
}

#[test]
fn messages_are_written(rt: HostRuntime) -> Result<(), Fail> {
    let message = FlatMsg { value: 5 };
    let (size, encoding) = by_two_passes(rt.alloc(), &message)?;
    assert!(rt; size == 2);
    let at_once: Vec<u8> = message.try_encode_to_vec(rt.alloc())?;
    assert!(rt; encoding.as_slice() == [0x08, 5].as_slice());
    assert!(rt; at_once.as_slice() == encoding.as_slice());
    assert!(rt; MAX_MESSAGE_BYTES == 2_147_483_647);
    assert!(rt; <FlatMsg as MessageSpec>::COST > 0);
    Ok(())
}

#[test]
fn messages_are_merged(rt: HostRuntime) -> Result<(), Fail> {
    let mut message = FlatMsg::blank(rt.alloc());
    merge_one(rt.alloc(), &mut message, &[0x08, 5])?;
    assert!(rt; message.value == 5);
    merge_both(rt.alloc(), &mut message, &[0x08, 6])?;
    assert!(rt; message.value == 7);
    message.merge_from_slice(rt.alloc(), &[0x08, 8])?;
    assert!(rt; message.value == 8);
    message.clear(rt.alloc());
    assert!(rt; message.value == 0);
    Ok(())
}

#[test]
fn enums(rt: HostRuntime) {
    assert!(rt; <Old as Enumeration>::from_i32(1) == Some(Old::B));
    assert!(rt; <Old as Enumeration>::to_i32(&Old::B) == 1);
    assert!(rt; EnumValue::<Old>::from_i32(1) == EnumValue::Known(Old::B));
    assert!(rt; EnumValue::<Old>::from_i32(9) == EnumValue::Unknown(9));
    assert!(rt; EnumValue::<Old>::Unknown(9).to_i32() == 9);
    assert!(rt; EnumValue::<Old>::blank(rt.alloc()) == EnumValue::Known(Old::A));
}

#[test]
fn strings_and_bytes(rt: HostRuntime) -> Result<(), Fail> {
    let word = <String as ProtoString>::from_wire(rt.alloc(), b"ok")?;
    assert!(rt; ProtoString::as_str(&word) == "ok");
    let held = <Vec<u8> as ProtoBytes>::from_wire(rt.alloc(), &[0xFF])?;
    assert!(rt; ProtoBytes::as_bytes(&held) == [0xFF].as_slice());
    Ok(())
}

#[test]
fn defaults(rt: HostRuntime) {
    assert!(rt; (i32::blank(rt.alloc()), i64::blank(rt.alloc())) == (0, 0));
    assert!(rt; (u32::blank(rt.alloc()), u64::blank(rt.alloc())) == (0, 0));
    assert!(rt; !bool::blank(rt.alloc()));
    assert!(rt; String::blank(rt.alloc()).as_str() == "");
    assert!(rt; Vec::<u8>::blank(rt.alloc()).len() == 0);
}
