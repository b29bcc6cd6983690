//! Failures and what caused them. The bytes are worked out by hand, from the protobuf encoding guide.

use buffa_wire::{Blank, Budget, DecodeContext, DecodeError, Message, SizeCache};
use sample_recursive::failure::Failure;
use std::string::String;
use std::test::Fail;

#[test]
fn causes_are_passed_on(rt: HostRuntime) -> Result<(), Fail> {
    let alloc = rt.alloc();
    let mut failure: Failure = Blank::blank(alloc);
    let bytes: [u8; 19] = [
        0x18, 0x50, // a line
        0x12, 0x09, // the cause,
        0x12, 0x03, 0x0A, 0x01, 0x78, // which was caused by "x",
        0x18, 0x07, 0x18, 0x08, // and has two lines
        0x0A, 0x02, 0x76, 0x77, // the reason is "vw"
        0x20, 0x07, // field 4 isn't declared
    ];
    failure.merge_from_slice(alloc, &bytes)?;
    assert!(rt; failure.reason.as_str() == "vw" && failure.unknown_fields.len() == 1);
    let again: [u8; 19] = [
        0x0A, 0x02, 0x76, 0x77, // the reason,
        0x12, 0x09, 0x12, 0x03, 0x0A, 0x01, 0x78, 0x18, 0x07, 0x18, 0x08, // the cause,
        0x18, 0x50, // the line,
        0x20, 0x07, // and what isn't declared
    ];
    let encoding = failure.try_encode_to_vec(alloc)?;
    assert!(rt; encoding.as_slice() == again.as_slice());
    let mut cache = SizeCache::new(alloc);
    assert!(rt; failure.compute_size(&mut cache)? == 19);
    Ok(())
}

#[test]
fn a_second_cause_is_merged_into_the_first(rt: HostRuntime) -> Result<(), Fail> {
    let alloc = rt.alloc();
    let mut failure: Failure = Blank::blank(alloc);
    let bytes: [u8; 18] = [
        0x12, 0x07, 0x0A, 0x01, 0x78, 0x12, 0x02, 0x18, 0x05, // "x", caused by line 5,
        0x12, 0x07, 0x18, 0x06, 0x12, 0x03, 0x0A, 0x01, 0x79, // at line 6, caused by "y"
    ];
    failure.merge_from_slice(alloc, &bytes)?;
    let again: [u8; 14] = [
        0x12, 0x0C, 0x0A, 0x01, 0x78, // one cause, "x",
        0x12, 0x05, 0x0A, 0x01, 0x79, 0x18, 0x05, // caused by "y" at line 5,
        0x18, 0x06, // at line 6
    ];
    let encoding = failure.try_encode_to_vec(alloc)?;
    assert!(rt; encoding.as_slice() == again.as_slice());
    Ok(())
}

#[test]
fn an_empty_cause_is_there(rt: HostRuntime) -> Result<(), Fail> {
    let alloc = rt.alloc();
    let mut failure: Failure = Blank::blank(alloc);
    assert!(rt; failure.cause.is_none());
    failure.merge_from_slice(alloc, &[0x12, 0x00])?;
    assert!(rt; failure.lines.len() == 0 && failure.cause.is_some());
    let encoding = failure.try_encode_to_vec(alloc)?;
    assert!(rt; encoding.as_slice() == [0x12, 0x00].as_slice());
    Ok(())
}

#[test]
fn a_cause_too_deep_is_refused(rt: HostRuntime) -> Result<(), Fail> {
    let alloc = rt.alloc();
    let mut failure: Failure = Blank::blank(alloc);
    let bytes: [u8; 4] = [0x12, 0x02, 0x12, 0x00];
    let mut budget = Budget::new(10);
    let mut buf: &[u8] = &bytes;
    let answer = failure.merge(alloc, &mut buf, DecodeContext::new(1, &mut budget));
    assert!(rt; answer == Err(DecodeError::RecursionLimitExceeded));
    assert!(rt; failure.cause.is_none());
    Ok(())
}

#[test]
fn a_cause_stands_where_a_second_is_refused(rt: HostRuntime) -> Result<(), Fail> {
    let alloc = rt.alloc();
    let mut failure: Failure = Blank::blank(alloc);
    let bytes: [u8; 10] = [
        0x12, 0x02, 0x18, 0x05, // a cause at line 5,
        0x12, 0x04, 0x18, 0x06, 0x0A, 0x09, // and one at line 6, whose reason is cut off
    ];
    let answer = failure.merge_from_slice(alloc, &bytes);
    assert!(rt; answer == Err(DecodeError::UnexpectedEof));
    assert!(rt; failure.cause.is_some());
    Ok(())
}

#[test]
fn a_cause_is_set(rt: HostRuntime) -> Result<(), Fail> {
    let alloc = rt.alloc();
    let mut failure: Failure = Blank::blank(alloc);
    let mut cause: Failure = Blank::blank(alloc);
    cause.reason = String::from_str(alloc, "x")?;
    failure.cause = Some(Box::new(alloc, cause)?);
    let encoding = failure.try_encode_to_vec(alloc)?;
    assert!(rt; encoding.as_slice() == [0x12, 0x03, 0x0A, 0x01, 0x78].as_slice());
    Ok(())
}
