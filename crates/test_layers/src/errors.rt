//! What errors print: each of them, and under a width, which none of them heeds.

use buffa_bytes::{DecodeError, EncodeError, MessageSetFault, WireType};
use buffa_map::map_codec::RewriteError;
use buffa_wire::CanonicalError;
use std::alloc::Global;
use std::test::Fail;

// Whether a refusal of bytes prints as this, whatever the width.
fn prints(alloc: Global, refused: DecodeError, text: &str) -> Result<bool, Fail> {
    let plain = format!(in alloc; "{refused}")?;
    let wide = format!(in alloc; "{refused:>60}")?;
    Ok(plain.as_str() == text && wide.as_str() == text)
}

#[test]
fn refusals_without_more(rt: HostRuntime) -> Result<(), Fail> {
    for (refused, text) in [
        (DecodeError::UnexpectedEof, "UnexpectedEof"),
        (DecodeError::VarintTooLong, "VarintTooLong"),
        (DecodeError::InvalidFieldNumber, "InvalidFieldNumber"),
        (DecodeError::InvalidUtf8, "InvalidUtf8"),
        (DecodeError::MessageTooLarge, "MessageTooLarge"),
        (
            DecodeError::RecursionLimitExceeded,
            "RecursionLimitExceeded",
        ),
        (
            DecodeError::UnknownFieldLimitExceeded,
            "UnknownFieldLimitExceeded",
        ),
        (
            DecodeError::ElementMemoryLimitExceeded,
            "ElementMemoryLimitExceeded",
        ),
        (DecodeError::OutOfMemory, "OutOfMemory"),
    ] {
        assert!(rt; prints(rt.alloc(), refused, text)?);
    }
    Ok(())
}

#[test]
fn refusals_that_hold_something(rt: HostRuntime) -> Result<(), Fail> {
    let mismatch = DecodeError::WireTypeMismatch {
        field_number: 1,
        expected: WireType::LengthDelimited,
        actual: WireType::Varint,
    };
    for (refused, text) in [
        (DecodeError::InvalidWireType(7), "InvalidWireType 7"),
        (mismatch, "WireTypeMismatch 1 2 0"),
        (
            DecodeError::InvalidEndGroup(536_870_911),
            "InvalidEndGroup 536870911",
        ),
        (
            DecodeError::InvalidMessageSet(MessageSetFault::MissingTypeId),
            "InvalidMessageSet missing type_id",
        ),
        (
            DecodeError::InvalidMessageSet(MessageSetFault::TypeIdOutOfRange),
            "InvalidMessageSet type_id out of range",
        ),
        (DecodeError::UnexpectedField(6), "UnexpectedField 6"),
    ] {
        assert!(rt; prints(rt.alloc(), refused, text)?);
    }
    Ok(())
}

#[test]
fn faults_of_items(rt: HostRuntime) -> Result<(), Fail> {
    let missing = MessageSetFault::MissingTypeId;
    let printed = format!(in rt.alloc(); "{missing} {missing:>30}")?;
    assert!(rt; printed.as_str() == "missing type_id missing type_id");
    let far = MessageSetFault::TypeIdOutOfRange;
    let printed = format!(in rt.alloc(); "{far}")?;
    assert!(rt; printed.as_str() == "type_id out of range");
    Ok(())
}

#[test]
fn refusals_to_write(rt: HostRuntime) -> Result<(), Fail> {
    let large = EncodeError::MessageTooLarge;
    let group = EncodeError::GroupRefused(DecodeError::InvalidUtf8);
    let full = EncodeError::OutOfMemory;
    let printed = format!(in rt.alloc(); "{large}, {group}, {full}, {large:>30}")?;
    let expected = "MessageTooLarge, GroupRefused InvalidUtf8, OutOfMemory, MessageTooLarge";
    assert!(rt; printed.as_str() == expected);
    Ok(())
}

#[test]
fn refusals_of_what_had_to_be_an_encoding(rt: HostRuntime) -> Result<(), Fail> {
    let refused = CanonicalError::Malformed(DecodeError::UnexpectedEof);
    let other = CanonicalError::NotCanonical;
    let printed = format!(in rt.alloc(); "{refused}, {other}, {other:>30}")?;
    assert!(rt; printed.as_str() == "Malformed UnexpectedEof, NotCanonical, NotCanonical");
    Ok(())
}

#[test]
fn refusals_of_a_rewrite(rt: HostRuntime) -> Result<(), Fail> {
    let read = RewriteError::Decode(DecodeError::UnexpectedField(6));
    let written = RewriteError::Encode(EncodeError::MessageTooLarge);
    let printed = format!(in rt.alloc(); "{read}, {written}, {written:>30}")?;
    assert!(rt; printed.as_str() == "UnexpectedField 6, MessageTooLarge, MessageTooLarge");
    Ok(())
}
