//! The errors, each variant with what it holds.

use buffa::map_codec::RewriteError;
use buffa::{DecodeError, EncodeError, MessageSetFault, WireType};
use std::alloc::Global;
use std::test::Fail;

// The name of a refusal of bytes, and the number that it holds.
fn decode_name(refused: DecodeError) -> (&'static str, u32) {
    match refused {
        DecodeError::UnexpectedEof => ("UnexpectedEof", 0),
        DecodeError::VarintTooLong => ("VarintTooLong", 0),
        DecodeError::InvalidFieldNumber => ("InvalidFieldNumber", 0),
        DecodeError::InvalidWireType(wire_type) => ("InvalidWireType", wire_type),
        DecodeError::WireTypeMismatch {
            field_number,
            expected: WireType::Varint,
            actual: _,
        } => ("WireTypeMismatch of a varint", field_number),
        DecodeError::WireTypeMismatch {
            field_number,
            expected: _,
            actual: _,
        } => ("WireTypeMismatch", field_number),
        DecodeError::InvalidUtf8 => ("InvalidUtf8", 0),
        DecodeError::MessageTooLarge => ("MessageTooLarge", 0),
        DecodeError::RecursionLimitExceeded => ("RecursionLimitExceeded", 0),
        DecodeError::UnknownFieldLimitExceeded => ("UnknownFieldLimitExceeded", 0),
        DecodeError::ElementMemoryLimitExceeded => ("ElementMemoryLimitExceeded", 0),
        DecodeError::InvalidEndGroup(number) => ("InvalidEndGroup", number),
        DecodeError::InvalidMessageSet(MessageSetFault::MissingTypeId) => ("missing type_id", 0),
        DecodeError::InvalidMessageSet(MessageSetFault::TypeIdOutOfRange) => {
            ("type_id out of range", 0)
        }
        DecodeError::UnexpectedField(number) => ("UnexpectedField", number),
        DecodeError::OutOfMemory => ("OutOfMemory", 0),
    }
}

// The name of a refusal to write.
fn encode_name(refused: EncodeError) -> &'static str {
    match refused {
        EncodeError::MessageTooLarge => "MessageTooLarge",
        EncodeError::GroupRefused(inner) => decode_name(inner).0,
        EncodeError::OutOfMemory => "OutOfMemory",
    }
}

// What is printed of a rewrite's refusal, and its name.
fn rewrite_names(alloc: Global, refused: RewriteError) -> Result<(String, &'static str), Fail> {
    let name = match refused {
        RewriteError::Decode(fault) => decode_name(fault).0,
        RewriteError::Encode(error) => encode_name(error),
    };
    Ok((format!(in alloc; "{refused}")?, name))
}

#[test]
fn errors(rt: HostRuntime) -> Result<(), Fail> {
    let (printed, name) = rewrite_names(
        rt.alloc(),
        RewriteError::Decode(DecodeError::InvalidUtf8),
    )?;
    assert!(rt; (printed.as_str(), name) == ("InvalidUtf8", "InvalidUtf8"));
    let group = EncodeError::GroupRefused(DecodeError::RecursionLimitExceeded);
    let (printed, name) = rewrite_names(rt.alloc(), RewriteError::Encode(group))?;
    assert!(rt; printed.as_str() == "GroupRefused RecursionLimitExceeded");
    assert!(rt; name == "RecursionLimitExceeded");
    assert!(rt; decode_name(DecodeError::UnexpectedField(6)) == ("UnexpectedField", 6));
    Ok(())
}
