//! What is judged of which fields, and that a malformed option is an error.

use crate::judge::{Fault, judge};
use crate::rules::read_rules;
use buffa_descriptor::messages::{FieldDescriptorProto, FieldDescriptorProtoType, FieldOptions};
use buffa_fields::{Blank, DecodeError, Message, UnknownFields};
use std::alloc::Global;
use std::test::Fail;

// A field of number 7 with the options whose bytes these are.
fn field_with(
    alloc: Global,
    kind: FieldDescriptorProtoType,
    options: &[u8],
) -> Result<FieldDescriptorProto, DecodeError> {
    let mut field = FieldDescriptorProto::blank(alloc);
    let mut read = FieldOptions::blank(alloc);
    read.merge_from_slice(alloc, options)?;
    field.number = Some(7);
    field.type_ = Some(kind);
    field.options = Some(read);
    Ok(field)
}

#[test]
fn values_are_judged_by_their_type(rt: HostRuntime) -> Result<(), Fail> {
    let alloc = rt.alloc();
    let options: [u8; 8] = [
        0x90, 0xB5, 0x18, 0x03, // least is -2
        0x98, 0xB5, 0x18, 0x0A, // most is 5
    ];
    let signed = field_with(alloc, FieldDescriptorProtoType::Sint32, &options)?;
    let rules = read_rules(alloc, &signed)?;
    assert!(rt; rules.least == Some(-2) && rules.most == Some(5) && !rules.required);
    let none = UnknownFields::new(alloc);
    assert!(rt; judge(alloc, &signed, &rules, &none)? == Ok(()));
    let fields = UnknownFields::decode_from_slice(alloc, &[0x38, 0x05])?; // 7: 5, or -3 as sint32
    assert!(rt; judge(alloc, &signed, &rules, &fields)? == Err(Fault::TooSmall));
    let plain = field_with(alloc, FieldDescriptorProtoType::Int32, &options)?;
    assert!(rt; judge(alloc, &plain, &rules, &fields)? == Ok(()));
    let last = UnknownFields::decode_from_slice(alloc, &[0x38, 0x05, 0x38, 0x06])?; // 7: 5, then 6
    assert!(rt; judge(alloc, &plain, &rules, &last)? == Err(Fault::TooGreat));
    let text = UnknownFields::decode_from_slice(alloc, &[0x3A, 0x01, 0x78])?; // 7: x
    assert!(rt; judge(alloc, &plain, &rules, &text)? == Err(Fault::OfAnotherKind));
    let real = field_with(alloc, FieldDescriptorProtoType::Bool, &options)?;
    assert!(rt; judge(alloc, &real, &rules, &fields)? == Err(Fault::OfAnotherKind));
    Ok(())
}

#[test]
fn a_malformed_option_is_an_error(rt: HostRuntime) -> Result<(), Fail> {
    let alloc = rt.alloc();
    let options: [u8; 5] = [0x92, 0xB5, 0x18, 0x01, 0x03]; // least, as a text
    let field = field_with(alloc, FieldDescriptorProtoType::Sint32, &options)?;
    assert!(rt; read_rules(alloc, &field).is_err());
    let both: [u8; 9] = [0x92, 0xB5, 0x18, 0x01, 0x03, 0x90, 0xB5, 0x18, 0x03]; // the same, and then -2
    let field = field_with(alloc, FieldDescriptorProtoType::Sint32, &both)?;
    assert!(rt; read_rules(alloc, &field).is_err());
    Ok(())
}
