//! Unknown fields as values: numbers that no bytes have, what is read beside what is made by hand, a predicate's calls.

use buffa_wire::{UnknownField, UnknownFieldData, UnknownFields};
use std::alloc::Global;
use std::test::Fail;

// The field of a number and data.
fn field(number: u32, payload: UnknownFieldData) -> UnknownField {
    UnknownField { number, payload }
}

// A group of number 7 that holds one field.
fn group(alloc: Global) -> Result<UnknownField, Fail> {
    let mut inside = UnknownFields::new(alloc);
    inside.push(field(3, UnknownFieldData::Varint(1)))?;
    Ok(field(7, UnknownFieldData::Group(inside)))
}

#[test]
fn fields_of_any_number_are_written(rt: HostRuntime) -> Result<(), Fail> {
    let mut fields = UnknownFields::new(rt.alloc());
    assert!(rt; fields.spare() == 0);
    fields.push(field(0, UnknownFieldData::Fixed64(2)))?;
    fields.push(field(u32::MAX, UnknownFieldData::Varint(300)))?;
    let mut encoding = Vec::new(rt.alloc());
    fields.write_to(&mut encoding)?;
    let expected: [u8; 16] = [
        1, 2, 0, 0, 0, 0, 0, 0, 0, 0xF8, 0xFF, 0xFF, 0xFF, 0x7F, 0xAC, 2,
    ];
    assert!(rt; encoding.as_slice() == expected.as_slice());
    assert!(rt; fields.encoded_len() == 16);
    Ok(())
}

#[test]
fn what_is_read_is_equal_to_its_records(rt: HostRuntime) -> Result<(), Fail> {
    let mut expected = UnknownFields::new(rt.alloc());
    expected.push(field(1, UnknownFieldData::Varint(5)))?;
    expected.push(group(rt.alloc())?)?;
    let bytes = [0x08, 5, 0x3B, 0x18, 1, 0x3C];
    let fields = UnknownFields::decode_from_slice(rt.alloc(), &bytes)?;
    assert!(rt; fields == expected);
    Ok(())
}

#[test]
fn retain_looks_at_each_field_once(rt: HostRuntime) -> Result<(), Fail> {
    let mut fields = UnknownFields::new(rt.alloc());
    for number in [3, 7, 3] {
        fields.push(field(number, UnknownFieldData::Varint(1)))?;
    }
    let mut calls = 0u32;
    fields.retain(|_| {
        calls = calls.saturating_add(1);
        calls != 2
    });
    assert!(rt; calls == 3);
    assert!(rt; fields.len() == 2);
    let gone = 7;
    fields.retain(|kept| kept.number != gone);
    assert!(rt; fields.len() == 2);
    Ok(())
}
