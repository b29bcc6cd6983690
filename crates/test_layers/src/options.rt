//! Options by their bytes.

use buffa_ext::codecs::{Int32, MessageCodec, PackedRepeated, Repeated, StringCodec};
use buffa_ext::{Extension, ExtensionSet, StrictCodec};
use buffa_wire::{DecodeError, UnknownFields, WireType};
use sample_types::flat::FlatMsg;
use sample_validator::options::{
    FieldOptions, max_length_or_default, read_bool, read_choices, read_int32, read_label,
};
use sample_validator::price::{Price, PriceCodec, store_price};
use sample_validator::rules::{Violation, validate};
use std::alloc::Global;
use std::test::Fail;

// The options that the bytes are.
fn options_of(alloc: Global, bytes: &[u8]) -> Result<FieldOptions, Fail> {
    let fields = UnknownFields::decode_from_slice(alloc, bytes)?;
    Ok(FieldOptions {
        deprecated: None,
        fields,
    })
}

#[test]
fn numbers_are_read_of_their_records(rt: HostRuntime) -> Result<(), Fail> {
    let alloc = rt.alloc();
    let rows: [(&[u8], Option<i32>, i32); 4] = [
        (&[], None, 255),
        (&[0x88, 0xB5, 0x18, 0x00], Some(0), 0),
        (
            &[0x88, 0xB5, 0x18, 0x05, 0x88, 0xB5, 0x18, 0x50],
            Some(80),
            80,
        ),
        (&[0x8A, 0xB5, 0x18, 0x01, 0x50], None, 255),
    ];
    for (bytes, read, filled) in rows {
        let options = options_of(alloc, bytes)?;
        assert!(rt; read_int32(alloc, &options, 50001)? == read);
        assert!(rt; max_length_or_default(alloc, &options)? == filled);
    }
    Ok(())
}

#[test]
fn texts_are_read_of_their_records(rt: HostRuntime) -> Result<(), Fail> {
    let alloc = rt.alloc();
    let options = options_of(alloc, b"\x92\xB5\x18\x04name\x92\xB5\x18\x01\xFF")?;
    match read_label(alloc, &options)? {
        Some(label) => assert!(rt; label.as_str() == "name"),
        None => assert!(rt; false),
    }
    Ok(())
}

#[test]
fn lists_are_read_of_their_records(rt: HostRuntime) -> Result<(), Fail> {
    let alloc = rt.alloc();
    let listed = [0x98, 0xB5, 0x18, 0x01, 0x9A, 0xB5, 0x18, 0x03, 2, 0xAC, 2];
    let choices = read_choices(alloc, &options_of(alloc, &listed)?)?;
    assert!(rt; choices.as_slice() == [1, 2, 300].as_slice());
    Ok(())
}

// min 1, max 9, required.
const RULES: [u8; 12] = [
    0xD8, 0xB5, 0x18, 0x01, 0xE0, 0xB5, 0x18, 0x09, 0xE8, 0xB5, 0x18, 0x01,
];

#[test]
fn values_are_judged_by_options(rt: HostRuntime) -> Result<(), Fail> {
    let alloc = rt.alloc();
    let options = options_of(alloc, &RULES)?;
    let rows = [
        (None, Err(Violation::Missing)),
        (Some(0), Err(Violation::TooSmall)),
        (Some(1), Ok(())),
        (Some(9), Ok(())),
        (Some(10), Err(Violation::TooGreat)),
    ];
    for (value, expected) in rows {
        assert!(rt; validate(alloc, &options, value)? == expected);
    }
    Ok(())
}

#[test]
fn values_are_free_without_options(rt: HostRuntime) -> Result<(), Fail> {
    let alloc = rt.alloc();
    let free = options_of(alloc, &[])?;
    assert!(rt; validate(alloc, &free, None)? == Ok(()));
    assert!(rt; validate(alloc, &free, Some(-1))? == Ok(()));
    Ok(())
}

#[test]
fn a_malformed_limit_is_no_limit_left_out(rt: HostRuntime) -> Result<(), Fail> {
    let alloc = rt.alloc();
    let malformed = options_of(alloc, b"\xE2\xB5\x18\x01\x05")?;
    let fault = DecodeError::WireTypeMismatch {
        field_number: 50012,
        expected: WireType::Varint,
        actual: WireType::LengthDelimited,
    };
    assert!(rt; validate(alloc, &malformed, Some(12)) == Err(fault));
    Ok(())
}

// The price -3, in a record.
const PRICE: [u8; 4] = [0xA8, 0xB6, 0x18, 0x05];

// Options with a price, and what was read back as it was stored.
fn options_with(alloc: Global, owed: Price) -> Result<(FieldOptions, Option<Price>), Fail> {
    let mut options = options_of(alloc, &[])?;
    let stored = store_price(alloc, &mut options, owed)?;
    Ok((options, stored))
}

#[test]
fn prices_are_stored(rt: HostRuntime) -> Result<(), Fail> {
    let owed = Price { cents: -3 };
    let (options, stored) = options_with(rt.alloc(), owed)?;
    assert!(rt; stored == Some(owed));
    let mut encoding = Vec::new(rt.alloc());
    options.fields.write_to(&mut encoding)?;
    assert!(rt; encoding.as_slice() == PRICE.as_slice());
    Ok(())
}

#[test]
fn prices_are_read_as_a_packed_list(rt: HostRuntime) -> Result<(), Fail> {
    let alloc = rt.alloc();
    let options = options_of(alloc, &PRICE)?;
    let prices = Extension::<PackedRepeated<PriceCodec>>::new(
        50021,
        "google.protobuf.FieldOptions",
    );
    let all = options.extension(alloc, &prices)?;
    assert!(rt; all.as_slice() == [Price { cents: -3 }].as_slice());
    Ok(())
}

// What a strict reading of `int32 min = 50011` of the bytes answers.
fn min_of(alloc: Global, bytes: &[u8]) -> Result<Result<Option<i32>, DecodeError>, Fail> {
    let options = options_of(alloc, bytes)?;
    let min = Extension::<Int32>::new(50011, "google.protobuf.FieldOptions");
    Ok(options.read_extension(alloc, &min))
}

#[test]
fn malformed_numbers_are_read_as_faults(rt: HostRuntime) -> Result<(), Fail> {
    let other = Err(DecodeError::WireTypeMismatch {
        field_number: 50011,
        expected: WireType::Varint,
        actual: WireType::LengthDelimited,
    });
    let four = Err(DecodeError::WireTypeMismatch {
        field_number: 50011,
        expected: WireType::Varint,
        actual: WireType::Fixed32,
    });
    let rows: [(&[u8], Result<Option<i32>, DecodeError>); 6] = [
        (&[], Ok(None)),
        (&[0x88, 0xB5, 0x18, 0x05], Ok(None)),
        (b"\xD8\xB5\x18\x05\xD8\xB5\x18\x06", Ok(Some(6))),
        (b"\xDA\xB5\x18\x01\x05\xD8\xB5\x18\x06", other),
        (b"\xD8\xB5\x18\x06\xDA\xB5\x18\x01\x05", other),
        (b"\xDD\xB5\x18\x00\x00\x00\x00\xDA\xB5\x18\x01\x05", four),
    ];
    for (bytes, answer) in rows {
        assert!(rt; min_of(rt.alloc(), bytes)? == answer);
    }
    Ok(())
}

#[test]
fn malformed_payloads_are_read_as_faults(rt: HostRuntime) -> Result<(), Fail> {
    let alloc = rt.alloc();
    let label = Extension::<StringCodec>::new(50002, "google.protobuf.FieldOptions");
    let options = options_of(alloc, b"\x92\xB5\x18\x04name\x92\xB5\x18\x01\xFF")?;
    match options.read_extension(alloc, &label) {
        Ok(_) => assert!(rt; false),
        Err(error) => assert!(rt; error == DecodeError::InvalidUtf8),
    }
    let choices = Extension::<Repeated<Int32>>::new(50003, "google.protobuf.FieldOptions");
    let whole = options_of(
        alloc,
        &[0x98, 0xB5, 0x18, 0x01, 0x9A, 0xB5, 0x18, 0x03, 2, 0xAC, 2],
    )?;
    let all = whole.read_extension(alloc, &choices)?;
    assert!(rt; all.as_slice() == [1, 2, 300].as_slice());
    let cut = options_of(
        alloc,
        &[0x9A, 0xB5, 0x18, 0x02, 2, 0xAC, 0x98, 0xB5, 0x18, 0x01],
    )?;
    match cut.read_extension(alloc, &choices) {
        Ok(_) => assert!(rt; false),
        Err(error) => assert!(rt; error == DecodeError::UnexpectedEof),
    }
    Ok(())
}

// The fault of a strict reading of messages at number 7 of the bytes, one and as a list.
fn faults_of(alloc: Global, bytes: &[u8]) -> Result<[Option<DecodeError>; 2], Fail> {
    let options = options_of(alloc, bytes)?;
    let one = Extension::<MessageCodec<FlatMsg>>::new(7, "google.protobuf.FieldOptions");
    let all = Extension::<Repeated<MessageCodec<FlatMsg>>>::new(7, "google.protobuf.FieldOptions");
    let first = match options.read_extension(alloc, &one) {
        Ok(_) => None,
        Err(error) => Some(error),
    };
    let listed = match options.read_extension(alloc, &all) {
        Ok(_) => None,
        Err(error) => Some(error),
    };
    Ok([first, listed])
}

#[test]
fn malformed_messages_are_read_as_faults(rt: HostRuntime) -> Result<(), Fail> {
    let other = Some(DecodeError::WireTypeMismatch {
        field_number: 7,
        expected: WireType::LengthDelimited,
        actual: WireType::Varint,
    });
    let eof = Some(DecodeError::UnexpectedEof);
    let rows: [(&[u8], Option<DecodeError>); 5] = [
        (&[], None),
        (&[0x3A, 0x00, 0x3A, 0x00], None),
        (&[0x3A, 0x00, 0x38, 0x01, 0x3A, 0x01, 0x08], other),
        (&[0x3A, 0x01, 0x08, 0x38, 0x01], eof),
        (&[0x3A, 0x01, 0x08, 0x3A, 0x00], eof),
    ];
    for (bytes, fault) in rows {
        assert!(rt; faults_of(rt.alloc(), bytes)? == [fault, fault]);
    }
    Ok(())
}

// Whether a value has to be there.
fn is_required(alloc: Global, options: &FieldOptions) -> Result<bool, Fail> {
    let required = read_bool(alloc, options, 50013)?;
    Ok(required == Some(true))
}

#[test]
fn values_may_be_required(rt: HostRuntime) -> Result<(), Fail> {
    let alloc = rt.alloc();
    let options = options_of(alloc, &[0xE8, 0xB5, 0x18, 0x01])?;
    assert!(rt; is_required(alloc, &options)?);
    let fields = UnknownFields::decode_from_slice(alloc, &[0x38, 0x05])?;
    let value = Int32::decode_strictly(alloc, 7, &fields)?;
    assert!(rt; value == Some(5));
    Ok(())
}
