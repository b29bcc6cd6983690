//! Tasks of docs/GUIDE.md and of docs/BY_HAND.md, run: steps that are taken later, closed enums, and a loop over fields.

use buffa_ext::codecs::Int32;
use buffa_ext::{Extension, ExtensionCodec, Step, replay};
use buffa_wire::{
    Blank, Budget, Buf, CanonicalError, Decode, DecodeError, EnumValue, Message, MessageSpec, Tag,
    UnknownFieldData, UnknownFields, skip_field_depth,
};
use sample_palette::palette::Palette;
use sample_palette::shade::Shade;
use sample_palette::swatch::Swatch;
use std::alloc::Global;
use std::test::Fail;

// Three fields, one of a text and two of numbers.
const BYTES: [u8; 7] = [0x0A, 0x01, 0x78, 0x48, 0x05, 0x40, 0x01];

// What the records of number 7 are after two steps.
fn after_steps(alloc: Global) -> Result<Option<i32>, Fail> {
    let mut fields = UnknownFields::decode_from_slice(alloc, &[0x38, 0x01, 0x48, 0x05])?;
    let records = vec![in alloc; UnknownFieldData::Varint(2)]?;
    let steps = vec![in alloc; Step::Set { number: 7, records }, Step::Clear { number: 9 }]?;
    replay(alloc, &mut fields, steps)?;
    Ok(Int32::decode(alloc, 7, &fields)?)
}

#[test]
fn steps_are_taken(rt: HostRuntime) -> Result<(), Fail> {
    assert!(rt; after_steps(rt.alloc())? == Some(2));
    Ok(())
}

// How many fields the bytes are.
fn count_fields(bytes: &[u8], depth: u32) -> Result<u64, DecodeError> {
    let mut rest = bytes;
    let mut count: u64 = 0;
    for _ in 0..u64::MAX {
        if rest.remaining() == 0 {
            break;
        }
        let tag = Tag::decode(&mut rest)?;
        skip_field_depth(tag, &mut rest, depth)?;
        count = count.saturating_add(1);
    }
    Ok(count)
}

#[test]
fn fields_are_counted(rt: HostRuntime) -> Result<(), Fail> {
    assert!(rt; count_fields(&BYTES, 10)? == 3);
    Ok(())
}

// The swatch that the bytes are.
fn swatch_of(alloc: Global, bytes: &[u8]) -> Result<Swatch, Fail> {
    let mut message: Swatch = Blank::blank(alloc);
    message.merge_from_slice(alloc, bytes)?;
    Ok(message)
}

// The swatch that the bytes are, at most 20 levels deep, under limits.
fn swatch_within(alloc: Global, bytes: &[u8]) -> Result<Swatch, DecodeError> {
    let limits = Budget::new(1_000).with_element_memory(1_000_000);
    Swatch::decode_within(alloc, bytes, 20, limits)
}

// The limits under which a swatch of `len` bytes takes at most `most` bytes of memory: none where that isn't enough.
fn limits_for(most: usize, len: usize) -> Option<Budget> {
    let input = len.checked_mul(64)?.checked_add(192 * 1_000)?;
    let units = (most.checked_sub(input)? / 16).checked_sub(<Swatch as MessageSpec>::COST)?;
    Some(Budget::new(1_000).with_element_memory(units))
}

#[test]
fn limits_are_made_of_memory(rt: HostRuntime) {
    let units = limits_for(64_000_000, 500_000).map(|limits| limits.memory_left());
    assert!(rt; units == Some(1_987_936));
    assert!(rt; limits_for(32_193_000, 500_000).is_none());
    assert!(rt; limits_for(usize::MAX, usize::MAX).is_none());
}

// What the bytes are refused for that have to be the encoding of a swatch.
fn swatch_refused(alloc: Global, bytes: &[u8]) -> Option<CanonicalError> {
    Swatch::decode_canonical(alloc, bytes).err()
}

#[test]
fn a_message_is_made_of_bytes(rt: HostRuntime) -> Result<(), Fail> {
    let alloc = rt.alloc();
    let bytes: &[u8] = &[0x08, 0x01];
    let swatch = Swatch::decode_from_slice(alloc, bytes)?;
    assert!(rt; swatch.shade == Some(Shade::B));
    let swatch = swatch_within(alloc, bytes)?;
    assert!(rt; swatch.shade == Some(Shade::B));
    let swatch = Swatch::decode_canonical(alloc, bytes)?;
    assert!(rt; swatch.shade == Some(Shade::B));
    Ok(())
}

#[test]
fn other_spellings_are_refused(rt: HostRuntime) {
    let alloc = rt.alloc();
    let longer = swatch_refused(alloc, &[0x08, 0x81, 0x00]);
    assert!(rt; longer == Some(CanonicalError::NotCanonical));
    let twice = swatch_refused(alloc, &[0x08, 0x00, 0x08, 0x01]);
    assert!(rt; twice == Some(CanonicalError::NotCanonical));
    let refused = CanonicalError::Malformed(DecodeError::UnexpectedEof);
    assert!(rt; swatch_refused(alloc, &[0x08]) == Some(refused));
}

#[test]
fn a_closed_enum_keeps_what_it_does_not_declare(rt: HostRuntime) -> Result<(), Fail> {
    let alloc = rt.alloc();
    let swatch = swatch_of(alloc, &[0x08, 0x63])?;
    assert!(rt; swatch.shade.is_none());
    let encoding = swatch.try_encode_to_vec(alloc)?;
    let written: &[u8] = &[0x08, 0x63];
    assert!(rt; encoding.as_slice() == written);
    let open = EnumValue::<Shade>::blank(alloc);
    assert!(rt; open == EnumValue::Known(Shade::A));
    let message: Palette = Blank::blank(alloc);
    assert!(rt; message.list.len() == 0);
    Ok(())
}

// Sets a closed enum, so that no number that came and isn't declared is written behind it.
fn set_shade(swatch: &mut Swatch, shade: Shade) {
    swatch.unknown_fields.retain(|field| field.number != 1);
    swatch.shade = Some(shade);
}

#[test]
fn a_closed_enum_is_set_in_place_of_what_came(rt: HostRuntime) -> Result<(), Fail> {
    let alloc = rt.alloc();
    let mut swatch = swatch_of(alloc, &[0x08, 0x63])?;
    set_shade(&mut swatch, Shade::B);
    let encoding = swatch.try_encode_to_vec(alloc)?;
    let written: &[u8] = &[0x08, 0x01];
    assert!(rt; encoding.as_slice() == written);
    Ok(())
}

#[test]
fn an_extension_names_its_number(rt: HostRuntime) {
    let ext = Extension::<Int32>::new(7, "test.Carrier");
    assert!(rt; ext.number() == 7);
}
