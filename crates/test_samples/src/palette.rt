//! What a palette passes on. The bytes are worked out by hand, from the protobuf encoding guide.

use buffa_wire::{Blank, Budget, DecodeContext, DecodeError, Message, RECURSION_LIMIT};
use sample_palette::palette::Palette;
use sample_palette::shade::Shade;
use std::test::Fail;

#[test]
fn what_is_undeclared_is_passed_on(rt: HostRuntime) -> Result<(), Fail> {
    let alloc = rt.alloc();
    let mut palette: Palette = Blank::blank(alloc);
    let bytes: [u8; 18] = [
        0x1A, 0x04, 0x08, 0x02, 0x10, 0x07, // shades[2] is 7, which isn't declared
        0x08, 0x05, // total is 5
        0x1A, 0x04, 0x08, 0x01, 0x10, 0x01, // shades[1] is B
        0x20, 0x01, // s is B
        0x20, 0x09, // s is 9, which isn't declared
    ];
    palette.merge_from_slice(alloc, &bytes)?;
    assert!(rt; palette.shades.len() == 1 && palette.unknown_fields.len() == 2);
    assert!(rt; palette.s == Some(Shade::B));
    let again: [u8; 18] = [
        0x08, 0x05, 0x1A, 0x04, 0x08, 0x01, 0x10, 0x01, 0x20, 0x01, // what is declared
        0x1A, 0x04, 0x08, 0x02, 0x10, 0x07, 0x20, 0x09, // what isn't, behind it
    ];
    let encoding = palette.try_encode_to_vec(alloc)?;
    assert!(rt; encoding.as_slice() == again.as_slice());
    Ok(())
}

#[test]
fn of_lists_each_number_is_passed_on(rt: HostRuntime) -> Result<(), Fail> {
    let alloc = rt.alloc();
    let mut palette: Palette = Blank::blank(alloc);
    let bytes: [u8; 21] = [
        0x28, 0x01, 0x28, 0x07, 0x28, 0x00, // list: B; 7, which isn't declared; A
        0x2A, 0x03, 0x01, 0x08, 0x00, // packed: B; 8, which isn't; A
        0x32, 0x04, 0x01, 0x07, 0x00, 0x09, // the packed one: B; 7, which isn't; A; 9, which isn't
        0x30, 0x05, 0x30, 0x01, // not packed: 5, which isn't; B
    ];
    palette.merge_from_slice(alloc, &bytes)?;
    assert!(rt; palette.list.as_slice() == [Shade::B, Shade::A, Shade::B, Shade::A].as_slice());
    assert!(rt; palette.packed.as_slice() == [Shade::B, Shade::A, Shade::B].as_slice());
    let again: [u8; 23] = [
        0x28, 0x01, 0x28, 0x00, 0x28, 0x01, 0x28, 0x00, // each in a field of its own
        0x32, 0x03, 0x01, 0x00, 0x01, // packed
        0x28, 0x07, 0x28, 0x08, 0x30, 0x07, 0x30, 0x09, 0x30, 0x05, // each of the others
    ];
    let encoding = palette.try_encode_to_vec(alloc)?;
    assert!(rt; encoding.as_slice() == again.as_slice());
    Ok(())
}

#[test]
fn of_maps_and_messages_each_is_passed_on(rt: HostRuntime) -> Result<(), Fail> {
    let alloc = rt.alloc();
    let mut palette: Palette = Blank::blank(alloc);
    let bytes: [u8; 34] = [
        0x3A, 0x04, 0x08, 0x03, 0x10, 0x01, // ordered[3] is B
        0x3A, 0x04, 0x08, 0x01, 0x10, 0x06, // ordered[1] is 6, which isn't declared
        0x3A, 0x04, 0x08, 0x02, 0x10, 0x01, // ordered[2] is B
        0x42, 0x06, 0x08, 0x04, 0x08, 0x01, 0x10, 0x03, // swatch: 4, which isn't; B; 3, which isn't
        0x4B, 0x10, 0x02, 0x08, 0x01, 0x10, 0x01, 0x4C, // patch: 2, which isn't; B; others: B
    ];
    palette.merge_from_slice(alloc, &bytes)?;
    let again: [u8; 34] = [
        0x3A, 0x04, 0x08, 0x02, 0x10, 0x01, 0x3A, 0x04, 0x08, 0x03, 0x10, 0x01, // by the keys
        0x42, 0x06, 0x08, 0x01, 0x08, 0x04, 0x10, 0x03, // in the message, behind its own
        0x4B, 0x08, 0x01, 0x10, 0x01, 0x10, 0x02, 0x4C, // in the group, behind its own
        0x3A, 0x04, 0x08, 0x01, 0x10, 0x06, // behind all
    ];
    let encoding = palette.try_encode_to_vec(alloc)?;
    assert!(rt; encoding.as_slice() == again.as_slice());
    Ok(())
}

#[test]
fn each_costs_an_unknown_field(rt: HostRuntime) -> Result<(), Fail> {
    let alloc = rt.alloc();
    let mut palette: Palette = Blank::blank(alloc);
    let bytes: &[u8] = &[0x32, 0x04, 0x01, 0x07, 0x00, 0x09]; // B; 7 and 9, which aren't declared; A
    let mut few = Budget::new(1);
    let mut rest = bytes;
    let refused = palette.merge(
        alloc,
        &mut rest,
        DecodeContext::new(RECURSION_LIMIT, &mut few),
    );
    assert!(rt; refused == Err(DecodeError::UnknownFieldLimitExceeded));
    assert!(rt;
        palette.packed.len() == 0 && palette.unknown_fields.len() == 0 && few.unknown_left() == 1
    );
    let mut enough = Budget::new(3);
    rest = bytes;
    palette.merge(
        alloc,
        &mut rest,
        DecodeContext::new(RECURSION_LIMIT, &mut enough),
    )?;
    assert!(rt; palette.packed.len() == 2 && palette.unknown_fields.len() == 2);
    assert!(rt; enough.unknown_left() == 1);
    Ok(())
}
