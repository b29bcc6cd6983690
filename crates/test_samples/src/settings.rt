//! Settings in settings. The bytes are worked out by hand, from the protobuf encoding guide.

use buffa_wire::{Blank, Budget, DecodeContext, DecodeError, Message, SizeCache};
use sample_recursive::settings::Settings;
use std::string::String;
use std::test::Fail;

#[test]
fn sections_are_passed_on(rt: HostRuntime) -> Result<(), Fail> {
    let alloc = rt.alloc();
    let mut settings: Settings = Blank::blank(alloc);
    let bytes: [u8; 34] = [
        0x18, 0x50, // a port
        0x12, 0x0A, 0x0A, 0x01, 0x62, // the section "b",
        0x12, 0x05, 0x0A, 0x01, 0x78, 0x18, 0x07, // whose value is "x", with a port
        0x12, 0x0C, 0x0A, 0x02, 0x61, 0x61, // the section "aa",
        0x12, 0x06, 0x12, 0x04, 0x0A, 0x00, 0x12, 0x00, // in which the section "" is empty
        0x0A, 0x02, 0x76, 0x77, // the value is "vw"
        0x20, 0x07, // field 4 isn't declared
    ];
    settings.merge_from_slice(alloc, &bytes)?;
    assert!(rt;
        settings.sections.len() == 2
            && settings.ports.len() == 1
            && settings.unknown_fields.len() == 1
    );
    assert!(rt; settings.value.as_str() == "vw");
    let again: [u8; 34] = [
        0x0A, 0x02, 0x76, 0x77, // the value,
        0x12, 0x0C, 0x0A, 0x02, 0x61, 0x61, // the sections, in the order of their keys' bytes,
        0x12, 0x06, 0x12, 0x04, 0x0A, 0x00, 0x12, 0x00, //
        0x12, 0x0A, 0x0A, 0x01, 0x62, //
        0x12, 0x05, 0x0A, 0x01, 0x78, 0x18, 0x07, //
        0x18, 0x50, // the port,
        0x20, 0x07, // and what isn't declared
    ];
    let encoding = settings.try_encode_to_vec(alloc)?;
    assert!(rt; encoding.as_slice() == again.as_slice());
    let mut cache = SizeCache::new(alloc);
    assert!(rt; settings.compute_size(&mut cache)? == 34);
    Ok(())
}

#[test]
fn a_second_section_takes_the_place_of_the_first(rt: HostRuntime) -> Result<(), Fail> {
    let alloc = rt.alloc();
    let mut settings: Settings = Blank::blank(alloc);
    let bytes: [u8; 19] = [
        0x12, 0x08, 0x0A, 0x01, 0x61, 0x12, 0x03, 0x0A, 0x01, 0x78, // "a" has the value "x",
        0x12, 0x07, 0x0A, 0x01, 0x61, 0x12, 0x02, 0x18, 0x05, // and then a port, and no value
    ];
    settings.merge_from_slice(alloc, &bytes)?;
    let again: [u8; 9] = [0x12, 0x07, 0x0A, 0x01, 0x61, 0x12, 0x02, 0x18, 0x05];
    let encoding = settings.try_encode_to_vec(alloc)?;
    assert!(rt; encoding.as_slice() == again.as_slice());
    Ok(())
}

#[test]
fn a_section_too_deep_is_refused(rt: HostRuntime) -> Result<(), Fail> {
    let alloc = rt.alloc();
    let mut settings: Settings = Blank::blank(alloc);
    let bytes: [u8; 14] = [
        0x12, 0x0C, 0x0A, 0x01, 0x61, // the section "a",
        0x12, 0x07, 0x12, 0x05, 0x0A, 0x01, 0x62, 0x12, 0x00, // in which the section "b" is empty
    ];
    let mut budget = Budget::new(10);
    let mut buf: &[u8] = &bytes;
    let answer = settings.merge(alloc, &mut buf, DecodeContext::new(1, &mut budget));
    assert!(rt; answer == Err(DecodeError::RecursionLimitExceeded));
    assert!(rt; settings.sections.len() == 0);
    Ok(())
}

#[test]
fn a_section_whose_name_is_no_text_is_refused(rt: HostRuntime) -> Result<(), Fail> {
    let alloc = rt.alloc();
    let mut settings: Settings = Blank::blank(alloc);
    let answer = settings.merge_from_slice(alloc, &[0x12, 0x05, 0x0A, 0x01, 0xFF, 0x12, 0x00]);
    assert!(rt; answer == Err(DecodeError::InvalidUtf8));
    assert!(rt; settings.sections.len() == 0);
    Ok(())
}

#[test]
fn a_section_is_put_into_settings(rt: HostRuntime) -> Result<(), Fail> {
    let alloc = rt.alloc();
    let mut outer = Settings::blank(alloc);
    let mut section = Settings::blank(alloc);
    section.value = String::from_str(alloc, "x")?;
    outer
        .sections
        .insert(String::from_str(alloc, "a")?, section)?;
    let bytes: [u8; 10] = [
        0x12, 0x08, 0x0A, 0x01, 0x61, 0x12, 0x03, 0x0A, 0x01, 0x78, // the section "a" has the value "x"
    ];
    let encoding = outer.try_encode_to_vec(alloc)?;
    assert!(rt; encoding.as_slice() == bytes.as_slice());
    Ok(())
}
