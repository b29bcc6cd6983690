//! Measures: what is required, defaults and real numbers. The bytes are worked out by hand, from the protobuf encoding guide.

use buffa_fields::messages::required::Required;
use buffa_wire::{Blank, DoubleBits, FloatBits, Message};
use sample_measure::measure::Measure;
use sample_measure::spot::Spot;
use sample_measure::unit::Unit;
use std::string::String;
use std::test::Fail;

#[test]
fn real_numbers_come_back_bit_for_bit(rt: HostRuntime) -> Result<(), Fail> {
    let alloc = rt.alloc();
    let mut measure = Measure::blank(alloc);
    let bytes: [u8; 51] = [
        0x0A, 0x01, 0x61, // the station "a"
        0x11, 0x00, 0x00, 0x00, 0x00, 0x00, 0x00, 0xE0, 0x3F, // the value, 0.5
        0x22, 0x08, 0x00, 0x00, 0xC0, 0x3F, 0x01, 0x00, 0xA0, 0x7F, // gusts: 1.5, and a NaN of its own bits
        0x29, 0x00, 0x00, 0x00, 0x00, 0x00, 0x00, 0x00, 0x80, // a level, minus nought
        0x32, 0x0B, 0x08, 0x07, 0x11, 0x00, 0x00, 0x00, 0x00, 0x00, 0x00, 0x00, 0x40, // a tide: 2 at 7
        0x3A, 0x05, 0x0D, 0x00, 0x00, 0x80, 0x3F, // a spot of latitude 1
    ];
    measure.merge_from_slice(alloc, &bytes)?;
    assert!(rt; measure.value == Some(DoubleBits::new(0.5)));
    assert!(rt;
        measure.gusts.as_slice()
            == [FloatBits::new(1.5), FloatBits { bits: 0x7FA0_0001 }].as_slice()
    );
    assert!(rt; measure.tides.get(&7).copied() == Some(DoubleBits::new(2.0)));
    let encoding = measure.try_encode_to_vec(alloc)?;
    assert!(rt; encoding.as_slice() == bytes.as_slice());
    Ok(())
}

#[test]
fn a_default_is_what_a_getter_says(rt: HostRuntime) -> Result<(), Fail> {
    let alloc = rt.alloc();
    let mut measure = Measure::blank(alloc);
    assert!(rt; measure.value() == DoubleBits::new(0.25));
    assert!(rt; measure.unit() == Unit::Metre);
    assert!(rt; measure.note() == "calm");
    let mut spot = Spot::blank(alloc);
    assert!(rt; spot.height() == FloatBits::new(-1.5));
    measure.value = Some(DoubleBits::new(0.0));
    measure.note = Some(String::new(alloc));
    spot.height = Some(FloatBits { bits: 7 });
    assert!(rt; measure.value() == DoubleBits::new(0.0));
    assert!(rt; measure.note() == "");
    assert!(rt; spot.height().bits == 7);
    Ok(())
}

#[test]
fn an_undeclared_unit_is_kept_behind(rt: HostRuntime) -> Result<(), Fail> {
    let alloc = rt.alloc();
    let mut measure = Measure::blank(alloc);
    let bytes: [u8; 4] = [
        0x18, 0x01, // knots,
        0x18, 0x09, // and a unit that isn't declared
    ];
    measure.merge_from_slice(alloc, &bytes)?;
    assert!(rt; measure.unit() == Unit::Knot);
    let encoding = measure.try_encode_to_vec(alloc)?;
    assert!(rt; encoding.as_slice() == bytes.as_slice());
    Ok(())
}

#[test]
fn what_is_required_is_asked_for_inside_too(rt: HostRuntime) -> Result<(), Fail> {
    let alloc = rt.alloc();
    let mut measure = Measure::blank(alloc);
    assert!(rt; !measure.is_initialized());
    measure.station = Some(String::new(alloc));
    assert!(rt; measure.is_initialized());
    measure.nearby.push(Spot::blank(alloc))?;
    assert!(rt; !measure.is_initialized());
    let mut spot = Spot::blank(alloc);
    spot.latitude = Some(FloatBits::new(0.0));
    spot.longitude = Some(FloatBits::new(0.0));
    assert!(rt; spot.is_initialized());
    measure.nearby.clear();
    measure.spot = Some(spot);
    assert!(rt; measure.is_initialized());
    Ok(())
}
