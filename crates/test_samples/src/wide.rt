//! Days are read, sized and written. The bytes were worked out by hand, from the protobuf encoding guide.

use buffa_fields::{Blank, DecodeError, Message, SizeCache};
use sample_wide::day::Day;
use std::test::Fail;

// The station "a", on day 20,000; -0.5 degrees at four; 0.3 mm of rain at nought; a wind of 0.7 m/s at 23; a place; the remark
// "b" at five; and a field of number 100, which isn't declared.
#[test]
fn a_day_comes_back(rt: HostRuntime) -> Result<(), Fail> {
    let alloc = rt.alloc();
    let mut day = Day::blank(alloc);
    let bytes: [u8; 36] = [
        0x0A, 0x01, 0x61, // the station
        0x10, 0xA0, 0x9C, 0x01, // the day
        0x38, 0x09, // the temperature
        0xD8, 0x01, 0x03, // the rain
        0xD0, 0x04, 0x07, // the wind
        0xDA, 0x04, 0x04, 0x08, 0x01, 0x10, 0x02, // the place
        0xE2, 0x04, 0x05, 0x08, 0x05, 0x12, 0x01, 0x62, // the remark
        0xA0, 0x06, 0x96, 0x01, // the field 100
        0x10, 0x00, // a day of nought takes the place of the day before
    ];
    day.merge_from_slice(alloc, &bytes)?;
    assert!(rt; day.station.as_str() == "a");
    assert!(rt; day.number == 0);
    assert!(rt; day.temperature_4 == -5);
    assert!(rt; day.rain_0 == 3);
    assert!(rt; day.wind_23 == 7);
    assert!(rt; day.wind_22 == 0);
    assert!(rt; day.place.is_some());
    assert!(rt; day.remarks.len() == 1);
    assert!(rt; day.unknown_fields.len() == 1);
    let written: [u8; 30] = [
        0x0A, 0x01, 0x61, 0x38, 0x09, 0xD8, 0x01, 0x03, 0xD0, 0x04, 0x07, 0xDA, 0x04, 0x04, 0x08,
        0x01, 0x10, 0x02, 0xE2, 0x04, 0x05, 0x08, 0x05, 0x12, 0x01, 0x62, 0xA0, 0x06, 0x96, 0x01,
    ];
    let encoding = day.try_encode_to_vec(alloc)?;
    assert!(rt; encoding.as_slice() == written.as_slice());
    let mut cache = SizeCache::new(alloc);
    assert!(rt; day.compute_size(&mut cache)? == 30);
    Ok(())
}

// A member of another block that is refused leaves those that were read before it.
#[test]
fn a_refused_member_leaves_the_others(rt: HostRuntime) -> Result<(), Fail> {
    let alloc = rt.alloc();
    let mut day = Day::blank(alloc);
    let answer = day.merge_from_slice(alloc, &[0x38, 0x09, 0xDA, 0x04, 0x04, 0x08]);
    assert!(rt; answer == Err(DecodeError::UnexpectedEof));
    assert!(rt; day.temperature_4 == -5);
    assert!(rt; day.place.is_none());
    Ok(())
}
