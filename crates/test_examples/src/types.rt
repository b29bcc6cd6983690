//! The well-known types. What Google's protobuf writes and says of them is what its Python answered.

ghost use Rattle.std.specs.Prelude.{◌↔◌, ◌<ℤ◌, IsTrue};
ghost use Rattle.buffa_types.specs.Times.{nanoseconds};

use buffa_fields::{Decode, DecodeError, DoubleBits, FloatBits, Message, UnknownFields};
use buffa_types::{
    Any, BoolValue, BytesValue, DoubleValue, Duration, FloatValue, Int32Value, Int64Value,
    NamedMessage, StringValue, Timestamp, UInt32Value, UInt64Value,
};
use std::alloc::Global;
use std::test::Fail;

// An `Any` with a `Duration` of -1.5 seconds, as Google's protobuf writes it.
const PACKED: &[u8] =
    b"\x0A\x2Ctype.googleapis.com/google.protobuf.Duration\x12\x16\x08\xFF\xFF\xFF\xFF\xFF\xFF\xFF\xFF\xFF\x01\x10\x80\xB6\xCA\x91\xFE\xFF\xFF\xFF\xFF\x01";

// Whether a point in time is before another one.
fn is_before(first: &Timestamp, second: &Timestamp) -> bool
    ensures { IsTrue result ↔ (nanoseconds first.now.seconds first.now.nanos <ℤ nanoseconds second.now.seconds second.now.nanos) }
{
    first.as_nanosecond() < second.as_nanosecond()
}

// When a delay is over that begins at a point in time: none where one of them is out of range, or the end is.
fn end_of(alloc: Global, begin: &Timestamp, delay: &Duration) -> Option<Timestamp> {
    if !begin.is_valid() || !delay.is_valid() {
        return None;
    }
    Timestamp::from_nanosecond(alloc, begin.as_nanosecond() + delay.as_nanos())
}

// The nanoseconds of the `Duration` in an `Any`: none where it holds another type.
fn delay_in(alloc: Global, packed: &Any) -> Result<Option<i128>, DecodeError> {
    let delay = packed.unpack::<Duration>(alloc)?;
    Ok(delay.map(|it| it.as_nanos()))
}

#[test]
fn points_in_time_are_made_in_their_range(rt: HostRuntime) -> Result<(), Fail> {
    let alloc = rt.alloc();
    let made = Timestamp::new(alloc, -1, 500_000_000);
    assert!(rt; made.is_some_and(|it| it.as_nanosecond() == -500_000_000));
    let made = Timestamp::from_nanosecond(alloc, -500_000_000);
    assert!(rt; made.is_some_and(|it| it.seconds == -1 && it.nanos == 500_000_000));
    assert!(rt; Timestamp::new(alloc, -62_135_596_800, 0).is_some());
    assert!(rt; Timestamp::new(alloc, -62_135_596_801, 999_999_999).is_none());
    assert!(rt; Timestamp::new(alloc, 253_402_300_799, 999_999_999).is_some());
    assert!(rt; Timestamp::new(alloc, 253_402_300_800, 0).is_none());
    assert!(rt; Timestamp::new(alloc, 0, -1).is_none());
    assert!(rt; Timestamp::new(alloc, 0, 1_000_000_000).is_none());
    assert!(rt; Timestamp::from_nanosecond(alloc, -62_135_596_800_000_000_001).is_none());
    assert!(rt; Timestamp::from_nanosecond(alloc, 253_402_300_800_000_000_000).is_none());
    Ok(())
}

#[test]
fn lengths_of_time_are_made_in_their_range(rt: HostRuntime) -> Result<(), Fail> {
    let alloc = rt.alloc();
    let made = Duration::new(alloc, -1, -500_000_000);
    assert!(rt; made.is_some_and(|it| it.as_nanos() == -1_500_000_000));
    let made = Duration::from_nanos(alloc, -1_500_000_000);
    assert!(rt; made.is_some_and(|it| it.seconds == -1 && it.nanos == -500_000_000));
    assert!(rt; Duration::new(alloc, 315_576_000_000, 999_999_999).is_some());
    assert!(rt; Duration::new(alloc, 315_576_000_001, 0).is_none());
    assert!(rt; Duration::new(alloc, 0, -1).is_some());
    assert!(rt; Duration::new(alloc, 1, -1).is_none());
    assert!(rt; Duration::new(alloc, -1, 1).is_none());
    assert!(rt; Duration::new(alloc, 0, -1_000_000_000).is_none());
    assert!(rt; Duration::from_nanos(alloc, 315_576_000_001_000_000_000).is_none());
    Ok(())
}

#[test]
fn what_was_read_may_be_out_of_range(rt: HostRuntime) -> Result<(), Fail> {
    let alloc = rt.alloc();
    let placed = Timestamp::decode_from_slice(alloc, b"\x08\x01\x10\x80\x94\xEB\xDC\x03")?;
    let is_valid = placed.is_valid();
    let nanoseconds = placed.as_nanosecond();
    assert!(rt; !is_valid && nanoseconds == 2_000_000_000);
    let delay = Duration::decode_from_slice(
        alloc,
        b"\x08\x01\x10\xFF\xFF\xFF\xFF\xFF\xFF\xFF\xFF\xFF\x01",
    )?;
    let is_valid = delay.is_valid();
    let nanoseconds = delay.as_nanos();
    assert!(rt; !is_valid && nanoseconds == 999_999_999);
    assert!(rt; end_of(alloc, &placed, &delay).is_none());
    Ok(())
}

#[test]
fn a_delay_is_over_in_time(rt: HostRuntime) -> Result<(), Fail> {
    let alloc = rt.alloc();
    let begin = Timestamp::decode_from_slice(alloc, b"\x08\x80\x94\xEB\xDC\x03")?;
    let delay = Duration::decode_from_slice(alloc, b"\x10\x01")?;
    let end = end_of(alloc, &begin, &delay);
    assert!(rt;
        end.as_ref()
            .is_some_and(|it| is_before(&begin, it) && !is_before(it, &begin))
    );
    assert!(rt; end.is_some_and(|it| it.seconds == 1_000_000_000 && it.nanos == 1));
    Ok(())
}

#[test]
fn what_is_packed_is_unpacked(rt: HostRuntime) -> Result<(), Fail> {
    let alloc = rt.alloc();
    let Some(delay) = Duration::new(alloc, -1, -500_000_000) else {
        return Err(Fail::new("it is in range"));
    };
    let packed = Any::pack(alloc, &delay)?;
    assert!(rt; packed.try_encode_to_vec(alloc)?.as_slice() == PACKED);
    assert!(rt; packed.is::<Duration>() && !packed.is::<Timestamp>());
    assert!(rt; delay_in(alloc, &packed)? == Some(-1_500_000_000));
    assert!(rt; packed.unpack::<Timestamp>(alloc)?.is_none());
    let named = Any::pack_as(alloc, Duration::FULL_NAME, &delay)?;
    assert!(rt; named == packed);
    assert!(rt;
        packed.is_named("google.protobuf.Duration") && !packed.is_named("protobuf.Duration")
    );
    let unpacked = packed.unpack_as::<Duration>(alloc, Duration::FULL_NAME)?;
    assert!(rt; unpacked.is_some_and(|it| it.seconds == -1));
    Ok(())
}

#[test]
fn a_type_has_its_full_name(rt: HostRuntime) -> Result<(), Fail> {
    let name = Duration::full_name();
    assert!(rt; name == "google.protobuf.Duration");
    assert!(rt; <UInt64Value as NamedMessage>::full_name() == "google.protobuf.UInt64Value");
    Ok(())
}

// Whether an `Any` with this URL holds a `Duration`.
fn names_duration(alloc: Global, url: &str) -> Result<bool, Fail> {
    let any = Any {
        type_url: String::from_str(alloc, url)?,
        value: Vec::new(alloc),
        unknown_fields: UnknownFields::new(alloc),
    };
    Ok(any.is::<Duration>())
}

#[test]
fn a_type_stands_behind_the_last_slash(rt: HostRuntime) -> Result<(), Fail> {
    let alloc = rt.alloc();
    assert!(rt; names_duration(alloc, "a/b/google.protobuf.Duration")?);
    assert!(rt; names_duration(alloc, "/google.protobuf.Duration")?);
    assert!(rt; !names_duration(alloc, "google.protobuf.Duration")?);
    assert!(rt; !names_duration(alloc, "x.google.protobuf.Duration")?);
    assert!(rt; !names_duration(alloc, "x/google.protobuf.Duration/")?);
    Ok(())
}

#[test]
fn a_wrapper_has_a_value(rt: HostRuntime) -> Result<(), Fail> {
    let alloc = rt.alloc();
    assert!(rt; BoolValue::new(alloc, true).value);
    assert!(rt; DoubleValue::new(alloc, DoubleBits::new(0.5)).value.number() == 0.5);
    assert!(rt; FloatValue::new(alloc, FloatBits::new(0.5)).value.number() == 0.5);
    assert!(rt; Int32Value::new(alloc, -5).value == -5);
    assert!(rt; Int64Value::new(alloc, -5).value == -5);
    assert!(rt; UInt32Value::new(alloc, 5).value == 5);
    assert!(rt; UInt64Value::new(alloc, 5).value == 5);
    let text = String::from_str(alloc, "pear")?;
    assert!(rt; StringValue::new(alloc, text).value.as_str() == "pear");
    let mut bytes = Vec::new(alloc);
    bytes.push(5)?;
    assert!(rt; BytesValue::new(alloc, bytes).value.len() == 1);
    Ok(())
}
