//! Names of a `.proto`, as a program asks for them.

use buffa_fields::Blank;
use sample_measure::measure::Measure;
use sample_measure::spot::Spot;
use sample_measure::unit::Unit;
use sample_payment::payment::Payment;
use sample_stock::messages::{Order, Place, State};
use std::string::String;
use std::test::Fail;

#[test]
fn types_have_full_names(rt: HostRuntime) -> Result<(), Fail> {
    assert!(rt; Order::FULL_NAME == "shop.Order");
    assert!(rt; Place::FULL_NAME == "shop.Place");
    assert!(rt; State::FULL_NAME == "shop.State");
    assert!(rt; Payment::FULL_NAME == "buffa.sample.Payment");
    Ok(())
}

#[test]
fn fields_have_names(rt: HostRuntime) -> Result<(), Fail> {
    assert!(rt; Order::field_name(1) == Some("state") && Order::field_name(4) == Some("gifts"));
    assert!(rt; Order::field_name(0).is_none() && Order::field_name(5).is_none());
    assert!(rt; Place::field_name(2) == Some("places"));
    assert!(rt; Payment::field_name(3) == Some("cash") && Payment::field_name(6).is_none());
    Ok(())
}

#[test]
fn values_have_names(rt: HostRuntime) -> Result<(), Fail> {
    assert!(rt; State::Open.proto_name() == "OPEN" && State::Sent.proto_name() == "SENT");
    assert!(rt; State::from_proto_name("SENT") == Some(State::Sent));
    assert!(rt; State::from_proto_name("sent").is_none() && State::from_proto_name("").is_none());
    assert!(rt; Unit::from_proto_name("METRE") == Some(Unit::Metre));
    Ok(())
}

#[test]
fn a_getter_says_what_is_there_or_the_default(rt: HostRuntime) -> Result<(), Fail> {
    let alloc = rt.alloc();
    let mut order = Order::blank(alloc);
    assert!(rt; order.note() == "");
    order.note = Some(String::from_str(alloc, "x")?);
    assert!(rt; order.note() == "x");
    let mut measure = Measure::blank(alloc);
    assert!(rt; measure.station() == "" && measure.value().number() == 0.25);
    measure.unit = Some(Unit::Knot);
    assert!(rt; measure.unit() == Unit::Knot);
    assert!(rt; Spot::blank(alloc).latitude().number() == 0.0);
    Ok(())
}
