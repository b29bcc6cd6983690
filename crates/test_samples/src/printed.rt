//! What `{:?}` prints of messages.

use buffa_fields::{Blank, Decode, DoubleBits};
use sample_measure::measure::Measure;
use sample_measure::unit::Unit;
use sample_payment::method::Method;
use sample_payment::payment::Payment;
use sample_stock::messages::{Order, Place, Stock};
use sample_stock::orders::{add_line, give, send, set_note};
use sample_stock::places::place;
use std::test::Fail;

#[test]
fn members_are_printed_by_their_names(rt: HostRuntime) -> Result<(), Fail> {
    let alloc = rt.alloc();
    let mut order = Order::blank(alloc);
    send(&mut order);
    set_note(alloc, &mut order, "x")?;
    add_line(alloc, &mut order, "a", 2)?;
    give(alloc, &mut order, "b", "c")?;
    let text = format!(in alloc; "{order:?}")?;
    let line = "Line { good: \"a\", count: Some(2), unknown_fields: UnknownFields { fields: [] } }";
    let gift = "Line { good: \"c\", count: None, unknown_fields: UnknownFields { fields: [] } }";
    let wanted = format!(in alloc;
        "Order {{ state: Known(Sent), note: Some(\"x\"), lines: [{line}], gifts: {{\"b\": {gift}}}, unknown_fields: UnknownFields {{ fields: [] }} }}"
    )?;
    assert!(rt; text.as_str() == wanted.as_str());
    Ok(())
}

#[test]
fn a_case_is_printed_by_its_name(rt: HostRuntime) -> Result<(), Fail> {
    let alloc = rt.alloc();
    let mut payment = Payment::blank(alloc);
    payment.method = Some(Method::Cash(-7));
    let text = format!(in alloc; "{payment:?}")?;
    assert!(rt;
        text.as_str()
            == "Payment { amount: 0, method: Some(Cash(-7)), note: \"\", unknown_fields: UnknownFields { fields: [] } }"
    );
    Ok(())
}

#[test]
fn what_is_not_declared_is_printed_by_number(rt: HostRuntime) -> Result<(), Fail> {
    let alloc = rt.alloc();
    let stock = Stock::decode_from_slice(alloc, &[0x38, 0x96, 0x01, 0x4A, 0x01, 0x78])?;
    let text = format!(in alloc; "{stock:?}")?;
    let first = "UnknownField { number: 7, payload: Varint(150) }";
    let second = "UnknownField { number: 9, payload: LengthDelimited([120]) }";
    let wanted = format!(in alloc;
        "Stock {{ name: \"\", counts: {{}}, unknown_fields: UnknownFields {{ fields: [{first}, {second}] }} }}"
    )?;
    assert!(rt; text.as_str() == wanted.as_str());
    Ok(())
}

#[test]
fn a_message_that_holds_itself_is_printed(rt: HostRuntime) -> Result<(), Fail> {
    let alloc = rt.alloc();
    let mut house = place(alloc, "house")?;
    house.places.push(place(alloc, "roof")?)?;
    let text = format!(in alloc; "{house:?}")?;
    let roof = "Place { name: \"roof\", places: [], unknown_fields: UnknownFields { fields: [] } }";
    let wanted = format!(in alloc;
        "Place {{ name: \"house\", places: [{roof}], unknown_fields: UnknownFields {{ fields: [] }} }}"
    )?;
    assert!(rt; text.as_str() == wanted.as_str());
    Ok(())
}

#[test]
fn a_real_number_is_printed_by_its_bits(rt: HostRuntime) -> Result<(), Fail> {
    let alloc = rt.alloc();
    let mut measure = Measure::blank(alloc);
    measure.value = Some(DoubleBits::new(0.5));
    measure.unit = Some(Unit::Knot);
    let text = format!(in alloc; "{measure:?}")?;
    assert!(rt;
        text.as_str().starts_with(
            "Measure { station: None, value: Some(DoubleBits { bits: 4602678819172646912 }), unit: Some(Knot), gusts: [], "
        )
    );
    Ok(())
}
