//! Payments. The bytes are worked out by hand, from the protobuf encoding guide.

use buffa_wire::{Blank, DecodeError, Message, SizeCache};
use sample_payment::method::Method;
use sample_payment::pay::is_same;
use sample_payment::payment::Payment;
use sample_stock::again::again;
use std::string::String;
use std::test::Fail;

#[test]
fn a_case_is_written_at_its_place(rt: HostRuntime) -> Result<(), Fail> {
    let alloc = rt.alloc();
    let mut payment = Payment::blank(alloc);
    let bytes: [u8; 12] = [
        0x2A, 0x01, 0x6E, // the note "n"
        0x18, 0x00, // cash, none
        0x30, 0x07, // field 6 isn't declared
        0x12, 0x01, 0x63, // the card "c"
        0x08, 0x05, // the amount
    ];
    payment.merge_from_slice(alloc, &bytes)?;
    let again: [u8; 10] = [
        0x08, 0x05, // the amount,
        0x12, 0x01, 0x63, // the card, which was read last,
        0x2A, 0x01, 0x6E, // the note,
        0x30, 0x07, // and what isn't declared
    ];
    let encoding = payment.try_encode_to_vec(alloc)?;
    assert!(rt; encoding.as_slice() == again.as_slice());
    let mut cache = SizeCache::new(alloc);
    assert!(rt; payment.compute_size(&mut cache)? == 10);
    Ok(())
}

#[test]
fn a_default_value_is_written(rt: HostRuntime) -> Result<(), Fail> {
    let alloc = rt.alloc();
    let mut payment = Payment::blank(alloc);
    payment.method = Some(Method::Cash(0));
    let encoding = payment.try_encode_to_vec(alloc)?;
    assert!(rt; encoding.as_slice() == [0x18, 0x00].as_slice());
    payment.method = Some(Method::Card(String::new(alloc)));
    let encoding = payment.try_encode_to_vec(alloc)?;
    assert!(rt; encoding.as_slice() == [0x12, 0x00].as_slice());
    Ok(())
}

#[test]
fn a_message_is_merged_into_its_own_case(rt: HostRuntime) -> Result<(), Fail> {
    let alloc = rt.alloc();
    let mut payment = Payment::blank(alloc);
    let bytes: [u8; 11] = [
        0x18, 0x03, // cash
        0x22, 0x03, 0x0A, 0x01, 0x61, // a transfer to "a",
        0x22, 0x02, 0x10, 0x09, // on day 9
    ];
    payment.merge_from_slice(alloc, &bytes)?;
    let again: [u8; 7] = [0x22, 0x05, 0x0A, 0x01, 0x61, 0x10, 0x09];
    let encoding = payment.try_encode_to_vec(alloc)?;
    assert!(rt; encoding.as_slice() == again.as_slice());
    Ok(())
}

#[test]
fn a_refused_field_leaves_the_case(rt: HostRuntime) -> Result<(), Fail> {
    let alloc = rt.alloc();
    let mut payment = Payment::blank(alloc);
    payment.method = Some(Method::Cash(3));
    let answer = payment.merge_from_slice(alloc, &[0x12, 0x01, 0xFF]);
    assert!(rt; answer == Err(DecodeError::InvalidUtf8));
    let answer = payment.merge_from_slice(alloc, &[0x22, 0x02, 0x0A, 0x01]);
    assert!(rt; answer.is_err());
    assert!(rt; matches!(&payment.method, Some(Method::Cash(3))));
    Ok(())
}

#[test]
fn payments_are_compared_and_copied(rt: HostRuntime) -> Result<(), Fail> {
    let alloc = rt.alloc();
    let mut payment = Payment::blank(alloc);
    let mut other = Payment::blank(alloc);
    assert!(rt; is_same(&payment, &other));
    payment.method = Some(Method::Cash(0));
    assert!(rt; !is_same(&payment, &other));
    other.method = Some(Method::Cash(0));
    assert!(rt; is_same(&payment, &other));
    payment.merge_from_slice(alloc, &[0x30, 0x07])?;
    assert!(rt; !is_same(&payment, &other));
    other.merge_from_slice(alloc, &[0x30, 0x07])?;
    assert!(rt; is_same(&payment, &other));
    let copy = again(alloc, &payment)?;
    assert!(rt; is_same(&payment, &copy));
    Ok(())
}
