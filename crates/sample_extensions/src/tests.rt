//! What is set is read, and what isn't there is its default. The bytes are worked out by hand.

use crate::delivery::{insure, insured_for, is_tried_again, set_tries};
use crate::messages::extensions::{depots, handling_or_default, note, note_or_default, tries};
use crate::messages::{Customs, Handling, Papers, Shipment};
use crate::paperwork::{declare, declared_goods, packed, unpacked, withdraw};
use buffa_ext::ExtensionSet;
use buffa_fields::{Blank, Decode, EnumValue, Message};
use buffa_types::Any;
use std::test::Fail;

#[test]
fn a_number_is_set_and_read(rt: HostRuntime) -> Result<(), Fail> {
    let alloc = rt.alloc();
    let mut shipment = Shipment::blank(alloc);
    assert!(rt; is_tried_again(alloc, &shipment, 2)? && !is_tried_again(alloc, &shipment, 3)?);
    set_tries(alloc, &mut shipment, 1)?;
    assert!(rt; !is_tried_again(alloc, &shipment, 2)?);
    assert!(rt; shipment.try_encode_to_vec(alloc)?.as_slice() == [0xA0, 0x06, 0x01].as_slice()); // 100: 1
    shipment.clear_extension(&tries());
    assert!(rt; is_tried_again(alloc, &shipment, 2)?);
    Ok(())
}

#[test]
fn defaults_are_those_that_are_declared(rt: HostRuntime) -> Result<(), Fail> {
    let alloc = rt.alloc();
    let mut shipment = Shipment::blank(alloc);
    assert!(rt; note_or_default(alloc, &shipment)?.as_str() == "ring the bell");
    assert!(rt; handling_or_default(alloc, &shipment)? == EnumValue::Known(Handling::Fragile));
    shipment.set_extension(alloc, &note(), String::from_str(alloc, "knock")?)?;
    assert!(rt; note_or_default(alloc, &shipment)?.as_str() == "knock");
    let read = Shipment::decode_from_slice(alloc, &[0xC0, 0x06, 0x00])?; // 104: 0
    assert!(rt; handling_or_default(alloc, &read)? == EnumValue::Known(Handling::Plain));
    Ok(())
}

#[test]
fn a_list_is_packed(rt: HostRuntime) -> Result<(), Fail> {
    let alloc = rt.alloc();
    let mut shipment = Shipment::blank(alloc);
    shipment.set_extension(alloc, &depots(), vec![in alloc; 4, 300]?)?;
    let bytes = shipment.try_encode_to_vec(alloc)?;
    assert!(rt; bytes.as_slice() == [0xB2, 0x06, 0x03, 0x04, 0xAC, 0x02].as_slice()); // 102: 4, 300
    let read = Shipment::decode_from_slice(alloc, bytes.as_slice())?;
    assert!(rt; read.extension(alloc, &depots())?.as_slice() == [4, 300].as_slice());
    Ok(())
}

#[test]
fn a_message_is_set_and_read(rt: HostRuntime) -> Result<(), Fail> {
    let alloc = rt.alloc();
    let mut shipment = Shipment::blank(alloc);
    assert!(rt; insured_for(alloc, &shipment)? == None);
    insure(alloc, &mut shipment, 500)?;
    assert!(rt; insured_for(alloc, &shipment)? == Some(500));
    let malformed = Shipment::decode_from_slice(alloc, &[0xB8, 0x06, 0x01])?; // 103: 1
    assert!(rt; insured_for(alloc, &malformed).is_err());
    Ok(())
}

#[test]
fn a_paper_is_an_item(rt: HostRuntime) -> Result<(), Fail> {
    let alloc = rt.alloc();
    let mut papers = Papers::blank(alloc);
    let mut customs = Customs::blank(alloc);
    customs.goods = Some(String::from_str(alloc, "tea")?);
    declare(alloc, &mut papers, customs)?;
    let item = [
        0x0B, 0x10, 0xE8, 0x07, 0x1A, 0x05, 0x0A, 0x03, b't', b'e', b'a', 0x0C,
    ]; // 1000: 1 is "tea"
    assert!(rt; papers.try_encode_to_vec(alloc)?.as_slice() == item.as_slice());
    match declared_goods(alloc, &item)? {
        Some(goods) => assert!(rt; goods.as_str() == "tea"),
        None => assert!(rt; false),
    }
    withdraw(&mut papers);
    assert!(rt; papers.try_encode_to_vec(alloc)?.is_empty());
    Ok(())
}

#[test]
fn other_papers_stay(rt: HostRuntime) -> Result<(), Fail> {
    let alloc = rt.alloc();
    // An Item of type id 5, and the field 7, which is no Item.
    let others = [0x0B, 0x1A, 0x01, 0x00, 0x10, 0x05, 0x0C, 0x38, 0x01];
    assert!(rt; declared_goods(alloc, &others)?.is_none());
    let mut papers = Papers::decode_from_slice(alloc, &others)?;
    declare(alloc, &mut papers, Customs::blank(alloc))?;
    withdraw(&mut papers);
    let written = [0x0B, 0x10, 0x05, 0x1A, 0x01, 0x00, 0x0C, 0x38, 0x01]; // the type id stands first
    assert!(rt; papers.try_encode_to_vec(alloc)?.as_slice() == written.as_slice());
    assert!(rt; declared_goods(alloc, &[0x0B, 0x1A, 0x00, 0x0C]).is_err()); // no type id
    assert!(rt; declared_goods(alloc, &[0x0B, 0x10, 0xE8, 0x07, 0x1A, 0x01, 0x0A, 0x0C]).is_err()); // cut short
    Ok(())
}

#[test]
fn a_paper_is_packed_under_its_name(rt: HostRuntime) -> Result<(), Fail> {
    let alloc = rt.alloc();
    let mut customs = Customs::blank(alloc);
    customs.goods = Some(String::from_str(alloc, "tea")?);
    let any = packed(alloc, &customs)?;
    assert!(rt; any.type_url.as_str() == "type.googleapis.com/buffa.sample.Customs");
    assert!(rt; unpacked(alloc, &any)?.is_some_and(|it| it.goods() == "tea"));
    let other = Any::pack(alloc, &Papers::blank(alloc))?;
    assert!(rt; unpacked(alloc, &other)?.is_none());
    Ok(())
}
