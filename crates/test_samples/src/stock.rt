//! Each task, run. The bytes are worked out by hand, from the protobuf encoding guide.

use buffa_map::map_codec::MapStorage;
use buffa_wire::{Blank, DecodeError, Message};
use sample_stock::counts::{announced, counts_of, encoding_of, number_at};
use sample_stock::limits::stock_within_limits;
use sample_stock::messages::{Order, Place, Stock};
use sample_stock::orders::{
    add_line, gift_of, gifts_of_kind, give, is_sent, lines_without_count, note, send, set_note,
    state_name,
};
use sample_stock::places::{count, outline, place};
use sample_stock::proxy::{drop_nine, has_unknown};
use sample_stock::sets::{set_of_stock, stock_in_set};
use std::collections::BTreeMap;
use std::test::Fail;

// The name a, the count 1 of b, and field 7, which isn't declared.
const BYTES: [u8; 13] = [
    0x0a, 0x01, 0x61, 0x2a, 0x05, 0x0a, 0x01, 0x62, 0x10, 0x01, 0x38, 0x96, 0x01,
];

#[test]
fn a_field_is_announced_and_written(rt: HostRuntime) -> Result<(), Fail> {
    let alloc = rt.alloc();
    let mut counts: BTreeMap<String, i32> = BTreeMap::new(alloc);
    counts.storage_insert(String::from_str(alloc, "a")?, 1)?;
    let bytes = encoding_of(alloc, &counts)?;
    let size = announced(&counts);
    assert!(rt; size == 7 && bytes.len() == 7);
    let mut rest = bytes.as_slice();
    let number = number_at(&mut rest)?;
    assert!(rt; number == 42);
    let read = counts_of(alloc, bytes.as_slice())?;
    assert!(rt; read.get("a") == Some(&1));
    Ok(())
}

#[test]
fn a_stock_is_read_and_written_under_its_numbers(rt: HostRuntime) -> Result<(), Fail> {
    let alloc = rt.alloc();
    let mut stock = Stock::blank(alloc);
    stock.merge_from_slice(alloc, &BYTES)?;
    assert!(rt; stock.name.as_str() == "a" && stock.counts.storage_len() == 1);
    let written = stock.try_encode_to_vec(alloc)?;
    assert!(rt; written.as_slice() == &BYTES[..]);
    Ok(())
}

#[test]
fn an_order_has_its_members(rt: HostRuntime) -> Result<(), Fail> {
    let alloc = rt.alloc();
    let mut order = Order::blank(alloc);
    assert!(rt; !is_sent(&order) && note(&order).is_none());
    assert!(rt; state_name(&order) == Some("OPEN"));
    send(&mut order);
    set_note(alloc, &mut order, "x")?;
    add_line(alloc, &mut order, "a", 2)?;
    give(alloc, &mut order, "b", "c")?;
    let encoding = order.try_encode_to_vec(alloc)?;
    let wanted: [u8; 20] = [
        0x08, 0x01, // state is SENT
        0x12, 0x01, 0x78, // note is "x"
        0x1a, 0x05, 0x0a, 0x01, 0x61, 0x10, 0x02, // 2 of "a"
        0x22, 0x08, 0x0a, 0x01, 0x62, 0x12, 0x03, 0x0a, // for "b" a gift,
    ];
    assert!(rt; encoding.len() == 22 && encoding.as_slice().starts_with(&wanted));
    let mut again = Order::blank(alloc);
    again.merge_from_slice(alloc, encoding.as_slice())?;
    assert!(rt; is_sent(&again) && note(&again) == Some("x"));
    assert!(rt; lines_without_count(&again) == 0);
    assert!(rt; gift_of(&again, "b") == Some("c") && gifts_of_kind(&again, "c") == 1);
    Ok(())
}

#[test]
fn a_stock_is_read_within_limits(rt: HostRuntime) -> Result<(), Fail> {
    let stock = stock_within_limits(rt.alloc(), &BYTES)?;
    assert!(rt; stock.unknown_fields.len() == 1);
    Ok(())
}

#[test]
fn unknown_fields_are_looked_at(rt: HostRuntime) -> Result<(), Fail> {
    let alloc = rt.alloc();
    let mut stock = stock_within_limits(alloc, &[0x0A, 0x01, 0x78, 0x48, 0x05, 0x40, 0x01])?;
    assert!(rt; has_unknown(&stock, 9));
    drop_nine(&mut stock);
    assert!(rt; !has_unknown(&stock, 9) && stock.unknown_fields.len() == 1);
    Ok(())
}

#[test]
fn places_are_gone_through(rt: HostRuntime) -> Result<(), Fail> {
    let alloc = rt.alloc();
    let mut house = place(alloc, "house")?;
    let mut cellar = place(alloc, "cellar")?;
    cellar.places.push(place(alloc, "shelf")?)?;
    house.places.push(cellar)?;
    house.places.push(place(alloc, "roof")?)?;
    let encoding = house.try_encode_to_vec(alloc)?;
    let mut read = Place::blank(alloc);
    read.merge_from_slice(alloc, encoding.as_slice())?;
    assert!(rt; count(&read) == 4);
    let text = outline(alloc, &read, "")?;
    assert!(rt; text.as_str() == "house\n  cellar\n    shelf\n  roof\n");
    Ok(())
}

#[test]
fn an_item_is_a_stock(rt: HostRuntime) -> Result<(), Fail> {
    let alloc = rt.alloc();
    let mut stock = Stock::blank(alloc);
    stock.name = String::from_str(alloc, "a")?;
    let encoding = set_of_stock(alloc, stock)?;
    let wanted: [u8; 10] = [0x0b, 0x10, 0xe8, 0x07, 0x1a, 0x03, 0x0a, 0x01, 0x61, 0x0c];
    assert!(rt; encoding.as_slice() == wanted.as_slice());
    match stock_in_set(alloc, &wanted)? {
        Some(read) => assert!(rt; read.name.as_str() == "a"),
        None => assert!(rt; false),
    }
    let malformed = stock_in_set(alloc, &[0x0b, 0x10, 0xe8, 0x07, 0x1a, 0x01, 0x0a, 0x0c]);
    assert!(rt; malformed.err() == Some(DecodeError::UnexpectedEof));
    Ok(())
}
