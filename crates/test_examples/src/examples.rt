//! Examples of comments, run, but for those on map fields: calls that no other proved
//! function makes in this way.

use buffa_ext::codecs::{
    BytesCodec, EnumCodec, MessageCodec, PackedRepeated, Repeated, StringCodec,
};
use buffa_ext::{Extension, ExtensionCodec, ExtensionSet};
use buffa_fields::messages::merge::merge_fields;
use buffa_fields::messages::message::messages_read_back;
use buffa_map::map_codec::{
    Bool, Double, Fixed32, Fixed64, Float, Int32, Int64, Sfixed32, Sfixed64, Sint64, Uint32, Uint64,
};
use buffa_message_set::message_set::{ITEM_START_TAG, merge_item, write_item};
use buffa_wire::{
    Blank, Budget, DecodeContext, DoubleBits, EnumValue, FloatBits, Message, RECURSION_LIMIT,
    SizeCache, UnknownFields, decode_varint,
};
use sample_inventory::inventory::Inventory;
use sample_node::node::Node;
use sample_node::shade::Shade;
use sample_set_msg::SetMsg;
use sample_types::flat::FlatMsg;
use sample_types::hues::Old;
use std::alloc::Global;
use std::test::Fail;

// The type id 1000, and the bytes of "hello".
const ITEM: [u8; 12] = [
    0x0B, 0x10, 0xE8, 0x07, 0x1A, 0x05, 0x68, 0x65, 0x6C, 0x6C, 0x6F, 0x0C,
];

#[test]
fn an_item_is_written(rt: HostRuntime) -> Result<(), Fail> {
    let mut encoding = Vec::new(rt.alloc());
    write_item(1000, b"hello", &mut encoding)?;
    assert!(rt; encoding.as_slice() == ITEM.as_slice());
    Ok(())
}

// The type id and the payload of an item, behind its start tag.
fn item_of(alloc: Global, bytes: &[u8]) -> Result<(u32, Vec<u8>), Fail> {
    let mut budget = Budget::new(1);
    let ctx = DecodeContext::new(RECURSION_LIMIT, &mut budget);
    let mut rest = bytes;
    let (number, payload) = merge_item(alloc, &mut rest, ctx.descend()?)?;
    Ok((number, payload))
}

#[test]
fn an_item_is_read(rt: HostRuntime) -> Result<(), Fail> {
    let mut rest: &[u8] = &ITEM;
    assert!(rt; decode_varint(&mut rest)? == ITEM_START_TAG);
    let (number, payload) = item_of(rt.alloc(), rest)?;
    assert!(rt; number == 1000);
    assert!(rt; payload.as_slice() == b"hello".as_slice());
    Ok(())
}

#[test]
fn a_message_is_merged_by_its_members(rt: HostRuntime) -> Result<(), Fail> {
    let alloc = rt.alloc();
    let mut message: Inventory = Blank::blank(alloc);
    let mut budget = Budget::new(0);
    let ctx = DecodeContext::new(RECURSION_LIMIT, &mut budget);
    let mut bytes: &[u8] = &[0x08, 0x96, 0x01];
    merge_fields(&mut message, alloc, &mut bytes, ctx)?;
    assert!(rt; message.total == 150);
    messages_read_back(&message);
    Ok(())
}

#[test]
fn a_sample_comes_back(rt: HostRuntime) -> Result<(), Fail> {
    let alloc = rt.alloc();
    let mut node = Node::blank(alloc);
    node.merge_from_slice(alloc, &[0x12, 0x02, 0x08, 0x01])?;
    let encoding = node.try_encode_to_vec(alloc)?;
    let written: &[u8] = &[0x12, 0x04, 0x08, 0x01, 0x12, 0x00];
    assert!(rt; encoding.as_slice() == written);
    Ok(())
}

#[test]
fn a_set_has_an_extension(rt: HostRuntime) -> Result<(), Fail> {
    let alloc = rt.alloc();
    let mut set = SetMsg::blank(alloc);
    set.merge_from_slice(alloc, &[0x0B, 0x10, 0x05, 0x1A, 0x01, 0x78, 0x0C])?;
    let text = set.extension(
        alloc,
        &Extension::<StringCodec>::new(5, "buffa.sample.SetMsg"),
    )?;
    assert!(rt; text.is_some());
    Ok(())
}

// The node that the bytes are, at the last level but one.
fn node_of(alloc: Global, bytes: &[u8]) -> Result<Node, Fail> {
    let mut node: Node = Blank::blank(alloc);
    let mut budget = Budget::new(2);
    let mut bytes = bytes;
    node.merge(alloc, &mut bytes, DecodeContext::new(1, &mut budget))?;
    Ok(node)
}

// The size that is announced of a node.
fn size_of(alloc: Global, node: &Node) -> Result<u32, Fail> {
    let mut cache = SizeCache::new(alloc);
    let size = node.compute_size(&mut cache)?;
    Ok(size)
}

#[test]
fn a_node_has_a_shade(rt: HostRuntime) -> Result<(), Fail> {
    let node = node_of(rt.alloc(), &[0x1A, 0x04, 0x08, 0x02, 0x10, 0x01])?;
    let is_b = node.shades.get(&2) == Some(&Shade::B);
    assert!(rt; is_b);
    let size = size_of(rt.alloc(), &node)?;
    assert!(rt; size == 6);
    Ok(())
}

#[test]
fn a_value_is_encoded_into_a_record(rt: HostRuntime) -> Result<(), Fail> {
    let alloc = rt.alloc();
    let mut fields = UnknownFields::new(alloc);
    <Int32 as ExtensionCodec>::encode(alloc, 7, -7, &mut fields)?;
    assert!(rt; Int32::decode(alloc, 7, &fields)? == Some(-7));
    Ok(())
}

#[test]
fn a_declared_value_is_read_of_records(rt: HostRuntime) -> Result<(), Fail> {
    let alloc = rt.alloc();
    let fields = UnknownFields::decode_from_slice(alloc, &[0x38, 0x01])?;
    let hue = EnumCodec::<Old>::decode(alloc, 7, &fields)?;
    assert!(rt; hue == Some(EnumValue::Known(Old::B)));
    Ok(())
}

#[test]
fn lists_are_encoded_behind_a_record(rt: HostRuntime) -> Result<(), Fail> {
    let alloc = rt.alloc();
    let mut fields = UnknownFields::decode_from_slice(alloc, &[0x38, 0x01])?;
    Repeated::<Int32>::encode(alloc, 7, vec![in alloc; 3, 300]?, &mut fields)?;
    assert!(rt; fields.len() == 3);
    PackedRepeated::<Int32>::encode(alloc, 7, vec![in alloc; 4, 5]?, &mut fields)?;
    assert!(rt; fields.len() == 4);
    Ok(())
}

#[test]
fn extensions_name_their_codec(rt: HostRuntime) {
    let numbers = [
        Extension::<Int64>::new(7, "test.Carrier").number(),
        Extension::<Uint32>::new(7, "test.Carrier").number(),
        Extension::<Uint64>::new(7, "test.Carrier").number(),
        Extension::<Sint64>::new(7, "test.Carrier").number(),
        Extension::<Bool>::new(7, "test.Carrier").number(),
        Extension::<Fixed32>::new(7, "test.Carrier").number(),
        Extension::<Fixed64>::new(7, "test.Carrier").number(),
        Extension::<Sfixed32>::new(7, "test.Carrier").number(),
        Extension::<Sfixed64>::new(7, "test.Carrier").number(),
        Extension::<Float>::new(7, "test.Carrier").number(),
        Extension::<Double>::new(7, "test.Carrier").number(),
        Extension::<BytesCodec>::new(7, "test.Carrier").number(),
        Extension::<MessageCodec<FlatMsg>>::new(7, "test.Carrier").number(),
    ];
    for number in numbers {
        assert!(rt; number == 7);
    }
}

#[test]
fn a_float_is_its_bits(rt: HostRuntime) {
    let half = FloatBits::new(0.5);
    let number = half.number(); // 0.5
    assert!(rt; number == 0.5);
    assert!(rt; half.bits == 0x3F00_0000);
    assert!(rt; FloatBits { bits: 0x7FA0_0001 }.number().is_nan());
}

#[test]
fn a_double_is_its_bits(rt: HostRuntime) {
    let half = DoubleBits::new(0.5);
    let number = half.number(); // 0.5
    assert!(rt; number == 0.5);
    assert!(rt; half.bits == 0x3FE0_0000_0000_0000);
}
