//! Items of a MessageSet, and the words at the top of the facade.

use buffa::message_set::{
    ITEM_END_TAG, ITEM_START_TAG, MESSAGE_TAG, TYPE_ID_TAG, item_encoded_len, merge_item,
    write_item,
};
use buffa::{
    Budget, DecodeContext, DecodeError, Extension, ExtensionSet, Map, MapStorage, MessageSetFault,
    RECURSION_LIMIT, laws, map_codec,
};
use std::test::Fail;

// The Item of 1000 and `hello`.
const ITEM: [u8; 12] = [
    0x0B, 0x10, 0xE8, 0x07, 0x1A, 0x05, b'h', b'e', b'l', b'l', b'o', 0x0C,
];

#[test]
fn item_tags(rt: HostRuntime) {
    assert!(rt; (ITEM_START_TAG, ITEM_END_TAG) == (0x0Bu64, 0x0Cu64));
    assert!(rt; (TYPE_ID_TAG, MESSAGE_TAG) == (0x10u64, 0x1Au64));
}

#[test]
fn items(rt: HostRuntime) -> Result<(), Fail> {
    let mut sink = Vec::new(rt.alloc());
    write_item(1000, b"hello", &mut sink)?;
    assert!(rt; sink.as_slice() == ITEM.as_slice());
    let len: usize = item_encoded_len(1000, 5);
    assert!(rt; len == 12);
    let mut budget = Budget::new(1);
    let ctx = DecodeContext::new(RECURSION_LIMIT, &mut budget);
    let mut rest: &[u8] = &ITEM[1..];
    let (number, payload): (u32, Vec<u8>) = merge_item(rt.alloc(), &mut rest, ctx)?;
    assert!(rt; number == 1000);
    assert!(rt; payload.as_slice() == b"hello".as_slice());
    Ok(())
}

#[test]
fn refused_items(rt: HostRuntime) {
    let mut budget = Budget::new(1);
    let ctx = DecodeContext::new(RECURSION_LIMIT, &mut budget);
    let mut rest: &[u8] = &[0x1A, 0x00, 0x0C];
    let refused = merge_item(rt.alloc(), &mut rest, ctx).err();
    let missing = DecodeError::InvalidMessageSet(MessageSetFault::MissingTypeId);
    assert!(rt; refused == Some(missing));
}

// The number of an extension, and of pairs, by the names at the top.
fn by_top_names<M: ExtensionSet, C: MapStorage<Key = i32, Value = i32>>(map: &C) -> (u32, usize) {
    let ext = Extension::<buffa::extension::codecs::Int32>::new(7, M::PROTO_FQN);
    (ext.number(), map.storage_len())
}

#[test]
fn names_at_the_top(rt: HostRuntime) {
    let map: Map<i32, i32> = Map::new(rt.alloc());
    let codec_map: map_codec::Map<i32, i32> = map_codec::Map::new(rt.alloc());
    assert!(rt; by_top_names::<crate::labelled::Labelled, _>(&map) == (7, 0));
    assert!(rt; codec_map.storage_len() == 0);
    laws::law_6();
}
