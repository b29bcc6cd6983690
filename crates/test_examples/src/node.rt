//! Nodes that are merged, sized and written. The bytes are worked out by hand, from the protobuf encoding guide.

use buffa_wire::{Blank, Budget, DecodeError, SizeCache};
use sample_node::node::{Node, merge_node, size_node, write_node};
use sample_node::shade::Shade;
use std::test::Fail;

#[test]
fn a_node_comes_back(rt: HostRuntime) -> Result<(), Fail> {
    let alloc = rt.alloc();
    let mut node: Node = Blank::blank(alloc);
    let bytes: &[u8] = &[
        0x1A, 0x04, 0x08, 0x02, 0x10, 0x01, // the shade 1 under 2,
        0x1A, 0x04, 0x08, 0x02, 0x10, 0x63, // the undeclared shade 99 under 2,
        0x12, 0x02, 0x08, 0x01, // a blank node under 1,
        0x0A, 0x05, 0x0A, 0x01, 0x61, 0x10, 0x03, // and the score 3 of "a"
    ];
    let mut budget = Budget::new(1);
    merge_node(alloc, &mut node, bytes, 1, &mut budget)?;
    assert!(rt;
        node.children.len() == 1 && node.scores.len() == 1 && node.unknown_fields.len() == 1
    );
    assert!(rt; node.shades.get(&2) == Some(&Shade::B));
    let mut cache = SizeCache::new(alloc);
    let size = size_node(&node, &mut cache)?;
    assert!(rt; size == 25);
    let mut encoding: Vec<u8> = Vec::new(alloc);
    write_node(&node, &mut cache, &mut encoding)?;
    let written: &[u8] = &[
        0x0A, 0x05, 0x0A, 0x01, 0x61, 0x10, 0x03, // the score,
        0x12, 0x04, 0x08, 0x01, 0x12, 0x00, // the node,
        0x1A, 0x04, 0x08, 0x02, 0x10, 0x01, // the shade,
        0x1A, 0x04, 0x08, 0x02, 0x10, 0x63, // and what is kept
    ];
    assert!(rt; encoding.as_slice() == written);
    Ok(())
}

#[test]
fn a_refused_node_has_the_fields_before(rt: HostRuntime) -> Result<(), Fail> {
    let alloc = rt.alloc();
    let mut node: Node = Blank::blank(alloc);
    let bytes: &[u8] = &[
        0x1A, 0x04, 0x08, 0x02, 0x10, 0x01, // a shade,
        0x12, 0x04, 0x08, 0x01, 0x12, 0x00, // and a node, for which no level is left
    ];
    let mut budget = Budget::new(0);
    let answer = merge_node(alloc, &mut node, bytes, 0, &mut budget);
    assert!(rt; answer == Err(DecodeError::RecursionLimitExceeded));
    assert!(rt; node.shades.len() == 1 && node.children.is_empty());
    Ok(())
}
