//! Trees that are merged, sized and written. The bytes are worked out by hand, from the protobuf encoding guide.

use buffa_wire::{Budget, DecodeError, SizeCache};
use sample_types::tree::{Tree, merge_tree, size_tree, write_tree};
use std::collections::BTreeMap;
use std::test::Fail;

#[test]
fn a_tree_comes_back(rt: HostRuntime) -> Result<(), Fail> {
    let alloc = rt.alloc();
    let children: BTreeMap<i32, Tree> = BTreeMap::new(alloc);
    let mut tree = Tree { label: 5, children };
    let bytes: &[u8] = &[
        0x12, 0x04, 0x08, 0x01, 0x12, 0x00, // a blank tree under 1,
        0x08, 0x07, // the label 7,
        0x18, 0x01, // and a field that isn't declared
    ];
    let mut budget = Budget::new(0).with_element_memory(36);
    merge_tree(alloc, &mut tree, bytes, 1, &mut budget)?;
    assert!(rt; tree.label == 7 && tree.children.len() == 1);
    let mut cache = SizeCache::new(alloc);
    let size = size_tree(&tree, &mut cache)?;
    assert!(rt; size == 8);
    let mut encoding: Vec<u8> = Vec::new(alloc);
    write_tree(&tree, &mut cache, &mut encoding)?;
    let written: &[u8] = &[
        0x08, 0x07, // the label,
        0x12, 0x04, 0x08, 0x01, 0x12, 0x00, // and the tree
    ];
    assert!(rt; encoding.as_slice() == written);
    Ok(())
}

#[test]
fn a_refused_tree_has_the_fields_before(rt: HostRuntime) -> Result<(), Fail> {
    let alloc = rt.alloc();
    let children: BTreeMap<i32, Tree> = BTreeMap::new(alloc);
    let mut tree = Tree { label: 5, children };
    let bytes: &[u8] = &[
        0x08, 0x07, // the label 7,
        0x12, 0x04, 0x08, 0x01, 0x12, 0x00, // and a tree, for which a unit is lacking
    ];
    let mut budget = Budget::new(0).with_element_memory(35);
    let answer = merge_tree(alloc, &mut tree, bytes, 1, &mut budget);
    assert!(rt; answer == Err(DecodeError::ElementMemoryLimitExceeded));
    assert!(rt; tree.label == 7 && tree.children.is_empty());
    Ok(())
}
