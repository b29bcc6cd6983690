//! Branches on branches. The bytes are worked out by hand, from the protobuf encoding guide.

use buffa_wire::{Blank, Budget, DecodeContext, DecodeError, Message, RECURSION_LIMIT};
use sample_recursive::branch::Branch;
use std::string::String;
use std::test::Fail;

#[test]
fn branches_are_passed_on(rt: HostRuntime) -> Result<(), Fail> {
    let alloc = rt.alloc();
    let mut branch: Branch = Blank::blank(alloc);
    let bytes: [u8; 22] = [
        0x0A, 0x01, 0x61, // name is "a"
        0x1A, 0x09, // a branch,
        0x1A, 0x03, 0x0A, 0x01, 0x63, // on which there is "c",
        0x0A, 0x02, 0x62, 0x62, // and which is "bb"
        0x10, 0x05, // a leaf
        0x20, 0x07, // field 4 isn't declared
        0x1A, 0x02, 0x10, 0x06, // a second branch, with a leaf
    ];
    branch.merge_from_slice(alloc, &bytes)?;
    assert!(rt;
        branch.branches.len() == 2 && branch.leaves.len() == 1 && branch.unknown_fields.len() == 1
    );
    assert!(rt; branch.branches[0].name.as_str() == "bb");
    assert!(rt; branch.branches[0].branches.len() == 1);
    let again: [u8; 22] = [
        0x0A, 0x01, 0x61, 0x10, 0x05, // the name and the leaf,
        0x1A, 0x09, 0x0A, 0x02, 0x62, 0x62, 0x1A, 0x03, 0x0A, 0x01, 0x63, // the branches,
        0x1A, 0x02, 0x10, 0x06, // one by one
        0x20, 0x07, // and what isn't declared
    ];
    let encoding = branch.try_encode_to_vec(alloc)?;
    assert!(rt; encoding.as_slice() == again.as_slice());
    Ok(())
}

#[test]
fn a_branch_too_deep_is_refused(rt: HostRuntime) -> Result<(), Fail> {
    let alloc = rt.alloc();
    let mut branch: Branch = Blank::blank(alloc);
    let bytes: [u8; 4] = [0x1A, 0x02, 0x1A, 0x00];
    let mut budget = Budget::new(10);
    let mut buf: &[u8] = &bytes;
    let answer = branch.merge(alloc, &mut buf, DecodeContext::new(1, &mut budget));
    assert!(rt; answer == Err(DecodeError::RecursionLimitExceeded));
    Ok(())
}

#[test]
fn a_branch_is_added(rt: HostRuntime) -> Result<(), Fail> {
    let alloc = rt.alloc();
    let mut branch: Branch = Blank::blank(alloc);
    let mut twig: Branch = Blank::blank(alloc);
    twig.name = String::from_str(alloc, "x")?;
    branch.branches.push(twig)?;
    let encoding = branch.try_encode_to_vec(alloc)?;
    assert!(rt; encoding.as_slice() == [0x1A, 0x03, 0x0A, 0x01, 0x78].as_slice());
    Ok(())
}
