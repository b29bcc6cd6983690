//! An encoding that fits into what a sink has.

use buffa_bytes::types;
use std::test::Fail;

#[test]
fn what_fits_asks_for_no_memory(rt: HostRuntime) -> Result<(), Fail> {
    let mut encoding = Vec::with_capacity(rt.alloc(), 8)?;
    types::encode_string("testing", &mut encoding)?;
    assert!(rt; encoding.as_slice() == b"\x07testing".as_slice());
    assert!(rt; encoding.capacity() == 8);
    Ok(())
}
