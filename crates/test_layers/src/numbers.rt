//! Bytes one by one.

use buffa_bytes::varint::take_byte;

#[test]
fn bytes_are_taken_one_by_one(rt: HostRuntime) {
    let mut rest: &[u8] = &[7];
    assert!(rt; take_byte(&mut rest) == Some(7));
    assert!(rt; take_byte(&mut rest) == None);
}
