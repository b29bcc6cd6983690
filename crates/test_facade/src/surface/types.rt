//! The functions of `types`, in pairs.

use buffa::types;
use bytes::Bytes;
use std::test::Fail;

#[test]
fn int32_and_int64(rt: HostRuntime) -> Result<(), Fail> {
    let mut sink = Vec::new(rt.alloc());
    types::encode_int32(-1, &mut sink)?;
    types::encode_int64(-2, &mut sink)?;
    let mut rest = sink.as_slice();
    let read = (
        types::decode_int32(&mut rest)?,
        types::decode_int64(&mut rest)?,
    );
    assert!(rt; read == (-1, -2));
    assert!(rt; (types::int32_encoded_len(-1), types::int64_encoded_len(1)) == (10, 1));
    Ok(())
}

#[test]
fn uint32_and_uint64(rt: HostRuntime) -> Result<(), Fail> {
    let mut sink = Vec::new(rt.alloc());
    types::encode_uint32(300, &mut sink)?;
    types::encode_uint64(7, &mut sink)?;
    let mut rest = sink.as_slice();
    let read = (
        types::decode_uint32(&mut rest)?,
        types::decode_uint64(&mut rest)?,
    );
    assert!(rt; read == (300, 7));
    assert!(rt; (types::uint32_encoded_len(300), types::uint64_encoded_len(7)) == (2, 1));
    Ok(())
}

#[test]
fn sint32_and_sint64(rt: HostRuntime) -> Result<(), Fail> {
    let mut sink = Vec::new(rt.alloc());
    types::encode_sint32(-64, &mut sink)?;
    types::encode_sint64(64, &mut sink)?;
    let mut rest = sink.as_slice();
    let read = (
        types::decode_sint32(&mut rest)?,
        types::decode_sint64(&mut rest)?,
    );
    assert!(rt; read == (-64, 64));
    assert!(rt;
        (
            types::sint32_encoded_len(-64),
            types::sint64_encoded_len(64)
        ) == (1, 2)
    );
    Ok(())
}

#[test]
fn zigzag(rt: HostRuntime) {
    assert!(rt; types::zigzag_encode_i32(-1) == 1);
    assert!(rt; types::zigzag_decode_i32(2) == 1);
    assert!(rt; types::zigzag_encode_i64(-2) == 3);
    assert!(rt; types::zigzag_decode_i64(4) == 2);
}

#[test]
fn bools(rt: HostRuntime) -> Result<(), Fail> {
    let mut sink = Vec::new(rt.alloc());
    types::encode_bool(true, &mut sink)?;
    assert!(rt; sink.len() == types::BOOL_ENCODED_LEN);
    let mut rest = sink.as_slice();
    assert!(rt; types::decode_bool(&mut rest)?);
    Ok(())
}

#[test]
fn fixed32_and_fixed64(rt: HostRuntime) -> Result<(), Fail> {
    let mut sink = Vec::new(rt.alloc());
    types::encode_fixed32(1, &mut sink)?;
    types::encode_fixed64(2, &mut sink)?;
    assert!(rt; types::FIXED32_ENCODED_LEN == 4);
    assert!(rt; types::FIXED64_ENCODED_LEN == 8);
    let mut rest = sink.as_slice();
    let read = (
        types::decode_fixed32(&mut rest)?,
        types::decode_fixed64(&mut rest)?,
    );
    assert!(rt; read == (1, 2));
    Ok(())
}

#[test]
fn sfixed32_and_sfixed64(rt: HostRuntime) -> Result<(), Fail> {
    let mut sink = Vec::new(rt.alloc());
    types::encode_sfixed32(-1, &mut sink)?;
    types::encode_sfixed64(-2, &mut sink)?;
    let mut rest = sink.as_slice();
    let read = (
        types::decode_sfixed32(&mut rest)?,
        types::decode_sfixed64(&mut rest)?,
    );
    assert!(rt; read == (-1, -2));
    Ok(())
}

#[test]
fn strings(rt: HostRuntime) -> Result<(), Fail> {
    let mut sink = Vec::new(rt.alloc());
    types::encode_string("ok", &mut sink)?;
    types::encode_string("on", &mut sink)?;
    assert!(rt; types::string_encoded_len("ok") == 3);
    let mut rest = sink.as_slice();
    let one = types::decode_string(rt.alloc(), &mut rest)?;
    let own = types::decode_string_to::<String, _>(rt.alloc(), &mut rest)?;
    assert!(rt; (one.as_str(), own.as_str()) == ("ok", "on"));
    Ok(())
}

#[test]
fn bytes(rt: HostRuntime) -> Result<(), Fail> {
    let mut sink = Vec::new(rt.alloc());
    types::encode_bytes(b"a", &mut sink)?;
    types::encode_bytes(b"b", &mut sink)?;
    types::encode_bytes(b"c", &mut sink)?;
    assert!(rt; types::bytes_encoded_len(b"a") == 2);
    let mut rest = sink.as_slice();
    let one: Vec<u8> = types::decode_bytes(rt.alloc(), &mut rest)?;
    let shared: Bytes = types::decode_bytes_to_bytes(rt.alloc(), &mut rest)?;
    let own = types::decode_bytes_to::<Vec<u8>, _>(rt.alloc(), &mut rest)?;
    assert!(rt; one.as_slice() == b"a".as_slice());
    assert!(rt; shared.as_slice() == b"b".as_slice());
    assert!(rt; own.as_slice() == b"c".as_slice());
    Ok(())
}
