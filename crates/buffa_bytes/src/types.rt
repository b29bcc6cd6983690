//! The encodings of scalars and strings, without their tags.

mod delimited;
mod fixed;
mod integer;
mod zigzag;

pub use delimited::{
    bytes_encoded_len, decode_bytes, decode_bytes_to, decode_bytes_to_bytes, decode_string,
    decode_string_to, encode_bytes, encode_string, string_encoded_len, with_delimited,
};
pub use fixed::{
    FIXED32_ENCODED_LEN, FIXED64_ENCODED_LEN, decode_fixed32, decode_fixed64, decode_sfixed32,
    decode_sfixed64, encode_fixed32, encode_fixed64, encode_sfixed32, encode_sfixed64,
};
pub use integer::{
    BOOL_ENCODED_LEN, decode_bool, decode_int32, decode_int64, decode_sint32, decode_sint64,
    decode_uint32, decode_uint64, encode_bool, encode_int32, encode_int64, encode_sint32,
    encode_sint64, encode_uint32, encode_uint64, int32_encoded_len, int64_encoded_len,
    sint32_encoded_len, sint64_encoded_len, uint32_encoded_len, uint64_encoded_len,
};
pub use zigzag::{zigzag_decode_i32, zigzag_decode_i64, zigzag_encode_i32, zigzag_encode_i64};
