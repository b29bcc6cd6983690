//! Protocol Buffers, proved: messages, map fields, typed extensions and MessageSet Items, all in one crate.
//!
//! This crate hands on the names of the crates below it. A program that needs few of them names those crates, such as
//! `buffa_fields` for messages, and then it has less to prove. [`fields`] has messages by their fields, [`map_codec`] map
//! fields, [`extension`] typed extensions, [`message_set`] Items, [`set`] MessageSets, and [`laws`] what is proved of them together, one
//! function a law. [`samples`] has two messages. The items of the wire are at the top.
#![tactic(auto)]

pub mod extension;
pub mod fields;
pub mod laws;
pub mod name_laws;
pub mod samples;

pub use buffa_ext::{Extension, ExtensionSet};
pub use buffa_map::map_codec;
pub use buffa_map::map_codec::{Map, MapStorage};
pub use buffa_message_set::message_set;
pub use buffa_sets::set;
pub use buffa_wire::message::MAX_MESSAGE_BYTES;
pub use buffa_wire::{
    Adapted, Blank, Budget, Buf, CanonicalError, DEFAULT_ELEMENT_MEMORY_LIMIT,
    DEFAULT_UNKNOWN_FIELD_LIMIT, Decode, DecodeContext, DecodeError, DoubleBits, EncodeError,
    EncodeSink, EnumValue, Enumeration, FloatBits, Form, Limited, MAX_FIELD_NUMBER, MapKey,
    Message, MessageSetFault, MessageSpec, Pieces, PlainKey, ProtoBytes, ProtoString,
    RECURSION_LIMIT, Scalar, SizeCache, Tag, UnknownField, UnknownFieldData, UnknownFields,
    WireType, capped, check_wire_type, decode_unknown_field, decode_varint, encode_varint,
    skip_field_depth, types, varint_len,
};
