//! The codecs of strings, bytes and enums, and the names of those of scalars.
//!
//! Strings and bytes are a length and so many bytes, an enum is written as [`Int32`] is; [`buffa_wire::scalars`] has
//! the forms of scalars, docs/BY_HAND.md, "Codecs and storages", the values and the units of element memory.
//!
//! Each of them replaces the value that stood, and leaves it where a payload is refused; a closed enum also where it
//! declares no such value.
//! Source: the protobuf encoding guide, "Message Structure".

mod delimited;
mod enums;
mod scalars;

pub use buffa_wire::scalars::{
    Bool, Double, Fixed32, Fixed64, Float, Int32, Int64, Sfixed32, Sfixed64, Sint32, Sint64,
    Uint32, Uint64,
};
pub use delimited::{BytesBuf, BytesVec, ProtoBytesMap, ProtoStringMap, Str};
pub use enums::{ClosedEnum, OpenEnum};
