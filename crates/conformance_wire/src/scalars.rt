// Rows on scalars, strings and bytes by themselves, and on tags: what is read of a buffer, and how a value is spelled.
// A `Payload` is a type with its public functions; `numbers` and `texts` have one for each.

pub mod numbers;
pub mod payload;
mod tags;
pub mod texts;
mod zigzag;

use buffa_wire::Buf;
use bytes::Bytes;
use conformance_rows::case::Case;
use conformance_rows::fault::Fault;
use conformance_rows::mark::Mark;
use conformance_rows::outcome::Outcome;
use numbers::{
    Bool, Fixed32, Fixed64, Int32, Int64, Length, Sfixed32, Sfixed64, Sint32, Sint64, Uint32,
    Uint64, Varint,
};
use payload::{blank, decode, spell};
use std::alloc::Global;
use texts::{OwnBytes, OwnString, PlainBytes, PlainString, SharedBytes};

// A number that is read of a buffer.
fn number<By, B: Buf>(
    alloc: Global,
    case: &Case<'_>,
    mark: &mut Mark,
    buf: &mut B,
) -> Result<Outcome, Fault> {
    match case.types {
        "int32" => decode::<By, Int32, B>(alloc, case, mark, buf),
        "int64" => decode::<By, Int64, B>(alloc, case, mark, buf),
        "uint32" => decode::<By, Uint32, B>(alloc, case, mark, buf),
        "uint64" => decode::<By, Uint64, B>(alloc, case, mark, buf),
        "sint32" => decode::<By, Sint32, B>(alloc, case, mark, buf),
        "sint64" => decode::<By, Sint64, B>(alloc, case, mark, buf),
        "bool" => decode::<By, Bool, B>(alloc, case, mark, buf),
        "fixed32" => decode::<By, Fixed32, B>(alloc, case, mark, buf),
        "fixed64" => decode::<By, Fixed64, B>(alloc, case, mark, buf),
        "sfixed32" => decode::<By, Sfixed32, B>(alloc, case, mark, buf),
        "sfixed64" => decode::<By, Sfixed64, B>(alloc, case, mark, buf),
        _ => Err(Fault::Form),
    }
}

/// What comes of a row that reads a scalar, a string, bytes or a tag.
pub fn from_buffer<By, B: Buf>(
    alloc: Global,
    case: &Case<'_>,
    mark: &mut Mark,
    buf: &mut B,
) -> Result<Outcome, Fault> {
    match (case.call, case.types) {
        ("tag", _) => tags::tag::<B>(alloc, case, mark, buf),
        ("copy", "bytes") => texts::copy::<By, B>(alloc, case, mark, buf),
        ("decode", "string") => decode::<By, PlainString, B>(alloc, case, mark, buf),
        ("decode", "own-string") => decode::<By, OwnString<String>, B>(alloc, case, mark, buf),
        ("decode", "bytes") => decode::<By, PlainBytes, B>(alloc, case, mark, buf),
        ("decode", "own-bytes") => decode::<By, OwnBytes<Vec<u8>>, B>(alloc, case, mark, buf),
        ("decode", "shared-bytes") => decode::<By, SharedBytes, B>(alloc, case, mark, buf),
        ("decode", _) => number::<By, B>(alloc, case, mark, buf),
        _ => Err(Fault::Form),
    }
}

// A number that is spelled.
fn spelled<By>(alloc: Global, case: &Case<'_>, mark: &mut Mark) -> Result<Outcome, Fault> {
    match case.types {
        "int32" => spell::<By, Int32>(alloc, case, mark),
        "int64" => spell::<By, Int64>(alloc, case, mark),
        "uint32" => spell::<By, Uint32>(alloc, case, mark),
        "uint64" => spell::<By, Uint64>(alloc, case, mark),
        "sint32" => spell::<By, Sint32>(alloc, case, mark),
        "sint64" => spell::<By, Sint64>(alloc, case, mark),
        "bool" => spell::<By, Bool>(alloc, case, mark),
        "fixed32" => spell::<By, Fixed32>(alloc, case, mark),
        "fixed64" => spell::<By, Fixed64>(alloc, case, mark),
        "sfixed32" => spell::<By, Sfixed32>(alloc, case, mark),
        "sfixed64" => spell::<By, Sfixed64>(alloc, case, mark),
        "varint" => spell::<By, Varint>(alloc, case, mark),
        "length" => spell::<By, Length>(alloc, case, mark),
        _ => Err(Fault::Form),
    }
}

// The default of a number, a string or bytes.
fn blank_of<By>(alloc: Global, case: &Case<'_>, mark: &mut Mark) -> Result<Outcome, Fault> {
    match case.types {
        "int32" | "sint32" | "sfixed32" => blank::<By, i32>(alloc, mark),
        "int64" | "sint64" | "sfixed64" => blank::<By, i64>(alloc, mark),
        "uint32" | "fixed32" => blank::<By, u32>(alloc, mark),
        "uint64" | "fixed64" => blank::<By, u64>(alloc, mark),
        "bool" => blank::<By, bool>(alloc, mark),
        "string" => blank::<By, String>(alloc, mark),
        "bytes" => blank::<By, Vec<u8>>(alloc, mark),
        "shared-bytes" => blank::<By, Bytes>(alloc, mark),
        _ => Err(Fault::Form),
    }
}

/// What comes of a row that spells a value, or makes one of bytes or of nothing.
pub fn from_words<By>(alloc: Global, case: &Case<'_>, mark: &mut Mark) -> Result<Outcome, Fault> {
    match (case.call, case.types) {
        ("blank", _) => blank_of::<By>(alloc, case, mark),
        ("zigzag", _) => zigzag::zigzag(alloc, case, mark),
        ("from-wire", "own-string") => texts::own_string::<By, String>(alloc, case, mark),
        ("from-wire", "own-bytes") => texts::own_bytes::<By, Vec<u8>>(alloc, case, mark),
        ("spell", "tag") => tags::spell(alloc, case, mark),
        ("spell", "string") => spell::<By, PlainString>(alloc, case, mark),
        ("spell", "own-string") => spell::<By, OwnString<String>>(alloc, case, mark),
        ("spell", "bytes") => spell::<By, PlainBytes>(alloc, case, mark),
        ("spell", "own-bytes") => spell::<By, OwnBytes<Vec<u8>>>(alloc, case, mark),
        ("spell", "shared-bytes") => spell::<By, SharedBytes>(alloc, case, mark),
        ("spell", _) => spelled::<By>(alloc, case, mark),
        _ => Err(Fault::Form),
    }
}
