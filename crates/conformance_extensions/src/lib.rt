//! Does the calls of rows on extensions of a carrier, and on the codecs themselves, and compares what comes of them with a
//! row's words.
#![tactic(auto)]

mod back;
mod codecs;
mod descriptors;
mod messages;
pub mod normal;
mod reads;
mod sets;
mod steps;
mod strict;
mod told;
pub mod written;

use crate::normal::Normal;
use crate::told::Told;
use buffa_ext::codecs::{
    Bool, BytesCodec, Double, EnumI32, Fixed32, Fixed64, Float, Int32, Int64, PackedRepeated,
    Repeated, Sfixed32, Sfixed64, Sint32, Sint64, StringCodec, Uint32, Uint64,
};
use buffa_ext::{
    ExtensionCodec, MessageIn, MessageRecord, Numbered, SingularCodec, StrictCodec,
    StrictElementCodec,
};
use buffa_wire::{DoubleBits, FloatBits};
use conformance_rows::case::Case;
use conformance_rows::fault::Fault;
use conformance_rows::mark::Mark;
use conformance_rows::outcome::Outcome;
use conformance_rows::words::Worded;
use std::alloc::Global;

// A call on what is read as a T.
fn read_as<By, T: Told<By>, C: StrictCodec + ExtensionCodec<Value = T::Value, Output = T>>(
    alloc: Global,
    case: &Case<'_>,
    mark: &mut Mark,
) -> Result<Outcome, Fault> {
    match case.call {
        "get" | "decode-of" => reads::get::<By, T, C>(alloc, case, mark),
        "read" | "decode-strictly" => strict::read::<By, T, C>(alloc, case, mark),
        "set" => sets::set::<By, T, C>(alloc, case, mark),
        "encode-into" => sets::encode_into::<By, T, C>(alloc, case, mark),
        "clear" => reads::clear::<C>(alloc, case, mark),
        "has" => reads::is_there::<C>(alloc, case, mark),
        "descriptor" => descriptors::descriptor::<C>(alloc, case, mark),
        _ => Err(Fault::Form),
    }
}

/// A codec whose values aren't packed.
pub fn plain<
    By,
    V: Worded<By>,
    C: SingularCodec<Value = V>
        + ExtensionCodec<Value = V, Output = Option<V>>
        + StrictCodec
        + StrictElementCodec,
>(alloc: Global, case: &Case<'_>, mark: &mut Mark) -> Result<Outcome, Fault> {
    match case.call {
        "encode-one" => codecs::encode_one::<By, V, C>(alloc, case, mark),
        "decode-one" | "decode-one-ctx" => codecs::decode_one::<By, V, C>(alloc, case, mark),
        "unpack" => codecs::unpack::<By, V, C>(alloc, case, mark),
        "check-element" => strict::check_element::<C>(alloc, case, mark),
        _ if case.says("how", "all") => read_as::<By, Vec<V>, Repeated<C>>(alloc, case, mark),
        "default" => descriptors::default::<By, V, C>(alloc, case, mark),
        "declared" => descriptors::declares::<By, V, C>(alloc, case, mark),
        _ => read_as::<By, Option<V>, C>(alloc, case, mark),
    }
}

// A number, or a list of them, that is set and read.
fn set_number<By, V: Worded<By>, C: Numbered<Value = V>>(
    alloc: Global,
    case: &Case<'_>,
    mark: &mut Mark,
) -> Result<Outcome, Fault> {
    if case.says("how", "all") {
        back::any::<By, Vec<V>, Repeated<C>>(alloc, case, mark)
    } else if case.says("how", "packed") {
        back::any::<By, Vec<V>, PackedRepeated<C>>(alloc, case, mark)
    } else {
        back::any::<By, Option<V>, C>(alloc, case, mark)
    }
}

/// A codec whose values may be packed.
pub fn packable<By, V: Worded<By>, C: Numbered<Value = V>>(
    alloc: Global,
    case: &Case<'_>,
    mark: &mut Mark,
) -> Result<Outcome, Fault> {
    match case.call {
        "pack" => codecs::pack::<By, V, C>(alloc, case, mark),
        "set-then-read" => set_number::<By, V, C>(alloc, case, mark),
        _ if case.says("how", "packed") => read_as::<By, Vec<V>, PackedRepeated<C>>(
            alloc, case, mark,
        ),
        _ => plain::<By, V, C>(alloc, case, mark),
    }
}

/// A message, in records of one kind; `Back` is the type that says which messages are read back.
pub fn message<By, Back, M: Worded<By> + Normal<Back>, K: MessageRecord>(
    alloc: Global,
    case: &Case<'_>,
    mark: &mut Mark,
) -> Result<Outcome, Fault> {
    match case.call {
        "set-then-read" => normal::set_messages::<By, Back, M, K>(alloc, case, mark),
        "hold" => messages::hold::<K>(alloc, case, mark),
        "merge-all" => messages::merge_all::<By, M, K>(alloc, case, mark),
        "merge-in" => messages::merge_in::<By, M, K>(alloc, case, mark),
        _ => plain::<By, M, MessageIn<K, M>>(alloc, case, mark),
    }
}

// A text.
fn string<By>(alloc: Global, case: &Case<'_>, mark: &mut Mark) -> Result<Outcome, Fault> {
    if case.call != "set-then-read" {
        plain::<By, String, StringCodec>(alloc, case, mark)
    } else if case.says("how", "all") {
        back::any::<By, Vec<String>, Repeated<StringCodec>>(alloc, case, mark)
    } else {
        back::any::<By, Option<String>, StringCodec>(alloc, case, mark)
    }
}

// Bytes.
fn bytes<By>(alloc: Global, case: &Case<'_>, mark: &mut Mark) -> Result<Outcome, Fault> {
    if case.call != "set-then-read" {
        plain::<By, Vec<u8>, BytesCodec>(alloc, case, mark)
    } else if case.says("how", "all") {
        back::any::<By, Vec<Vec<u8>>, Repeated<BytesCodec>>(alloc, case, mark)
    } else {
        back::any::<By, Option<Vec<u8>>, BytesCodec>(alloc, case, mark)
    }
}

// A row on an extension of eight bytes at the most, which is no enum.
fn of_longs<By>(alloc: Global, case: &Case<'_>, mark: &mut Mark) -> Result<Outcome, Fault> {
    match case.types {
        "int64" => packable::<By, i64, Int64>(alloc, case, mark),
        "uint64" => packable::<By, u64, Uint64>(alloc, case, mark),
        "sint64" => packable::<By, i64, Sint64>(alloc, case, mark),
        "fixed64" => packable::<By, u64, Fixed64>(alloc, case, mark),
        "sfixed64" => packable::<By, i64, Sfixed64>(alloc, case, mark),
        "double" => packable::<By, DoubleBits, Double>(alloc, case, mark),
        "bool" => packable::<By, bool, Bool>(alloc, case, mark),
        "string" => string::<By>(alloc, case, mark),
        "bytes" => bytes::<By>(alloc, case, mark),
        _ => Err(Fault::Form),
    }
}

/// What comes of a row on an extension whose values are numbers, texts or bytes, or on records of any number.
pub fn extension<By>(alloc: Global, case: &Case<'_>, mark: &mut Mark) -> Result<Outcome, Fault> {
    match case.types {
        "int32" => packable::<By, i32, Int32>(alloc, case, mark),
        "uint32" => packable::<By, u32, Uint32>(alloc, case, mark),
        "sint32" => packable::<By, i32, Sint32>(alloc, case, mark),
        "fixed32" => packable::<By, u32, Fixed32>(alloc, case, mark),
        "sfixed32" => packable::<By, i32, Sfixed32>(alloc, case, mark),
        "float" => packable::<By, FloatBits, Float>(alloc, case, mark),
        "number" => packable::<By, i32, EnumI32>(alloc, case, mark),
        "-" if case.call == "steps" => steps::steps(alloc, case, mark),
        "-" if case.call == "replace" => steps::replaced(alloc, case, mark),
        _ => of_longs::<By>(alloc, case, mark),
    }
}
