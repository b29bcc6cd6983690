// Payloads of values by themselves: read into a value, and written.

use buffa_map::map_codec::{
    Bool, BytesBuf, BytesVec, Double, Fixed32, Fixed64, Float, Int32, Int64, MapCodec,
    MapValueDecode, MapValueDecodeStatus, ProtoBytesMap, ProtoStringMap, Sfixed32, Sfixed64,
    Sint32, Sint64, Str, Uint32, Uint64,
};
use buffa_wire::{Budget, Buf, DecodeContext, DecodeError, EncodeError};
use conformance_rows::case::Case;
use conformance_rows::fault::Fault;
use conformance_rows::mark::Mark;
use conformance_rows::outcome::{Outcome, got, in_words, left, text_told, told, written};
use conformance_rows::words::{Worded, copied, joined};
use std::alloc::Global;

// The value that stands before: that of the word, or the default.
fn standing<By, V: Worded<By>>(alloc: Global, case: &Case<'_>) -> Result<V, Fault> {
    if case.before().is_empty() {
        return Ok(V::blank(alloc));
    }
    V::of_word(alloc, case.before())
}

// The word of a value, and whether the payload held a declared one; after a refusal of a value's payload the word
// alone, and of a message's nothing, since it is some value of its type.
fn value_reported<By, V: Worded<By>>(
    alloc: Global,
    answer: Result<MapValueDecodeStatus, DecodeError>,
    value: &V,
    is_message: bool,
) -> Result<String, Fault> {
    let word = match answer {
        Err(_) if is_message => return Ok(String::new(alloc)),
        _ => value.word(alloc)?,
    };
    match answer {
        Ok(MapValueDecodeStatus::Known) => joined(alloc, word.as_str(), " known", ""),
        Ok(_) => joined(alloc, word.as_str(), " unknown", ""),
        Err(_) => Ok(word),
    }
}

/// What comes of a row that reads a payload into the value that stands before, which is a message or none.
pub fn payload<By, VC: MapValueDecode, B: Buf>(
    alloc: Global,
    case: &Case<'_>,
    mark: &mut Mark,
    buf: &mut B,
    is_message: bool,
) -> Result<Outcome, Fault>
where
    VC::Value: Worded<By>,
{
    let mut budget = Budget::new(case.unknown()?).with_element_memory(case.units()?);
    let ctx = DecodeContext::new(case.depth()?, &mut budget);
    let mut value = standing::<By, VC::Value>(alloc, case)?;
    mark.begin(alloc);
    let answer = VC::merge::<B>(alloc, &mut value, buf, ctx);
    let refused = mark.end();
    let unread = if answer.is_ok() { buf.remaining() } else { 0 };
    let words = value_reported::<By, VC::Value>(alloc, answer, &value, is_message);
    Outcome::of_words(
        alloc,
        told(alloc, answer),
        words,
        Ok(String::new(alloc)),
        refused,
    )?
    .with_left(left(alloc, case, &budget, unread), unread)
}

// A fixed length, or a dash.
fn fixed_told(alloc: Global, fixed: Option<u64>) -> Result<String, Fault> {
    match fixed {
        Some(len) => in_words(alloc, &len),
        None => copied(alloc, "-"),
    }
}

// What a codec says: the length of the payload, what a value costs, the wire type, and the fixed length.
fn facts_told<VC: MapCodec>(
    alloc: Global,
    answer: Result<(), EncodeError>,
    len: u64,
) -> Result<String, Fault> {
    if answer.is_err() {
        return Ok(String::new(alloc));
    }
    let cost = VC::COST;
    let wire_type = VC::WIRE_TYPE.number();
    let fixed = fixed_told(alloc, VC::FIXED_LEN)?;
    Ok(format!(in alloc; "{len} {cost} {wire_type} {fixed}")?)
}

// What comes of a row that writes the payload of a value.
fn spell<By, VC: MapCodec>(
    alloc: Global,
    case: &Case<'_>,
    mark: &mut Mark,
) -> Result<Outcome, Fault>
where
    VC::Value: Worded<By>,
{
    let value = <VC::Value as Worded<By>>::of_word(alloc, case.input())?;
    let mut text = Vec::new(alloc);
    mark.begin(alloc);
    let len = VC::encoded_len(&value);
    let answer = VC::encode::<Vec<u8>>(&value, &mut text);
    let refused = mark.end();
    let words = facts_told::<VC>(alloc, answer, len);
    let text = text_told(alloc, text.as_slice());
    Outcome::of_words(alloc, written(alloc, answer), words, text, refused)
}

// What comes of a row that asks how long the payload of a value is; nothing is written.
fn measure<By, VC: MapCodec>(
    alloc: Global,
    case: &Case<'_>,
    mark: &mut Mark,
) -> Result<Outcome, Fault>
where
    VC::Value: Worded<By>,
{
    let value = <VC::Value as Worded<By>>::of_word(alloc, case.input())?;
    mark.begin(alloc);
    let len = VC::encoded_len(&value);
    let refused = mark.end();
    let words = in_words(alloc, &len);
    let none = Ok(String::new(alloc));
    Outcome::of_words(alloc, got(alloc, true), words, none, refused)
}

/// What a row does with the codec that its type names.
pub trait OnCodec<By>: Drop {
    /// What comes of it.
    fn on_codec<VC: MapCodec>(
        self,
        alloc: Global,
        case: &Case<'_>,
        mark: &mut Mark,
    ) -> Result<Outcome, Fault>
    where
        VC::Value: Worded<By>;
}

/// A payload that is read from a buffer.
#[derive(Drop)]
pub struct Read<'a, B> {
    /// The buffer.
    pub buf: &'a mut B,
}

impl<By, B: Buf> OnCodec<By> for Read<'_, B> {
    fn on_codec<VC: MapCodec>(
        self,
        alloc: Global,
        case: &Case<'_>,
        mark: &mut Mark,
    ) -> Result<Outcome, Fault>
    where
        VC::Value: Worded<By>,
    {
        payload::<By, VC, B>(alloc, case, mark, self.buf, false)
    }
}

/// A payload that is written, or measured.
#[derive(Drop)]
pub struct Spelled;

impl<By> OnCodec<By> for Spelled {
    fn on_codec<VC: MapCodec>(
        self,
        alloc: Global,
        case: &Case<'_>,
        mark: &mut Mark,
    ) -> Result<Outcome, Fault>
    where
        VC::Value: Worded<By>,
    {
        match case.call {
            "payload-len" => measure::<By, VC>(alloc, case, mark),
            _ => spell::<By, VC>(alloc, case, mark),
        }
    }
}

/// What comes of a row on the payload of a number, a text or bytes.
pub fn payloads<By, O: OnCodec<By>>(
    alloc: Global,
    case: &Case<'_>,
    mark: &mut Mark,
    call: O,
) -> Result<Outcome, Fault> {
    match case.types {
        "int32" => call.on_codec::<Int32>(alloc, case, mark),
        "int64" => call.on_codec::<Int64>(alloc, case, mark),
        "uint32" => call.on_codec::<Uint32>(alloc, case, mark),
        "uint64" => call.on_codec::<Uint64>(alloc, case, mark),
        "sint32" => call.on_codec::<Sint32>(alloc, case, mark),
        "sint64" => call.on_codec::<Sint64>(alloc, case, mark),
        "bool" => call.on_codec::<Bool>(alloc, case, mark),
        "fixed32" => call.on_codec::<Fixed32>(alloc, case, mark),
        "fixed64" => call.on_codec::<Fixed64>(alloc, case, mark),
        "sfixed32" => call.on_codec::<Sfixed32>(alloc, case, mark),
        "sfixed64" => call.on_codec::<Sfixed64>(alloc, case, mark),
        "float" => call.on_codec::<Float>(alloc, case, mark),
        "double" => call.on_codec::<Double>(alloc, case, mark),
        "string" => call.on_codec::<Str>(alloc, case, mark),
        "bytes" => call.on_codec::<BytesVec>(alloc, case, mark),
        "shared-bytes" => call.on_codec::<BytesBuf>(alloc, case, mark),
        "own-string" => call.on_codec::<ProtoStringMap<String>>(alloc, case, mark),
        "own-bytes" => call.on_codec::<ProtoBytesMap<Vec<u8>>>(alloc, case, mark),
        _ => Err(Fault::Form),
    }
}
