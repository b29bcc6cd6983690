// Fields of every proto type of key and value.

ghost use Rattle.buffa_bytes.specs.Number.{IsNumber};

use crate::sizes::{put_text, tag_len_of};
use crate::store::{len_in, told as pairs_told};
use buffa_map::map_codec::{
    Bool, BytesVec, Double, Fixed32, Fixed64, Float, Int32, Int64, Map, MapCodec, MapStorage,
    Sfixed32, Sfixed64, Sint32, Sint64, Str, Uint32, Uint64, read_map_field,
};
use buffa_wire::{Budget, DecodeContext, DecodeError, EncodeError, MapKey};
use conformance_rows::case::Case;
use conformance_rows::fault::Fault;
use conformance_rows::mark::Mark;
use conformance_rows::outcome::{Outcome, told};
use conformance_rows::words::{Worded, copied};
use std::alloc::Global;
use std::hash::Hash;

// Reads a map field at depth 0, with a budget that has no unknown field left.
fn read<KC: MapCodec, VC: MapCodec, C: MapStorage<Key = KC::Value, Value = VC::Value>>(
    alloc: Global,
    map: &mut C,
    number: u32,
    bytes: &[u8],
) -> Result<(), DecodeError> {
    let mut budget = Budget::new(0);
    let ctx = DecodeContext::new(0, &mut budget);
    let mut rest = bytes;
    read_map_field::<KC, VC, C, &[u8]>(alloc, map, number, &mut rest, ctx, None)
}

// Writes a map; the length that it has then.
fn write<KC: MapCodec, VC: MapCodec>(
    map: &Map<KC::Value, VC::Value>,
    number: u32,
    text: &mut Vec<u8>,
) -> Result<u64, EncodeError>
where
    KC::Value: MapKey + Hash,
    requires { IsNumber number }
{
    put_text::<KC, VC, Map<KC::Value, VC::Value>>(map, number, text)?;
    Ok(len_in::<KC, VC, Map<KC::Value, VC::Value>>(map, tag_len_of(number)))
}

// Whether a map is written as these bytes, and has their length.
fn is_written(text: &[u8], len: Result<u64, EncodeError>, bytes: &[u8]) -> bool {
    match len {
        Ok(len) => text == bytes && len == bytes.len() as u64,
        Err(_) => false,
    }
}

// The word of an answer; another one where what was read isn't written back.
fn answer_told(
    alloc: Global,
    answer: Result<(), DecodeError>,
    is_written: bool,
) -> Result<String, Fault> {
    if answer.is_ok() && !is_written {
        return copied(alloc, "not written back");
    }
    told(alloc, answer)
}

// What is told of a read, of the pairs then, and of a write.
fn field_reported(
    alloc: Global,
    answer: Result<(), DecodeError>,
    is_written: bool,
    pairs: Result<String, Fault>,
    refused: bool,
) -> Result<Outcome, Fault> {
    let none = Ok(String::new(alloc));
    Outcome::of_words(
        alloc,
        answer_told(alloc, answer, is_written),
        pairs,
        none,
        refused,
    )
}

// What comes of a row of these types: the pairs that are read, and whether they are written back.
fn in_a_map<By, KC: MapCodec, VC: MapCodec>(
    alloc: Global,
    case: &Case<'_>,
    mark: &mut Mark,
    bytes: &[u8],
) -> Result<Outcome, Fault>
where
    KC::Value: MapKey + Hash + Worded<By>,
    VC::Value: Worded<By>,
{
    let number = case.field_number()?;
    let mut map: Map<KC::Value, VC::Value> = Map::new(alloc);
    let mut text = Vec::new(alloc);
    mark.begin(alloc);
    let answer = read::<KC, VC, Map<KC::Value, VC::Value>>(alloc, &mut map, number, bytes);
    let refused = mark.end();
    let len = write::<KC, VC>(&map, number, &mut text);
    let is_written = is_written(text.as_slice(), len, bytes);
    let pairs = pairs_told::<By, _, _, Map<KC::Value, VC::Value>>(alloc, &map);
    field_reported(alloc, answer, is_written, pairs, refused)
}

// The same of a row with this type of key.
fn of_value<By, KC: MapCodec>(
    alloc: Global,
    case: &Case<'_>,
    value: &str,
    mark: &mut Mark,
    bytes: &[u8],
) -> Result<Outcome, Fault>
where
    KC::Value: MapKey + Hash + Worded<By>,
{
    match value {
        "int32" => in_a_map::<By, KC, Int32>(alloc, case, mark, bytes),
        "int64" => in_a_map::<By, KC, Int64>(alloc, case, mark, bytes),
        "uint32" => in_a_map::<By, KC, Uint32>(alloc, case, mark, bytes),
        "uint64" => in_a_map::<By, KC, Uint64>(alloc, case, mark, bytes),
        "sint32" => in_a_map::<By, KC, Sint32>(alloc, case, mark, bytes),
        "sint64" => in_a_map::<By, KC, Sint64>(alloc, case, mark, bytes),
        "bool" => in_a_map::<By, KC, Bool>(alloc, case, mark, bytes),
        "fixed32" => in_a_map::<By, KC, Fixed32>(alloc, case, mark, bytes),
        "fixed64" => in_a_map::<By, KC, Fixed64>(alloc, case, mark, bytes),
        "sfixed32" => in_a_map::<By, KC, Sfixed32>(alloc, case, mark, bytes),
        "sfixed64" => in_a_map::<By, KC, Sfixed64>(alloc, case, mark, bytes),
        "float" => in_a_map::<By, KC, Float>(alloc, case, mark, bytes),
        "double" => in_a_map::<By, KC, Double>(alloc, case, mark, bytes),
        "string" => in_a_map::<By, KC, Str>(alloc, case, mark, bytes),
        "bytes" => in_a_map::<By, KC, BytesVec>(alloc, case, mark, bytes),
        _ => Err(Fault::Form),
    }
}

/// What comes of a row of a key type and a value type, with a comma between them.
pub fn fields_of_any_types<By>(
    alloc: Global,
    case: &Case<'_>,
    mark: &mut Mark,
    bytes: &[u8],
) -> Result<Outcome, Fault> {
    let Some((key, value)) = case.types.split_once(',') else {
        return Err(Fault::Form);
    };
    match key {
        "int32" => of_value::<By, Int32>(alloc, case, value, mark, bytes),
        "int64" => of_value::<By, Int64>(alloc, case, value, mark, bytes),
        "uint32" => of_value::<By, Uint32>(alloc, case, value, mark, bytes),
        "uint64" => of_value::<By, Uint64>(alloc, case, value, mark, bytes),
        "sint32" => of_value::<By, Sint32>(alloc, case, value, mark, bytes),
        "sint64" => of_value::<By, Sint64>(alloc, case, value, mark, bytes),
        "bool" => of_value::<By, Bool>(alloc, case, value, mark, bytes),
        "fixed32" => of_value::<By, Fixed32>(alloc, case, value, mark, bytes),
        "fixed64" => of_value::<By, Fixed64>(alloc, case, value, mark, bytes),
        "sfixed32" => of_value::<By, Sfixed32>(alloc, case, value, mark, bytes),
        "sfixed64" => of_value::<By, Sfixed64>(alloc, case, value, mark, bytes),
        "string" => of_value::<By, Str>(alloc, case, value, mark, bytes),
        _ => Err(Fault::Form),
    }
}
