// Calls on codecs: a record of a value and back, and packed bytes and back.

use crate::told::{Told, asks_to_try, found_told, got_told};
use buffa_ext::{PackableCodec, SingularCodec};
use buffa_wire::{
    Budget, DecodeContext, EncodeError, UnknownField, UnknownFieldData, UnknownFields,
};
use conformance_rows::case::Case;
use conformance_rows::fault::Fault;
use conformance_rows::mark::Mark;
use conformance_rows::outcome::{
    Outcome, budget_of, digits_told, records_told, with_left, written,
};
use conformance_rows::words::{Worded, copied, joined, records_of};
use std::alloc::{AllocError, Global};

// The one record of a payload, behind number 1.
fn one_record(alloc: Global, payload: UnknownFieldData) -> Result<UnknownFields, Fault> {
    let mut fields = UnknownFields::new(alloc);
    fields.push(UnknownField { number: 1, payload })?;
    Ok(fields)
}

// The record of a payload, told.
fn record_told(alloc: Global, payload: UnknownFieldData) -> Result<String, Fault> {
    let fields = one_record(alloc, payload)?;
    records_told(alloc, &fields)
}

/// The first record's payload.
pub fn first_of(fields: &UnknownFields) -> Result<&UnknownFieldData, Fault> {
    match fields.iter().next() {
        Some(field) => Ok(&field.payload),
        None => Err(Fault::Form),
    }
}

// No records.
fn no_records(alloc: Global) -> Result<String, Fault> {
    copied(alloc, "records -")
}

// What comes of a payload that was not made.
fn unmade_told(
    alloc: Global,
    fault: EncodeError,
    records: Result<String, Fault>,
    refused: bool,
) -> Result<Outcome, Fault> {
    let answer = written::<()>(alloc, Err(fault));
    Outcome::of_words(alloc, answer, Ok(String::new(alloc)), records, refused)
}

/// What comes of a payload that was made, or not.
pub fn made_told(
    alloc: Global,
    made: Result<UnknownFieldData, EncodeError>,
    refused: bool,
) -> Result<Outcome, Fault> {
    match made {
        Ok(payload) => {
            let none = Ok(String::new(alloc));
            got_told(alloc, true, none, record_told(alloc, payload), refused)
        }
        Err(fault) => unmade_told(alloc, fault, no_records(alloc), refused),
    }
}

// The record of a value, by one of two calls that are alike.
fn made<V: Drop, C: SingularCodec<Value = V>>(
    alloc: Global,
    tries: bool,
    value: V,
) -> Result<UnknownFieldData, EncodeError> {
    if tries {
        C::try_encode_one(alloc, &value)
    } else {
        C::encode_one(alloc, &value)
    }
}

/// A codec's record of a value.
pub fn encode_one<By, V: Worded<By>, C: SingularCodec<Value = V>>(
    alloc: Global,
    case: &Case<'_>,
    mark: &mut Mark,
) -> Result<Outcome, Fault> {
    let value = V::of_word(alloc, case.input())?;
    let tries = asks_to_try(case);
    mark.begin(alloc);
    let made = made::<V, C>(alloc, tries, value);
    let refused = mark.end();
    made_told(alloc, made, refused)
}

// What a codec reads of a record, or reads of it in a context.
fn found<V, C: SingularCodec<Value = V>>(
    alloc: Global,
    case: &Case<'_>,
    payload: &UnknownFieldData,
    ctx: DecodeContext<'_>,
) -> Result<Option<V>, AllocError> {
    if case.call == "decode-one" {
        C::decode_one(alloc, payload)
    } else {
        C::decode_one_ctx(alloc, payload, ctx)
    }
}

// An outcome with what is left of the budget, where the setting `left` asks for it.
fn with_budget(
    alloc: Global,
    case: &Case<'_>,
    budget: &Budget,
    outcome: Result<Outcome, Fault>,
) -> Result<Outcome, Fault> {
    if case.says("left", "told") {
        with_left(alloc, case, budget, outcome, 0)
    } else {
        outcome
    }
}

/// What a codec reads of the first record, by one of two calls.
pub fn decode_one<By, V: Worded<By>, C: SingularCodec<Value = V>>(
    alloc: Global,
    case: &Case<'_>,
    mark: &mut Mark,
) -> Result<Outcome, Fault> {
    let mut budget = budget_of(case)?;
    let depth = case.depth()?;
    let fields = records_of(alloc, case.before())?;
    let payload = first_of(&fields)?;
    let ctx = DecodeContext::new(depth, &mut budget);
    mark.begin(alloc);
    let found = found::<V, C>(alloc, case, payload, ctx);
    let refused = mark.end();
    let outcome = found_told::<By, Option<V>>(alloc, &found, &fields, refused);
    with_budget(alloc, case, &budget, outcome)
}

// What stands of the words before where memory ran out: they, and a beginning of the new ones, but not all.
fn front_told(alloc: Global, case: &Case<'_>, stand: &str, all: &str) -> Result<String, Fault> {
    let is_front = match all.strip_prefix(stand) {
        Some(rest) => rest.starts_with(' ') || stand.is_empty() && !rest.is_empty(),
        None => false,
    };
    if is_front && stand.starts_with(case.before()) {
        return joined(alloc, "records ", case.before, "");
    }
    joined(alloc, "records ", stand, " may not stand")
}

// Puts the values that bytes hold behind others; whether all are there.
fn unpacked<V, C: SingularCodec<Value = V>>(bytes: &[u8], values: &mut Vec<V>) -> bool {
    C::decode_packed(bytes, values).is_ok()
}

// What stands where memory ran out, of words: `front_told`, where all are those of the values that bytes hold behind
// the values before.
fn stand_told<By, V: Worded<By>, C: SingularCodec<Value = V>>(
    alloc: Global,
    case: &Case<'_>,
    bytes: &[u8],
    stand: &str,
) -> Result<String, Fault> {
    let mut values = <Vec<V> as Told<By>>::value_of(alloc, case.before())?;
    if !unpacked::<V, C>(bytes, &mut values) {
        return Err(Fault::Memory);
    }
    let all = Told::<By>::words(&values, alloc)?;
    front_told(alloc, case, stand, all.as_str())
}

/// The values that a codec reads of packed bytes, behind those that stand before.
pub fn unpack<By, V: Worded<By>, C: SingularCodec<Value = V>>(
    alloc: Global,
    case: &Case<'_>,
    mark: &mut Mark,
) -> Result<Outcome, Fault> {
    let bytes = hex::decode(alloc, case.input())?;
    let mut values = <Vec<V> as Told<By>>::value_of(alloc, case.before())?;
    mark.begin(alloc);
    let is_ok = unpacked::<V, C>(bytes.as_slice(), &mut values);
    let refused = mark.end();
    let words = Told::<By>::words(&values, alloc)?;
    let records = if is_ok {
        no_records(alloc)
    } else {
        stand_told::<By, V, C>(alloc, case, bytes.as_slice(), words.as_str())
    };
    got_told(alloc, is_ok, Ok(words), records, refused)
}

// The bytes behind which a value was packed, or not.
#[derive(Drop)]
struct PackedField {
    bytes: Vec<u8>,
    answer: Result<(), EncodeError>,
}

// Packs a value behind bytes.
fn pack_behind<V: Drop, C: PackableCodec<Value = V>>(value: V, mut bytes: Vec<u8>) -> PackedField {
    let answer = C::encode_packed(&value, &mut bytes);
    PackedField { bytes, answer }
}

// The bytes that stand where memory ran out.
fn bytes_reported(alloc: Global, bytes: &[u8]) -> Result<String, Fault> {
    let digits = hex::encode(alloc, bytes)?;
    digits_told(alloc, "records", digits.as_str())
}

// What comes of bytes behind which a value was packed, or not; then they are as they were.
fn packed_found(alloc: Global, packed: PackedField, refused: bool) -> Result<Outcome, Fault> {
    let PackedField { bytes, answer } = packed;
    match answer {
        Ok(()) => made_told(alloc, Ok(UnknownFieldData::LengthDelimited(bytes)), refused),
        Err(fault) => unmade_told(
            alloc,
            fault,
            bytes_reported(alloc, bytes.as_slice()),
            refused,
        ),
    }
}

/// The packed bytes of a value, behind those that stand before, as a record.
pub fn pack<By, V: Worded<By>, C: PackableCodec<Value = V>>(
    alloc: Global,
    case: &Case<'_>,
    mark: &mut Mark,
) -> Result<Outcome, Fault> {
    let bytes = hex::decode(alloc, case.before())?;
    let value = V::of_word(alloc, case.input())?;
    mark.begin(alloc);
    let packed = pack_behind::<V, C>(value, bytes);
    let refused = mark.end();
    packed_found(alloc, packed, refused)
}
