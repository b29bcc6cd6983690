// Values that are set, or put behind others by a codec alone.

use crate::reads::read;
use crate::told::{Told, asks_to_try, carrier_of, is_full, stand_told, words_of, written_told};
use buffa_ext::{Extension, ExtensionCodec, ExtensionSet};
use buffa_wire::{EncodeError, UnknownFields};
use conformance_rows::case::Case;
use conformance_rows::fault::Fault;
use conformance_rows::mark::Mark;
use conformance_rows::outcome::{Outcome, records_told};
use conformance_rows::words::{records_of, records_word};
use sample_validator::Carrier;
use std::alloc::{AllocError, Global};

/// Sets a value, by one of two calls that are alike.
pub fn put<V, C: ExtensionCodec<Value = V>>(
    alloc: Global,
    number: u32,
    tries: bool,
    value: V,
    carrier: &mut Carrier,
) -> Result<(), EncodeError> {
    let ext = Extension::<C>::new(number, "test.Carrier");
    if tries {
        carrier.try_set_extension(alloc, &ext, value)
    } else {
        carrier.set_extension(alloc, &ext, value)
    }
}

/// What is read of what was set.
pub fn set<By, T: Told<By>, C: ExtensionCodec<Value = T::Value, Output = T>>(
    alloc: Global,
    case: &Case<'_>,
    mark: &mut Mark,
) -> Result<Outcome, Fault> {
    let number = case.number()?;
    let mut carrier = carrier_of(alloc, case)?;
    let value = T::value_of(alloc, case.input())?;
    let tries = asks_to_try(case);
    mark.begin(alloc);
    let answer = put::<T::Value, C>(alloc, number, tries, value, &mut carrier);
    let refused = mark.end();
    let found = read::<T, C>(alloc, number, &carrier);
    let words = words_of::<By, T, AllocError>(alloc, &found);
    let records = records_told(alloc, &carrier.fields);
    written_told(alloc, answer, words, records, refused)
}

// Puts a value's records behind others, by one of two calls that are alike.
fn push<V, C: ExtensionCodec<Value = V>>(
    alloc: Global,
    number: u32,
    tries: bool,
    value: V,
    fields: &mut UnknownFields,
) -> Result<(), EncodeError> {
    if tries {
        C::try_encode(alloc, number, value, fields)
    } else {
        C::encode(alloc, number, value, fields)
    }
}

// What stands where memory ran out: the old records, and behind them a beginning of the new ones, but not all. `whole`
// is what stands with ample memory, and `is_all` says whether all new records are in it.
fn front_told(
    alloc: Global,
    case: &Case<'_>,
    fields: &UnknownFields,
    whole: &UnknownFields,
    is_all: bool,
) -> Result<String, Fault> {
    let stands = records_word(alloc, fields)?;
    let all = records_word(alloc, whole)?;
    let has_old = stands.as_str().starts_with(case.before());
    let is_front = all.as_str().starts_with(stands.as_str());
    let is_short = fields.len() < whole.len() || !is_all;
    stand_told(alloc, fields, has_old && is_front && is_short)
}

// The same, of the value that the row has.
fn value_reported<By, T: Told<By>, C: ExtensionCodec<Value = T::Value>>(
    alloc: Global,
    case: &Case<'_>,
    number: u32,
    fields: &UnknownFields,
) -> Result<String, Fault> {
    let mut whole = records_of(alloc, case.before())?;
    let value = T::value_of(alloc, case.input())?;
    let all = push::<T::Value, C>(alloc, number, asks_to_try(case), value, &mut whole);
    front_told(alloc, case, fields, &whole, all.is_ok())
}

/// What stands behind other records.
pub fn encode_into<By, T: Told<By>, C: ExtensionCodec<Value = T::Value>>(
    alloc: Global,
    case: &Case<'_>,
    mark: &mut Mark,
) -> Result<Outcome, Fault> {
    let number = case.number()?;
    let mut fields = records_of(alloc, case.before())?;
    let value = T::value_of(alloc, case.input())?;
    let tries = asks_to_try(case);
    mark.begin(alloc);
    let answer = push::<T::Value, C>(alloc, number, tries, value, &mut fields);
    let refused = mark.end();
    let records = if is_full(&answer) {
        value_reported::<By, T, C>(alloc, case, number, &fields)
    } else {
        records_told(alloc, &fields)
    };
    written_told(alloc, answer, Ok(String::new(alloc)), records, refused)
}
