// Values that are set, and read again in the same call.

use crate::sets::put;
use crate::told::{Told, are_same, carrier_of, is_full, stand_told, words_of};
use buffa_ext::{Extension, ExtensionCodec, set_then_read};
use buffa_wire::{EncodeError, UnknownFields};
use conformance_rows::case::Case;
use conformance_rows::fault::Fault;
use conformance_rows::mark::Mark;
use conformance_rows::outcome::{Outcome, records_told, written};
use conformance_rows::words::records_of;
use sample_validator::Carrier;
use std::alloc::Global;

// The carrier then, and what was read.
#[derive(Drop)]
struct Stored<T> {
    carrier: Carrier,
    found: Result<T, EncodeError>,
}

// Sets a value, and reads it.
fn set_and_read<V, T, C: ExtensionCodec<Value = V, Output = T>>(
    alloc: Global,
    number: u32,
    mut carrier: Carrier,
    value: V,
) -> Stored<T>
    requires { C.normal (C.meaning value) }
{
    let ext = Extension::<C>::new(number, "test.Carrier");
    let found = set_then_read(alloc, &mut carrier, &ext, value);
    Stored { carrier, found }
}

// What stands where memory ran out: the old records, or those of the value set too.
fn either_told(
    alloc: Global,
    case: &Case<'_>,
    fields: &UnknownFields,
    set: &UnknownFields,
) -> Result<String, Fault> {
    let old = records_of(alloc, case.before())?;
    let may = are_same(alloc, fields, &old)? || are_same(alloc, fields, set)?;
    stand_told(alloc, fields, may)
}

// The same, of the value that the row has.
fn value_reported<By, T: Told<By>, C: ExtensionCodec<Value = T::Value>>(
    alloc: Global,
    case: &Case<'_>,
    number: u32,
    fields: &UnknownFields,
) -> Result<String, Fault> {
    let mut carrier = carrier_of(alloc, case)?;
    let value = T::value_of(alloc, case.input())?;
    let _ = put::<T::Value, C>(alloc, number, false, value, &mut carrier);
    either_told(alloc, case, fields, &carrier.fields)
}

/// What is set and read of a value, which is that of the row's words.
pub fn set_then<By, T: Told<By>, C: ExtensionCodec<Value = T::Value, Output = T>>(
    alloc: Global,
    case: &Case<'_>,
    mark: &mut Mark,
    value: T::Value,
) -> Result<Outcome, Fault>
    requires { C.normal (C.meaning value) }
{
    let number = case.number()?;
    let carrier = carrier_of(alloc, case)?;
    mark.begin(alloc);
    let Stored { carrier, found } = set_and_read::<T::Value, T, C>(alloc, number, carrier, value);
    let refused = mark.end();
    let words = words_of::<By, T, EncodeError>(alloc, &found);
    let records = if is_full(&found) {
        value_reported::<By, T, C>(alloc, case, number, &carrier.fields)
    } else {
        records_told(alloc, &carrier.fields)
    };
    Outcome::of_words(alloc, written(alloc, found), words, records, refused)
}

/// A value of a codec whose values are all read back.
pub fn any<By, T: Told<By>, C: ExtensionCodec<Value = T::Value, Output = T>>(
    alloc: Global,
    case: &Case<'_>,
    mark: &mut Mark,
) -> Result<Outcome, Fault>
    requires { (v : C.Meaning) → C.normal v }
{
    let value = T::value_of(alloc, case.input())?;
    set_then::<By, T, C>(alloc, case, mark, value)
}
