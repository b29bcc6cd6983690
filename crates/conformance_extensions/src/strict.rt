// What is read strictly: where a record can't be read, its fault is told.

use crate::codecs::first_of;
use crate::told::{Told, carrier_of, words_of};
use buffa_ext::{Extension, ExtensionCodec, ExtensionSet, StrictCodec, StrictElementCodec};
use buffa_wire::DecodeError;
use conformance_rows::case::Case;
use conformance_rows::fault::Fault;
use conformance_rows::mark::Mark;
use conformance_rows::outcome::{Outcome, budget_of, records_told, told, with_left};
use conformance_rows::words::records_of;
use sample_validator::Carrier;
use std::alloc::Global;

// What a carrier's extension, or the codec alone, makes of the records.
fn found<T, C: StrictCodec + ExtensionCodec<Output = T>>(
    alloc: Global,
    case: &Case<'_>,
    number: u32,
    carrier: &Carrier,
) -> Result<T, DecodeError> {
    if case.call == "read" {
        let ext = Extension::<C>::new(number, "test.Carrier");
        carrier.read_extension(alloc, &ext)
    } else {
        C::decode_strictly(alloc, number, &carrier.fields)
    }
}

/// What is read, or the fault of the first record that can't be read.
pub fn read<By, T: Told<By>, C: StrictCodec + ExtensionCodec<Output = T>>(
    alloc: Global,
    case: &Case<'_>,
    mark: &mut Mark,
) -> Result<Outcome, Fault> {
    let number = case.number()?;
    let carrier = carrier_of(alloc, case)?;
    mark.begin(alloc);
    let found = found::<T, C>(alloc, case, number, &carrier);
    let refused = mark.end();
    let words = words_of::<By, T, DecodeError>(alloc, &found);
    let records = records_told(alloc, &carrier.fields);
    Outcome::of_words(alloc, told(alloc, found), words, records, refused)
}

/// Why the first record is no element of a list, if it is none, and what checking it leaves of the budget.
pub fn check_element<C: StrictElementCodec>(
    alloc: Global,
    case: &Case<'_>,
    mark: &mut Mark,
) -> Result<Outcome, Fault> {
    let number = case.number()?;
    let mut budget = budget_of(case)?;
    let fields = records_of(alloc, case.before())?;
    let payload = first_of(&fields)?;
    mark.begin(alloc);
    let answer = C::check_element(alloc, number, payload, &mut budget);
    let refused = mark.end();
    let none = Ok(String::new(alloc));
    let records = records_told(alloc, &fields);
    let outcome = Outcome::of_words(alloc, told(alloc, answer), none, records, refused);
    with_left(alloc, case, &budget, outcome, 0)
}
