// What is read of a carrier's extension, or by a codec of records alone; and whether an extension is there.

use crate::told::{Told, carrier_of, found_told, got_told};
use buffa_ext::{Extension, ExtensionCodec, ExtensionSet};
use conformance_rows::case::Case;
use conformance_rows::fault::Fault;
use conformance_rows::mark::Mark;
use conformance_rows::outcome::{Outcome, in_words, records_told, two_in_words};
use sample_validator::Carrier;
use std::alloc::{AllocError, Global};

/// What a carrier's extension is read as.
pub fn read<T, C: ExtensionCodec<Output = T>>(
    alloc: Global,
    number: u32,
    carrier: &Carrier,
) -> Result<T, AllocError> {
    let ext = Extension::<C>::new(number, "test.Carrier");
    carrier.extension(alloc, &ext)
}

// What a carrier's extension, or the codec alone, makes of the records.
fn found<T, C: ExtensionCodec<Output = T>>(
    alloc: Global,
    case: &Case<'_>,
    number: u32,
    carrier: &Carrier,
) -> Result<T, AllocError> {
    if case.call == "get" {
        read::<T, C>(alloc, number, carrier)
    } else {
        C::decode(alloc, number, &carrier.fields)
    }
}

/// What is read.
pub fn get<By, T: Told<By>, C: ExtensionCodec<Output = T>>(
    alloc: Global,
    case: &Case<'_>,
    mark: &mut Mark,
) -> Result<Outcome, Fault> {
    let number = case.number()?;
    let carrier = carrier_of(alloc, case)?;
    mark.begin(alloc);
    let found = found::<T, C>(alloc, case, number, &carrier);
    let refused = mark.end();
    found_told::<By, T>(alloc, &found, &carrier.fields, refused)
}

// Whether a carrier has an extension of an extendee.
fn has<C: ExtensionCodec>(number: u32, extendee: &'static str, carrier: &Carrier) -> bool {
    let ext = Extension::<C>::new(number, extendee);
    carrier.has_extension(&ext)
}

// Clears an extension; whether it is there before, and then.
fn cleared<C: ExtensionCodec>(number: u32, carrier: &mut Carrier) -> (bool, bool) {
    let ext = Extension::<C>::new(number, "test.Carrier");
    let had = carrier.has_extension(&ext);
    carrier.clear_extension(&ext);
    (had, carrier.has_extension(&ext))
}

// Whether there is an extension, and whether there is after it was cleared.
fn both_told(alloc: Global, had: bool, has: bool) -> Result<String, Fault> {
    two_in_words(alloc, &had, &has)
}

/// Whether there is an extension, and the records without it.
pub fn clear<C: ExtensionCodec>(
    alloc: Global,
    case: &Case<'_>,
    mark: &mut Mark,
) -> Result<Outcome, Fault> {
    let number = case.number()?;
    let mut carrier = carrier_of(alloc, case)?;
    mark.begin(alloc);
    let (had, has) = cleared::<C>(number, &mut carrier);
    let refused = mark.end();
    let words = both_told(alloc, had, has);
    let records = records_told(alloc, &carrier.fields);
    got_told(alloc, true, words, records, refused)
}

// The extendee that the setting `extendee` names, the carrier or another message.
fn extendee_of(case: &Case<'_>) -> &'static str {
    if case.says_of("extendee") {
        "other.Message"
    } else {
        "test.Carrier"
    }
}

/// Whether there is an extension of an extendee.
pub fn is_there<C: ExtensionCodec>(
    alloc: Global,
    case: &Case<'_>,
    mark: &mut Mark,
) -> Result<Outcome, Fault> {
    let number = case.number()?;
    let extendee = extendee_of(case);
    let carrier = carrier_of(alloc, case)?;
    mark.begin(alloc);
    let has = has::<C>(number, extendee, &carrier);
    let refused = mark.end();
    let words = in_words(alloc, &has);
    let records = records_told(alloc, &carrier.fields);
    got_told(alloc, true, words, records, refused)
}
