// Values of an enum and their numbers.

use buffa_wire::EnumValue;
use conformance_rows::case::Case;
use conformance_rows::fault::Fault;
use conformance_rows::mark::Mark;
use conformance_rows::outcome::{Outcome, got, two_in_words};
use conformance_rows::words::Worded;
use conformance_samples::Samples;
use sample_types::hues::Old;
use std::alloc::Global;

// A value as it is read.
fn normal(alloc: Global, case: &Case<'_>, mark: &mut Mark) -> Result<Outcome, Fault> {
    let value: EnumValue<Old> = Worded::<Samples>::of_word(alloc, case.input())?;
    mark.begin(alloc);
    let value = value.normal();
    let refused = mark.end();
    let words = Worded::<Samples>::word(&value, alloc);
    let none = Ok(String::new(alloc));
    Outcome::of_words(alloc, got(alloc, true), words, none, refused)
}

// The value of a number, and its number.
fn number(alloc: Global, case: &Case<'_>, mark: &mut Mark) -> Result<Outcome, Fault> {
    let number = case.input().parse::<i32>()?;
    mark.begin(alloc);
    let value = EnumValue::<Old>::from_i32(number);
    let number = value.to_i32();
    let refused = mark.end();
    let word = Worded::<Samples>::word(&value, alloc)?;
    let words = two_in_words(alloc, &word, &number);
    let none = Ok(String::new(alloc));
    Outcome::of_words(alloc, got(alloc, true), words, none, refused)
}

/// What comes of a row on a value of an enum.
pub fn on_enums(alloc: Global, case: &Case<'_>, mark: &mut Mark) -> Result<Outcome, Fault> {
    match case.call {
        "normal" => normal(alloc, case, mark),
        "number" => number(alloc, case, mark),
        _ => Err(Fault::Form),
    }
}
