// Calls on scalars, strings, bytes and tags, and on defaults: those of samples too.

use buffa_wire::{Buf, EnumValue};
use conformance_rows::case::Case;
use conformance_rows::fault::Fault;
use conformance_rows::mark::Mark;
use conformance_rows::outcome::Outcome;
use conformance_samples::Samples;
use conformance_wire::scalars::payload::{blank, decode, spell};
use conformance_wire::scalars::texts::{OwnString, own_string};
use sample_types::count::CountMsg;
use sample_types::flat::FlatMsg;
use sample_types::hues::{New, Old};
use sample_types::keep::BudgetMsg;
use sample_types::tree::Tree;
use sample_types::two::TestMsg;
use sample_types::word::Word;
use std::alloc::Global;

/// What comes of a row that reads a scalar, a string, bytes or a tag.
pub fn scalar<B: Buf>(
    alloc: Global,
    case: &Case<'_>,
    mark: &mut Mark,
    buf: &mut B,
) -> Result<Outcome, Fault> {
    match (case.call, case.types) {
        ("decode", "word") => decode::<Samples, OwnString<Word>, B>(alloc, case, mark, buf),
        _ => conformance_wire::scalars::from_buffer::<Samples, B>(alloc, case, mark, buf),
    }
}

// The default of a sample, or of a number, a string or bytes.
fn blank_of(alloc: Global, case: &Case<'_>, mark: &mut Mark) -> Result<Outcome, Fault> {
    match case.types {
        "word" => blank::<Samples, Word>(alloc, mark),
        "old" => blank::<Samples, Old>(alloc, mark),
        "new" => blank::<Samples, New>(alloc, mark),
        "open" => blank::<Samples, EnumValue<Old>>(alloc, mark),
        "flat" => blank::<Samples, FlatMsg>(alloc, mark),
        "two" => blank::<Samples, TestMsg>(alloc, mark),
        "count" => blank::<Samples, CountMsg>(alloc, mark),
        "keep" => blank::<Samples, BudgetMsg>(alloc, mark),
        "tree" => blank::<Samples, Tree>(alloc, mark),
        _ => conformance_wire::scalars::from_words::<Samples>(alloc, case, mark),
    }
}

/// What comes of a row that spells a value, or makes one of bytes or of nothing.
pub fn scalar_of_words(alloc: Global, case: &Case<'_>, mark: &mut Mark) -> Result<Outcome, Fault> {
    match (case.call, case.types) {
        ("blank", _) => blank_of(alloc, case, mark),
        ("from-wire", "word") => own_string::<Samples, Word>(alloc, case, mark),
        ("spell", "word") => spell::<Samples, OwnString<Word>>(alloc, case, mark),
        _ => conformance_wire::scalars::from_words::<Samples>(alloc, case, mark),
    }
}
