// Calls on extensions: those whose values are samples too.

use crate::back::{Back, Kept};
use buffa_ext::codecs::EnumCodec;
use buffa_ext::message_record::{Delimited, Grouped};
use buffa_wire::EnumValue;
use conformance_extensions::{message as of_message, packable};
use conformance_rows::case::Case;
use conformance_rows::fault::Fault;
use conformance_rows::mark::Mark;
use conformance_rows::outcome::Outcome;
use conformance_samples::Samples;
use sample_types::count::CountMsg;
use sample_types::flat::FlatMsg;
use sample_types::hues::Old;
use sample_types::keep::BudgetMsg;
use sample_types::two::TestMsg;
use std::alloc::Global;

/// What comes of a row on an extension.
pub fn extension(alloc: Global, case: &Case<'_>, mark: &mut Mark) -> Result<Outcome, Fault> {
    match case.types {
        "enum" => packable::<Samples, EnumValue<Old>, EnumCodec<Old>>(alloc, case, mark),
        "flat" => of_message::<Samples, Back, FlatMsg, Delimited>(alloc, case, mark),
        "two" => of_message::<Samples, Back, TestMsg, Delimited>(alloc, case, mark),
        "count" => of_message::<Samples, Back, CountMsg, Delimited>(alloc, case, mark),
        "keep" => of_message::<Samples, Kept<()>, BudgetMsg, Delimited>(alloc, case, mark),
        "two-group" => of_message::<Samples, Back, TestMsg, Grouped>(alloc, case, mark),
        "count-group" => of_message::<Samples, Back, CountMsg, Grouped>(alloc, case, mark),
        "keep-group" => of_message::<Samples, Kept<()>, BudgetMsg, Grouped>(alloc, case, mark),
        _ => conformance_extensions::extension::<Samples>(alloc, case, mark),
    }
}
