// Payloads of values that are no messages: those of enums and words too.

use buffa_map::map_codec::{ClosedEnum, OpenEnum, ProtoStringMap};
use conformance_rows::case::Case;
use conformance_rows::fault::Fault;
use conformance_rows::mark::Mark;
use conformance_rows::outcome::Outcome;
use conformance_samples::{OnCodec, Samples};
use sample_types::hues::{New, Old};
use sample_types::word::Word;
use std::alloc::Global;

/// What comes of a row on the payload of a value.
pub fn payload_rows<O: OnCodec<Samples>>(
    alloc: Global,
    case: &Case<'_>,
    mark: &mut Mark,
    call: O,
) -> Result<Outcome, Fault> {
    match case.types {
        "old" => call.on_codec::<ClosedEnum<Old>>(alloc, case, mark),
        "new" => call.on_codec::<ClosedEnum<New>>(alloc, case, mark),
        "open" => call.on_codec::<OpenEnum<Old>>(alloc, case, mark),
        "word" => call.on_codec::<ProtoStringMap<Word>>(alloc, case, mark),
        _ => conformance_samples::payloads::<Samples, O>(alloc, case, mark, call),
    }
}
