// Calls on samples that are messages.

use buffa_map::map_codec::Msg;
use buffa_wire::{Buf, Message};
use conformance_messages::delimited;
use conformance_rows::calls::StorageName;
use conformance_rows::case::Case;
use conformance_rows::fault::Fault;
use conformance_rows::mark::Mark;
use conformance_rows::outcome::Outcome;
use conformance_rows::words::Worded;
use conformance_samples::{Samples, payload};
use sample_types::count::CountMsg;
use sample_types::flat::FlatMsg;
use sample_types::keep::BudgetMsg;
use sample_types::tree::Tree;
use sample_types::two::TestMsg;
use std::alloc::Global;

// A length and so many bytes: merged into a message, or read as the payload of a value that is one.
fn inside<M: Message + Worded<Samples>, B: Buf>(
    alloc: Global,
    case: &Case<'_>,
    mark: &mut Mark,
    buf: &mut B,
) -> Result<Outcome, Fault> {
    if case.call == "merge-delimited" {
        return delimited::<Samples, M, B>(alloc, case, mark, buf);
    }
    payload::<Samples, Msg<M>, B>(alloc, case, mark, buf, true)
}

/// What comes of a row that reads a payload from a buffer.
pub fn values<B: Buf>(
    alloc: Global,
    case: &Case<'_>,
    mark: &mut Mark,
    buf: &mut B,
) -> Result<Outcome, Fault> {
    match case.types {
        "flat" => inside::<FlatMsg, B>(alloc, case, mark, buf),
        "two" => inside::<TestMsg, B>(alloc, case, mark, buf),
        "count" => inside::<CountMsg, B>(alloc, case, mark, buf),
        "keep" => inside::<BudgetMsg, B>(alloc, case, mark, buf),
        "tree" => inside::<Tree, B>(alloc, case, mark, buf),
        _ => Err(Fault::Form),
    }
}

/// What comes of a row on a message, or on a map of them.
pub fn message(
    alloc: Global,
    case: &Case<'_>,
    storage: StorageName,
    mark: &mut Mark,
    bytes: &[u8],
) -> Result<Outcome, Fault> {
    match case.types {
        "flat" => conformance_messages::message::<Samples, FlatMsg>(
            alloc, case, storage, mark, bytes,
        ),
        "two" => conformance_messages::message::<Samples, TestMsg>(
            alloc, case, storage, mark, bytes,
        ),
        "count" => conformance_messages::message::<Samples, CountMsg>(
            alloc, case, storage, mark, bytes,
        ),
        "keep" => conformance_messages::message::<Samples, BudgetMsg>(
            alloc, case, storage, mark, bytes,
        ),
        "tree" => conformance_messages::message::<Samples, Tree>(alloc, case, storage, mark, bytes),
        _ => Err(Fault::Form),
    }
}
