// Rows on messages of all scalars, of which it is judged what stands after a refusal too.

mod words;

use conformance_messages::parted;
use conformance_rows::calls::StorageName;
use conformance_rows::case::Case;
use conformance_rows::fault::Fault;
use conformance_rows::mark::Mark;
use conformance_rows::outcome::Outcome;
use sample_members::explicit::Explicit;
use sample_members::implicit::Implicit;
use sample_members::joined::Joined;
use sample_members::separate::Separate;
use std::alloc::Global;

/// The words of messages of all scalars.
pub struct AllScalars;

/// Whether a type is a message of all scalars.
pub fn is_of_all_scalars(types: &str) -> bool {
    match types {
        "explicit" | "implicit" | "joined" | "separate" => true,
        _ => false,
    }
}

/// What comes of a row on a message of all scalars, or on a map of them.
pub fn on_all_scalars(
    alloc: Global,
    case: &Case<'_>,
    storage: StorageName,
    mark: &mut Mark,
    bytes: &[u8],
) -> Result<Outcome, Fault> {
    match case.types {
        "explicit" => parted::<AllScalars, Explicit>(alloc, case, storage, mark, bytes),
        "implicit" => parted::<AllScalars, Implicit>(alloc, case, storage, mark, bytes),
        "joined" => parted::<AllScalars, Joined>(alloc, case, storage, mark, bytes),
        "separate" => parted::<AllScalars, Separate>(alloc, case, storage, mark, bytes),
        _ => Err(Fault::Form),
    }
}
