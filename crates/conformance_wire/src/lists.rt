// Rows on lists of unknown fields, caches of sizes, contexts and limits.

mod cache;
mod context;
mod limits;
mod list;

use conformance_rows::case::Case;
use conformance_rows::fault::Fault;
use conformance_rows::mark::Mark;
use conformance_rows::outcome::Outcome;
use std::alloc::Global;

/// What comes of a row on a list, a cache, a context or a limit.
pub fn on_lists(alloc: Global, case: &Case<'_>, mark: &mut Mark) -> Result<Outcome, Fault> {
    match case.call {
        "push" => list::pushed(alloc, case, mark),
        "append" => list::appended(alloc, case, mark),
        "reserve" => list::reserved(alloc, case, mark),
        "write-records" => list::text(alloc, case, mark),
        "equal" => list::equal(alloc, case, mark),
        "cache" => cache::cache(alloc, case, mark),
        "context" => context::context(alloc, case, mark),
        "limits" => limits::limits(alloc, case, mark),
        _ => Err(Fault::Form),
    }
}
