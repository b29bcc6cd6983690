// Runs the rows of tables on scalars, records, Items and extensions.
#![tactic(auto)]

mod back;
mod enums;
mod extensions;
mod items;
mod scalars;

use conformance_rows::any_buf::AnyBuf;
use conformance_rows::calls::{Group, StorageName, group_of};
use conformance_rows::case::Case;
use conformance_rows::fault::Fault;
use conformance_rows::mark::Mark;
use conformance_rows::outcome::Outcome;
use conformance_rows::runs::{Calls, run_rows};
use conformance_wire::lists::on_lists;
use conformance_wire::records::{fields_and_numbers, on_records};
use enums::on_enums;
use extensions::extension;
use items::{item, write_an_item};
use scalars::{scalar, scalar_of_words};
use std::alloc::Global;
use std::process::ExitCode;

// The calls on scalars, records, Items and extensions.
struct Values;

// A row that is run in one storage alone.
fn some(found: Result<Outcome, Fault>) -> Result<Option<Outcome>, Fault> {
    Ok(Some(found?))
}

impl Calls for Values {
    fn read(
        alloc: Global,
        case: &Case<'_>,
        _storage: StorageName,
        mark: &mut Mark,
        buf: &mut AnyBuf<'_>,
    ) -> Result<Option<Outcome>, Fault> {
        match (group_of(case.call), case.call) {
            (Group::Items, "item") => some(item(alloc, case, mark, buf)),
            (Group::Items, "decode" | "copy" | "tag") => some(scalar(alloc, case, mark, buf)),
            (Group::Items, _) => some(fields_and_numbers(alloc, case, mark, buf)),
            _ => Ok(None),
        }
    }

    fn called(
        alloc: Global,
        case: &Case<'_>,
        _storage: StorageName,
        mark: &mut Mark,
        bytes: &[u8],
    ) -> Result<Option<Outcome>, Fault> {
        match group_of(case.call) {
            Group::Records => some(on_records(alloc, case, mark, bytes)),
            Group::WrittenItem => some(write_an_item(alloc, case, mark, bytes)),
            Group::Scalars => some(scalar_of_words(alloc, case, mark)),
            Group::Enums => some(on_enums(alloc, case, mark)),
            Group::Lists => some(on_lists(alloc, case, mark)),
            Group::Extensions => some(extension(alloc, case, mark)),
            _ => Ok(None),
        }
    }
}

fn main(rt: HostRuntime) -> ExitCode {
    run_rows::<Values>(&rt)
}
