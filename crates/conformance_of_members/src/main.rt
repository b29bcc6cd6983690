// Runs the rows of tables on messages from their fields.
#![tactic(auto)]

mod all_scalars;
mod members;

use all_scalars::{is_of_all_scalars, on_all_scalars};
use conformance_rows::any_buf::AnyBuf;
use conformance_rows::calls::{Group, StorageName, group_of};
use conformance_rows::case::Case;
use conformance_rows::fault::Fault;
use conformance_rows::mark::Mark;
use conformance_rows::outcome::Outcome;
use conformance_rows::runs::{Calls, run_rows};
use members::on_members;
use std::alloc::Global;
use std::process::ExitCode;

// The calls on messages from their fields.
struct FromFields;

impl Calls for FromFields {
    fn read(
        _alloc: Global,
        _case: &Case<'_>,
        _storage: StorageName,
        _mark: &mut Mark,
        _buf: &mut AnyBuf<'_>,
    ) -> Result<Option<Outcome>, Fault> {
        Ok(None)
    }

    fn called(
        alloc: Global,
        case: &Case<'_>,
        storage: StorageName,
        mark: &mut Mark,
        bytes: &[u8],
    ) -> Result<Option<Outcome>, Fault> {
        match group_of(case.call) {
            Group::Messages if is_of_all_scalars(case.types) => {
                Ok(Some(on_all_scalars(alloc, case, storage, mark, bytes)?))
            }
            Group::Messages => Ok(Some(on_members(alloc, case, storage, mark, bytes)?)),
            _ => Ok(None),
        }
    }
}

fn main(rt: HostRuntime) -> ExitCode {
    run_rows::<FromFields>(&rt)
}
