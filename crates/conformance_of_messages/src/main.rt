// Runs the rows of tables on messages, nodes and MessageSets.
#![tactic(auto)]

mod nodes;
mod samples;

use conformance_rows::any_buf::AnyBuf;
use conformance_rows::calls::{Group, StorageName, group_of};
use conformance_rows::case::Case;
use conformance_rows::fault::Fault;
use conformance_rows::mark::Mark;
use conformance_rows::outcome::Outcome;
use conformance_rows::runs::{Calls, run_rows};
use nodes::{has_node_or_set, node_payloads, on_nodes};
use samples::{message, values};
use std::alloc::Global;
use std::process::ExitCode;

// The calls on messages.
struct Messages;

// A row that is run in one storage alone.
fn some(found: Result<Outcome, Fault>) -> Result<Option<Outcome>, Fault> {
    Ok(Some(found?))
}

impl Calls for Messages {
    fn read(
        alloc: Global,
        case: &Case<'_>,
        _storage: StorageName,
        mark: &mut Mark,
        buf: &mut AnyBuf<'_>,
    ) -> Result<Option<Outcome>, Fault> {
        match group_of(case.call) {
            Group::Values if has_node_or_set(case) => some(node_payloads(alloc, case, mark, buf)),
            Group::Values => some(values(alloc, case, mark, buf)),
            _ => Ok(None),
        }
    }

    fn called(
        alloc: Global,
        case: &Case<'_>,
        storage: StorageName,
        mark: &mut Mark,
        bytes: &[u8],
    ) -> Result<Option<Outcome>, Fault> {
        match group_of(case.call) {
            _ if has_node_or_set(case) => some(on_nodes(alloc, case, storage, mark, bytes)),
            Group::Messages => some(message(alloc, case, storage, mark, bytes)),
            _ => Ok(None),
        }
    }
}

fn main(rt: HostRuntime) -> ExitCode {
    run_rows::<Messages>(&rt)
}
