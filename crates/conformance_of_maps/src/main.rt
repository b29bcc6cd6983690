// Runs the rows of tables on map fields, and on payloads of values that are no messages.
#![tactic(auto)]

mod any_map;
mod any_types;
mod by_function;
mod codecs;
mod entries;
mod fields;
mod payloads;
mod reads;
mod sizes;
mod storages;
mod store;

use any_types::fields_of_any_types;
use conformance_rows::any_buf::AnyBuf;
use conformance_rows::calls::{Group, StorageName, group_of};
use conformance_rows::case::Case;
use conformance_rows::fault::Fault;
use conformance_rows::mark::Mark;
use conformance_rows::outcome::Outcome;
use conformance_rows::runs::{Calls, run_rows};
use conformance_samples::{Read, Samples, Spelled};
use fields::{read_fields, write_fields};
use payloads::payload_rows;
use std::alloc::Global;
use std::process::ExitCode;

// The calls on map fields and payloads.
struct MapFields;

// A row that is run in one storage alone.
fn some(found: Result<Outcome, Fault>) -> Result<Option<Outcome>, Fault> {
    Ok(Some(found?))
}

impl Calls for MapFields {
    fn read(
        alloc: Global,
        case: &Case<'_>,
        storage: StorageName,
        mark: &mut Mark,
        buf: &mut AnyBuf<'_>,
    ) -> Result<Option<Outcome>, Fault> {
        match group_of(case.call) {
            Group::MessageFields => read_fields(alloc, case, storage, mark, buf),
            Group::Values => some(payload_rows(alloc, case, mark, Read { buf })),
            _ => Ok(None),
        }
    }

    fn called(
        alloc: Global,
        case: &Case<'_>,
        storage: StorageName,
        mark: &mut Mark,
        bytes: &[u8],
    ) -> Result<Option<Outcome>, Fault> {
        match group_of(case.call) {
            Group::AnyTypes => some(fields_of_any_types::<Samples>(alloc, case, mark, bytes)),
            Group::Writes => write_fields(alloc, case, storage, mark),
            Group::Spelled => some(payload_rows(alloc, case, mark, Spelled)),
            _ => Ok(None),
        }
    }
}

fn main(rt: HostRuntime) -> ExitCode {
    run_rows::<MapFields>(&rt)
}
