// Rows on nodes and MessageSets, of which it is told what stands after a refusal too.

mod merges;
mod sets;
mod words;

use crate::nodes::merges::merge;
use crate::nodes::sets::extension;
use buffa_map::map_codec::Msg;
use buffa_wire::{Buf, Message};
use conformance_messages::{delimited, message};
use conformance_rows::calls::StorageName;
use conformance_rows::case::Case;
use conformance_rows::fault::Fault;
use conformance_rows::mark::Mark;
use conformance_rows::outcome::Outcome;
use conformance_rows::words::Worded;
use conformance_samples::payload;
use sample_node::node::Node;
use sample_set_msg::SetMsg;
use std::alloc::Global;

/// The words of nodes and MessageSets.
pub struct Nodes;

/// Whether a row is on a node, a MessageSet, or an extension of a MessageSet.
pub fn has_node_or_set(case: &Case<'_>) -> bool {
    case.types == "node" || case.types == "set" || case.types.starts_with("set,")
}

// What comes of a row on a message.
fn of_message<M: Message + Worded<Nodes>>(
    alloc: Global,
    case: &Case<'_>,
    storage: StorageName,
    mark: &mut Mark,
    bytes: &[u8],
) -> Result<Outcome, Fault> {
    match case.call {
        "merge" | "merge-field" => merge::<M>(alloc, case, mark, bytes),
        _ => message::<Nodes, M>(alloc, case, storage, mark, bytes),
    }
}

/// What comes of a row on a message, or on an extension of one.
pub fn on_nodes(
    alloc: Global,
    case: &Case<'_>,
    storage: StorageName,
    mark: &mut Mark,
    bytes: &[u8],
) -> Result<Outcome, Fault> {
    match case.types {
        "node" => of_message::<Node>(alloc, case, storage, mark, bytes),
        "set" => of_message::<SetMsg>(alloc, case, storage, mark, bytes),
        _ => extension(alloc, case, mark),
    }
}

/// What comes of a row that reads a payload from a buffer: a length, and so many bytes of a message.
pub fn node_payloads<B: Buf>(
    alloc: Global,
    case: &Case<'_>,
    mark: &mut Mark,
    buf: &mut B,
) -> Result<Outcome, Fault> {
    match (case.call, case.types) {
        ("merge-delimited", "node") => delimited::<Nodes, Node, B>(alloc, case, mark, buf),
        ("merge-delimited", _) => delimited::<Nodes, SetMsg, B>(alloc, case, mark, buf),
        (_, "node") => payload::<Nodes, Msg<Node>, B>(alloc, case, mark, buf, true),
        _ => payload::<Nodes, Msg<SetMsg>, B>(alloc, case, mark, buf, true),
    }
}
