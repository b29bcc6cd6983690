// What the calls of rows are given, and what they leave.

use crate::tables::case::Case;
use crate::tables::words::is_one;

/// The name of a storage.
#[derive(Clone, Copy, PartialEq, Eq)]
pub enum StorageName {
    /// `BTreeMap`, in the order of keys.
    Ordered,
    /// `HashMap`, in any order.
    Hashed,
    /// `Map`, in the order in which keys came.
    Indexed,
}

/// What a call is given, and what it leaves.
#[derive(Clone, Copy)]
pub enum Group {
    /// It reads entries or records from a buffer into a map, which stands in any storage.
    MessageFields,
    /// It reads a field, an Item or a number from a buffer.
    Items,
    /// It reads a payload from a buffer, into a value or a message.
    Values,
    /// It reads records of a map of any proto types.
    AnyTypes,
    /// It writes a map, or puts a pair into it; the map stands in any storage.
    Writes,
    /// It writes the payload of a value, or measures it.
    Spelled,
    /// It is done with records.
    Records,
    /// It writes an Item.
    WrittenItem,
    /// It is done with a message, or a map of messages.
    Messages,
    /// It spells a value, or makes one of bytes or of nothing.
    Scalars,
    /// It is done with a value of an enum.
    Enums,
    /// It is done with a list of records, a cache of sizes, a context or a limit.
    Lists,
    /// It is done with an extension.
    Extensions,
}

// Whether a call is one of some, which stand with a space between them.
fn is_among(call: &str, calls: &str) -> bool {
    for one in calls.split(' ') {
        if is_one(one, call) {
            return true;
        }
    }
    false
}

/// The group of a call.
pub fn group_of(call: &str) -> Group {
    if is_among(call, "entry unlisted run rewrite") {
        Group::MessageFields
    } else if is_among(call, "item unknown skip varint decode copy tag") {
        Group::Items
    } else if is_among(call, "payload merge-delimited") {
        Group::Values
    } else if is_among(call, "field") {
        Group::AnyTypes
    } else if is_among(call, "write size size-and-write put") {
        Group::Writes
    } else if is_among(call, "spell-payload payload-len") {
        Group::Spelled
    } else if is_among(call, "records twice retain") {
        Group::Records
    } else if is_among(call, "write-item item-len") {
        Group::WrittenItem
    } else if is_among(call, "spell zigzag from-wire blank") {
        Group::Scalars
    } else if is_among(call, "normal number") {
        Group::Enums
    } else if is_among(
        call,
        "push append reserve write-records equal cache context limits",
    ) {
        Group::Lists
    } else if is_among(
        call,
        "merge merge-field encode message-size message-clear size-messages write-messages",
    ) {
        Group::Messages
    } else {
        Group::Extensions
    }
}

/// Whether a call reads from a buffer, however it lies.
pub fn reads_a_buffer(call: &str) -> bool {
    match group_of(call) {
        Group::MessageFields | Group::Items | Group::Values => true,
        _ => false,
    }
}

/// Whether a call reads records to the end of the bytes.
pub fn reads_to_the_end(call: &str) -> bool {
    is_among(call, "run rewrite field merge records")
}

/// Whether each beginning of what a call accepts is whole, or cut off.
pub fn reads_bytes(call: &str) -> bool {
    match group_of(call) {
        Group::MessageFields | Group::Items | Group::AnyTypes | Group::Values => true,
        _ => reads_to_the_end(call) || is_among(call, "merge-field"),
    }
}

/// Whether a call reads into a map, whose pairs stand after a refusal, or into a value, which then stands.
pub fn keeps_a_map(call: &str) -> bool {
    match group_of(call) {
        Group::MessageFields | Group::AnyTypes => true,
        _ => is_among(call, "put payload"),
    }
}

/// Whether a call is given the words of a value, and no bytes.
pub fn takes_words(call: &str) -> bool {
    match group_of(call) {
        Group::Scalars | Group::Enums | Group::Lists => true,
        Group::Extensions | Group::Spelled => true,
        _ => is_among(call, "put"),
    }
}

/// Whether a row is run in a storage: those of the setting `in`, or any for maps, and one for all else.
pub fn is_run_in(case: &Case<'_>, storage: StorageName) -> bool {
    let name = match storage {
        StorageName::Ordered => "ordered",
        StorageName::Hashed => "hashed",
        StorageName::Indexed => "indexed",
    };
    if let Some(names) = case.setting("in") {
        return names.contains(name);
    }
    match group_of(case.call) {
        Group::MessageFields | Group::Writes => true,
        _ => storage == StorageName::Indexed,
    }
}
