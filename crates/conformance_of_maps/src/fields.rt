// Map fields: those of samples too.

use crate::by_function::ByFunction;
use crate::codecs::pairs;
use crate::entries::{Entries, Runs};
use crate::sizes::Written;
use crate::storages::{OnMap, OnMessages, hashed, ordered, stored, stored_messages};
use buffa_map::map_codec::{ClosedEnum, Int32, OpenEnum, ProtoStringMap, Str};
use buffa_wire::Buf;
use conformance_rows::calls::StorageName;
use conformance_rows::case::Case;
use conformance_rows::fault::Fault;
use conformance_rows::mark::Mark;
use conformance_rows::outcome::Outcome;
use conformance_samples::Samples;
use sample_types::count::CountMsg;
use sample_types::flat::FlatMsg;
use sample_types::hues::{New, Old};
use sample_types::keep::BudgetMsg;
use sample_types::tree::Tree;
use sample_types::two::TestMsg;
use sample_types::word::Word;
use std::alloc::Global;

// A key that compares without regard to case.
type Words = ProtoStringMap<Word>;

// A row on messages.
fn messages<O: OnMessages<Samples>>(
    alloc: Global,
    case: &Case<'_>,
    storage: StorageName,
    mark: &mut Mark,
    call: O,
) -> Result<Option<Outcome>, Fault> {
    match case.types {
        "int32,flat" => stored_messages::<Samples, Int32, FlatMsg, O>(
            alloc, case, storage, mark, call,
        ),
        "int32,two" => stored_messages::<Samples, Int32, TestMsg, O>(
            alloc, case, storage, mark, call,
        ),
        "int32,count" => stored_messages::<Samples, Int32, CountMsg, O>(
            alloc, case, storage, mark, call,
        ),
        "int32,keep" => stored_messages::<Samples, Int32, BudgetMsg, O>(
            alloc, case, storage, mark, call,
        ),
        "int32,tree" => stored_messages::<Samples, Int32, Tree, O>(
            alloc, case, storage, mark, call,
        ),
        "string,keep" => stored_messages::<Samples, Str, BudgetMsg, O>(
            alloc, case, storage, mark, call,
        ),
        _ => Err(Fault::Form),
    }
}

// A row on pairs that are no messages; none where its types don't go into the storage.
fn plain<O: OnMap<Samples>>(
    alloc: Global,
    case: &Case<'_>,
    storage: StorageName,
    mark: &mut Mark,
    call: O,
) -> Result<Option<Outcome>, Fault> {
    match case.types {
        "int32,old" => stored::<Samples, Int32, ClosedEnum<Old>, O>(
            alloc, case, storage, mark, call,
        ),
        "int32,new" => stored::<Samples, Int32, ClosedEnum<New>, O>(
            alloc, case, storage, mark, call,
        ),
        "int32,open" => stored::<Samples, Int32, OpenEnum<Old>, O>(
            alloc, case, storage, mark, call,
        ),
        "string,old" => stored::<Samples, Str, ClosedEnum<Old>, O>(
            alloc, case, storage, mark, call,
        ),
        "int32,word" => stored::<Samples, Int32, Words, O>(alloc, case, storage, mark, call),
        "word,int32" => hashed::<Samples, Words, Int32, O>(alloc, case, storage, mark, call),
        "word,old" => hashed::<Samples, Words, ClosedEnum<Old>, O>(
            alloc, case, storage, mark, call,
        ),
        "word,new" => hashed::<Samples, Words, ClosedEnum<New>, O>(
            alloc, case, storage, mark, call,
        ),
        "old,int32" => ordered::<Samples, ClosedEnum<Old>, Int32, O>(
            alloc, case, storage, mark, call,
        ),
        _ => pairs::<Samples, O>(alloc, case, storage, mark, call),
    }
}

// Whether the values are messages.
fn has_messages(types: &str) -> bool {
    match types {
        "int32,flat" | "int32,two" | "int32,count" => true,
        "int32,keep" | "int32,tree" | "string,keep" => true,
        _ => false,
    }
}

/// What comes of a row that reads entries or a run into this storage; none where its types don't go there.
pub fn read_fields<B: Buf>(
    alloc: Global,
    case: &Case<'_>,
    storage: StorageName,
    mark: &mut Mark,
    buf: &mut B,
) -> Result<Option<Outcome>, Fault> {
    if case.says("by", "functions") {
        return messages(alloc, case, storage, mark, ByFunction { buf });
    }
    if has_messages(case.types) {
        return messages(alloc, case, storage, mark, Runs { buf });
    }
    plain(alloc, case, storage, mark, Entries { buf })
}

/// What comes of a row that sizes or writes a map in this storage; none where its types don't go there.
pub fn write_fields(
    alloc: Global,
    case: &Case<'_>,
    storage: StorageName,
    mark: &mut Mark,
) -> Result<Option<Outcome>, Fault> {
    plain(alloc, case, storage, mark, Written)
}
