// Pairs of codecs, by their names.

use crate::storages::{OnMap, stored};
use buffa_map::map_codec::{
    Bool, BytesBuf, BytesVec, Fixed32, Fixed64, Int32, ProtoBytesMap, ProtoStringMap, Sint32, Str,
    Uint32,
};
use conformance_rows::calls::StorageName;
use conformance_rows::case::Case;
use conformance_rows::fault::Fault;
use conformance_rows::mark::Mark;
use conformance_rows::outcome::Outcome;
use std::alloc::Global;

// A text of one's own.
type Own = ProtoStringMap<String>;

// Bytes of one's own.
type OwnBytes = ProtoBytesMap<Vec<u8>>;

// Pairs of types of one's own, of the two types of bytes, and of numbers of other forms.
fn of_own<By, O: OnMap<By>>(
    alloc: Global,
    case: &Case<'_>,
    storage: StorageName,
    mark: &mut Mark,
    call: O,
) -> Result<Option<Outcome>, Fault> {
    match case.types {
        "own-string,int32" => stored::<By, Own, Int32, O>(alloc, case, storage, mark, call),
        "int32,own-string" => stored::<By, Int32, Own, O>(alloc, case, storage, mark, call),
        "int32,own-bytes" => stored::<By, Int32, OwnBytes, O>(alloc, case, storage, mark, call),
        "own-string,own-bytes" => stored::<By, Own, OwnBytes, O>(alloc, case, storage, mark, call),
        "bytes,shared-bytes" => stored::<By, BytesVec, BytesBuf, O>(
            alloc, case, storage, mark, call,
        ),
        "shared-bytes,own-string" => stored::<By, BytesBuf, Own, O>(
            alloc, case, storage, mark, call,
        ),
        "own-bytes,bool" => stored::<By, OwnBytes, Bool, O>(alloc, case, storage, mark, call),
        "sint32,bool" => stored::<By, Sint32, Bool, O>(alloc, case, storage, mark, call),
        "fixed32,fixed64" => stored::<By, Fixed32, Fixed64, O>(alloc, case, storage, mark, call),
        _ => Err(Fault::Form),
    }
}

/// What comes of a row on pairs of numbers, texts and bytes.
pub fn pairs<By, O: OnMap<By>>(
    alloc: Global,
    case: &Case<'_>,
    storage: StorageName,
    mark: &mut Mark,
    call: O,
) -> Result<Option<Outcome>, Fault> {
    match case.types {
        "string,int32" => stored::<By, Str, Int32, O>(alloc, case, storage, mark, call),
        "int32,int32" => stored::<By, Int32, Int32, O>(alloc, case, storage, mark, call),
        "int32,bool" => stored::<By, Int32, Bool, O>(alloc, case, storage, mark, call),
        "int32,uint32" => stored::<By, Int32, Uint32, O>(alloc, case, storage, mark, call),
        "int32,string" => stored::<By, Int32, Str, O>(alloc, case, storage, mark, call),
        "int32,bytes" => stored::<By, Int32, BytesVec, O>(alloc, case, storage, mark, call),
        "int32,shared-bytes" => stored::<By, Int32, BytesBuf, O>(alloc, case, storage, mark, call),
        _ => of_own::<By, O>(alloc, case, storage, mark, call),
    }
}
