// What does the calls of rows, however their bytes lie.

use crate::tables::calls::StorageName;
use crate::tables::case::Case;
use crate::tables::fault::Fault;
use crate::tables::mark::Mark;
use crate::tables::outcome::Outcome;
use bytes::Bytes;
use std::alloc::Global;

/// What does the calls of the rows that a program knows; of any other row it makes a fault.
pub trait CallsOnBytes {
    /// What comes of a row that reads bytes which lie together; none where its types don't go into this storage.
    fn slice(
        alloc: Global,
        case: &Case<'_>,
        storage: StorageName,
        mark: &mut Mark,
        bytes: &[u8],
    ) -> Result<Option<Outcome>, Fault>;

    /// The same of bytes that are shared.
    fn shared(
        alloc: Global,
        case: &Case<'_>,
        storage: StorageName,
        mark: &mut Mark,
        bytes: Bytes,
    ) -> Result<Option<Outcome>, Fault>;

    /// The same of bytes that are cut into pieces.
    fn pieces(
        alloc: Global,
        case: &Case<'_>,
        storage: StorageName,
        mark: &mut Mark,
        pieces: &[&[u8]],
    ) -> Result<Option<Outcome>, Fault>;

    /// What comes of a row that reads from no buffer.
    fn called(
        alloc: Global,
        case: &Case<'_>,
        storage: StorageName,
        mark: &mut Mark,
        bytes: &[u8],
    ) -> Result<Option<Outcome>, Fault>;

    /// Whether bytes are records, each of them whole.
    fn are_records(alloc: Global, bytes: &[u8]) -> bool;
}
