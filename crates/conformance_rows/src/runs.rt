// Rows whose calls read from buffers of any kind.

use crate::any_buf::AnyBuf;
use crate::cuts::pieces_of;
use crate::tables::calls::StorageName;
use crate::tables::case::Case;
use crate::tables::fault::Fault;
use crate::tables::mark::Mark;
use crate::tables::on_bytes::CallsOnBytes;
use crate::tables::outcome::Outcome;
use crate::tables::runs;
use buffa_wire::UnknownFields;
use bytes::Bytes;
use std::alloc::Global;
use std::marker::PhantomData;
use std::process::ExitCode;

/// What does the calls of the rows that a program knows; of any other row it makes a fault.
pub trait Calls {
    /// What comes of a row that reads from a buffer; none where its types don't go into this storage.
    fn read(
        alloc: Global,
        case: &Case<'_>,
        storage: StorageName,
        mark: &mut Mark,
        buf: &mut AnyBuf<'_>,
    ) -> Result<Option<Outcome>, Fault>;

    /// What comes of a row that reads from no buffer.
    fn called(
        alloc: Global,
        case: &Case<'_>,
        storage: StorageName,
        mark: &mut Mark,
        bytes: &[u8],
    ) -> Result<Option<Outcome>, Fault>;
}

// The same, of bytes that are put into a buffer.
struct InBuffers<C>(PhantomData<C>);

impl<C: Calls> CallsOnBytes for InBuffers<C> {
    fn slice(
        alloc: Global,
        case: &Case<'_>,
        storage: StorageName,
        mark: &mut Mark,
        bytes: &[u8],
    ) -> Result<Option<Outcome>, Fault> {
        let mut buf = AnyBuf::Slice(bytes);
        C::read(alloc, case, storage, mark, &mut buf)
    }

    fn shared(
        alloc: Global,
        case: &Case<'_>,
        storage: StorageName,
        mark: &mut Mark,
        bytes: Bytes,
    ) -> Result<Option<Outcome>, Fault> {
        let mut buf = AnyBuf::Shared(bytes);
        C::read(alloc, case, storage, mark, &mut buf)
    }

    fn pieces(
        alloc: Global,
        case: &Case<'_>,
        storage: StorageName,
        mark: &mut Mark,
        pieces: &[&[u8]],
    ) -> Result<Option<Outcome>, Fault> {
        match pieces_of(pieces) {
            None => Err(Fault::Form),
            Some(pieces) => {
                let mut buf = AnyBuf::Cut(pieces);
                C::read(alloc, case, storage, mark, &mut buf)
            }
        }
    }

    fn called(
        alloc: Global,
        case: &Case<'_>,
        storage: StorageName,
        mark: &mut Mark,
        bytes: &[u8],
    ) -> Result<Option<Outcome>, Fault> {
        C::called(alloc, case, storage, mark, bytes)
    }

    fn are_records(alloc: Global, bytes: &[u8]) -> bool {
        UnknownFields::decode_from_slice(alloc, bytes).is_ok()
    }
}

/// Runs the rows of standard input, and tells which of them don't hold.
pub fn run_rows<C: Calls>(rt: &HostRuntime) -> ExitCode {
    runs::run_rows::<InBuffers<C>>(rt)
}
