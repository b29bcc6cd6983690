// A buffer of any kind, so that each call is made of one type.

ghost use Rattle.conformance_rows.specs.Buffers.{bytes_left};

use buffa_wire::{Buf, Pieces};
use bytes::Bytes;

/// A slice, shared bytes, or slices that are read one after another.
#[derive(Drop)]
pub enum AnyBuf<'a> {
    /// Bytes that lie together.
    Slice(&'a [u8]),
    /// Bytes that are shared.
    Shared(Bytes),
    /// Bytes that are cut.
    Cut(Pieces<'a>),
}

impl Buf for AnyBuf<'_> {
    ghost unread = { bytes_left };

    fn remaining(&self) -> usize {
        match self {
            AnyBuf::Slice(bytes) => bytes.len(),
            AnyBuf::Shared(bytes) => bytes.remaining(),
            AnyBuf::Cut(pieces) => pieces.remaining(),
        }
    }

    fn chunk(&self) -> &[u8] {
        match self {
            AnyBuf::Slice(bytes) => bytes.chunk(),
            AnyBuf::Shared(bytes) => bytes.chunk(),
            AnyBuf::Cut(pieces) => pieces.chunk(),
        }
    }

    fn advance(&mut self, n: usize) {
        match self {
            AnyBuf::Slice(bytes) => bytes.advance(n),
            AnyBuf::Shared(bytes) => bytes.advance(n),
            AnyBuf::Cut(pieces) => pieces.advance(n),
        }
    }
}
