//! Buffers and sinks of the crate `bytes`.

ghost use Rattle.std.specs.Prelude.{◌≡◌, ◌∷◌, [], OnErr};
ghost use Rattle.buffa_bytes.specs.Adapted.{kept_beyond};
ghost use Rattle.buffa_bytes.specs.Written.{UsesRoom, Writes};

use crate::buf::Buf;
use crate::error::EncodeError;
use crate::sink::EncodeSink;
use bytes::BytesMut;
use std::alloc::Allocator;

/// Any buffer of the crate `bytes` as a [`Buf`]: a `Chain`, a `Take`, a `Cursor`, a `BytesMut`, a `&mut` of one.
///
/// What is unread is what the buffer has left, and chunks are those that it shows. What no read changes of it, as
/// the bytes past the limit of a `Take`, is part of what every contract over a [`Buf`] keeps (`beyond`). The field
/// is the buffer, whose unread bytes begin where reading stopped.
///
/// ```ignore
/// let mut both = Adapted(front.chain(back)); // two `Bytes`, an entry cut anywhere
/// merge_entry::<Str, Int32, _, _>(alloc, counts, &mut both, ctx)?;
/// let (front, back) = both.0.into_inner();
/// ```
#[derive(Drop)]
pub struct Adapted<B>(pub B);

impl<B: bytes::Buf> Buf for Adapted<B> {
    ghost unread = { λ s. B.unread s.0 };

    ghost beyond = { λ s. kept_beyond (B.kept s.0) };

    fn remaining(&self) -> usize {
        self.0.remaining()
    }

    #[tactic(auto, using(crate::proofs::AdaptedLemmas::own_chunk))]
    fn chunk(&self) -> &[u8] {
        self.0.chunk()
    }

    fn advance(&mut self, n: usize) {
        self.0.advance(n);
    }
}

impl<A: Allocator + Copy> EncodeSink for BytesMut<A> {
    ghost written = { λ b. b.items };

    ghost room = { λ b. b.spare };

    /// Appends `b` behind the bytes that are there, or leaves these as they were where memory runs out.
    fn put_slice(&mut self, b: &[u8]) -> Result<(), EncodeError>
        ensures writes { Writes result self.old.items b.now self.new.items }
        ensures room { UsesRoom result self.old.spare b.now self.new.spare }
        ensures err { OnErr result (self.new.items ≡ self.old.items) }
    {
        self.extend_from_slice(b)
            .map_err(|_| EncodeError::OutOfMemory)
    }

    /// Appends one byte, or leaves the bytes that are there as they were where memory runs out.
    fn put_byte(&mut self, byte: u8) -> Result<(), EncodeError>
        ensures writes { Writes result self.old.items (byte ∷ []) self.new.items }
        ensures room { UsesRoom result self.old.spare (byte ∷ []) self.new.spare }
        ensures err { OnErr result (self.new.items ≡ self.old.items) }
    {
        self.put_slice(&[byte])
    }
}
