//! Bytes in: reading from the front of a buffer.

ghost use Rattle.std.specs.Prelude.{◌≡◌, ℕ, ◌<◌, ◌≤◌, List, [], length, drop, IsOk, MatchOption};
ghost use Rattle.buffa_bytes.specs.Readings.{taken, FullOnlyIf, GivesUnlessFull};
ghost use Rattle.buffa_bytes.specs.Unread.{IsChunkOf, IsFrontOf, IsTailOf, MayBeCut, MovesUnlessFull};

use crate::error::DecodeError;
use bytes::Bytes;
use std::alloc::Global;

/// Bytes that are read from the front, in one piece or in several.
///
/// A contract over a `Buf` names `unread`, the list of the bytes that are left, and nothing of how they
/// are cut. It says as well that `beyond` stays: a buffer that shows the front of a lent one loses neither
/// the lender nor the bytes past its limit, whatever is read and however that ends.
///
/// ```ignore
/// let number = decode_varint(&mut rest)?; // of 96 01 07: 150, and `rest` is 07 then
/// ```
pub trait Buf {
    /// The bytes that are left.
    ghost unread: { Self → List ℕ };

    /// What no read changes: for each lent buffer its ghost name, and the bytes past its limit.
    ghost beyond: { Self → List (ℕ × List ℕ) } = { λ _. [] };

    /// How many bytes are left.
    ///
    /// ```ignore
    /// let left = rest.remaining(); // 3 for 96 01 07
    /// ```
    fn remaining(&self) -> usize
        ensures { result ≡ length (unread self.now) };

    /// The bytes at the front that lie together; some, while any are left.
    ///
    /// ```ignore
    /// let part = buf.chunk();
    /// ```
    fn chunk(&self) -> &[u8]
        ensures { IsChunkOf result.now (unread self.now) };

    /// Drops the first `n` bytes, which have to be there.
    ///
    /// ```ignore
    /// buf.advance(1); // of 96 01 07: leaves 01 07
    /// ```
    fn advance(&mut self, n: usize)
        requires { n ≤ length (unread self.old) }
        ensures rest { unread self.new ≡ drop n (unread self.old) }
        ensures kept { beyond self.new ≡ beyond self.old };
}

impl Buf for &[u8] {
    ghost unread = { λ s. s.now };

    fn remaining(&self) -> usize {
        self.len()
    }

    fn chunk(&self) -> &[u8]
        ensures part { IsChunkOf result.now self.now.now }
        ensures whole { result.now ≡ self.now.now }
    {
        *self
    }

    fn advance(&mut self, n: usize) {
        let all: &[u8] = *self;
        *self = &all[n..];
    }
}

impl Buf for Bytes {
    ghost unread = { λ b. b };

    fn remaining(&self) -> usize {
        Bytes::len(self)
    }

    fn chunk(&self) -> &[u8]
        ensures part { IsChunkOf result.now self.now }
        ensures whole { result.now ≡ self.now }
    {
        self.as_slice()
    }

    fn advance(&mut self, n: usize) {
        Bytes::advance(self, n)
    }
}

// Moves the first `len` bytes, which are there, behind those of `bytes`.
#[tactic(auto, using(crate::proofs::TailLemmas::tail_whole, crate::proofs::TailLemmas::tail_dropped, crate::proofs::TailLemmas::tail_rest))]
fn move_bytes<B: Buf>(buf: &mut B, len: usize, bytes: &mut Vec<u8>) -> Result<(), DecodeError>
    requires { len ≤ length (B.unread buf.old) }
    ensures moved { MovesUnlessFull result len (B.unread buf.old) (B.unread buf.new) bytes.old.items bytes.new.items }
    ensures kept { B.beyond buf.new ≡ B.beyond buf.old }
    ensures tail { IsTailOf (B.unread buf.new) (B.unread buf.old) }
    ensures within { IsTailOf (drop len (B.unread buf.old)) (B.unread buf.new) }
    ensures none { len ≡ 0 → IsOk result }
{
    let mut left = len;
    while left > 0 {
        let chunk = buf.chunk();
        let part = chunk.len().min(left);
        bytes.extend_from_slice(&chunk[..part])?;
        buf.advance(part);
        left -= part;
    }
    Ok(())
}

/// The first `len` bytes, where the buffer shows them in one piece; they stay unread.
///
/// `None` where fewer are left, and where the bytes that lie together at the front are fewer; never for no bytes, and never for
/// one byte that is left. The contract leaves open how many lie together, so of two bytes or more it may be `None`.
///
/// ```ignore
/// let ab = front(&rest, 2); // of "abc": Some("ab"), and `rest` is "abc" still
/// ```
pub fn front<B: Buf>(buf: &B, len: u64) -> Option<&[u8]>
    ensures { MatchOption result (MayBeCut len (B.unread buf.now)) (λ part. IsFrontOf part.now len (B.unread buf.now)) }
{
    let chunk = buf.chunk();
    if len > chunk.len() as u64 {
        return None;
    }
    Some(&chunk[..len as usize])
}

/// Copies the first `len` bytes out of the buffer.
///
/// # Errors
/// [`DecodeError::UnexpectedEof`] where fewer are left, and nothing is asked of memory then; or
/// [`DecodeError::OutOfMemory`], of a byte or more.
///
/// ```ignore
/// let front = copy_bytes(alloc, buf, len)?; // of "abc" and 2: "ab", and `buf` is "c" then
/// ```
#[tactic(auto, using(crate::proofs::TailLemmas::tail_whole, crate::proofs::TailLemmas::tail_rest), unfolding(crate::specs::Readings::taken))]
pub fn copy_bytes<B: Buf>(alloc: Global, buf: &mut B, len: u64) -> Result<Vec<u8>, DecodeError>
    ensures reads { GivesUnlessFull (λ bytes. (bytes.items, B.unread buf.new)) result (taken len (B.unread buf.old)) }
    ensures full { FullOnlyIf result (IsOk (taken len (B.unread buf.old))) }
    ensures free { len ≡ 0 → IsOk result }
    ensures short { length (B.unread buf.old) < len → B.unread buf.new ≡ B.unread buf.old }
    ensures within { IsTailOf (drop len (B.unread buf.old)) (B.unread buf.new) }
    ensures kept { B.beyond buf.new ≡ B.beyond buf.old }
    ensures tail { IsTailOf (B.unread buf.new) (B.unread buf.old) }
{
    if len > buf.remaining() as u64 {
        return Err(DecodeError::UnexpectedEof);
    }
    let mut bytes = Vec::with_capacity(alloc, len as usize)?;
    move_bytes(buf, len as usize, &mut bytes)?;
    Ok(bytes)
}
