//! Slices that are read one after another.

ghost use Rattle.std.specs.Prelude.{◌≡◌, ℕ, List, ◌<◌, ◌≤◌, ◌+◌, ◌^◌, length, drop};
ghost use Rattle.buffa_bytes.specs.Pieces.{joined, IsSettled};

use crate::buf::Buf;
use std::marker::Model;

/// Slices that are read one after another, as if they lay together; empty ones may be among them.
///
/// ```ignore
/// let parts: [&[u8]; 2] = [&encoding[..1], &encoding[1..]];
/// let mut pieces = Pieces::new(&parts);
/// let number = decode_varint(&mut pieces)?; // of 96 and 01: 150
/// ```
#[derive(Drop)]
pub struct Pieces<'a> {
    pieces: &'a [&'a [u8]],
    at: usize,
    offset: usize,
    left: usize,
}

impl<'a> Model for Pieces<'a> {
    ghost Value = { List ℕ };

    ghost view = { λ s. drop s.offset (joined (drop s.at s.pieces.now)) };

    ghost invariant = { λ s. (s.left ≡ length (drop s.offset (joined (drop s.at s.pieces.now))))
        × IsSettled (drop s.at s.pieces.now) s.offset × (length (joined (drop s.at s.pieces.now)) < 2 ^ 64) };
}

impl<'a> Pieces<'a> {
    /// Reads the slices in order. They have fewer than 2^64 bytes together.
    ///
    /// ```ignore
    /// let mut pieces = Pieces::new(&parts);
    /// ```
    pub fn new(pieces: &'a [&'a [u8]]) -> Pieces<'a>
        requires { length (joined pieces.now) < 2 ^ 64 }
        ensures { result ≡ joined pieces.now }
    {
        let left = total(pieces);
        let (at, offset) = settle(pieces, 0, 0);
        Pieces {
            pieces,
            at,
            offset,
            left,
        }
    }
}

impl Buf for Pieces<'_> {
    ghost unread = { λ s. s };

    fn remaining(&self) -> usize {
        self.left
    }

    #[tactic(auto, using(crate::proofs::PieceLemmas::joined_step, crate::proofs::PieceLemmas::settled_chunk))]
    fn chunk(&self) -> &[u8] {
        if self.at < self.pieces.len() {
            &self.pieces[self.at][self.offset..]
        } else {
            &[]
        }
    }

    fn advance(&mut self, n: usize) {
        let left = self.left - n;
        let (at, offset) = settle(self.pieces, self.at, self.offset + n);
        *self = Pieces {
            pieces: self.pieces,
            at,
            offset,
            left,
        };
    }
}

// The bytes of all slices.
#[tactic(auto, using(crate::proofs::PieceLemmas::joined_step))]
fn total(pieces: &[&[u8]]) -> usize
    requires { length (joined pieces.now) < 2 ^ 64 }
    ensures { result ≡ length (joined pieces.now) }
{
    let mut sum = 0;
    for piece in pieces {
        sum += piece.len();
    }
    sum
}

// The slice and the place within it of the byte that lies `past` bytes after the start of slice `from`.
#[tactic(auto, using(crate::proofs::PieceLemmas::joined_step, crate::proofs::PieceLemmas::drop_past, crate::proofs::PieceLemmas::settled))]
fn settle(pieces: &[&[u8]], from: usize, past: usize) -> (usize, usize)
    ensures rest { drop result.1 (joined (drop result.0 pieces.now))
        ≡ drop past (joined (drop from pieces.now)) }
    ensures settled { IsSettled (drop result.0 pieces.now) result.1 }
    ensures fits { length (joined (drop result.0 pieces.now))
        ≤ length (joined (drop from pieces.now)) }
{
    let mut at = from;
    let mut offset = past;
    while at < pieces.len() && pieces[at].len() <= offset {
        offset -= pieces[at].len();
        at += 1;
    }
    (at, offset)
}
