//! The front of a buffer, which is lent.

ghost use Rattle.std.specs.Prelude.{◌≡◌, ◌≤◌, ◌∷◌, length, take, drop};

use crate::buf::Buf;

/// The first `limit` bytes of a buffer, which stays lent meanwhile.
///
/// What lies past the limit is out of reach of every reader: the contracts over a [`Buf`] say that it is
/// kept, whatever is read and however that ends. A limit may be set within a limit.
///
/// ```ignore
/// let mut within = Limited::new(buf, limit);
/// let number = decode_varint(&mut within)?;
/// within.finish(); // `buf` is past all of these bytes
/// ```
#[derive(Drop)]
pub struct Limited<'a, B> {
    inner: &'a mut B,
    limit: usize,
}

impl<'a, B: Buf> Limited<'a, B> {
    /// Lends the first `limit` bytes, which have to be there.
    ///
    /// ```ignore
    /// let mut within = Limited::new(buf, limit);
    /// ```
    pub fn new(inner: &'a mut B, limit: usize) -> Limited<'a, B>
        requires { limit ≤ length (B.unread inner.old) }
        ensures same_reference { result.inner.ghost_name ≡ inner.entry.ghost_name }
        ensures inner { result.inner.now ≡ inner.old }
        ensures limit { result.limit ≡ limit }
    {
        Limited { inner, limit }
    }
}

impl<B: Buf> Limited<'_, B> {
    /// Passes over what is left within the limit, and ends the loan.
    ///
    /// ```ignore
    /// within.finish(); // the buffer is past all bytes within the limit
    /// ```
    #[tactic(auto, using(crate::proofs::LimitLemmas::drop_min))]
    pub fn finish(self)
        ensures rest { B.unread self.exit.0.now ≡ drop self.entry.limit (B.unread self.entry.inner.now) }
        ensures kept { B.beyond self.exit.0.now ≡ B.beyond self.entry.inner.now }
    {
        let Limited { inner, limit } = self;
        let left = inner.remaining().min(limit);
        inner.advance(left);
    }
}

impl<B: Buf> Buf for Limited<'_, B> {
    ghost unread = { λ s. take s.limit (B.unread s.inner.now) };

    ghost beyond = { λ s. (s.inner.ghost_name, drop s.limit (B.unread s.inner.now)) ∷ B.beyond s.inner.now };

    fn remaining(&self) -> usize {
        self.inner.remaining().min(self.limit)
    }

    fn chunk(&self) -> &[u8] {
        let chunk = self.inner.chunk();
        &chunk[..chunk.len().min(self.limit)]
    }

    fn advance(&mut self, n: usize) {
        self.inner.advance(n);
        self.limit -= n;
    }
}
