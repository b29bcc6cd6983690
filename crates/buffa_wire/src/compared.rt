//! The encoding of a message compared with bytes while it is written, in no buffer of its own.

ghost use Rattle.std.specs.Prelude.{◌≡◌, ◌≢◌, ◌<◌, ◌≤◌, ◌^◌, length, take};
ghost use Rattle.buffa_wire.specs.declared.compared.Comparison.TheVariants.{Differs, Same};

use crate::cache::SizeCache;
use crate::message::Message;
use buffa_bytes::{EncodeError, EncodeSink};
use std::alloc::Global;

/// A sink that has bytes already, and takes these alone, from their front on.
#[derive(Drop)]
pub(crate) struct Expected<'a> {
    bytes: &'a [u8],
    len: usize,
    ghost within: { len ≤ length bytes.now },
}

impl EncodeSink for Expected<'_> {
    ghost written = { λ s. take s.len s.bytes.now };

    /// Takes bytes that come next, and refuses others, of which none is taken.
    fn put_slice(&mut self, b: &[u8]) -> Result<(), EncodeError> {
        let rest = &self.bytes[self.len..];
        if !rest.starts_with(b) {
            return Err(EncodeError::OutOfMemory);
        }
        self.len += b.len();
        Ok(())
    }
}

/// What comparing tells of bytes and the encoding of a message.
#[derive(Clone, Copy)]
pub(crate) enum Comparison {
    /// They are the encoding.
    Same,
    /// They are not.
    Differs,
    /// The encoding wasn't written to its end: it may be another, or memory ran out.
    Unknown,
}

/// Compares bytes, of which there are fewer than 2^31, with the encoding of a message.
pub(crate) fn compare<M: Message>(alloc: Global, message: &M, bytes: &[u8]) -> Comparison
    requires { length bytes.now < 2 ^ 31 }
    ensures same { result ≡ Same → M.encoding (M.meaning message.now) ≡ bytes.now }
    ensures other { result ≡ Differs → M.encoding (M.meaning message.now) ≢ bytes.now }
{
    let mut cache = SizeCache::new(alloc);
    let Ok(size) = message.compute_size(&mut cache) else {
        return Comparison::Unknown;
    };
    if size as usize != bytes.len() {
        return Comparison::Differs;
    }
    let mut sink = Expected { bytes, len: 0 };
    // Whether the sink still expects the same bytes, no contract of a sink says.
    match message.write_to(&mut cache, &mut sink) {
        Ok(()) if sink.len == bytes.len() && sink.bytes == bytes => Comparison::Same,
        _ => Comparison::Unknown,
    }
}
