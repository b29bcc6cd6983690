//! Bytes out: a place that encodings are appended to.

ghost use Rattle.std.specs.Prelude.{◌≡◌, ◌∷◌, ◌-◌, [], ℕ, List, OnErr, vec_capacity, vec_len};
ghost use Rattle.buffa_bytes.specs.Written.{UsesRoom, Writes};

use crate::error::EncodeError;

/// A place that encodings are appended to.
///
/// ```ignore
/// let mut sink = Vec::new(alloc);
/// encode_string("testing", &mut sink)?; // 07 74 65 73 74 69 6E 67
/// ```
pub trait EncodeSink {
    /// The bytes so far.
    ghost written: { Self → List ℕ };

    /// How many more bytes fit for sure, with no new memory; 0 where a sink promises nothing.
    ghost room: { Self → ℕ } = { λ _. 0 };

    /// Appends `b`.
    ///
    /// # Errors
    /// [`EncodeError::OutOfMemory`] alone, where `b` may not fit. A beginning of `b` is written then, but not all
    /// of it.
    ///
    /// ```ignore
    /// sink.put_slice(&[7])?; // 07
    /// ```
    fn put_slice(&mut self, b: &[u8]) -> Result<(), EncodeError>
        ensures writes { Writes result (written self.old) b.now (written self.new) }
        ensures room { UsesRoom result (room self.old) b.now (room self.new) };

    /// Appends one byte.
    ///
    /// # Errors
    /// [`EncodeError::OutOfMemory`] alone, where no byte fits for sure.
    ///
    /// ```ignore
    /// sink.put_byte(n as u8)?;
    /// ```
    fn put_byte(&mut self, byte: u8) -> Result<(), EncodeError>
        ensures writes { Writes result (written self.old) (byte ∷ []) (written self.new) }
        ensures room { UsesRoom result (room self.old) (byte ∷ []) (room self.new) }
    {
        self.put_slice(&[byte])
    }
}

impl EncodeSink for Vec<u8> {
    ghost written = { λ v. v.items };

    ghost room = { λ v. vec_capacity v - vec_len v };

    /// Appends `b`, or leaves the vector's items as they were where memory runs out.
    fn put_slice(&mut self, b: &[u8]) -> Result<(), EncodeError>
        ensures writes { Writes result self.old.items b.now self.new.items }
        ensures room { UsesRoom result (vec_capacity self.old - vec_len self.old) b.now
            (vec_capacity self.new - vec_len self.new) }
        ensures err { OnErr result (self.new.items ≡ self.old.items) }
    {
        self.extend_from_slice(b)
            .map_err(|_| EncodeError::OutOfMemory)
    }

    /// Appends one byte, or leaves the vector's items as they were where memory runs out.
    fn put_byte(&mut self, byte: u8) -> Result<(), EncodeError>
        ensures writes { Writes result self.old.items (byte ∷ []) self.new.items }
        ensures room { UsesRoom result (vec_capacity self.old - vec_len self.old) (byte ∷ [])
            (vec_capacity self.new - vec_len self.new) }
        ensures err { OnErr result (self.new.items ≡ self.old.items) }
    {
        self.push(byte).map_err(|_| EncodeError::OutOfMemory)
    }
}
