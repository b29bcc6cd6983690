//! Types of one's own for strings and bytes.

ghost use Rattle.std.specs.Prelude.{◌≡◌, ℕ, IsOk, List, [], MatchResult, refl, true};
ghost use Rattle.std.specs.Str.{is_utf8};
ghost use Rattle.buffa_bytes.specs.Readings.{FullOnlyIf, GivesUnlessFull};
ghost use Rattle.buffa_bytes.specs.Delimited.{string_is_text, text_as};
ghost use Rattle.buffa_bytes.specs.declared.error.DecodeError.TheVariants.{OutOfMemory};

use crate::blank::Blank;
use crate::error::DecodeError;
use std::alloc::Global;

/// A type that holds a string field: each value has a text, and each text is that of a value.
///
/// What a value means has one text, and a text means one thing; the impl of `String` below is the
/// pattern.
///
/// ```ignore
/// impl ProtoString for Word { .. }
/// ```
pub trait ProtoString: Blank {
    /// The text of a meaning, as bytes.
    ghost text: { Self.Meaning → List ℕ };

    /// What a text means.
    ghost of_text: { List ℕ → Self.Meaning };

    /// Makes a value of these bytes, if they are UTF-8. The empty text takes no memory.
    ///
    /// # Errors
    /// [`DecodeError::InvalidUtf8`] exactly where they are not, and [`DecodeError::OutOfMemory`].
    ///
    /// ```ignore
    /// let word = <String as ProtoString>::from_wire(alloc, b"ok")?; // "ok"
    /// ```
    fn from_wire(alloc: Global, bytes: &[u8]) -> Result<Self, DecodeError>
        ensures reads { GivesUnlessFull Self.meaning result (text_as of_text bytes.now) }
        ensures free { bytes.now ≡ [] → IsOk result }
        ensures full { FullOnlyIf result (is_utf8 bytes.now ≡ true) };

    /// The text of the value.
    ///
    /// ```ignore
    /// let text = ProtoString::as_str(&word); // "ok"
    /// ```
    fn as_str(&self) -> &str
        ensures { result.now ≡ text (Self.meaning self.now) };

    /// The text of a value is UTF-8.
    ghost is_text: { (value : Self) → is_utf8 (text (Self.meaning value)) ≡ true };

    /// The text of what was read is what was read.
    ghost text_stays: { (bytes : List ℕ) → is_utf8 bytes ≡ true → text (of_text bytes) ≡ bytes };

    /// What is read of a meaning's text is that meaning.
    ghost meaning_stays: { (value : Self.Meaning) → of_text (text value) ≡ value };

    /// The default is the empty text.
    ghost blank_text: { text Self.blank_is ≡ [] };
}

/// A type that holds a bytes field: each value has bytes, and any bytes are those of a value.
///
/// ```ignore
/// let held = <Vec<u8> as ProtoBytes>::from_wire(alloc, &[0xFF])?; // FF
/// let bytes = ProtoBytes::as_bytes(&held);
/// ```
pub trait ProtoBytes: Blank {
    /// The bytes of a meaning.
    ghost bytes: { Self.Meaning → List ℕ };

    /// What bytes mean.
    ghost of_bytes: { List ℕ → Self.Meaning };

    /// Makes a value of these bytes. No bytes take no memory.
    ///
    /// # Errors
    /// [`DecodeError::OutOfMemory`] alone.
    ///
    /// ```ignore
    /// let held = <Vec<u8> as ProtoBytes>::from_wire(alloc, &[0xFF])?; // FF
    /// ```
    fn from_wire(alloc: Global, source: &[u8]) -> Result<Self, DecodeError>
        ensures reads { MatchResult result (λ value. Self.meaning value ≡ of_bytes source.now)
            (λ e. e ≡ OutOfMemory) }
        ensures free { source.now ≡ [] → IsOk result };

    /// The bytes of the value.
    ///
    /// ```ignore
    /// let bytes = ProtoBytes::as_bytes(&held); // FF
    /// ```
    fn as_bytes(&self) -> &[u8]
        ensures { result.now ≡ bytes (Self.meaning self.now) };

    /// The bytes of what was read are what was read.
    ghost bytes_stay: { (source : List ℕ) → bytes (of_bytes source) ≡ source };

    /// What is read of a meaning's bytes is that meaning.
    ghost meaning_stays: { (value : Self.Meaning) → of_bytes (bytes value) ≡ value };

    /// The default has no bytes.
    ghost blank_bytes: { bytes Self.blank_is ≡ [] };
}

impl ProtoString for String {
    ghost text = { λ text. text };

    ghost of_text = { λ text. text };

    fn from_wire(alloc: Global, bytes: &[u8]) -> Result<String, DecodeError> {
        let Ok(text) = str::from_utf8(bytes) else {
            return Err(DecodeError::InvalidUtf8);
        };
        let mut owned = String::with_capacity(alloc, text.len())?;
        owned.push_str(text)?;
        Ok(owned)
    }

    fn as_str(&self) -> &str {
        String::as_str(self)
    }

    ghost is_text = { string_is_text };

    ghost text_stays = { λ bytes good. refl };

    ghost meaning_stays = { λ text. refl };

    ghost blank_text = { refl };
}

impl ProtoBytes for Vec<u8> {
    ghost bytes = { λ bytes. bytes };

    ghost of_bytes = { λ bytes. bytes };

    fn from_wire(alloc: Global, source: &[u8]) -> Result<Vec<u8>, DecodeError> {
        let mut owned = Vec::with_capacity(alloc, source.len())?;
        owned.extend_from_slice(source)?;
        Ok(owned)
    }

    fn as_bytes(&self) -> &[u8] {
        self.as_slice()
    }

    ghost bytes_stay = { λ bytes. refl };

    ghost meaning_stays = { λ bytes. refl };

    ghost blank_bytes = { refl };
}
