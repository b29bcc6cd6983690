//! Calls that make a message of bytes.

ghost use Rattle.std.specs.Prelude.{◌≡◌, ◌≢◌, ◌⊎◌, IfErr, IfOk, IsSome, OnOk, Some};
ghost use Rattle.buffa_bytes.specs.Readings.{FullOnlyIf};
ghost use Rattle.buffa_bytes.specs.declared.error.DecodeError.TheVariants.{OutOfMemory};
ghost use Rattle.buffa_wire.specs.BudgetLeft.{Lacks, defaults};
ghost use Rattle.buffa_wire.specs.Canonical.{IsCanonical, canonical_error_text};
ghost use Rattle.buffa_wire.specs.Message.{BeginsField, MergeFault, PartlyMerged};
ghost use Rattle.buffa_wire.specs.declared.decode.CanonicalError.TheVariants.{Malformed, NotCanonical};

use crate::budget::Budget;
use crate::compared::{Comparison, compare};
use crate::context::{DecodeContext, RECURSION_LIMIT};
use crate::message::{MAX_MESSAGE_BYTES, Message};
use buffa_bytes::{DecodeError, EncodeError};
use std::alloc::Global;
use std::error::Error;
use std::fmt;

/// Why bytes were refused that had to be the encoding of a message.
///
/// `Display` prints `NotCanonical`, or `Malformed`, a space and the text of what it holds.
///
/// ```ignore
/// let refused = CanonicalError::Malformed(DecodeError::UnexpectedEof); // prints Malformed UnexpectedEof
/// ```
#[derive(Clone, Copy, Debug, PartialEq, Eq)]
pub enum CanonicalError {
    /// They are refused as a message, or memory ran out; why is held.
    Malformed(DecodeError),
    /// They are not the encoding of the message that they mean, or are longer than [`MAX_MESSAGE_BYTES`].
    NotCanonical,
}

impl fmt::Display for CanonicalError {
    ghost output = { λ e. Some (canonical_error_text e) };

    fn fmt<W: fmt::Write>(&self, f: &mut fmt::Formatter<W>) -> fmt::Result {
        match self {
            CanonicalError::Malformed(fault) => write!(f, "Malformed {fault}"),
            CanonicalError::NotCanonical => write!(f, "NotCanonical"),
        }
    }
}

impl Error for CanonicalError {}

/// What makes a message of bytes, for each type of messages.
///
/// ```ignore
/// let swatch = Swatch::decode_from_slice(alloc, bytes)?;
/// ```
pub trait Decode: Message + Drop {
    /// The message that the bytes mean, at most [`RECURSION_LIMIT`] deep, under a default budget.
    ///
    /// # Errors
    /// Those of [`Message::merge`], for a blank message.
    ///
    /// ```ignore
    /// let swatch = Swatch::decode_from_slice(alloc, bytes)?;
    /// ```
    final fn decode_from_slice(alloc: Global, bytes: &[u8]) -> Result<Self, DecodeError>
        ensures merged { IfOk result (λ m. Self.merged RECURSION_LIMIT Self.blank_is bytes.now ≡ Some (Self.meaning m)) }
        ensures left { OnOk result (Lacks defaults (Self.cost RECURSION_LIMIT bytes.now) → ⊥) }
        ensures fault { IfErr result (λ e. e ≢ OutOfMemory → MergeFault (Self.merged RECURSION_LIMIT Self.blank_is bytes.now)
            (Self.cost RECURSION_LIMIT bytes.now) defaults e) }
        ensures which { IfErr result (λ e. (m : Self.Meaning) × PartlyMerged Self.merged Self.cost Self.Refused RECURSION_LIMIT
            Self.blank_is bytes.now defaults e m) }
        ensures full { FullOnlyIf result (BeginsField bytes.now) }
    {
        let mut message = Self::blank(alloc);
        message.merge_from_slice(alloc, bytes)?;
        Ok(message)
    }

    /// The message that the bytes mean, at most `depth` groups and messages deep, which spends at most the limits.
    ///
    /// What of the limits isn't spent is let go.
    ///
    /// # Errors
    /// Those of [`Message::merge`], for a blank message.
    ///
    /// ```ignore
    /// let limits = Budget::new(1_000).with_element_memory(1_000_000);
    /// Swatch::decode_within(alloc, bytes, 20, limits)
    /// ```
    final fn decode_within(
        alloc: Global,
        bytes: &[u8],
        depth: u32,
        limits: Budget,
    ) -> Result<Self, DecodeError>
        ensures merged { IfOk result (λ m. Self.merged depth Self.blank_is bytes.now ≡ Some (Self.meaning m)) }
        ensures left { OnOk result (Lacks limits (Self.cost depth bytes.now) → ⊥) }
        ensures fault { IfErr result (λ e. e ≢ OutOfMemory → MergeFault (Self.merged depth Self.blank_is bytes.now)
            (Self.cost depth bytes.now) limits e) }
        ensures which { IfErr result (λ e. (m : Self.Meaning) × PartlyMerged Self.merged Self.cost Self.Refused depth
            Self.blank_is bytes.now limits e m) }
        ensures full { FullOnlyIf result (BeginsField bytes.now) }
    {
        let mut message = Self::blank(alloc);
        let mut budget = limits;
        let mut rest = bytes;
        message.merge(alloc, &mut rest, DecodeContext::new(depth, &mut budget))?;
        Ok(message)
    }

    /// The message whose encoding the bytes are, each of them, as [`Message::try_encode_to_vec`] writes it. It is read at
    /// most [`RECURSION_LIMIT`] deep, under a default budget.
    ///
    /// The encoding is compared as it is written, in no buffer. Only where it has the length of the bytes, and wasn't written
    /// to its end so, is it written into a buffer, to see whether it is another or memory had run out.
    ///
    /// So of the spellings of a message, with other orders, longer varints or fields twice, it takes one. A message whose
    /// maps are in the order of arrival has an encoding for each order, and all of them are taken; with maps that are
    /// ordered by key there is one.
    ///
    /// # Errors
    /// [`CanonicalError::NotCanonical`] where the bytes are longer than [`MAX_MESSAGE_BYTES`], or mean a message whose
    /// encoding they aren't; else [`CanonicalError::Malformed`] with the errors of [`Decode::decode_from_slice`], or with
    /// [`DecodeError::OutOfMemory`] where there was no room for the encoding to compare with. The contract leaves open
    /// when memory runs out.
    ///
    /// ```ignore
    /// let swatch = Swatch::decode_canonical(alloc, bytes)?;
    /// ```
    final fn decode_canonical(alloc: Global, bytes: &[u8]) -> Result<Self, CanonicalError>
        ensures canonical { IfOk result (λ m. IsCanonical (Self.merged RECURSION_LIMIT Self.blank_is bytes.now)
            Self.encoding bytes.now (Self.meaning m)) }
        ensures left { OnOk result (Lacks defaults (Self.cost RECURSION_LIMIT bytes.now) → ⊥) }
        // The bytes are refused as a message.
        ensures fault { IfErr result (λ e. (f : DecodeError) → e ≡ Malformed f → f ≢ OutOfMemory →
            MergeFault (Self.merged RECURSION_LIMIT Self.blank_is bytes.now) (Self.cost RECURSION_LIMIT bytes.now) defaults f) }
        // Memory runs out where a field begins the bytes, or where they mean a message, whose encoding needs room.
        ensures full { IfErr result (λ e. e ≡ Malformed OutOfMemory → BeginsField bytes.now
            ⊎ IsSome (Self.merged RECURSION_LIMIT Self.blank_is bytes.now)) }
        // No message is the one whose encoding they are.
        ensures other { IfErr result (λ e. e ≡ NotCanonical → (m : Self.Meaning) →
            IsCanonical (Self.merged RECURSION_LIMIT Self.blank_is bytes.now) Self.encoding bytes.now m → ⊥) }
    {
        if bytes.len() > MAX_MESSAGE_BYTES as usize {
            return Err(CanonicalError::NotCanonical);
        }
        let mut message = Self::blank(alloc);
        if let Err(fault) = message.merge_from_slice(alloc, bytes) {
            return Err(CanonicalError::Malformed(fault));
        }
        match compare(alloc, &message, bytes) {
            Comparison::Same => return Ok(message),
            Comparison::Differs => return Err(CanonicalError::NotCanonical),
            Comparison::Unknown => {}
        }
        match message.try_encode_to_vec(alloc) {
            Ok(encoding) => {
                if encoding.as_slice() == bytes {
                    Ok(message)
                } else {
                    Err(CanonicalError::NotCanonical)
                }
            }
            Err(EncodeError::MessageTooLarge) => Err(CanonicalError::NotCanonical),
            Err(_) => Err(CanonicalError::Malformed(DecodeError::OutOfMemory)),
        }
    }
}

impl<M: Message + Drop> Decode for M {}
