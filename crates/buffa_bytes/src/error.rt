//! Why bytes were refused, and why an encoding was not written.

ghost use Rattle.std.specs.Prelude.{◌≡◌, Some};
ghost use Rattle.buffa_bytes.specs.declared.error.DecodeError.TheVariants as decoding;
ghost use Rattle.buffa_bytes.specs.declared.error.EncodeError.TheVariants as encoding;
ghost use Rattle.buffa_bytes.specs.ErrorText.{decode_error_text, encode_error_text, message_set_fault_text};

use crate::wire_type::WireType;
use std::alloc::{AllocError, AllocFailed};
use std::error::Error;
use std::fmt;

/// What is wrong with a MessageSet Item.
///
/// `Display` prints `missing type_id` or `type_id out of range`.
///
/// ```ignore
/// let refused = DecodeError::InvalidMessageSet(MessageSetFault::MissingTypeId);
/// ```
#[derive(Clone, Copy, Debug, PartialEq, Eq)]
pub enum MessageSetFault {
    /// The Item ends and no type id was there.
    MissingTypeId,
    /// The type id is 0, or more than 2,147,483,647.
    TypeIdOutOfRange,
}

impl fmt::Display for MessageSetFault {
    ghost output = { λ e. Some (message_set_fault_text e) };

    fn fmt<W: fmt::Write>(&self, f: &mut fmt::Formatter<W>) -> fmt::Result {
        match self {
            MessageSetFault::MissingTypeId => write!(f, "missing type_id"),
            MessageSetFault::TypeIdOutOfRange => write!(f, "type_id out of range"),
        }
    }
}

impl Error for MessageSetFault {}

/// Why bytes were refused.
///
/// `Display` prints the variant's name, a space before each thing that it holds, numbers in decimal and
/// wire types as their numbers: `WireTypeMismatch 1 2 0`.
///
/// ```ignore
/// let is_cut = decode_varint(&mut rest) == Err(DecodeError::UnexpectedEof); // of 96
/// ```
#[derive(Clone, Copy, Debug, PartialEq, Eq)]
pub enum DecodeError {
    /// The bytes end before what was begun does, or a length passes what remains.
    UnexpectedEof,
    /// The tenth byte of a varint is neither 0 nor 1.
    VarintTooLong,
    /// A tag of 2^32 or more, or of number 0.
    InvalidFieldNumber,
    /// A tag of wire type 6 or 7, which is held.
    InvalidWireType(u32),
    /// A known field has another wire type than its own.
    WireTypeMismatch {
        /// 1 to 536,870,911.
        field_number: u32,
        /// The wire type that the field is declared with.
        expected: WireType,
        /// The wire type of its tag.
        actual: WireType,
    },
    /// A text that is not UTF-8.
    InvalidUtf8,
    /// A length past what an address can name. No reader here tells it, since addresses have 64 bits; a message of one's own may.
    MessageTooLarge,
    /// Groups or messages nested deeper than the depth allows.
    RecursionLimitExceeded,
    /// The budget has no unknown field left.
    UnknownFieldLimitExceeded,
    /// Too few units of element memory are left.
    ElementMemoryLimitExceeded,
    /// The end tag of a group that is not open; its number is held.
    InvalidEndGroup(u32),
    /// A MessageSet Item that gives no type id, or one out of range; which is held.
    InvalidMessageSet(MessageSetFault),
    /// A field of another number than the one that is read; its number is held.
    UnexpectedField(u32),
    /// A growth was refused. It says nothing of the bytes.
    OutOfMemory,
}

impl fmt::Display for DecodeError {
    ghost output = { λ e. Some (decode_error_text e) };

    fn fmt<W: fmt::Write>(&self, f: &mut fmt::Formatter<W>) -> fmt::Result {
        match self {
            DecodeError::UnexpectedEof => write!(f, "UnexpectedEof"),
            DecodeError::VarintTooLong => write!(f, "VarintTooLong"),
            DecodeError::InvalidFieldNumber => write!(f, "InvalidFieldNumber"),
            DecodeError::InvalidWireType(number) => write!(f, "InvalidWireType {number}"),
            DecodeError::WireTypeMismatch {
                field_number,
                expected,
                actual,
            } => write!(
                f,
                "WireTypeMismatch {field_number} {} {}",
                expected.number(),
                actual.number()
            ),
            DecodeError::InvalidUtf8 => write!(f, "InvalidUtf8"),
            DecodeError::MessageTooLarge => write!(f, "MessageTooLarge"),
            DecodeError::RecursionLimitExceeded => write!(f, "RecursionLimitExceeded"),
            DecodeError::UnknownFieldLimitExceeded => write!(f, "UnknownFieldLimitExceeded"),
            DecodeError::ElementMemoryLimitExceeded => write!(f, "ElementMemoryLimitExceeded"),
            DecodeError::InvalidEndGroup(number) => write!(f, "InvalidEndGroup {number}"),
            DecodeError::InvalidMessageSet(what) => write!(f, "InvalidMessageSet {what}"),
            DecodeError::UnexpectedField(number) => write!(f, "UnexpectedField {number}"),
            DecodeError::OutOfMemory => write!(f, "OutOfMemory"),
        }
    }
}

impl Error for DecodeError {}

impl From<AllocError> for DecodeError {
    ghost from_gives = { λ _ e. e ≡ decoding.OutOfMemory };

    #[inline]
    fn from(_error: AllocError) -> DecodeError {
        DecodeError::OutOfMemory
    }
}

impl<T: Drop> From<AllocFailed<T>> for DecodeError {
    ghost from_gives = { λ _ e. e ≡ decoding.OutOfMemory };

    #[inline]
    fn from(_error: AllocFailed<T>) -> DecodeError {
        DecodeError::OutOfMemory
    }
}

/// Why an encoding was not written.
///
/// `Display` prints the variant's name, and after `GroupRefused` a space and the text of what it holds.
///
/// ```ignore
/// let refused = EncodeError::GroupRefused(DecodeError::InvalidUtf8); // prints GroupRefused InvalidUtf8
/// ```
#[derive(Clone, Copy, Debug, PartialEq, Eq)]
pub enum EncodeError {
    /// An encoding longer than the format can say.
    MessageTooLarge,
    /// The encoding of a group message can't be read back as a group; why is held.
    GroupRefused(DecodeError),
    /// A growth was refused. It says nothing of the value.
    OutOfMemory,
}

impl fmt::Display for EncodeError {
    ghost output = { λ e. Some (encode_error_text e) };

    fn fmt<W: fmt::Write>(&self, f: &mut fmt::Formatter<W>) -> fmt::Result {
        match self {
            EncodeError::MessageTooLarge => write!(f, "MessageTooLarge"),
            EncodeError::GroupRefused(inner) => write!(f, "GroupRefused {inner}"),
            EncodeError::OutOfMemory => write!(f, "OutOfMemory"),
        }
    }
}

impl Error for EncodeError {}

impl From<AllocError> for EncodeError {
    ghost from_gives = { λ _ e. e ≡ encoding.OutOfMemory };

    #[inline]
    fn from(_error: AllocError) -> EncodeError {
        EncodeError::OutOfMemory
    }
}

impl<T: Drop> From<AllocFailed<T>> for EncodeError {
    ghost from_gives = { λ _ e. e ≡ encoding.OutOfMemory };

    #[inline]
    fn from(_error: AllocFailed<T>) -> EncodeError {
        EncodeError::OutOfMemory
    }
}
