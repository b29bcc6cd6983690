//! The numbers that calls answer.

ghost use Rattle.std.specs.Prelude.{◌≡◌, ◌<◌};
ghost use Rattle.buffa_bytes.specs.declared.error.DecodeError.TheVariants as decoding;
ghost use Rattle.buffa_c.specs.Answers.{number_of_fault};

use buffa_fields::DecodeError;

/// All is well: the bytes are accepted, and what was asked for is told.
///
/// ```ignore
/// Ok(_) => ACCEPTED,
/// ```
pub const ACCEPTED: u32 = 0;

/// A growth was refused. It says nothing of the bytes. The numbers 1 to 13 are those of the other errors of `DecodeError`, in
/// its order.
pub const OUT_OF_MEMORY: u32 = 14;

/// The bytes are more than the caller allows; none of them was read.
pub const TOO_LONG: u32 = 15;

/// The bytes are accepted, and aren't the encoding of the message that they mean.
pub const NOT_CANONICAL: u32 = 16;

/// The bytes are read, and a required member isn't there.
pub const MISSING_REQUIRED: u32 = 17;

/// The caller's room is smaller than what was to be written; nothing was.
pub const NO_ROOM: u32 = 18;

/// The bytes are accepted, and the encoding of the message that they mean has 2^31 bytes or more.
pub const TOO_LARGE: u32 = 19;

/// The number of a fault: 1 to 14.
///
/// ```ignore
/// Err(fault) => Err(fault_number(fault)), // of DecodeError::InvalidUtf8: 6
/// ```
pub fn fault_number(fault: DecodeError) -> u32
    ensures number { result ≡ number_of_fault fault }
    ensures positive { 0 < result }
    ensures small { result < 15 }
    ensures memory { result ≡ OUT_OF_MEMORY → fault ≡ decoding.OutOfMemory }
{
    match fault {
        DecodeError::UnexpectedEof => 1,
        DecodeError::VarintTooLong => 2,
        DecodeError::InvalidFieldNumber => 3,
        DecodeError::InvalidWireType(_) => 4,
        DecodeError::WireTypeMismatch { .. } => 5,
        DecodeError::InvalidUtf8 => 6,
        DecodeError::MessageTooLarge => 7,
        DecodeError::RecursionLimitExceeded => 8,
        DecodeError::UnknownFieldLimitExceeded => 9,
        DecodeError::ElementMemoryLimitExceeded => 10,
        DecodeError::InvalidEndGroup(_) => 11,
        DecodeError::InvalidMessageSet(_) => 12,
        DecodeError::UnexpectedField(_) => 13,
        DecodeError::OutOfMemory => OUT_OF_MEMORY,
    }
}
