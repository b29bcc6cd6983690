//! The frame at the front of some bytes, of which more may follow.

ghost use Rattle.std.specs.Prelude.{◌≡◌, ◌≤◌, Err, length};
ghost use Rattle.buffa_bytes.specs.Readings.{varint_at};
ghost use Rattle.buffa_bytes.specs.Varint.{base128};
ghost use Rattle.buffa_bytes.specs.declared.error.DecodeError.{DecodeError};
ghost use Rattle.buffa_frames.specs.AtFront.{ReadsFront, ReadsLength};

use crate::error::FrameFault;
use buffa_wire::decode_varint;

/// What stands at the front of some bytes.
///
/// ```ignore
/// let front = frame_at_front(&received, 1_000); // of 03 61 62: More { at_least: 1 }
/// ```
#[derive(Clone, Copy, Debug, PartialEq, Eq)]
pub enum Front {
    /// A frame: its body is the bytes from `start` to `end`, and what follows `end` is behind the frame.
    Frame {
        /// Where the body begins: 1 to 10, the bytes of the length.
        start: usize,
        /// Where it ends.
        end: usize,
    },
    /// No frame yet, but with other bytes behind these there is one.
    More {
        /// The fewest bytes with which there is one, 1 or more.
        at_least: usize,
    },
    /// No frame, whatever follows.
    Refused(FrameFault),
}

// What stands at the front of some bytes of a length.
#[derive(Clone, Copy)]
pub(crate) enum LengthFront {
    // The length, and how many bytes spell it.
    Whole { length: usize, digits: usize },
    // All bytes belong to the length, and others follow: it is this, or more.
    Begun { low: usize },
    Bad(FrameFault),
}

// The number that these bytes are the digits of, the lowest first.
fn number_of(digits: &[u8]) -> u64
    requires { length digits.now ≤ 9 }
    ensures { result ≡ base128 digits.now }
{
    let mut at = digits.len();
    let mut value: u64 = 0;
    while at > 0 {
        at -= 1;
        value = value * 128 + u64::from(digits[at] % 128);
    }
    value
}

// What bytes that begin with no varint have of one. Of the first nine all say that another one follows.
fn begun_length(bytes: &[u8], maximum: usize) -> LengthFront
    requires { (e : DecodeError) × (varint_at bytes.now ≡ Err e) }
    ensures { ReadsLength maximum bytes.now result }
{
    let low = number_of(&bytes[..bytes.len().min(9)]);
    if low > maximum as u64 {
        return LengthFront::Bad(FrameFault::TooLong);
    }
    if bytes.len() < 10 {
        return LengthFront::Begun { low: low as usize };
    }
    LengthFront::Bad(FrameFault::MalformedLength)
}

// Reads the length at the front, or what there is of it.
pub(crate) fn length_at_front(bytes: &[u8], maximum: usize) -> LengthFront
    ensures { ReadsLength maximum bytes.now result }
{
    let mut rest = bytes;
    let length = match decode_varint(&mut rest) {
        Ok(length) => length,
        Err(_) => return begun_length(bytes, maximum),
    };
    if length > maximum as u64 {
        return LengthFront::Bad(FrameFault::TooLong);
    }
    LengthFront::Whole {
        length: length as usize,
        digits: bytes.len() - rest.len(),
    }
}

/// Tells what stands at the front of the bytes: a frame whose body has at most `maximum` bytes, the beginning of one, or
/// neither.
///
/// The length may be spelled in any way that a varint may. A beginning is refused as soon as nothing can follow it that makes
/// a frame of it: a length of which the first digits alone are above the maximum is too long, whether or not it ends.
///
/// ```ignore
/// let front = frame_at_front(&[0x03, 0x61, 0x62, 0x63, 0x00], 1_000); // Frame { start: 1, end: 4 }
/// ```
pub fn frame_at_front(bytes: &[u8], maximum: usize) -> Front
    ensures { ReadsFront maximum bytes.now result }
{
    match length_at_front(bytes, maximum) {
        LengthFront::Bad(fault) => Front::Refused(fault),
        LengthFront::Begun { low } => Front::More { at_least: low + 1 },
        LengthFront::Whole { length, digits } => {
            let there = bytes.len() - digits;
            if there < length {
                Front::More {
                    at_least: length - there,
                }
            } else {
                Front::Frame {
                    start: digits,
                    end: digits + length,
                }
            }
        }
    }
}
