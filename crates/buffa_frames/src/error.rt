//! Why there is no frame.

ghost use Rattle.std.specs.Prelude.{◌≡◌, None, Some};
ghost use Rattle.buffa_frames.specs.FrameText.{frame_error_text, frame_fault_text};
ghost use Rattle.buffa_frames.specs.declared.error.FrameError.TheVariants as errors;

use std::alloc::{AllocError, AllocFailed};
use std::error::Error;
use std::{fmt, io};

/// What is wrong with bytes that begin no frame, whatever follows them.
///
/// `Display` prints the variant's name.
///
/// ```ignore
/// let refused = frame_at_front(&[0xFF, 0x7F], 1_000) == Front::Refused(FrameFault::TooLong);
/// ```
#[derive(Clone, Copy, Debug, PartialEq, Eq)]
pub enum FrameFault {
    /// The first ten bytes are no length: the tenth is neither 0 nor 1.
    MalformedLength,
    /// The length is above the maximum.
    TooLong,
}

impl fmt::Display for FrameFault {
    ghost output = { λ e. Some (frame_fault_text e) };

    fn fmt<W: fmt::Write>(&self, f: &mut fmt::Formatter<W>) -> fmt::Result {
        match self {
            FrameFault::MalformedLength => write!(f, "MalformedLength"),
            FrameFault::TooLong => write!(f, "TooLong"),
        }
    }
}

impl Error for FrameFault {}

/// Why a reader of frames has none to give.
///
/// `Display` prints the text of the fault or of the stream's error, or the variant's name.
///
/// ```ignore
/// let is_cut = matches!(frames.next_frame(), Err(FrameError::Cut));
/// ```
#[derive(Debug, Drop)]
pub enum FrameError {
    /// The stream's bytes begin no frame.
    Refused(FrameFault),
    /// The stream ends within a frame.
    Cut,
    /// The stream's own error.
    Stream(io::Error),
    /// A growth was refused. It says nothing of the stream.
    OutOfMemory,
}

impl fmt::Display for FrameError {
    ghost output = { λ e. frame_error_text e };

    fn fmt<W: fmt::Write>(&self, f: &mut fmt::Formatter<W>) -> fmt::Result {
        match self {
            FrameError::Refused(fault) => write!(f, "{fault}"),
            FrameError::Cut => write!(f, "Cut"),
            FrameError::Stream(error) => write!(f, "{error}"),
            FrameError::OutOfMemory => write!(f, "OutOfMemory"),
        }
    }
}

impl Error for FrameError {}

impl From<FrameFault> for FrameError {
    ghost from_gives = { λ fault e. e ≡ errors.Refused fault };

    fn from(fault: FrameFault) -> FrameError {
        FrameError::Refused(fault)
    }
}

impl From<AllocError> for FrameError {
    ghost from_gives = { λ _ e. e ≡ errors.OutOfMemory };

    fn from(_error: AllocError) -> FrameError {
        FrameError::OutOfMemory
    }
}

impl<T: Drop> From<AllocFailed<T>> for FrameError {
    ghost from_gives = { λ _ e. e ≡ errors.OutOfMemory };

    fn from(_error: AllocFailed<T>) -> FrameError {
        FrameError::OutOfMemory
    }
}
