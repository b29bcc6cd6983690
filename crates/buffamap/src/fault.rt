// Why a call has no answer.
ghost use Rattle.std.specs.Prelude.{◌≡◌};
ghost use Rattle.buffamap.specs.Fault.{IsOfBytes, IsOfDigits, IsOfRewrite, IsOfEncoding};
ghost use Rattle.buffamap.specs.declared.fault.Fault.TheVariants.{OutOfMemory};

use buffa_map::map_codec::RewriteError;
use buffa_wire::{DecodeError, EncodeError};
use hex::FromHexError;
use std::alloc::{AllocError, AllocFailed};
use thiserror::Error;

/// Why a call has no answer. Its own text is never printed: [`crate::reply::tell`] says what is printed of it.
#[derive(Clone, Copy, Debug, PartialEq, Eq, Error)]
pub enum Fault {
    /// The words are no command.
    #[error("the words are no command")]
    Words,
    /// The input isn't in the stated form.
    #[error("the input isn't in the stated form")]
    Form,
    /// A read or a write failed.
    #[error("a stream failed")]
    Stream,
    /// Memory ran out.
    #[error("memory ran out")]
    OutOfMemory,
    /// The bytes that were given are refused.
    #[error("the bytes are refused: {0}")]
    RefusedBytes(DecodeError),
    /// The bytes that were to be written are refused.
    #[error("the encoding is refused: {0}")]
    RefusedEncoding(EncodeError),
}

impl From<AllocError> for Fault {
    ghost from_gives = { λ _ f. f ≡ OutOfMemory };

    fn from(_error: AllocError) -> Fault {
        Fault::OutOfMemory
    }
}

impl<T: Drop> From<AllocFailed<T>> for Fault {
    ghost from_gives = { λ _ f. f ≡ OutOfMemory };

    fn from(_error: AllocFailed<T>) -> Fault {
        Fault::OutOfMemory
    }
}

impl From<FromHexError> for Fault {
    ghost from_gives = { IsOfDigits };

    fn from(error: FromHexError) -> Fault {
        match error {
            FromHexError::OutOfMemory => Fault::OutOfMemory,
            _ => Fault::Form,
        }
    }
}

impl From<DecodeError> for Fault {
    ghost from_gives = { IsOfBytes };

    fn from(error: DecodeError) -> Fault {
        match error {
            DecodeError::OutOfMemory => Fault::OutOfMemory,
            _ => Fault::RefusedBytes(error),
        }
    }
}

impl From<EncodeError> for Fault {
    ghost from_gives = { IsOfEncoding };

    fn from(error: EncodeError) -> Fault {
        match error {
            EncodeError::OutOfMemory => Fault::OutOfMemory,
            _ => Fault::RefusedEncoding(error),
        }
    }
}

impl From<RewriteError> for Fault {
    ghost from_gives = { IsOfRewrite };

    fn from(error: RewriteError) -> Fault {
        match error {
            RewriteError::Decode(error) => Fault::from(error),
            RewriteError::Encode(error) => Fault::from(error),
        }
    }
}
