// Why a row was not done.

use hex::FromHexError;
use std::alloc::{AllocError, AllocFailed};
use std::num::ParseIntError;
use std::str::ParseBoolError;
use std::string::FromUtf8Error;

/// Why a row was not done: what it says can't be read, or there was no memory to tell what came of it.
#[derive(Clone, Copy)]
pub enum Fault {
    /// The row isn't in form.
    Form,
    /// Memory ran out outside the call.
    Memory,
}

impl From<AllocError> for Fault {
    fn from(_error: AllocError) -> Fault {
        Fault::Memory
    }
}

impl<T: Drop> From<AllocFailed<T>> for Fault {
    fn from(_error: AllocFailed<T>) -> Fault {
        Fault::Memory
    }
}

impl From<FromHexError> for Fault {
    fn from(_error: FromHexError) -> Fault {
        Fault::Form
    }
}

impl From<ParseIntError> for Fault {
    fn from(_error: ParseIntError) -> Fault {
        Fault::Form
    }
}

impl From<ParseBoolError> for Fault {
    fn from(_error: ParseBoolError) -> Fault {
        Fault::Form
    }
}

impl From<FromUtf8Error> for Fault {
    fn from(_error: FromUtf8Error) -> Fault {
        Fault::Form
    }
}
