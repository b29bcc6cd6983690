// The line before and after a call, for what counts its requests for memory.

use std::alloc::Global;
use std::io::{Stderr, Write};

/// The number of no request: none is refused, and all are counted.
pub const NO_REQUEST: u64 = 4_611_686_018_427_387_904;

/// Says when a call begins and ends, on standard error, to what stands before the C library's memory: from one line
/// to the other it counts requests, and refuses one of them, or all.
#[derive(Drop)]
pub struct Mark {
    errors: Stderr,
    // Which request is refused; none where nobody counts.
    nth: Option<u64>,
}

impl Mark {
    /// The request of this number is refused; each of them where it is 0; without a number nothing is said.
    pub fn new(errors: Stderr, nth: Option<u64>) -> Mark {
        Mark { errors, nth }
    }

    /// Says that the call begins.
    pub fn begin(&mut self, alloc: Global) {
        if let Some(nth) = self.nth {
            if let Ok(line) = format!(in alloc; "call, refuse {nth}\n") {
                let _ = self.errors.write(line.as_bytes());
            }
        }
    }

    /// Says that the call has ended; whether a request was refused, which is told by a write that takes one byte.
    pub fn end(&mut self) -> bool {
        if self.nth.is_none() {
            return false;
        }
        match self.errors.write(b"done\n") {
            Ok(taken) => taken == 1,
            Err(_) => false,
        }
    }

    // Whether a question is answered by yes, which is told by a write that takes one byte.
    fn is_yes(&mut self, alloc: Global, place: u64) -> bool {
        match format!(in alloc; "requests, bit {place}\n") {
            Ok(line) => match self.errors.write(line.as_bytes()) {
                Ok(taken) => taken == 1,
                Err(_) => false,
            },
            Err(_) => false,
        }
    }

    /// How many requests the call made that ended last; asked bit by bit.
    pub fn requests(&mut self, alloc: Global) -> u64 {
        let mut count: u64 = 0;
        let mut bit: u64 = 1;
        for place in 0..32u64 {
            if self.is_yes(alloc, place) {
                count = count.saturating_add(bit);
            }
            bit = bit.saturating_mul(2);
        }
        count
    }
}
