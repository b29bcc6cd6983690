// What comes of a call, in words.

use crate::tables::case::{Case, or_dash};
use crate::tables::fault::Fault;
use crate::tables::words::{copied, digits_of, joined, made};
use std::alloc::Global;
use std::fmt::Display;

/// What comes of a call.
pub struct Outcome {
    /// `ok`, or the fault.
    pub answer: String,
    /// What a refusal leaves or goes back to: the pairs of a map.
    pub pairs: String,
    /// The records that were kept, or the encoding that was written.
    pub rest: String,
    /// What is left of the budget and of the buffer.
    pub left: String,
    /// How many bytes are unread where the answer is ok.
    pub unread: usize,
    /// Whether a request for memory was refused.
    pub refused: bool,
}

/// What comes of a way to run a row; none where its types don't go into the storage.
pub type Found = Result<Option<Outcome>, Fault>;

// By hand, so that it is one call wherever an outcome is dropped, and not one for each text.
impl Drop for Outcome {
    fn drop(self) {
        let Outcome {
            answer: _,
            pairs: _,
            rest: _,
            left: _,
            unread: _,
            refused: _,
        } = self;
    }
}

impl Outcome {
    /// What comes of a call that leaves no budget and no buffer.
    pub fn of_words(
        alloc: Global,
        answer: Result<String, Fault>,
        pairs: Result<String, Fault>,
        rest: Result<String, Fault>,
        refused: bool,
    ) -> Result<Outcome, Fault> {
        Ok(Outcome {
            answer: answer?,
            pairs: pairs?,
            rest: rest?,
            left: String::new(alloc),
            unread: 0,
            refused,
        })
    }

    /// The same with what is left, and how many bytes are unread where the answer is ok.
    pub fn with_left(
        mut self,
        left: Result<String, Fault>,
        unread: usize,
    ) -> Result<Outcome, Fault> {
        self.left = left?;
        self.unread = unread;
        Ok(self)
    }

    /// The answer.
    pub fn answer(&self) -> &str {
        self.answer.as_str()
    }

    /// The pairs.
    pub fn pairs(&self) -> &str {
        self.pairs.as_str()
    }

    /// The records or the encoding.
    pub fn rest(&self) -> &str {
        self.rest.as_str()
    }

    /// What is left.
    pub fn left(&self) -> &str {
        self.left.as_str()
    }
}

/// The word of what took memory, or none.
pub fn got(alloc: Global, is_ok: bool) -> Result<String, Fault> {
    copied(alloc, if is_ok { "ok" } else { "OutOfMemory" })
}

/// A number or a fault in words.
pub fn in_words<T: Display>(alloc: Global, value: &T) -> Result<String, Fault> {
    made(format!(in alloc; "{value}"))
}

/// Two numbers or faults in words, with a space between them.
pub fn two_in_words<T: Display, U: Display>(
    alloc: Global,
    first: &T,
    second: &U,
) -> Result<String, Fault> {
    made(format!(in alloc; "{first} {second}"))
}

/// What hexadecimal digits are, and they, or a dash for none.
pub fn digits_told(alloc: Global, name: &str, digits: &str) -> Result<String, Fault> {
    joined(alloc, name, " ", or_dash(digits))
}

/// An encoding that was written, in hexadecimal.
pub fn text_told(alloc: Global, text: &[u8]) -> Result<String, Fault> {
    let digits = digits_of(alloc, text)?;
    digits_told(alloc, "text", digits.as_str())
}

/// The two joined by a semicolon; no part is left out for being empty, except the second one.
pub fn and(alloc: Global, first: &str, second: &str) -> Result<String, Fault> {
    let sign = if first.is_empty() || second.is_empty() {
        ""
    } else {
        "; "
    };
    joined(alloc, first, sign, second)
}

// How many there are, and of what; nothing where it isn't told.
fn part(alloc: Global, is_told: bool, count: usize, name: &str) -> Result<String, Fault> {
    if !is_told {
        return Ok(String::new(alloc));
    }
    let count = in_words(alloc, &count)?;
    joined(alloc, count.as_str(), " ", name)
}

// The two joined, if both are there.
fn both(
    alloc: Global,
    first: Result<String, Fault>,
    second: Result<String, Fault>,
) -> Result<String, Fault> {
    let first = first?;
    let second = second?;
    and(alloc, first.as_str(), second.as_str())
}

/// What is left of a budget, its unknown fields and units, where the row's settings name them, and of the
/// buffer, where some is.
pub fn left_told(
    alloc: Global,
    case: &Case<'_>,
    unknown: usize,
    units: usize,
    unread: usize,
) -> Result<String, Fault> {
    let unknown = part(alloc, case.says_of("unknown"), unknown, "unknown");
    let units = part(alloc, case.says_of("units"), units, "units");
    let unread = part(alloc, unread > 0, unread, "unread");
    both(alloc, both(alloc, unknown, units), unread)
}
