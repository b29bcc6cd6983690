// What a row reads with, and what is told of a read.

use buffa_wire::{Budget, Buf, DecodeContext, DecodeError};
use conformance_rows::case::Case;
use conformance_rows::fault::Fault;
use conformance_rows::outcome::{Outcome, budget_of, told, unread, with_left};
use std::alloc::Global;

/// What a row reads with: a budget, and a depth.
#[derive(Drop)]
pub(crate) struct Limits {
    /// The budget.
    pub budget: Budget,
    /// The depth.
    pub depth: u32,
}

impl Limits {
    /// The limits of a row.
    pub(crate) fn of(case: &Case<'_>) -> Result<Limits, Fault> {
        let budget = budget_of(case)?;
        let depth = case.depth()?;
        Ok(Limits { budget, depth })
    }

    /// The context of a read.
    pub(crate) fn context(&mut self) -> DecodeContext<'_> {
        DecodeContext::new(self.depth, &mut self.budget)
    }
}

/// What a read answers.
#[derive(Clone, Copy)]
pub(crate) struct Read {
    /// Its answer.
    pub answer: Result<(), DecodeError>,
    /// How many bytes are unread where it is ok.
    pub unread: usize,
    /// Whether a request for memory was refused.
    pub refused: bool,
}

impl Read {
    /// The answer of a read from a buffer.
    pub(crate) fn of<B: Buf>(answer: Result<(), DecodeError>, refused: bool, buf: &B) -> Read {
        Read {
            answer,
            unread: unread::<B>(answer.is_ok(), buf),
            refused,
        }
    }

    /// What comes of a row that reads: these pairs, and this rest.
    pub(crate) fn outcome(
        self,
        alloc: Global,
        case: &Case<'_>,
        budget: &Budget,
        pairs: Result<String, Fault>,
        rest: Result<String, Fault>,
    ) -> Result<Outcome, Fault> {
        let answer = told(alloc, self.answer);
        let outcome = Outcome::of_words(alloc, answer, pairs, rest, self.refused);
        with_left(alloc, case, budget, outcome, self.unread)
    }
}
