// How many runs were as they must be.

use crate::tables::fault::Fault;
use crate::tables::outcome::{Found, Outcome};

/// The runs of a row, or of all.
#[derive(Clone, Copy)]
pub struct Tally {
    /// How many there were.
    pub runs: u64,
    /// How many were wrong.
    pub wrong: u64,
    /// In how many a request for memory was refused.
    pub refused: u64,
    /// Whether a run wasn't done, so that nothing is told of the row.
    pub is_broken: bool,
}

impl Tally {
    /// No runs.
    pub fn new() -> Tally {
        Tally {
            runs: 0,
            wrong: 0,
            refused: 0,
            is_broken: false,
        }
    }

    /// One run that is wrong.
    pub fn one_wrong() -> Tally {
        let mut tally = Tally::new();
        tally.add(false);
        tally
    }

    /// One run more.
    pub fn add(&mut self, right: bool) {
        self.runs = self.runs.saturating_add(1);
        if !right {
            self.wrong = self.wrong.saturating_add(1);
        }
    }

    /// One run more, in which a request was refused.
    pub fn add_refused(&mut self, right: bool) {
        self.refused = self.refused.saturating_add(1);
        self.add(right);
    }

    /// One run more, if it could be told whether it is right.
    pub fn add_told(&mut self, right: Result<bool, Fault>) {
        match right {
            Ok(right) => self.add(right),
            Err(_) => self.is_broken = true,
        }
    }

    /// One run more in which a request was refused, if it could be told whether it is right.
    pub fn add_refused_told(&mut self, right: Result<bool, Fault>) {
        match right {
            Ok(right) => self.add_refused(right),
            Err(_) => self.is_broken = true,
        }
    }

    /// Notes whether something could be done.
    pub fn note(&mut self, done: Result<(), Fault>) {
        if done.is_err() {
            self.is_broken = true;
        }
    }

    /// The outcome of a run that was done.
    pub fn kept(&mut self, found: Found) -> Option<Outcome> {
        match found {
            Ok(outcome) => outcome,
            Err(_) => {
                self.is_broken = true;
                None
            }
        }
    }

    /// The runs of a row: one wrong one, if not all were done.
    pub fn of_row(self) -> Tally {
        if self.is_broken {
            return Tally::one_wrong();
        }
        self
    }

    /// Whether there are runs, none of them wrong.
    pub fn holds(&self) -> bool {
        self.wrong == 0 && self.runs > 0
    }

    /// The runs of both.
    pub fn and(self, other: Tally) -> Tally {
        Tally {
            runs: self.runs.saturating_add(other.runs),
            wrong: self.wrong.saturating_add(other.wrong),
            refused: self.refused.saturating_add(other.refused),
            is_broken: self.is_broken || other.is_broken,
        }
    }
}
