// Rows of a table, and what their settings say.

ghost use Rattle.std.specs.Prelude.{◌<◌, ◌≤◌, IfOk};

use crate::tables::fault::Fault;
use crate::tables::words::is_one;
use std::str::Split;

/// The greatest number that a field may have.
pub const MAX_NUMBER: u32 = 536_870_911;

/// The unknown fields left in a budget of which a row says nothing.
pub const UNKNOWN: u64 = 1_000_000;

/// The units of a budget of which a row says nothing.
pub const UNITS: u64 = 268_435_456;

/// A row: what is called, on what, and what comes of it.
#[derive(Clone, Copy)]
pub struct Case<'a> {
    /// What it shows.
    pub name: &'a str,
    /// The call.
    pub call: &'a str,
    /// The codecs, or the message.
    pub types: &'a str,
    /// What else the call is given, as `depth=1 number=5`; `-` for nothing.
    pub settings: &'a str,
    /// What stands before: the pairs of a map, records, a value; `-` for nothing.
    pub before: &'a str,
    /// What is read, in hexadecimal, or the value that is written; `-` for nothing.
    pub input: &'a str,
    /// `ok`, or the fault.
    pub answer: &'a str,
    /// What stands after.
    pub after: &'a str,
}

// The next column of a line, nothing behind the last one.
fn column<'a>(columns: &mut Split<'a, char>) -> &'a str {
    columns.next().unwrap_or("")
}

/// The row of a line, or none where it has no eighth column.
pub fn case_of(line: &str) -> Option<Case<'_>> {
    let mut columns = line.split('\t');
    let name = column(&mut columns);
    let call = column(&mut columns);
    let types = column(&mut columns);
    let settings = column(&mut columns);
    let before = column(&mut columns);
    let input = column(&mut columns);
    let answer = column(&mut columns);
    let after = columns.next()?;
    Some(Case {
        name,
        call,
        types,
        settings,
        before,
        input,
        answer,
        after,
    })
}

/// A text, or none where it is `-`.
pub fn given(text: &str) -> &str {
    if is_one(text, "-") { "" } else { text }
}

/// A text, or `-` for none.
pub fn or_dash(text: &str) -> &str {
    if text.is_empty() { "-" } else { text }
}

// What a word says of a setting, if it is that setting's.
fn said_of<'a>(word: &'a str, name: &str) -> Option<&'a str> {
    let (front, said) = word.split_once('=')?;
    if is_one(front, name) {
        return Some(said);
    }
    None
}

// A number that isn't too great for 32 bits.
fn narrow(number: Result<u64, Fault>) -> Result<u32, Fault> {
    let number = number?;
    if number > 4_294_967_295 {
        return Err(Fault::Form);
    }
    Ok(number as u32)
}

// A number as a count.
fn count(number: Result<u64, Fault>) -> Result<usize, Fault> {
    Ok(number? as usize)
}

impl<'a> Case<'a> {
    /// What is read or written.
    pub fn input(&self) -> &'a str {
        given(self.input)
    }

    /// What stands before.
    pub fn before(&self) -> &'a str {
        given(self.before)
    }

    /// What a setting says, if it is there.
    pub fn setting(&self, name: &str) -> Option<&'a str> {
        for word in self.settings.split(' ') {
            if let Some(said) = said_of(word, name) {
                return Some(said);
            }
        }
        None
    }

    /// Whether a setting is there.
    pub fn says_of(&self, name: &str) -> bool {
        self.setting(name).is_some()
    }

    /// The number that a setting says, or another one.
    pub fn number_or(&self, name: &str, other: u64) -> Result<u64, Fault> {
        match self.setting(name) {
            None => Ok(other),
            Some(said) => Ok(said.parse::<u64>()?),
        }
    }

    /// The depth; 10 where nothing is said.
    pub fn depth(&self) -> Result<u32, Fault> {
        narrow(self.number_or("depth", 10))
    }

    /// The field number; 5 where nothing is said.
    pub fn number(&self) -> Result<u32, Fault> {
        narrow(self.number_or("number", 5))
    }

    /// The field number, which has to be one that a field may have.
    pub fn field_number(&self) -> Result<u32, Fault>
        ensures { IfOk result (λ number. (0 < number) × (number ≤ 536870911)) }
    {
        let number = self.number()?;
        if number == 0 || number > MAX_NUMBER {
            return Err(Fault::Form);
        }
        Ok(number)
    }

    /// How many slots a cache has before; none where nothing is said.
    pub fn reserved(&self) -> Result<u64, Fault> {
        self.number_or("reserved", 0)
    }

    /// Whether a setting says this.
    pub fn says(&self, name: &str, said: &str) -> bool {
        match self.setting(name) {
            Some(found) => is_one(found, said),
            None => false,
        }
    }

    /// The unknown fields left in the budget.
    pub fn unknown(&self) -> Result<usize, Fault> {
        count(self.number_or("unknown", UNKNOWN))
    }

    /// The units of the budget.
    pub fn units(&self) -> Result<usize, Fault> {
        count(self.number_or("units", UNITS))
    }

    /// The number of bytes; none where nothing is said.
    pub fn length(&self) -> Result<u64, Fault> {
        self.number_or("length", 0)
    }

    /// How many more records a list has room for; none where nothing is said.
    pub fn room(&self) -> Result<usize, Fault> {
        count(self.number_or("room", 0))
    }
}
