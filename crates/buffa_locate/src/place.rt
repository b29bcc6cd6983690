//! Where bytes were refused.

ghost use Rattle.std.specs.Prelude.{None};

use buffa_wire::DecodeError;
use std::fmt;

/// A field on the way to the record that is refused.
///
/// `Display` prints a dot, and the name of the field or, where the message doesn't declare it, its number; and the index in
/// brackets.
///
/// ```ignore
/// for step in place.path.iter() { .. }
/// ```
#[derive(Clone, Copy, Debug, PartialEq, Eq)]
pub struct Step {
    /// The number of the field.
    pub number: u32,
    /// Its name in the `.proto`, where the message declares it.
    pub name: Option<&'static str>,
    /// How many fields of this number are in front of it, where the field is an element of a list of messages or an
    /// entry of a map of messages.
    pub index: Option<usize>,
}

impl fmt::Display for Step {
    ghost output = { λ _. None };

    fn fmt<W: fmt::Write>(&self, f: &mut fmt::Formatter<W>) -> fmt::Result {
        match self.name {
            Some(name) => write!(f, ".{name}")?,
            None => write!(f, ".{}", self.number)?,
        }
        match self.index {
            Some(index) => write!(f, "[{index}]"),
            None => Ok(()),
        }
    }
}

/// Where bytes were refused.
///
/// `Display` prints the fields, the offset and the fault, as `.lines[3].count at byte 117: InvalidUtf8`.
///
/// ```ignore
/// Some(place) => Ok(Some(format!(in alloc; "order{place}")?)),
/// ```
#[derive(Debug, Drop)]
pub struct Place {
    /// The fields, from the outside in. The last one is refused; where a tag is refused, the last one holds it.
    pub path: Vec<Step>,
    /// Where the refused record begins, in the whole of the bytes: in front of its tag.
    pub offset: usize,
    /// Why it is refused.
    pub fault: DecodeError,
}

impl fmt::Display for Place {
    ghost output = { λ _. None };

    fn fmt<W: fmt::Write>(&self, f: &mut fmt::Formatter<W>) -> fmt::Result {
        for step in self.path.iter() {
            write!(f, "{step}")?;
        }
        write!(f, " at byte {}: {}", self.offset, self.fault)
    }
}
