// Measures and spots as words, behind whose members stands what their calls say; none is read of a word.

use crate::members::Members;
use buffa_fields::messages::required::Required;
use buffa_wire::Enumeration;
use conformance_messages::{Parted, Parts, parted_word};
use conformance_rows::fault::Fault;
use conformance_rows::outcome::in_words;
use conformance_rows::words::{Worded, joined, text_word};
use sample_measure::measure::Measure;
use sample_measure::spot::Spot;
use sample_measure::unit::Unit;
use std::alloc::Global;

// Whether all is there that is required, as a word.
fn required_word<M: Required>(message: &M) -> &'static str {
    if message.is_initialized() {
        "whole"
    } else {
        "lacks"
    }
}

// The word of a message, with one more part behind the others.
fn with_last(alloc: Global, word: &str, last: &str) -> Result<String, Fault> {
    match word.strip_suffix(')') {
        Some(parts) => Ok(format!(in alloc; "{parts}|{last})")?),
        None => Err(Fault::Form),
    }
}

// The word of a measure's defaults, or of what stands in their place.
fn said_of(alloc: Global, measure: &Measure) -> Result<String, Fault> {
    let value = in_words(alloc, &measure.value().bits)?;
    let unit = in_words(alloc, &measure.unit().to_i32())?;
    let note = text_word(alloc, measure.note())?;
    Ok(format!(in alloc; "{value}|{unit}|{note}")?)
}

// A closed enum has declared values alone.
impl Worded<Members> for Unit {
    fn word(&self, alloc: Global) -> Result<String, Fault> {
        in_words(alloc, &self.to_i32())
    }

    fn of_word(_alloc: Global, _word: &str) -> Result<Unit, Fault> {
        Err(Fault::Form)
    }
}

impl Parted<Members> for Measure {
    fn parts(&self, parts: &mut Parts<Members>) {
        parts.maybe(1, &self.station);
        parts.maybe(2, &self.value);
        parts.maybe(3, &self.unit);
        parts.list(4, self.gusts.as_slice());
        parts.list(5, self.levels.as_slice());
        parts.map(6, &self.tides);
        parts.maybe(7, &self.spot);
        parts.list(8, self.nearby.as_slice());
        parts.maybe(9, &self.note);
        parts.kept(&self.unknown_fields);
    }
}

impl Worded<Members> for Measure {
    fn word(&self, alloc: Global) -> Result<String, Fault> {
        let parts = parted_word::<Members, _>(alloc, self)?;
        let said = said_of(alloc, self)?;
        let word = with_last(alloc, parts.as_str(), said.as_str())?;
        with_last(alloc, word.as_str(), required_word::<Measure>(self))
    }

    fn of_word(_alloc: Global, _word: &str) -> Result<Measure, Fault> {
        Err(Fault::Form)
    }
}

impl Parted<Members> for Spot {
    fn parts(&self, parts: &mut Parts<Members>) {
        parts.maybe(1, &self.latitude);
        parts.maybe(2, &self.longitude);
        parts.maybe(3, &self.height);
        parts.kept(&self.unknown_fields);
    }
}

impl Worded<Members> for Spot {
    fn word(&self, alloc: Global) -> Result<String, Fault> {
        let parts = parted_word::<Members, _>(alloc, self)?;
        let said = in_words(alloc, &self.height().bits)?;
        let word = with_last(alloc, parts.as_str(), said.as_str())?;
        with_last(alloc, word.as_str(), required_word::<Spot>(self))
    }

    fn of_word(_alloc: Global, _word: &str) -> Result<Spot, Fault> {
        Err(Fault::Form)
    }
}
