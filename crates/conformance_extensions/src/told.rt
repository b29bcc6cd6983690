// What codecs read, and what stands after a call, in words.

use buffa_wire::{EncodeError, UnknownFields};
use conformance_rows::case::Case;
use conformance_rows::fault::Fault;
use conformance_rows::outcome::{Outcome, got, records_told, written};
use conformance_rows::words::{Worded, copied, joined, records_of, records_word};
use sample_validator::Carrier;
use std::alloc::{AllocError, Global};

/// What a codec reads, in words, and the values that it writes, of words.
pub trait Told<By>: Drop {
    /// What it writes.
    type Value: Drop;

    /// The words.
    fn words(&self, alloc: Global) -> Result<String, Fault>;

    /// The value of words.
    fn value_of(alloc: Global, words: &str) -> Result<Self::Value, Fault>;
}

// The word of a value, or `none`.
impl<By, V: Worded<By>> Told<By> for Option<V> {
    type Value = V;

    fn words(&self, alloc: Global) -> Result<String, Fault> {
        match self {
            Some(value) => value.word(alloc),
            None => copied(alloc, "none"),
        }
    }

    fn value_of(alloc: Global, words: &str) -> Result<V, Fault> {
        V::of_word(alloc, words)
    }
}

// Puts a word behind others, with a space between them.
fn push_word(text: &mut String, word: &str) -> Result<(), Fault> {
    if !text.is_empty() {
        text.push_str(" ")?;
    }
    text.push_str(word)?;
    Ok(())
}

// Puts the value of a word behind others.
fn push_value<By, V: Worded<By>>(
    alloc: Global,
    values: &mut Vec<V>,
    word: &str,
) -> Result<(), Fault> {
    values.push(V::of_word(alloc, word)?)?;
    Ok(())
}

// The words of values.
impl<By, V: Worded<By>> Told<By> for Vec<V> {
    type Value = Vec<V>;

    fn words(&self, alloc: Global) -> Result<String, Fault> {
        let mut text = String::new(alloc);
        for value in self.iter() {
            let word = value.word(alloc)?;
            push_word(&mut text, word.as_str())?;
        }
        Ok(text)
    }

    fn value_of(alloc: Global, words: &str) -> Result<Vec<V>, Fault> {
        let mut values = Vec::new(alloc);
        for word in words.split_ascii_whitespace() {
            push_value::<By, V>(alloc, &mut values, word)?;
        }
        Ok(values)
    }
}

/// The words of what was read; nothing where it wasn't.
pub fn words_of<By, T: Told<By>, E>(alloc: Global, found: &Result<T, E>) -> Result<String, Fault> {
    match found {
        Ok(found) => found.words(alloc),
        Err(_) => Ok(String::new(alloc)),
    }
}

/// What comes of a call that failed for want of memory alone, if at all.
pub fn got_told(
    alloc: Global,
    is_ok: bool,
    words: Result<String, Fault>,
    records: Result<String, Fault>,
    refused: bool,
) -> Result<Outcome, Fault> {
    Outcome::of_words(alloc, got(alloc, is_ok), words, records, refused)
}

/// What comes of a call that tells no records.
pub fn words_told(
    alloc: Global,
    words: Result<String, Fault>,
    refused: bool,
) -> Result<Outcome, Fault> {
    got_told(alloc, true, words, Ok(String::new(alloc)), refused)
}

/// What comes of a write.
pub fn written_told(
    alloc: Global,
    answer: Result<(), EncodeError>,
    words: Result<String, Fault>,
    records: Result<String, Fault>,
    refused: bool,
) -> Result<Outcome, Fault> {
    Outcome::of_words(alloc, written(alloc, answer), words, records, refused)
}

/// What comes of a value that was read of records, or not where memory ran out.
pub fn found_told<By, T: Told<By>>(
    alloc: Global,
    found: &Result<T, AllocError>,
    fields: &UnknownFields,
    refused: bool,
) -> Result<Outcome, Fault> {
    let words = words_of::<By, T, AllocError>(alloc, found);
    got_told(
        alloc,
        found.is_ok(),
        words,
        records_told(alloc, fields),
        refused,
    )
}

/// The carrier of the records that stand before.
pub fn carrier_of(alloc: Global, case: &Case<'_>) -> Result<Carrier, Fault> {
    let fields = records_of(alloc, case.before())?;
    Ok(Carrier { fields })
}

/// Whether a row asks for the call whose name begins with `try`, of two calls that are alike.
pub fn asks_to_try(case: &Case<'_>) -> bool {
    case.says("by", "try")
}

/// Whether memory ran out.
pub fn is_full<T>(answer: &Result<T, EncodeError>) -> bool {
    match answer {
        Err(EncodeError::OutOfMemory) => true,
        _ => false,
    }
}

/// The records that stand where memory ran out, behind the word `stand` if they may; else as records that no row
/// has before.
pub fn stand_told(alloc: Global, fields: &UnknownFields, may: bool) -> Result<String, Fault> {
    let digits = records_word(alloc, fields)?;
    if may {
        return joined(alloc, "stand ", digits.as_str(), "");
    }
    joined(alloc, "records ", digits.as_str(), " may not stand")
}

/// Whether two lists are of the same records.
pub fn are_same(
    alloc: Global,
    some: &UnknownFields,
    others: &UnknownFields,
) -> Result<bool, Fault> {
    let digits = records_word(alloc, some)?;
    let wanted = records_word(alloc, others)?;
    Ok(digits.as_str() == wanted.as_str())
}
