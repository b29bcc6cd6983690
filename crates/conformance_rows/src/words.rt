// Values as the words of a table.

use crate::tables::fault::Fault;
use crate::tables::outcome::in_words;
pub use crate::tables::words::{
    bytes_word, copied, joined, push_word, text_word, word_bytes, word_text,
};
use buffa_wire::{
    Blank, Budget, DEFAULT_UNKNOWN_FIELD_LIMIT, DecodeContext, DecodeError, DoubleBits, FloatBits,
    RECURSION_LIMIT, Tag, UnknownField, UnknownFields, decode_unknown_field,
};
use bytes::Bytes;
use std::alloc::Global;

/// A value that stands in a table as one word. `By` is a type of the crate that says how, so that a crate can say it
/// of types that are not its own; of numbers, texts and bytes it is said here, for each `By`.
pub trait Worded<By>: Blank {
    /// The word of a value.
    fn word(&self, alloc: Global) -> Result<String, Fault>;

    /// The value of a word.
    fn of_word(alloc: Global, word: &str) -> Result<Self, Fault>;
}

/// The word of a number that an enum doesn't declare: it stands behind a question mark.
pub fn unknown_word(alloc: Global, number: i32) -> Result<String, Fault> {
    let number = in_words(alloc, &number)?;
    joined(alloc, "?", number.as_str(), "")
}

impl<By> Worded<By> for i32 {
    fn word(&self, alloc: Global) -> Result<String, Fault> {
        in_words(alloc, self)
    }

    fn of_word(_alloc: Global, word: &str) -> Result<i32, Fault> {
        Ok(word.parse::<i32>()?)
    }
}

impl<By> Worded<By> for i64 {
    fn word(&self, alloc: Global) -> Result<String, Fault> {
        in_words(alloc, self)
    }

    fn of_word(_alloc: Global, word: &str) -> Result<i64, Fault> {
        Ok(word.parse::<i64>()?)
    }
}

impl<By> Worded<By> for u32 {
    fn word(&self, alloc: Global) -> Result<String, Fault> {
        in_words(alloc, self)
    }

    fn of_word(_alloc: Global, word: &str) -> Result<u32, Fault> {
        Ok(word.parse::<u32>()?)
    }
}

impl<By> Worded<By> for u64 {
    fn word(&self, alloc: Global) -> Result<String, Fault> {
        in_words(alloc, self)
    }

    fn of_word(_alloc: Global, word: &str) -> Result<u64, Fault> {
        Ok(word.parse::<u64>()?)
    }
}

// The number that the bits are.
impl<By> Worded<By> for FloatBits {
    fn word(&self, alloc: Global) -> Result<String, Fault> {
        in_words(alloc, &self.bits)
    }

    fn of_word(_alloc: Global, word: &str) -> Result<FloatBits, Fault> {
        Ok(FloatBits {
            bits: word.parse::<u32>()?,
        })
    }
}

impl<By> Worded<By> for DoubleBits {
    fn word(&self, alloc: Global) -> Result<String, Fault> {
        in_words(alloc, &self.bits)
    }

    fn of_word(_alloc: Global, word: &str) -> Result<DoubleBits, Fault> {
        Ok(DoubleBits {
            bits: word.parse::<u64>()?,
        })
    }
}

impl<By> Worded<By> for bool {
    fn word(&self, alloc: Global) -> Result<String, Fault> {
        in_words(alloc, self)
    }

    fn of_word(_alloc: Global, word: &str) -> Result<bool, Fault> {
        Ok(word.parse::<bool>()?)
    }
}

impl<By> Worded<By> for String {
    fn word(&self, alloc: Global) -> Result<String, Fault> {
        text_word(alloc, self.as_str())
    }

    fn of_word(alloc: Global, word: &str) -> Result<String, Fault> {
        word_text(alloc, word)
    }
}

impl<By> Worded<By> for Vec<u8> {
    fn word(&self, alloc: Global) -> Result<String, Fault> {
        bytes_word(alloc, self.as_slice())
    }

    fn of_word(alloc: Global, word: &str) -> Result<Vec<u8>, Fault> {
        word_bytes(alloc, word)
    }
}

impl<By> Worded<By> for Bytes {
    fn word(&self, alloc: Global) -> Result<String, Fault> {
        bytes_word(alloc, self.as_slice())
    }

    fn of_word(alloc: Global, word: &str) -> Result<Bytes, Fault> {
        let bytes = word_bytes(alloc, word)?;
        Ok(Bytes::copy_from_slice(alloc, bytes.as_slice())?)
    }
}

// The next record of bytes, which may hold as many as a budget allows.
fn next_record(alloc: Global, bytes: &mut &[u8]) -> Result<UnknownField, DecodeError> {
    let mut budget = Budget::new(DEFAULT_UNKNOWN_FIELD_LIMIT);
    let tag = Tag::decode(bytes)?;
    let ctx = DecodeContext::new(RECURSION_LIMIT, &mut budget);
    decode_unknown_field(alloc, tag, bytes, ctx)
}

// Puts the next record of bytes behind others.
fn push_next(alloc: Global, fields: &mut UnknownFields, bytes: &mut &[u8]) -> Result<(), Fault> {
    match next_record(alloc, bytes) {
        Ok(field) => Ok(fields.push(field)?),
        Err(_) => Err(Fault::Form),
    }
}

/// The records that hexadecimal digits are; more of them than a budget allows, where no record alone has more.
pub fn records_of(alloc: Global, digits: &str) -> Result<UnknownFields, Fault> {
    let text = hex::decode(alloc, digits)?;
    let mut bytes = text.as_slice();
    let mut fields = UnknownFields::new(alloc);
    for _ in 0..text.len() {
        if bytes.is_empty() {
            return Ok(fields);
        }
        push_next(alloc, &mut fields, &mut bytes)?;
    }
    Ok(fields)
}

/// The hexadecimal digits of records.
pub fn records_word(alloc: Global, fields: &UnknownFields) -> Result<String, Fault> {
    let mut text = Vec::new(alloc);
    match fields.write_to(&mut text) {
        Ok(()) => Ok(hex::encode(alloc, text.as_slice())?),
        Err(_) => Err(Fault::Memory),
    }
}
