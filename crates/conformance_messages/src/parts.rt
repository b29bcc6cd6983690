// The members of a message as words.

use buffa_map::map_codec::MapWalk;
use buffa_wire::UnknownFields;
use conformance_rows::fault::Fault;
use conformance_rows::words::{Worded, copied, joined, records_word};
use std::alloc::Global;
use std::marker::PhantomData;

// A member's number, and its word; what is kept has the number 0.
type Part = (u32, String);

/// The members of a message as words, in order.
#[derive(Drop)]
pub struct Parts<By> {
    alloc: Global,
    all: Vec<Part>,
    // Why a member isn't told.
    fault: Option<Fault>,
    by: PhantomData<By>,
}

/// A message whose members are told as words.
pub trait Parted<By> {
    /// Puts the word of each member behind the others.
    fn parts(&self, parts: &mut Parts<By>);
}

/// The words of a message's members.
pub fn parts_of<By, M: Parted<By>>(alloc: Global, message: &M) -> Result<Parts<By>, Fault> {
    let mut parts = Parts {
        alloc,
        all: Vec::new(alloc),
        fault: None,
        by: PhantomData,
    };
    message.parts(&mut parts);
    match parts.fault {
        None => Ok(parts),
        Some(fault) => Err(fault),
    }
}

/// The word of a message by its members.
pub fn parted_word<By, M: Parted<By>>(alloc: Global, message: &M) -> Result<String, Fault> {
    let parts = parts_of::<By, M>(alloc, message)?;
    parts.word()
}

// Words, and one more behind a comma.
fn with_word(alloc: Global, words: &str, word: &str) -> Result<String, Fault> {
    let comma = if words.is_empty() { "" } else { "," };
    joined(alloc, words, comma, word)
}

// The words of values.
fn words_of<By, V: Worded<By>>(alloc: Global, values: &[V]) -> Result<Vec<String>, Fault> {
    let mut words = Vec::new(alloc);
    for value in values {
        words.push(value.word(alloc)?)?;
    }
    Ok(words)
}

// The word of a pair of words.
fn paired(alloc: Global, key: &str, value: &str) -> Result<String, Fault> {
    joined(alloc, key, "=", value)
}

// The word of a pair.
fn pair_word<By, K: Worded<By>, V: Worded<By>>(
    alloc: Global,
    key: &K,
    value: &V,
) -> Result<String, Fault> {
    let key = key.word(alloc)?;
    let value = value.word(alloc)?;
    paired(alloc, key.as_str(), value.as_str())
}

// The words of the pairs of a map, in the order of these.
fn pair_words<'a, By, C: MapWalk<'a>>(alloc: Global, map: &'a C) -> Result<Vec<String>, Fault>
where
    C::Key: Worded<By> + 'a,
    C::Value: Worded<By> + 'a,
{
    let mut pairs = Vec::new(alloc);
    for (key, value) in map.storage_iter() {
        pairs.push(pair_word::<By, C::Key, C::Value>(alloc, key, value)?)?;
    }
    pairs.sort()?;
    Ok(pairs)
}

// Whether a member has the same word twice, or is that of a number.
fn is_same(part: &Part, another: &Part, number: u32) -> bool {
    part.0 == number || part.1.as_str() == another.1.as_str()
}

// The words behind one another, with a comma between them.
fn with_commas(alloc: Global, words: &[String]) -> Result<String, Fault> {
    let mut all = String::new(alloc);
    for word in words {
        all = with_word(alloc, all.as_str(), word.as_str())?;
    }
    Ok(all)
}

// Some words between two marks, with a comma between them.
fn between(alloc: Global, front: &str, words: &[String], back: &str) -> Result<String, Fault> {
    let words = with_commas(alloc, words)?;
    joined(alloc, front, words.as_str(), back)
}

// The word of a value, or `none`.
fn maybe_word<By, V: Worded<By>>(alloc: Global, value: &Option<V>) -> Result<String, Fault> {
    match value {
        Some(value) => value.word(alloc),
        None => copied(alloc, "none"),
    }
}

// The word of values.
fn list_word<By, V: Worded<By>>(alloc: Global, values: &[V]) -> Result<String, Fault> {
    let words = words_of::<By, V>(alloc, values)?;
    between(alloc, "[", words.as_slice(), "]")
}

// The word of a map.
fn map_word<'a, By, C: MapWalk<'a>>(alloc: Global, map: &'a C) -> Result<String, Fault>
where
    C::Key: Worded<By> + 'a,
    C::Value: Worded<By> + 'a,
{
    let pairs = pair_words::<By, C>(alloc, map)?;
    between(alloc, "{", pairs.as_slice(), "}")
}

// Words, and that of a part behind a bar, but before the first.
fn with_part(alloc: Global, words: &str, is_first: bool, part: &Part) -> Result<String, Fault> {
    let mark = if is_first { "" } else { "|" };
    joined(alloc, words, mark, part.1.as_str())
}

// Puts a part behind others; whether there was memory.
fn is_put(all: &mut Vec<Part>, part: Part) -> bool {
    all.push(part).is_ok()
}

impl<By> Parts<By> {
    // One more, or the fault that stands in its place.
    fn push(&mut self, number: u32, word: Result<String, Fault>) {
        match word {
            Ok(word) => {
                if !is_put(&mut self.all, (number, word)) {
                    self.fault = Some(Fault::Memory);
                }
            }
            Err(fault) => {
                self.fault = Some(fault);
            }
        }
    }

    /// A value.
    pub fn value<V: Worded<By>>(&mut self, number: u32, value: &V) {
        let word = value.word(self.alloc);
        self.push(number, word);
    }

    /// A value, or `none`.
    pub fn maybe<V: Worded<By>>(&mut self, number: u32, value: &Option<V>) {
        let word = maybe_word::<By, V>(self.alloc, value);
        self.push(number, word);
    }

    /// Values between square brackets.
    pub fn list<V: Worded<By>>(&mut self, number: u32, values: &[V]) {
        let word = list_word::<By, V>(self.alloc, values);
        self.push(number, word);
    }

    /// The pairs of a map between braces, in the order of their words.
    pub fn map<'a, C: MapWalk<'a>>(&mut self, number: u32, map: &'a C)
    where
        C::Key: Worded<By> + 'a,
        C::Value: Worded<By> + 'a,
    {
        let word = map_word::<By, C>(self.alloc, map);
        self.push(number, word);
    }

    /// What is kept, in hexadecimal.
    pub fn kept(&mut self, fields: &UnknownFields) {
        let word = records_word(self.alloc, fields);
        self.push(0, word);
    }

    /// The word of the message: those of its members between parentheses.
    pub fn word(&self) -> Result<String, Fault> {
        let alloc = self.alloc;
        let mut words = String::new(alloc);
        for (at, part) in self.all.iter().enumerate() {
            words = with_part(alloc, words.as_str(), at == 0, part)?;
        }
        joined(alloc, "(", words.as_str(), ")")
    }

    /// Whether the members are the same, but for that of a number.
    pub fn is_same_but(&self, other: &Parts<By>, number: u32) -> bool {
        let mut others = other.all.iter();
        for part in self.all.iter() {
            match others.next() {
                Some(another) if is_same(part, another, number) => {}
                _ => return false,
            }
        }
        true
    }
}
