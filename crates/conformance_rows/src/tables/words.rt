// Texts and bytes as the words of a table, and words in their order.

use crate::tables::fault::Fault;
use std::alloc::{AllocError, Global};

/// Whether two texts are one.
pub fn is_one(text: &str, other: &str) -> bool {
    text == other
}

/// A text that was made, if there was memory for it.
pub fn made(text: Result<String, AllocError>) -> Result<String, Fault> {
    Ok(text?)
}

/// A copy of a text.
pub fn copied(alloc: Global, text: &str) -> Result<String, Fault> {
    made(String::from_str(alloc, text))
}

/// Three texts, one behind the other.
pub fn joined(alloc: Global, first: &str, second: &str, third: &str) -> Result<String, Fault> {
    made(format!(in alloc; "{first}{second}{third}"))
}

/// Puts a text behind another.
pub fn push_text(line: &mut String, text: &str) -> Result<(), Fault> {
    Ok(line.push_str(text)?)
}

/// Bytes in hexadecimal.
pub fn digits_of(alloc: Global, bytes: &[u8]) -> Result<String, Fault> {
    made(hex::encode(alloc, bytes))
}

/// The bytes of hexadecimal digits.
pub fn digits_bytes(alloc: Global, digits: &str) -> Result<Vec<u8>, Fault> {
    Ok(hex::decode(alloc, digits)?)
}

// Whether letters and digits alone stand in a text.
fn is_plain(text: &[u8]) -> bool {
    for byte in text {
        if !byte.is_ascii_alphanumeric() {
            return false;
        }
    }
    true
}

/// Bytes in hexadecimal, behind an x.
pub fn bytes_word(alloc: Global, bytes: &[u8]) -> Result<String, Fault> {
    let digits = digits_of(alloc, bytes)?;
    joined(alloc, "x", digits.as_str(), "")
}

/// The bytes of hexadecimal digits behind an x.
pub fn word_bytes(alloc: Global, word: &str) -> Result<Vec<u8>, Fault> {
    match word.strip_prefix('x') {
        Some(digits) => digits_bytes(alloc, digits),
        None => Err(Fault::Form),
    }
}

/// A text as a word: one of letters and digits stands between quotation marks, any other in hexadecimal.
pub fn text_word(alloc: Global, text: &str) -> Result<String, Fault> {
    if is_plain(text.as_bytes()) {
        return joined(alloc, "\"", text, "\"");
    }
    bytes_word(alloc, text.as_bytes())
}

// The text of bytes, if they are one.
fn bytes_text(bytes: Vec<u8>) -> Result<String, Fault> {
    Ok(String::from_utf8(bytes)?)
}

/// The text of a word.
pub fn word_text(alloc: Global, word: &str) -> Result<String, Fault> {
    if word.starts_with('"') {
        return copied(alloc, word.trim_matches('"'));
    }
    bytes_text(word_bytes(alloc, word)?)
}

/// Puts a word behind others, with a space between them.
pub fn push_word(words: &mut String, word: &str) -> Result<(), Fault> {
    if !words.is_empty() {
        push_text(words, " ")?;
    }
    push_text(words, word)
}

// The words with a space between them.
fn spaced(alloc: Global, words: &[&str]) -> Result<String, Fault> {
    let mut text = String::new(alloc);
    for word in words {
        push_word(&mut text, word)?;
    }
    Ok(text)
}

// Words one by one.
fn each_word(alloc: Global, words: &str) -> Result<Vec<&str>, Fault> {
    let mut each = Vec::new(alloc);
    for word in words.split_ascii_whitespace() {
        each.push(word)?;
    }
    Ok(each)
}

// Puts words in order.
fn sort(words: &mut Vec<&str>) -> Result<(), Fault> {
    Ok(words.sort()?)
}

/// Words in their order.
pub fn in_order(alloc: Global, words: &str) -> Result<String, Fault> {
    let mut sorted = each_word(alloc, words)?;
    sort(&mut sorted)?;
    spaced(alloc, sorted.as_slice())
}
