// Lists as words.

use conformance_rows::fault::Fault;
use conformance_rows::outcome::in_words;
use conformance_rows::words::joined;
use std::alloc::Global;

/// Words, and one more behind a comma.
pub fn with_word(alloc: Global, words: &str, word: &str) -> Result<String, Fault> {
    let comma = if words.is_empty() { "" } else { "," };
    joined(alloc, words, comma, word)
}

/// Numbers, with a comma between them.
pub fn numbers_word(alloc: Global, numbers: &[i32]) -> Result<String, Fault> {
    let mut words = String::new(alloc);
    for number in numbers {
        let word = in_words(alloc, number)?;
        words = with_word(alloc, words.as_str(), word.as_str())?;
    }
    Ok(words)
}
