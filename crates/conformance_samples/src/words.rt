// Values of samples as words.

use crate::Samples;
use buffa_map::map_codec::MapWalk;
use buffa_wire::{EnumValue, Enumeration};
use conformance_rows::fault::Fault;
use conformance_rows::outcome::in_words;
use conformance_rows::words::{
    Worded, copied, joined, records_of, records_word, text_word, unknown_word, word_text,
};
use sample_types::count::CountMsg;
use sample_types::flat::FlatMsg;
use sample_types::hues::{New, Old};
use sample_types::keep::BudgetMsg;
use sample_types::tree::Tree;
use sample_types::two::TestMsg;
use sample_types::word::Word;
use std::alloc::Global;

impl Worded<Samples> for Word {
    fn word(&self, alloc: Global) -> Result<String, Fault> {
        text_word(alloc, self.text.as_str())
    }

    fn of_word(alloc: Global, word: &str) -> Result<Word, Fault> {
        let text = word_text(alloc, word)?;
        Ok(Word { text })
    }
}

impl Worded<Samples> for Old {
    fn word(&self, alloc: Global) -> Result<String, Fault> {
        in_words(alloc, &self.to_i32())
    }

    fn of_word(_alloc: Global, word: &str) -> Result<Old, Fault> {
        Old::from_i32(word.parse::<i32>()?).ok_or(Fault::Form)
    }
}

impl Worded<Samples> for New {
    fn word(&self, alloc: Global) -> Result<String, Fault> {
        in_words(alloc, &self.to_i32())
    }

    fn of_word(_alloc: Global, word: &str) -> Result<New, Fault> {
        New::from_i32(word.parse::<i32>()?).ok_or(Fault::Form)
    }
}

// A declared value is known; any other stands behind a question mark.
impl Worded<Samples> for EnumValue<Old> {
    fn word(&self, alloc: Global) -> Result<String, Fault> {
        match self {
            EnumValue::Known(_) => in_words(alloc, &self.to_i32()),
            EnumValue::Unknown(n) => unknown_word(alloc, *n),
        }
    }

    fn of_word(_alloc: Global, word: &str) -> Result<EnumValue<Old>, Fault> {
        match word.strip_prefix('?') {
            Some(number) => Ok(EnumValue::Unknown(number.parse::<i32>()?)),
            None => Ok(EnumValue::from_i32(word.parse::<i32>()?)),
        }
    }
}

impl Worded<Samples> for FlatMsg {
    fn word(&self, alloc: Global) -> Result<String, Fault> {
        in_words(alloc, &self.value)
    }

    fn of_word(alloc: Global, word: &str) -> Result<FlatMsg, Fault> {
        let value = word.parse::<i32>()?;
        Ok(FlatMsg { value })
    }
}

// Both numbers, with a comma between them.
impl Worded<Samples> for TestMsg {
    fn word(&self, alloc: Global) -> Result<String, Fault> {
        let a = in_words(alloc, &self.a)?;
        let b = in_words(alloc, &self.b)?;
        joined(alloc, a.as_str(), ",", b.as_str())
    }

    fn of_word(alloc: Global, word: &str) -> Result<TestMsg, Fault> {
        let Some((a, b)) = word.split_once(',') else {
            return Err(Fault::Form);
        };
        let a = a.parse::<i32>()?;
        let b = b.parse::<i32>()?;
        Ok(TestMsg { a, b })
    }
}

impl Worded<Samples> for CountMsg {
    fn word(&self, alloc: Global) -> Result<String, Fault> {
        in_words(alloc, &self.count)
    }

    fn of_word(alloc: Global, word: &str) -> Result<CountMsg, Fault> {
        let count = word.parse::<u64>()?;
        Ok(CountMsg { count })
    }
}

// The encoding of the fields.
impl Worded<Samples> for BudgetMsg {
    fn word(&self, alloc: Global) -> Result<String, Fault> {
        let digits = records_word(alloc, &self.fields)?;
        joined(alloc, "x", digits.as_str(), "")
    }

    fn of_word(alloc: Global, word: &str) -> Result<BudgetMsg, Fault> {
        let Some(digits) = word.strip_prefix('x') else {
            return Err(Fault::Form);
        };
        let fields = records_of(alloc, digits)?;
        Ok(BudgetMsg { fields })
    }
}

// The text of a tree so far, and one child more.
fn with_child(alloc: Global, text: &str, key: i32, child: &str) -> Result<String, Fault> {
    Ok(format!(in alloc; "{text}{key}:{child};")?)
}

// The words of a tree that has at most so many levels below its own.
fn tree_word(alloc: Global, tree: &Tree, levels: u32) -> Result<String, Fault> {
    if levels == 0 {
        return copied(alloc, "..");
    }
    let mut text = String::new(alloc);
    for (key, child) in tree.children.storage_iter() {
        let words = tree_word(alloc, child, levels - 1)?;
        text = with_child(alloc, text.as_str(), *key, words.as_str())?;
    }
    Ok(format!(in alloc; "{}({text})", tree.label)?)
}

// The label, and the children by their keys: `0(1:5();)`; no value is read of a word.
impl Worded<Samples> for Tree {
    fn word(&self, alloc: Global) -> Result<String, Fault> {
        tree_word(alloc, self, 9)
    }

    fn of_word(_alloc: Global, _word: &str) -> Result<Tree, Fault> {
        Err(Fault::Form)
    }
}
