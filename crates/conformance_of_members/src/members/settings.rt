// Settings as words; no settings are read of a word.

use crate::members::lists::{numbers_word, with_word};
use conformance_messages::{Parted, Parts};
use conformance_rows::fault::Fault;
use conformance_rows::words::{Worded, copied, joined, records_word, text_word};
use sample_recursive::settings::Settings;
use std::alloc::Global;
use std::marker::PhantomData;

/// The words of settings. It has a parameter for the reason that `Branches` has one.
pub struct Sections<T> {
    of: PhantomData<T>,
}

// Words with a comma between them.
fn with_commas(alloc: Global, all: &[String]) -> Result<String, Fault> {
    let mut words = String::new(alloc);
    for word in all {
        words = with_word(alloc, words.as_str(), word.as_str())?;
    }
    Ok(words)
}

// The word of a message behind that of its key.
fn pair_word<K: Worded<()>>(alloc: Global, key: &K, word: &str) -> Result<String, Fault> {
    let key = key.word(alloc)?;
    joined(alloc, key.as_str(), "=", word)
}

// The word of settings in which sections stand at most so many levels deep; pairs are in the order of their words.
fn settings_word(alloc: Global, settings: &Settings, levels: u32) -> Result<String, Fault> {
    if levels == 0 {
        return copied(alloc, "..");
    }
    let mut sections = Vec::new(alloc);
    for (key, one) in settings.sections.iter() {
        let word = settings_word(alloc, one, levels - 1)?;
        sections.push(pair_word::<String>(alloc, key, word.as_str())?)?;
    }
    sections.sort()?;
    let sections = with_commas(alloc, sections.as_slice())?;
    let value = text_word(alloc, settings.value.as_str())?;
    let ports = numbers_word(alloc, settings.ports.as_slice())?;
    let rest = records_word(alloc, &settings.unknown_fields)?;
    Ok(format!(in alloc; "({value}|{{{sections}}}|[{ports}]|{rest})")?)
}

impl<T> Worded<Sections<T>> for Settings {
    fn word(&self, alloc: Global) -> Result<String, Fault> {
        settings_word(alloc, self, 102)
    }

    fn of_word(_alloc: Global, _word: &str) -> Result<Settings, Fault> {
        Err(Fault::Form)
    }
}

impl<T> Parted<Sections<T>> for Settings {
    fn parts(&self, parts: &mut Parts<Sections<T>>) {
        parts.value(1, &self.value);
        parts.map(2, &self.sections);
        parts.list(3, self.ports.as_slice());
        parts.kept(&self.unknown_fields);
    }
}
