// Descriptors, and the defaults that they declare.

use crate::told::{carrier_of, found_told, got_told, words_of, words_told};
use buffa_ext::{Extension, ExtensionCodec, ExtensionSet, NoDefault};
use buffa_wire::Blank;
use conformance_rows::case::Case;
use conformance_rows::fault::Fault;
use conformance_rows::mark::Mark;
use conformance_rows::outcome::{Outcome, in_words};
use conformance_rows::words::{Worded, joined};
use sample_validator::Carrier;
use std::alloc::{AllocError, Global};

// A number and an extendee.
#[derive(Clone, Copy)]
struct Part {
    number: u32,
    extendee: &'static str,
}

// The parts of a descriptor, of its copy, and of one with a default.
#[derive(Clone, Copy)]
struct Parts {
    first: Part,
    copy: Part,
    declares: Part,
}

// What a descriptor gives back of what it was given.
fn part_of<C: ExtensionCodec, D>(ext: &Extension<C, D>) -> Part {
    Part {
        number: ext.number(),
        extendee: ext.extendee(),
    }
}

// What descriptors of a number give back.
fn parts_of<C: ExtensionCodec>(number: u32) -> Result<Parts, AllocError> {
    let first = Extension::<C>::new(number, "test.Carrier");
    let copy = first.clone()?;
    let declares = Extension::<C>::with_default(number, "test.Carrier", |_alloc: Global| {
        Err(AllocError)
    });
    Ok(Parts {
        first: part_of(&first),
        copy: part_of(&copy),
        declares: part_of(&declares),
    })
}

// Words, and behind them the number and the extendee of a descriptor.
fn with_part(alloc: Global, words: &str, part: Part) -> Result<String, Fault> {
    let space = if words.is_empty() { "" } else { " " };
    let number = in_words(alloc, &part.number)?;
    let part = joined(alloc, number.as_str(), " ", part.extendee)?;
    joined(alloc, words, space, part.as_str())
}

// The numbers and the extendees of all parts.
fn parts_told(alloc: Global, parts: Parts) -> Result<String, Fault> {
    let first = with_part(alloc, "", parts.first)?;
    let both = with_part(alloc, first.as_str(), parts.copy)?;
    with_part(alloc, both.as_str(), parts.declares)
}

/// What a descriptor gives back of what it was given.
pub fn descriptor<C: ExtensionCodec>(
    alloc: Global,
    case: &Case<'_>,
    mark: &mut Mark,
) -> Result<Outcome, Fault> {
    let number = case.number()?;
    mark.begin(alloc);
    let parts = parts_of::<C>(number);
    let refused = mark.end();
    words_told(alloc, parts_told(alloc, parts?), refused)
}

// A word of at most 64 bytes with spaces behind it, which a default may hold.
fn short_of(word: &str) -> Result<[u8; 64], Fault> {
    let mut short = [b' '; 64];
    let text = word.as_bytes();
    if text.len() > 64 {
        return Err(Fault::Form);
    }
    short[..text.len()].copy_from_slice(text);
    Ok(short)
}

// The word of the setting `declared`.
fn declared_of(case: &Case<'_>) -> Result<Option<[u8; 64]>, Fault> {
    match case.setting("declared") {
        None => Ok(None),
        Some(word) => Ok(Some(short_of(word)?)),
    }
}

// The value of a word, made anew, as a default is.
fn made<By, V: Worded<By>>(alloc: Global, word: &[u8; 64]) -> Result<V, AllocError> {
    let Ok(text) = str::from_utf8(word) else {
        return Err(AllocError);
    };
    match V::of_word(alloc, text.trim()) {
        Ok(value) => Ok(value),
        Err(_) => Err(AllocError),
    }
}

// What is read of a carrier, or the default; or of none the default that is declared, if any.
fn undeclared<V: Blank, C: ExtensionCodec<Value = V, Output = Option<V>>>(
    alloc: Global,
    number: u32,
    carrier: Option<&Carrier>,
) -> Result<Option<V>, AllocError> {
    let ext = Extension::<C, NoDefault>::new(number, "test.Carrier");
    match carrier {
        None => ext.declared(alloc),
        Some(carrier) => Ok(Some(carrier.extension_or_default(alloc, &ext)?)),
    }
}

// The same, where a default is declared.
fn declared<By, V: Worded<By>, C: ExtensionCodec<Value = V, Output = Option<V>>>(
    alloc: Global,
    number: u32,
    carrier: Option<&Carrier>,
    word: [u8; 64],
) -> Result<Option<V>, AllocError> {
    let ext = Extension::<C>::with_default(number, "test.Carrier", move |a: Global| {
        made::<By, V>(a, &word)
    });
    match carrier {
        None => ext.declared(alloc),
        Some(carrier) => Ok(Some(carrier.extension_or_default(alloc, &ext)?)),
    }
}

// By the setting `declared`.
fn found<By, V: Worded<By>, C: ExtensionCodec<Value = V, Output = Option<V>>>(
    alloc: Global,
    number: u32,
    carrier: Option<&Carrier>,
    word: Option<[u8; 64]>,
) -> Result<Option<V>, AllocError> {
    match word {
        None => undeclared::<V, C>(alloc, number, carrier),
        Some(word) => declared::<By, V, C>(alloc, number, carrier, word),
    }
}

/// A single value that is read, or the default: what the setting `declared` declares, or the type's.
pub fn default<By, V: Worded<By>, C: ExtensionCodec<Value = V, Output = Option<V>>>(
    alloc: Global,
    case: &Case<'_>,
    mark: &mut Mark,
) -> Result<Outcome, Fault> {
    let number = case.number()?;
    let word = declared_of(case)?;
    let carrier = carrier_of(alloc, case)?;
    mark.begin(alloc);
    let found = found::<By, V, C>(alloc, number, Some(&carrier), word);
    let refused = mark.end();
    found_told::<By, Option<V>>(alloc, &found, &carrier.fields, refused)
}

/// The default that the setting `declared` declares, or none.
pub fn declares<By, V: Worded<By>, C: ExtensionCodec<Value = V, Output = Option<V>>>(
    alloc: Global,
    case: &Case<'_>,
    mark: &mut Mark,
) -> Result<Outcome, Fault> {
    let number = case.number()?;
    let word = declared_of(case)?;
    mark.begin(alloc);
    let found = found::<By, V, C>(alloc, number, None, word);
    let refused = mark.end();
    let words = words_of::<By, Option<V>, AllocError>(alloc, &found);
    got_told(alloc, found.is_ok(), words, Ok(String::new(alloc)), refused)
}
