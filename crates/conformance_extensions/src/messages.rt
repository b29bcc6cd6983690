// Calls on the records of messages: their encodings held, and merged.

use crate::codecs::{first_of, made_told};
use buffa_ext::MessageRecord;
use buffa_ext::message::merge_number;
use buffa_wire::{Budget, DecodeContext, DecodeError, Message, UnknownFields};
use conformance_rows::case::Case;
use conformance_rows::fault::Fault;
use conformance_rows::mark::Mark;
use conformance_rows::outcome::{Outcome, budget_of, in_words, records_told, told, with_left};
use conformance_rows::words::{Worded, joined, records_of};
use std::alloc::Global;

/// The record of an encoding.
pub fn hold<K: MessageRecord>(
    alloc: Global,
    case: &Case<'_>,
    mark: &mut Mark,
) -> Result<Outcome, Fault> {
    let text = hex::decode(alloc, case.input())?;
    mark.begin(alloc);
    let made = K::hold(alloc, text);
    let refused = mark.end();
    made_told(alloc, made, refused)
}

// A word, and another one behind it.
fn both_told(alloc: Global, found: bool, word: &str) -> Result<String, Fault> {
    let found = in_words(alloc, &found)?;
    joined(alloc, found.as_str(), " ", word)
}

// Whether there was an encoding, and the message; nothing of what is left of a message after a fault.
fn words_of<By, M: Worded<By>>(
    alloc: Global,
    merged: Result<bool, DecodeError>,
    message: &M,
) -> Result<String, Fault> {
    match merged {
        Ok(found) => {
            let word = message.word(alloc)?;
            both_told(alloc, found, word.as_str())
        }
        Err(_) => Ok(String::new(alloc)),
    }
}

// What comes of a merge.
fn merge_told(
    alloc: Global,
    case: &Case<'_>,
    budget: &Budget,
    fields: &UnknownFields,
    merged: Result<bool, DecodeError>,
    words: Result<String, Fault>,
    refused: bool,
) -> Result<Outcome, Fault> {
    let records = records_told(alloc, fields);
    let outcome = Outcome::of_words(alloc, told(alloc, merged), words, records, refused);
    with_left(alloc, case, budget, outcome, 0)
}

/// What the encodings of all records of a number make of a message.
pub fn merge_all<By, M: Worded<By> + Message, K: MessageRecord>(
    alloc: Global,
    case: &Case<'_>,
    mark: &mut Mark,
) -> Result<Outcome, Fault> {
    let number = case.number()?;
    let mut budget = budget_of(case)?;
    let fields = records_of(alloc, case.before())?;
    let mut message = M::of_word(alloc, case.input())?;
    mark.begin(alloc);
    let merged = merge_number::<K, M>(alloc, number, &fields, &mut budget, &mut message);
    let refused = mark.end();
    let words = words_of::<By, M>(alloc, merged, &message);
    merge_told(alloc, case, &budget, &fields, merged, words, refused)
}

/// What the encoding of the first record makes of a message, at the context's depth.
pub fn merge_in<By, M: Worded<By> + Message, K: MessageRecord>(
    alloc: Global,
    case: &Case<'_>,
    mark: &mut Mark,
) -> Result<Outcome, Fault> {
    let mut budget = budget_of(case)?;
    let depth = case.depth()?;
    let fields = records_of(alloc, case.before())?;
    let payload = first_of(&fields)?;
    let mut message = M::of_word(alloc, case.input())?;
    let ctx = DecodeContext::new(depth, &mut budget);
    mark.begin(alloc);
    let merged = K::merge_in::<M>(alloc, payload, &mut message, ctx);
    let refused = mark.end();
    let words = words_of::<By, M>(alloc, merged, &message);
    merge_told(alloc, case, &budget, &fields, merged, words, refused)
}
