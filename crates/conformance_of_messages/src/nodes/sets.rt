// Extensions of a MessageSet, which are its Items.

use crate::nodes::Nodes;
use buffa_ext::codecs::{BytesCodec, Int32, Repeated, StringCodec};
use buffa_ext::{Extension, ExtensionCodec, ExtensionSet};
use buffa_wire::{EncodeError, Message};
use conformance_messages::merges::standing;
use conformance_rows::case::Case;
use conformance_rows::fault::Fault;
use conformance_rows::mark::Mark;
use conformance_rows::outcome::{Outcome, got, text_told, two_in_words, written};
use conformance_rows::words::{Worded, copied, joined};
use sample_set_msg::SetMsg;
use std::alloc::{AllocError, Global};

// What a codec reads, in words.
trait Told {
    fn told(&self, alloc: Global) -> Result<String, Fault>;
}

// The word of a value, or `none`.
impl<V: Worded<Nodes>> Told for Option<V> {
    fn told(&self, alloc: Global) -> Result<String, Fault> {
        match self {
            Some(value) => value.word(alloc),
            None => copied(alloc, "none"),
        }
    }
}

// Words, and one word more.
fn with_word(alloc: Global, text: &str, word: &str) -> Result<String, Fault> {
    let space = if text.is_empty() { "" } else { " " };
    joined(alloc, text, space, word)
}

// The words of values, with a space between them.
impl<V: Worded<Nodes>> Told for Vec<V> {
    fn told(&self, alloc: Global) -> Result<String, Fault> {
        let mut text = String::new(alloc);
        for value in self.iter() {
            let word = value.word(alloc)?;
            text = with_word(alloc, text.as_str(), word.as_str())?;
        }
        Ok(text)
    }
}

// The encoding of a MessageSet.
fn text_of(alloc: Global, set: &SetMsg) -> Result<String, Fault> {
    match set.try_encode_to_vec(alloc) {
        Ok(text) => text_told(alloc, text.as_slice()),
        Err(_) => Err(Fault::Memory),
    }
}

// What a MessageSet's extension of this number is read as.
fn found<T, C: ExtensionCodec<Output = T>>(
    alloc: Global,
    set: &SetMsg,
    number: u32,
) -> Result<T, AllocError> {
    let ext = Extension::<C>::new(number, "buffa.sample.SetMsg");
    set.extension(alloc, &ext)
}

// What is read, in words.
fn found_told<T: Told>(alloc: Global, found: &Result<T, AllocError>) -> Result<String, Fault> {
    match found {
        Ok(found) => found.told(alloc),
        Err(_) => Ok(String::new(alloc)),
    }
}

// What is read, and the encoding that stands.
fn get<T: Told + Drop, C: ExtensionCodec<Output = T>>(
    alloc: Global,
    case: &Case<'_>,
    mark: &mut Mark,
) -> Result<Outcome, Fault> {
    let number = case.number()?;
    let set = standing::<SetMsg>(alloc, case)?;
    mark.begin(alloc);
    let found = found::<T, C>(alloc, &set, number);
    let refused = mark.end();
    let words = found_told::<T>(alloc, &found);
    let answer = got(alloc, found.is_ok());
    Outcome::of_words(alloc, answer, words, text_of(alloc, &set), refused)
}

// Sets an extension.
fn put<V, C: ExtensionCodec<Value = V>>(
    alloc: Global,
    set: &mut SetMsg,
    number: u32,
    value: V,
) -> Result<(), EncodeError> {
    let ext = Extension::<C>::new(number, "buffa.sample.SetMsg");
    set.set_extension(alloc, &ext, value)
}

// What is told of a set that was refused.
fn refused_told(
    alloc: Global,
    answer: Result<(), EncodeError>,
    stands: bool,
    refused: bool,
) -> Result<Outcome, Fault> {
    let told = if stands {
        written(alloc, answer)
    } else {
        copied(alloc, "other records stand")
    };
    let none = Ok(String::new(alloc));
    Outcome::of_words(alloc, told, Ok(String::new(alloc)), none, refused)
}

// What is told of a set that was not refused: what is read of it, and the encoding then.
fn set_told<T: Told + Drop, C: ExtensionCodec<Output = T>>(
    alloc: Global,
    set: &SetMsg,
    number: u32,
    text: String,
    refused: bool,
) -> Result<Outcome, Fault> {
    let found = found::<T, C>(alloc, set, number);
    let words = if found.is_ok() {
        found_told::<T>(alloc, &found)
    } else {
        Err(Fault::Memory)
    };
    Outcome::of_words(alloc, got(alloc, true), words, Ok(text), refused)
}

// What is read of what was set, and the encoding then; another answer where a set that is refused changes
// the encoding.
fn set<T: Told + Drop, V: Drop, C: ExtensionCodec<Value = V, Output = T>>(
    alloc: Global,
    case: &Case<'_>,
    mark: &mut Mark,
    value: V,
) -> Result<Outcome, Fault> {
    let number = case.number()?;
    let mut set = standing::<SetMsg>(alloc, case)?;
    let before = text_of(alloc, &set)?;
    mark.begin(alloc);
    let answer = put::<V, C>(alloc, &mut set, number, value);
    let refused = mark.end();
    let text = text_of(alloc, &set)?;
    if answer.is_err() {
        return refused_told(alloc, answer, text.as_str() == before.as_str(), refused);
    }
    set_told::<T, C>(alloc, &set, number, text, refused)
}

// Clears an extension; whether there was one before, and whether there is one then.
fn cleared<C: ExtensionCodec>(set: &mut SetMsg, number: u32) -> (bool, bool) {
    let ext = Extension::<C>::new(number, "buffa.sample.SetMsg");
    let had = set.has_extension(&ext);
    set.clear_extension(&ext);
    (had, set.has_extension(&ext))
}

// Whether there is an extension, and whether there is after it was cleared, in words.
fn cleared_told(alloc: Global, had: bool, has: bool) -> Result<String, Fault> {
    two_in_words(alloc, &had, &has)
}

// Whether there is an extension, and whether there is after it was cleared; and the encoding then.
fn clear<C: ExtensionCodec>(
    alloc: Global,
    case: &Case<'_>,
    mark: &mut Mark,
) -> Result<Outcome, Fault> {
    let number = case.number()?;
    let mut set = standing::<SetMsg>(alloc, case)?;
    mark.begin(alloc);
    let (had, has) = cleared::<C>(&mut set, number);
    let refused = mark.end();
    let words = cleared_told(alloc, had, has);
    let answer = got(alloc, true);
    Outcome::of_words(alloc, answer, words, text_of(alloc, &set), refused)
}

// A call on a single value.
fn one<V: Worded<Nodes>, C: ExtensionCodec<Value = V, Output = Option<V>>>(
    alloc: Global,
    case: &Case<'_>,
    mark: &mut Mark,
) -> Result<Outcome, Fault> {
    match case.call {
        "get" => get::<Option<V>, C>(alloc, case, mark),
        "set" => {
            let value = V::of_word(alloc, case.input())?;
            set::<Option<V>, V, C>(alloc, case, mark, value)
        }
        "clear" => clear::<C>(alloc, case, mark),
        _ => Err(Fault::Form),
    }
}

// A call on a list of texts, an Item each.
fn texts(alloc: Global, case: &Case<'_>, mark: &mut Mark) -> Result<Outcome, Fault> {
    if case.call == "get" {
        return get::<Vec<String>, Repeated<StringCodec>>(alloc, case, mark);
    }
    let mut values = Vec::new(alloc);
    for word in case.input().split_ascii_whitespace() {
        let value: String = Worded::<Nodes>::of_word(alloc, word)?;
        values.push(value)?;
    }
    set::<Vec<String>, Vec<String>, Repeated<StringCodec>>(alloc, case, mark, values)
}

/// What comes of a row on an extension of a MessageSet: the codec's name stands behind `set,`.
pub(crate) fn extension(alloc: Global, case: &Case<'_>, mark: &mut Mark) -> Result<Outcome, Fault> {
    match case.types {
        "set,string" if case.says("how", "all") => texts(alloc, case, mark),
        "set,string" => one::<String, StringCodec>(alloc, case, mark),
        "set,bytes" => one::<Vec<u8>, BytesCodec>(alloc, case, mark),
        "set,int32" => one::<i32, Int32>(alloc, case, mark),
        _ => Err(Fault::Form),
    }
}
