// A type by itself: how its payload is read, how long it is, and how it is written.

use buffa_wire::{Buf, DecodeError, EncodeError};
use conformance_rows::case::Case;
use conformance_rows::fault::Fault;
use conformance_rows::mark::Mark;
use conformance_rows::outcome::{
    Outcome, got, in_words, text_told, told, unread, with_unread, written,
};
use conformance_rows::words::Worded;
use std::alloc::Global;

/// The length that was announced of a payload, and whether it was written.
pub type Spelled = (usize, Result<(), EncodeError>);

/// A type of payloads, by its public functions.
pub trait Payload {
    /// What is read.
    type Value: Drop;

    /// Reads a payload.
    fn decode<B: Buf>(alloc: Global, buf: &mut B) -> Result<Self::Value, DecodeError>;

    /// Writes a payload.
    fn spell(value: &Self::Value, text: &mut Vec<u8>) -> Spelled;
}

/// The word of a value that was read, or none.
pub fn word_told<By, V: Worded<By>>(
    alloc: Global,
    read: &Result<V, DecodeError>,
) -> Result<String, Fault> {
    match read {
        Ok(value) => value.word(alloc),
        Err(_) => Ok(String::new(alloc)),
    }
}

/// What comes of a value that was read of a buffer, or not.
pub fn read_told<By, V: Worded<By>, B: Buf>(
    alloc: Global,
    case: &Case<'_>,
    read: Result<V, DecodeError>,
    refused: bool,
    buf: &B,
) -> Result<Outcome, Fault> {
    let unread = unread(read.is_ok(), buf);
    let words = word_told::<By, V>(alloc, &read);
    let none = Ok(String::new(alloc));
    let outcome = Outcome::of_words(alloc, told(alloc, read), words, none, refused);
    with_unread(alloc, case, outcome, unread)
}

/// A payload that is read of a buffer.
pub fn decode<By, P: Payload, B: Buf>(
    alloc: Global,
    case: &Case<'_>,
    mark: &mut Mark,
    buf: &mut B,
) -> Result<Outcome, Fault>
where
    P::Value: Worded<By>,
{
    mark.begin(alloc);
    let read = P::decode(alloc, buf);
    let refused = mark.end();
    read_told::<By, P::Value, B>(alloc, case, read, refused, buf)
}

/// A payload that is written: the length that was announced, and the encoding.
pub fn spell<By, P: Payload>(
    alloc: Global,
    case: &Case<'_>,
    mark: &mut Mark,
) -> Result<Outcome, Fault>
where
    P::Value: Worded<By>,
{
    let value = P::Value::of_word(alloc, case.input())?;
    let mut text = Vec::new(alloc);
    mark.begin(alloc);
    let (len, answer) = P::spell(&value, &mut text);
    let refused = mark.end();
    let words = in_words(alloc, &len);
    let text = text_told(alloc, text.as_slice());
    Outcome::of_words(alloc, written(alloc, answer), words, text, refused)
}

/// The default of a type.
pub fn blank<By, V: Worded<By>>(alloc: Global, mark: &mut Mark) -> Result<Outcome, Fault> {
    mark.begin(alloc);
    let value = V::blank(alloc);
    let refused = mark.end();
    let words = value.word(alloc);
    let none = Ok(String::new(alloc));
    Outcome::of_words(alloc, got(alloc, true), words, none, refused)
}
