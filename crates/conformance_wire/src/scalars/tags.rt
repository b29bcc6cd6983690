// Tags by themselves.

use buffa_wire::{Buf, DecodeError, MAX_FIELD_NUMBER, Tag, WireType, check_wire_type};
use conformance_rows::case::Case;
use conformance_rows::fault::Fault;
use conformance_rows::mark::Mark;
use conformance_rows::outcome::{
    Outcome, in_words, text_told, told, two_in_words, unread, with_unread, written,
};
use std::alloc::Global;

// The wire type of a number in digits.
fn wire_type_of(digits: &str) -> Result<WireType, Fault> {
    WireType::from_number(digits.parse::<u64>()?).ok_or(Fault::Form)
}

// Reads a tag, of an expected wire type where one is expected.
fn tag_of<B: Buf>(buf: &mut B, expected: Option<WireType>) -> Result<Tag, DecodeError> {
    let tag = Tag::decode(buf)?;
    if let Some(expected) = expected {
        check_wire_type(tag, expected)?;
    }
    Ok(tag)
}

// The encoding of a tag.
fn text_of(alloc: Global, tag: Tag) -> Result<String, Fault> {
    let mut text = Vec::new(alloc);
    match tag.encode(&mut text) {
        Ok(()) => text_told(alloc, text.as_slice()),
        Err(_) => Err(Fault::Memory),
    }
}

// The number and the wire type of a tag; nothing where none was read.
fn tag_word(alloc: Global, read: Result<Tag, DecodeError>) -> Result<String, Fault> {
    match read {
        Ok(tag) => {
            let wire_type = tag.wire_type().number();
            two_in_words(alloc, &tag.field_number(), &wire_type)
        }
        Err(_) => Ok(String::new(alloc)),
    }
}

// The encoding of a tag that was read, or nothing.
fn tag_text(alloc: Global, read: Result<Tag, DecodeError>) -> Result<String, Fault> {
    match read {
        Ok(tag) => text_of(alloc, tag),
        Err(_) => Ok(String::new(alloc)),
    }
}

// The wire type that a row expects, if it says one.
fn expected_of(case: &Case<'_>) -> Result<Option<WireType>, Fault> {
    match case.setting("expect") {
        Some(digits) => Ok(Some(wire_type_of(digits)?)),
        None => Ok(None),
    }
}

/// A tag that is read of a buffer.
pub fn tag<B: Buf>(
    alloc: Global,
    case: &Case<'_>,
    mark: &mut Mark,
    buf: &mut B,
) -> Result<Outcome, Fault> {
    let expected = expected_of(case)?;
    mark.begin(alloc);
    let read = tag_of(buf, expected);
    let refused = mark.end();
    let unread = unread(read.is_ok(), buf);
    let words = tag_word(alloc, read);
    let text = tag_text(alloc, read);
    let outcome = Outcome::of_words(alloc, told(alloc, read), words, text, refused);
    with_unread(alloc, case, outcome, unread)
}

// The tag of words, `number:wire type`.
fn tag_of_words(words: &str) -> Result<Tag, Fault> {
    let Some((number, wire_type)) = words.split_once(':') else {
        return Err(Fault::Form);
    };
    let wire_type = wire_type_of(wire_type)?;
    let number = number.parse::<u32>()?;
    if number == 0 || number > MAX_FIELD_NUMBER {
        return Err(Fault::Form);
    }
    Ok(Tag::new(number, wire_type))
}

/// A tag that is written: its length, and its encoding. It stands as `number:wire type`.
pub fn spell(alloc: Global, case: &Case<'_>, mark: &mut Mark) -> Result<Outcome, Fault> {
    let tag = tag_of_words(case.input())?;
    let mut text = Vec::new(alloc);
    mark.begin(alloc);
    let answer = tag.encode(&mut text);
    let refused = mark.end();
    let words = in_words(alloc, &text.len());
    let text = text_told(alloc, text.as_slice());
    Outcome::of_words(alloc, written(alloc, answer), words, text, refused)
}
