// Rows on records: fields that are kept or passed over, varints, and lists of unknown fields.

use buffa_wire::{
    Budget, Buf, DecodeContext, DecodeError, Tag, UnknownField, UnknownFields,
    decode_unknown_field, decode_varint, skip_field_depth,
};
use conformance_rows::case::Case;
use conformance_rows::fault::Fault;
use conformance_rows::mark::Mark;
use conformance_rows::outcome::{
    Outcome, budget_of, got, in_words, records_told, told, unread, with_left, with_unread,
};
use conformance_rows::words::{records_of, records_word};
use std::alloc::{AllocError, Global};

// A field with its tag, at a depth.
fn field_of<B: Buf>(
    alloc: Global,
    depth: u32,
    budget: &mut Budget,
    buf: &mut B,
) -> Result<UnknownField, DecodeError> {
    let tag = Tag::decode(buf)?;
    let ctx = DecodeContext::new(depth, budget);
    decode_unknown_field(alloc, tag, buf, ctx)
}

// The records of a field, if it was read.
fn field_reported(alloc: Global, read: Result<UnknownField, DecodeError>) -> Result<String, Fault> {
    let mut fields = UnknownFields::new(alloc);
    if let Ok(field) = read {
        fields.push(field)?;
    }
    records_word(alloc, &fields)
}

// The word of an answer, which stays.
fn answer_of<T>(alloc: Global, answer: &Result<T, DecodeError>) -> Result<String, Fault> {
    match answer {
        Ok(_) => told::<()>(alloc, Ok(())),
        Err(fault) => told::<()>(alloc, Err(*fault)),
    }
}

// A field that is kept, tag and all.
fn kept<B: Buf>(
    alloc: Global,
    case: &Case<'_>,
    mark: &mut Mark,
    buf: &mut B,
) -> Result<Outcome, Fault> {
    let depth = case.depth()?;
    let mut budget = budget_of(case)?;
    mark.begin(alloc);
    let read = field_of(alloc, depth, &mut budget, buf);
    let refused = mark.end();
    let unread = unread(read.is_ok(), buf);
    let answer = answer_of(alloc, &read);
    let words = field_reported(alloc, read);
    let outcome = Outcome::of_words(alloc, answer, words, Ok(String::new(alloc)), refused);
    with_left(alloc, case, &budget, outcome, unread)
}

// Passes over a field and its tag.
fn pass<B: Buf>(buf: &mut B, depth: u32) -> Result<(), DecodeError> {
    let tag = Tag::decode(buf)?;
    skip_field_depth(tag, buf, depth)
}

// A field that is passed over.
fn skipped<B: Buf>(
    alloc: Global,
    case: &Case<'_>,
    mark: &mut Mark,
    buf: &mut B,
) -> Result<Outcome, Fault> {
    let depth = case.depth()?;
    mark.begin(alloc);
    let answer = pass(buf, depth);
    let refused = mark.end();
    let unread = unread(answer.is_ok(), buf);
    let none = Ok(String::new(alloc));
    let text = Ok(String::new(alloc));
    let outcome = Outcome::of_words(alloc, told(alloc, answer), none, text, refused);
    with_unread(alloc, case, outcome, unread)
}

// The word of a number that was read, or nothing.
fn number_word(alloc: Global, answer: Result<u64, DecodeError>) -> Result<String, Fault> {
    match answer {
        Ok(number) => in_words(alloc, &number),
        Err(_) => Ok(String::new(alloc)),
    }
}

// A varint.
fn varint<B: Buf>(
    alloc: Global,
    case: &Case<'_>,
    mark: &mut Mark,
    buf: &mut B,
) -> Result<Outcome, Fault> {
    mark.begin(alloc);
    let answer = decode_varint(buf);
    let refused = mark.end();
    let unread = unread(answer.is_ok(), buf);
    let words = number_word(alloc, answer);
    let none = Ok(String::new(alloc));
    let outcome = Outcome::of_words(alloc, told(alloc, answer), words, none, refused);
    with_unread(alloc, case, outcome, unread)
}

/// What comes of a row that reads a field or a number.
pub fn fields_and_numbers<B: Buf>(
    alloc: Global,
    case: &Case<'_>,
    mark: &mut Mark,
    buf: &mut B,
) -> Result<Outcome, Fault> {
    match case.call {
        "unknown" => kept::<B>(alloc, case, mark, buf),
        "skip" => skipped::<B>(alloc, case, mark, buf),
        "varint" => varint::<B>(alloc, case, mark, buf),
        _ => Err(Fault::Form),
    }
}

// An outcome of records: their length, and their encoding.
fn of_records(
    alloc: Global,
    answer: Result<String, Fault>,
    fields: &UnknownFields,
    refused: bool,
) -> Result<Outcome, Fault> {
    let len = in_words(alloc, &fields.encoded_len());
    Outcome::of_words(alloc, answer, len, records_told(alloc, fields), refused)
}

// The records that were read, or none.
fn or_none(alloc: Global, read: Result<UnknownFields, DecodeError>) -> UnknownFields {
    match read {
        Ok(fields) => fields,
        Err(_) => UnknownFields::new(alloc),
    }
}

// Records that are read of bytes.
fn records(alloc: Global, mark: &mut Mark, bytes: &[u8]) -> Result<Outcome, Fault> {
    mark.begin(alloc);
    let read = UnknownFields::decode_from_slice(alloc, bytes);
    let refused = mark.end();
    let answer = answer_of(alloc, &read);
    let fields = or_none(alloc, read);
    of_records(alloc, answer, &fields, refused)
}

// Puts a copy of a record behind others.
fn push_copy(copies: &mut UnknownFields, field: &UnknownField) -> Result<(), AllocError> {
    copies.push(field.copy()?)?;
    Ok(())
}

// Copies of records.
fn copies_of(alloc: Global, fields: &UnknownFields) -> Result<UnknownFields, AllocError> {
    let mut copies = UnknownFields::new(alloc);
    for field in fields.iter().as_slice() {
        push_copy(&mut copies, field)?;
    }
    Ok(copies)
}

// Puts copies of records behind them.
fn copied(alloc: Global, fields: &mut UnknownFields) -> Result<(), AllocError> {
    let copies = copies_of(alloc, fields)?;
    fields.reserve(copies.len())?;
    if copies.len() <= fields.spare() {
        fields.append(copies);
    }
    Ok(())
}

// Records that stand before, and copies of them behind.
fn twice(alloc: Global, case: &Case<'_>, mark: &mut Mark) -> Result<Outcome, Fault> {
    let mut fields = records_of(alloc, case.before())?;
    mark.begin(alloc);
    let answer = copied(alloc, &mut fields);
    let refused = mark.end();
    of_records(alloc, got(alloc, answer.is_ok()), &fields, refused)
}

// Records without those of a number.
fn retained(alloc: Global, case: &Case<'_>, mark: &mut Mark) -> Result<Outcome, Fault> {
    let number = case.number()?;
    let mut fields = records_of(alloc, case.before())?;
    mark.begin(alloc);
    fields.retain(|field| field.number != number);
    let refused = mark.end();
    of_records(alloc, got(alloc, true), &fields, refused)
}

/// What comes of a row on records.
pub fn on_records(
    alloc: Global,
    case: &Case<'_>,
    mark: &mut Mark,
    bytes: &[u8],
) -> Result<Outcome, Fault> {
    match case.call {
        "records" => records(alloc, mark, bytes),
        "twice" => twice(alloc, case, mark),
        "retain" => retained(alloc, case, mark),
        _ => Err(Fault::Form),
    }
}
