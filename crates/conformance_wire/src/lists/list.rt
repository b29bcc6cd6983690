// Lists of unknown fields: one field more, another list behind, room for more.

use buffa_wire::{UnknownField, UnknownFields};
use conformance_rows::case::Case;
use conformance_rows::fault::Fault;
use conformance_rows::mark::Mark;
use conformance_rows::outcome::{Outcome, got, in_words, records_told, text_told, written};
use conformance_rows::words::records_of;
use std::alloc::Global;

// Makes room for so many more records; whether it is there.
fn make_room(fields: &mut UnknownFields, count: usize) -> bool {
    fields.reserve(count).is_ok()
}

// The records before, with room for as many more as the row says.
fn standing(alloc: Global, case: &Case<'_>) -> Result<UnknownFields, Fault> {
    let room = case.room()?;
    let mut fields = records_of(alloc, case.before())?;
    if !make_room(&mut fields, room) {
        return Err(Fault::Memory);
    }
    Ok(fields)
}

// How many records there are, and their encoding.
fn list_told(
    alloc: Global,
    is_ok: bool,
    fields: &UnknownFields,
    refused: bool,
) -> Result<Outcome, Fault> {
    let words = in_words(alloc, &fields.len());
    let records = records_told(alloc, fields);
    Outcome::of_words(alloc, got(alloc, is_ok), words, records, refused)
}

// The first record of digits.
fn first_of(alloc: Global, digits: &str) -> Result<UnknownField, Fault> {
    let fields = records_of(alloc, digits)?;
    let field = fields.iter().next().ok_or(Fault::Form)?;
    Ok(field.copy()?)
}

// Puts a record behind others; whether there was memory for it.
fn put(fields: &mut UnknownFields, field: UnknownField) -> bool {
    fields.push(field).is_ok()
}

/// A record that is put behind others.
pub fn pushed(alloc: Global, case: &Case<'_>, mark: &mut Mark) -> Result<Outcome, Fault> {
    let mut fields = standing(alloc, case)?;
    let field = first_of(alloc, case.input())?;
    mark.begin(alloc);
    let is_ok = put(&mut fields, field);
    let refused = mark.end();
    list_told(alloc, is_ok, &fields, refused)
}

// Puts records behind others, if there is room for them; whether there is.
fn join(fields: &mut UnknownFields, more: UnknownFields) -> bool {
    if more.len() > fields.spare() {
        return false;
    }
    fields.append(more);
    true
}

/// Records that are put behind others, into room that is there.
pub fn appended(alloc: Global, case: &Case<'_>, mark: &mut Mark) -> Result<Outcome, Fault> {
    let mut fields = standing(alloc, case)?;
    let more = records_of(alloc, case.input())?;
    mark.begin(alloc);
    let has_room = join(&mut fields, more);
    let refused = mark.end();
    if !has_room {
        return Err(Fault::Form);
    }
    list_told(alloc, true, &fields, refused)
}

/// Room for more records: whether it is there.
pub fn reserved(alloc: Global, case: &Case<'_>, mark: &mut Mark) -> Result<Outcome, Fault> {
    let count = case.input().parse::<u64>()? as usize;
    let mut fields = standing(alloc, case)?;
    mark.begin(alloc);
    let is_ok = make_room(&mut fields, count);
    let refused = mark.end();
    let has_room = fields.spare() >= count;
    let words = in_words(alloc, &has_room);
    let records = records_told(alloc, &fields);
    Outcome::of_words(alloc, got(alloc, is_ok), words, records, refused)
}

/// The encoding of records: its length, and the encoding.
pub fn text(alloc: Global, case: &Case<'_>, mark: &mut Mark) -> Result<Outcome, Fault> {
    let fields = standing(alloc, case)?;
    let mut text = Vec::new(alloc);
    mark.begin(alloc);
    let len = fields.encoded_len();
    let answer = fields.write_to(&mut text);
    let refused = mark.end();
    let words = in_words(alloc, &len);
    let text = text_told(alloc, text.as_slice());
    Outcome::of_words(alloc, written(alloc, answer), words, text, refused)
}

// Whether two lists are one.
fn are_same(fields: &UnknownFields, others: &UnknownFields) -> bool {
    fields == others
}

/// Whether records are those before.
pub fn equal(alloc: Global, case: &Case<'_>, mark: &mut Mark) -> Result<Outcome, Fault> {
    let fields = standing(alloc, case)?;
    let others = records_of(alloc, case.input())?;
    mark.begin(alloc);
    let same = are_same(&fields, &others);
    let refused = mark.end();
    let words = in_words(alloc, &same);
    let none = Ok(String::new(alloc));
    Outcome::of_words(alloc, got(alloc, true), words, none, refused)
}
