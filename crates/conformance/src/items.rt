// Calls on Items.

ghost use Rattle.std.specs.Prelude.{◌<◌};

use buffa_message_set::message_set::{item_encoded_len, merge_item, write_item};
use buffa_wire::{Budget, Buf, DecodeContext, DecodeError};
use conformance_rows::case::Case;
use conformance_rows::fault::Fault;
use conformance_rows::mark::Mark;
use conformance_rows::outcome::{
    Outcome, count_told, got, left, text_told, told, two_in_words, unread, written,
};
use conformance_rows::words::bytes_word;
use std::alloc::Global;

// The number and the message of an Item, if it was read.
fn item_told(alloc: Global, read: &Result<(u32, Vec<u8>), DecodeError>) -> Result<String, Fault> {
    match read {
        Ok(item) => {
            let message = bytes_word(alloc, item.1.as_slice())?;
            two_in_words(alloc, &item.0, &message)
        }
        Err(_) => Ok(String::new(alloc)),
    }
}

/// What comes of an Item whose start tag was read.
pub fn item<B: Buf>(
    alloc: Global,
    case: &Case<'_>,
    mark: &mut Mark,
    buf: &mut B,
) -> Result<Outcome, Fault> {
    let mut budget = Budget::new(case.unknown()?).with_element_memory(case.units()?);
    let ctx = DecodeContext::new(case.depth()?, &mut budget);
    mark.begin(alloc);
    let read = merge_item(alloc, buf, ctx);
    let refused = mark.end();
    let unread = unread(read.is_ok(), buf);
    let words = item_told(alloc, &read);
    Outcome::of_words(
        alloc,
        told(alloc, read),
        words,
        Ok(String::new(alloc)),
        refused,
    )?
    .with_left(left(alloc, case, &budget, unread), unread)
}

// The announced length of an Item whose message is short.
fn announced(number: u32, payload_len: usize) -> usize
    requires { payload_len < 1000000 }
{
    item_encoded_len(number, payload_len)
}

// The announced length of an Item with a message of so many bytes.
fn length_of(alloc: Global, case: &Case<'_>, mark: &mut Mark) -> Result<Outcome, Fault> {
    let number = case.number()?;
    let payload_len = case.length()? as usize;
    if payload_len >= 1_000_000 {
        return Err(Fault::Form);
    }
    mark.begin(alloc);
    let len = announced(number, payload_len);
    let refused = mark.end();
    let words = count_told(alloc, Ok(len as u64));
    let none = Ok(String::new(alloc));
    Outcome::of_words(alloc, got(alloc, true), words, none, refused)
}

/// What comes of a row that writes an Item: its length, and the encoding; or its length alone.
pub fn write_an_item(
    alloc: Global,
    case: &Case<'_>,
    mark: &mut Mark,
    message: &[u8],
) -> Result<Outcome, Fault> {
    if case.call == "item-len" {
        return length_of(alloc, case, mark);
    }
    let number = case.number()?;
    if number == 0 || number > 2_147_483_647 || message.len() >= 1_000_000 {
        return Err(Fault::Form);
    }
    let mut text = Vec::new(alloc);
    mark.begin(alloc);
    let len = announced(number, message.len());
    let answer = write_item(number, message, &mut text);
    let refused = mark.end();
    let words = count_told(alloc, Ok(len as u64));
    let text = text_told(alloc, text.as_slice());
    Outcome::of_words(alloc, written(alloc, answer), words, text, refused)
}
