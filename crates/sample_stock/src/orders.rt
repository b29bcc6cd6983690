//! The members of a message: an enum, an optional one, a list of messages and a map of messages.

ghost use Rattle.std.specs.Prelude.{◌≡◌, IfOk, Some, option_map, pos, true};
ghost use Rattle.sample_stock.specs.messages.Order.{note, with_note, with_state};

use crate::messages::{Line, Order, State};
use buffa_fields::map_codec::{MapStorage, MapWalk};
use buffa_fields::{Blank, EnumValue};
use std::alloc::{AllocError, Global};

/// Whether an order is sent; a number that the enum doesn't declare isn't.
pub fn is_sent(order: &Order) -> bool {
    match order.state {
        EnumValue::Known(State::Sent) => true,
        EnumValue::Known(State::Open) => false,
        EnumValue::Unknown(_number) => false,
    }
}

/// The name of an order's state; none where the enum doesn't declare its number.
pub fn state_name(order: &Order) -> Option<&'static str> {
    match order.state {
        EnumValue::Known(state) => Some(state.proto_name()),
        EnumValue::Unknown(_number) => None,
    }
}

/// Says that an order is sent.
pub fn send(order: &mut Order)
    ensures { ⟦<Order as Blank>⟧.meaning order.new ≡ with_state (true, pos 1) (⟦<Order as Blank>⟧.meaning order.old) }
{
    order.state = EnumValue::Known(State::Sent);
}

/// The note of an order, where there is one: an empty one is there, too.
pub fn note(order: &Order) -> Option<&str>
    ensures { option_map (λ it. it.now) result ≡ note (⟦<Order as Blank>⟧.meaning order.now) }
{
    order.note.as_ref().map(|note| note.as_str())
}

/// Sets the note of an order.
///
/// # Errors
/// Where memory runs out.
pub fn set_note(alloc: Global, order: &mut Order, text: &str) -> Result<(), AllocError>
    ensures { IfOk result (λ _. ⟦<Order as Blank>⟧.meaning order.new
        ≡ with_note (Some text.now) (⟦<Order as Blank>⟧.meaning order.old)) }
{
    order.note = Some(String::from_str(alloc, text)?);
    Ok(())
}

/// Adds a row to an order.
///
/// # Errors
/// Where memory runs out.
pub fn add_line(
    alloc: Global,
    order: &mut Order,
    good: &str,
    count: i32,
) -> Result<(), AllocError> {
    let mut line = Line::blank(alloc);
    line.good = String::from_str(alloc, good)?;
    line.count = Some(count);
    order.lines.push(line)?;
    Ok(())
}

/// How many rows of an order have no count.
pub fn lines_without_count(order: &Order) -> u64 {
    let mut found: u64 = 0;
    for line in order.lines.iter() {
        if line.count.is_none() {
            found = found.saturating_add(1);
        }
    }
    found
}

/// Puts a gift for somebody into an order, in the place of the one that was there.
///
/// # Errors
/// Where memory runs out.
pub fn give(alloc: Global, order: &mut Order, name: &str, good: &str) -> Result<(), AllocError> {
    let mut gift = Line::blank(alloc);
    gift.good = String::from_str(alloc, good)?;
    order
        .gifts
        .storage_insert(String::from_str(alloc, name)?, gift)?;
    Ok(())
}

/// What is given to somebody, where there is a gift.
pub fn gift_of<'a>(order: &'a Order, name: &str) -> Option<&'a str> {
    order.gifts.get(name).map(|gift| gift.good.as_str())
}

/// How many gifts of this kind there are.
pub fn gifts_of_kind(order: &Order, good: &str) -> u64 {
    let mut found: u64 = 0;
    for (_name, gift) in order.gifts.storage_iter() {
        if gift.good.as_str() == good {
            found = found.saturating_add(1);
        }
    }
    found
}
