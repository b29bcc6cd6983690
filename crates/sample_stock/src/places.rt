//! A message that holds itself, gone through by functions that call themselves.

ghost use Rattle.std.specs.Prelude.{◌≡◌, IfOk};
ghost use Rattle.sample_stock.specs.messages.Place.{with_name};

use crate::messages::Place;
use buffa_fields::Blank;
use std::alloc::{AllocError, Global};

/// A place of this name, in which no place is yet.
///
/// # Errors
/// Where memory runs out.
pub fn place(alloc: Global, name: &str) -> Result<Place, AllocError>
    ensures { IfOk result (λ made. made ≡ with_name name.now ⟦<Place as Blank>⟧.blank_is) }
{
    let mut place = Place::blank(alloc);
    place.name = String::from_str(alloc, name)?;
    Ok(place)
}

/// How many places there are: this one, and all in it.
pub fn count(place: &Place) -> u64 {
    let mut sum: u64 = 1;
    for one in place.places.iter() {
        sum = sum.saturating_add(count(one));
    }
    sum
}

/// The names of a place and of all in it, a line each, two spaces further in for each level.
///
/// # Errors
/// Where memory runs out.
pub fn outline(alloc: Global, place: &Place, indent: &str) -> Result<String, AllocError> {
    let mut text = format!(in alloc; "{indent}{}\n", place.name)?;
    let further = format!(in alloc; "{indent}  ")?;
    for one in place.places.iter() {
        let lines = outline(alloc, one, further.as_str())?;
        text.push_str(lines.as_str())?;
    }
    Ok(text)
}
