//! The law of the sample's enum: which numbers it declares.

ghost use Rattle.std.specs.Prelude.{◌≡◌, ℤ, None, Some, if◌then◌else◌, pos};
ghost use Rattle.std.specs.Ordering.{int_eq};

use crate::shade::Shade;
use buffa_fields::{Blank, Enumeration};

/// The numbers of `Shade`: 0 and 1, and no other; the default is 0. Nothing is left out.
pub fn shades_are_these()
    ensures declared { (n : ℤ) → ⟦<Shade as Enumeration>⟧.of_number n
        ≡ (if int_eq n (pos 0) then Some Shade.A else if int_eq n (pos 1) then Some Shade.B else None) }
    ensures blank { ⟦<Shade as Blank>⟧.blank_is ≡ pos 0 }
{}
