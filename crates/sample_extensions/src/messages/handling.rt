//! buffa.sample.Handling, made of shipment.proto by protoc-gen-buffa.

ghost use Rattle.std.specs.Prelude.{None, Some, if◌then◌else◌, pos, refl};
ghost use Rattle.std.specs.Ordering.{int_eq};

use buffa_fields::{Blank, Enumeration};
use std::alloc::Global;

/// How a shipment is handled.
///
/// enum Handling {
///     HANDLING_PLAIN = 0;
///     HANDLING_FRAGILE = 1;
/// }
#[derive(Clone, Copy, Debug, PartialEq, Eq)]
pub enum Handling {
    Plain,
    Fragile,
}

impl Blank for Handling {
    ghost use Rattle.sample_extensions.specs.declared.messages.handling.Handling.TheVariants.{Plain, Fragile};

    type Meaning = i32;

    ghost meaning = { elim [ Plain ↦ pos 0 | Fragile ↦ pos 1 ] };

    ghost blank_is = { pos 0 };

    fn blank(_alloc: Global) -> Handling {
        Handling::Plain
    }
}

impl Enumeration for Handling {
    ghost use Rattle.sample_extensions.specs.declared.messages.handling.Handling.TheVariants.{Plain, Fragile};

    ghost of_number = { λ n. if int_eq n (pos 0) then Some Plain else if int_eq n (pos 1) then Some Fragile else None };

    fn from_i32(number: i32) -> Option<Handling> {
        match number {
            0 => Some(Handling::Plain),
            1 => Some(Handling::Fragile),
            _ => None,
        }
    }

    fn to_i32(&self) -> i32 {
        match self {
            Handling::Plain => 0,
            Handling::Fragile => 1,
        }
    }

    ghost stays = { elim [ Plain ↦ refl | Fragile ↦ refl ] };

    ghost blank_declared = { refl };
}

impl Handling {
    /// The full name of the enum.
    pub const FULL_NAME: &'static str = "buffa.sample.Handling";
}
