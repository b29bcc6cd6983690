//! buffa.sample.Shade, made of palette.proto by protoc-gen-buffa.

ghost use Rattle.std.specs.Prelude.{None, Some, if◌then◌else◌, pos, refl};
ghost use Rattle.std.specs.Ordering.{int_eq};

use buffa_fields::{Blank, Enumeration};
use std::alloc::Global;

/// enum Shade {
///     A = 0;
///     B = 1;
/// }
#[derive(Clone, Copy, Debug, PartialEq, Eq)]
pub enum Shade {
    A,
    B,
}

impl Blank for Shade {
    ghost use Rattle.sample_palette.specs.declared.shade.Shade.TheVariants.{A, B};

    type Meaning = i32;

    ghost meaning = { elim [ A ↦ pos 0 | B ↦ pos 1 ] };

    ghost blank_is = { pos 0 };

    fn blank(_alloc: Global) -> Shade {
        Shade::A
    }
}

impl Enumeration for Shade {
    ghost use Rattle.sample_palette.specs.declared.shade.Shade.TheVariants.{A, B};

    ghost of_number = { λ n. if int_eq n (pos 0) then Some A else if int_eq n (pos 1) then Some B else None };

    fn from_i32(number: i32) -> Option<Shade> {
        match number {
            0 => Some(Shade::A),
            1 => Some(Shade::B),
            _ => None,
        }
    }

    fn to_i32(&self) -> i32 {
        match self {
            Shade::A => 0,
            Shade::B => 1,
        }
    }

    ghost stays = { elim [ A ↦ refl | B ↦ refl ] };

    ghost blank_declared = { refl };
}

impl Shade {
    /// The full name of the enum.
    pub const FULL_NAME: &'static str = "buffa.sample.Shade";
}
