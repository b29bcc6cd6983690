//! A closed enum.

ghost use Rattle.std.specs.Prelude.{pos, refl};

use buffa_wire::{Blank, Enumeration};
use std::alloc::Global;

/// Two values; `A` is the default.
///
/// ```ignore
/// let is_b = node.shades.get(&2) == Some(&Shade::B);
/// ```
#[derive(Clone, Copy, Debug, PartialEq, Eq)]
pub enum Shade {
    /// The number 0.
    A,
    /// The number 1.
    B,
}

impl Blank for Shade {
    ghost use Rattle.sample_node.specs.Branch.{shade_number};

    type Meaning = i32;

    ghost meaning = { shade_number };

    ghost blank_is = { pos 0 };

    fn blank(_alloc: Global) -> Shade {
        Shade::A
    }
}

impl Enumeration for Shade {
    ghost use Rattle.sample_node.specs.declared.shade.Shade.TheVariants.{A, B};
    ghost use Rattle.sample_node.specs.Branch.{shade_of};

    ghost of_number = { shade_of };

    fn from_i32(number: i32) -> Option<Shade> {
        match number {
            0 => Some(Shade::A),
            1 => Some(Shade::B),
            _ => None,
        }
    }

    fn to_i32(&self) -> i32 {
        match self {
            Shade::A => 0,
            Shade::B => 1,
        }
    }

    ghost stays = { elim [ A ↦ refl | B ↦ refl ] };

    ghost blank_declared = { refl };
}
