// The enum whose values `rewrite N` knows.
ghost use Rattle.std.specs.Prelude.{pos, refl};
ghost use Rattle.buffamap.specs.Choice.{choice_of, choice_number};

use buffa_wire::{Blank, Enumeration};
use std::alloc::Global;

/// A closed enum of two values; `A` is the default.
#[derive(Clone, Copy, Debug, PartialEq, Eq)]
pub enum Choice {
    /// The number 0.
    A,
    /// The number 1.
    B,
}

impl Blank for Choice {
    type Meaning = i32;

    ghost meaning = { choice_number };

    ghost blank_is = { pos 0 };

    fn blank(_alloc: Global) -> Choice {
        Choice::A
    }
}

impl Enumeration for Choice {
    ghost use Rattle.buffamap.specs.declared.choice.Choice.TheVariants.{A, B};

    ghost of_number = { choice_of };

    fn from_i32(number: i32) -> Option<Choice> {
        match number {
            0 => Some(Choice::A),
            1 => Some(Choice::B),
            _ => None,
        }
    }

    fn to_i32(&self) -> i32 {
        match self {
            Choice::A => 0,
            Choice::B => 1,
        }
    }

    ghost stays = { elim [ A ↦ refl | B ↦ refl ] };

    ghost blank_declared = { refl };
}
