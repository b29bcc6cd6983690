//! Enums of one's own: an old one, and a new one that declares a third value.

ghost use Rattle.std.specs.Prelude.{None, Some, if◌then◌else◌, pos, refl};
ghost use Rattle.std.specs.Ordering.{int_eq};

use buffa_wire::{Blank, Enumeration, MapKey, PlainKey};
use std::alloc::Global;

/// Two values; `A` is the default.
///
/// ```ignore
/// let b = EnumValue::<Old>::from_i32(number); // EnumValue::Known(Old::B) for 1
/// ```
#[derive(Clone, Copy, Debug, PartialEq, Eq, PartialOrd, Ord)]
pub enum Old {
    /// The number 0.
    A,
    /// The number 1.
    B,
}

impl Blank for Old {
    ghost use Rattle.sample_types.specs.declared.hues.Old.TheVariants.{A, B};

    type Meaning = i32;

    ghost meaning = { elim [ A ↦ pos 0 | B ↦ pos 1 ] };

    ghost blank_is = { pos 0 };

    fn blank(_alloc: Global) -> Old {
        Old::A
    }
}

impl Enumeration for Old {
    ghost use Rattle.sample_types.specs.declared.hues.Old.TheVariants.{A, B};

    ghost of_number = { λ n. if int_eq n (pos 0) then Some A else if int_eq n (pos 1) then Some B else None };

    fn from_i32(number: i32) -> Option<Old> {
        match number {
            0 => Some(Old::A),
            1 => Some(Old::B),
            _ => None,
        }
    }

    fn to_i32(&self) -> i32 {
        match self {
            Old::A => 0,
            Old::B => 1,
        }
    }

    ghost stays = { elim [ A ↦ refl | B ↦ refl ] };

    ghost blank_declared = { refl };
}

impl MapKey for Old {
    ghost use Rattle.sample_types.specs.declared.hues.Old.TheVariants.{A, B};
    ghost use Rattle.std.specs.Cmp.{int_eq_equiv};

    ghost same = { int_eq };

    ghost equivalence = { int_eq_equiv };

    ghost respects = { elim [ A ↦ elim [ A ↦ refl | B ↦ refl ] | B ↦ elim [ A ↦ refl | B ↦ refl ] ] };
}

impl PlainKey for Old {
    ghost use Rattle.buffa_bytes.specs.Plain.{integers_plain};

    ghost plain = { integers_plain };
}

/// The values of [`Old`], and a third.
///
/// ```ignore
/// let is_c = map.get(&1).copied() == Some(New::C);
/// ```
#[derive(Clone, Copy, Debug, PartialEq, Eq)]
pub enum New {
    /// The number 0.
    A,
    /// The number 1.
    B,
    /// The number 2.
    C,
}

impl Blank for New {
    ghost use Rattle.sample_types.specs.declared.hues.New.TheVariants.{A, B, C};

    type Meaning = i32;

    ghost meaning = { elim [ A ↦ pos 0 | B ↦ pos 1 | C ↦ pos 2 ] };

    ghost blank_is = { pos 0 };

    fn blank(_alloc: Global) -> New {
        New::A
    }
}

impl Enumeration for New {
    ghost use Rattle.sample_types.specs.declared.hues.New.TheVariants.{A, B, C};

    ghost of_number = { λ n. if int_eq n (pos 0) then Some A else if int_eq n (pos 1) then Some B else if int_eq n
        (pos 2) then Some C else None };

    fn from_i32(number: i32) -> Option<New> {
        match number {
            0 => Some(New::A),
            1 => Some(New::B),
            2 => Some(New::C),
            _ => None,
        }
    }

    fn to_i32(&self) -> i32 {
        match self {
            New::A => 0,
            New::B => 1,
            New::C => 2,
        }
    }

    ghost stays = { elim [ A ↦ refl | B ↦ refl | C ↦ refl ] };

    ghost blank_declared = { refl };
}
