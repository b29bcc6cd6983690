//! buffa.sample.Unit, made of measure.proto by protoc-gen-buffa.

ghost use Rattle.std.specs.Prelude.{None, Some, if◌then◌else◌, pos, refl};
ghost use Rattle.std.specs.Ordering.{int_eq};

use buffa_fields::{Blank, Enumeration};
use std::alloc::Global;

/// The unit of a measure.
///
/// enum Unit {
///     KNOT = 1;
///     METRE = 2;
/// }
#[derive(Clone, Copy, Debug, PartialEq, Eq)]
pub enum Unit {
    Knot,
    Metre,
}

impl Blank for Unit {
    ghost use Rattle.sample_measure.specs.declared.unit.Unit.TheVariants.{Knot, Metre};

    type Meaning = i32;

    ghost meaning = { elim [ Knot ↦ pos 1 | Metre ↦ pos 2 ] };

    ghost blank_is = { pos 1 };

    fn blank(_alloc: Global) -> Unit {
        Unit::Knot
    }
}

impl Enumeration for Unit {
    ghost use Rattle.sample_measure.specs.declared.unit.Unit.TheVariants.{Knot, Metre};

    ghost of_number = { λ n. if int_eq n (pos 1) then Some Knot else if int_eq n (pos 2) then Some Metre else None };

    fn from_i32(number: i32) -> Option<Unit> {
        match number {
            1 => Some(Unit::Knot),
            2 => Some(Unit::Metre),
            _ => None,
        }
    }

    fn to_i32(&self) -> i32 {
        match self {
            Unit::Knot => 1,
            Unit::Metre => 2,
        }
    }

    ghost stays = { elim [ Knot ↦ refl | Metre ↦ refl ] };

    ghost blank_declared = { refl };
}

impl Unit {
    ghost use Rattle.std.specs.Prelude.{None, Some, codes, if◌then◌else◌, ◌≡◌};
    ghost use Rattle.std.specs.Str.{bytes_eq};
    ghost use Rattle.sample_measure.specs.declared.unit.Unit.TheVariants.{Knot, Metre};

    /// The full name of the enum.
    pub const FULL_NAME: &'static str = "buffa.sample.Unit";

    /// The name of the value in the `.proto`, the first where it has several.
    pub fn proto_name(&self) -> &'static str
        ensures { result.now ≡ elim self.now [ Knot ↦ codes "KNOT" | Metre ↦ codes "METRE" ] }
    {
        match self {
            Unit::Knot => "KNOT",
            Unit::Metre => "METRE",
        }
    }

    /// The value that has this name in the `.proto`; none where no value has it.
    pub fn from_proto_name(name: &str) -> Option<Unit>
        ensures { result ≡ (
            if bytes_eq name.now (codes "KNOT") then Some Knot else
            if bytes_eq name.now (codes "METRE") then Some Metre else
            None) }
    {
        match name {
            "KNOT" => Some(Unit::Knot),
            "METRE" => Some(Unit::Metre),
            _ => None,
        }
    }
}
