//! buffa.sample.Outline.Mark, made of outline.proto by protoc-gen-buffa.

ghost use Rattle.std.specs.Prelude.{None, Some, if◌then◌else◌, pos, refl};
ghost use Rattle.std.specs.Ordering.{int_eq};

use buffa_fields::{Blank, Enumeration};
use std::alloc::Global;

/// How a part is marked.
///
/// enum Mark {
///     PLAIN = 0;
///     BOLD = 1;
/// }
#[derive(Clone, Copy, Debug, PartialEq, Eq)]
pub enum OutlineMark {
    Plain,
    Bold,
}

impl Blank for OutlineMark {
    ghost use Rattle.sample_outline.specs.declared.outline_mark.OutlineMark.TheVariants.{Plain, Bold};

    type Meaning = i32;

    ghost meaning = { elim [ Plain ↦ pos 0 | Bold ↦ pos 1 ] };

    ghost blank_is = { pos 0 };

    fn blank(_alloc: Global) -> OutlineMark {
        OutlineMark::Plain
    }
}

impl Enumeration for OutlineMark {
    ghost use Rattle.sample_outline.specs.declared.outline_mark.OutlineMark.TheVariants.{Plain, Bold};

    ghost of_number = { λ n. if int_eq n (pos 0) then Some Plain else if int_eq n (pos 1) then Some Bold else None };

    fn from_i32(number: i32) -> Option<OutlineMark> {
        match number {
            0 => Some(OutlineMark::Plain),
            1 => Some(OutlineMark::Bold),
            _ => None,
        }
    }

    fn to_i32(&self) -> i32 {
        match self {
            OutlineMark::Plain => 0,
            OutlineMark::Bold => 1,
        }
    }

    ghost stays = { elim [ Plain ↦ refl | Bold ↦ refl ] };

    ghost blank_declared = { refl };
}

impl OutlineMark {
    /// The full name of the enum.
    pub const FULL_NAME: &'static str = "buffa.sample.Outline.Mark";
}
