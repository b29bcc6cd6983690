//! shop.State, made of stock.proto by protoc-gen-buffa.

ghost use Rattle.std.specs.Prelude.{None, Some, if◌then◌else◌, pos, refl};
ghost use Rattle.std.specs.Ordering.{int_eq};

use buffa_fields::{Blank, Enumeration};
use std::alloc::Global;

/// How far an order is.
///
/// enum State {
///     OPEN = 0;
///     SENT = 1;
/// }
#[derive(Clone, Copy, Debug, PartialEq, Eq)]
pub enum State {
    Open,
    Sent,
}

impl Blank for State {
    ghost use Rattle.sample_stock.specs.declared.messages.state.State.TheVariants.{Open, Sent};

    type Meaning = i32;

    ghost meaning = { elim [ Open ↦ pos 0 | Sent ↦ pos 1 ] };

    ghost blank_is = { pos 0 };

    fn blank(_alloc: Global) -> State {
        State::Open
    }
}

impl Enumeration for State {
    ghost use Rattle.sample_stock.specs.declared.messages.state.State.TheVariants.{Open, Sent};

    ghost of_number = { λ n. if int_eq n (pos 0) then Some Open else if int_eq n (pos 1) then Some Sent else None };

    fn from_i32(number: i32) -> Option<State> {
        match number {
            0 => Some(State::Open),
            1 => Some(State::Sent),
            _ => None,
        }
    }

    fn to_i32(&self) -> i32 {
        match self {
            State::Open => 0,
            State::Sent => 1,
        }
    }

    ghost stays = { elim [ Open ↦ refl | Sent ↦ refl ] };

    ghost blank_declared = { refl };
}

impl State {
    ghost use Rattle.std.specs.Prelude.{None, Some, codes, if◌then◌else◌, ◌≡◌};
    ghost use Rattle.std.specs.Str.{bytes_eq};
    ghost use Rattle.sample_stock.specs.declared.messages.state.State.TheVariants.{Open, Sent};

    /// The full name of the enum.
    pub const FULL_NAME: &'static str = "shop.State";

    /// The name of the value in the `.proto`, the first where it has several.
    pub fn proto_name(&self) -> &'static str
        ensures { result.now ≡ elim self.now [ Open ↦ codes "OPEN" | Sent ↦ codes "SENT" ] }
    {
        match self {
            State::Open => "OPEN",
            State::Sent => "SENT",
        }
    }

    /// The value that has this name in the `.proto`; none where no value has it.
    pub fn from_proto_name(name: &str) -> Option<State>
        ensures { result ≡ (
            if bytes_eq name.now (codes "OPEN") then Some Open else
            if bytes_eq name.now (codes "SENT") then Some Sent else
            None) }
    {
        match name {
            "OPEN" => Some(State::Open),
            "SENT" => Some(State::Sent),
            _ => None,
        }
    }
}
