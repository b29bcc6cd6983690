//! Blocks: some members of a message, which are one part of it.

ghost use Rattle.std.specs.Prelude.{◌++◌, ◌≡◌, List, ℕ};
ghost use Rattle.buffa_fields.specs.Blocks.{BlockOf, BlockOwes, block_seen, block_slots};
ghost use Rattle.buffa_fields.specs.Schema.{Comes, Seen};

use crate::passes::visitor::Visitor;

/// Some members of a message, one after the other. A message of many members is a list of blocks: so each of its functions
/// is short.
///
/// ```ignore
/// impl MemberBlock for DayBlock1 { .. }
/// ```
pub trait MemberBlock {
    /// The message.
    ///
    /// ```ignore
    /// type Message = Day;
    /// ```
    type Message;

    /// What the members mean, one after the other ([`And`](crate::meaning::And)).
    ///
    /// ```ignore
    /// type Meaning = And7<[u8; 0], u32, i32, i32, i32, i32, i32>;
    /// ```
    type Meaning;

    /// The members, each under its number.
    ghost members: { BlockOf Self.Message Self.Meaning };

    /// Visits each of the members.
    ///
    /// ```ignore
    /// visitor.visit::<ImplicitField<Str>>(1, &message.station);
    /// ```
    fn visit<V: Visitor>(message: &Self::Message, visitor: &mut V)
        requires { Comes V.Waits (block_slots members message.now) visitor.old }
        ensures seen { (z : Seen) → V.IsAt z visitor.old → V.IsAt (block_seen members message.now z) visitor.new }
        ensures waits { (rest : List ℕ) → V.Waits (block_slots members message.now ++ rest) visitor.old →
            V.Waits rest visitor.new }
        ensures back { BlockOwes members };

    /// Whether a number is that of one of the members.
    ///
    /// ```ignore
    /// matches!(number, 1 | 2 | 3 | 4 | 5 | 6 | 7)
    /// ```
    fn has(number: u32) -> bool
        ensures { result ≡ members.block.part.mine number };
}
