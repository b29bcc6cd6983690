//! Messages by their fields.

ghost use Rattle.std.specs.Prelude.{◌≡◌, ◌<◌, ℕ, true};
ghost use Rattle.buffa_fields.specs.Calls.{MemberTakes};
ghost use Rattle.buffa_fields.specs.Schema.{Schema, Seen};

use crate::passes::visitor::Visitor;
use buffa_wire::{DecodeContext, DecodeError, Tag};
use std::alloc::Global;

/// A struct that is a message, by its members.
///
/// ```ignore
/// impl MessageFields for Inventory { .. }
/// ```
pub trait MessageFields: Drop {
    /// What it means: of each member what that means, one after the other ([`And`](crate::meaning::And)); `[T; 0]`
    /// stands for a list.
    ///
    /// ```ignore
    /// type Meaning = And5<i32, [u8; 0], Option<bool>, [And<[u8; 0], i32>; 0], Unknowns>;
    /// ```
    type Meaning;

    /// The units of element memory that a message costs where it is the value of a map or an element of a list: 1 or
    /// more.
    ///
    /// ```ignore
    /// const COST: usize = 96;
    /// ```
    const COST: usize;

    ghost COST: { ℕ };

    /// An element has a cost.
    ghost positive: { 0 < COST };

    /// Its members, one after the other.
    ghost schema: { Schema Self Self.Meaning };

    /// Each number is valid for a field, no two members have the same one, and what closed enums don't declare is kept.
    ghost sound: { schema.sound ≡ true };

    /// Visits each member.
    ///
    /// ```ignore
    /// visitor.visit::<ImplicitField<Int32>>(1, &self.total);
    /// ```
    fn visit<V: Visitor>(&self, visitor: &mut V)
        requires { V.Waits (schema.slots (schema.meaning self.now)) visitor.old }
        ensures seen { (z : Seen) → V.IsAt z visitor.old → V.IsAt (schema.seen self.now z) visitor.new }
        ensures back { schema.Owes };

    /// Merges the field whose tag was read into the member of its number.
    ///
    /// # Errors
    /// That of the member. For a field that isn't declared, that of keeping it or of passing over it.
    ///
    /// ```ignore
    /// 1 => ImplicitField::<Int32>::merge(&mut self.total, alloc, tag, buf, ctx),
    /// ```
    fn take(
        &mut self,
        alloc: Global,
        tag: Tag,
        buf: &mut &[u8],
        ctx: DecodeContext<'_>,
    ) -> Result<(), DecodeError>
        ensures { MemberTakes tag ctx.entry ctx.exit self.old self.new buf.old buf.new result schema };
}
