//! The calls of a type of messages that hold themselves.

ghost use Rattle.std.specs.Prelude.{◌≡◌, ◌+◌, ℕ, OnOk};
ghost use Rattle.buffa_fields.specs.Calls.{MemberTakes};
ghost use Rattle.buffa_fields.specs.Schema.{Seen};
ghost use Rattle.buffa_recursive.specs.Fixpoint.{semantics, message_schema};

use crate::inner_merger::InnerMerger;
use crate::recursive_meaning::RecursiveMeaning;
use crate::visitor::RecursiveVisitor;
use buffa_wire::{DecodeContext, DecodeError, Tag};
use std::alloc::Global;

/// The calls of a type of messages that hold themselves, by which its passes go over its members.
///
/// ```ignore
/// impl RecursiveFields for Outline { .. }
/// ```
pub trait RecursiveFields: RecursiveMeaning {
    /// Visits each member.
    ///
    /// ```ignore
    /// visitor.visit::<ExplicitField<Str>>(1, &self.title);
    /// visitor.visit_list(2, &self.parts);
    /// ```
    fn visit<V: RecursiveVisitor<Self>>(&self, visitor: &mut V)
        requires waits { V.Waits ((message_schema Self.COST Self.schema Self.sound).slots (Self.schema.out self.now)) visitor.old }
        requires low { V.Reaches (Self.schema.height self.now) visitor.old }
        ensures seen { (z : Seen) → V.IsAt z visitor.old →
            V.IsAt ((message_schema Self.COST Self.schema Self.sound).seen self.now z) visitor.new }
        ensures back { Self.schema.Owes };

    /// Merges the field whose tag was read into the member of its number. What is inside a member of the message's own type
    /// is merged by `inner`.
    ///
    /// # Errors
    /// That of the member. For a field that isn't declared, that of keeping it or of passing over it.
    ///
    /// ```ignore
    /// 1 => ExplicitField::<Str>::merge(&mut self.title, alloc, tag, buf, ctx),
    /// 2 => take_list(&mut self.parts, alloc, tag, buf, ctx, inner),
    /// ```
    fn take<I: InnerMerger<Self>>(
        &mut self,
        alloc: Global,
        tag: Tag,
        buf: &mut &[u8],
        ctx: DecodeContext<'_>,
        inner: &I,
    ) -> Result<(), DecodeError>
        requires { (d : ℕ) → d + 1 ≡ ctx.depth → I.may inner.now d }
        ensures taken { MemberTakes tag ctx.entry ctx.exit self.old self.new buf.old buf.new result
            (message_schema Self.COST Self.schema Self.sound) }
        ensures whole { OnOk result (Self.schema.into (Self.schema.out self.new) ≡ self.new) };
}
