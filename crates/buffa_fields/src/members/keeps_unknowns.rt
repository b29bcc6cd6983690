//! Member types that put aside what they don't understand.

ghost use Rattle.buffa_wire.specs.BudgetLeft.{budget_left};
ghost use Rattle.buffa_fields.specs.UnknownsOfMembers.{Unknowns, ReadsBackWithUnknowns, TookWithUnknowns};

use crate::members::member::Member;
use buffa_wire::{DecodeContext, DecodeError, Tag, UnknownFields};
use std::alloc::Global;

/// A member type that puts what it doesn't understand into the fields that the message keeps, behind the others: an
/// undeclared value of a closed enum, or the whole entry that has it.
///
/// ```ignore
/// visitor.visit_with_unknowns::<MapField<Int32, ClosedEnum<Shade>>>(3, &self.shades);
/// ```
pub trait KeepsUnknowns: Member {
    /// What it puts aside, by the words of `Unknowns` in `specs/UnknownsOfMembers.antt`.
    ghost unknowns: { Unknowns Self.Meaning };

    /// Merges the field whose tag was read, and puts aside what the value doesn't hold.
    ///
    /// # Errors
    /// Those of [`Member::merge`], and [`DecodeError::UnknownFieldLimitExceeded`] where a record can't be kept any more. What
    /// is kept is as it was then.
    ///
    /// ```ignore
    /// 3 => MapField::<Int32, ClosedEnum<Shade>>::merge_with_unknowns(&mut self.shades, &mut self.unknown_fields, alloc, tag, buf, ctx),
    /// ```
    fn merge_with_unknowns(
        part: &mut Self::Part,
        kept: &mut UnknownFields,
        alloc: Global,
        tag: Tag,
        buf: &mut &[u8],
        ctx: DecodeContext<'_>,
    ) -> Result<(), DecodeError>
        ensures { TookWithUnknowns Self.shape unknowns ctx.entry.depth part.old kept.old.records tag.number tag.wire_type buf.old.now
            ctx.entry.budget.now result part.new kept.new.records (budget_left ctx.exit) buf.new.now };

    /// The value's own records read back, and so do those that were put aside. Both nest exactly as deep as they say, where
    /// the messages in the value do.
    ghost unknowns_back: { ReadsBackWithUnknowns Self.shape unknowns };
}
