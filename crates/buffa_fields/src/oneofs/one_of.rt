//! Oneofs: an enum of one's own, of which a message has at most one case.

ghost use Rattle.std.specs.Prelude.{◌++◌, List, ℕ};
ghost use Rattle.std.specs.Option.{option_map};
ghost use Rattle.buffa_wire.specs.BudgetLeft.{budget_left};
ghost use Rattle.buffa_fields.specs.Schema.{Comes, Seen};
ghost use Rattle.buffa_fields.specs.OneOfParts.{OneOf, case_seen, case_slots};

use crate::passes::visitor::Visitor;
use buffa_wire::{DecodeContext, DecodeError, Tag};
use std::alloc::Global;

/// An enum of which a message has at most one case: a `oneof`.
///
/// ```ignore
/// impl OneOf for Method { .. }
/// ```
pub trait OneOf: Drop {
    /// What a case of it means: what the first does, or one of those after it ([`Or`](crate::meaning::Or)).
    ///
    /// ```ignore
    /// type Meaning = Or<[u8; 0], Or<i32, Or<<Transfer as Blank>::Meaning, ()>>>;
    /// ```
    type Meaning;

    /// Its cases, each under its number, and which of them a value is.
    ghost cases: { OneOf Self Self.Meaning };

    /// Visits the case that it is.
    ///
    /// ```ignore
    /// Method::Card(card) => visitor.visit::<Set<ExplicitField<Str>>>(2, card),
    /// ```
    fn visit<V: Visitor>(&self, visitor: &mut V)
        requires { Comes V.Waits (cases.all.cases.lent (cases.view self.now)) visitor.old }
        ensures seen { (z : Seen) → V.IsAt z visitor.old → V.IsAt (cases.all.cases.seen (cases.view self.now) z) visitor.new }
        ensures waits { (rest : List ℕ) → V.Waits (cases.all.cases.lent (cases.view self.now) ++ rest) visitor.old →
            V.Waits rest visitor.new };

    /// Merges the field whose tag was read into the case of its number.
    ///
    /// # Errors
    /// That of the case.
    ///
    /// ```ignore
    /// 2 => {
    ///     let card = ExplicitField::<Str>::read_value(alloc, tag, buf, ctx)?;
    ///     drop(slot.replace(Method::Card(card)));
    ///     Ok(())
    /// }
    /// ```
    fn take(
        slot: &mut Option<Self>,
        alloc: Global,
        tag: Tag,
        buf: &mut &[u8],
        ctx: DecodeContext<'_>,
    ) -> Result<(), DecodeError>
        ensures { cases.all.cases.Took (λ o. option_map cases.view o) ctx.entry.depth slot.old tag.number tag.wire_type buf.old.now ctx.entry.budget.now result
            slot.new (budget_left ctx.exit) buf.new.now };

    /// The encoding of each case reads back.
    ///
    /// ```ignore
    /// case_reads_back::<ExplicitField<Str>>();
    /// ```
    fn reads_back()
        ensures { cases.all.cases.Owes };
}

/// Visits the case that is there, if one is.
///
/// ```ignore
/// visit_one_of(&self.method, visitor);
/// ```
pub fn visit_one_of<E: OneOf, V: Visitor>(part: &Option<E>, visitor: &mut V)
    requires { Comes V.Waits (case_slots E.cases part.now) visitor.old }
    ensures seen { (z : Seen) → V.IsAt z visitor.old → V.IsAt (case_seen E.cases part.now z) visitor.new }
    ensures waits { (rest : List ℕ) → V.Waits (case_slots E.cases part.now ++ rest) visitor.old →
        V.Waits rest visitor.new }
    ensures back { E.cases.all.cases.Owes }
{
    E::reads_back();
    if let Some(case) = part {
        case.visit(visitor);
    }
}
