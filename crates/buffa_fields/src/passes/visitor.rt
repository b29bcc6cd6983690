//! What is done with each member of a message, one after the other.

ghost use Rattle.std.specs.Prelude.{◌++◌, [], ℕ, List};
ghost use Rattle.buffa_bytes.specs.Number.{IsNumber};
ghost use Rattle.buffa_fields.specs.UnknownsOfMembers.{ReadsBackWithUnknowns};
ghost use Rattle.buffa_fields.specs.Schema.{Comes, ReadsBackTo, Seen, more, visited};

use crate::members::keeps_unknowns::KeepsUnknowns;
use crate::members::member::Member;
use buffa_wire::UnknownFields;

/// What is done with each member: its length is added, or its encoding is written.
///
/// ```ignore
/// impl Visitor for Nothing { .. }
/// ```
pub trait Visitor {
    /// It has seen these records, and these sizes.
    ghost IsAt: { Seen → Self → Type 0 };

    /// The sizes of the messages in the members that it goes on to: these come next, in this order.
    ghost Waits: { List ℕ → Self → Type 0 };

    /// So do those of the first of these members.
    ghost begins: { (ss rest : List ℕ) (v : Self) → Waits (ss ++ rest) v → Comes Waits ss v };

    /// The next member.
    ///
    /// ```ignore
    /// visitor.visit::<ImplicitField<Int32>>(1, &self.total);
    /// ```
    fn visit<M: Member>(&mut self, number: u32, part: &M::Part)
        requires number { IsNumber number }
        requires comes { Comes Waits (M.shape.slots (M.shape.meaning part.now)) self.old }
        ensures seen { (z : Seen) → IsAt z self.old → IsAt (visited M.shape number part.now z) self.new }
        ensures waits { (rest : List ℕ) → Waits (M.shape.slots (M.shape.meaning part.now) ++ rest) self.old →
            Waits rest self.new }
        ensures back { ReadsBackTo M.shape };

    /// The next member, which puts aside what it doesn't understand.
    ///
    /// ```ignore
    /// visitor.visit_with_unknowns::<MapField<Int32, ClosedEnum<Shade>>>(3, &self.shades);
    /// ```
    #[inline(always)]
    fn visit_with_unknowns<M: KeepsUnknowns>(&mut self, number: u32, part: &M::Part)
        requires number { IsNumber number }
        requires comes { Comes Waits (M.shape.slots (M.shape.meaning part.now)) self.old }
        ensures seen { (z : Seen) → IsAt z self.old → IsAt (visited M.shape number part.now z) self.new }
        ensures waits { (rest : List ℕ) → Waits (M.shape.slots (M.shape.meaning part.now) ++ rest) self.old →
            Waits rest self.new }
        ensures back { ReadsBackWithUnknowns M.shape M.unknowns }
    {
        self.visit::<M>(number, part)
    }

    /// The fields that were kept.
    ///
    /// ```ignore
    /// visitor.visit_unknown_fields(&self.unknown_fields);
    /// ```
    fn visit_unknown_fields(&mut self, fields: &UnknownFields)
        ensures seen { (z : Seen) → IsAt z self.old → IsAt (more fields.now.records [] z) self.new }
        ensures waits { (rest : List ℕ) → Waits rest self.old → Waits rest self.new };
}
