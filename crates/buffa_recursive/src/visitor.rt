//! What is done with each member of a message that holds itself, one after the other.

ghost use Rattle.std.specs.Prelude.{◌≡◌, ◌++◌, ◌<◌, [], ℕ, List};
ghost use Rattle.std.specs.Option.{option_map};
ghost use Rattle.buffa_bytes.specs.Number.{IsNumber};
ghost use Rattle.buffa_fields.specs.UnknownsOfMembers.{ReadsBackWithUnknowns};
ghost use Rattle.buffa_fields.specs.Schema.{Comes, ReadsBackTo, Seen, more, visited};
ghost use Rattle.buffa_map.specs.Pairs.{means};
ghost use Rattle.buffa_recursive.specs.MapKeys.{KeysReadBack};
ghost use Rattle.buffa_recursive.specs.RecursiveSchema.{children_shape, map_shape, maybe_shape};
ghost use Rattle.buffa_fields.specs.OneOfParts.{case_means, case_seen, case_slots};
ghost use Rattle.buffa_recursive.specs.PlainParts.{enum_by_meaning};
ghost use Rattle.buffa_recursive.specs.Fixpoint.{semantics};

use crate::map_keys::{ByKey, Keyed};
use crate::recursive_meaning::RecursiveMeaning;
use buffa_fields::members::keeps_unknowns::KeepsUnknowns;
use buffa_fields::members::member::Member;
use buffa_fields::members::ordered_key::OrderedKey;
use buffa_fields::oneofs::one_of::OneOf;
use buffa_map::map_codec::MapCodec;
use buffa_wire::UnknownFields;
use std::collections::BTreeMap;

/// What is done with each member: its length is added, or its encoding is written. M is the message's type.
pub trait RecursiveVisitor<M: RecursiveMeaning> {
    /// It has seen these records, and these sizes.
    ghost IsAt: { Seen → Self → Type 0 };

    /// The sizes of the messages in the members that it goes on to: these come next, in this order.
    ghost Waits: { List ℕ → Self → Type 0 };

    /// So do those of the first of these members.
    ghost begins: { (ss rest : List ℕ) (v : Self) → Waits (ss ++ rest) v → Comes Waits ss v };

    /// It may go into messages that are lower than this.
    ghost Reaches: { ℕ → Self → Type 0 };

    /// The next member, which is of another type.
    ///
    /// ```ignore
    /// visitor.visit::<ExplicitField<Str>>(1, &self.title);
    /// ```
    fn visit<N: Member>(&mut self, number: u32, part: &N::Part)
        requires number { IsNumber number }
        requires comes { Comes Waits (N.shape.slots (N.shape.meaning part.now)) self.old }
        ensures seen { (z : Seen) → IsAt z self.old → IsAt (visited N.shape number part.now z) self.new }
        ensures waits { (rest : List ℕ) → Waits (N.shape.slots (N.shape.meaning part.now) ++ rest) self.old →
            Waits rest self.new }
        ensures reaches { (h : ℕ) → Reaches h self.old → Reaches h self.new }
        ensures back { ReadsBackTo N.shape };

    /// The next member, which is of another type and puts aside what it doesn't understand.
    ///
    /// ```ignore
    /// visitor.visit_with_unknowns::<MapField<Int32, ClosedEnum<OutlineMark>>>(6, &self.marks);
    /// ```
    #[inline(always)]
    fn visit_with_unknowns<N: KeepsUnknowns>(&mut self, number: u32, part: &N::Part)
        requires number { IsNumber number }
        requires comes { Comes Waits (N.shape.slots (N.shape.meaning part.now)) self.old }
        ensures seen { (z : Seen) → IsAt z self.old → IsAt (visited N.shape number part.now z) self.new }
        ensures waits { (rest : List ℕ) → Waits (N.shape.slots (N.shape.meaning part.now) ++ rest) self.old →
            Waits rest self.new }
        ensures reaches { (h : ℕ) → Reaches h self.old → Reaches h self.new }
        ensures back { ReadsBackWithUnknowns N.shape N.unknowns }
    {
        self.visit::<N>(number, part)
    }

    /// The next member, which is a oneof: the case that is there, if one is.
    ///
    /// ```ignore
    /// visitor.visit_one_of(&self.source);
    /// ```
    fn visit_one_of<E: OneOf>(&mut self, part: &Option<E>)
        requires { Comes Waits (case_slots E.cases part.now) self.old }
        ensures seen { (z : Seen) → IsAt z self.old →
            IsAt (case_seen (enum_by_meaning E.cases) (case_means E.cases part.now) z) self.new }
        ensures waits { (rest : List ℕ) → Waits (case_slots E.cases part.now ++ rest) self.old → Waits rest self.new }
        ensures reaches { (h : ℕ) → Reaches h self.old → Reaches h self.new }
        ensures back { E.cases.all.cases.Owes };

    /// The next member, which is a list of the message's own type.
    ///
    /// ```ignore
    /// visitor.visit_list(2, &self.parts);
    /// ```
    fn visit_list(&mut self, number: u32, part: &Vec<M>)
        requires number { IsNumber number }
        requires comes { let s = children_shape M.schema (semantics M.RecursiveType.COST M.schema M.sound) in
            Comes Waits (s.slots (M.schema.of_list part.now.items)) self.old }
        requires low { (h : ℕ) × (M.schema.children_height (M.schema.of_list part.now.items) < h) × Reaches h self.old }
        ensures seen { let s = children_shape M.schema (semantics M.RecursiveType.COST M.schema M.sound) in
            (z : Seen) → IsAt z self.old → IsAt (visited s number (M.schema.of_list part.now.items) z) self.new }
        ensures waits { let s = children_shape M.schema (semantics M.RecursiveType.COST M.schema M.sound) in
            (rest : List ℕ) → Waits (s.slots (M.schema.of_list part.now.items) ++ rest) self.old → Waits rest self.new }
        ensures reaches { (h : ℕ) → Reaches h self.old → Reaches h self.new };

    /// The next member, which may hold one message of the message's own type.
    ///
    /// ```ignore
    /// visitor.visit_one(4, &self.beside);
    /// ```
    fn visit_one(&mut self, number: u32, part: &Option<Box<M>>)
        requires number { IsNumber number }
        requires comes { let s = maybe_shape M.schema (semantics M.RecursiveType.COST M.schema M.sound) in
            Comes Waits (s.slots (M.schema.of_option (option_map (λ b. b.value) part.now))) self.old }
        requires low { (h : ℕ) × (M.schema.maybe_height (M.schema.of_option (option_map (λ b. b.value) part.now)) < h)
            × Reaches h self.old }
        ensures seen { let s = maybe_shape M.schema (semantics M.RecursiveType.COST M.schema M.sound) in
            (z : Seen) → IsAt z self.old →
            IsAt (visited s number (M.schema.of_option (option_map (λ b. b.value) part.now)) z) self.new }
        ensures waits { let s = maybe_shape M.schema (semantics M.RecursiveType.COST M.schema M.sound) in
            (rest : List ℕ) → Waits (s.slots (M.schema.of_option (option_map (λ b. b.value) part.now)) ++ rest) self.old →
            Waits rest self.new }
        ensures reaches { (h : ℕ) → Reaches h self.old → Reaches h self.new };

    /// The next member, which is a map of the message's own type.
    ///
    /// ```ignore
    /// visitor.visit_map::<Int32>(5, &self.by_number);
    /// ```
    fn visit_map<KC: MapCodec>(&mut self, number: u32, part: &BTreeMap<KC::Value, M>)
    where
        KC::Value: OrderedKey,
        requires number { IsNumber number }
        requires comes { let s = map_shape M.schema ⟦<ByKey<KC> as Keyed>⟧.keys (semantics M.RecursiveType.COST M.schema M.sound) in
            Comes Waits (s.slots (M.schema.of_pairs (means KC.Value.meaning M.meaning part.now.entries))) self.old }
        requires low { (h : ℕ)
            × (M.schema.pairs_height (M.schema.of_pairs (means KC.Value.meaning M.meaning part.now.entries)) < h)
            × Reaches h self.old }
        ensures seen { let s = map_shape M.schema ⟦<ByKey<KC> as Keyed>⟧.keys (semantics M.RecursiveType.COST M.schema M.sound) in
            (z : Seen) → IsAt z self.old →
            IsAt (visited s number (M.schema.of_pairs (means KC.Value.meaning M.meaning part.now.entries)) z) self.new }
        ensures waits { let s = map_shape M.schema ⟦<ByKey<KC> as Keyed>⟧.keys (semantics M.RecursiveType.COST M.schema M.sound) in
            (rest : List ℕ) →
            Waits (s.slots (M.schema.of_pairs (means KC.Value.meaning M.meaning part.now.entries)) ++ rest) self.old →
            Waits rest self.new }
        ensures reaches { (h : ℕ) → Reaches h self.old → Reaches h self.new }
        ensures back { KeysReadBack ⟦<ByKey<KC> as Keyed>⟧.keys };

    /// The fields that were kept.
    ///
    /// ```ignore
    /// visitor.visit_unknown_fields(&self.unknown_fields);
    /// ```
    fn visit_unknown_fields(&mut self, fields: &UnknownFields)
        ensures seen { (z : Seen) → IsAt z self.old → IsAt (more fields.now.records [] z) self.new }
        ensures waits { (rest : List ℕ) → Waits rest self.old → Waits rest self.new }
        ensures reaches { (h : ℕ) → Reaches h self.old → Reaches h self.new };
}
