//! What the members of a message are that hold messages of its own type, and what the message is by its members.

ghost use Rattle.std.specs.Prelude.{◌≡◌, ◌↔◌, ◌+◌, ℕ, List, [], None, Option, true};
ghost use Rattle.std.specs.BTreeMap.{insert_entry};
ghost use Rattle.std.specs.List.{AllByRecursion};
ghost use Rattle.std.specs.Option.{option_map};
ghost use Rattle.buffa_bytes.specs.Readings.{check_wire};
ghost use Rattle.buffa_wire.specs.Takes.{cost_of, merged_of};
ghost use Rattle.buffa_map.specs.Encoding.{AllHold};
ghost use Rattle.buffa_map.specs.Message.{message_reading};
ghost use Rattle.buffa_recursive.specs.RecursiveSchema.{children_shape, map_shape, maybe_shape};
ghost use Rattle.buffa_fields.specs.Levels.{AreExactLevels};
ghost use Rattle.buffa_fields.specs.MapFields.{PairTakesMemory, pair_cost, pair_taken};
ghost use Rattle.buffa_fields.specs.Submessages.{FitsInside, message_cost, message_levels, message_merged, message_records, message_slots, taken_there};
ghost use Rattle.buffa_fields.specs.MapsOfMessages.{pair_levels, pair_records, pair_slots};
ghost use Rattle.buffa_fields.specs.OrderedMaps.{KeysAscend};
ghost use Rattle.buffa_fields.specs.TakenClauses.{TakeAlike};
ghost use Rattle.buffa_fields.specs.Refusals.{RefusesBoxed, RefusesPair};
ghost use Rattle.buffa_fields.specs.RepeatedMessages.{MessagesTakeMemory, messages_cost, messages_levels, messages_records, messages_slots, messages_taken};
ghost use Rattle.buffa_fields.specs.RefusedMessage.{IsMemberRefused};
ghost use Rattle.buffa_recursive.specs.Fixpoint.{semantics, message_schema};
ghost use Rattle.buffa_fields.specs.Values.{IfThere};

use buffa_fields::members::ordered_key::OrderedKey;
use buffa_map::map_codec::MapCodec;
use buffa_recursive::map_keys::{ByKey, Keyed};
use buffa_recursive::recursive_fields::RecursiveFields;
use buffa_recursive::recursive_meaning::{RecursiveFieldByField, RecursiveMeaning};
use buffa_wire::{MessageMethods, MessageSpec, WireType};

/// A list of messages of the message's own type. What `lists_of_messages_are_these` says of each list of messages holds of
/// it: the type's own words say what a message in it means, costs and is written as. A refused message isn't put.
#[tactic(auto, unfolding(buffa_recursive::specs::Fixpoint::semantics, buffa_fields::specs::Submessages::message_merged, buffa_fields::specs::RepeatedMessages::messages_cost))]
pub fn lists_inside_are_these<M: RecursiveMeaning>()
    ensures again { (vs : List M) → M.schema.children_list (M.schema.of_list vs) ≡ vs }
    ensures blank { M.schema.children_list (children_shape M.schema (semantics M.RecursiveType.COST M.schema M.sound)).blank ≡ [] }
    ensures takes { let s = children_shape M.schema (semantics M.RecursiveType.COST M.schema M.sound) in
        (d n : ℕ) (w : _) (p : List ℕ) (v : _) → option_map M.schema.children_list (s.takes d v n w p)
        ≡ messages_taken M.blank_is ⟦<M as MessageSpec>⟧.merged d (M.schema.children_list v) n w p }
    ensures checks { (n : ℕ) (w : _) → (children_shape M.schema (semantics M.RecursiveType.COST M.schema M.sound)).checks n w
        ≡ check_wire n WireType.LengthDelimited w }
    ensures asks { (d n : ℕ) (w : _) (bs : List ℕ) →
        (children_shape M.schema (semantics M.RecursiveType.COST M.schema M.sound)).asks d n w bs ↔ (MessagesTakeMemory d n w bs) }
    ensures refuses { let s = children_shape M.schema (semantics M.RecursiveType.COST M.schema M.sound) in
        (d : ℕ) (v : _) (n : ℕ) (w : _) (bs : List ℕ) (l : _) (e : _) (u : _) →
        s.refuses d v n w bs l e u ↔ (M.schema.children_list v ≡ M.schema.children_list u) }
    ensures charge { (d n : ℕ) (w : _) (bs : List ℕ) →
        (children_shape M.schema (semantics M.RecursiveType.COST M.schema M.sound)).charge d n w bs
        ≡ messages_cost M.RecursiveType.COST ⟦<M as MessageSpec>⟧.cost d n w bs }
    ensures records { (n : ℕ) (v : _) → (children_shape M.schema (semantics M.RecursiveType.COST M.schema M.sound)).records n v
        ≡ messages_records ⟦<M as MessageSpec>⟧.encoding n (M.schema.children_list v) }
    ensures slots { (v : _) → (children_shape M.schema (semantics M.RecursiveType.COST M.schema M.sound)).slots v
        ≡ messages_slots ⟦<M as MessageSpec>⟧.encoding ⟦<M as MessageSpec>⟧.slots
        (M.schema.children_list v) }
    ensures levels { (v : _) → (children_shape M.schema (semantics M.RecursiveType.COST M.schema M.sound)).levels v
        ≡ messages_levels ⟦<M as MessageSpec>⟧.levels (M.schema.children_list v) }
    ensures normal { (v : _) → (children_shape M.schema (semantics M.RecursiveType.COST M.schema M.sound)).normal v
        ↔ AllByRecursion (FitsInside ⟦<M as MessageSpec>⟧.normal ⟦<M as MessageSpec>⟧.records)
        (M.schema.children_list v) }
    ensures whole { (children_shape M.schema (semantics M.RecursiveType.COST M.schema M.sound)).whole ≡ true }
{}

/// One message of the message's own type, which may be absent. What `message_fields_are_these` says of each message that may
/// be absent holds of it, except for where memory runs out, since it takes memory to put a message there, even an empty one, and
/// for what it costs, which is what an element of a list does.
#[tactic(auto, unfolding(buffa_recursive::specs::Fixpoint::semantics, buffa_fields::specs::Submessages::message_merged, buffa_fields::specs::RepeatedMessages::messages_cost))]
pub fn ones_inside_are_these<M: RecursiveMeaning>()
    ensures again { (v : Option M) → M.schema.option_of (M.schema.of_option v) ≡ v }
    ensures blank { M.schema.option_of (maybe_shape M.schema (semantics M.RecursiveType.COST M.schema M.sound)).blank ≡ None }
    ensures takes { let s = maybe_shape M.schema (semantics M.RecursiveType.COST M.schema M.sound) in
        (d n : ℕ) (w : _) (p : List ℕ) (v : _) → option_map M.schema.option_of (s.takes d v n w p)
        ≡ taken_there M.blank_is (message_merged ⟦<M as MessageSpec>⟧.merged) d (M.schema.option_of v) n w p }
    ensures checks { (n : ℕ) (w : _) → (maybe_shape M.schema (semantics M.RecursiveType.COST M.schema M.sound)).checks n w
        ≡ check_wire n WireType.LengthDelimited w }
    ensures asks { (d n : ℕ) (w : _) (bs : List ℕ) →
        (maybe_shape M.schema (semantics M.RecursiveType.COST M.schema M.sound)).asks d n w bs ↔ (MessagesTakeMemory d n w bs) }
    ensures refuses { let s = maybe_shape M.schema (semantics M.RecursiveType.COST M.schema M.sound) in
        (d : ℕ) (v : _) (n : ℕ) (w : _) (bs : List ℕ) (l : _) (e : _) (u : _) → s.refuses d v n w bs l e u
        ↔ RefusesBoxed M.RecursiveType.COST M.blank_is ⟦<M as MessageSpec>⟧.merged ⟦<M as MessageSpec>⟧.cost d
        (M.schema.option_of v) n w bs l e (M.schema.option_of u) }
    ensures charge { (d n : ℕ) (w : _) (bs : List ℕ) →
        (maybe_shape M.schema (semantics M.RecursiveType.COST M.schema M.sound)).charge d n w bs
        ≡ messages_cost M.RecursiveType.COST ⟦<M as MessageSpec>⟧.cost d n w bs }
    ensures records { (n : ℕ) (v : _) → (maybe_shape M.schema (semantics M.RecursiveType.COST M.schema M.sound)).records n v
        ≡ message_records ⟦<M as MessageSpec>⟧.encoding n (M.schema.option_of v) }
    ensures slots { (v : _) → (maybe_shape M.schema (semantics M.RecursiveType.COST M.schema M.sound)).slots v
        ≡ message_slots ⟦<M as MessageSpec>⟧.encoding ⟦<M as MessageSpec>⟧.slots
        (M.schema.option_of v) }
    ensures levels { (v : _) → (maybe_shape M.schema (semantics M.RecursiveType.COST M.schema M.sound)).levels v
        ≡ message_levels ⟦<M as MessageSpec>⟧.levels (M.schema.option_of v) }
    ensures normal { (v : _) → (maybe_shape M.schema (semantics M.RecursiveType.COST M.schema M.sound)).normal v
        ↔ IfThere (FitsInside ⟦<M as MessageSpec>⟧.normal ⟦<M as MessageSpec>⟧.records)
        (M.schema.option_of v) }
    ensures whole { (maybe_shape M.schema (semantics M.RecursiveType.COST M.schema M.sound)).whole ≡ true }
{}

/// A map of messages of the message's own type, in the order of its keys. What `ordered_maps_of_messages_are_these` says of
/// each such map holds of it. A value has its pairs, and nothing besides, where it is normal.
#[tactic(auto, unfolding(buffa_recursive::specs::Fixpoint::semantics))]
pub fn maps_inside_are_these<M: RecursiveMeaning, KC: MapCodec>()
where
    KC::Value: OrderedKey,
    ensures again { (v : List (KC.Value.Meaning × M)) → M.schema.pairs_from (M.schema.of_pairs v) ≡ v }
    ensures blank { let keys = ⟦<ByKey<KC> as Keyed>⟧.keys in
        M.schema.pairs_from (map_shape M.schema keys (semantics M.RecursiveType.COST M.schema M.sound)).blank ≡ [] }
    ensures takes { let s = map_shape M.schema ⟦<ByKey<KC> as Keyed>⟧.keys (semantics M.RecursiveType.COST M.schema M.sound) in
        (d n : ℕ) (w : _) (p : List ℕ) (v : _) → option_map M.schema.pairs_from (s.takes d v n w p)
        ≡ pair_taken KC.reading (message_reading M.blank_is ⟦<M as MessageSpec>⟧.merged
        ⟦<M as MessageSpec>⟧.cost) (insert_entry KC.Value.order) d (M.schema.pairs_from v) n w p }
    ensures checks { let s = map_shape M.schema ⟦<ByKey<KC> as Keyed>⟧.keys (semantics M.RecursiveType.COST M.schema M.sound) in
        (n : ℕ) (w : _) → s.checks n w ≡ check_wire n WireType.LengthDelimited w }
    ensures asks { let s = map_shape M.schema ⟦<ByKey<KC> as Keyed>⟧.keys (semantics M.RecursiveType.COST M.schema M.sound) in
        (d n : ℕ) (w : _) (bs : List ℕ) → s.asks d n w bs
        ↔ PairTakesMemory KC.reading (message_reading M.blank_is ⟦<M as MessageSpec>⟧.merged
        ⟦<M as MessageSpec>⟧.cost) d n w bs }
    ensures refuses { let s = map_shape M.schema ⟦<ByKey<KC> as Keyed>⟧.keys (semantics M.RecursiveType.COST M.schema M.sound) in
        (d : ℕ) (v : _) (n : ℕ) (w : _) (bs : List ℕ) (l : _) (e : _) (u : _) → s.refuses d v n w bs l e u
        ↔ RefusesPair KC.reading (message_reading M.blank_is ⟦<M as MessageSpec>⟧.merged
        ⟦<M as MessageSpec>⟧.cost) (KC.COST + M.RecursiveType.COST) d (M.schema.pairs_from v) n w bs l e
        (M.schema.pairs_from u) }
    ensures charge { let s = map_shape M.schema ⟦<ByKey<KC> as Keyed>⟧.keys (semantics M.RecursiveType.COST M.schema M.sound) in
        (d n : ℕ) (w : _) (bs : List ℕ) → s.charge d n w bs
        ≡ pair_cost KC.reading (message_reading M.blank_is ⟦<M as MessageSpec>⟧.merged
        ⟦<M as MessageSpec>⟧.cost) (KC.COST + M.RecursiveType.COST) d n w bs }
    ensures records { let s = map_shape M.schema ⟦<ByKey<KC> as Keyed>⟧.keys (semantics M.RecursiveType.COST M.schema M.sound) in
        (n : ℕ) (v : _) → s.records n v
        ≡ pair_records KC.writing ⟦<M as MessageSpec>⟧.encoding n (M.schema.pairs_from v) }
    ensures slots { let s = map_shape M.schema ⟦<ByKey<KC> as Keyed>⟧.keys (semantics M.RecursiveType.COST M.schema M.sound) in
        (v : _) → s.slots v ≡ pair_slots ⟦<M as MessageSpec>⟧.encoding
        ⟦<M as MessageSpec>⟧.slots (M.schema.pairs_from v) }
    ensures levels { let s = map_shape M.schema ⟦<ByKey<KC> as Keyed>⟧.keys (semantics M.RecursiveType.COST M.schema M.sound) in
        (v : _) → s.levels v ≡ pair_levels ⟦<M as MessageSpec>⟧.levels (M.schema.pairs_from v) }
    ensures normal { let s = map_shape M.schema ⟦<ByKey<KC> as Keyed>⟧.keys (semantics M.RecursiveType.COST M.schema M.sound) in
        (v : _) → s.normal v ↔ ((M.schema.of_pairs (M.schema.pairs_from v) ≡ v)
        × AllHold (λ k. KC.fits k × KC.normal k) (FitsInside ⟦<M as MessageSpec>⟧.normal
        ⟦<M as MessageSpec>⟧.records) (M.schema.pairs_from v)
        × KeysAscend KC.Value.order (M.schema.pairs_from v)) }
    ensures whole { let keys = ⟦<ByKey<KC> as Keyed>⟧.keys in
        (map_shape M.schema keys (semantics M.RecursiveType.COST M.schema M.sound)).whole ≡ true }
{}

/// A message that holds itself is its members, as `members_are_these` says it of a list of members: a value has what they
/// mean (`out`), and is made of it again (`into`); each value that a struct has is such a value. All that is said of a message
/// is what its members say of what they mean; and it is what calls say of the messages inside, by what is told of the type (`semantics`).
pub fn messages_that_hold_themselves_are_these<M: RecursiveFields>()
    ensures meaning { (m : M) → M.meaning m ≡ m }
    ensures again { (y : _) → M.schema.out (M.schema.into y) ≡ y }
    ensures members { (m : M) → (message_schema M.RecursiveType.COST M.schema M.sound).meaning m ≡ M.schema.out m }
    ensures blank { M.blank_is ≡ M.schema.into (message_schema M.RecursiveType.COST M.schema M.sound).blank }
    ensures merged { (d : ℕ) (v : M) (b : List ℕ) → M.schema.into (M.schema.out v) ≡ v →
        ⟦<M as MessageSpec>⟧.merged d v b ≡ option_map M.schema.into (merged_of (message_schema M.RecursiveType.COST M.schema M.sound).takes d (M.schema.out v) b) }
    ensures cost { (d : ℕ) (b : List ℕ) → ⟦<M as MessageSpec>⟧.cost d b
        ≡ cost_of (message_schema M.RecursiveType.COST M.schema M.sound).charge d b }
    ensures records { (v : M) → ⟦<M as MessageSpec>⟧.records v
        ≡ (message_schema M.RecursiveType.COST M.schema M.sound).records (M.schema.out v) }
    ensures slots { (v : M) → ⟦<M as MessageSpec>⟧.slots v
        ≡ (message_schema M.RecursiveType.COST M.schema M.sound).slots (M.schema.out v) }
    ensures levels { (v : M) → ⟦<M as MessageSpec>⟧.levels v
        ≡ (message_schema M.RecursiveType.COST M.schema M.sound).levels (M.schema.out v) }
    ensures normal { (v : M) → ⟦<M as MessageSpec>⟧.normal v ↔ (M.schema.Owes
        × (M.schema.into (M.schema.out v) ≡ v) × (message_schema M.RecursiveType.COST M.schema M.sound).normal (M.schema.out v)) }
    ensures takes { (d : ℕ) (v : M) (n : ℕ) (w : _) (p : List ℕ) → ⟦<M as MessageSpec>⟧.takes d v n w p
        ≡ option_map M.schema.into ((message_schema M.RecursiveType.COST M.schema M.sound).takes d (M.schema.out v) n w p) }
    ensures charge { ⟦<M as MessageSpec>⟧.charge ≡ (message_schema M.RecursiveType.COST M.schema M.sound).charge }
    ensures refused { (d : ℕ) (v : M) (n : ℕ) (w : _) (bs : List ℕ) (l : _) (e : _) (u : M) →
        ⟦<M as MessageSpec>⟧.Refused d v n w bs l e u ↔ IsMemberRefused
        (message_schema M.RecursiveType.COST M.schema M.sound) d (M.schema.out v) n w bs l e (M.schema.out u) }
    ensures sure { (v : M) → ⟦<RecursiveFieldByField as MessageMethods<M>>⟧.sure v
        ↔ ((message_schema M.RecursiveType.COST M.schema M.sound).slots (M.schema.out v) ≡ []) }
    ensures taken { TakeAlike ⟦<RecursiveFieldByField as MessageMethods<M>>⟧.Taken (message_schema M.RecursiveType.COST M.schema M.sound).Taken }
    ensures units { ⟦<M as MessageSpec>⟧.COST ≡ M.RecursiveType.COST }
    ensures words { let t = semantics M.RecursiveType.COST M.schema M.sound in
        ((d : ℕ) (v : M) (b : List ℕ) → ⟦<M as MessageSpec>⟧.merged d v b ≡ t.merged d v b)
        × ((d : ℕ) (b : List ℕ) → ⟦<M as MessageSpec>⟧.cost d b ≡ t.cost d b)
        × ((v : M) → (⟦<M as MessageSpec>⟧.records v ≡ t.records v) × (⟦<M as MessageSpec>⟧.slots v ≡ t.slots v)
        × (⟦<M as MessageSpec>⟧.levels v ≡ t.levels v) × (⟦<M as MessageSpec>⟧.normal v ↔ t.normal v)) }
    ensures always { (v : M) → ⟦<RecursiveFieldByField as MessageMethods<M>>⟧.sure v ↔ ((semantics M.RecursiveType.COST M.schema M.sound).slots v ≡ []) }
{}

/// The levels of a message that holds itself are exact, where those of its members of other types are: at a lesser depth,
/// the encoding of a normal value whose records fit is refused, whatever it is merged into.
pub fn levels_of_messages_that_hold_themselves_are_exact<M: RecursiveMeaning>()
    ensures { M.schema.Exact → AreExactLevels ⟦<M as MessageSpec>⟧.merged
        ⟦<M as MessageSpec>⟧.encoding ⟦<M as MessageSpec>⟧.records
        ⟦<M as MessageSpec>⟧.normal ⟦<M as MessageSpec>⟧.levels }
{}
