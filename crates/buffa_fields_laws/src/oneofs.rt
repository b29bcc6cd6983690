//! What the cases of a `oneof` are, and a message that has one, in the words of the encoding guide: of the records of its cases
//! the last one counts, and a message is merged into the one of its own case. What is said of a case under a number and of those
//! after it holds of any list of cases; what a value of `C` is, its member type says.
//!
//! The words of `MapCodec` and `MessageSpec` that these cite are pinned by the laws of the wire and of maps.

ghost use Rattle.std.specs.Prelude.{◌≡◌, ◌↔◌, ◌⊎◌, ◌==◌, ◌&&◌, ◌||◌, ◌∷◌, ◌++◌, ◌-◌, ◌^◌, ℕ, List, [], None, Err, Ok, Option, Some, false, if◌then◌else◌, length, max, min, not, suc, true};
ghost use Rattle.std.specs.Option.{option_map};
ghost use Rattle.buffa_bytes.specs.PayloadValue.{PayloadValue, HasPayloadValue};
ghost use Rattle.buffa_wire.specs.Records.{FieldData, bytes, group, records_of};
ghost use Rattle.buffa_fields.specs.Cases.{other_of, this_of};
ghost use Rattle.buffa_fields.specs.UndeclaredFields.{AllNumbers};
ghost use Rattle.buffa_fields.specs.Schema.{Choice, Took, is_number};
ghost use Rattle.buffa_fields.specs.Submessages.{message_merged};
ghost use Rattle.buffa_fields.specs.NamingOneOfs.{one_of};
ghost use Rattle.buffa_fields.specs.OneOfParts.{case, no_case, some_cases};
ghost use Rattle.buffa_fields_laws.specs.OneOfClauses.{CaseOrOthers, RefusesCase};
ghost use Rattle.buffa_fields.specs.TakenClauses.{TakeAlike};
ghost use Rattle.buffa_fields.specs.Refusals.{RefusesUnder};
ghost use Rattle.buffa_fields.specs.Values.{IfThere};
ghost use Rattle.buffa_fields.specs.declared.meaning.Or.{Or};
ghost use Rattle.buffa_fields.specs.declared.meaning.Or.TheVariants.{Other, This};

use buffa_fields::members::explicit_field::ExplicitField;
use buffa_fields::members::group_field::GroupField;
use buffa_fields::members::member::Member;
use buffa_fields::members::message_field::MessageField;
use buffa_fields::members::proto_type::ProtoType;
use buffa_fields::messages::message_fields::MessageFields;
use buffa_fields::oneofs::case::{Case, Set};
use buffa_fields::oneofs::one_of::OneOf;
use buffa_wire::Message;

/// A case under a number, and those after it: what a value of each means, which records it is written as, and how deep it nests. A
/// field of the case's number is taken by its member type, and of the others' numbers by these.
pub fn cases_are_these<E: OneOf, C: Case>()
    ensures there { (v : C.Value) → (a : C.Said) × (C.form.meaning (Some v) ≡ Some a) }
    ensures absent { (k : ℕ) → ((case k C.words E.cases.all).cases.meaning None ≡ None) × (C.form.meaning None ≡ None) }
    ensures this { (k : ℕ) (v : C.Value) (a : C.Said) → C.form.meaning (Some v) ≡ Some a →
        (case k C.words E.cases.all).cases.meaning (Some (This v)) ≡ Some (This a) }
    ensures other { (k : ℕ) (v : E.cases.V) → C.form.meaning None ≡ None →
        (case k C.words E.cases.all).cases.meaning (Some (Other v)) ≡ option_map Other (E.cases.all.cases.meaning (Some v)) }
    ensures mine { (k n : ℕ) → (case k C.words E.cases.all).cases.mine n ≡ (n == k || E.cases.all.cases.mine n) }
    ensures sound { (k : ℕ) (D : _) (others : _) → (case k C.words E.cases.all).cases.sound D others
        ≡ (is_number k && not (D k || E.cases.all.cases.mine k) && (C.form.whole && E.cases.all.cases.sound D others)) }
    ensures takes { (k d : ℕ) (o : _) (w : _) (p : List ℕ) → (case k C.words E.cases.all).cases.takes d o k w p
        ≡ option_map (option_map This) (C.form.takes d (this_of o) k w p) }
    ensures others { (k d n : ℕ) (o : _) (w : _) (p : List ℕ) → (n == k) ≡ false →
        (case k C.words E.cases.all).cases.takes d o n w p
        ≡ option_map (option_map Other) (E.cases.all.cases.takes d (other_of o) n w p) }
    ensures records { (k : ℕ) (a : C.Said) → (case k C.words E.cases.all).cases.records (This a) ≡ C.form.records k (Some a) }
    ensures other_records { (k : ℕ) (b : E.Meaning) →
        (case k C.words E.cases.all).cases.records (Other b) ≡ E.cases.all.cases.records b }
    ensures slots { (k : ℕ) (a : C.Said) → (case k C.words E.cases.all).cases.slots (This a) ≡ C.form.slots (Some a) }
    ensures other_slots { (k : ℕ) (b : E.Meaning) →
        (case k C.words E.cases.all).cases.slots (Other b) ≡ E.cases.all.cases.slots b }
    ensures levels { (k : ℕ) (a : C.Said) → (case k C.words E.cases.all).cases.levels (This a) ≡ C.form.levels (Some a) }
    ensures other_levels { (k : ℕ) (b : E.Meaning) →
        (case k C.words E.cases.all).cases.levels (Other b) ≡ E.cases.all.cases.levels b }
    ensures normal { (k : ℕ) (a : C.Said) → (case k C.words E.cases.all).cases.normal (This a) ↔ C.form.normal (Some a) }
    ensures other_normal { (k : ℕ) (b : E.Meaning) →
        (case k C.words E.cases.all).cases.normal (Other b) ↔ E.cases.all.cases.normal b }
    ensures charge { (k d : ℕ) (w : _) (bs : List ℕ) → (case k C.words E.cases.all).cases.charge d k w bs ≡ C.form.charge d k w bs }
    ensures other_charge { (k d n : ℕ) (w : _) (bs : List ℕ) → (n == k) ≡ false →
        (case k C.words E.cases.all).cases.charge d n w bs ≡ E.cases.all.cases.charge d n w bs }
    ensures asks { (k d : ℕ) (w : _) (bs : List ℕ) → (case k C.words E.cases.all).cases.asks d k w bs ↔ C.form.asks d k w bs }
    ensures other_asks { (k d n : ℕ) (w : _) (bs : List ℕ) → (n == k) ≡ false →
        (case k C.words E.cases.all).cases.asks d n w bs ↔ E.cases.all.cases.asks d n w bs }
    ensures exact { (k : ℕ) → (case k C.words E.cases.all).cases.Exact ↔ (C.form.Exact × E.cases.all.cases.Exact) }
    ensures none { ((n : ℕ) → no_case.cases.mine n ≡ false) × ((x : _) → no_case.cases.normal x → ⊥)
        × ((D : _) (others : _) → no_case.cases.sound D others ≡ others) × no_case.cases.Exact }
{}

/// Some cases, and others after them: each is what it is among its own. So many cases may stand in groups of some.
pub fn cases_stand_together<E: OneOf, F: OneOf>()
    ensures this { (v : E.cases.V) → (some_cases E.cases.all F.cases.all).cases.meaning (Some (This v))
        ≡ option_map This (E.cases.all.cases.meaning (Some v)) }
    ensures other { (v : F.cases.V) → (some_cases E.cases.all F.cases.all).cases.meaning (Some (Other v))
        ≡ option_map Other (F.cases.all.cases.meaning (Some v)) }
    ensures absent { (some_cases E.cases.all F.cases.all).cases.meaning None ≡ None }
    ensures mine { (n : ℕ) → (some_cases E.cases.all F.cases.all).cases.mine n
        ≡ (E.cases.all.cases.mine n || F.cases.all.cases.mine n) }
    ensures sound { (D : _) (others : _) → (some_cases E.cases.all F.cases.all).cases.sound D others
        ≡ E.cases.all.cases.sound (λ n. D n || F.cases.all.cases.mine n) (F.cases.all.cases.sound D others) }
    ensures takes { (d n : ℕ) (o : _) (w : _) (p : List ℕ) → E.cases.all.cases.mine n ≡ true →
        (some_cases E.cases.all F.cases.all).cases.takes d o n w p
        ≡ option_map (option_map This) (E.cases.all.cases.takes d (this_of o) n w p) }
    ensures others { (d n : ℕ) (o : _) (w : _) (p : List ℕ) → E.cases.all.cases.mine n ≡ false →
        (some_cases E.cases.all F.cases.all).cases.takes d o n w p
        ≡ option_map (option_map Other) (F.cases.all.cases.takes d (other_of o) n w p) }
    ensures written { (x : E.Meaning) → let c = (some_cases E.cases.all F.cases.all).cases in
        (c.records (This x) ≡ E.cases.all.cases.records x) × (c.slots (This x) ≡ E.cases.all.cases.slots x)
        × (c.levels (This x) ≡ E.cases.all.cases.levels x) × (c.normal (This x) ↔ E.cases.all.cases.normal x) }
    ensures other_written { (y : F.Meaning) → let c = (some_cases E.cases.all F.cases.all).cases in
        (c.records (Other y) ≡ F.cases.all.cases.records y) × (c.slots (Other y) ≡ F.cases.all.cases.slots y)
        × (c.levels (Other y) ≡ F.cases.all.cases.levels y) × (c.normal (Other y) ↔ F.cases.all.cases.normal y) }
    ensures charge { (d n : ℕ) (w : _) (bs : List ℕ) → E.cases.all.cases.mine n ≡ true →
        let c = (some_cases E.cases.all F.cases.all).cases in
        (c.charge d n w bs ≡ E.cases.all.cases.charge d n w bs) × (c.asks d n w bs ↔ E.cases.all.cases.asks d n w bs) }
    ensures other_charge { (d n : ℕ) (w : _) (bs : List ℕ) → E.cases.all.cases.mine n ≡ false →
        let c = (some_cases E.cases.all F.cases.all).cases in
        (c.charge d n w bs ≡ F.cases.all.cases.charge d n w bs) × (c.asks d n w bs ↔ F.cases.all.cases.asks d n w bs) }
    ensures exact { (some_cases E.cases.all F.cases.all).cases.Exact ↔ (E.cases.all.cases.Exact × F.cases.all.cases.Exact) }
    ensures took { (at : Option E → Option (Or E.cases.V F.cases.V)) (d : ℕ) (old : Option E) (n : ℕ) (w : _) (bs : List ℕ)
        (before : _) (r : _) (new : Option E) (after : _) (rest : List ℕ) → E.cases.all.cases.mine n ≡ true →
        (some_cases E.cases.all F.cases.all).cases.Took at d old n w bs before r new after rest ↔
        E.cases.all.cases.Took (λ o. this_of (at o)) d old n w bs before r new after rest }
    ensures other_took { (at : Option E → Option (Or E.cases.V F.cases.V)) (d : ℕ) (old : Option E) (n : ℕ) (w : _) (bs : List ℕ)
        (before : _) (r : _) (new : Option E) (after : _) (rest : List ℕ) → E.cases.all.cases.mine n ≡ false →
        (some_cases E.cases.all F.cases.all).cases.Took at d old n w bs before r new after rest ↔
        F.cases.all.cases.Took (λ o. other_of (at o)) d old n w bs before r new after rest }
{}

/// Which member types may be a case, and what each is then: what it is as a member that may be absent. The value of a scalar, a
/// string, bytes or an enum takes the place of what stands. A message is merged into the one that stands.
pub fn members_that_may_be_cases_are_these<C: ProtoType, N: Message>()
    ensures value { let a = ⟦<ExplicitField<C> as Case>⟧.form in let b = ⟦<ExplicitField<C> as Member>⟧.shape in
        (⟦<ExplicitField<C> as Case>⟧.merges ≡ false) × (a.meaning ≡ b.meaning) × (a.blank ≡ b.blank) × (a.whole ≡ b.whole)
        × (a.takes ≡ b.takes) × (a.checks ≡ b.checks) × (a.charge ≡ b.charge) × (a.records ≡ b.records) × (a.slots ≡ b.slots)
        × (a.levels ≡ b.levels) × (a.Exact ↔ b.Exact) × ((v : _) → a.normal v ↔ b.normal v)
        × ((d n : ℕ) (w : _) (bs : List ℕ) → a.asks d n w bs ↔ b.asks d n w bs) × RefusesUnder a b.refuses }
    ensures message { let a = ⟦<MessageField<N> as Case>⟧.form in let b = ⟦<MessageField<N> as Member>⟧.shape in
        (⟦<MessageField<N> as Case>⟧.merges ≡ true) × (a.meaning ≡ b.meaning) × (a.blank ≡ b.blank) × (a.whole ≡ b.whole)
        × (a.takes ≡ b.takes) × (a.checks ≡ b.checks) × (a.charge ≡ b.charge) × (a.records ≡ b.records) × (a.slots ≡ b.slots)
        × (a.levels ≡ b.levels) × (a.Exact ↔ b.Exact) × ((v : _) → a.normal v ↔ b.normal v)
        × ((d n : ℕ) (w : _) (bs : List ℕ) → a.asks d n w bs ↔ b.asks d n w bs) × RefusesUnder a b.refuses }
    ensures group { let a = ⟦<GroupField<N> as Case>⟧.form in let b = ⟦<GroupField<N> as Member>⟧.shape in
        (⟦<GroupField<N> as Case>⟧.merges ≡ true) × (a.meaning ≡ b.meaning) × (a.blank ≡ b.blank) × (a.whole ≡ b.whole)
        × (a.takes ≡ b.takes) × (a.checks ≡ b.checks) × (a.charge ≡ b.charge) × (a.records ≡ b.records) × (a.slots ≡ b.slots)
        × (a.levels ≡ b.levels) × (a.Exact ↔ b.Exact) × ((v : _) → a.normal v ↔ b.normal v)
        × ((d n : ℕ) (w : _) (bs : List ℕ) → a.asks d n w bs ↔ b.asks d n w bs) × RefusesUnder a b.refuses }
{}

/// The value of a case, as a member (`Set`), means what the case's member type makes of a value that is there, and else is what that is.
pub fn values_of_cases_are_these<C: Case>()
    ensures meaning { (v : C.Value) → ⟦<Set<C> as Member>⟧.shape.meaning v ≡ C.form.meaning (Some v) }
    ensures alike { let a = ⟦<Set<C> as Member>⟧.shape in let b = C.form in
        (a.blank ≡ b.blank) × (a.whole ≡ b.whole) × (a.takes ≡ b.takes) × (a.checks ≡ b.checks) × (a.charge ≡ b.charge)
        × (a.records ≡ b.records) × (a.slots ≡ b.slots) × (a.levels ≡ b.levels) × (a.Exact ↔ b.Exact)
        × ((v : _) → a.normal v ↔ b.normal v)
        × ((d n : ℕ) (w : _) (bs : List ℕ) → a.asks d n w bs ↔ b.asks d n w bs) × RefusesUnder a b.refuses }
{}

/// What stands when a field of a case's number was taken or refused, and what is said of the field: what the case's member type says of
/// it, where it starts with the value that stands, if that is of this case and is merged into, and else with none. Fields of
/// other numbers are for the cases after it.
pub fn cases_take_their_fields<E: OneOf, C: Case>()
    ensures merged { (k d : ℕ) (at : Option E → Option (Or C.Value E.cases.V)) (old : Option E) (p : C.Value) (w : _) (bs : List ℕ)
        (before : _) (r : _) (new : Option E) (after : _) (rest : List ℕ) → C.merges ≡ true → at old ≡ Some (This p) →
        (case k C.words E.cases.all).cases.Took at d old k w bs before r new after rest →
        (q : C.Value) × (at new ≡ Some (This q)) × Took C.form d (Some p) k w bs before r (Some q) after rest }
    ensures put { (k d : ℕ) (at : Option E → Option (Or C.Value E.cases.V)) (old : Option E) (w : _) (bs : List ℕ)
        (before : _) (x : _) (new : Option E) (after : _) (rest : List ℕ) →
        (C.merges ≡ false) ⊎ ((p : C.Value) → at old ≡ Some (This p) → ⊥) →
        (case k C.words E.cases.all).cases.Took at d old k w bs before (Ok x) new after rest →
        (q : C.Value) × (at new ≡ Some (This q)) × Took C.form d None k w bs before (Ok x) (Some q) after rest }
    ensures refused { (k d : ℕ) (at : Option E → Option (Or C.Value E.cases.V)) (old : Option E) (w : _) (bs : List ℕ)
        (before : _) (e : _) (new : Option E) (after : _) (rest : List ℕ) → C.merges ≡ false →
        (case k C.words E.cases.all).cases.Took at d old k w bs before (Err e) new after rest →
        (new ≡ old) × Took C.form d None k w bs before (Err e) None after rest }
    ensures anew_refused { (k d : ℕ) (at : Option E → Option (Or C.Value E.cases.V)) (old : Option E) (w : _) (bs : List ℕ)
        (before : _) (e : _) (new : Option E) (after : _) (rest : List ℕ) → this_of (at old) ≡ None →
        (case k C.words E.cases.all).cases.Took at d old k w bs before (Err e) new after rest →
        (new ≡ old) × Took C.form d None k w bs before (Err e) None after rest }
    ensures none_of_it { (o : Option (Or C.Value E.cases.V)) →
        (this_of o ≡ None) ↔ ((p : C.Value) → o ≡ Some (This p) → ⊥) }
    ensures others { (k d n : ℕ) (at : Option E → Option (Or C.Value E.cases.V)) (old : Option E) (w : _) (bs : List ℕ)
        (before : _) (r : _) (new : Option E) (after : _) (rest : List ℕ) → (n == k) ≡ false →
        (case k C.words E.cases.all).cases.Took at d old n w bs before r new after rest ↔
        E.cases.all.cases.Took (λ o. other_of (at o)) d old n w bs before r new after rest }
{}

/// A case that is there has one record, under its number, of a default value too: of a scalar, a string, bytes or an enum as its codec
/// has it, of a message its encoding, of a group its fields. A message has a slot, and is a level deep, and so are those in it.
#[tactic(auto, unfolding(buffa_fields::specs::MemberRecords::explicit_records, buffa_fields::specs::Submessages::message_slots))]
pub fn cases_are_written<E: OneOf, C: ProtoType, N: Message>()
    ensures value { (k : ℕ) (v : C.Value.Meaning) →
        (case k ⟦<ExplicitField<C> as Case>⟧.words E.cases.all).cases.records (This v) ≡ (k, C.field_data v) ∷ [] }
    ensures message { (k : ℕ) (v : N.Meaning) →
        (case k ⟦<MessageField<N> as Case>⟧.words E.cases.all).cases.records (This v) ≡ (k, bytes (N.encoding v)) ∷ [] }
    ensures group { (k : ℕ) (v : N.Meaning) → (case k ⟦<GroupField<N> as Case>⟧.words E.cases.all).cases.records (This v)
        ≡ (k, group (records_of (N.records v))) ∷ [] }
    ensures slots { (k : ℕ) (v : N.Meaning) → (case k ⟦<MessageField<N> as Case>⟧.words E.cases.all).cases.slots (This v)
        ≡ min (length (N.encoding v)) (2 ^ 32 - 1) ∷ N.slots v }
    ensures levels { (k : ℕ) (x : C.Value.Meaning) (v : N.Meaning) →
        ((case k ⟦<ExplicitField<C> as Case>⟧.words E.cases.all).cases.levels (This x) ≡ 0)
        × ((case k ⟦<MessageField<N> as Case>⟧.words E.cases.all).cases.levels (This v) ≡ suc (N.levels v)) }
{}

/// A record of a case whose value is a scalar, a string, bytes or an enum: its value takes the place of what stands, whichever case
/// that is.
pub fn the_last_value_stands<E: OneOf, C: ProtoType>()
    ensures { (k d : ℕ) (o : _) (x : C.Value.Meaning) (p : List ℕ) (c : PayloadValue) (known : _) → HasPayloadValue C.WIRE_TYPE p c →
        C.reading.reads d C.Value.blank_is c ≡ Ok (x, known) →
        (case k ⟦<ExplicitField<C> as Case>⟧.words E.cases.all).cases.takes d o k C.WIRE_TYPE p ≡ Some (Some (This x)) }
{}

/// A record of a case whose value is a message: it is merged into the message that stands, where that is of this case. Where another
/// case stands, or none, it is merged into a default message, which takes the place of what stands.
pub fn messages_are_merged_into_their_case<E: OneOf, N: Message>()
    ensures partly { (k d : ℕ) (v : N.Meaning) (w : _) (p : List ℕ) →
        (case k ⟦<MessageField<N> as Case>⟧.words E.cases.all).cases.takes d (Some (This v)) k w p
        ≡ option_map (λ u. Some (This u)) (message_merged N.merged d v k w p) }
    ensures other { (k d : ℕ) (b : E.Meaning) (w : _) (p : List ℕ) →
        (case k ⟦<MessageField<N> as Case>⟧.words E.cases.all).cases.takes d (Some (Other b)) k w p
        ≡ option_map (λ u. Some (This u)) (message_merged N.merged d N.blank_is k w p) }
    ensures none { (k d : ℕ) (w : _) (p : List ℕ) →
        (case k ⟦<MessageField<N> as Case>⟧.words E.cases.all).cases.takes d None k w p
        ≡ option_map (λ u. Some (This u)) (message_merged N.merged d N.blank_is k w p) }
{}

/// A oneof, in front of the other members: at most one case is there, and only that has records. It takes the fields of its
/// numbers, and these leave the other members as they are.
pub fn oneofs_are_these<M: MessageFields, E: OneOf>()
    ensures meaning { (get : M → Option E) (m : M) → (one_of get E.cases M.schema).meaning m
        ≡ (E.cases.all.cases.meaning (option_map E.cases.view (get m)), M.schema.meaning m) }
    ensures blank { (get : M → Option E) → (one_of get E.cases M.schema).blank ≡ (None, M.schema.blank) }
    ensures takes { (get : M → Option E) (d n : ℕ) (v : _) (w : _) (p : List ℕ) → E.cases.all.cases.mine n ≡ false →
        (one_of get E.cases M.schema).takes d v n w p ≡ option_map (λ y. (v.0, y)) (M.schema.takes d v.1 n w p) }
    ensures own { (get : M → Option E) (d n : ℕ) (v : _) (w : _) (p : List ℕ) → E.cases.all.cases.mine n ≡ true →
        (one_of get E.cases M.schema).takes d v n w p ≡ option_map (λ x. (x, v.1)) (E.cases.all.cases.takes d v.0 n w p) }
    ensures charge { (get : M → Option E) (d n : ℕ) (w : _) (bs : List ℕ) → E.cases.all.cases.mine n ≡ true →
        (one_of get E.cases M.schema).charge d n w bs ≡ E.cases.all.cases.charge d n w bs }
    ensures other_charge { (get : M → Option E) (d n : ℕ) (w : _) (bs : List ℕ) → E.cases.all.cases.mine n ≡ false →
        (one_of get E.cases M.schema).charge d n w bs ≡ M.schema.charge d n w bs }
    ensures asks { (get : M → Option E) (s d n : ℕ) (w : _) (bs : List ℕ) → E.cases.all.cases.mine n ≡ true →
        (one_of get E.cases M.schema).asks s d n w bs ↔ E.cases.all.cases.asks d n w bs }
    ensures other_asks { (get : M → Option E) (s d n : ℕ) (w : _) (bs : List ℕ) → E.cases.all.cases.mine n ≡ false →
        (one_of get E.cases M.schema).asks s d n w bs ↔ M.schema.asks s d n w bs }
    ensures absent { (get : M → Option E) (v : _) → (E.cases.all.cases.meaning None ≡ None)
        × ((one_of get E.cases M.schema).records (None, v) ≡ M.schema.records v)
        × ((one_of get E.cases M.schema).slots (None, v) ≡ M.schema.slots v)
        × ((one_of get E.cases M.schema).levels (None, v) ≡ M.schema.levels v) }
    ensures records { (get : M → Option E) (x : E.Meaning) (v : _) → (one_of get E.cases M.schema).records (Some x, v)
        ≡ E.cases.all.cases.records x ++ M.schema.records v }
    ensures slots { (get : M → Option E) (x : E.Meaning) (v : _) → (one_of get E.cases M.schema).slots (Some x, v)
        ≡ E.cases.all.cases.slots x ++ M.schema.slots v }
    ensures levels { (get : M → Option E) (x : E.Meaning) (v : _) → (one_of get E.cases M.schema).levels (Some x, v)
        ≡ max (E.cases.all.cases.levels x) (M.schema.levels v) }
    ensures normal { (get : M → Option E) (v : _) → (one_of get E.cases M.schema).normal v ↔ (IfThere E.cases.all.cases.normal v.0
        × M.schema.normal v.1 × AllNumbers (λ n. not (E.cases.all.cases.mine n)) (M.schema.kept v.1)) }
    ensures declares { (get : M → Option E) (n : ℕ) →
        (one_of get E.cases M.schema).declares n ≡ (E.cases.all.cases.mine n || M.schema.declares n) }
    ensures sound { (get : M → Option E) → (one_of get E.cases M.schema).sound
        ≡ E.cases.all.cases.sound M.schema.declares M.schema.sound }
    ensures taken { (get : M → Option E) →
        TakeAlike (one_of get E.cases M.schema).Taken (CaseOrOthers get E.cases M.schema) }
    ensures differs_only { (get : M → Option E) (n : ℕ) (v u : _) → (one_of get E.cases M.schema).DiffersOnlyAt n v u
        ↔ Choice (E.cases.all.cases.mine n) (v.1 ≡ u.1) ((v.0 ≡ u.0) × M.schema.DiffersOnlyAt n v.1 u.1) }
    ensures same { (get : M → Option E) (a b : M) →
        (one_of get E.cases M.schema).Same a b ↔ ((get b ≡ get a) × M.schema.Same a b) }
    ensures same_but { (get : M → Option E) (a b : M) →
        (one_of get E.cases M.schema).SameBut a b ↔ ((get b ≡ get a) × M.schema.SameBut a b) }
    ensures exact { (get : M → Option E) →
        (one_of get E.cases M.schema).Exact ↔ (E.cases.all.cases.Exact × M.schema.Exact) }
    ensures kept { (get : M → Option E) (v : _) (rs : List (ℕ × FieldData)) →
        ((one_of get E.cases M.schema).keeps ≡ M.schema.keeps)
        × ((one_of get E.cases M.schema).kept v ≡ M.schema.kept v.1)
        × ((one_of get E.cases M.schema).adds v rs ≡ (v.0, M.schema.adds v.1 rs)) }
    ensures own_records { (get : M → Option E) (x : E.Meaning) (v : _) →
        ((one_of get E.cases M.schema).own (None, v) ≡ M.schema.own v)
        × ((one_of get E.cases M.schema).own (Some x, v) ≡ E.cases.all.cases.records x ++ M.schema.own v) }
{}

/// A field of a case that is refused leaves what stands, where its value would take the place of that, and where another case stands,
/// or none. A message of its own case stays there, and what is said of it is what a member says that may be absent.
pub fn refused_cases_stand<E: OneOf, C: Case>()
    ensures replaced { (k : ℕ) (at : Option E → Option (Or C.Value E.cases.V)) → C.merges ≡ false →
        RefusesCase (case k C.words E.cases.all).cases at k (λ old new. new ≡ old) }
    ensures other { (k : ℕ) (at : Option E → Option (Or C.Value E.cases.V)) →
        RefusesCase (case k C.words E.cases.all).cases at k (λ old new. this_of (at old) ≡ None → new ≡ old) }
    ensures own { (k : ℕ) (at : Option E → Option (Or C.Value E.cases.V)) →
        RefusesCase (case k C.words E.cases.all).cases at k (λ old new. (p : C.Value) → this_of (at old) ≡ Some p →
        (q : C.Value) × (this_of (at new) ≡ Some q)) }
{}
