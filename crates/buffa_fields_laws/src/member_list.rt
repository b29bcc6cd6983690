//! What the members are of a message that holds itself: what each word says by which an author names them.

ghost use Rattle.std.specs.Prelude.{◌≡◌, ◌↔◌, ℕ, List, Option, Result};
ghost use Rattle.std.specs.Option.{option_map};
ghost use Rattle.buffa_bytes.specs.declared.error.DecodeError.{DecodeError};
ghost use Rattle.buffa_bytes.specs.declared.wire_type.WireType.{WireType};
ghost use Rattle.buffa_wire.specs.BudgetLeft.{BudgetLeft};
ghost use Rattle.buffa_wire.specs.Records.{FieldData};
ghost use Rattle.buffa_fields.specs.UnknownsOfMembers.{ReadsBackWithUnknowns};
ghost use Rattle.buffa_fields_laws.specs.SameSchema.{SaysAlike, SaysTheSame};
ghost use Rattle.buffa_recursive.specs.MessageTree.{MessageTree, TreeList, Maybe, Rest, InnerMembers, children_list, head_many, head_one, message_tree, tree_of, many, no_inner, of_list, of_option, one, option_of, rest_of, tail_inner};
ghost use Rattle.buffa_fields.specs.Schema.{ReadsBackTo};
ghost use Rattle.buffa_recursive.specs.OneOfMeaning.{TookByMeaning};
ghost use Rattle.buffa_fields.specs.MemberList.{field, field_with_unknowns, keep_unknown, skip_unknown};
ghost use Rattle.buffa_fields.specs.NamingOneOfs.{one_of};
ghost use Rattle.buffa_fields_laws.specs.OneOfClauses.{CaseByMeaningOrOthers};
ghost use Rattle.buffa_fields.specs.OneOfParts.{case_means};
ghost use Rattle.buffa_recursive.specs.MemberList.{MemberList, keeps_unknown, recursive_message, list_inside, map_inside, member, member_with_unknowns, member_one_of, one_inside, skips_unknown};
ghost use Rattle.buffa_recursive.specs.MapTree.{pairs_by_semantics};
ghost use Rattle.buffa_fields.specs.TakenClauses.{UnknownsByMeaningOrOthers, MemberByMeaningOrOthers};
ghost use Rattle.buffa_recursive.specs.InnerMessages.{Semantics, as_other, child_shape, list_shape};

use buffa_fields::members::keeps_unknowns::KeepsUnknowns;
use buffa_fields::oneofs::one_of::OneOf;
use buffa_recursive::map_keys::Keyed;

/// Some members of a message that holds itself, for contracts. A message has `Own` besides the messages of its own type, and these
/// members have `These` of it.
pub trait OpenMembers {
    /// What a message has besides the messages inside.
    type Own;

    /// What these members have of that.
    type These;

    /// The members.
    ghost open: { MemberList Self.Own Self.These };

    /// What is told of the messages inside.
    ghost semantics: { Semantics (MessageTree Self.Own) };
}

/// A member of another type, in front of others, is that member of a list of members, and the others stand behind it; but where these
/// take a field, it is said that the member means what it did, and not that it is the same. So it is with one that puts records aside,
/// and with a oneof, whose case took a field where it took it of some values that mean this, before and after.
#[tactic(auto, unfolding(buffa_fields::specs::Schema::AsksAsSaid, buffa_fields::specs::Schema::RefusesAsSaid, buffa_fields::specs::Schema::TakesAsSaid, buffa_fields::specs::Schema::TellsWrongType, buffa_fields::specs::UnknownsOfMembers::TookWithUnknowns))]
pub fn members_of_other_types_are_named_so<F, T: OpenMembers, N: KeepsUnknowns, E: OneOf>()
    ensures member { (k : ℕ) (get : F → N.Part) (others : F → Rest T.Own T.These) → SaysAlike (λ v. v)
        ((member k N.shape T.open).schema (λ m. ((N.shape.meaning (get m), (others m).0), (others m).1)) T.semantics)
        (field k get N.shape (T.open.schema others T.semantics))
        (MemberByMeaningOrOthers k get N.shape (T.open.schema others T.semantics)) }
    ensures member_with_unknowns { (k : ℕ) (get : F → N.Part) (others : F → Rest T.Own T.These) → SaysAlike (λ v. v)
        ((member_with_unknowns k N.shape N.unknowns T.open).schema (λ m. ((N.shape.meaning (get m), (others m).0), (others m).1)) T.semantics)
        (field_with_unknowns k get N.shape N.unknowns (T.open.schema others T.semantics))
        (UnknownsByMeaningOrOthers k get N.shape N.unknowns (T.open.schema others T.semantics)) }
    ensures member_one_of { (get : F → Option E) (others : F → Rest T.Own T.These) → SaysAlike (λ v. v)
        ((member_one_of E.cases T.open).schema (λ m. ((case_means E.cases (get m), (others m).0), (others m).1)) T.semantics)
        (one_of get E.cases (T.open.schema others T.semantics))
        (CaseByMeaningOrOthers get E.cases (T.open.schema others T.semantics)) }
    ensures values { (k : ℕ) (v : N.Meaning) (r : Rest T.Own T.These) (y : _) →
        ((member k N.shape T.open).out ((v, r.0), r.1) ≡ (v, T.open.out r))
        × ((member k N.shape T.open).into (v, y) ≡ ((v, (T.open.into y).0), (T.open.into y).1)) }
    ensures owes { (k : ℕ) → ((member k N.shape T.open).Owes ↔ (ReadsBackTo N.shape × T.open.Owes))
        × ((member_with_unknowns k N.shape N.unknowns T.open).Owes ↔ (ReadsBackWithUnknowns N.shape N.unknowns × T.open.Owes))
        × ((member_one_of E.cases T.open).Owes ↔ (E.cases.all.cases.Owes × T.open.Owes)) }
    ensures exact { (k : ℕ) → ((member k N.shape T.open).Exact ↔ (N.shape.Exact × T.open.Exact))
        × ((member_with_unknowns k N.shape N.unknowns T.open).Exact ↔ (N.shape.Exact × T.open.Exact))
        × ((member_one_of E.cases T.open).Exact ↔ (E.cases.all.cases.Exact × T.open.Exact)) }
    ensures took { (d n : ℕ) (old new : _) (w : WireType) (bs : List ℕ) (before : BudgetLeft) (r : Result (Unit {0}) DecodeError)
        (after : BudgetLeft) (rest : List ℕ) → TookByMeaning E.cases d old n w bs before r new after rest
        ↔ ((o : Option E) × (p : Option E) × (case_means E.cases o ≡ old) × (case_means E.cases p ≡ new)
        × E.cases.all.cases.Took (λ x. option_map E.cases.view x) d o n w bs before r p after rest) }
{}

/// A member of the message's own type is a member of a list of members, by what is told of the messages inside: a list of them, one
/// that may be absent, or a map by their keys. It takes and refuses fields as that member does. The messages inside it are the first
/// slot, and the others stand behind it.
pub fn members_of_the_same_type_are_named_so<F, T: OpenMembers, K: Keyed>()
    ensures list { (k : ℕ) (g : F → Rest T.Own T.These) → SaysTheSame (λ v. v) ((list_inside k T.open).schema g T.semantics)
        (field k (λ m. head_many (g m).1) (as_other of_list children_list (list_shape T.semantics))
        (T.open.schema (λ m. ((g m).0, tail_inner (g m).1)) T.semantics)) }
    ensures one { (k : ℕ) (g : F → Rest T.Own T.These) → SaysTheSame (λ v. v) ((one_inside k T.open).schema g T.semantics)
        (field k (λ m. head_one (g m).1) (as_other of_option option_of (child_shape T.semantics))
        (T.open.schema (λ m. ((g m).0, tail_inner (g m).1)) T.semantics)) }
    ensures map { (k : ℕ) (g : F → Rest T.Own (List K.Key × T.These)) → SaysTheSame (λ v. v)
        ((map_inside k K.keys T.open).schema g T.semantics)
        (field k (λ m. ((g m).0.0, head_many (g m).1)) (pairs_by_semantics K.keys T.semantics)
        (T.open.schema (λ m. ((g m).0.1, tail_inner (g m).1)) T.semantics)) }
    ensures values { (k : ℕ) (own : T.These) (xs : TreeList T.Own) (x : Maybe T.Own) (keys : List K.Key) (ss : InnerMembers T.Own) →
        ((list_inside k T.open).out (own, many xs ss) ≡ (xs, T.open.out (own, ss)))
        × ((one_inside k T.open).out (own, one x ss) ≡ (x, T.open.out (own, ss)))
        × ((map_inside k K.keys T.open).out ((keys, own), many xs ss) ≡ ((keys, xs), T.open.out (own, ss))) }
    ensures made { (k : ℕ) (xs : TreeList T.Own) (x : Maybe T.Own) (keys : List K.Key) (y : _) →
        ((list_inside k T.open).into (xs, y) ≡ ((T.open.into y).0, many xs (T.open.into y).1))
        × ((one_inside k T.open).into (x, y) ≡ ((T.open.into y).0, one x (T.open.into y).1))
        × ((map_inside k K.keys T.open).into ((keys, xs), y) ≡ ((keys, (T.open.into y).0), many xs (T.open.into y).1)) }
    ensures owes { (k : ℕ) → ((list_inside k T.open).Owes ↔ T.open.Owes) × ((one_inside k T.open).Owes ↔ T.open.Owes)
        × ((list_inside k T.open).Exact ↔ T.open.Exact) × ((one_inside k T.open).Exact ↔ T.open.Exact)
        × ((map_inside k K.keys T.open).Exact ↔ T.open.Exact) }
{}

/// Behind the members, the fields that aren't declared are kept, or passed over. The whole is the message: its members, by all that it
/// has.
pub fn messages_are_named_so<F, W, T: OpenMembers<Own = W, These = W>>()
    ensures keeps { (g : F → Rest W (List (ℕ × FieldData))) → SaysTheSame (λ v. v) ((keeps_unknown {W = W}).schema g T.semantics) (keep_unknown (λ m. (g m).0)) }
    ensures kept { (rs : List (ℕ × FieldData)) (ss : InnerMembers W) → ((keeps_unknown {W = W}).out (rs, ss) ≡ rs)
        × ((keeps_unknown {W = W}).into rs ≡ (rs, no_inner)) × (keeps_unknown {W = W}).Owes × (keeps_unknown {W = W}).Exact }
    ensures skips { (g : F → Rest W (Unit {0})) → SaysTheSame (λ v. v) ((skips_unknown {W = W}).schema g T.semantics) skip_unknown }
    ensures passed { (ss : InnerMembers W) → ((skips_unknown {W = W}).into tt ≡ (tt, no_inner)) × (skips_unknown {W = W}).Owes × (skips_unknown {W = W}).Exact }
    ensures whole { SaysTheSame (λ v. v) ((recursive_message T.open).schema T.semantics) (T.open.schema rest_of T.semantics) }
    ensures values { (own : W) (ss : InnerMembers W) (y : _) → ((recursive_message T.open).out (message_tree own ss) ≡ T.open.out (own, ss))
        × ((recursive_message T.open).into y ≡ message_tree (T.open.into y).0 (T.open.into y).1) }
    ensures owes { ((recursive_message T.open).Owes ↔ T.open.Owes) × ((recursive_message T.open).Exact ↔ T.open.Exact) }
{}
