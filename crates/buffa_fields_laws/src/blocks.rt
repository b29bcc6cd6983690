//! What a block of members is: its members, one after the other, as a message has them that names each by `field`.

ghost use Rattle.std.specs.Prelude.{◌≡◌, ◌↔◌, ℕ, List, Option, Result, false, true};
ghost use Rattle.std.specs.Option.{option_map};
ghost use Rattle.buffa_bytes.specs.declared.error.DecodeError.{DecodeError};
ghost use Rattle.buffa_wire.specs.BudgetLeft.{BudgetLeft};
ghost use Rattle.buffa_wire.specs.Records.{FieldData};
ghost use Rattle.buffa_fields_laws.specs.SameSchema.{SaysTheSame, as_with_unknowns};
ghost use Rattle.buffa_fields.specs.UnknownsOfMembers.{TookWithUnknowns};
ghost use Rattle.buffa_fields.specs.Blocks.{no_unknowns, block, block_of, both_blocks, one, one_case, one_with_unknowns};
ghost use Rattle.buffa_fields.specs.TwoPartsAreOne.{inward};
ghost use Rattle.buffa_fields.specs.Schema.{Took};
ghost use Rattle.buffa_fields.specs.MemberList.{field, field_with_unknowns};
ghost use Rattle.buffa_fields.specs.NamingOneOfs.{one_of};

use buffa_fields::members::keeps_unknowns::KeepsUnknowns;
use buffa_fields::messages::member_block::MemberBlock;
use buffa_fields::messages::message_fields::MessageFields;
use buffa_fields::oneofs::one_of::OneOf;

/// A block of one member is the member: a message means the same, and is read and written in the same way, whether it has the one or
/// the other. So it is of a oneof, and of a member that stands aside among members that may give records to keep.
pub fn blocks_of_one_are_their_member<F: MessageFields, N: KeepsUnknowns, E: OneOf>()
    ensures one { (k : ℕ) (get : F → N.Part) →
        SaysTheSame (λ v. v) (block (block_of get (one k N.shape)) F.schema) (field k get N.shape F.schema) }
    ensures no_unknowns { (k : ℕ) (get : F → N.Part) →
        SaysTheSame (λ v. v) (block (block_of get (no_unknowns (one k N.shape))) F.schema) (field k get N.shape F.schema) }
    ensures kept { (k : ℕ) (get : F → N.Part) → SaysTheSame (λ v. v)
        (block (block_of get (one_with_unknowns k N.shape N.unknowns)) F.schema) (field_with_unknowns k get N.shape N.unknowns F.schema) }
    ensures case { (get : F → Option E) →
        SaysTheSame (λ v. v) (block (block_of get (one_case E.cases)) F.schema) (one_of get E.cases F.schema) }
{}

/// A block of one member takes a field where the member does, and refuses it as the member does, whatever records are kept beside
/// it; among members that may give records to keep these are then as they were. So it is of a member that puts records aside, and
/// of a oneof.
pub fn blocks_of_one_take_so<N: KeepsUnknowns, E: OneOf>()
    ensures one { (k d : ℕ) (old new : N.Part) (kept keeps : List (ℕ × FieldData)) (n : ℕ) (w : _) (bs rest : List ℕ)
        (before after : BudgetLeft) (r : Result (Unit {0}) DecodeError) →
        (one k N.shape).part.Took d old kept n w bs before r new keeps after rest
        ↔ Took N.shape d old n w bs before r new after rest }
    ensures no_unknowns { (k d : ℕ) (old new : N.Part) (kept keeps : List (ℕ × FieldData)) (n : ℕ) (w : _) (bs rest : List ℕ)
        (before after : BudgetLeft) (r : Result (Unit {0}) DecodeError) →
        (no_unknowns (one k N.shape)).part.Took d old kept n w bs before r new keeps after rest
        ↔ (Took N.shape d old n w bs before r new after rest × (keeps ≡ kept)) }
    ensures kept { (k d : ℕ) (old new : N.Part) (kept keeps : List (ℕ × FieldData)) (n : ℕ) (w : _) (bs rest : List ℕ)
        (before after : BudgetLeft) (r : Result (Unit {0}) DecodeError) →
        (one_with_unknowns k N.shape N.unknowns).part.Took d old kept n w bs before r new keeps after rest
        ↔ TookWithUnknowns N.shape N.unknowns d old kept n w bs before r new keeps after rest }
    ensures case { (d : ℕ) (old new : Option E) (kept keeps : List (ℕ × FieldData)) (n : ℕ) (w : _) (bs rest : List ℕ)
        (before after : BudgetLeft) (r : Result (Unit {0}) DecodeError) →
        (one_case E.cases).part.Took d old kept n w bs before r new keeps after rest
        ↔ E.cases.all.cases.Took (λ o. option_map E.cases.view o) d old n w bs before r new after rest }
{}

/// Two blocks in one are the first, and then the second. So a block of members is these, one after the other.
pub fn blocks_are_their_members<
    F: MessageFields,
    B: MemberBlock<Message = F>,
    C: MemberBlock<Message = F>,
>()
    ensures { (same : C.members.keeps ≡ B.members.keeps) → SaysTheSame inward
        (block (block_of (λ m. (B.members.get m, C.members.get m))
        (both_blocks B.members.block (as_with_unknowns same C.members.block))) F.schema)
        (block B.members (block C.members F.schema)) }
{}

/// Two blocks in one: a value is normal, and its levels are exact, where this is so of each of the two; and a field may ask for memory
/// where the one may that has its number. That one takes the field, and the other is as it was, whether it is refused or not.
pub fn blocks_in_two_are_these<B: MemberBlock, C: MemberBlock>()
    ensures normal { (same : C.members.keeps ≡ B.members.keeps) (v : _) →
        (both_blocks B.members.block (as_with_unknowns same C.members.block)).part.normal v
        ↔ (B.members.block.part.normal v.0 × C.members.block.part.normal v.1) }
    ensures exact { (same : C.members.keeps ≡ B.members.keeps) →
        (both_blocks B.members.block (as_with_unknowns same C.members.block)).part.Exact
        ↔ (B.members.block.part.Exact × C.members.block.part.Exact) }
    ensures asks { (same : C.members.keeps ≡ B.members.keeps) (s d n : ℕ) (w : _) (bs : List ℕ) →
        B.members.block.part.mine n ≡ true →
        (both_blocks B.members.block (as_with_unknowns same C.members.block)).part.asks s d n w bs
        ↔ B.members.block.part.asks s d n w bs }
    ensures other_asks { (same : C.members.keeps ≡ B.members.keeps) (s d n : ℕ) (w : _) (bs : List ℕ) →
        B.members.block.part.mine n ≡ false →
        (both_blocks B.members.block (as_with_unknowns same C.members.block)).part.asks s d n w bs
        ↔ C.members.block.part.asks s d n w bs }
    ensures taken { (same : C.members.keeps ≡ B.members.keeps) (d : ℕ) (old new : _) (kept keeps : List (ℕ × FieldData)) (n : ℕ)
        (w : _) (bs rest : List ℕ) (before after : BudgetLeft) (r : Result (Unit {0}) DecodeError) →
        B.members.block.part.mine n ≡ true →
        (both_blocks B.members.block (as_with_unknowns same C.members.block)).part.Took d old kept n w bs before r new keeps after rest
        ↔ (B.members.block.part.Took d old.0 kept n w bs before r new.0 keeps after rest × (new.1 ≡ old.1)) }
    ensures other_taken { (same : C.members.keeps ≡ B.members.keeps) (d : ℕ) (old new : _) (kept keeps : List (ℕ × FieldData))
        (n : ℕ) (w : _) (bs rest : List ℕ) (before after : BudgetLeft) (r : Result (Unit {0}) DecodeError) →
        B.members.block.part.mine n ≡ false →
        (both_blocks B.members.block (as_with_unknowns same C.members.block)).part.Took d old kept n w bs before r new keeps after rest
        ↔ ((new.0 ≡ old.0) × C.members.block.part.Took d old.1 kept n w bs before r new.1 keeps after rest) }
{}
