//! Optional members of closed enums, whose undeclared numbers are put aside.

ghost use Rattle.std.specs.Prelude.{◌≡◌, Err, OnErr};
ghost use Rattle.std.specs.Option.{option_map};
ghost use Rattle.buffa_bytes.specs.declared.wire_type.WireType.TheVariants.{Varint};
ghost use Rattle.buffa_bytes.specs.Readings.{check_wire, FullOnlyIf};
ghost use Rattle.buffa_wire.specs.Enums.{numbers};
ghost use Rattle.buffa_fields.specs.ClosedEnumFields.{IsUnknownNumber, KeptNumberTakesMemory, RefusesKeptNumber, TakesKeptNumber, kept_number_cost, kept_number_taken};
ghost use Rattle.buffa_fields.specs.facts.ClosedEnumFieldFacts.{kept_number_again, kept_number_back, kept_number_behind, kept_number_stays};
ghost use Rattle.buffa_fields.specs.MemberRecords.{explicit_records};
ghost use Rattle.buffa_fields.specs.facts.LevelKindFacts.{exact_numbers, explicit_numbers};
ghost use Rattle.buffa_fields.specs.facts.ValidRecordFacts.{number_valid, explicit_valid};

use crate::members::explicit_field::ExplicitField;
use crate::members::keeps_unknowns::KeepsUnknowns;
use crate::messages::unknown;
use buffa_map::map_codec::ClosedEnum;
use buffa_wire::types::decode_int32;
use buffa_wire::{
    Blank, DecodeContext, DecodeError, Enumeration, Tag, UnknownFields, WireType, check_wire_type,
};
use std::alloc::Global;

// Merges the number of the field whose tag was read, or keeps the field where it is undeclared.
fn take_number<E: Enumeration>(
    alloc: Global,
    part: &mut Option<E>,
    kept: &mut UnknownFields,
    tag: Tag,
    buf: &mut &[u8],
    ctx: DecodeContext<'_>,
) -> Result<(), DecodeError>
    ensures taken { TakesKeptNumber (numbers E.of_number E.blank_is) tag ctx.entry ctx.exit part.old kept.old.records part.new
        kept.new.records buf.old buf.new result E.meaning }
    ensures full { FullOnlyIf result (KeptNumberTakesMemory (numbers E.of_number E.blank_is) ctx.entry.budget.now.unknown
        ctx.entry.depth tag.number tag.wire_type buf.old.now) }
    ensures wire { (e : _) → check_wire tag.number Varint tag.wire_type ≡ Err e → (result ≡ Err e)
        × (option_map E.meaning part.old ≡ option_map E.meaning part.new) × (kept.old.records ≡ kept.new.records)
        × (buf.old.now ≡ buf.new.now) }
    ensures refused { (e : _) → result ≡ Err e → RefusesKeptNumber (numbers E.of_number E.blank_is) ctx.entry.depth
        (option_map E.meaning part.old) tag.number tag.wire_type buf.old.now ctx.entry.budget.now e
        (option_map E.meaning part.new) }
    ensures stays { OnErr result (kept.old.records ≡ kept.new.records) }
{
    check_wire_type(tag, WireType::Varint)?;
    let field = *buf;
    let number = decode_int32(buf)?;
    if let Some(declared) = E::from_i32(number) {
        *part = Some(declared);
        return Ok(());
    }
    *buf = field;
    unknown::keep(alloc, kept, tag, buf, ctx)
}

impl<E: Enumeration> KeepsUnknowns for ExplicitField<ClosedEnum<E>> {
    ghost unknowns = { record {
      takes = kept_number_taken (numbers E.of_number E.blank_is);
      asks = KeptNumberTakesMemory (numbers E.of_number E.blank_is);
      charge = kept_number_cost (numbers E.of_number E.blank_is);
      refuses = RefusesKeptNumber (numbers E.of_number E.blank_is);
      AreUnknowns = IsUnknownNumber (numbers E.of_number E.blank_is);
      levels = λ _. 0;
      stays = kept_number_stays (numbers E.of_number E.blank_is);
      behind = kept_number_behind (numbers E.of_number E.blank_is);
    } };

    #[tactic(auto, unfolding(crate::specs::UnknownsOfMembers::TookWithUnknowns))]
    fn merge_with_unknowns(
        part: &mut Option<E>,
        kept: &mut UnknownFields,
        alloc: Global,
        tag: Tag,
        buf: &mut &[u8],
        ctx: DecodeContext<'_>,
    ) -> Result<(), DecodeError> {
        take_number::<E>(alloc, part, kept, tag, buf, ctx)
    }

    ghost unknowns_back = { record {
      valid = λ k number v normal. explicit_valid _ _ (number_valid (numbers E.of_number E.blank_is)) k number v normal;
      back = λ k number d v fits normal low. unfold explicit_records in (kept_number_back (numbers E.of_number E.blank_is) k number d v normal);
      again = kept_number_again (numbers E.of_number E.blank_is);
      exact = λ _. exact_numbers _ _ (explicit_numbers _) (λ v i. 0) (λ x i. 0);
    } };
}
