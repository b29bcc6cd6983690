//! Lists of closed enums, whose undeclared numbers are put aside.

ghost use Rattle.std.specs.Prelude.{◌≡◌, ◌∷◌, ◌++◌, List, Err, OnErr, [], map};
ghost use Rattle.buffa_bytes.specs.declared.wire_type.WireType.TheVariants.{Varint};
ghost use Rattle.buffa_bytes.specs.Readings.{FullOnlyIf};
ghost use Rattle.buffa_bytes.specs.Values.{int32_of};
ghost use Rattle.buffa_wire.specs.Enums.{numbers};
ghost use Rattle.buffa_fields.specs.ClosedEnumLists.{PutsNumbers, RefusesKeptNumbers, TakesKeptNumbers, kept_numbers_cost, kept_numbers_taken, varints};
ghost use Rattle.buffa_fields.specs.facts.ClosedEnumListFacts.{kept_elements_back, kept_numbers_again, kept_numbers_behind, kept_numbers_stays, kept_packed_back};
ghost use Rattle.buffa_fields.specs.ClosedEnumFields.{IsUnknownNumber};
ghost use Rattle.buffa_fields.specs.Lists.{ElementsTakeMemory, check_list_wire};
ghost use Rattle.buffa_map.specs.Enums.{closed_writing};
ghost use Rattle.buffa_fields.specs.facts.LevelKindFacts.{element_numbers, exact_numbers, packed_numbers};
ghost use Rattle.buffa_fields.specs.facts.ValidRecordFacts.{element_valid, number_valid, packed_valid};

use crate::members::keeps_unknowns::KeepsUnknowns;
use crate::members::list::take_elements;
use crate::members::packed_field::PackedField;
use crate::members::repeated_field::RepeatedField;
use buffa_map::map_codec::{ClosedEnum, Uint64};
use buffa_wire::{
    Blank, Budget, DecodeContext, DecodeError, Enumeration, Tag, UnknownField, UnknownFieldData,
    UnknownFields,
};
use std::alloc::Global;

// The int32 of a varint: its low 32 bits.
fn int32_in(varint: u64) -> i32
    ensures { result ≡ int32_of varint }
{
    ((varint % (1 << 32)) as u32).cast_signed()
}

// Puts a declared number behind the values, and the record of any other behind these, for an unknown field.
fn sift_one<E: Enumeration>(
    values: &mut Vec<E>,
    unknowns: &mut UnknownFields,
    number: u32,
    varint: u64,
    budget: &mut Budget,
) -> Result<(), DecodeError>
    ensures puts { PutsNumbers (numbers E.of_number E.blank_is) (λ vs us. vs ++ us) number (varint ∷ [])
        (map E.meaning values.old.items, unknowns.old.records) budget.old result
        (map E.meaning values.new.items, unknowns.new.records) budget.new }
    ensures front { (more : List E) × (values.new.items ≡ values.old.items ++ more) }
{
    match E::from_i32(int32_in(varint)) {
        Some(declared) => Ok(values.push(declared)?),
        None => {
            budget.take_unknown()?;
            let payload = UnknownFieldData::Varint(varint);
            Ok(unknowns.push(UnknownField { number, payload })?)
        }
    }
}

// The same of varints, one after the other.
fn sift<E: Enumeration>(
    values: &mut Vec<E>,
    unknowns: &mut UnknownFields,
    number: u32,
    varints: &[u64],
    budget: &mut Budget,
) -> Result<(), DecodeError>
    ensures puts { PutsNumbers (numbers E.of_number E.blank_is) (λ vs us. vs ++ us) number varints.now
        (map E.meaning values.old.items, unknowns.old.records) budget.old result
        (map E.meaning values.new.items, unknowns.new.records) budget.new }
    ensures front { (more : List E) × (values.new.items ≡ values.old.items ++ more) }
{
    for varint in varints {
        sift_one::<E>(values, unknowns, number, *varint, budget)?;
    }
    Ok(())
}

// The same, where the records go behind those that are kept: all of them, or none where something is refused.
fn put_to_unknowns<E: Enumeration>(
    alloc: Global,
    values: &mut Vec<E>,
    kept: &mut UnknownFields,
    number: u32,
    varints: &[u64],
    budget: &mut Budget,
) -> Result<(), DecodeError>
    ensures puts { PutsNumbers (numbers E.of_number E.blank_is) (λ vs us. vs ++ us) number varints.now
        (map E.meaning values.old.items, kept.old.records) budget.old result
        (map E.meaning values.new.items, kept.new.records) budget.new }
    ensures front { (more : List E) × (values.new.items ≡ values.old.items ++ more) }
    ensures stays { OnErr result (kept.old.records ≡ kept.new.records) }
{
    let mut unknowns = UnknownFields::new(alloc);
    sift::<E>(values, &mut unknowns, number, varints, budget)?;
    kept.reserve(unknowns.len())?;
    kept.append(unknowns);
    Ok(())
}

// The same, where a refusal changes nothing.
fn put_numbers<E: Enumeration>(
    alloc: Global,
    values: &mut Vec<E>,
    kept: &mut UnknownFields,
    number: u32,
    varints: &[u64],
    budget: &mut Budget,
) -> Result<(), DecodeError>
    ensures puts { PutsNumbers (numbers E.of_number E.blank_is) (λ vs us. vs ++ us) number varints.now
        (map E.meaning values.old.items, kept.old.records) budget.old result
        (map E.meaning values.new.items, kept.new.records) budget.new }
    ensures list { OnErr result (values.old.items ≡ values.new.items) }
    ensures kept { OnErr result (kept.old.records ≡ kept.new.records) }
    ensures budget { OnErr result (budget.new ≡ budget.old) }
{
    let len = values.len();
    let mut own = Budget::new(budget.unknown_left()).with_element_memory(budget.memory_left());
    match put_to_unknowns::<E>(alloc, values, kept, number, varints, &mut own) {
        Ok(()) => {
            *budget = own;
            Ok(())
        }
        Err(error) => {
            values.truncate(len);
            Err(error)
        }
    }
}

// Merges the numbers of the field whose tag was read, and keeps those that are undeclared.
fn take_numbers<E: Enumeration>(
    alloc: Global,
    values: &mut Vec<E>,
    kept: &mut UnknownFields,
    tag: Tag,
    buf: &mut &[u8],
    ctx: DecodeContext<'_>,
) -> Result<(), DecodeError>
    ensures taken { TakesKeptNumbers (numbers E.of_number E.blank_is) tag ctx.entry ctx.exit values.old.items
        kept.old.records values.new.items kept.new.records buf.old buf.new result E.meaning }
    ensures full { FullOnlyIf result (ElementsTakeMemory varints ctx.entry.depth tag.number tag.wire_type buf.old.now) }
    ensures wire { (e : _) → check_list_wire tag.number Varint tag.wire_type ≡ Err e → (result ≡ Err e)
        × (map E.meaning values.old.items ≡ map E.meaning values.new.items) × (kept.old.records ≡ kept.new.records)
        × (buf.old.now ≡ buf.new.now) }
    ensures refused { (e : _) → result ≡ Err e → RefusesKeptNumbers (numbers E.of_number E.blank_is) ctx.entry.depth
        (map E.meaning values.old.items) tag.number tag.wire_type buf.old.now ctx.entry.budget.now e
        (map E.meaning values.new.items) }
    ensures stays { OnErr result (kept.old.records ≡ kept.new.records) }
{
    let DecodeContext { depth, budget } = ctx;
    let mut varints: Vec<u64> = Vec::new(alloc);
    take_elements::<Uint64>(alloc, &mut varints, tag, buf, depth)?;
    put_numbers::<E>(
        alloc,
        values,
        kept,
        tag.field_number(),
        varints.as_slice(),
        budget,
    )
}

impl<E: Enumeration> KeepsUnknowns for RepeatedField<ClosedEnum<E>> {
    ghost unknowns = { record {
      takes = kept_numbers_taken (numbers E.of_number E.blank_is);
      asks = λ left. ElementsTakeMemory varints;
      charge = kept_numbers_cost (numbers E.of_number E.blank_is);
      refuses = RefusesKeptNumbers (numbers E.of_number E.blank_is);
      AreUnknowns = IsUnknownNumber (numbers E.of_number E.blank_is);
      levels = λ _. 0;
      stays = kept_numbers_stays (numbers E.of_number E.blank_is);
      behind = kept_numbers_behind (numbers E.of_number E.blank_is);
    } };

    #[tactic(auto, unfolding(crate::specs::UnknownsOfMembers::TookWithUnknowns))]
    fn merge_with_unknowns(
        part: &mut Vec<E>,
        kept: &mut UnknownFields,
        alloc: Global,
        tag: Tag,
        buf: &mut &[u8],
        ctx: DecodeContext<'_>,
    ) -> Result<(), DecodeError> {
        take_numbers::<E>(alloc, part, kept, tag, buf, ctx)
    }

    ghost unknowns_back = { record {
      valid = λ k number v normal. element_valid _ _ (number_valid (numbers E.of_number E.blank_is)) k number v normal;
      back = λ k number d v fits normal low. kept_elements_back (numbers E.of_number E.blank_is) k number d v normal;
      again = kept_numbers_again (numbers E.of_number E.blank_is);
      exact = λ _. exact_numbers _ _ (element_numbers _) (λ v i. 0) (λ x i. 0);
    } };
}

impl<E: Enumeration> KeepsUnknowns for PackedField<ClosedEnum<E>> {
    ghost unknowns = { record {
      takes = kept_numbers_taken (numbers E.of_number E.blank_is);
      asks = λ left. ElementsTakeMemory varints;
      charge = kept_numbers_cost (numbers E.of_number E.blank_is);
      refuses = RefusesKeptNumbers (numbers E.of_number E.blank_is);
      AreUnknowns = IsUnknownNumber (numbers E.of_number E.blank_is);
      levels = λ _. 0;
      stays = kept_numbers_stays (numbers E.of_number E.blank_is);
      behind = kept_numbers_behind (numbers E.of_number E.blank_is);
    } };

    #[tactic(auto, unfolding(crate::specs::UnknownsOfMembers::TookWithUnknowns))]
    fn merge_with_unknowns(
        part: &mut Vec<E>,
        kept: &mut UnknownFields,
        alloc: Global,
        tag: Tag,
        buf: &mut &[u8],
        ctx: DecodeContext<'_>,
    ) -> Result<(), DecodeError> {
        take_numbers::<E>(alloc, part, kept, tag, buf, ctx)
    }

    ghost unknowns_back = { record {
      valid = λ k number v normal. packed_valid k number closed_writing.encoding v;
      back = λ k number d v fits normal low. kept_packed_back (numbers E.of_number E.blank_is) k number d v fits normal;
      again = kept_numbers_again (numbers E.of_number E.blank_is);
      exact = λ _. exact_numbers _ _ (packed_numbers _) (λ v i. 0) (λ x i. 0);
    } };
}
