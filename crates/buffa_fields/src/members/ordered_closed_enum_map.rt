//! Map fields in the order of their keys, whose undeclared entries are put aside.

ghost use Rattle.std.specs.Prelude.{◌≡◌, ◌+◌, Err, [], OnErr};
ghost use Rattle.std.specs.BTreeMap.{insert_entry};
ghost use Rattle.std.proofs.Common.{sym, ◌∙◌};
ghost use Rattle.buffa_bytes.specs.declared.wire_type.WireType.TheVariants.{LengthDelimited};
ghost use Rattle.buffa_bytes.specs.Readings.{check_wire, FullOnlyIf};
ghost use Rattle.buffa_map.proofs.BackLemmas.{implicit_back};
ghost use Rattle.buffa_map.specs.Pairs.{means};
ghost use Rattle.buffa_fields.specs.ClosedEnumMaps.{IsUnknownEntry, KeptPairTakesMemory, RefusesKeptPair, TakesKeptEntry, unknown_entry_levels, kept_pair_cost, kept_pair_taken};
ghost use Rattle.buffa_fields.specs.facts.ClosedEnumMapFacts.{kept_map_back, kept_pair_again, kept_pair_behind, kept_pair_stays};
ghost use Rattle.buffa_fields.specs.MapFields.{entry_records};
ghost use Rattle.buffa_fields.specs.facts.OrderedFacts.{ascending_put};
ghost use Rattle.buffa_fields.specs.facts.LevelKindFacts.{exact_flat_unknowns, kept_pair_low, entry_numbers};
ghost use Rattle.buffa_fields.specs.facts.ValidRecordFacts.{entry_valid};

use crate::members::keeps_unknowns::KeepsUnknowns;
use crate::members::ordered_key::OrderedKey;
use crate::members::ordered_map_field::OrderedMapField;
use buffa_map::laws::limits_are_reported_where_charges_are_not_left;
use buffa_map::map_codec::{MapCodec, MapValueDecode, merge_entry_with_unknowns};
use buffa_wire::{
    Blank, Budget, DecodeContext, DecodeError, Tag, UnknownFields, WireType, check_wire_type,
};
use std::alloc::Global;
use std::collections::BTreeMap;

// Merges the entry of the field whose tag was read, or puts it aside where its value is undeclared. A refused one takes no
// unknown field. `map.len()` is called before and after only for its contract, by which the checker knows that the keys
// ascend.
#[tactic(auto, unfolding(crate::specs::EntriesTaken::entry_taken, crate::specs::EntriesTaken::entry_cost))]
fn take_kept_ordered<KC: MapCodec, VC: MapCodec>(
    alloc: Global,
    map: &mut BTreeMap<KC::Value, VC::Value>,
    kept: &mut UnknownFields,
    tag: Tag,
    buf: &mut &[u8],
    ctx: DecodeContext<'_>,
) -> Result<(), DecodeError>
where
    KC::Value: OrderedKey,
    ensures taken { TakesKeptEntry tag ctx.entry ctx.exit map.old.entries kept.old.records map.new.entries kept.new.records
        buf.old buf.new result KC.Value.meaning VC.Value.meaning KC.reading VC.reading (insert_entry KC.Value.order) (KC.COST + VC.COST) }
    ensures full { FullOnlyIf result (KeptPairTakesMemory KC.reading VC.reading (KC.COST + VC.COST)
        ctx.entry.budget.now.unknown ctx.entry.depth tag.number tag.wire_type buf.old.now) }
    ensures wire { (e : _) → check_wire tag.number LengthDelimited tag.wire_type ≡ Err e → (result ≡ Err e)
        × (means KC.Value.meaning VC.Value.meaning map.old.entries ≡ means KC.Value.meaning VC.Value.meaning map.new.entries)
        × (kept.old.records ≡ kept.new.records) × (buf.old.now ≡ buf.new.now) }
    ensures refused { (e : _) → result ≡ Err e → RefusesKeptPair KC.reading VC.reading (KC.COST + VC.COST) ctx.entry.depth
        (means KC.Value.meaning VC.Value.meaning map.old.entries) tag.number tag.wire_type buf.old.now ctx.entry.budget.now e
        (means KC.Value.meaning VC.Value.meaning map.new.entries) }
    ensures stays { OnErr result (kept.old.records ≡ kept.new.records) }
{
    limits_are_reported_where_charges_are_not_left::<KC, VC>();
    check_wire_type(tag, WireType::LengthDelimited)?;
    let DecodeContext { depth, budget } = ctx;
    let unknown = budget.unknown_left();
    let lent = DecodeContext {
        depth,
        budget: &mut *budget,
    };
    let _old = map.len();
    let answer = merge_entry_with_unknowns::<KC, VC, BTreeMap<KC::Value, VC::Value>, &[u8]>(
        alloc,
        map,
        buf,
        lent,
        tag.field_number(),
        Some(kept),
    );
    let _new = map.len();
    if let Err(error) = answer {
        *budget = Budget::new(unknown).with_element_memory(budget.memory_left());
        return Err(error);
    }
    Ok(())
}

impl<KC: MapCodec, VC: MapCodec> KeepsUnknowns for OrderedMapField<KC, VC>
where
    KC::Value: OrderedKey,
{
    ghost unknowns = { record {
      takes = kept_pair_taken KC.reading VC.reading (insert_entry KC.Value.order);
      asks = KeptPairTakesMemory KC.reading VC.reading (KC.COST + VC.COST);
      charge = kept_pair_cost KC.reading VC.reading (KC.COST + VC.COST);
      refuses = RefusesKeptPair KC.reading VC.reading (KC.COST + VC.COST);
      AreUnknowns = IsUnknownEntry KC.reading VC.reading;
      levels = unknown_entry_levels KC.reading VC.reading;
      stays = kept_pair_stays KC.reading VC.reading (KC.COST + VC.COST);
      behind = kept_pair_behind KC.reading VC.reading (insert_entry KC.Value.order);
    } };

    #[tactic(auto, unfolding(crate::specs::UnknownsOfMembers::TookWithUnknowns))]
    fn merge_with_unknowns(
        part: &mut BTreeMap<KC::Value, VC::Value>,
        kept: &mut UnknownFields,
        alloc: Global,
        tag: Tag,
        buf: &mut &[u8],
        ctx: DecodeContext<'_>,
    ) -> Result<(), DecodeError> {
        take_kept_ordered::<KC, VC>(alloc, part, kept, tag, buf, ctx)
    }

    ghost unknowns_back = { record {
      valid = λ n number l normal. entry_valid n number KC.writing VC.writing l;
      back = λ n number d l fits normal low. unfold entry_records in (kept_map_back KC.reading VC.reading KC.writing VC.writing
          (KC.MapCodec.written_wire ∙ sym KC.MapValueDecode.wire) (VC.MapCodec.written_wire ∙ sym VC.MapValueDecode.wire)
          (insert_entry KC.Value.order) (λ k. KC.fits k × KC.normal k) (λ v. VC.fits v × VC.normal v) d
          (λ v h. implicit_back KC.reading KC.writing d v KC.MapCodec.plain (KC.MapCodec.reads_back d KC.reading.blank v h.0 h.1))
          (λ v h. implicit_back VC.reading VC.writing d v VC.MapCodec.plain (VC.MapCodec.reads_back d VC.reading.blank v h.0 h.1))
          n number l fits normal.0 (ascending_put KC.Value.OrderedKey.total l normal.1));
      again = λ k d v x p unknowns low payload. kept_pair_again KC.reading VC.reading (insert_entry KC.Value.order) k d v x p unknowns low payload;
      exact = λ _. exact_flat_unknowns _ _ (entry_numbers KC.writing VC.writing) (λ v i. 0)
          (kept_pair_low KC.reading VC.reading (insert_entry KC.Value.order));
    } };
}
