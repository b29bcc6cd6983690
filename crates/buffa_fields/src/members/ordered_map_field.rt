//! Map fields as members that are written in the order of their keys.

ghost use Rattle.std.specs.Prelude.{◌+◌, [], not};
ghost use Rattle.std.specs.BTreeMap.{insert_entry};
ghost use Rattle.std.proofs.Common.{sym, ◌∙◌};
ghost use Rattle.buffa_bytes.specs.Readings.{check_wire, FullOnlyIf};
ghost use Rattle.buffa_bytes.specs.declared.wire_type.WireType.TheVariants.{LengthDelimited};
ghost use Rattle.buffa_map.proofs.BackLemmas.{implicit_back};
ghost use Rattle.buffa_map.specs.Encoding.{AllHold};
ghost use Rattle.buffa_map.specs.Pairs.{means};
ghost use Rattle.buffa_fields.specs.Calls.{ChecksWire};
ghost use Rattle.buffa_fields.specs.ListAndMapCalls.{TakesOrderedEntry};
ghost use Rattle.buffa_fields.specs.MapFields.{PairTakesMemory, pair_cost, pair_taken, entry_records};
ghost use Rattle.buffa_fields.specs.facts.MapFacts.{map_back, map_stays};
ghost use Rattle.buffa_fields.specs.facts.OrderedFacts.{ascending_put};
ghost use Rattle.buffa_fields.specs.OrderedMaps.{KeysAscend};
ghost use Rattle.buffa_fields.specs.Refusals.{RefusesPair, RefusesPairIn};
ghost use Rattle.buffa_fields.specs.facts.LevelKindFacts.{exact_flat, entry_numbers};
ghost use Rattle.buffa_fields.specs.facts.ValidRecordFacts.{entry_valid};

use crate::meaning::And;
use crate::members::map::{map_len, write_map};
use crate::members::member::Member;
use crate::members::ordered_key::OrderedKey;
use buffa_map::laws::limits_are_reported_where_charges_are_not_left;
use buffa_map::map_codec::{MapCodec, MapValueDecode, merge_entry};
use buffa_wire::{
    Blank, DecodeContext, DecodeError, EncodeError, EncodeSink, SizeCache, Tag, WireType,
    check_wire_type,
};
use std::alloc::Global;
use std::collections::BTreeMap;
use std::marker::PhantomData;

// Merges the entry of the field whose tag was read. `map.len()` is called before and after only for its contract, by which
// the checker knows that the keys ascend.
#[tactic(auto, unfolding(crate::specs::EntriesTaken::entry_taken, crate::specs::EntriesTaken::entry_cost))]
pub(crate) fn take_ordered<KC: MapCodec, VC: MapValueDecode>(
    alloc: Global,
    map: &mut BTreeMap<KC::Value, VC::Value>,
    tag: Tag,
    buf: &mut &[u8],
    ctx: DecodeContext<'_>,
) -> Result<(), DecodeError>
where
    KC::Value: OrderedKey,
    ensures taken { TakesOrderedEntry tag ctx.entry ctx.exit map.old map.new buf.old buf.new result KC.Value.meaning
        VC.Value.meaning KC.reading VC.reading KC.Value.order (KC.COST + VC.COST) }
    ensures full { FullOnlyIf result (PairTakesMemory KC.reading VC.reading ctx.entry.depth tag.number tag.wire_type
        buf.old.now) }
    ensures wire { ChecksWire tag WireType.LengthDelimited result
        (means KC.Value.meaning VC.Value.meaning map.old.entries)
        (means KC.Value.meaning VC.Value.meaning map.new.entries) buf.old buf.new }
    ensures refused { RefusesPairIn tag ctx.entry.depth ctx.entry.budget.now map.old.entries map.new.entries buf.old result
        KC.Value.meaning VC.Value.meaning KC.reading VC.reading (KC.COST + VC.COST) }
{
    limits_are_reported_where_charges_are_not_left::<KC, VC>();
    check_wire_type(tag, WireType::LengthDelimited)?;
    let _old = map.len();
    let answer = merge_entry::<KC, VC, BTreeMap<KC::Value, VC::Value>, &[u8]>(alloc, map, buf, ctx);
    let _new = map.len();
    answer?;
    Ok(())
}

/// A map field of scalars, strings, bytes or enums, held in a `BTreeMap`: it is written in the order of its keys.
///
/// ```ignore
/// visitor.visit::<OrderedMapField<Str, Int32>>(1, &self.balances);
/// ```
pub struct OrderedMapField<KC, VC> {
    key: PhantomData<KC>,
    value: PhantomData<VC>,
}

impl<KC: MapCodec, VC: MapCodec> Member for OrderedMapField<KC, VC>
where
    KC::Value: OrderedKey,
{
    type Part = BTreeMap<KC::Value, VC::Value>;

    type Meaning = [And<<KC::Value as Blank>::Meaning, <VC::Value as Blank>::Meaning>; 0];

    ghost shape = { record {
      whole = not VC.MAY_RETURN_UNKNOWN;
      meaning = λ m. means KC.Value.meaning VC.Value.meaning m.entries;
      blank = [];
      takes = pair_taken KC.reading VC.reading (insert_entry KC.Value.order);
      checks = λ n w. check_wire n LengthDelimited w;
      asks = PairTakesMemory KC.reading VC.reading;
      refuses = RefusesPair KC.reading VC.reading (KC.COST + VC.COST);
      charge = pair_cost KC.reading VC.reading (KC.COST + VC.COST);
      records = entry_records KC.writing VC.writing;
      slots = λ _. [];
      levels = λ _. 0;
      Exact = Unit {0};
      normal = λ l. AllHold (λ k. KC.fits k × KC.normal k) (λ v. VC.fits v × VC.normal v) l
          × KeysAscend KC.Value.order l;
      stays = map_stays KC.reading VC.reading (KC.COST + VC.COST);
    } };

    #[tactic(auto, using(crate::specs::facts::SchemaFacts::sized_free), unfolding(crate::specs::MapFields::entry_records))]
    fn len(
        number: u32,
        part: &BTreeMap<KC::Value, VC::Value>,
        _cache: &mut SizeCache,
    ) -> Result<u32, EncodeError> {
        Ok(map_len::<KC, VC, BTreeMap<KC::Value, VC::Value>>(number, part))
    }

    #[tactic(auto, using(crate::specs::facts::MapFacts::map_alone), unfolding(crate::specs::MapFields::entry_records))]
    fn write_to<S: EncodeSink>(
        number: u32,
        part: &BTreeMap<KC::Value, VC::Value>,
        _cache: &mut SizeCache,
        sink: &mut S,
    ) -> Result<(), EncodeError> {
        write_map::<KC, VC, BTreeMap<KC::Value, VC::Value>, S>(number, part, sink)
    }

    #[tactic(auto, unfolding(crate::specs::Schema::AsksAsSaid, crate::specs::Schema::RefusesAsSaid, crate::specs::Schema::TakesAsSaid, crate::specs::Schema::TellsWrongType))]
    fn merge(
        part: &mut BTreeMap<KC::Value, VC::Value>,
        alloc: Global,
        tag: Tag,
        buf: &mut &[u8],
        ctx: DecodeContext<'_>,
    ) -> Result<(), DecodeError> {
        take_ordered::<KC, VC>(alloc, part, tag, buf, ctx)
    }

    ghost back = { record {
      valid = λ n number l normal. entry_valid n number KC.writing VC.writing l;
      back = λ n number d l fits normal low. unfold entry_records in (map_back KC.reading VC.reading KC.writing VC.writing
          (KC.MapCodec.written_wire ∙ sym KC.MapValueDecode.wire) (VC.MapCodec.written_wire ∙ sym VC.MapValueDecode.wire)
          (insert_entry KC.Value.order) (λ k. KC.fits k × KC.normal k) (λ v. VC.fits v × VC.normal v) d
          (λ v h. implicit_back KC.reading KC.writing d v KC.MapCodec.plain (KC.MapCodec.reads_back d KC.reading.blank v h.0 h.1))
          (λ v h. implicit_back VC.reading VC.writing d v VC.MapCodec.plain (VC.MapCodec.reads_back d VC.reading.blank v h.0 h.1))
          n number l fits normal.0 (ascending_put KC.Value.OrderedKey.total l normal.1));
      exact = λ _. exact_flat _ (entry_numbers KC.writing VC.writing) (λ v i. 0);
    } };
}
