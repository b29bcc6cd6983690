//! Map fields as members.

ghost use Rattle.std.specs.Prelude.{◌+◌, [], not};
ghost use Rattle.std.proofs.Common.{sym, ◌∙◌};
ghost use Rattle.std.specs.List.{IsDistinct};
ghost use Rattle.std.specs.Map.{keys_of};
ghost use Rattle.buffa_bytes.specs.declared.wire_type.WireType.TheVariants.{LengthDelimited};
ghost use Rattle.buffa_bytes.specs.Readings.{check_wire};
ghost use Rattle.buffa_map.proofs.BackLemmas.{implicit_back};
ghost use Rattle.buffa_map.specs.Pairs.{means, put};
ghost use Rattle.buffa_map.specs.Encoding.{AllHold};
ghost use Rattle.buffa_fields.specs.MapFields.{PairTakesMemory, pair_cost, pair_taken, entry_records};
ghost use Rattle.buffa_fields.specs.facts.MapFacts.{distinct_put, map_back, map_stays};
ghost use Rattle.buffa_fields.specs.Refusals.{RefusesPair};
ghost use Rattle.buffa_fields.specs.facts.LevelKindFacts.{exact_flat, entry_numbers};
ghost use Rattle.buffa_fields.specs.facts.ValidRecordFacts.{entry_valid};

use crate::meaning::And;
use crate::members::map::{map_len, take_entry, write_map};
use crate::members::member::Member;
use buffa_map::map_codec::{Map, MapCodec, MapValueDecode};
use buffa_wire::{
    Blank, DecodeContext, DecodeError, EncodeError, EncodeSink, MapKey, SizeCache, Tag,
};
use std::alloc::Global;
use std::hash::Hash;
use std::marker::PhantomData;

/// A map field of scalars, strings or bytes, held in a [`Map`].
///
/// ```ignore
/// visitor.visit::<MapField<Str, Int32>>(5, &self.counts);
/// ```
pub struct MapField<KC, VC> {
    key: PhantomData<KC>,
    value: PhantomData<VC>,
}

impl<KC: MapCodec, VC: MapCodec> Member for MapField<KC, VC>
where
    KC::Value: MapKey + Hash,
{
    type Part = Map<KC::Value, VC::Value>;

    type Meaning = [And<<KC::Value as Blank>::Meaning, <VC::Value as Blank>::Meaning>; 0];

    ghost shape = { record {
      whole = not VC.MAY_RETURN_UNKNOWN;
      meaning = λ m. means KC.Value.meaning VC.Value.meaning m.entries;
      blank = [];
      takes = pair_taken KC.reading VC.reading (put KC.Value.same);
      checks = λ n w. check_wire n LengthDelimited w;
      refuses = RefusesPair KC.reading VC.reading (KC.COST + VC.COST);
      asks = PairTakesMemory KC.reading VC.reading;
      charge = pair_cost KC.reading VC.reading (KC.COST + VC.COST);
      records = entry_records KC.writing VC.writing;
      slots = λ _. [];
      levels = λ _. 0;
      Exact = Unit {0};
      normal = λ l. AllHold (λ k. KC.fits k × KC.normal k) (λ v. VC.fits v × VC.normal v) l
          × IsDistinct KC.Value.same (keys_of l);
      stays = map_stays KC.reading VC.reading (KC.COST + VC.COST);
    } };

    #[tactic(auto, using(crate::specs::facts::SchemaFacts::sized_free), unfolding(crate::specs::MapFields::entry_records))]
    fn len(
        number: u32,
        part: &Map<KC::Value, VC::Value>,
        _cache: &mut SizeCache,
    ) -> Result<u32, EncodeError> {
        Ok(map_len::<KC, VC, Map<KC::Value, VC::Value>>(number, part))
    }

    #[tactic(auto, using(crate::specs::facts::MapFacts::map_alone), unfolding(crate::specs::MapFields::entry_records))]
    fn write_to<S: EncodeSink>(
        number: u32,
        part: &Map<KC::Value, VC::Value>,
        _cache: &mut SizeCache,
        sink: &mut S,
    ) -> Result<(), EncodeError> {
        write_map::<KC, VC, Map<KC::Value, VC::Value>, S>(number, part, sink)
    }

    #[tactic(auto, unfolding(crate::specs::Schema::AsksAsSaid, crate::specs::Schema::RefusesAsSaid, crate::specs::Schema::TakesAsSaid, crate::specs::Schema::TellsWrongType))]
    fn merge(
        part: &mut Map<KC::Value, VC::Value>,
        alloc: Global,
        tag: Tag,
        buf: &mut &[u8],
        ctx: DecodeContext<'_>,
    ) -> Result<(), DecodeError> {
        take_entry::<KC, VC>(alloc, part, tag, buf, ctx)
    }

    ghost back = { record {
      valid = λ n number l normal. entry_valid n number KC.writing VC.writing l;
      back = λ n number d l fits normal low. unfold entry_records in (map_back KC.reading VC.reading KC.writing VC.writing
          (KC.MapCodec.written_wire ∙ sym KC.MapValueDecode.wire) (VC.MapCodec.written_wire ∙ sym VC.MapValueDecode.wire)
          (put KC.Value.same) (λ k. KC.fits k × KC.normal k) (λ v. VC.fits v × VC.normal v) d
          (λ v h. implicit_back KC.reading KC.writing d v KC.MapCodec.plain (KC.MapCodec.reads_back d KC.reading.blank v h.0 h.1))
          (λ v h. implicit_back VC.reading VC.writing d v VC.MapCodec.plain (VC.MapCodec.reads_back d VC.reading.blank v h.0 h.1))
          n number l fits normal.0 (distinct_put KC.Value.same KC.Value.MapKey.equivalence l normal.1));
      exact = λ _. exact_flat _ (entry_numbers KC.writing VC.writing) (λ v i. 0);
    } };
}
