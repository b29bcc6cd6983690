//! Map fields of messages as members that are written in the order of their keys.

ghost use Rattle.std.specs.Prelude.{◌+◌, [], true};
ghost use Rattle.std.specs.BTreeMap.{insert_entry};
ghost use Rattle.std.proofs.Common.{sym, ◌∙◌};
ghost use Rattle.buffa_bytes.specs.Readings.{check_wire};
ghost use Rattle.buffa_bytes.specs.declared.wire_type.WireType.TheVariants.{LengthDelimited};
ghost use Rattle.buffa_map.proofs.BackLemmas.{implicit_back};
ghost use Rattle.buffa_map.specs.Encoding.{AllHold};
ghost use Rattle.buffa_map.specs.Message.{message_reading};
ghost use Rattle.buffa_map.specs.Pairs.{means};
ghost use Rattle.buffa_fields.specs.MapFields.{PairTakesMemory, pair_cost, pair_taken};
ghost use Rattle.buffa_fields.specs.facts.MapFacts.{map_stays};
ghost use Rattle.buffa_fields.specs.Submessages.{FitsInside};
ghost use Rattle.buffa_fields.specs.facts.MapOfMessagesFacts.{pairs_back};
ghost use Rattle.buffa_fields.specs.MapsOfMessages.{pair_levels, pair_records, pair_slots};
ghost use Rattle.buffa_fields.specs.facts.OrderedFacts.{ascending_put};
ghost use Rattle.buffa_fields.specs.OrderedMaps.{KeysAscend};
ghost use Rattle.buffa_fields.specs.Refusals.{RefusesPair};
ghost use Rattle.buffa_fields.specs.facts.LevelKindFacts.{pairs_low, pair_numbers};
ghost use Rattle.buffa_fields.specs.Levels.{AreExactLevels};
ghost use Rattle.buffa_fields.specs.facts.ValidRecordFacts.{pair_valid};

use crate::meaning::And;
use crate::members::member::Member;
use crate::members::message_map_field::{pairs_len, write_pairs};
use crate::members::ordered_key::OrderedKey;
use crate::members::ordered_map_field::take_ordered;
use buffa_map::map_codec::{MapCodec, MapValueDecode, Msg};
use buffa_wire::{
    Blank, DecodeContext, DecodeError, EncodeError, EncodeSink, Message, MessageSpec, SizeCache,
    Tag,
};
use std::alloc::Global;
use std::collections::BTreeMap;
use std::marker::PhantomData;

/// A map field of messages, held in a `BTreeMap`: it is written in the order of its keys.
///
/// ```ignore
/// visitor.visit::<OrderedMessageMapField<Int32, Inventory>>(2, &self.pages); // map<int32, Inventory> pages = 2;
/// ```
pub struct OrderedMessageMapField<KC, N> {
    key: PhantomData<KC>,
    of: PhantomData<N>,
}

impl<KC: MapCodec, N: Message> Member for OrderedMessageMapField<KC, N>
where
    KC::Value: OrderedKey,
{
    type Part = BTreeMap<KC::Value, N>;

    type Meaning = [And<<KC::Value as Blank>::Meaning, <N as Blank>::Meaning>; 0];

    ghost shape = { record {
      whole = true;
      meaning = λ m. means KC.Value.meaning N.meaning m.entries;
      blank = [];
      takes = pair_taken KC.reading (message_reading N.blank_is N.merged N.cost) (insert_entry KC.Value.order);
      checks = λ n w. check_wire n LengthDelimited w;
      asks = PairTakesMemory KC.reading (message_reading N.blank_is N.merged N.cost);
      refuses = RefusesPair KC.reading (message_reading N.blank_is N.merged N.cost) (KC.COST + N.COST);
      charge = pair_cost KC.reading (message_reading N.blank_is N.merged N.cost) (KC.COST + N.COST);
      records = pair_records KC.writing N.encoding;
      slots = pair_slots N.encoding N.slots;
      levels = pair_levels N.levels;
      Exact = AreExactLevels N.merged N.encoding N.records N.normal N.levels;
      normal = λ l. AllHold (λ k. KC.fits k × KC.normal k) (FitsInside N.normal N.records) l
          × KeysAscend KC.Value.order l;
      stays = map_stays KC.reading (message_reading N.blank_is N.merged N.cost) (KC.COST + N.COST);
    } };

    fn len(
        number: u32,
        part: &BTreeMap<KC::Value, N>,
        cache: &mut SizeCache,
    ) -> Result<u32, EncodeError> {
        pairs_len::<KC, N, BTreeMap<KC::Value, N>>(number, part, cache)
    }

    fn write_to<S: EncodeSink>(
        number: u32,
        part: &BTreeMap<KC::Value, N>,
        cache: &mut SizeCache,
        sink: &mut S,
    ) -> Result<(), EncodeError> {
        write_pairs::<KC, N, BTreeMap<KC::Value, N>, S>(number, part, cache, sink)
    }

    #[tactic(auto, unfolding(crate::specs::Schema::AsksAsSaid, crate::specs::Schema::RefusesAsSaid, crate::specs::Schema::TakesAsSaid, crate::specs::Schema::TellsWrongType))]
    fn merge(
        part: &mut BTreeMap<KC::Value, N>,
        alloc: Global,
        tag: Tag,
        buf: &mut &[u8],
        ctx: DecodeContext<'_>,
    ) -> Result<(), DecodeError> {
        take_ordered::<KC, Msg<N>>(alloc, part, tag, buf, ctx)
    }

    ghost back = { record {
      valid = λ n number l normal. pair_valid n number KC.writing N.encoding l;
      back = λ n number d l fits normal low. pairs_back N.merged N.blank_is N.cost N.encoding N.levels
          (FitsInside N.normal N.records)
          (λ d v ok low. N.MessageSpec.merged_encoding d v ok.1 ok.0 low) KC.reading KC.writing
          (KC.MapCodec.written_wire ∙ sym KC.MapValueDecode.wire) (insert_entry KC.Value.order)
          (λ k. KC.fits k × KC.normal k)
          (λ d v h. implicit_back KC.reading KC.writing d v KC.MapCodec.plain (KC.MapCodec.reads_back d KC.reading.blank v h.0 h.1))
          n number d l fits normal.0 (ascending_put KC.Value.OrderedKey.total l normal.1) low;
      exact = λ exact. record {
        numbers = pair_numbers KC.writing N.encoding;
        least = λ k d v normal taken. pairs_low KC.reading KC.writing
            (KC.MapCodec.written_wire ∙ sym KC.MapValueDecode.wire) (λ x. KC.fits x × KC.normal x)
            (λ d v h. implicit_back KC.reading KC.writing d v KC.MapCodec.plain (KC.MapCodec.reads_back d KC.reading.blank v h.0 h.1))
            N.merged N.blank_is N.cost N.encoding N.records N.normal N.levels exact (insert_entry KC.Value.order) k d v normal.0 taken;
      };
    } };
}
