//! Map fields of messages as members.

ghost use Rattle.std.specs.Prelude.{◌≢◌, ◌+◌, [], OnErr, true};
ghost use Rattle.std.proofs.Common.{sym, ◌∙◌};
ghost use Rattle.std.specs.List.{IsDistinct};
ghost use Rattle.std.specs.Map.{keys_of};
ghost use Rattle.buffa_bytes.specs.declared.wire_type.WireType.TheVariants.{LengthDelimited};
ghost use Rattle.buffa_bytes.specs.Number.{IsNumber};
ghost use Rattle.buffa_wire.specs.Passes.{IsNext};
ghost use Rattle.buffa_bytes.specs.Readings.{check_wire};
ghost use Rattle.buffa_map.proofs.BackLemmas.{implicit_back};
ghost use Rattle.buffa_map.specs.Message.{message_reading};
ghost use Rattle.buffa_map.specs.Pairs.{means, put};
ghost use Rattle.buffa_map.specs.Encoding.{AllHold};
ghost use Rattle.buffa_fields.specs.ListAndMapCalls.{SizesPairs, WritesPairs};
ghost use Rattle.buffa_fields.specs.MapFields.{PairTakesMemory, pair_cost, pair_taken};
ghost use Rattle.buffa_fields.specs.facts.MapFacts.{distinct_put, map_stays};
ghost use Rattle.buffa_fields.specs.Submessages.{FitsInside};
ghost use Rattle.buffa_fields.specs.facts.MapOfMessagesFacts.{pairs_back};
ghost use Rattle.buffa_fields.specs.MapsOfMessages.{pair_levels, pair_records, pair_slots};
ghost use Rattle.buffa_fields.specs.Refusals.{RefusesPair};
ghost use Rattle.buffa_fields.specs.facts.LevelKindFacts.{pairs_low, pair_numbers};
ghost use Rattle.buffa_fields.specs.Levels.{AreExactLevels};
ghost use Rattle.buffa_fields.specs.facts.ValidRecordFacts.{pair_valid};

use crate::meaning::And;
use crate::members::map::take_entry;
use crate::members::member::Member;
use buffa_map::map_codec::{
    Map, MapCodec, MapStorage, MapValueDecode, Msg, StableWalk, message_field_len,
    write_message_field,
};
use buffa_wire::{
    Blank, DecodeContext, DecodeError, EncodeError, EncodeSink, MapKey, Message, MessageSpec,
    SizeCache, Tag, WireType, capped,
};
use std::alloc::Global;
use std::hash::Hash;
use std::marker::PhantomData;

// The length of a map field of messages, or 2^32 - 1 where it is more. The slots of each are appended.
pub(crate) fn pairs_len<
    'a,
    KC: MapCodec,
    N: Message + 'a,
    C: StableWalk<'a> + MapStorage<Key = KC::Value, Value = N>,
>(number: u32, map: &'a C, cache: &mut SizeCache) -> Result<u32, EncodeError>
where
    KC::Value: 'a,
    requires { IsNumber number }
    ensures sized { SizesPairs N.encoding N.slots number KC.writing (C.walk map.now) cache.old result cache.new }
    ensures some { OnErr result (C.pairs map.now ≢ []) }
{
    let tag = Tag::new(number, WireType::LengthDelimited).encoded_len() as u64;
    let total = message_field_len::<KC, N, C>(map, tag, cache)?;
    Ok(capped(total))
}

// Writes a map field of messages, whose slots are next.
#[tactic(auto, unfolding(crate::specs::MapsOfMessages::pair_slots))]
pub(crate) fn write_pairs<
    'a,
    KC: MapCodec,
    N: Message + 'a,
    C: StableWalk<'a> + MapStorage<Key = KC::Value, Value = N>,
    S: EncodeSink,
>(number: u32, map: &'a C, cache: &mut SizeCache, sink: &mut S) -> Result<(), EncodeError>
where
    KC::Value: 'a,
    requires number { IsNumber number }
    requires next { IsNext (pair_slots N.encoding N.slots (C.walk map.now)) cache.old }
    ensures { WritesPairs cache.old (S.written sink.old) result cache.new (S.written sink.new) N.encoding N.slots number
        KC.writing (C.walk map.now) }
{
    write_message_field::<KC, N, C, S>(map, number, cache, sink)
}

/// A map field of messages, held in a [`Map`]: the message of an entry is read into a default one, which takes the
/// place of the key's.
///
/// ```ignore
/// visitor.visit::<MessageMapField<Str, Inventory>>(2, &self.shelves); // map<string, Inventory> shelves = 2;
/// ```
pub struct MessageMapField<KC, N> {
    key: PhantomData<KC>,
    of: PhantomData<N>,
}

impl<KC: MapCodec, N: Message> Member for MessageMapField<KC, N>
where
    KC::Value: MapKey + Hash,
{
    type Part = Map<KC::Value, N>;

    type Meaning = [And<<KC::Value as Blank>::Meaning, <N as Blank>::Meaning>; 0];

    ghost shape = { record {
      whole = true;
      meaning = λ m. means KC.Value.meaning N.meaning m.entries;
      blank = [];
      takes = pair_taken KC.reading (message_reading N.blank_is N.merged N.cost) (put KC.Value.same);
      checks = λ n w. check_wire n LengthDelimited w;
      refuses = RefusesPair KC.reading (message_reading N.blank_is N.merged N.cost) (KC.COST + N.COST);
      asks = PairTakesMemory KC.reading (message_reading N.blank_is N.merged N.cost);
      charge = pair_cost KC.reading (message_reading N.blank_is N.merged N.cost) (KC.COST + N.COST);
      records = pair_records KC.writing N.encoding;
      slots = pair_slots N.encoding N.slots;
      levels = pair_levels N.levels;
      Exact = AreExactLevels N.merged N.encoding N.records N.normal N.levels;
      normal = λ l. AllHold (λ k. KC.fits k × KC.normal k) (FitsInside N.normal N.records) l
          × IsDistinct KC.Value.same (keys_of l);
      stays = map_stays KC.reading (message_reading N.blank_is N.merged N.cost) (KC.COST + N.COST);
    } };

    fn len(
        number: u32,
        part: &Map<KC::Value, N>,
        cache: &mut SizeCache,
    ) -> Result<u32, EncodeError> {
        pairs_len::<KC, N, Map<KC::Value, N>>(number, part, cache)
    }

    fn write_to<S: EncodeSink>(
        number: u32,
        part: &Map<KC::Value, N>,
        cache: &mut SizeCache,
        sink: &mut S,
    ) -> Result<(), EncodeError> {
        write_pairs::<KC, N, Map<KC::Value, N>, S>(number, part, cache, sink)
    }

    #[tactic(auto, unfolding(crate::specs::Schema::AsksAsSaid, crate::specs::Schema::RefusesAsSaid, crate::specs::Schema::TakesAsSaid, crate::specs::Schema::TellsWrongType))]
    fn merge(
        part: &mut Map<KC::Value, N>,
        alloc: Global,
        tag: Tag,
        buf: &mut &[u8],
        ctx: DecodeContext<'_>,
    ) -> Result<(), DecodeError> {
        take_entry::<KC, Msg<N>>(alloc, part, tag, buf, ctx)
    }

    ghost back = { record {
      valid = λ n number l normal. pair_valid n number KC.writing N.encoding l;
      back = λ n number d l fits normal low. pairs_back N.merged N.blank_is N.cost N.encoding N.levels
          (FitsInside N.normal N.records)
          (λ d v ok low. N.MessageSpec.merged_encoding d v ok.1 ok.0 low) KC.reading KC.writing
          (KC.MapCodec.written_wire ∙ sym KC.MapValueDecode.wire) (put KC.Value.same)
          (λ k. KC.fits k × KC.normal k)
          (λ d v h. implicit_back KC.reading KC.writing d v KC.MapCodec.plain (KC.MapCodec.reads_back d KC.reading.blank v h.0 h.1))
          n number d l fits normal.0 (distinct_put KC.Value.same KC.Value.MapKey.equivalence l normal.1) low;
      exact = λ exact. record {
        numbers = pair_numbers KC.writing N.encoding;
        least = λ k d v normal taken. pairs_low KC.reading KC.writing
            (KC.MapCodec.written_wire ∙ sym KC.MapValueDecode.wire) (λ x. KC.fits x × KC.normal x)
            (λ d v h. implicit_back KC.reading KC.writing d v KC.MapCodec.plain (KC.MapCodec.reads_back d KC.reading.blank v h.0 h.1))
            N.merged N.blank_is N.cost N.encoding N.records N.normal N.levels exact (put KC.Value.same) k d v normal.0 taken;
      };
    } };
}
