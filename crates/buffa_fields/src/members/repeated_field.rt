//! Members that are lists.

ghost use Rattle.std.specs.Prelude.{[], map, refl, not};
ghost use Rattle.std.specs.List.{AllByRecursion};
ghost use Rattle.buffa_fields.specs.Lists.{ElementsTakeMemory, check_list_wire, element_records, elements_taken};
ghost use Rattle.buffa_fields.specs.facts.ListFacts.{elements_back};
ghost use Rattle.buffa_fields.specs.Refusals.{RefusesElements, UnderAny};
ghost use Rattle.buffa_fields.specs.Values.{free};
ghost use Rattle.buffa_fields.specs.facts.LevelKindFacts.{element_numbers, exact_flat};
ghost use Rattle.buffa_fields.specs.facts.ValidRecordFacts.{element_valid};

use crate::members::list::{elements_len, take_elements, write_elements};
use crate::members::member::Member;
use crate::members::proto_type::ProtoType;
use buffa_map::map_codec::{MapCodec, MapValueDecode};
use buffa_wire::{Blank, DecodeContext, DecodeError, EncodeError, EncodeSink, SizeCache, Tag};
use std::alloc::Global;
use std::marker::PhantomData;

/// A list of scalars, strings or bytes: each element is written in a field of its own. Packed ones are read too.
///
/// ```ignore
/// visitor.visit::<RepeatedField<Str>>(11, &self.tags);
/// ```
pub struct RepeatedField<C> {
    of: PhantomData<C>,
}

impl<C: ProtoType> Member for RepeatedField<C> {
    type Part = Vec<C::Value>;

    type Meaning = [<C::Value as Blank>::Meaning; 0];

    ghost shape = { record {
      whole = not C.MAY_RETURN_UNKNOWN;
      meaning = λ vs. map C.Value.meaning vs.items;
      blank = [];
      takes = elements_taken C.reading;
      checks = λ n w. check_list_wire n C.WIRE_TYPE w;
      refuses = UnderAny (RefusesElements C.reading);
      asks = ElementsTakeMemory C.reading;
      charge = free;
      records = element_records C.field_data;
      slots = λ _. [];
      levels = λ _. 0;
      Exact = Unit {0};
      normal = λ vs. AllByRecursion (λ v. C.fits v × C.normal v) vs;
      stays = λ d n w p x h. refl;
    } };

    #[tactic(auto, using(crate::specs::facts::SchemaFacts::sized_free))]
    fn len(number: u32, part: &Vec<C::Value>, _cache: &mut SizeCache) -> Result<u32, EncodeError> {
        Ok(elements_len::<C>(number, part.as_slice()))
    }

    #[tactic(auto, using(buffa_wire::proofs::PassLemmas::written_none, buffa_wire::proofs::PassLemmas::written_put))]
    fn write_to<S: EncodeSink>(
        number: u32,
        part: &Vec<C::Value>,
        _cache: &mut SizeCache,
        sink: &mut S,
    ) -> Result<(), EncodeError> {
        write_elements::<C, S>(number, part.as_slice(), sink)
    }

    #[tactic(auto, unfolding(crate::specs::Schema::AsksAsSaid, crate::specs::Schema::RefusesAsSaid, crate::specs::Schema::TakesAsSaid, crate::specs::Schema::TellsWrongType))]
    fn merge(
        part: &mut Vec<C::Value>,
        alloc: Global,
        tag: Tag,
        buf: &mut &[u8],
        ctx: DecodeContext<'_>,
    ) -> Result<(), DecodeError> {
        take_elements::<C>(alloc, part, tag, buf, ctx.depth)
    }

    ghost back = { record {
      valid = λ k number v normal. element_valid C.field_data (λ v. C.fits v × C.normal v) (λ v ok. C.ProtoType.field_data_valid v ok.0)
          k number v normal;
      back = λ k number d v fits normal low. elements_back C.reading C.writing C.field_data k number d C.MapCodec.plain
          C.WIRE_TYPE C.MapValueDecode.wire C.MapCodec.written_wire C.fits C.normal
          C.MapCodec.reads_back C.ProtoType.field_data_encoding v normal;
      exact = λ _. exact_flat _ (element_numbers C.field_data) (λ v i. 0);
    } };
}
