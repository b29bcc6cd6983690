//! Members that aren't written where they are the default.

ghost use Rattle.std.specs.Prelude.{[], refl, not};
ghost use Rattle.buffa_bytes.specs.Readings.{check_wire};
ghost use Rattle.buffa_fields.specs.Refusals.{UnderAny};
ghost use Rattle.buffa_fields.specs.Values.{RefusesAlone, ValueTakesMemory, free, value_taken};
ghost use Rattle.buffa_fields.specs.facts.ValueFacts.{implicit_back};
ghost use Rattle.buffa_fields.specs.MemberRecords.{implicit_records};
ghost use Rattle.buffa_fields.specs.facts.LevelKindFacts.{exact_flat, implicit_numbers};
ghost use Rattle.buffa_fields.specs.facts.ValidRecordFacts.{implicit_valid};

use crate::members::member::Member;
use crate::members::proto_type::ProtoType;
use crate::members::value::{take_value, value_len, write_value};
use buffa_wire::{Blank, DecodeContext, DecodeError, EncodeError, EncodeSink, SizeCache, Tag};
use std::alloc::Global;
use std::marker::PhantomData;

/// A member with implicit presence: a scalar, a string or bytes, not written where it is the default.
///
/// ```ignore
/// visitor.visit::<ImplicitField<Int32>>(1, &self.total);
/// ```
pub struct ImplicitField<C> {
    of: PhantomData<C>,
}

impl<C: ProtoType> Member for ImplicitField<C> {
    type Part = C::Value;

    type Meaning = <C::Value as Blank>::Meaning;

    ghost shape = { record {
      whole = not C.MAY_RETURN_UNKNOWN;
      meaning = C.Value.meaning;
      blank = C.Value.blank_is;
      takes = value_taken C.reading;
      checks = λ n w. check_wire n C.WIRE_TYPE w;
      refuses = UnderAny (RefusesAlone C.reading (λ v. v));
      asks = ValueTakesMemory C.reading;
      charge = free;
      records = implicit_records C.is_blank C.field_data;
      slots = λ _. [];
      levels = λ _. 0;
      Exact = Unit {0};
      normal = λ v. C.fits v × C.normal v;
      stays = λ d n w p x h. refl;
    } };

    #[inline(always)]
    #[tactic(auto, using(crate::specs::facts::SchemaFacts::sized_free), unfolding(crate::specs::MemberRecords::implicit_records))]
    fn len(number: u32, part: &C::Value, _cache: &mut SizeCache) -> Result<u32, EncodeError> {
        if C::is_blank(part) {
            Ok(0)
        } else {
            Ok(value_len::<C>(number, part))
        }
    }

    #[inline(always)]
    #[tactic(auto, using(buffa_wire::proofs::PassLemmas::written_none, buffa_wire::proofs::PassLemmas::written_put), unfolding(crate::specs::MemberRecords::implicit_records))]
    fn write_to<S: EncodeSink>(
        number: u32,
        part: &C::Value,
        _cache: &mut SizeCache,
        sink: &mut S,
    ) -> Result<(), EncodeError> {
        if C::is_blank(part) {
            Ok(())
        } else {
            write_value::<C, S>(number, part, sink)
        }
    }

    #[inline(always)]
    #[tactic(auto, unfolding(crate::specs::Schema::AsksAsSaid, crate::specs::Schema::RefusesAsSaid, crate::specs::Schema::TakesAsSaid, crate::specs::Schema::TellsWrongType))]
    fn merge(
        part: &mut C::Value,
        alloc: Global,
        tag: Tag,
        buf: &mut &[u8],
        ctx: DecodeContext<'_>,
    ) -> Result<(), DecodeError> {
        take_value::<C>(alloc, part, tag, buf, ctx)
    }

    ghost back = { record {
      valid = λ k number v normal. implicit_valid C.field_data (λ v. C.fits v × C.normal v) (λ v ok. C.ProtoType.field_data_valid v ok.0)
          k number C.is_blank v normal;
      back = λ k number d v fits normal low. unfold implicit_records in (implicit_back C.reading C.writing C.field_data k number d
          C.MapCodec.plain C.WIRE_TYPE C.MapValueDecode.wire C.MapCodec.written_wire C.fits C.normal C.MapCodec.reads_back
          C.ProtoType.field_data_encoding C.Value.blank_is C.is_blank C.ProtoType.blank_only v normal.0 normal.1);
      exact = λ _. exact_flat _ (implicit_numbers C.is_blank C.field_data) (λ v i. 0);
    } };
}
