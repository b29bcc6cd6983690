//! Members that may be absent.

ghost use Rattle.std.specs.Prelude.{[], None, false, refl, not};
ghost use Rattle.std.specs.Option.{option_map};
ghost use Rattle.buffa_bytes.specs.Readings.{check_wire};
ghost use Rattle.buffa_fields.specs.Refusals.{UnderAny};
ghost use Rattle.buffa_fields.specs.Values.{IfThere, RefusesAlone, ValueTakesMemory, free, some_taken};
ghost use Rattle.buffa_fields.specs.facts.ValueFacts.{some_back};
ghost use Rattle.buffa_fields.specs.MemberRecords.{explicit_records};
ghost use Rattle.buffa_fields.specs.facts.LevelKindFacts.{exact_flat, explicit_numbers};
ghost use Rattle.buffa_fields.specs.facts.ValidRecordFacts.{explicit_valid};

use crate::members::member::Member;
use crate::members::proto_type::ProtoType;
use crate::members::value::{take_value, value_len, write_value};
use crate::oneofs::case::Case;
use buffa_wire::{Blank, DecodeContext, DecodeError, EncodeError, EncodeSink, SizeCache, Tag};
use std::alloc::Global;
use std::marker::PhantomData;

/// A member with explicit presence: `optional` of a scalar, a string or bytes.
///
/// ```ignore
/// visitor.visit::<ExplicitField<Bool>>(3, &self.listed);
/// ```
pub struct ExplicitField<C> {
    of: PhantomData<C>,
}

impl<C: ProtoType> Member for ExplicitField<C> {
    type Part = Option<C::Value>;

    type Meaning = Option<<C::Value as Blank>::Meaning>;

    ghost shape = { record {
      whole = not C.MAY_RETURN_UNKNOWN;
      meaning = λ p. option_map C.Value.meaning p;
      blank = None;
      takes = some_taken C.reading;
      checks = λ n w. check_wire n C.WIRE_TYPE w;
      refuses = UnderAny (RefusesAlone C.reading (λ _. C.reading.blank));
      asks = ValueTakesMemory C.reading;
      charge = free;
      records = explicit_records C.field_data;
      slots = λ _. [];
      levels = λ _. 0;
      Exact = Unit {0};
      normal = λ v. IfThere (λ x. C.fits x × C.normal x) v;
      stays = λ d n w p x h. refl;
    } };

    #[inline(always)]
    #[tactic(auto, using(crate::specs::facts::SchemaFacts::sized_free), unfolding(crate::specs::MemberRecords::explicit_records))]
    fn len(
        number: u32,
        part: &Option<C::Value>,
        _cache: &mut SizeCache,
    ) -> Result<u32, EncodeError> {
        match part {
            None => Ok(0),
            Some(value) => Ok(value_len::<C>(number, value)),
        }
    }

    #[inline(always)]
    #[tactic(auto, using(buffa_wire::proofs::PassLemmas::written_none, buffa_wire::proofs::PassLemmas::written_put), unfolding(crate::specs::MemberRecords::explicit_records))]
    fn write_to<S: EncodeSink>(
        number: u32,
        part: &Option<C::Value>,
        _cache: &mut SizeCache,
        sink: &mut S,
    ) -> Result<(), EncodeError> {
        match part {
            None => Ok(()),
            Some(value) => write_value::<C, S>(number, value, sink),
        }
    }

    #[inline(always)]
    fn merge(
        part: &mut Option<C::Value>,
        alloc: Global,
        tag: Tag,
        buf: &mut &[u8],
        ctx: DecodeContext<'_>,
    ) -> Result<(), DecodeError> {
        let mut value = <C::Value as Blank>::blank(alloc);
        take_value::<C>(alloc, &mut value, tag, buf, ctx)?;
        *part = Some(value);
        Ok(())
    }

    ghost back = { record {
      valid = λ k number v normal. explicit_valid C.field_data (λ v. C.fits v × C.normal v) (λ v ok. C.ProtoType.field_data_valid v ok.0)
          k number v normal;
      back = λ k number d v fits normal low. unfold explicit_records in (some_back C.reading C.writing C.field_data k number d
          C.MapCodec.plain C.WIRE_TYPE C.MapValueDecode.wire C.MapCodec.written_wire C.fits C.normal C.MapCodec.reads_back
          C.ProtoType.field_data_encoding v normal);
      exact = λ _. exact_flat _ (explicit_numbers C.field_data) (λ v i. 0);
    } };
}

/// A case of a `oneof`: what is read takes the place of what stands.
impl<C: ProtoType> Case for ExplicitField<C> {
    type Value = C::Value;

    type Said = <C::Value as Blank>::Meaning;

    ghost form = { ⟦<ExplicitField<C> as Member>⟧.shape };

    ghost merges = { false };

    ghost words = { record {
      there = λ p. (C.Value.meaning p, refl);
      absent = refl;
      blank = refl;
      alone = λ merges d v n w p. refl;
    } };

    #[inline(always)]
    #[tactic(auto, using(crate::specs::facts::SchemaFacts::sized_free), unfolding(crate::specs::MemberRecords::explicit_records))]
    fn value_len(
        number: u32,
        value: &C::Value,
        _cache: &mut SizeCache,
    ) -> Result<u32, EncodeError> {
        Ok(value_len::<C>(number, value))
    }

    #[inline(always)]
    #[tactic(auto, using(buffa_wire::proofs::PassLemmas::written_put), unfolding(crate::specs::MemberRecords::explicit_records))]
    fn write_value<S: EncodeSink>(
        number: u32,
        value: &C::Value,
        _cache: &mut SizeCache,
        sink: &mut S,
    ) -> Result<(), EncodeError> {
        write_value::<C, S>(number, value, sink)
    }

    #[inline(always)]
    fn merge_value(
        value: &mut C::Value,
        alloc: Global,
        tag: Tag,
        buf: &mut &[u8],
        ctx: DecodeContext<'_>,
    ) -> Result<(), DecodeError> {
        let mut fresh = <C::Value as Blank>::blank(alloc);
        take_value::<C>(alloc, &mut fresh, tag, buf, ctx)?;
        *value = fresh;
        Ok(())
    }

    #[inline(always)]
    fn read_value(
        alloc: Global,
        tag: Tag,
        buf: &mut &[u8],
        ctx: DecodeContext<'_>,
    ) -> Result<C::Value, DecodeError> {
        let mut value = <C::Value as Blank>::blank(alloc);
        take_value::<C>(alloc, &mut value, tag, buf, ctx)?;
        Ok(value)
    }

    ghost back = { λ owes. owes };
}
