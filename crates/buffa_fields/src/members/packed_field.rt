//! Lists that are written packed.

ghost use Rattle.std.specs.Prelude.{[], false, length, map, refl, ◌==◌, ◌≡◌, not};
ghost use Rattle.std.specs.List.{AllByRecursion};
ghost use Rattle.buffa_bytes.specs.declared.wire_type.WireType.TheVariants.{LengthDelimited};
ghost use Rattle.buffa_bytes.specs.Number.{IsNumber};
ghost use Rattle.buffa_wire.specs.Passes.{IsWritten, cap};
ghost use Rattle.buffa_wire.specs.Encoding.{records_encoding, encodings};
ghost use Rattle.buffa_bytes.specs.Readings.{same_wire};
ghost use Rattle.buffa_bytes.specs.Written.{Writes};
ghost use Rattle.buffa_map.specs.Encoding.{saturated};
ghost use Rattle.buffa_fields.specs.Lists.{ElementsTakeMemory, check_list_wire, elements_taken, packed_records};
ghost use Rattle.buffa_fields.specs.facts.ListFacts.{packed_field_back};
ghost use Rattle.buffa_fields.specs.Refusals.{RefusesElements, UnderAny};
ghost use Rattle.buffa_fields.specs.Values.{free};
ghost use Rattle.buffa_fields.specs.facts.LevelKindFacts.{exact_flat, packed_numbers};
ghost use Rattle.buffa_fields.specs.facts.ValidRecordFacts.{packed_valid};

use crate::members::list::take_elements;
use crate::members::member::Member;
use crate::members::message_field::{record_len, write_head};
use crate::members::proto_type::ProtoType;
use buffa_map::map_codec::{
    Bool, ClosedEnum, Double, Fixed32, Fixed64, Float, Int32, Int64, MapCodec, MapValueDecode,
    OpenEnum, Sfixed32, Sfixed64, Sint32, Sint64, Uint32, Uint64,
};
use buffa_wire::{
    Blank, DecodeContext, DecodeError, EncodeError, EncodeSink, Enumeration, SizeCache, Tag,
};
use std::alloc::Global;
use std::marker::PhantomData;

/// Proto types that can be packed: a payload is no length and so many bytes.
///
/// ```ignore
/// impl Packable for Int32 { .. }
/// ```
pub trait Packable: ProtoType {
    /// So a length and so many bytes are packed ones.
    ghost differs_only: { same_wire Self.reading.wire LengthDelimited ≡ false };
}

impl Packable for Int32 {
    ghost differs_only = { refl };
}

impl Packable for Int64 {
    ghost differs_only = { refl };
}

impl Packable for Uint32 {
    ghost differs_only = { refl };
}

impl Packable for Uint64 {
    ghost differs_only = { refl };
}

impl Packable for Sint32 {
    ghost differs_only = { refl };
}

impl Packable for Sint64 {
    ghost differs_only = { refl };
}

impl Packable for Fixed32 {
    ghost differs_only = { refl };
}

impl Packable for Fixed64 {
    ghost differs_only = { refl };
}

impl Packable for Sfixed32 {
    ghost differs_only = { refl };
}

impl Packable for Sfixed64 {
    ghost differs_only = { refl };
}

impl Packable for Float {
    ghost differs_only = { refl };
}

impl Packable for Double {
    ghost differs_only = { refl };
}

impl Packable for Bool {
    ghost differs_only = { refl };
}

impl<E: Enumeration> Packable for OpenEnum<E> {
    ghost differs_only = { refl };
}

impl<E: Enumeration> Packable for ClosedEnum<E> {
    ghost differs_only = { refl };
}

// The length of all payloads, or 2^64 - 1 where it is more.
fn payloads_len<C: ProtoType>(values: &[C::Value]) -> u64
    ensures { result ≡ saturated (length (encodings C.writing.encoding (map C.Value.meaning values.now))) }
{
    let mut total: u64 = 0;
    for value in values {
        total = total.saturating_add(C::encoded_len(value));
    }
    total
}

// Writes all payloads.
fn write_payloads<C: ProtoType, S: EncodeSink>(
    values: &[C::Value],
    sink: &mut S,
) -> Result<(), EncodeError>
    ensures { Writes result (S.written sink.old) (encodings C.writing.encoding (map C.Value.meaning values.now))
        (S.written sink.new) }
{
    for value in values {
        C::encode(value, sink)?;
    }
    Ok(())
}

// The length of the one record of a list, or 2^32 - 1 where it is more; 0 where the list is empty.
fn packed_len<C: ProtoType>(number: u32, values: &[C::Value]) -> u32
    requires { IsNumber number }
    ensures { result ≡ cap (length (records_encoding
        (packed_records C.writing.encoding number (map C.Value.meaning values.now)))) }
{
    if values.len() == 0 {
        return 0;
    }
    record_len(number, payloads_len::<C>(values))
}

// Writes the one record of a list, or nothing where it is empty.
fn write_packed<C: ProtoType, S: EncodeSink>(
    number: u32,
    values: &[C::Value],
    _cache: &mut SizeCache,
    sink: &mut S,
) -> Result<(), EncodeError>
    requires { IsNumber number }
    ensures { IsWritten (records_encoding (packed_records C.writing.encoding number (map C.Value.meaning values.now))) []
        _cache.old (S.written sink.old) result _cache.new (S.written sink.new) }
{
    if values.len() == 0 {
        return Ok(());
    }
    write_head(number, payloads_len::<C>(values), sink)?;
    write_payloads::<C, S>(values, sink)
}

/// A list of scalars or enums, which is written packed. Elements in fields of their own are read too.
///
/// ```ignore
/// visitor.visit::<PackedField<Sint32>>(7, &self.steps);
/// ```
pub struct PackedField<C> {
    of: PhantomData<C>,
}

impl<C: Packable> Member for PackedField<C> {
    type Part = Vec<C::Value>;

    type Meaning = [<C::Value as Blank>::Meaning; 0];

    ghost shape = { record {
      whole = not C.MAY_RETURN_UNKNOWN;
      meaning = λ vs. map C.Value.meaning vs.items;
      blank = [];
      takes = elements_taken C.reading;
      checks = λ n w. check_list_wire n C.WIRE_TYPE w;
      refuses = UnderAny (RefusesElements C.reading);
      asks = ElementsTakeMemory C.reading;
      charge = free;
      records = packed_records C.writing.encoding;
      slots = λ _. [];
      levels = λ _. 0;
      Exact = Unit {0};
      normal = λ vs. AllByRecursion (λ v. C.fits v × C.normal v) vs;
      stays = λ d n w p x h. refl;
    } };

    #[tactic(auto, using(crate::specs::facts::SchemaFacts::sized_free))]
    fn len(number: u32, part: &Vec<C::Value>, _cache: &mut SizeCache) -> Result<u32, EncodeError> {
        Ok(packed_len::<C>(number, part.as_slice()))
    }

    fn write_to<S: EncodeSink>(
        number: u32,
        part: &Vec<C::Value>,
        cache: &mut SizeCache,
        sink: &mut S,
    ) -> Result<(), EncodeError> {
        write_packed::<C, S>(number, part.as_slice(), cache, sink)
    }

    #[tactic(auto, unfolding(crate::specs::Schema::AsksAsSaid, crate::specs::Schema::RefusesAsSaid, crate::specs::Schema::TakesAsSaid, crate::specs::Schema::TellsWrongType))]
    fn merge(
        part: &mut Vec<C::Value>,
        alloc: Global,
        tag: Tag,
        buf: &mut &[u8],
        ctx: DecodeContext<'_>,
    ) -> Result<(), DecodeError> {
        take_elements::<C>(alloc, part, tag, buf, ctx.depth)
    }

    ghost back = { record {
      valid = λ k number v normal. packed_valid k number C.writing.encoding v;
      back = λ k number d v fits normal low. packed_field_back C.reading C.writing C.field_data k number d C.MapCodec.plain
          C.WIRE_TYPE C.MapValueDecode.wire C.MapCodec.written_wire C.fits C.normal
          C.MapCodec.reads_back C.ProtoType.field_data_encoding C.Packable.differs_only v fits normal;
      exact = λ _. exact_flat _ (packed_numbers C.writing.encoding) (λ v i. 0);
    } };
}
