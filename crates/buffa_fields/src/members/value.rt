//! The value of a field, by a codec.

ghost use Rattle.std.specs.Prelude.{◌≡◌, ◌∷◌, ◌++◌, [], length, Err};
ghost use Rattle.buffa_bytes.specs.Readings.{FullOnlyIf};
ghost use Rattle.buffa_bytes.specs.Number.{IsNumber};
ghost use Rattle.buffa_wire.specs.Passes.{cap};
ghost use Rattle.buffa_wire.specs.Encoding.{records_encoding};
ghost use Rattle.buffa_bytes.specs.Values.{tag_encoding};
ghost use Rattle.buffa_bytes.specs.Written.{Writes};
ghost use Rattle.buffa_fields.specs.Calls.{ChecksWire, TakesValue};
ghost use Rattle.buffa_fields.specs.Values.{RefusesAlone, ValueTakesMemory};

use crate::members::proto_type::ProtoType;
use buffa_map::map_codec::{MapCodec, MapValueDecode};
use buffa_wire::{
    DecodeContext, DecodeError, EncodeError, EncodeSink, Tag, capped, check_wire_type,
};
use std::alloc::Global;

/// Merges the value of the field whose tag was read.
///
/// # Errors
/// [`DecodeError::WireTypeMismatch`] where it isn't of the codec's wire type; else what the codec refuses.
///
/// ```ignore
/// take_value::<C>(alloc, part, tag, buf, ctx)
/// ```
#[inline(always)]
pub fn take_value<C: MapCodec>(
    alloc: Global,
    value: &mut C::Value,
    tag: Tag,
    buf: &mut &[u8],
    ctx: DecodeContext<'_>,
) -> Result<(), DecodeError>
    ensures taken { TakesValue tag ctx.entry ctx.exit value.old value.new buf.old buf.new result C.reading
        C.Value.meaning }
    ensures full { FullOnlyIf result (ValueTakesMemory C.reading ctx.entry.depth tag.number tag.wire_type
        buf.old.now) }
    ensures wire { ChecksWire tag C.WIRE_TYPE result (C.Value.meaning value.old) (C.Value.meaning value.new) buf.old
        buf.new }
    ensures refused { (e : _) → result ≡ Err e → RefusesAlone C.reading (λ v. v) ctx.entry.depth (C.Value.meaning value.old)
        tag.number tag.wire_type buf.old.now e (C.Value.meaning value.new) }
{
    check_wire_type(tag, C::WIRE_TYPE)?;
    C::merge(alloc, value, buf, ctx)?;
    Ok(())
}

/// The length of a field in bytes, or 2^32 - 1 where it is more.
///
/// ```ignore
/// Ok(value_len::<C>(number, part))
/// ```
#[inline(always)]
pub fn value_len<C: ProtoType>(number: u32, value: &C::Value) -> u32
    requires { IsNumber number }
    ensures { result ≡ cap (length (records_encoding ((number, C.field_data (C.Value.meaning value.now)) ∷ []))) }
{
    let tag = Tag::new(number, C::WIRE_TYPE).encoded_len() as u64;
    let total = C::encoded_len(value).saturating_add(tag);
    capped(total)
}

// Writes a tag and a payload.
#[inline(always)]
#[tactic(auto, using(buffa_bytes::proofs::SinkLemmas::writes_then, buffa_bytes::proofs::SinkLemmas::front_first))]
fn write_parts<C: ProtoType, S: EncodeSink>(
    number: u32,
    value: &C::Value,
    sink: &mut S,
) -> Result<(), EncodeError>
    requires { IsNumber number }
    ensures { Writes result (S.written sink.old)
        (tag_encoding number C.WIRE_TYPE ++ C.writing.encoding (C.Value.meaning value.now)) (S.written sink.new) }
{
    Tag::new(number, C::WIRE_TYPE).encode(sink)?;
    C::encode(value, sink)
}

/// Writes a field.
///
/// # Errors
/// [`EncodeError::OutOfMemory`] where the sink doesn't take it.
///
/// ```ignore
/// write_value::<C, S>(number, part, sink)
/// ```
#[inline(always)]
pub fn write_value<C: ProtoType, S: EncodeSink>(
    number: u32,
    value: &C::Value,
    sink: &mut S,
) -> Result<(), EncodeError>
    requires { IsNumber number }
    ensures { Writes result (S.written sink.old) (records_encoding ((number, C.field_data (C.Value.meaning value.now)) ∷ []))
        (S.written sink.new) }
{
    write_parts::<C, S>(number, value, sink)
}
