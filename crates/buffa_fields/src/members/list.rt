//! Lists of values: each in a field of its own, or packed into one.

ghost use Rattle.std.specs.Prelude.{◌≡◌, IfErr, IsOk, OnErr, length, map};
ghost use Rattle.buffa_bytes.specs.PayloadValue.{payload_value_at};
ghost use Rattle.buffa_bytes.specs.Readings.{delimited_at, FullOnlyIf, Gives, GivesUnlessFull};
ghost use Rattle.buffa_bytes.specs.Number.{IsNumber};
ghost use Rattle.buffa_wire.specs.Passes.{cap};
ghost use Rattle.buffa_wire.specs.Encoding.{records_encoding};
ghost use Rattle.buffa_bytes.specs.Written.{Writes};
ghost use Rattle.buffa_fields.specs.ListAndMapCalls.{ChecksListWire, TakesElements};
ghost use Rattle.buffa_fields.specs.Lists.{ElementsTakeMemory, PackedTakeMemory, TakesPacked, element_at, element_records, elements_in};
ghost use Rattle.buffa_fields.specs.Refusals.{RefusesElements, RefusesTaggedField, RefusesPacked, StopsAtElement};

use crate::members::proto_type::ProtoType;
use crate::members::value::{value_len, write_value};
use buffa_map::map_codec::{MapCodec, MapValueDecode};
use buffa_wire::{
    Blank, Budget, Buf, DecodeContext, DecodeError, EncodeError, EncodeSink, Tag, WireType,
    check_wire_type, decode_varint,
};
use std::alloc::Global;

// Reads the element at the front, and puts it behind the others. Nothing is spent. Of a packed list this is the loop.
#[inline(always)]
#[tactic(auto, using(crate::specs::facts::ListFacts::element_pushed, crate::specs::facts::ListFacts::payload_value_there))]
fn take_element<C: MapCodec>(
    alloc: Global,
    values: &mut Vec<C::Value>,
    buf: &mut &[u8],
    depth: u32,
) -> Result<(), DecodeError>
    ensures reads { GivesUnlessFull (λ _. (map C.Value.meaning values.new.items, buf.new.now)) result
        (element_at C.reading depth (map C.Value.meaning values.old.items) buf.old.now) }
    ensures full { FullOnlyIf result (IsOk (payload_value_at C.reading.wire buf.old.now)) }
    ensures stays { OnErr result (map C.Value.meaning values.new.items ≡ map C.Value.meaning values.old.items) }
{
    let mut none = Budget::new(0);
    let lent = DecodeContext {
        depth,
        budget: &mut none,
    };
    let mut value = <C::Value as Blank>::blank(alloc);
    C::merge(alloc, &mut value, buf, lent)?;
    Ok(values.push(value)?)
}

// Reads elements to the end of the bytes.
fn take_all<C: MapCodec>(
    alloc: Global,
    values: &mut Vec<C::Value>,
    body: &[u8],
    depth: u32,
) -> Result<(), DecodeError>
    ensures reads { GivesUnlessFull (λ _. map C.Value.meaning values.new.items) result
        (elements_in C.reading depth (map C.Value.meaning values.old.items) body.now) }
    ensures full { FullOnlyIf result (IsOk (payload_value_at C.reading.wire body.now)) }
    ensures stops { IfErr result (λ e. StopsAtElement C.reading depth (map C.Value.meaning values.old.items) body.now e
        (map C.Value.meaning values.new.items)) }
{
    let mut rest = body;
    while rest.remaining() > 0 {
        take_element::<C>(alloc, values, &mut rest, depth)?;
    }
    Ok(())
}

// The length and so many bytes at the front.
#[tactic(auto, unfolding(buffa_bytes::specs::Readings::taken))]
fn take_body<'a>(buf: &mut &'a [u8]) -> Result<&'a [u8], DecodeError>
    ensures { Gives (λ b. (b.now, buf.new.now)) result (delimited_at buf.old.now) }
{
    let len = decode_varint(buf)?;
    let bytes = *buf;
    if len > bytes.len() as u64 {
        return Err(DecodeError::UnexpectedEof);
    }
    *buf = &bytes[len as usize..];
    Ok(&bytes[..len as usize])
}

// Reads a length and so many bytes of elements.
fn take_packed<C: MapCodec>(
    alloc: Global,
    values: &mut Vec<C::Value>,
    buf: &mut &[u8],
    depth: u32,
) -> Result<(), DecodeError>
    ensures taken { TakesPacked C.reading depth (map C.Value.meaning values.old.items) buf.old.now result
        (map C.Value.meaning values.new.items) buf.new.now }
    ensures full { FullOnlyIf result (PackedTakeMemory C.reading buf.old.now) }
    ensures refused { IfErr result (λ e. RefusesPacked C.reading depth (map C.Value.meaning values.old.items)
        buf.old.now e (map C.Value.meaning values.new.items)) }
{
    let body = take_body(buf)?;
    take_all::<C>(alloc, values, body, depth)
}

// Merges the elements of the field whose tag was read.
pub(crate) fn take_elements<C: MapCodec>(
    alloc: Global,
    values: &mut Vec<C::Value>,
    tag: Tag,
    buf: &mut &[u8],
    depth: u32,
) -> Result<(), DecodeError>
    ensures taken { TakesElements tag depth values.old values.new buf.old buf.new result C.reading
        (λ vs. map C.Value.meaning vs.items) }
    ensures full { FullOnlyIf result (ElementsTakeMemory C.reading depth tag.number tag.wire_type buf.old.now) }
    ensures wire { ChecksListWire tag C.WIRE_TYPE result (map C.Value.meaning values.old.items)
        (map C.Value.meaning values.new.items) buf.old buf.new }
    ensures refused { RefusesTaggedField (RefusesElements C.reading) tag depth (map C.Value.meaning values.old.items)
        (map C.Value.meaning values.new.items) buf.old result }
{
    match check_wire_type(tag, C::WIRE_TYPE) {
        Ok(()) => take_element::<C>(alloc, values, buf, depth),
        Err(error) => match check_wire_type(tag, WireType::LengthDelimited) {
            Ok(()) => take_packed::<C>(alloc, values, buf, depth),
            Err(_) => Err(error),
        },
    }
}

// The length of the fields of elements, or 2^32 - 1 where it is more.
pub(crate) fn elements_len<C: ProtoType>(number: u32, values: &[C::Value]) -> u32
    requires { IsNumber number }
    ensures { result ≡ cap (length (records_encoding
        (element_records C.field_data number (map C.Value.meaning values.now)))) }
{
    let mut total: u32 = 0;
    for value in values {
        total = total.saturating_add(value_len::<C>(number, value));
    }
    total
}

// Writes a field for each element.
pub(crate) fn write_elements<C: ProtoType, S: EncodeSink>(
    number: u32,
    values: &[C::Value],
    sink: &mut S,
) -> Result<(), EncodeError>
    requires { IsNumber number }
    ensures { Writes result (S.written sink.old) (records_encoding
        (element_records C.field_data number (map C.Value.meaning values.now))) (S.written sink.new) }
{
    for value in values {
        write_value::<C, S>(number, value, sink)?;
    }
    Ok(())
}
