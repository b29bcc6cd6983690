//! Members that are messages.

ghost use Rattle.std.specs.Prelude.{◌≡◌, ◌∷◌, [], List, ℕ, length};
ghost use Rattle.buffa_bytes.specs.declared.wire_type.WireType.TheVariants.{LengthDelimited};
ghost use Rattle.buffa_bytes.specs.Number.{IsNumber};
ghost use Rattle.buffa_wire.specs.Passes.{cap};
ghost use Rattle.buffa_wire.specs.Records.{bytes};
ghost use Rattle.buffa_wire.specs.Encoding.{records_encoding};
ghost use Rattle.buffa_bytes.specs.Written.{Writes};
ghost use Rattle.buffa_fields.specs.Framings.{delimited};
ghost use Rattle.buffa_fields.specs.facts.FramingFacts.{delimited_holds};
ghost use Rattle.buffa_fields.specs.facts.SubmessageFacts.{TellsLength, head};

use crate::members::framing::Framing;
use crate::members::message_in::MessageIn;
use buffa_wire::{
    DecodeContext, DecodeError, EncodeError, EncodeSink, Message, Tag, WireType, capped,
    encode_varint, prefix_len,
};
use std::alloc::Global;

// The length of a record whose message has so many bytes, or 2^32 - 1 where it is more.
#[tactic(auto, using(crate::specs::facts::SubmessageFacts::record_size))]
pub(crate) fn record_len(number: u32, inner: u64) -> u32
    requires { IsNumber number }
    ensures { (e : List ℕ) → TellsLength inner e → result ≡ cap (length (records_encoding ((number, bytes e) ∷ []))) }
{
    let tag = Tag::new(number, WireType::LengthDelimited).encoded_len() as u64;
    let len = prefix_len(inner) as u64;
    let total = tag.saturating_add(len).saturating_add(inner);
    capped(total)
}

// Writes a tag and a length.
#[tactic(auto, using(buffa_bytes::proofs::SinkLemmas::writes_then, buffa_bytes::proofs::SinkLemmas::front_first))]
pub(crate) fn write_head<S: EncodeSink>(
    number: u32,
    inner: u64,
    sink: &mut S,
) -> Result<(), EncodeError>
    requires { IsNumber number }
    ensures { Writes result (S.written sink.old) (head number inner) (S.written sink.new) }
{
    Tag::new(number, WireType::LengthDelimited).encode(sink)?;
    encode_varint(inner, sink)
}

/// A message as a length and so many bytes.
///
/// ```ignore
/// pub type MessageField<N> = MessageIn<Delimited, N>;
/// ```
pub struct Delimited;

impl Framing for Delimited {
    ghost frame = { delimited };

    ghost holds = { delimited_holds };

    #[inline(always)]
    fn wire_type() -> WireType {
        WireType::LengthDelimited
    }

    #[inline(always)]
    fn field_len(number: u32, inner: u32) -> u32 {
        record_len(number, u64::from(inner))
    }

    #[inline(always)]
    fn begin<S: EncodeSink>(number: u32, inner: u32, sink: &mut S) -> Result<(), EncodeError> {
        write_head(number, u64::from(inner), sink)
    }

    #[inline(always)]
    fn end<S: EncodeSink>(_number: u32, _sink: &mut S) -> Result<(), EncodeError> {
        Ok(())
    }

    #[inline(always)]
    fn merge<N: Message>(
        alloc: Global,
        message: &mut N,
        _number: u32,
        buf: &mut &[u8],
        ctx: DecodeContext<'_>,
    ) -> Result<(), DecodeError> {
        message.merge_length_delimited(alloc, buf, ctx)
    }
}

/// A message that may be absent. What is read is merged into the message that is there, or into a default one. A refused
/// field neither puts a message there nor takes one away.
///
/// ```ignore
/// visitor.visit::<MessageField<Inventory>>(2, &self.stock);
/// ```
pub type MessageField<N> = MessageIn<Delimited, N>;
