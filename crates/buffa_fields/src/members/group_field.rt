//! Members that are messages, as groups.

ghost use Rattle.std.specs.Prelude.{◌≡◌, ◌+◌, ◌<◌, length};
ghost use Rattle.buffa_bytes.specs.declared.wire_type.WireType.TheVariants.{EndGroup, StartGroup};
ghost use Rattle.buffa_bytes.specs.Number.{IsNumber};
ghost use Rattle.buffa_bytes.specs.Values.{tag_encoding};
ghost use Rattle.buffa_wire.specs.Passes.{cap};
ghost use Rattle.buffa_fields.specs.Framings.{grouped};
ghost use Rattle.buffa_fields.specs.facts.FramingFacts.{grouped_holds};

use crate::members::framing::Framing;
use crate::members::message_in::MessageIn;
use buffa_wire::{
    DecodeContext, DecodeError, EncodeError, EncodeSink, Message, Tag, WireType, capped,
};
use std::alloc::Global;

/// A message as a group: its fields up to an end tag.
///
/// ```ignore
/// pub type GroupField<N> = MessageIn<Grouped, N>;
/// ```
pub struct Grouped;

impl Framing for Grouped {
    ghost frame = { grouped };

    ghost holds = { grouped_holds };

    #[inline(always)]
    fn wire_type() -> WireType {
        WireType::StartGroup
    }

    fn field_len(number: u32, inner: u32) -> u32 {
        let start = Tag::new(number, WireType::StartGroup).encoded_len() as u64;
        let end = Tag::new(number, WireType::EndGroup).encoded_len() as u64;
        let total = start.saturating_add(u64::from(inner)).saturating_add(end);
        capped(total)
    }

    #[inline(always)]
    fn begin<S: EncodeSink>(number: u32, _inner: u32, sink: &mut S) -> Result<(), EncodeError> {
        Tag::new(number, WireType::StartGroup).encode(sink)
    }

    #[inline(always)]
    fn end<S: EncodeSink>(number: u32, sink: &mut S) -> Result<(), EncodeError> {
        Tag::new(number, WireType::EndGroup).encode(sink)
    }

    fn merge<N: Message>(
        alloc: Global,
        message: &mut N,
        number: u32,
        buf: &mut &[u8],
        ctx: DecodeContext<'_>,
    ) -> Result<(), DecodeError> {
        let DecodeContext { depth, budget } = ctx;
        if depth == 0 {
            return Err(DecodeError::RecursionLimitExceeded);
        }
        loop {
            let tag = Tag::decode(buf)?;
            if let WireType::EndGroup = tag.wire_type() {
                if tag.field_number() == number {
                    return Ok(());
                }
                return Err(DecodeError::InvalidEndGroup(tag.field_number()));
            }
            let lent = DecodeContext {
                depth: depth - 1,
                budget: &mut *budget,
            };
            message.merge_field(alloc, tag, buf, lent)?;
        }
    }
}

/// A message that may be absent, as a group. What is read is merged into the message that is there, or into a default
/// one. A refused field neither puts a message there nor takes one away.
///
/// ```ignore
/// visitor.visit::<GroupField<Inventory>>(2, &self.stock); // optional group Stock = 2 { .. }
/// ```
pub type GroupField<N> = MessageIn<Grouped, N>;
