//! The codec of messages.

ghost use Rattle.std.specs.Prelude.{false, refl};
ghost use Rattle.buffa_bytes.specs.declared.wire_type.WireType.TheVariants.{LengthDelimited};
ghost use Rattle.buffa_wire.specs.Message.{merged_in};
ghost use Rattle.buffa_bytes.specs.PayloadValue.{bytes_in};
ghost use Rattle.buffa_map.specs.Message.{message_reading};
ghost use Rattle.buffa_map.specs.MessageFacts.{merged_known, merged_no_limit};

use crate::codec::sealed::Sealed;
use crate::codec::{MapValueDecode, MapValueDecodeStatus};
use buffa_wire::{Buf, DecodeContext, DecodeError, Message, WireType};
use std::alloc::Global;
use std::marker::PhantomData;

/// A message: a length and so many bytes, which are merged into the value that is there, one level down. In an entry that is the
/// entry's own value, blank at first, and not the map's.
///
/// ```ignore
/// read_map_field::<Int32, Msg<TestMsg>, _, _>(alloc, &mut map, 5, &mut rest, ctx, None)?;
/// ```
pub struct Msg<M> {
    of: PhantomData<M>,
}

impl<M: Message> Sealed for Msg<M> {}

impl<M: Message> MapValueDecode for Msg<M> {
    type Value = M;

    const WIRE_TYPE: WireType = WireType::LengthDelimited;

    const MAY_RETURN_UNKNOWN: bool = false;

    const COST: usize = M::COST;

    ghost WIRE_TYPE = { LengthDelimited };

    ghost MAY_RETURN_UNKNOWN = { false };

    ghost COST = { M.COST };

    ghost reading = { message_reading M.blank_is M.merged M.cost };

    fn merge<B: Buf>(
        alloc: Global,
        value: &mut M,
        buf: &mut B,
        ctx: DecodeContext<'_>,
    ) -> Result<MapValueDecodeStatus, DecodeError> {
        value.merge_length_delimited(alloc, buf, ctx)?;
        Ok(MapValueDecodeStatus::Known)
    }

    ghost free = { λ no d c. cc };

    ghost no_limit = { λ d old c x h. merged_no_limit (merged_in M.merged d old (bytes_in c)) x h };

    ghost wire = { refl };

    ghost blank = { refl };

    ghost declared = { λ _ d old c new known h. merged_known (merged_in M.merged d old (bytes_in c)) new known h };

    ghost undeclared = { refl };
}
