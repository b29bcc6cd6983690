//! How the value of an entry is merged: by its codec, or by a function.

ghost use Rattle.std.specs.Prelude.{◌≡◌, ◌≢◌, ◌+◌, ℕ, Bool, false, refl, IfErr, IfOk, Ok};
ghost use Rattle.buffa_bytes.specs.declared.error.DecodeError.TheVariants.{OutOfMemory};
ghost use Rattle.buffa_bytes.specs.declared.wire_type.WireType.{WireType};
ghost use Rattle.buffa_bytes.specs.declared.wire_type.WireType.TheVariants.{LengthDelimited};
ghost use Rattle.buffa_bytes.specs.Readings.{FullOnlyIf};
ghost use Rattle.buffa_bytes.specs.PayloadValue.{PayloadValue, bytes_in};
ghost use Rattle.buffa_wire.specs.BudgetLeft.{budget_left, nothing};
ghost use Rattle.buffa_wire.specs.Message.{merged_in};
ghost use Rattle.buffa_map.specs.Calls.{MergesMessages};
ghost use Rattle.buffa_map.specs.Codec.{AlwaysDeclared, Reading, RefusesValue, Spends, ReadingTakesMemory, is_known, value_at, value_charge};
ghost use Rattle.buffa_map.specs.Message.{message_reading};
ghost use Rattle.buffa_map.specs.MessageFacts.{merged_known};

use crate::codec::{MapValueDecode, MapValueDecodeStatus};
use crate::message_merge::merge_value_by;
use buffa_wire::{Blank, Budget, Buf, DecodeContext, DecodeError, MessageSpec, WireType};
use std::alloc::Global;
use std::marker::PhantomData;

/// How the value of an entry is merged: [`ByCodec`], or [`ByFunction`] for messages whose type holds itself.
pub trait MergeValue {
    /// The Rust type of the values.
    type Value: Blank;

    /// The wire type of the payloads.
    const WIRE_TYPE: WireType;

    /// Whether a payload may hold a value that a closed enum doesn't declare.
    const MAY_RETURN_UNKNOWN: bool;

    /// The units of element memory that a value costs, besides what is inside a message.
    const COST: usize;

    ghost WIRE_TYPE: { WireType };

    ghost MAY_RETURN_UNKNOWN: { Bool };

    ghost COST: { ℕ };

    /// What a payload makes of a value.
    ghost reading: { Reading Self.Value.Meaning };

    /// At which depths payloads may be merged.
    ghost may: { Self → ℕ → Type 0 };

    /// Merges the payload at the front into the value, at the depth of the context.
    ///
    /// # Errors
    /// Those of [`MapValueDecode::merge`]. Of a message's payload any fault may be returned, an error of a budget only where its
    /// cost isn't left.
    fn merge<B: Buf>(
        &self,
        alloc: Global,
        value: &mut Self::Value,
        buf: &mut B,
        ctx: DecodeContext<'_>,
    ) -> Result<MapValueDecodeStatus, DecodeError>
        requires { may self.now ctx.depth }
        ensures ok { IfOk result (λ s. value_at reading ctx.entry.depth (Self.Value.meaning value.old)
            (B.unread buf.old)
            ≡ Ok ((Self.Value.meaning value.new, is_known s), B.unread buf.new)) }
        ensures fault { IfErr result (λ e. e ≢ OutOfMemory →
            RefusesValue reading.nested reading ctx.entry.depth (Self.Value.meaning value.old) (B.unread buf.old)
            ctx.entry.budget.now e) }
        ensures full { FullOnlyIf result (ReadingTakesMemory reading ctx.entry.depth (B.unread buf.old)) }
        ensures kept { B.beyond buf.new ≡ B.beyond buf.old }
        ensures spends { Spends reading.nested result ctx.entry.budget.now
            (value_charge reading ctx.entry.depth (B.unread buf.old)) (budget_left ctx.exit) };

    /// Plain payloads cost nothing.
    ghost free: { reading.nested ≡ false → (d : ℕ) (c : PayloadValue) → reading.cost d c ≡ nothing };

    /// The reading is of payloads of that wire type.
    ghost wire: { reading.wire ≡ WIRE_TYPE };

    /// The reading starts with the default of the values.
    ghost blank: { reading.blank ≡ Self.Value.blank_is };

    /// Undeclared values come only where that is said.
    ghost declared: { MAY_RETURN_UNKNOWN ≡ false → AlwaysDeclared reading };

    /// The reading says the same of undeclared values.
    ghost undeclared: { reading.undeclared ≡ MAY_RETURN_UNKNOWN };
}

/// The merge by a codec: [`MapValueDecode::merge`].
#[derive(Drop)]
pub struct ByCodec<VC> {
    of: PhantomData<VC>,
}

impl<VC> ByCodec<VC> {
    /// The merge by the codec `VC`. It takes no memory.
    pub fn new() -> ByCodec<VC> {
        ByCodec { of: PhantomData }
    }
}

impl<VC: MapValueDecode> MergeValue for ByCodec<VC> {
    type Value = VC::Value;

    const WIRE_TYPE: WireType = VC::WIRE_TYPE;

    const MAY_RETURN_UNKNOWN: bool = VC::MAY_RETURN_UNKNOWN;

    const COST: usize = VC::COST;

    ghost WIRE_TYPE = { VC.WIRE_TYPE };

    ghost MAY_RETURN_UNKNOWN = { VC.MAY_RETURN_UNKNOWN };

    ghost COST = { VC.COST };

    ghost reading = { VC.reading };

    ghost may = { λ _ _. Unit {0} };

    fn merge<B: Buf>(
        &self,
        alloc: Global,
        value: &mut VC::Value,
        buf: &mut B,
        ctx: DecodeContext<'_>,
    ) -> Result<MapValueDecodeStatus, DecodeError> {
        VC::merge(alloc, value, buf, ctx)
    }

    ghost free = { VC.MapValueDecode.free };

    ghost wire = { VC.MapValueDecode.wire };

    ghost blank = { VC.MapValueDecode.blank };

    ghost declared = { VC.MapValueDecode.declared };

    ghost undeclared = { VC.MapValueDecode.undeclared };
}

/// The merge by a function: it is passed the message, its bytes, the depth inside it, one less than the context's, and
/// the budget.
#[derive(Drop)]
pub struct ByFunction<M, F> {
    pub merge: F,
    of: PhantomData<M>,
}

impl<M, F> ByFunction<M, F> {
    /// The merge by this function. It takes no memory.
    pub fn new(merge: F) -> ByFunction<M, F>
        ensures { result.merge ≡ merge }
    {
        ByFunction {
            merge,
            of: PhantomData,
        }
    }
}

impl<M: MessageSpec, F: Fn(&mut M, &[u8], u32, &mut Budget) -> Result<(), DecodeError>> MergeValue
    for ByFunction<M, F> {
    type Value = M;

    const WIRE_TYPE: WireType = WireType::LengthDelimited;

    const MAY_RETURN_UNKNOWN: bool = false;

    const COST: usize = M::COST;

    ghost WIRE_TYPE = { LengthDelimited };

    ghost MAY_RETURN_UNKNOWN = { false };

    ghost COST = { M.COST };

    ghost reading = { message_reading M.blank_is M.merged M.cost };

    ghost may = { λ by d.
        ((x : _) (b : _) (e : _) (w : _) → e + 1 ≡ d → F.pre by.merge x b e w)
        × MergesMessages (F.post by.merge) M.meaning M.merged M.cost d };

    fn merge<B: Buf>(
        &self,
        alloc: Global,
        value: &mut M,
        buf: &mut B,
        ctx: DecodeContext<'_>,
    ) -> Result<MapValueDecodeStatus, DecodeError> {
        merge_value_by(alloc, value, buf, ctx, &self.merge)?;
        Ok(MapValueDecodeStatus::Known)
    }

    ghost free = { λ no d c. cc };

    ghost wire = { refl };

    ghost blank = { refl };

    ghost declared = { λ _ d old c new known h. merged_known (merged_in M.merged d old (bytes_in c)) new known h };

    ghost undeclared = { refl };
}
