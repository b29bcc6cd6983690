//! Codecs: how the keys and values of a map field are read and written.

ghost use Rattle.std.specs.Prelude.{◌≡◌, ◌≢◌, ℕ, Bool, Option, Some, false, true, length, Ok, Err, IfErr, IfOk, IsOk, OnErr};
ghost use Rattle.buffa_bytes.specs.declared.error.DecodeError.TheVariants.{OutOfMemory};
ghost use Rattle.buffa_bytes.specs.declared.wire_type.WireType.{WireType};
ghost use Rattle.buffa_bytes.specs.Readings.{FullOnlyIf};
ghost use Rattle.buffa_bytes.specs.Unread.{LeavesUnlessFull, past_no_payload, past_no_delimited, IsTailOf};
ghost use Rattle.buffa_bytes.specs.PayloadValue.{PayloadValue, HasPayloadValue};
ghost use Rattle.buffa_wire.specs.BudgetLeft.{budget_left, nothing, IsLimit};
ghost use Rattle.buffa_bytes.specs.Written.{UsesRoom, Writes};
ghost use Rattle.buffa_bytes.specs.declared.error.DecodeError.{DecodeError};
ghost use Rattle.buffa_map.specs.Codec.{AlwaysDeclared, HoldsNothing, IsWhole, Reading, RefusesValue, Spends, ReadingTakesMemory, Writing, is_known, level, value_at, value_charge};

use buffa_wire::{Blank, Buf, DecodeContext, DecodeError, EncodeError, EncodeSink, WireType};
use std::alloc::Global;

pub(crate) mod sealed {
    /// The codecs are the scalars of `buffa_wire` and the types of this crate. How the wire spells a value is nothing that
    /// another crate can choose: its messages, enums, strings and bytes go through `Msg`, `OpenEnum`, `ClosedEnum`,
    /// `ProtoStringMap` and `ProtoBytesMap`.
    pub trait Sealed {}
}

/// Whether a payload held a declared value.
///
/// ```ignore
/// assert!(rt; status == MapValueDecodeStatus::Known);
/// ```
#[derive(Clone, Copy, Debug, PartialEq, Eq)]
#[non_exhaustive]
pub enum MapValueDecodeStatus {
    /// The value is taken.
    Known,
    /// A number that a closed enum doesn't declare; the value is as it was.
    Unknown,
}

/// How the payloads of one proto type are read.
///
/// ```ignore
/// let status = <ClosedEnum<Old> as MapValueDecode>::merge(alloc, &mut value, &mut rest, ctx)?;
/// ```
pub trait MapValueDecode: sealed::Sealed {
    /// The Rust type of the values.
    ///
    /// ```ignore
    /// type Value = Bytes;
    /// ```
    type Value: Blank;

    /// The wire type of the payloads.
    ///
    /// ```ignore
    /// assert!(rt; <ClosedEnum<Old> as MapValueDecode>::WIRE_TYPE == WireType::Varint);
    /// ```
    const WIRE_TYPE: WireType;

    /// Whether a payload may hold a value that is undeclared: of closed enums alone.
    ///
    /// ```ignore
    /// assert!(rt; <ClosedEnum<Old> as MapValueDecode>::MAY_RETURN_UNKNOWN);
    /// ```
    const MAY_RETURN_UNKNOWN: bool;

    /// The units of element memory that a value costs, besides what is inside a message.
    ///
    /// ```ignore
    /// assert!(rt; <Int32 as MapValueDecode>::COST > 0);
    /// ```
    const COST: usize;

    ghost WIRE_TYPE: { WireType };

    ghost MAY_RETURN_UNKNOWN: { Bool };

    ghost COST: { ℕ };

    /// What a payload makes of a value.
    ghost reading: { Reading Self.Value.Meaning };

    /// Reads the payload at the front into the value.
    ///
    /// # Errors
    /// The first fault of the payload; or out of memory, where the codec takes memory and the payload is whole and not
    /// empty. The value is as it was then, and nothing is spent. Of a fault unread is what follows the tenth byte of a
    /// varint, or all where four or eight bytes were asked for; of a length and bytes what follows the bytes, or the
    /// length where it passes the end. Where memory runs out it is that or more.
    ///
    /// Inside a message any error may be returned, but a limit's only where the message's cost isn't left; at most
    /// that cost is spent then, and the value is some value of its type.
    ///
    /// ```ignore
    /// let status = <ClosedEnum<Old> as MapValueDecode>::merge(alloc, &mut value, &mut rest, ctx)?;
    /// ```
    fn merge<B: Buf>(
        alloc: Global,
        value: &mut Self::Value,
        buf: &mut B,
        ctx: DecodeContext<'_>,
    ) -> Result<MapValueDecodeStatus, DecodeError>
        ensures ok { IfOk result (λ s. value_at reading ctx.entry.depth (Self.Value.meaning value.old)
            (B.unread buf.old) ≡ Ok ((Self.Value.meaning value.new, is_known s), B.unread buf.new)) }
        ensures fault { IfErr result (λ e. e ≢ OutOfMemory →
            RefusesValue reading.nested reading ctx.entry.depth (Self.Value.meaning value.old) (B.unread buf.old)
            ctx.entry.budget.now e) }
        ensures full { FullOnlyIf result (ReadingTakesMemory reading ctx.entry.depth (B.unread buf.old)) }
        ensures err { OnErr result (reading.nested ≡ false → Self.Value.meaning value.new
            ≡ Self.Value.meaning value.old) }
        ensures outside { OnErr result ((IsWhole reading ctx.entry.depth (B.unread buf.old) → ⊥) →
            Self.Value.meaning value.new ≡ Self.Value.meaning value.old) }
        ensures level { OnErr result (level reading.nested ctx.entry.depth ≢ Ok tt → B.unread buf.new
            ≡ B.unread buf.old) }
        ensures empty { HoldsNothing reading ctx.entry.depth (B.unread buf.old) → IsOk result }
        ensures left { reading.takes_memory ≡ true → level reading.nested ctx.entry.depth ≡ Ok tt →
            LeavesUnlessFull result (past_no_delimited (B.unread buf.old)) (B.unread buf.new) }
        ensures past { reading.nested ≡ false → reading.takes_memory ≡ false →
            OnErr result (B.unread buf.new ≡ past_no_payload reading.wire (B.unread buf.old)) }
        ensures kept { B.beyond buf.new ≡ B.beyond buf.old }
        ensures tail { IsTailOf (B.unread buf.new) (B.unread buf.old) }
        ensures spends { Spends reading.nested result ctx.entry.budget.now
            (value_charge reading ctx.entry.depth (B.unread buf.old)) (budget_left ctx.exit) };

    /// Plain payloads cost nothing.
    ghost free: { reading.nested ≡ false → (d : ℕ) (c : PayloadValue) → reading.cost d c ≡ nothing };

    /// No fault that the reading has is a budget's.
    ghost no_limit: { (d : ℕ) (old : Self.Value.Meaning) (c : PayloadValue) (x : DecodeError) → reading.reads d old c
        ≡ Err x → IsLimit x → ⊥ };

    /// The reading is of payloads of that wire type.
    ghost wire: { reading.wire ≡ WIRE_TYPE };

    /// The reading starts with the default of the values.
    ghost blank: { reading.blank ≡ Self.Value.blank_is };

    /// Undeclared values come only where that is said.
    ghost declared: { MAY_RETURN_UNKNOWN ≡ false → AlwaysDeclared reading };

    /// The reading says the same of undeclared values.
    ghost undeclared: { reading.undeclared ≡ MAY_RETURN_UNKNOWN };
}

/// How the payloads of one proto type are read and written.
///
/// ```ignore
/// let len = <Int32 as MapCodec>::encoded_len(&300); // 2
/// <Int32 as MapCodec>::encode(&300, &mut sink)?; // AC 02
/// ```
pub trait MapCodec: MapValueDecode {
    /// The length of every encoding in bytes, where they have one length.
    ///
    /// ```ignore
    /// assert!(rt; <Int32 as MapCodec>::FIXED_LEN == None);
    /// ```
    const FIXED_LEN: Option<u64>;

    ghost FIXED_LEN: { Option ℕ };

    /// How a value is written.
    ghost writing: { Writing Self.Value.Meaning };

    /// What the type holds: each value means something of this.
    ghost fits: { Self.Value.Meaning → Type 0 };

    /// The values whose encoding reads back to them; all, but for an open enum.
    ghost normal: { Self.Value.Meaning → Type 0 };

    /// The length of the encoding in bytes, a length varint of its own included and the tag not. It takes no
    /// memory.
    ///
    /// ```ignore
    /// let len = <Int32 as MapCodec>::encoded_len(&300); // 2
    /// ```
    fn encoded_len(value: &Self::Value) -> u64
        ensures len { result ≡ length (writing.encoding (Self.Value.meaning value.now)) }
        ensures fits { fits (Self.Value.meaning value.now) };

    /// Writes the encoding.
    ///
    /// # Errors
    /// [`EncodeError::OutOfMemory`] alone, where the encoding doesn't fit for sure; after a beginning of it.
    ///
    /// ```ignore
    /// <Int32 as MapCodec>::encode(&300, &mut sink)?; // AC 02
    /// ```
    fn encode<S: EncodeSink>(value: &Self::Value, sink: &mut S) -> Result<(), EncodeError>
        ensures writes { Writes result (S.written sink.old) (writing.encoding (Self.Value.meaning value.now))
            (S.written sink.new) }
        ensures room { UsesRoom result (S.room sink.old) (writing.encoding (Self.Value.meaning value.now))
            (S.room sink.new) };

    /// What is written here is no message.
    ghost plain: { Self.reading.nested ≡ false };

    /// Payloads are written with the wire type that they are read with.
    ghost written_wire: { writing.wire ≡ Self.WIRE_TYPE };

    /// An encoding reads back to its value, whatever stood before, and as a declared one.
    ghost reads_back: { (d : ℕ) (old v : Self.Value.Meaning) → fits v → normal v →
        (c : PayloadValue) × HasPayloadValue writing.wire (writing.encoding v) c × (Self.reading.reads d old c ≡ Ok (v, true)) };

    /// The default is normal.
    ghost blank_normal: { normal Self.Value.blank_is };

    /// What is read is normal, where what stood was, so that what a map took in is written and read back.
    ghost stays_normal: { (d : ℕ) (old : Self.Value.Meaning) (c : PayloadValue) (new : Self.Value.Meaning)
        (known : Bool) → normal old → Self.reading.reads d old c ≡ Ok (new, known) → normal new };

    /// The fixed length is that of every encoding.
    ghost fixed: { (n : ℕ) → FIXED_LEN ≡ Some n → (v : Self.Value.Meaning) → length (writing.encoding v) ≡ n };
}
