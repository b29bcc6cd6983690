//! How fields hold messages: as a length and so many bytes, or as a group.

ghost use Rattle.std.specs.Prelude.{◌≡◌, ◌≢◌, ◌∷◌, [], ℕ, List, IfErr, length};
ghost use Rattle.buffa_bytes.specs.Readings.{FullOnlyIf};
ghost use Rattle.buffa_bytes.specs.Number.{IsNumber};
ghost use Rattle.buffa_bytes.specs.Written.{Writes};
ghost use Rattle.buffa_bytes.specs.declared.error.DecodeError.TheVariants.{OutOfMemory};
ghost use Rattle.buffa_wire.specs.Encoding.{records_encoding};
ghost use Rattle.buffa_wire.specs.Passes.{cap};
ghost use Rattle.buffa_wire.specs.Records.{FieldData};
ghost use Rattle.buffa_fields.specs.Framing.{Frame, HoldsMessages};
ghost use Rattle.buffa_fields.specs.FramingCalls.{MergesFramed};

use buffa_wire::{
    DecodeContext, DecodeError, EncodeError, EncodeSink, Message, MessageSpec, Tag, WireType,
};
use std::alloc::Global;

/// A framing: how a field holds a message. [`Delimited`](crate::members::message_field::Delimited) is a length and so many bytes,
/// [`Grouped`](crate::members::group_field::Grouped) is a group.
///
/// ```ignore
/// pub type MessageField<N> = MessageIn<Delimited, N>;
/// pub type GroupField<N> = MessageIn<Grouped, N>;
/// ```
pub trait Framing {
    /// How a field holds a message, by the words of `Frame` in `specs/Framing.antt`.
    ghost frame: { Frame };

    /// What these words owe, by `HoldsMessages` beside `Frame`: above all that the record reads back to the message.
    ghost holds: { HoldsMessages frame };

    /// The wire type of a field.
    ///
    /// ```ignore
    /// check_wire_type(tag, F::wire_type())?;
    /// ```
    fn wire_type() -> WireType
        ensures { result ≡ frame.wire };

    /// The length of a field whose message has so many bytes, or 2^32 - 1 where it is more.
    ///
    /// ```ignore
    /// Ok(F::field_len(number, inner))
    /// ```
    fn field_len(number: u32, inner: u32) -> u32
        requires { IsNumber number }
        ensures { (encoding : List ℕ) (rs : List (ℕ × FieldData)) → encoding ≡ records_encoding rs →
            inner ≡ cap (length encoding) → result ≡ cap (length (records_encoding ((number, frame.field_data encoding rs) ∷ []))) };

    /// Writes what stands before a message of so many bytes.
    ///
    /// # Errors
    /// [`EncodeError::OutOfMemory`] alone.
    ///
    /// ```ignore
    /// F::begin(number, inner, sink)?;
    /// ```
    fn begin<S: EncodeSink>(number: u32, inner: u32, sink: &mut S) -> Result<(), EncodeError>
        requires { IsNumber number }
        ensures { Writes result (S.written sink.old) (frame.head number inner) (S.written sink.new) };

    /// Writes what stands behind a message.
    ///
    /// # Errors
    /// [`EncodeError::OutOfMemory`] alone.
    ///
    /// ```ignore
    /// F::end(number, sink)
    /// ```
    fn end<S: EncodeSink>(number: u32, sink: &mut S) -> Result<(), EncodeError>
        requires { IsNumber number }
        ensures { Writes result (S.written sink.old) (frame.tail number) (S.written sink.new) };

    /// Merges the message of a field, whose tag of that number and of the framing's wire type was read.
    ///
    /// # Errors
    /// Those of the bytes and of [`Message::merge_field`], as `Fault` of `frame` says. The message is as it was where no level is left, and where
    /// what has to be there isn't (`There` of `frame`): a length and so many bytes, or the tag of a group's first
    /// field.
    ///
    /// ```ignore
    /// F::merge(alloc, message, tag.field_number(), buf, ctx)
    /// ```
    fn merge<N: Message>(
        alloc: Global,
        message: &mut N,
        number: u32,
        buf: &mut &[u8],
        ctx: DecodeContext<'_>,
    ) -> Result<(), DecodeError>
        ensures taken { MergesFramed frame number ctx.entry ctx.exit message.old message.new buf.old buf.new result N.merged
            N.cost N.meaning }
        ensures fault { IfErr result (λ e. e ≢ OutOfMemory → frame.Fault N.merged N.cost ctx.entry.depth
            (N.meaning message.old) number buf.old.now ctx.entry.budget.now e) }
        ensures full { FullOnlyIf result (frame.asks ctx.entry.depth number frame.wire buf.old.now) }
        ensures level { ctx.entry.depth ≡ 0 → N.meaning message.old ≡ N.meaning message.new }
        ensures stays { (frame.There buf.old.now → ⊥) → N.meaning message.old ≡ N.meaning message.new };
}
