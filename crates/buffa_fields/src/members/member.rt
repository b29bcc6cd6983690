//! Member types.

ghost use Rattle.std.specs.Prelude.{◌≡◌, [], IsOk};
ghost use Rattle.buffa_wire.specs.BudgetLeft.{budget_left};
ghost use Rattle.buffa_bytes.specs.Number.{IsNumber};
ghost use Rattle.buffa_wire.specs.Passes.{IsNext, IsSized, IsWritten};
ghost use Rattle.buffa_wire.specs.Encoding.{records_encoding};
ghost use Rattle.buffa_fields.specs.TaggedField.{tagged_field};
ghost use Rattle.buffa_fields.specs.Schema.{AsksAsSaid, ReadsBackTo, RefusesAsSaid, Shape, TakesAsSaid, TellsWrongType};

use buffa_wire::{DecodeContext, DecodeError, EncodeError, EncodeSink, SizeCache, Tag};
use std::alloc::Global;

/// A member type: how the value of a member of a message is read and written.
///
/// ```ignore
/// visitor.visit::<ImplicitField<Int32>>(1, &self.total);
/// ```
pub trait Member {
    /// The Rust type of the member.
    ///
    /// ```ignore
    /// type Part = Vec<C::Value>;
    /// ```
    type Part: Drop;

    /// What its value means, a type for contracts.
    ///
    /// ```ignore
    /// type Meaning = [And<<KC::Value as Blank>::Meaning, <VC::Value as Blank>::Meaning>; 0];
    /// ```
    type Meaning;

    /// How it is read and written, by the words of `Shape` in `specs/Schema.antt`.
    ghost shape: { Shape Self.Part Self.Meaning };

    /// The length of its encoding under a number, or 2^32 - 1 where it is more. The value's slots are
    /// appended.
    ///
    /// # Errors
    /// [`EncodeError::OutOfMemory`] alone, never for a value with no slots.
    fn len(number: u32, part: &Self::Part, cache: &mut SizeCache) -> Result<u32, EncodeError>
        requires { IsNumber number }
        ensures sized { IsSized (records_encoding (shape.records number (shape.meaning part.now)))
            (shape.slots (shape.meaning part.now)) cache.old result cache.new }
        ensures always { shape.slots (shape.meaning part.now) ≡ [] → IsOk result };

    /// Writes its encoding, and consumes the value's slots, which have to be next.
    ///
    /// # Errors
    /// [`EncodeError::OutOfMemory`] alone.
    fn write_to<S: EncodeSink>(
        number: u32,
        part: &Self::Part,
        cache: &mut SizeCache,
        sink: &mut S,
    ) -> Result<(), EncodeError>
        requires number { IsNumber number }
        requires next { IsNext (shape.slots (shape.meaning part.now)) cache.old }
        ensures { IsWritten (records_encoding (shape.records number (shape.meaning part.now)))
            (shape.slots (shape.meaning part.now)) cache.old (S.written sink.old) result cache.new
            (S.written sink.new) };

    /// Merges the field whose tag was read.
    ///
    /// # Errors
    /// [`DecodeError::WireTypeMismatch`] where the field is of no wire type that the member takes, which is then as it
    /// was, and the field unread; and [`DecodeError::OutOfMemory`] only where the member may ask for memory.
    ///
    /// ```ignore
    /// 1 => ImplicitField::<Int32>::merge(&mut self.total, alloc, tag, buf, ctx),
    /// ```
    fn merge(
        part: &mut Self::Part,
        alloc: Global,
        tag: Tag,
        buf: &mut &[u8],
        ctx: DecodeContext<'_>,
    ) -> Result<(), DecodeError>
        // Accepted, its payload makes the value what `shape.takes` says, and `shape.charge` is spent; refused, at most that.
        ensures taken { TakesAsSaid shape (tagged_field tag ctx.entry buf.old) part.old result part.new
            (budget_left ctx.exit) buf.new.now }
        // Memory runs out only where `shape.asks` says that some may be asked for.
        ensures memory { AsksAsSaid shape (tagged_field tag ctx.entry buf.old) result }
        // A fault that `shape.checks` finds is told; then nothing has changed, and the field is unread.
        ensures wrong_type { TellsWrongType shape (tagged_field tag ctx.entry buf.old) part.old result part.new buf.new.now }
        // Of the error, and of what stands then, `shape.refuses` says what it may be.
        ensures refused { RefusesAsSaid shape (tagged_field tag ctx.entry buf.old) part.old result part.new };

    /// The encoding reads back, and the value nests exactly as deep as it says, where the messages in it do.
    ghost back: { ReadsBackTo shape };
}
