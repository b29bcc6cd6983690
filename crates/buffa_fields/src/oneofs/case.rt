//! Member types that a case of a `oneof` may have.

ghost use Rattle.std.specs.Prelude.{◌≡◌, Bool, Err, IfErr, IfOk, None, Ok, Option, Some, [], IsOk};
ghost use Rattle.buffa_bytes.specs.Number.{IsNumber};
ghost use Rattle.buffa_wire.specs.BudgetLeft.{budget_left};
ghost use Rattle.buffa_wire.specs.Encoding.{records_encoding};
ghost use Rattle.buffa_wire.specs.Passes.{IsNext, IsSized, IsWritten};
ghost use Rattle.buffa_fields.specs.Cases.{CaseWords};
ghost use Rattle.buffa_fields.specs.Schema.{ReadsBackTo, Shape, Took};
ghost use Rattle.buffa_fields.specs.TakenClauses.{meaning_so};

use crate::members::member::Member;
use buffa_wire::{DecodeContext, DecodeError, EncodeError, EncodeSink, SizeCache, Tag};
use std::alloc::Global;
use std::marker::PhantomData;

/// A member type of one value that may be absent: a scalar, a string, bytes, an enum, a message, a group. A case of a
/// `oneof` may have it.
///
/// ```ignore
/// case 2 ⟦<ExplicitField<Str> as Case>⟧.words (
/// ```
pub trait Case: Member<
    Part = Option<<Self as Case>::Value>,
    Meaning = Option<<Self as Case>::Said>,
> {
    /// The value that is there.
    type Value: Drop;

    /// What it means.
    type Said;

    /// How it is read and written: its shape.
    ghost form: { Shape (Option Self.Value) (Option Self.Said) };

    /// Whether what is read is merged into the value that stands, as a message is, or takes its place.
    ghost merges: { Bool };

    /// What it says of values that are there, and of none.
    ghost words: { CaseWords form merges };

    /// The length of the encoding of a value that is there, as [`Member::len`] has it.
    ///
    /// # Errors
    /// Those of [`Member::len`].
    fn value_len(
        number: u32,
        value: &Self::Value,
        cache: &mut SizeCache,
    ) -> Result<u32, EncodeError>
        requires { IsNumber number }
        ensures sized { IsSized (records_encoding (form.records number (form.meaning (Some value.now))))
            (form.slots (form.meaning (Some value.now))) cache.old result cache.new }
        ensures always { form.slots (form.meaning (Some value.now)) ≡ [] → IsOk result };

    /// Writes it, as [`Member::write_to`] does.
    ///
    /// # Errors
    /// [`EncodeError::OutOfMemory`] alone.
    fn write_value<S: EncodeSink>(
        number: u32,
        value: &Self::Value,
        cache: &mut SizeCache,
        sink: &mut S,
    ) -> Result<(), EncodeError>
        requires number { IsNumber number }
        requires next { IsNext (form.slots (form.meaning (Some value.now))) cache.old }
        ensures { IsWritten (records_encoding (form.records number (form.meaning (Some value.now))))
            (form.slots (form.meaning (Some value.now))) cache.old (S.written sink.old) result cache.new
            (S.written sink.new) };

    /// Merges the field whose tag was read into the value that is there, as [`Member::merge`] does.
    ///
    /// # Errors
    /// Those of [`Member::merge`].
    fn merge_value(
        value: &mut Self::Value,
        alloc: Global,
        tag: Tag,
        buf: &mut &[u8],
        ctx: DecodeContext<'_>,
    ) -> Result<(), DecodeError>
        ensures { Took form ctx.entry.depth (Some value.old) tag.number tag.wire_type buf.old.now ctx.entry.budget.now
            result (Some value.new) (budget_left ctx.exit) buf.new.now };

    /// The value that the field whose tag was read makes where none is there.
    ///
    /// # Errors
    /// Those of [`Member::merge`].
    fn read_value(
        alloc: Global,
        tag: Tag,
        buf: &mut &[u8],
        ctx: DecodeContext<'_>,
    ) -> Result<Self::Value, DecodeError>
        ensures ok { IfOk result (λ v. Took form ctx.entry.depth None tag.number tag.wire_type buf.old.now
            ctx.entry.budget.now (Ok tt) (Some v) (budget_left ctx.exit) buf.new.now) }
        ensures err { IfErr result (λ e. Took form ctx.entry.depth None tag.number tag.wire_type buf.old.now
            ctx.entry.budget.now (Err e) None (budget_left ctx.exit) buf.new.now) };

    /// It reads back as the member does.
    ghost back: { ReadsBackTo Self.Member.shape → ReadsBackTo form };
}

/// A value that is there, as a member: the value of a case.
///
/// ```ignore
/// Method::Card(card) => visitor.visit::<Set<ExplicitField<Str>>>(2, card),
/// ```
pub struct Set<C> {
    of: PhantomData<C>,
}

impl<C: Case> Member for Set<C> {
    type Part = C::Value;

    type Meaning = Option<C::Said>;

    ghost shape = { meaning_so (λ v. C.form.meaning (Some v)) C.form };

    #[inline(always)]
    fn len(number: u32, part: &C::Value, cache: &mut SizeCache) -> Result<u32, EncodeError> {
        C::value_len(number, part, cache)
    }

    #[inline(always)]
    fn write_to<S: EncodeSink>(
        number: u32,
        part: &C::Value,
        cache: &mut SizeCache,
        sink: &mut S,
    ) -> Result<(), EncodeError> {
        C::write_value(number, part, cache, sink)
    }

    #[inline(always)]
    #[tactic(auto, unfolding(crate::specs::Schema::AsksAsSaid, crate::specs::Schema::RefusesAsSaid, crate::specs::Schema::TakesAsSaid, crate::specs::Schema::TellsWrongType))]
    fn merge(
        part: &mut C::Value,
        alloc: Global,
        tag: Tag,
        buf: &mut &[u8],
        ctx: DecodeContext<'_>,
    ) -> Result<(), DecodeError> {
        C::merge_value(part, alloc, tag, buf, ctx)
    }

    ghost back = { let owes : ReadsBackTo C.form = C.Case.back C.Member.back in record {
      valid = owes.valid;
      back = owes.back;
      exact = λ exact. record { numbers = (owes.exact exact).numbers; least = (owes.exact exact).least };
    } };
}

/// The encoding of a case's value reads back.
///
/// ```ignore
/// case_reads_back::<ExplicitField<Str>>();
/// ```
#[inline(always)]
pub fn case_reads_back<C: Case>()
    ensures { ReadsBackTo C.form }
{}
