//! Oneofs in messages that hold themselves.

ghost use Rattle.std.specs.Prelude.{◌≡◌, ◌++◌, [], IsOk, List, Ok, ℕ};
ghost use Rattle.buffa_wire.specs.BudgetLeft.{budget_left};
ghost use Rattle.buffa_wire.specs.Encoding.{records_encoding};
ghost use Rattle.buffa_wire.specs.Passes.{IsNext, IsSized, IsWritten};
ghost use Rattle.buffa_fields.specs.Schema.{Comes, Follow, IsCounted, IsPut, Seen, more};
ghost use Rattle.buffa_recursive.specs.OneOfMeaning.{TookByMeaning};
ghost use Rattle.buffa_fields.specs.OneOfParts.{case_means, case_records, case_slots};

use buffa_fields::oneofs::one_of::{OneOf, visit_one_of};
use buffa_fields::passes::sizer::Sizer;
use buffa_fields::passes::visitor::Visitor;
use buffa_fields::passes::writer::Writer;
use buffa_wire::{DecodeContext, DecodeError, EncodeError, EncodeSink, SizeCache, Tag};
use std::alloc::Global;

/// Merges the field whose tag was read into the case of its number, as [`OneOf::take`] does, and says it of what the oneof
/// means: that is what a message has of it that holds itself.
///
/// # Errors
/// Those of [`OneOf::take`].
///
/// ```ignore
/// 8 => take_one_of(&mut self.source, alloc, tag, buf, ctx),
/// ```
#[inline(always)]
pub fn take_one_of<E: OneOf>(
    slot: &mut Option<E>,
    alloc: Global,
    tag: Tag,
    buf: &mut &[u8],
    ctx: DecodeContext<'_>,
) -> Result<(), DecodeError>
    ensures { TookByMeaning E.cases ctx.entry.depth (case_means E.cases slot.old) tag.number tag.wire_type buf.old.now
        ctx.entry.budget.now result (case_means E.cases slot.new) (budget_left ctx.exit) buf.new.now }
{
    E::take(slot, alloc, tag, buf, ctx)
}

// Sizes the case that is there, if one is.
#[inline(always)]
fn size_case<E: OneOf>(part: &Option<E>, sizer: &mut Sizer<'_>)
    requires { sizer.old.total ≡ Ok 0 }
    ensures same_reference { sizer.new.cache.ghost_name ≡ sizer.old.cache.ghost_name }
    ensures sized { IsSized (records_encoding (case_records E.cases part.now)) (case_slots E.cases part.now)
        sizer.old.cache.now sizer.new.total sizer.new.cache.now }
    ensures always { case_slots E.cases part.now ≡ [] → IsOk sizer.new.total }
{
    visit_one_of(part, sizer);
}

// The length of the encoding of the case that is there, if one is, as `Member::len` has it.
fn case_len<E: OneOf>(part: &Option<E>, cache: &mut SizeCache) -> Result<u32, EncodeError>
    ensures sized { IsSized (records_encoding (case_records E.cases part.now)) (case_slots E.cases part.now) cache.old result
        cache.new }
    ensures always { case_slots E.cases part.now ≡ [] → IsOk result }
{
    let mut sizer = Sizer::new(cache);
    size_case(part, &mut sizer);
    sizer.finish()
}

// Adds the length of the case that is there, if one is, to a sum.
#[tactic(auto, using(buffa_fields::specs::facts::SchemaFacts::is_counted, buffa_fields::specs::facts::SchemaFacts::counted_err, buffa_fields::specs::facts::SchemaFacts::counted_none))]
pub(crate) fn case_counted<E: OneOf>(
    total: Result<u32, EncodeError>,
    part: &Option<E>,
    cache: &mut SizeCache,
) -> Result<u32, EncodeError>
    ensures { (name : ℕ) (z : Seen) → IsCounted name total cache.old z →
        IsCounted name result cache.new (more (case_records E.cases part.now) (case_slots E.cases part.now) z) }
{
    let total = total?;
    let len = case_len(part, cache)?;
    Ok(total.saturating_add(len))
}

// Writes the case that is there, if one is, behind what was written.
#[inline(always)]
fn put_case<E: OneOf, S: EncodeSink>(part: &Option<E>, writer: &mut Writer<'_, S>)
    requires fresh { writer.old.result ≡ Ok tt }
    requires next { IsNext (case_slots E.cases part.now) writer.old.cache.now }
    ensures same_sink { writer.new.sink.ghost_name ≡ writer.old.sink.ghost_name }
    ensures same_cache { writer.new.cache.ghost_name ≡ writer.old.cache.ghost_name }
    ensures written { IsWritten (records_encoding (case_records E.cases part.now)) (case_slots E.cases part.now)
        writer.old.cache.now (S.written writer.old.sink.now) writer.new.result writer.new.cache.now
        (S.written writer.new.sink.now) }
{
    visit_one_of(part, writer);
}

// Writes the encoding of the case that is there, if one is, as `Member::write_to` does.
fn write_case<E: OneOf, S: EncodeSink>(
    part: &Option<E>,
    cache: &mut SizeCache,
    sink: &mut S,
) -> Result<(), EncodeError>
    requires { IsNext (case_slots E.cases part.now) cache.old }
    ensures { IsWritten (records_encoding (case_records E.cases part.now)) (case_slots E.cases part.now) cache.old
        (S.written sink.old) result cache.new (S.written sink.new) }
{
    let mut writer = Writer::new(sink, cache);
    put_case(part, &mut writer);
    writer.finish()
}

// Writes it behind what was written, until memory runs out.
#[tactic(auto, using(buffa_fields::specs::facts::SchemaFacts::is_put, buffa_fields::specs::facts::SchemaFacts::put_none, buffa_fields::specs::facts::SchemaFacts::follow_first, buffa_fields::specs::facts::SchemaFacts::follow_rest, buffa_fields::specs::facts::SchemaFacts::follow_none))]
pub(crate) fn case_put<E: OneOf, S: EncodeSink>(
    written: Result<(), EncodeError>,
    part: &Option<E>,
    cache: &mut SizeCache,
    sink: &mut S,
) -> Result<(), EncodeError>
    requires { Comes (λ ss c. Follow ss written c) (case_slots E.cases part.now) cache.old }
    ensures seen { (name of : ℕ) (z : Seen) → IsPut name of (S.written sink.old) cache.old written z →
        IsPut name of (S.written sink.new) cache.new result
        (more (case_records E.cases part.now) (case_slots E.cases part.now) z) }
    ensures waits { (rest : List ℕ) → Follow (case_slots E.cases part.now ++ rest) written cache.old →
        Follow rest result cache.new }
{
    written?;
    write_case(part, cache, sink)
}
