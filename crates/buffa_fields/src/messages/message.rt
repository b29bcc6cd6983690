//! A struct of one's own is a message.

ghost use Rattle.std.specs.Prelude.{◌≡◌, ◌≢◌, [], IfErr, IsOk, Ok, refl};
ghost use Rattle.std.proofs.Common.{ap, ◌∙◌};
ghost use Rattle.buffa_bytes.specs.Readings.{FullOnlyIf};
ghost use Rattle.buffa_wire.specs.Passes.{IsNext, IsSized};
ghost use Rattle.buffa_wire.specs.Encoding.{records_encoding};
ghost use Rattle.buffa_fields.specs.Calls.{MemberTakes, MembersReadBack, MergesIn, WritesMembers};
ghost use Rattle.buffa_fields.specs.facts.SchemaFacts.{comes_free, reads_back};
ghost use Rattle.buffa_fields.specs.RefusedMessage.{IsMemberRefused};
ghost use Rattle.buffa_wire.specs.Takes.{cost_of, merged_of};

use crate::members::member::Member;
use crate::messages::merge::merge_fields;
use crate::messages::message_fields::MessageFields;
use crate::passes::sizer::Sizer;
use crate::passes::visitor::Visitor;
use crate::passes::writer::Writer;
use buffa_wire::{
    Blank, DecodeContext, DecodeError, EncodeError, EncodeSink, MessageMeaning, MessageMethods,
    SizeCache, Tag, UnknownFields, WireType,
};
use std::alloc::Global;

// Sizes all members.
#[inline(always)]
fn size_members<M: MessageFields>(message: &M, sizer: &mut Sizer<'_>)
    requires { sizer.old.total ≡ Ok 0 }
    ensures same_reference { sizer.new.cache.ghost_name ≡ sizer.old.cache.ghost_name }
    ensures sized { IsSized (records_encoding (M.schema.records (M.schema.meaning message.now)))
        (M.schema.slots (M.schema.meaning message.now)) sizer.old.cache.now sizer.new.total sizer.new.cache.now }
    ensures always { M.schema.slots (M.schema.meaning message.now) ≡ [] → IsOk sizer.new.total }
{
    message.visit(sizer);
}

// The size pass of a message by its members.
#[inline(always)]
pub(crate) fn size<M: MessageFields>(message: &M, cache: &mut SizeCache) -> Result<u32, EncodeError>
    ensures sized { IsSized (records_encoding (M.schema.records (M.schema.meaning message.now)))
        (M.schema.slots (M.schema.meaning message.now)) cache.old result cache.new }
    ensures always { M.schema.slots (M.schema.meaning message.now) ≡ [] → IsOk result }
{
    let mut sizer = Sizer::new(cache);
    size_members(message, &mut sizer);
    sizer.finish()
}

// Writes all members.
#[inline(always)]
fn write_members<M: MessageFields, S: EncodeSink>(message: &M, writer: &mut Writer<'_, S>)
    requires fresh { writer.old.result ≡ Ok tt }
    requires next { IsNext (M.schema.slots (M.schema.meaning message.now)) writer.old.cache.now }
    ensures same_sink { writer.new.sink.ghost_name ≡ writer.old.sink.ghost_name }
    ensures same_cache { writer.new.cache.ghost_name ≡ writer.old.cache.ghost_name }
    ensures written { WritesMembers writer.old.cache.now (S.written writer.old.sink.now) writer.new.result
        writer.new.cache.now (S.written writer.new.sink.now) M.schema message.now }
{
    message.visit(writer);
}

// The write pass.
#[inline(always)]
pub(crate) fn write<M: MessageFields, S: EncodeSink>(
    message: &M,
    cache: &mut SizeCache,
    sink: &mut S,
) -> Result<(), EncodeError>
    requires { IsNext (M.schema.slots (M.schema.meaning message.now)) cache.old }
    ensures { WritesMembers cache.old (S.written sink.old) result cache.new (S.written sink.new) M.schema message.now }
{
    let mut writer = Writer::new(sink, cache);
    write_members(message, &mut writer);
    writer.finish()
}

// Merges the field whose tag was read.
#[inline(always)]
fn merge<M: MessageFields>(
    message: &mut M,
    alloc: Global,
    tag: Tag,
    buf: &mut &[u8],
    ctx: DecodeContext<'_>,
) -> Result<(), DecodeError>
    ensures merged { MergesIn tag ctx.entry ctx.exit message.old message.new buf.old buf.new result M.schema.takes
        M.schema.charge M.schema.meaning }
    ensures refused { IfErr result (λ e. IsMemberRefused M.schema ctx.entry.depth (M.schema.meaning message.old) tag.number
        tag.wire_type buf.old.now ctx.entry.budget.now e (M.schema.meaning message.new)) }
    ensures full { FullOnlyIf result (tag.wire_type ≢ WireType.EndGroup) }
    ensures taken { MemberTakes tag ctx.entry ctx.exit message.old message.new buf.old buf.new result M.schema }
{
    message.take(alloc, tag, buf, ctx)
}

/// A struct whose members say what it means, and its default.
///
/// ```ignore
/// impl FieldsMeaning for Inventory { .. }
/// ```
pub trait FieldsMeaning: MessageFields + Blank<Meaning = <Self as MessageFields>::Meaning> {
    /// It means what its members mean.
    ghost means: { (m : Self) → Self.meaning m ≡ Self.schema.meaning m };

    /// So does the default.
    ghost starts: { Self.blank_is ≡ Self.schema.blank };
}

/// The form of messages by their members. With it a struct of one's own is a message:
///
/// ```ignore
/// impl FieldsMeaning for Inventory {
///     ghost means = { λ m. refl };
///
///     ghost starts = { refl };
/// }
///
/// impl MessageImpl for Inventory {
///     type Impl = FieldByField;
/// }
/// ```
pub struct FieldByField;

impl<M: FieldsMeaning> MessageMeaning<M> for FieldByField {
    const COST: usize = <M as MessageFields>::COST;

    ghost COST = { M.COST };

    ghost takes = { M.schema.takes };

    ghost charge = { M.schema.charge };

    ghost merged = { merged_of M.schema.takes };

    ghost cost = { cost_of M.schema.charge };

    ghost records = { M.schema.records };

    ghost slots = { M.schema.slots };

    ghost levels = { M.schema.levels };

    ghost normal = { λ v. M.schema.Owes × M.schema.normal v };

    ghost Refused = { IsMemberRefused M.schema };

    ghost positive = { M.positive };

    ghost stays = { M.schema.stays };

    ghost merged_is = { λ d v b. refl };

    ghost cost_is = { λ d b. refl };

    ghost valid = { λ v normal. M.schema.valid normal.0 M.sound v normal.1 };

    ghost merged_encoding = { λ d v fits normal low.
        ap (λ b. merged_of M.schema.takes d b (records_encoding (M.schema.records v))) M.FieldsMeaning.starts
        ∙ reads_back M.schema normal.0 M.sound d v fits normal.1 low };
}

impl<M: FieldsMeaning> MessageMethods<M> for FieldByField {
    ghost sure = { λ v. M.schema.slots v ≡ [] };

    ghost Taken = { M.schema.Taken };

    /// The size pass, which runs out of memory only where there is a message inside.
    #[inline(always)]
    fn compute_size(message: &M, cache: &mut SizeCache) -> Result<u32, EncodeError>
        ensures sized { IsSized (records_encoding (M.schema.records (M.meaning message.now)))
            (M.schema.slots (M.meaning message.now)) cache.old result cache.new }
        ensures always { M.schema.slots (M.meaning message.now) ≡ [] → IsOk result }
    {
        size(message, cache)
    }

    #[inline(always)]
    fn write_to<S: EncodeSink>(
        message: &M,
        cache: &mut SizeCache,
        sink: &mut S,
    ) -> Result<(), EncodeError> {
        write(message, cache, sink)
    }

    /// The member of the number takes the field; of a refused one it tells the error, and the others stay as they were.
    #[inline(always)]
    fn merge_field(
        message: &mut M,
        alloc: Global,
        tag: Tag,
        buf: &mut &[u8],
        ctx: DecodeContext<'_>,
    ) -> Result<(), DecodeError>
        ensures merged { MergesIn tag ctx.entry ctx.exit message.old message.new buf.old buf.new result M.schema.takes
            M.schema.charge M.meaning }
        ensures refused { IfErr result (λ e. IsMemberRefused M.schema ctx.entry.depth (M.meaning message.old) tag.number
            tag.wire_type buf.old.now ctx.entry.budget.now e (M.meaning message.new)) }
        ensures full { FullOnlyIf result (tag.wire_type ≢ WireType.EndGroup) }
        ensures taken { MemberTakes tag ctx.entry ctx.exit message.old message.new buf.old buf.new result M.schema }
    {
        merge(message, alloc, tag, buf, ctx)
    }

    #[inline(always)]
    fn merge(
        message: &mut M,
        alloc: Global,
        buf: &mut &[u8],
        ctx: DecodeContext<'_>,
    ) -> Result<(), DecodeError> {
        merge_fields(message, alloc, buf, ctx)
    }
}

// Visits members, and does nothing.
#[derive(Drop)]
struct Nothing;

impl Visitor for Nothing {
    ghost IsAt = { λ z v. Unit {0} };

    ghost Waits = { λ ss v. Unit {0} };

    ghost begins = { λ ss rest v h. comes_free ss v };

    fn visit<M: Member>(&mut self, _number: u32, _part: &M::Part) {}

    fn visit_unknown_fields(&mut self, _fields: &UnknownFields) {}
}

/// Each member's encoding reads back.
///
/// ```ignore
/// members_read_back(message);
/// ```
pub fn members_read_back<M: MessageFields>(message: &M)
    ensures { M.schema.Owes }
{
    let mut nothing = Nothing;
    message.visit(&mut nothing);
}

/// The encoding of a message reads back to it: its lengths can be read, each member is normal, and it isn't
/// too deep.
///
/// ```ignore
/// messages_read_back(&message);
/// ```
pub fn messages_read_back<M: FieldsMeaning>(message: &M)
    ensures { MembersReadBack M.schema M.blank_is (M.meaning message.now) }
{
    members_read_back(message);
}
