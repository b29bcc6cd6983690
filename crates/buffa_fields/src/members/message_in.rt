//! Members that are messages, in any framing.

ghost use Rattle.std.specs.Prelude.{None, ◌≡◌, ◌∷◌, [], length, true, refl};
ghost use Rattle.std.specs.Option.{option_map};
ghost use Rattle.buffa_bytes.specs.Number.{IsNumber};
ghost use Rattle.buffa_bytes.specs.Readings.{check_wire, FullOnlyIf};
ghost use Rattle.buffa_wire.specs.Passes.{IsNext, IsSized, cap};
ghost use Rattle.buffa_wire.specs.Encoding.{records_encoding};
ghost use Rattle.buffa_wire.proofs.ByPayloadLemmas.{by_payload, merged_fields};
ghost use Rattle.buffa_fields.specs.Calls.{ChecksWire, TakesIn};
ghost use Rattle.buffa_fields.specs.facts.CasesFacts.{never};
ghost use Rattle.buffa_fields.specs.Framing.{Messages, cost_as, field_data_of_value, taken_as};
ghost use Rattle.buffa_fields.specs.FramingCalls.{WritesFramed};
ghost use Rattle.buffa_fields.specs.facts.FramingFacts.{one_stays, there_back, there_least, there_valid};
ghost use Rattle.buffa_fields.specs.facts.LevelKindFacts.{explicit_numbers};
ghost use Rattle.buffa_fields.specs.Levels.{AreExactLevels};
ghost use Rattle.buffa_fields.specs.MemberRecords.{explicit_records};
ghost use Rattle.buffa_fields.specs.Submessages.{message_levels, message_slots, or_blank, taken_there};
ghost use Rattle.buffa_fields.specs.Refusals.{LeavesUnless, RefusesTaggedField, RefusesThere, TellsTaggedFault};
ghost use Rattle.buffa_fields.specs.Values.{IfThere};

use crate::members::framing::Framing;
use crate::members::member::Member;
use crate::oneofs::case::Case;
use buffa_wire::{
    Blank, DecodeContext, DecodeError, EncodeError, EncodeSink, Message, MessageSpec, SizeCache,
    Tag, check_wire_type,
};
use std::alloc::Global;
use std::marker::PhantomData;

// The length of a message's field. Its own length, and then its slots, are appended to the cache. A group, whose length
// isn't written, has a slot for it too: a size pass may run out of memory only where there is a slot.
pub(crate) fn message_len<F: Framing, N: Message>(
    number: u32,
    message: &N,
    cache: &mut SizeCache,
) -> Result<u32, EncodeError>
    requires { IsNumber number }
    ensures { let v = N.meaning message.now in
        IsSized (records_encoding ((number, field_data_of_value F.frame N.encoding N.records v) ∷ []))
        (cap (length (N.encoding v)) ∷ N.slots v) cache.old result cache.new }
{
    let slot = cache.reserve()?;
    let inner = message.compute_size(cache)?;
    cache.set(slot, inner);
    Ok(F::field_len(number, inner))
}

// Writes a message's field; the message's length is in the next slot.
pub(crate) fn write_message<F: Framing, N: Message, S: EncodeSink>(
    number: u32,
    message: &N,
    cache: &mut SizeCache,
    sink: &mut S,
) -> Result<(), EncodeError>
    requires number { IsNumber number }
    requires next { let v = N.meaning message.now in IsNext (cap (length (N.encoding v)) ∷ N.slots v) cache.old }
    ensures { WritesFramed cache.old (S.written sink.old) result cache.new (S.written sink.new)
        (field_data_of_value F.frame N.encoding N.records) N.encoding N.slots number (N.meaning message.now) }
{
    let inner = cache.consume_next();
    F::begin(number, inner, sink)?;
    message.write_to(cache, sink)?;
    F::end(number, sink)
}

// Merges the message of the field whose tag was read.
fn take_message<F: Framing, N: Message>(
    alloc: Global,
    message: &mut N,
    tag: Tag,
    buf: &mut &[u8],
    ctx: DecodeContext<'_>,
) -> Result<(), DecodeError>
    ensures taken { TakesIn tag ctx.entry ctx.exit message.old message.new buf.old buf.new result
        (taken_as F.frame.wire (F.frame.makes N.merged)) (cost_as F.frame.wire (F.frame.cost N.cost)) N.meaning }
    ensures full { FullOnlyIf result (F.frame.asks ctx.entry.depth tag.number tag.wire_type buf.old.now) }
    ensures wire { ChecksWire tag F.frame.wire result (N.meaning message.old) (N.meaning message.new) buf.old buf.new }
    ensures refused { RefusesTaggedField (LeavesUnless F.frame.wire F.frame.There) tag ctx.entry.depth
        (N.meaning message.old) (N.meaning message.new) buf.old result }
    ensures fault { TellsTaggedFault F.frame.wire (F.frame.Fault N.merged N.cost ctx.entry.depth (N.meaning message.old)
        tag.number buf.old.now ctx.entry.budget.now) tag result }
{
    check_wire_type(tag, F::wire_type())?;
    F::merge(alloc, message, tag.field_number(), buf, ctx)
}

/// A message that may be absent, in a framing. What is read is merged into the message that is there, or into a default
/// one. A refused field neither puts a message there nor takes one away.
///
/// ```ignore
/// pub type MessageField<N> = MessageIn<Delimited, N>;
/// ```
pub struct MessageIn<F, N> {
    framing: PhantomData<F>,
    of: PhantomData<N>,
}

impl<F: Framing, N: Message> Member for MessageIn<F, N> {
    type Part = Option<N>;

    type Meaning = Option<<N as Blank>::Meaning>;

    ghost shape = { record {
      whole = true;
      meaning = λ p. option_map N.meaning p;
      blank = None;
      takes = taken_there N.blank_is (taken_as F.frame.wire (F.frame.makes N.merged));
      checks = λ n w. check_wire n F.frame.wire w;
      refuses = RefusesThere F.frame.wire F.frame.There
          (λ d old n bs left e. F.frame.Fault N.merged N.cost d (or_blank N.blank_is old) n bs left e);
      asks = F.frame.asks;
      charge = cost_as F.frame.wire (F.frame.cost N.cost);
      records = explicit_records (field_data_of_value F.frame N.encoding N.records);
      slots = message_slots N.encoding N.slots;
      levels = message_levels N.levels;
      Exact = AreExactLevels N.merged N.encoding N.records N.normal N.levels;
      normal = λ v. IfThere (λ x. F.frame.Normal (N.normal x) (N.records x)) v;
      stays = one_stays F.frame F.holds N.cost;
    } };

    #[tactic(auto, using(crate::specs::facts::SchemaFacts::sized_free), unfolding(crate::specs::MemberRecords::explicit_records, crate::specs::Submessages::message_slots))]
    fn len(number: u32, part: &Option<N>, cache: &mut SizeCache) -> Result<u32, EncodeError> {
        match part {
            None => Ok(0),
            Some(message) => message_len::<F, N>(number, message, cache),
        }
    }

    #[tactic(auto, using(buffa_wire::proofs::PassLemmas::written_none), unfolding(crate::specs::MemberRecords::explicit_records, crate::specs::Submessages::message_slots))]
    fn write_to<S: EncodeSink>(
        number: u32,
        part: &Option<N>,
        cache: &mut SizeCache,
        sink: &mut S,
    ) -> Result<(), EncodeError> {
        match part {
            None => Ok(()),
            Some(message) => write_message::<F, N, S>(number, message, cache, sink),
        }
    }

    fn merge(
        part: &mut Option<N>,
        alloc: Global,
        tag: Tag,
        buf: &mut &[u8],
        ctx: DecodeContext<'_>,
    ) -> Result<(), DecodeError> {
        match part {
            Some(message) => take_message::<F, N>(alloc, message, tag, buf, ctx),
            None => {
                let mut message = N::blank(alloc);
                take_message::<F, N>(alloc, &mut message, tag, buf, ctx)?;
                *part = Some(message);
                Ok(())
            }
        }
    }

    ghost back = { let m : Messages N.Meaning = record {
      merged = N.merged;
      blank = N.blank_is;
      encoding = N.encoding;
      records = N.records;
      levels = N.levels;
      normal = N.normal;
      as_records = N.MessageSpec.encoding_records;
      fields = merged_fields (by_payload N.MessageSpec.stays N.MessageSpec.merged_is N.MessageSpec.cost_is);
      valid = N.MessageSpec.valid;
      back = N.MessageSpec.merged_encoding;
    } in record {
      valid = there_valid F.frame F.holds m;
      back = there_back F.frame F.holds m;
      exact = λ exact. record {
        numbers = explicit_numbers (field_data_of_value F.frame N.encoding N.records);
        least = there_least F.frame F.holds m exact;
      };
    } };
}

/// A case of a `oneof`: what is read is merged into the message, where this case stands.
impl<F: Framing, N: Message> Case for MessageIn<F, N> {
    type Value = N;

    type Said = <N as Blank>::Meaning;

    ghost form = { ⟦<MessageIn<F, N> as Member>⟧.shape };

    ghost merges = { true };

    ghost words = { record {
      there = λ p. (N.meaning p, refl);
      absent = refl;
      blank = refl;
      alone = λ is d v n w p. never is;
    } };

    #[tactic(auto, unfolding(crate::specs::MemberRecords::explicit_records, crate::specs::Submessages::message_slots))]
    fn value_len(number: u32, value: &N, cache: &mut SizeCache) -> Result<u32, EncodeError> {
        message_len::<F, N>(number, value, cache)
    }

    #[tactic(auto, unfolding(crate::specs::MemberRecords::explicit_records, crate::specs::Submessages::message_slots))]
    fn write_value<S: EncodeSink>(
        number: u32,
        value: &N,
        cache: &mut SizeCache,
        sink: &mut S,
    ) -> Result<(), EncodeError> {
        write_message::<F, N, S>(number, value, cache, sink)
    }

    fn merge_value(
        value: &mut N,
        alloc: Global,
        tag: Tag,
        buf: &mut &[u8],
        ctx: DecodeContext<'_>,
    ) -> Result<(), DecodeError> {
        take_message::<F, N>(alloc, value, tag, buf, ctx)
    }

    fn read_value(
        alloc: Global,
        tag: Tag,
        buf: &mut &[u8],
        ctx: DecodeContext<'_>,
    ) -> Result<N, DecodeError> {
        let mut message = N::blank(alloc);
        take_message::<F, N>(alloc, &mut message, tag, buf, ctx)?;
        Ok(message)
    }

    ghost back = { λ owes. owes };
}
