//! Members that are lists of messages, in any framing.

ghost use Rattle.std.specs.Prelude.{[], ◌≡◌, IsOk, map, true};
ghost use Rattle.std.specs.List.{AllByRecursion};
ghost use Rattle.buffa_bytes.specs.Number.{IsNumber};
ghost use Rattle.buffa_bytes.specs.Readings.{check_wire, FullOnlyIf};
ghost use Rattle.buffa_wire.specs.Passes.{IsNext, IsSized};
ghost use Rattle.buffa_wire.specs.Encoding.{records_encoding};
ghost use Rattle.buffa_wire.proofs.ByPayloadLemmas.{by_payload, merged_fields};
ghost use Rattle.buffa_fields.specs.Calls.{ChecksWire, TakesIn};
ghost use Rattle.buffa_fields.specs.Framing.{Messages, field_data_of_value, each_cost_as, taken_as};
ghost use Rattle.buffa_fields.specs.FramingCalls.{WritesAllFramed};
ghost use Rattle.buffa_fields.specs.facts.FramingFacts.{behind_back, behind_least, each_stays, behind_valid};
ghost use Rattle.buffa_fields.specs.facts.LevelKindFacts.{element_numbers};
ghost use Rattle.buffa_fields.specs.Levels.{AreExactLevels};
ghost use Rattle.buffa_fields.specs.Lists.{element_records};
ghost use Rattle.buffa_fields.specs.Submessages.{taken_behind};
ghost use Rattle.buffa_fields.specs.RepeatedMessages.{messages_levels, messages_slots};
ghost use Rattle.buffa_fields.specs.Refusals.{RefusesNew, RefusesTaggedField, UnderAny};

use crate::members::framing::Framing;
use crate::members::member::Member;
use crate::members::message_in::{message_len, write_message};
use buffa_wire::{
    Blank, DecodeContext, DecodeError, EncodeError, EncodeSink, Message, MessageSpec, SizeCache,
    Tag, check_wire_type,
};
use std::alloc::Global;
use std::marker::PhantomData;

// Merges the message of the field whose tag was read, which costs what an element does.
fn take_charged<F: Framing, N: Message>(
    alloc: Global,
    message: &mut N,
    tag: Tag,
    buf: &mut &[u8],
    ctx: DecodeContext<'_>,
) -> Result<(), DecodeError>
    ensures taken { TakesIn tag ctx.entry ctx.exit message.old message.new buf.old buf.new result
        (taken_as F.frame.wire (F.frame.makes N.merged)) (each_cost_as F.frame.wire N.COST (F.frame.cost N.cost))
        N.meaning }
    ensures full { FullOnlyIf result (F.frame.asks ctx.entry.depth tag.number tag.wire_type buf.old.now) }
    ensures wire { ChecksWire tag F.frame.wire result (N.meaning message.old) (N.meaning message.new) buf.old buf.new }
{
    check_wire_type(tag, F::wire_type())?;
    let DecodeContext { depth, budget } = ctx;
    budget.take_memory(N::COST)?;
    let lent = DecodeContext {
        depth,
        budget: &mut *budget,
    };
    F::merge(alloc, message, tag.field_number(), buf, lent)
}

// Merges the message of the field whose tag was read into a default one, and puts it behind the others.
fn take_element<F: Framing, N: Message>(
    alloc: Global,
    messages: &mut Vec<N>,
    tag: Tag,
    buf: &mut &[u8],
    ctx: DecodeContext<'_>,
) -> Result<(), DecodeError>
    ensures taken { TakesIn tag ctx.entry ctx.exit messages.old messages.new buf.old buf.new result
        (taken_behind N.blank_is (taken_as F.frame.wire (F.frame.makes N.merged)))
        (each_cost_as F.frame.wire N.COST (F.frame.cost N.cost)) (λ vs. map N.meaning vs.items) }
    ensures full { FullOnlyIf result (F.frame.asks_new ctx.entry.depth tag.number tag.wire_type buf.old.now) }
    ensures wire { ChecksWire tag F.frame.wire result (map N.meaning messages.old.items)
        (map N.meaning messages.new.items) buf.old buf.new }
    ensures refused { RefusesTaggedField RefusesNew tag ctx.entry.depth (map N.meaning messages.old.items)
        (map N.meaning messages.new.items) buf.old result }
{
    let mut message = N::blank(alloc);
    take_charged::<F, N>(alloc, &mut message, tag, buf, ctx)?;
    Ok(messages.push(message)?)
}

// The length of the fields of messages, or 2^32 - 1 where it is more. The slots of each are appended to the cache.
fn messages_len<F: Framing, N: Message>(
    number: u32,
    messages: &[N],
    cache: &mut SizeCache,
) -> Result<u32, EncodeError>
    requires { IsNumber number }
    ensures sized { let vs = map N.meaning messages.now in
        IsSized (records_encoding (element_records (field_data_of_value F.frame N.encoding N.records) number vs))
        (messages_slots N.encoding N.slots vs) cache.old result cache.new }
    ensures always { messages_slots N.encoding N.slots (map N.meaning messages.now) ≡ [] → IsOk result }
{
    let mut total: u32 = 0;
    for message in messages {
        let len = message_len::<F, N>(number, message, cache)?;
        total = total.saturating_add(len);
    }
    Ok(total)
}

// Writes a field for each message, whose slots are next.
fn write_messages<F: Framing, N: Message, S: EncodeSink>(
    number: u32,
    messages: &[N],
    cache: &mut SizeCache,
    sink: &mut S,
) -> Result<(), EncodeError>
    requires number { IsNumber number }
    requires next { IsNext (messages_slots N.encoding N.slots (map N.meaning messages.now)) cache.old }
    ensures { WritesAllFramed cache.old (S.written sink.old) result cache.new (S.written sink.new)
        (field_data_of_value F.frame N.encoding N.records) N.encoding N.slots number (map N.meaning messages.now) }
{
    for message in messages {
        write_message::<F, N, S>(number, message, cache, sink)?;
    }
    Ok(())
}

/// A list of messages, in a framing: each field is a new element, which costs its type's units of element memory, and what
/// is in it.
///
/// ```ignore
/// pub type RepeatedMessageField<N> = MessagesIn<Delimited, N>;
/// ```
pub struct MessagesIn<F, N> {
    framing: PhantomData<F>,
    of: PhantomData<N>,
}

impl<F: Framing, N: Message> Member for MessagesIn<F, N> {
    type Part = Vec<N>;

    type Meaning = [<N as Blank>::Meaning; 0];

    ghost shape = { record {
      whole = true;
      meaning = λ p. map N.meaning p.items;
      blank = [];
      takes = taken_behind N.blank_is (taken_as F.frame.wire (F.frame.makes N.merged));
      checks = λ n w. check_wire n F.frame.wire w;
      refuses = UnderAny RefusesNew;
      asks = F.frame.asks_new;
      charge = each_cost_as F.frame.wire N.COST (F.frame.cost N.cost);
      records = element_records (field_data_of_value F.frame N.encoding N.records);
      slots = messages_slots N.encoding N.slots;
      levels = messages_levels N.levels;
      Exact = AreExactLevels N.merged N.encoding N.records N.normal N.levels;
      normal = λ vs. AllByRecursion (λ x. F.frame.Normal (N.normal x) (N.records x)) vs;
      stays = each_stays F.frame F.holds N.COST N.cost;
    } };

    fn len(number: u32, part: &Vec<N>, cache: &mut SizeCache) -> Result<u32, EncodeError> {
        messages_len::<F, N>(number, part.as_slice(), cache)
    }

    fn write_to<S: EncodeSink>(
        number: u32,
        part: &Vec<N>,
        cache: &mut SizeCache,
        sink: &mut S,
    ) -> Result<(), EncodeError> {
        write_messages::<F, N, S>(number, part.as_slice(), cache, sink)
    }

    #[tactic(auto, unfolding(crate::specs::Schema::AsksAsSaid, crate::specs::Schema::RefusesAsSaid, crate::specs::Schema::TakesAsSaid, crate::specs::Schema::TellsWrongType))]
    fn merge(
        part: &mut Vec<N>,
        alloc: Global,
        tag: Tag,
        buf: &mut &[u8],
        ctx: DecodeContext<'_>,
    ) -> Result<(), DecodeError> {
        take_element::<F, N>(alloc, part, tag, buf, ctx)
    }

    ghost back = { let m : Messages N.Meaning = record {
      merged = N.merged;
      blank = N.blank_is;
      encoding = N.encoding;
      records = N.records;
      levels = N.levels;
      normal = N.normal;
      as_records = N.MessageSpec.encoding_records;
      fields = merged_fields (by_payload N.MessageSpec.stays N.MessageSpec.merged_is N.MessageSpec.cost_is);
      valid = N.MessageSpec.valid;
      back = N.MessageSpec.merged_encoding;
    } in record {
      valid = behind_valid F.frame F.holds m;
      back = behind_back F.frame F.holds m;
      exact = λ exact. record {
        numbers = element_numbers (field_data_of_value F.frame N.encoding N.records);
        least = behind_least F.frame F.holds m exact;
      };
    } };
}
