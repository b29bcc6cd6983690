//! A message that is a count of repeated fields.

ghost use Rattle.std.specs.Prelude.{◌≡◌, ◌≢◌, ◌<◌, ◌^◌, [], refl, IfErr, IsOk, OnErr};
ghost use Rattle.buffa_bytes.specs.declared.wire_type.WireType.TheVariants.{EndGroup};
ghost use Rattle.buffa_wire.specs.BudgetLeft.{budget_left};
ghost use Rattle.buffa_bytes.specs.Readings.{FullOnlyIf, Gives};
ghost use Rattle.buffa_wire.specs.Message.{MergesField};
ghost use Rattle.buffa_wire.specs.Passes.{IsSized};
ghost use Rattle.buffa_bytes.specs.Written.{Writes};
ghost use Rattle.buffa_wire.specs.Takes.{costs_nothing, taken_by};
ghost use Rattle.buffa_wire.proofs.TakesLemmas.{merged_by_is, nothing_is};
ghost use Rattle.sample_types.specs.Count.{IsCountRefused, count_cost, count_field, count_merged, count_records, count_encoding, one_encoding};
ghost use Rattle.sample_types.specs.CountFacts.{count_back, count_cost_some, count_same, count_sound, count_encoding_records, count_valid};

use buffa_wire::{
    Blank, Buf, DecodeContext, DecodeError, EncodeError, EncodeSink, Message, MessageSpec,
    SizeCache, Tag, WireType, capped, check_wire_type, decode_varint, encode_varint,
    skip_field_depth,
};
use std::alloc::Global;

/// Each field 9, a varint, counts one; other fields are passed over. It is written as so many zeros.
///
/// ```ignore
/// let message = CountMsg { count };
/// ```
#[derive(Drop)]
pub struct CountMsg {
    /// How many fields 9 there were, at most 2^64 - 1.
    pub count: u64,
}

impl Blank for CountMsg {
    type Meaning = u64;

    ghost meaning = { λ m. m.count };

    ghost blank_is = { 0 };

    fn blank(_alloc: Global) -> CountMsg {
        CountMsg { count: 0 }
    }
}

impl MessageSpec for CountMsg {
    const COST: usize = 8;

    ghost COST = { 8 };

    ghost takes = { λ d. taken_by (count_field d) };

    ghost charge = { costs_nothing };

    ghost merged = { count_merged };

    ghost cost = { count_cost };

    ghost Refused = { IsCountRefused };

    ghost encoding = { count_encoding };

    ghost records = { count_records };

    ghost slots = { λ _. [] };

    ghost levels = { λ _. 0 };

    ghost normal = { λ n. n < 2 ^ 64 };

    ghost encoding_records = { count_encoding_records };

    ghost valid = { λ n _. count_valid n };

    ghost merged_encoding = { λ d n _ h _. count_back d n h };

    ghost positive = { count_cost_some };

    ghost stays = { λ d n w p x h. refl };

    ghost merged_is = { merged_by_is count_field count_sound count_same };

    ghost cost_is = { nothing_is };
}

// Merges the field whose tag was read.
fn merge_count(count: &mut u64, tag: Tag, buf: &mut &[u8], depth: u32) -> Result<(), DecodeError>
    ensures gives { Gives (λ _. (count.new, buf.new.now)) result
        (count_field depth count.old tag.number tag.wire_type buf.old.now) }
    ensures stays { OnErr result (count.new ≡ count.old) }
{
    if tag.field_number() == 9 {
        check_wire_type(tag, WireType::Varint)?;
        decode_varint(buf)?;
        *count = count.saturating_add(1);
    } else {
        skip_field_depth(tag, buf, depth)?;
    }
    Ok(())
}

// Writes one field.
#[tactic(auto, using(buffa_bytes::proofs::SinkLemmas::writes_then, buffa_bytes::proofs::SinkLemmas::front_first))]
fn write_one<S: EncodeSink>(sink: &mut S) -> Result<(), EncodeError>
    ensures { Writes result (S.written sink.old) one_encoding (S.written sink.new) }
{
    Tag::new(9, WireType::Varint).encode(sink)?;
    encode_varint(0, sink)
}

// Writes so many fields.
fn write_count<S: EncodeSink>(count: u64, sink: &mut S) -> Result<(), EncodeError>
    ensures { Writes result (S.written sink.old) (count_encoding count) (S.written sink.new) }
{
    let mut left = count;
    'fields: while left > 0 {
        write_one(sink)?;
        left -= 1;
    }
    Ok(())
}

impl Message for CountMsg {
    fn compute_size(&self, _cache: &mut SizeCache) -> Result<u32, EncodeError>
        ensures sized { IsSized (count_encoding self.now.count) [] _cache.old result _cache.new }
        ensures always { IsOk result }
    {
        let total = self.count.saturating_mul(2);
        Ok(capped(total))
    }

    fn write_to<S: EncodeSink>(
        &self,
        _cache: &mut SizeCache,
        sink: &mut S,
    ) -> Result<(), EncodeError> {
        write_count(self.count, sink)
    }

    fn merge_field(
        &mut self,
        _alloc: Global,
        tag: Tag,
        buf: &mut &[u8],
        ctx: DecodeContext<'_>,
    ) -> Result<(), DecodeError>
        ensures merged { MergesField count_merged count_cost ctx.entry self.old.count tag.number tag.wire_type
            buf.old.now result self.new.count (budget_left ctx.exit) buf.new.now }
        ensures refused { IfErr result (λ e. IsCountRefused ctx.entry.depth self.old.count tag.number tag.wire_type
            buf.old.now ctx.entry.budget.now e self.new.count) }
        ensures full { FullOnlyIf result (tag.wire_type ≢ EndGroup) }
        ensures gives { Gives (λ _. (self.new.count, buf.new.now)) result
            (count_field ctx.entry.depth self.old.count tag.number tag.wire_type buf.old.now) }
        ensures stays { OnErr result (self.new ≡ self.old) }
        ensures unspent { budget_left ctx.exit ≡ ctx.entry.budget.now }
    {
        merge_count(&mut self.count, tag, buf, ctx.depth)
    }
}
