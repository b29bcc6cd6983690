//! buffa.sample.Papers, made of shipment.proto by protoc-gen-buffa.

ghost use Rattle.std.proofs.Common.{lit<, refl};
ghost use Rattle.std.specs.Prelude.{IfErr, IsOk, OnOk, [], codes, ◌≡◌, ◌≢◌};
ghost use Rattle.buffa_fields.specs.Terms.{BeginsField, FullOnlyIf, IsSized, IsTailOf, IsWritten, MergesBytes};
ghost use Rattle.buffa_fields.specs.Terms.{MergesField, PartlyMerged, UsesRoom, budget_left};
ghost use Rattle.buffa_sets.specs.Terms.{AreItems, IsSetRefused, StopsBehind, TakesSetField, set_back, set_charge};
ghost use Rattle.buffa_sets.specs.Terms.{set_cost, set_cost_is, set_encoding, set_encoding_records, set_levels};
ghost use Rattle.buffa_sets.specs.Terms.{set_merged, set_merged_is, set_records, set_stays, set_takes, set_valid};

use buffa_ext::ExtensionSet;
use buffa_fields::{
    Blank, DecodeContext, DecodeError, EncodeError, EncodeSink, Message, MessageSpec, SizeCache,
    Tag, UnknownFields, Unknowns, WireType,
};
use buffa_sets::set;
use buffa_types::NamedMessage;
use std::alloc::Global;

/// The papers that go with a shipment, each in an Item.
///
/// message Papers {
///     option message_set_wire_format = true;
///     extensions 4 to max;
/// }
///
/// A MessageSet: the message of an Item is kept under its type id, where an extension of that number finds it.
#[derive(Debug, Drop)]
pub struct Papers {
    /// The message of each Item under its type id, and every other field as it is, in order.
    pub unknown_fields: UnknownFields,
}

impl Blank for Papers {
    type Meaning = Unknowns;

    ghost meaning = { λ m. m.unknown_fields.records };

    ghost blank_is = { [] };

    fn blank(alloc: Global) -> Papers {
        Papers {
            unknown_fields: UnknownFields::new(alloc),
        }
    }
}

impl MessageSpec for Papers {
    const COST: usize = 24;

    ghost COST = { 24 };

    ghost takes = { set_takes };

    ghost charge = { set_charge };

    ghost merged = { set_merged };

    ghost cost = { set_cost };

    ghost Refused = { IsSetRefused };

    ghost encoding = { set_encoding };

    ghost records = { set_records };

    ghost slots = { λ _. [] };

    ghost levels = { set_levels };

    ghost normal = { AreItems };

    ghost encoding_records = { set_encoding_records };

    ghost valid = { set_valid };

    ghost merged_encoding = { set_back };

    ghost positive = { lit< tt };

    ghost stays = { set_stays };

    ghost merged_is = { set_merged_is };

    ghost cost_is = { set_cost_is };
}

impl Message for Papers {
    fn compute_size(&self, _cache: &mut SizeCache) -> Result<u32, EncodeError>
        ensures sized { IsSized (set_encoding self.now.unknown_fields.records) [] _cache.old result _cache.new }
        ensures always { IsOk result }
    {
        Ok(set::size(&self.unknown_fields))
    }

    fn write_to<S: EncodeSink>(
        &self,
        _cache: &mut SizeCache,
        sink: &mut S,
    ) -> Result<(), EncodeError>
        ensures written { IsWritten (set_encoding self.now.unknown_fields.records) [] _cache.old (S.written sink.old)
            result _cache.new (S.written sink.new) }
        ensures room { UsesRoom result (S.room sink.old) (set_encoding self.now.unknown_fields.records)
            (S.room sink.new) }
    {
        set::write(&self.unknown_fields, sink)
    }

    /// Merges the field whose tag was read: an Item, or any other field. What is refused changes and spends nothing.
    fn merge_field(
        &mut self,
        alloc: Global,
        tag: Tag,
        buf: &mut &[u8],
        ctx: DecodeContext<'_>,
    ) -> Result<(), DecodeError>
        ensures merged { MergesField set_merged set_cost ctx.entry self.old.unknown_fields.records tag.number
            tag.wire_type buf.old.now result self.new.unknown_fields.records (budget_left ctx.exit) buf.new.now }
        ensures refused { IfErr result (λ e. IsSetRefused ctx.entry.depth self.old.unknown_fields.records tag.number
            tag.wire_type buf.old.now ctx.entry.budget.now e self.new.unknown_fields.records) }
        ensures full { FullOnlyIf result (tag.wire_type ≢ WireType.EndGroup) }
        ensures takes { TakesSetField ctx.entry.depth self.old.unknown_fields.records tag.number tag.wire_type
            buf.old.now ctx.entry.budget.now result self.new.unknown_fields.records (budget_left ctx.exit) buf.new.now }
    {
        set::merge_field(&mut self.unknown_fields, alloc, tag, buf, ctx)
    }

    /// Merges the fields that the bytes are, all of them. After a refusal the fields before the refused one are merged,
    /// and no others.
    fn merge(
        &mut self,
        alloc: Global,
        buf: &mut &[u8],
        ctx: DecodeContext<'_>,
    ) -> Result<(), DecodeError>
        ensures merged { MergesBytes set_merged set_cost ctx.entry.depth self.old.unknown_fields.records buf.old.now
            ctx.entry.budget.now result self.new.unknown_fields.records (budget_left ctx.exit) }
        ensures partly { IfErr result (λ e. PartlyMerged set_merged set_cost IsSetRefused ctx.entry.depth
            self.old.unknown_fields.records buf.old.now ctx.entry.budget.now e self.new.unknown_fields.records) }
        ensures full { FullOnlyIf result (BeginsField buf.old.now) }
        ensures read { OnOk result (buf.new.now ≡ []) }
        ensures tail { IsTailOf buf.new.now buf.old.now }
        ensures stops { IfErr result (λ e. StopsBehind ctx.entry.depth self.old.unknown_fields.records buf.old.now
            ctx.entry.budget.now e self.new.unknown_fields.records (budget_left ctx.exit)) }
    {
        set::merge(&mut self.unknown_fields, alloc, buf, ctx)
    }
}

impl ExtensionSet for Papers {
    const PROTO_FQN: &'static str = "buffa.sample.Papers";

    ghost fqn = { codes "buffa.sample.Papers" };

    ghost fields_of = { λ m. m.unknown_fields };

    ghost with_fields = { λ m w. record m { unknown_fields = w } };

    fn extendee_name() -> &'static str {
        Self::PROTO_FQN
    }

    fn unknown_fields(&self) -> &UnknownFields {
        &self.unknown_fields
    }

    fn unknown_fields_mut(&mut self) -> &mut UnknownFields {
        &mut self.unknown_fields
    }

    ghost fields_of_with = { λ m w. refl };

    ghost with_fields_of = { λ m. refl };

    ghost with_fields_twice = { λ m w u. refl };
}

const _: () = prove!(size_of::<Papers>() <= Papers::COST);

impl NamedMessage for Papers {
    ghost use Rattle.std.specs.Prelude.{codes};

    ghost name = { codes "buffa.sample.Papers" };

    fn full_name() -> &'static str {
        Self::FULL_NAME
    }
}

impl Papers {
    /// The full name of the message.
    pub const FULL_NAME: &'static str = "buffa.sample.Papers";
}
