//! A census, a worked example of docs/BY_HAND.md: a count for each name, in a map field.

ghost use Rattle.std.specs.Prelude.{◌≡◌, ◌≢◌, [], IfErr, None, OnErr, OnOk, Some};
ghost use Rattle.buffa_bytes.specs.Unread.{IsTailOf};
ghost use Rattle.buffa_bytes.specs.declared.error.DecodeError.TheVariants.{OutOfMemory};
ghost use Rattle.buffa_wire.specs.BudgetLeft.{IsLimit};
ghost use Rattle.buffa_map.specs.Encoding.{UsesRoomOf, WritesField, field_size, field_encoding, saturated};
ghost use Rattle.sample_types.specs.Census.{census_merged, counts_by_name};
ghost use Rattle.buffa_map.specs.Scalars.{int32_writing, text_writing};

use buffa_map::map_codec::{Int32, Map, Str, field_len, merge_entry, write_field};
use buffa_wire::{
    Buf, DecodeContext, DecodeError, EncodeError, EncodeSink, Tag, WireType, check_wire_type,
    skip_field_depth,
};
use std::alloc::Global;

/// `message Census { map<string, int32> counts = 5; }`
///
/// ```ignore
/// let mut census = Census::new(alloc);
/// ```
#[derive(Drop)]
pub struct Census {
    /// The field of number 5.
    pub counts: Map<String, i32>,
}

impl Census {
    /// No counts.
    ///
    /// ```ignore
    /// let mut census = Census::new(alloc);
    /// ```
    pub fn new(alloc: Global) -> Census
        ensures { result.counts.entries ≡ [] }
    {
        Census {
            counts: Map::new(alloc),
        }
    }

    /// The length of the encoding: the tag of number 5 has one byte.
    ///
    /// ```ignore
    /// assert_eq!(rt; census.encoded_len(), 14);
    /// ```
    pub fn encoded_len(&self) -> u64
        ensures { result ≡ saturated (field_size text_writing int32_writing 1 (counts_by_name self.now.counts.entries)) }
    {
        field_len::<Str, Int32, _>(&self.counts, 1)
    }

    /// Writes a record for each count.
    ///
    /// ```ignore
    /// census.write(&mut sink)?;
    /// ```
    pub fn write<S: EncodeSink>(&self, sink: &mut S) -> Result<(), EncodeError>
        ensures writes { WritesField text_writing int32_writing 5 (S.written sink.old) (S.written sink.new) result
            (counts_by_name self.now.counts.entries) }
        ensures room { UsesRoomOf result (S.room sink.old)
            (field_encoding text_writing int32_writing 5 (counts_by_name self.now.counts.entries)) (S.room sink.new) }
    {
        write_field::<Str, Int32, _, _>(&self.counts, 5, sink)
    }

    /// Reads the fields to the end of the buffer; those of other numbers are skipped.
    ///
    /// # Errors
    /// A field is malformed, or memory or the budget ran out; never where there are no bytes. Open is where memory and the budget run
    /// out, which fault is told, what is counted then, and what is spent.
    ///
    /// ```ignore
    /// census.merge(alloc, &mut rest, ctx)?;
    /// ```
    pub fn merge<B: Buf>(
        &mut self,
        alloc: Global,
        buf: &mut B,
        ctx: DecodeContext<'_>,
    ) -> Result<(), DecodeError>
        ensures merged { OnOk result (census_merged ctx.entry.depth (counts_by_name self.old.counts.entries) (B.unread buf.old)
            ≡ Some (counts_by_name self.new.counts.entries)) }
        ensures read { OnOk result (B.unread buf.new ≡ []) }
        ensures refused { IfErr result (λ e. e ≢ OutOfMemory → (IsLimit e → ⊥) →
            census_merged ctx.entry.depth (counts_by_name self.old.counts.entries) (B.unread buf.old) ≡ None) }
        ensures some { OnErr result (B.unread buf.old ≢ []) }
        ensures tail { IsTailOf (B.unread buf.new) (B.unread buf.old) }
        ensures kept { B.beyond buf.new ≡ B.beyond buf.old }
    {
        let DecodeContext { depth, budget } = ctx;
        'fields: while buf.remaining() > 0 {
            let tag = Tag::decode(buf)?;
            if tag.field_number() == 5 {
                check_wire_type(tag, WireType::LengthDelimited)?;
                let lent = DecodeContext {
                    depth,
                    budget: &mut *budget,
                };
                merge_entry::<Str, Int32, _, _>(alloc, &mut self.counts, buf, lent)?;
            } else {
                skip_field_depth(tag, buf, depth)?;
            }
        }
        Ok(())
    }
}
