//! Reading unknown fields.

ghost use Rattle.std.specs.Prelude.{◌≡◌, ◌≢◌, ◌+◌, ◌<◌, IfOk};
ghost use Rattle.buffa_bytes.specs.Unread.{LeavesUnlessFull, past_no_payload, IsTailOf, bytes_read};
ghost use Rattle.buffa_bytes.specs.Readings.{FullOnlyIf, GivesUnlessFull};
ghost use Rattle.buffa_wire.specs.BudgetLeft.{UnknownTaken, UnknownsSpent, budget_left};
ghost use Rattle.buffa_wire.specs.Records.{records_of};
ghost use Rattle.buffa_wire.specs.RecordReading.{GroupRecordsTakeMemory, ListTakesMemory, PayloadTakesMemory, RecordTakesMemory, field_in, group_in, list_at, plain_at};
ghost use Rattle.buffa_wire.specs.RecordsOfValues.{field_data_of};

use crate::budget::{Budget, DEFAULT_UNKNOWN_FIELD_LIMIT};
use crate::context::{DecodeContext, RECURSION_LIMIT};
use crate::unknown_fields::{UnknownField, UnknownFieldData, UnknownFields};
use buffa_bytes::varint::read_varint;
use buffa_bytes::{Buf, DecodeError, Tag, WireType, types};
use std::alloc::Global;

// Reads a payload that is no group.
#[tactic(auto, unfolding(crate::specs::RecordReading::plain_at))]
#[inline(always)]
fn decode_plain<B: Buf>(
    alloc: Global,
    wire_type: WireType,
    buf: &mut B,
) -> Result<UnknownFieldData, DecodeError>
    requires no_group { wire_type ≢ WireType.StartGroup }
    requires no_end { wire_type ≢ WireType.EndGroup }
    ensures reads { GivesUnlessFull (λ d. (field_data_of d, B.unread buf.new)) result
        (plain_at wire_type (B.unread buf.old)) }
    ensures full { FullOnlyIf result (PayloadTakesMemory (λ s bs. ⊥) 0 wire_type (B.unread buf.old)) }
    ensures left { LeavesUnlessFull result (past_no_payload wire_type (B.unread buf.old)) (B.unread buf.new) }
    ensures kept { B.beyond buf.new ≡ B.beyond buf.old }
    ensures tail { IsTailOf (B.unread buf.new) (B.unread buf.old) }
{
    match wire_type {
        WireType::Varint => {
            let v = read_varint(buf)?;
            return Ok(UnknownFieldData::Varint(v));
        }
        WireType::Fixed64 => {
            let v = types::decode_fixed64(buf)?;
            return Ok(UnknownFieldData::Fixed64(v));
        }
        WireType::LengthDelimited => {
            let v = types::decode_bytes(alloc, buf)?;
            return Ok(UnknownFieldData::LengthDelimited(v));
        }
        WireType::Fixed32 => {
            let v = types::decode_fixed32(buf)?;
            return Ok(UnknownFieldData::Fixed32(v));
        }
        WireType::StartGroup | WireType::EndGroup => unreachable!(),
    }
}

/// Reads the field whose tag was read, and keeps it.
///
/// It spends one of the unknown fields left for the field, one for each field in its groups, and no element memory.
/// After an error at most one more is spent than bytes were read; exactly one, if one was left, of a field that is no
/// group and of a group at depth 0. Memory is asked for only where an unknown field was left: for bytes that are there,
/// and for the fields of a group once the first is read.
///
/// # Errors
/// The first fault, in this order: [`DecodeError::InvalidEndGroup`] for an end tag, which spends nothing;
/// [`DecodeError::UnknownFieldLimitExceeded`] where no unknown field is left; those of the payload, as
/// [`skip_field_depth`](crate::skip_field_depth) returns them. Inside a group, one level less deep, the same
/// of each tag and field. Or [`DecodeError::OutOfMemory`]. Where a group is refused, an end of the bytes is unread; the contract
/// leaves open which.
///
/// Source: the protobuf encoding guide, "Message Structure" and "Groups".
///
/// ```ignore
/// let tag = Tag::decode(&mut rest)?;
/// let field = decode_unknown_field(alloc, tag, &mut rest, ctx)?;
/// ```
#[cycle(decode)]
#[inline(always)]
pub fn decode_unknown_field<B: Buf>(
    alloc: Global,
    tag: Tag,
    buf: &mut B,
    ctx: DecodeContext<'_>,
) -> Result<UnknownField, DecodeError>
    // The payload, the unknown fields left and what is unread are what the field at the front says, or the error is its first
    // fault; or memory ran out.
    ensures reads { GivesUnlessFull (λ f. (field_data_of f.payload, (budget_left ctx.exit).unknown, B.unread buf.new)) result
        (field_in ctx.entry tag.number tag.wire_type (B.unread buf.old)) }
    ensures full { FullOnlyIf result (RecordTakesMemory ctx.entry.depth ctx.entry.budget.now.unknown tag.wire_type
        (B.unread buf.old)) }
    ensures number { IfOk result (λ f. f.number ≡ tag.number) }
    // What is spent: no element memory, and unknown fields only.
    ensures memory { (budget_left ctx.exit).memory ≡ ctx.entry.budget.now.memory }
    ensures spent { UnknownsSpent (1 + bytes_read (B.unread buf.old) (B.unread buf.new))
        ctx.entry.budget.now.unknown (budget_left ctx.exit).unknown }
    ensures end { tag.wire_type ≡ WireType.EndGroup → budget_left ctx.exit ≡ ctx.entry.budget.now }
    // What is unread after an error.
    ensures end_stays { tag.wire_type ≡ WireType.EndGroup → B.unread buf.new ≡ B.unread buf.old }
    ensures level { tag.wire_type ≡ WireType.StartGroup → ctx.entry.depth ≡ 0 → B.unread buf.new ≡ B.unread buf.old }
    ensures no_unknown_stays { ctx.entry.budget.now.unknown ≡ 0 → B.unread buf.new ≡ B.unread buf.old }
    ensures left { tag.wire_type ≢ WireType.StartGroup → 0 < ctx.entry.budget.now.unknown →
        LeavesUnlessFull result (past_no_payload tag.wire_type (B.unread buf.old)) (B.unread buf.new) }
    // What is spent after an error.
    ensures counted { tag.wire_type ≢ WireType.StartGroup → tag.wire_type ≢ WireType.EndGroup → UnknownTaken
        ctx.entry.budget.now.unknown (budget_left ctx.exit).unknown }
    ensures deep_unknown { tag.wire_type ≡ WireType.StartGroup → ctx.entry.depth ≡ 0 → UnknownTaken
        ctx.entry.budget.now.unknown (budget_left ctx.exit).unknown }
    // What lies behind the end of a limited buffer stays there, and what is unread is an end of what was.
    ensures kept { B.beyond buf.new ≡ B.beyond buf.old }
    ensures tail { IsTailOf (B.unread buf.new) (B.unread buf.old) }
{
    let DecodeContext { depth, budget } = ctx;
    let Tag { number, wire_type } = tag;
    if let WireType::EndGroup = wire_type {
        return Err(DecodeError::InvalidEndGroup(number));
    }
    budget.take_unknown()?;
    if let WireType::StartGroup = wire_type {
        let lent = DecodeContext {
            depth,
            budget: &mut *budget,
        };
        let fields = decode_group(alloc, number, buf, lent)?;
        return Ok(UnknownField {
            number,
            payload: UnknownFieldData::Group(fields),
        });
    }
    let payload = decode_plain(alloc, wire_type, buf)?;
    Ok(UnknownField { number, payload })
}

// Reads the fields of a group, and its end tag.
#[cycle(decode)]
#[inline(never)]
fn decode_group<B: Buf>(
    alloc: Global,
    number: u32,
    buf: &mut B,
    ctx: DecodeContext<'_>,
) -> Result<UnknownFields, DecodeError>
    ensures reads { GivesUnlessFull (λ f. (records_of f.records, (budget_left ctx.exit).unknown, B.unread buf.new))
        result (group_in ctx.entry number (B.unread buf.old)) }
    ensures full { FullOnlyIf result (GroupRecordsTakeMemory ctx.entry.depth ctx.entry.budget.now.unknown
        (B.unread buf.old)) }
    ensures level { ctx.entry.depth ≡ 0 → B.unread buf.new ≡ B.unread buf.old }
    ensures deep { ctx.entry.depth ≡ 0 → budget_left ctx.exit ≡ ctx.entry.budget.now }
    ensures memory { (budget_left ctx.exit).memory ≡ ctx.entry.budget.now.memory }
    ensures spent { UnknownsSpent (bytes_read (B.unread buf.old) (B.unread buf.new))
        ctx.entry.budget.now.unknown (budget_left ctx.exit).unknown }
    ensures kept { B.beyond buf.new ≡ B.beyond buf.old }
    ensures tail { IsTailOf (B.unread buf.new) (B.unread buf.old) }
{
    let DecodeContext { depth, budget } = ctx;
    if depth == 0 {
        return Err(DecodeError::RecursionLimitExceeded);
    }
    let mut fields = UnknownFields::new(alloc);
    loop {
        let tag = Tag::decode(buf)?;
        if let WireType::EndGroup = tag.wire_type() {
            if tag.field_number() == number {
                return Ok(fields);
            }
            return Err(DecodeError::InvalidEndGroup(tag.field_number()));
        }
        let lent = DecodeContext {
            depth: depth - 1,
            budget: &mut *budget,
        };
        let field = decode_unknown_field(alloc, tag, buf, lent)?;
        fields.push(field)?;
    }
}

impl UnknownFields {
    /// Reads fields to the end of the bytes, with groups nested at most [`RECURSION_LIMIT`] deep and
    /// [`DEFAULT_UNKNOWN_FIELD_LIMIT`] unknown fields left.
    ///
    /// # Errors
    /// The first fault: of a tag, as [`Tag::decode`] returns it, or of the field behind it, as
    /// [`decode_unknown_field`] does. Or [`DecodeError::OutOfMemory`], only where the first field is read or
    /// takes memory itself.
    ///
    /// ```ignore
    /// let fields = UnknownFields::decode_from_slice(alloc, &[0x38, 0x01])?; // the field 7, a varint
    /// ```
    pub fn decode_from_slice(alloc: Global, bytes: &[u8]) -> Result<UnknownFields, DecodeError>
        ensures reads { GivesUnlessFull (λ f. f.records) result
            (list_at RECURSION_LIMIT DEFAULT_UNKNOWN_FIELD_LIMIT bytes.now) }
        ensures full { FullOnlyIf result (ListTakesMemory RECURSION_LIMIT DEFAULT_UNKNOWN_FIELD_LIMIT bytes.now) }
    {
        let mut budget = Budget::new(DEFAULT_UNKNOWN_FIELD_LIMIT);
        let mut rest = bytes;
        let mut fields = UnknownFields::new(alloc);
        while !rest.is_empty() {
            let tag = Tag::decode(&mut rest)?;
            let lent = DecodeContext {
                depth: RECURSION_LIMIT,
                budget: &mut budget,
            };
            let field = decode_unknown_field(alloc, tag, &mut rest, lent)?;
            fields.push(field)?;
        }
        Ok(fields)
    }
}
