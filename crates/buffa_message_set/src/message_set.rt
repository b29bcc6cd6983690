//! Items of a MessageSet, the encoding of extensions that came before extensions were ordinary fields.
//!
//! Each extension is an Item: a group of number 1 that holds the extension's number, its type id, as field 2
//! and the bytes of its message as field 3.
//!
//! ```ignore
//! use buffa::message_set::{ITEM_START_TAG, merge_item, write_item};
//!
//! write_item(1000, b"hello", &mut sink)?; // 0B 10 E8 07 1A 05 68 65 6C 6C 6F 0C
//! let (number, payload) = merge_item(alloc, &mut rest, ctx.descend()?)?; // `rest` is past the start tag
//! ```

ghost use Rattle.std.specs.Prelude.{◌≡◌, ◌≢◌, ◌^◌, ◌<◌, ◌++◌, ◌==◌, ◌&&◌, ℕ, List, length, Ok, Err, IfErr, IfOk, IsOk, MatchResult};
ghost use Rattle.buffa_bytes.specs.declared.error.DecodeError.TheVariants.{OutOfMemory};
ghost use Rattle.buffa_wire.specs.BudgetLeft.{budget_left};
ghost use Rattle.buffa_bytes.specs.Readings.{taken, varint_at, FullOnlyIf, Gives, GivesUnlessFull, same_wire};
ghost use Rattle.buffa_bytes.specs.Unread.{IsTailOf};
ghost use Rattle.buffa_bytes.specs.Values.{tag_encoding};
ghost use Rattle.buffa_bytes.specs.Written.{UsesRoom, Writes};
ghost use Rattle.buffa_message_set.specs.Item.{HasMessage, IsTypeId, SpendsUnknown, item_field_at, item_at, item_in, item_size, item_encoding, BytesAt, IsMessageAt, appended_at, ended_by, id_and_length, id_then, item_head, said_by, type_id_at, unsaid};

use buffa_bytes::buf::{copy_bytes, front};
use buffa_wire::{
    Buf, DecodeContext, DecodeError, EncodeError, EncodeSink, MessageSetFault, Tag, WireType,
    decode_varint, encode_varint, skip_field_depth, types, varint_len,
};
use std::alloc::Global;

/// The tag that begins an Item: number 1, start of group.
///
/// ```ignore
/// assert!(rt; decode_varint(&mut rest)? == ITEM_START_TAG);
/// ```
pub const ITEM_START_TAG: u64 = 0x0B;

/// The tag that ends an Item: number 1, end of group.
///
/// ```ignore
/// assert!(rt; (ITEM_START_TAG, ITEM_END_TAG) == (0x0Bu64, 0x0Cu64));
/// ```
pub const ITEM_END_TAG: u64 = 0x0C;

/// The tag of the type id: number 2, a varint.
///
/// ```ignore
/// assert!(rt; (TYPE_ID_TAG, MESSAGE_TAG) == (0x10u64, 0x1Au64));
/// ```
pub const TYPE_ID_TAG: u64 = 0x10;

/// The tag of the message: number 3, length-delimited.
///
/// ```ignore
/// assert!(rt; (TYPE_ID_TAG, MESSAGE_TAG) == (0x10u64, 0x1Au64));
/// ```
pub const MESSAGE_TAG: u64 = 0x1A;

// The greatest type id: an int32, and positive.
const MAX_TYPE_ID: u64 = 2_147_483_647;

/// The length of an Item's encoding in bytes, start tag and end tag too, where the message has `payload_len`
/// bytes. The sum has to be below 2^64.
///
/// ```ignore
/// let len = item_encoded_len(1000, 5); // 12
/// ```
pub fn item_encoded_len(number: u32, payload_len: usize) -> usize
    requires { item_size number payload_len < 2 ^ 64 }
    ensures size { result ≡ item_size number payload_len }
    ensures encoding { (msg : List ℕ) → length msg ≡ payload_len → length (item_encoding number msg) ≡ result }
{
    4 + varint_len(u64::from(number)) + varint_len(payload_len as u64) + payload_len
}

/// Writes an Item: the start tag, the type id, the message and the end tag.
///
/// `number` is 1 to 2,147,483,647.
///
/// # Errors
/// [`EncodeError::OutOfMemory`] alone, after a beginning of the encoding.
///
/// ```ignore
/// write_item(1000, b"hello", &mut sink)?; // 0B 10 E8 07 1A 05 68 65 6C 6C 6F 0C
/// ```
#[tactic(auto, using(buffa_bytes::proofs::SinkLemmas::writes_then, buffa_bytes::proofs::SinkLemmas::front_first, buffa_bytes::proofs::SinkLemmas::room_then))]
pub fn write_item<S: EncodeSink>(
    number: u32,
    payload: &[u8],
    sink: &mut S,
) -> Result<(), EncodeError>
    requires { IsTypeId number }
    ensures writes { Writes result (S.written sink.old) (item_encoding number payload.now) (S.written sink.new) }
    ensures room { UsesRoom result (S.room sink.old) (item_encoding number payload.now) (S.room sink.new) }
{
    write_head(number, payload.len() as u64, sink)?;
    write_rest(payload, sink)
}

// Writes the message's bytes and the end tag.
#[inline(always)]
#[tactic(auto, using(buffa_bytes::proofs::SinkLemmas::writes_then, buffa_bytes::proofs::SinkLemmas::front_first, buffa_bytes::proofs::SinkLemmas::room_then))]
fn write_rest<S: EncodeSink>(payload: &[u8], sink: &mut S) -> Result<(), EncodeError>
    ensures writes { Writes result (S.written sink.old) (payload.now ++ tag_encoding 1 WireType.EndGroup) (S.written sink.new) }
    ensures room { UsesRoom result (S.room sink.old) (payload.now ++ tag_encoding 1 WireType.EndGroup) (S.room sink.new) }
{
    sink.put_slice(payload)?;
    sink.put_byte(ITEM_END_TAG as u8)
}

// Writes what stands before the message's bytes: where the type id and the length are short, all of it at once.
#[inline(always)]
fn write_head<S: EncodeSink>(number: u32, len: u64, sink: &mut S) -> Result<(), EncodeError>
    ensures writes { Writes result (S.written sink.old) (item_head number len) (S.written sink.new) }
    ensures room { UsesRoom result (S.room sink.old) (item_head number len) (S.room sink.new) }
{
    if number >= 16_384 || len >= 128 {
        return write_long_head(number, len, sink);
    }
    let start = ITEM_START_TAG as u8;
    let id = TYPE_ID_TAG as u8;
    let message = MESSAGE_TAG as u8;
    if number < 128 {
        return sink.put_slice(&[start, id, number as u8, message, len as u8]);
    }
    let low = (number % 128) as u8 + 128;
    sink.put_slice(&[start, id, low, (number / 128) as u8, message, len as u8])
}

// The same of any type id and length.
#[inline(never)]
#[tactic(auto, using(buffa_bytes::proofs::SinkLemmas::writes_then, buffa_bytes::proofs::SinkLemmas::front_first, buffa_bytes::proofs::SinkLemmas::room_then))]
fn write_long_head<S: EncodeSink>(number: u32, len: u64, sink: &mut S) -> Result<(), EncodeError>
    ensures writes { Writes result (S.written sink.old) (item_head number len) (S.written sink.new) }
    ensures room { UsesRoom result (S.room sink.old) (item_head number len) (S.room sink.new) }
{
    sink.put_slice(&[ITEM_START_TAG as u8, TYPE_ID_TAG as u8])?;
    write_id(number, len, sink)
}

// Writes the type id, the message's tag and its length.
#[inline]
#[tactic(auto, using(buffa_bytes::proofs::SinkLemmas::writes_then, buffa_bytes::proofs::SinkLemmas::front_first, buffa_bytes::proofs::SinkLemmas::room_then))]
fn write_id<S: EncodeSink>(number: u32, len: u64, sink: &mut S) -> Result<(), EncodeError>
    ensures writes { Writes result (S.written sink.old) (id_and_length number len) (S.written sink.new) }
    ensures room { UsesRoom result (S.room sink.old) (id_and_length number len) (S.room sink.new) }
{
    types::encode_uint32(number, sink)?;
    encode_varint(MESSAGE_TAG, sink)?;
    encode_varint(len, sink)
}

/// Reads an Item whose start tag was read, up to its end tag, and answers the type id and the message bytes.
///
/// First it takes one of the unknown fields left. The type id and the message come in either order; the last
/// type id counts, and the bytes of several messages are joined. Other fields are passed over at the context's
/// depth, so the context is to be one that was descended: `ctx.descend()?`. What follows the Item is left
/// unread. Memory is asked for only for message bytes that are there, and never for a message of none.
///
/// # Errors
/// The first fault, and nothing else is handed out: [`DecodeError::UnknownFieldLimitExceeded`] where no
/// unknown field is left, and then none is spent and nothing is read; of a tag, as [`Tag::decode`] returns it;
/// of a varint or a length; [`DecodeError::InvalidMessageSet`] for a type id out of range, at once, and for
/// none at the end; [`DecodeError::InvalidEndGroup`] for an end tag of another number; of a field that is
/// passed over, as [`skip_field_depth`] returns it. Or [`DecodeError::OutOfMemory`].
///
/// Source: the documentation of buffa, "MessageSet wire format helpers".
///
/// ```ignore
/// let (number, payload) = merge_item(alloc, &mut rest, ctx)?; // of 10 05 1A 01 78 0C: 5 and "x"
/// ```
pub fn merge_item<B: Buf>(
    alloc: Global,
    buf: &mut B,
    ctx: DecodeContext<'_>,
) -> Result<(u32, Vec<u8>), DecodeError>
    // The type id, the message and what is left unread are what the Item at the front says, or the error is its first fault;
    // or memory ran out.
    ensures reads { GivesUnlessFull (λ item. (item.0, item.1.items, B.unread buf.new)) result
        (item_in ctx.entry.depth ctx.entry.budget.now.unknown (B.unread buf.old)) }
    ensures range { IfOk result (λ item. IsTypeId item.0) }
    // Memory runs out only where an unknown field was left, and the Item has a message that isn't empty.
    ensures full { FullOnlyIf result ((0 < ctx.entry.budget.now.unknown)
        × HasMessage ctx.entry.depth (B.unread buf.old)) }
    // One of the unknown fields left is spent, if there was one, and no element memory.
    ensures spent { SpendsUnknown ctx.entry.budget.now (budget_left ctx.exit) }
    ensures untouched { ctx.entry.budget.now.unknown ≡ 0 → B.unread buf.new ≡ B.unread buf.old }
    // What lies behind the end of a limited buffer stays there, and what is unread is an end of what was.
    ensures kept { B.beyond buf.new ≡ B.beyond buf.old }
    ensures tail { IsTailOf (B.unread buf.new) (B.unread buf.old) }
{
    let DecodeContext { depth, budget } = ctx;
    budget.take_unknown()?;
    read_item(alloc, buf, depth)
}

// What the fields of an Item have said so far.
#[derive(Drop)]
struct ItemParts {
    // The last type id.
    type_id: Option<u32>,
    // The bytes of the messages.
    message: Vec<u8>,
}

// Reads an Item whose start tag was read and whose unknown field is taken.
fn read_item<B: Buf>(alloc: Global, buf: &mut B, depth: u32) -> Result<(u32, Vec<u8>), DecodeError>
    ensures reads { GivesUnlessFull (λ item. (item.0, item.1.items, B.unread buf.new)) result
        (item_at depth (B.unread buf.old)) }
    ensures range { IfOk result (λ item. IsTypeId item.0) }
    ensures full { FullOnlyIf result (HasMessage depth (B.unread buf.old)) }
    ensures kept { B.beyond buf.new ≡ B.beyond buf.old }
    ensures tail { IsTailOf (B.unread buf.new) (B.unread buf.old) }
{
    let mut parts = ItemParts {
        type_id: None,
        message: Vec::new(alloc),
    };
    read_fields(alloc, buf, depth, &mut parts)?;
    item_of(parts)
}

// Reads the fields of an Item and its end tag, where nothing was said.
fn read_fields<B: Buf>(
    alloc: Global,
    buf: &mut B,
    depth: u32,
    parts: &mut ItemParts,
) -> Result<(), DecodeError>
    requires { said_by parts.old ≡ unsaid }
    ensures reads { MatchResult result
        (λ _. item_at depth (B.unread buf.old) ≡ ended_by parts.new (B.unread buf.new))
        (λ e. e ≢ OutOfMemory → item_at depth (B.unread buf.old) ≡ Err e) }
    ensures full { FullOnlyIf result (HasMessage depth (B.unread buf.old)) }
    ensures kept { B.beyond buf.new ≡ B.beyond buf.old }
    ensures tail { IsTailOf (B.unread buf.new) (B.unread buf.old) }
{
    loop {
        let tag = Tag::decode(buf)?;
        if is_of(tag, 1, WireType::EndGroup) {
            return Ok(());
        }
        merge_field(alloc, tag, buf, depth, parts)?;
    }
}

// The Item that has ended.
#[inline]
fn item_of(parts: ItemParts) -> Result<(u32, Vec<u8>), DecodeError>
    ensures reads { (rest : List ℕ) → Gives (λ item. (item.0, item.1.items, rest)) result
        (ended_by parts rest) }
    ensures full { IfErr result (λ e. e ≢ OutOfMemory) }
{
    match parts.type_id {
        Some(number) => Ok((number, parts.message)),
        None => Err(DecodeError::InvalidMessageSet(MessageSetFault::MissingTypeId)),
    }
}

// Merges the field whose tag was read.
fn merge_field<B: Buf>(
    alloc: Global,
    tag: Tag,
    buf: &mut B,
    depth: u32,
    parts: &mut ItemParts,
) -> Result<(), DecodeError>
    ensures reads { GivesUnlessFull (λ _. (said_by parts.new, B.unread buf.new)) result
        (item_field_at depth (said_by parts.old) tag.number tag.wire_type (B.unread buf.old)) }
    ensures full { FullOnlyIf result (IsMessageAt tag.number tag.wire_type (B.unread buf.old)) }
    ensures kept { B.beyond buf.new ≡ B.beyond buf.old }
    ensures tail { IsTailOf (B.unread buf.new) (B.unread buf.old) }
{
    if is_of(tag, 2, WireType::Varint) {
        return merge_type_id(buf, parts);
    }
    if is_of(tag, 3, WireType::LengthDelimited) {
        return append_message(alloc, buf, &mut parts.message);
    }
    skip_field_depth(tag, buf, depth)
}

// Whether the tag has this number and this wire type.
#[inline]
fn is_of(tag: Tag, number: u32, wire_type: WireType) -> bool
    ensures { result ≡ ((tag.number == number) && same_wire wire_type tag.wire_type) }
{
    tag.field_number() == number && tag.wire_type() == wire_type
}

// Reads a type id, which takes the place of the one before.
#[inline]
fn merge_type_id<B: Buf>(buf: &mut B, parts: &mut ItemParts) -> Result<(), DecodeError>
    ensures reads { Gives (λ _. (said_by parts.new, B.unread buf.new)) result
        (id_then (said_by parts.old) (B.unread buf.old)) }
    ensures full { IfErr result (λ e. e ≢ OutOfMemory) }
    ensures kept { B.beyond buf.new ≡ B.beyond buf.old }
    ensures tail { IsTailOf (B.unread buf.new) (B.unread buf.old) }
{
    parts.type_id = Some(decode_type_id(buf)?);
    Ok(())
}

// Reads a type id.
fn decode_type_id<B: Buf>(buf: &mut B) -> Result<u32, DecodeError>
    ensures reads { Gives (λ id. (id, B.unread buf.new)) result (type_id_at (B.unread buf.old)) }
    ensures kept { B.beyond buf.new ≡ B.beyond buf.old }
    ensures tail { IsTailOf (B.unread buf.new) (B.unread buf.old) }
{
    let number = decode_varint(buf)?;
    if number == 0 || number > MAX_TYPE_ID {
        return Err(DecodeError::InvalidMessageSet(MessageSetFault::TypeIdOutOfRange));
    }
    Ok(number as u32)
}

// Reads a length and so many bytes, and puts them behind the others. For no bytes nothing is asked of memory.
#[tactic(auto, using(buffa_bytes::proofs::TailLemmas::tail_more))]
fn append_message<B: Buf>(
    alloc: Global,
    buf: &mut B,
    message: &mut Vec<u8>,
) -> Result<(), DecodeError>
    ensures reads { GivesUnlessFull (λ _. (message.new.items, B.unread buf.new)) result
        (appended_at message.old.items (B.unread buf.old)) }
    ensures full { FullOnlyIf result (BytesAt (B.unread buf.old)) }
    ensures kept { B.beyond buf.new ≡ B.beyond buf.old }
    ensures tail { IsTailOf (B.unread buf.new) (B.unread buf.old) }
{
    let len = decode_varint(buf)?;
    if len == 0 {
        return Ok(());
    }
    append_bytes(alloc, buf, len, message)
}

// Reads so many bytes and puts them behind the others.
#[inline]
#[tactic(auto, using(buffa_bytes::proofs::TailLemmas::tail_more, buffa_bytes::proofs::TailLemmas::tail_dropped))]
fn append_bytes<B: Buf>(
    alloc: Global,
    buf: &mut B,
    len: u64,
    message: &mut Vec<u8>,
) -> Result<(), DecodeError>
    ensures reads { (bs : List ℕ) → varint_at bs ≡ Ok (len, B.unread buf.old) →
        GivesUnlessFull (λ _. (message.new.items, B.unread buf.new)) result (appended_at message.old.items bs) }
    ensures full { FullOnlyIf result (IsOk (taken len (B.unread buf.old))) }
    ensures kept { B.beyond buf.new ≡ B.beyond buf.old }
    ensures tail { IsTailOf (B.unread buf.new) (B.unread buf.old) }
{
    if let Some(part) = front(buf, len) {
        extend(message, part)?;
        buf.advance(len as usize);
        return Ok(());
    }
    join(message, copy_bytes(alloc, buf, len)?)
}

// Puts a copy of bytes behind the others.
#[inline]
fn extend(message: &mut Vec<u8>, part: &[u8]) -> Result<(), DecodeError>
    ensures { MatchResult result (λ _. message.new.items ≡ message.old.items ++ part.now) (λ e. e ≡ OutOfMemory) }
{
    Ok(message.extend_from_slice(part)?)
}

// Puts bytes behind the others, and takes them as they are where there are no others.
#[inline]
fn join(message: &mut Vec<u8>, bytes: Vec<u8>) -> Result<(), DecodeError>
    ensures { MatchResult result (λ _. message.new.items ≡ message.old.items ++ bytes.items) (λ e. e ≡ OutOfMemory) }
{
    if message.is_empty() {
        *message = bytes;
        return Ok(());
    }
    extend(message, &bytes)
}
