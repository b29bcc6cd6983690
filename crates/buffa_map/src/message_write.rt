//! The write pass of a map field of messages, which consumes the slots of the size cache.

ghost use Rattle.std.specs.Prelude.{◌≡◌, ◌≢◌, ◌∷◌, [], length, OnErr};
ghost use Rattle.std.specs.List.{Contains};
ghost use Rattle.std.specs.Map.{values_of};
ghost use Rattle.buffa_bytes.specs.Number.{IsNumber};
ghost use Rattle.buffa_wire.specs.Passes.{IsNext, cap};
ghost use Rattle.buffa_bytes.specs.Written.{UsesRoom, Writes};
ghost use Rattle.buffa_map.specs.Calls.{KeepsRecordRoom, WritesMessages};
ghost use Rattle.buffa_map.specs.MessageField.{IsFieldWritten, IsRecordWritten, KeepsMessageRoom, UsesFieldRoom, field_slots, head_encoding, key_and_length};

use crate::codec::MapCodec;
use crate::message_size::message_entry_len;
use crate::storage::{MapStorage, StableWalk};
use crate::write::{write_head, write_part};
use buffa_wire::{EncodeError, EncodeSink, Message, MessageSpec, SizeCache};

// Writes the key field, and the tag and the length of the value.
#[inline(always)]
#[tactic(auto, using(buffa_bytes::proofs::SinkLemmas::writes_then, buffa_bytes::proofs::SinkLemmas::front_first, buffa_bytes::proofs::SinkLemmas::room_then))]
fn write_key_and_length<KC: MapCodec, S: EncodeSink>(
    key: &KC::Value,
    inner: u32,
    sink: &mut S,
) -> Result<(), EncodeError>
    ensures writes { Writes result (S.written sink.old) (key_and_length KC.writing (KC.Value.meaning key.now) inner)
        (S.written sink.new) }
    ensures room { UsesRoom result (S.room sink.old) (key_and_length KC.writing (KC.Value.meaning key.now) inner)
        (S.room sink.new) }
{
    write_part::<KC, S>(1, key, sink)?;
    write_head(2, u64::from(inner), sink)
}

// Writes all of a record but the message's encoding.
#[inline(always)]
#[tactic(auto, using(buffa_bytes::proofs::SinkLemmas::writes_then, buffa_bytes::proofs::SinkLemmas::front_first, buffa_bytes::proofs::SinkLemmas::room_then))]
fn write_message_head<KC: MapCodec, S: EncodeSink>(
    number: u32,
    key: &KC::Value,
    inner: u32,
    sink: &mut S,
) -> Result<(), EncodeError>
    requires { IsNumber number }
    ensures writes { Writes result (S.written sink.old) (head_encoding KC.writing number (KC.Value.meaning key.now) inner)
        (S.written sink.new) }
    ensures room { UsesRoom result (S.room sink.old) (head_encoding KC.writing number (KC.Value.meaning key.now) inner)
        (S.room sink.new) }
{
    write_head(number, message_entry_len::<KC>(key, inner), sink)?;
    write_key_and_length::<KC, S>(key, inner, sink)
}

// Writes the record of a pair, of which the message's length is in the next slot.
#[inline(always)]
fn write_message_record_by<KC: MapCodec, M: MessageSpec, S: EncodeSink, F>(
    number: u32,
    key: &KC::Value,
    value: &M,
    cache: &mut SizeCache,
    sink: &mut S,
    write: &F,
) -> Result<(), EncodeError>
where
    F: Fn(&M, &mut SizeCache, &mut S) -> Result<(), EncodeError>,
    requires number { IsNumber number }
    requires next { IsNext (cap (length (M.encoding (M.meaning value.now))) ∷ M.slots (M.meaning value.now)) cache.old }
    requires may { (x : _) (c : _) (s : _) → x.now ≡ value.now → IsNext (M.slots (M.meaning x.now)) c.now →
        F.pre write.now x c s }
    requires keeps { WritesMessages (F.post write.now) (λ x. x ≡ value.now) M.meaning M.encoding M.slots S.written }
    ensures written { IsRecordWritten KC.writing M.encoding M.slots number (KC.Value.meaning key.now, M.meaning value.now)
        cache.old (S.written sink.old) result cache.new (S.written sink.new) }
    ensures room { KeepsRecordRoom (F.post write.now) M.meaning S.room KC.writing M.encoding number
        (KC.Value.meaning key.now, M.meaning value.now) result sink.old sink.new }
{
    let inner = cache.consume_next();
    write_message_head::<KC, S>(number, key, inner, sink)?;
    write(value, cache, sink)
}

/// Writes a map field of messages, by a function that writes a message.
///
/// For each pair of the walk the next slot of the cache is the length of the message's encoding. The function
/// may be called on each value of the map where the next slots are the value's, and is asked for nothing
/// of others; so a type that holds itself is written by a function that recurs through this one.
///
/// # Errors
/// [`EncodeError::OutOfMemory`] alone; the sink's old bytes come first then. A field that fits for sure isn't refused,
/// where the function refuses no message that fits.
///
/// ```ignore
/// write_message_field_by::<Int32, FlatMsg, _, _, _>(&map, 4, &mut cache, &mut sink, .. )?;
/// ```
pub fn write_message_field_by<
    'a,
    KC: MapCodec,
    M: MessageSpec + 'a,
    C: StableWalk<'a> + MapStorage<Key = KC::Value, Value = M>,
    S: EncodeSink,
    F: Fn(&M, &mut SizeCache, &mut S) -> Result<(), EncodeError>,
>(map: &'a C, number: u32, cache: &mut SizeCache, sink: &mut S, write: F) -> Result<(), EncodeError>
where
    KC::Value: 'a,
    requires number { IsNumber number }
    requires next { IsNext (field_slots M.encoding M.slots (C.walk map.now)) cache.old }
    requires may { (x : _) (c : _) (s : _) → Contains (values_of (C.walk map.now)) (M.meaning x.now) →
        IsNext (M.slots (M.meaning x.now)) c.now → F.pre write x c s }
    requires keeps { WritesMessages (F.post write) (λ x. Contains (values_of (C.walk map.now)) (M.meaning x))
        M.meaning M.encoding M.slots S.written }
    ensures written { IsFieldWritten KC.writing M.encoding M.slots number (C.walk map.now) cache.old
        (S.written sink.old) result cache.new (S.written sink.new) }
    ensures some { OnErr result (C.walk map.now ≢ []) }
    ensures room { KeepsMessageRoom (F.post write) (λ v. M.encoding (M.meaning v)) S.room → UsesFieldRoom KC.writing M.encoding
        number (C.walk map.now) result (S.room sink.old) (S.room sink.new) }
{
    // The contract names this walk, also where the map has no pairs.
    let walk = map.storage_iter();
    if map.storage_len() == 0 {
        return Ok(());
    }
    for (key, value) in walk {
        write_message_record_by::<KC, M, S, F>(number, key, value, cache, sink, &write)?;
    }
    Ok(())
}

/// Writes a map field of messages, whose lengths the cache has.
///
/// `number` is 1 to [`MAX_FIELD_NUMBER`](buffa_wire::MAX_FIELD_NUMBER). The next slots of the cache
/// are those that [`message_field_len`](crate::message_size::message_field_len) put there, and they are
/// consumed. What is written is the field's encoding where no message is longer than 2^31 - 1 bytes and each
/// entry is shorter than 2^64.
///
/// # Errors
/// [`EncodeError::OutOfMemory`] alone; the sink's old bytes come first then.
///
/// ```ignore
/// write_message_field::<Int32, TestMsg, _, _>(&map, 5, &mut cache, &mut sink)?;
/// ```
pub fn write_message_field<
    'a,
    KC: MapCodec,
    M: Message + 'a,
    C: StableWalk<'a> + MapStorage<Key = KC::Value, Value = M>,
    S: EncodeSink,
>(map: &'a C, number: u32, cache: &mut SizeCache, sink: &mut S) -> Result<(), EncodeError>
where
    KC::Value: 'a,
    requires number { IsNumber number }
    requires next { IsNext (field_slots M.encoding M.slots (C.walk map.now)) cache.old }
    ensures written { IsFieldWritten KC.writing M.encoding M.slots number (C.walk map.now) cache.old
        (S.written sink.old) result cache.new (S.written sink.new) }
    ensures some { OnErr result (C.walk map.now ≢ []) }
{
    write_message_field_by::<KC, M, C, S, _>(
        map,
        number,
        cache,
        sink,
        |value: &M, cache: &mut SizeCache, sink: &mut S| value.write_to(cache, sink),
    )
}
