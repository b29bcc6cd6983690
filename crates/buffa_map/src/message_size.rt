//! The size pass of a map field of messages, which fills the size cache.

ghost use Rattle.std.specs.Prelude.{◌≡◌, ◌≢◌, ◌+◌, [], length, OnErr};
ghost use Rattle.std.specs.List.{Contains};
ghost use Rattle.std.specs.Map.{values_of};
ghost use Rattle.buffa_bytes.specs.Varint.{varint_encoding};
ghost use Rattle.buffa_map.specs.Calls.{SizesMessages};
ghost use Rattle.buffa_map.specs.MessageField.{IsFieldSized, entry_size};
ghost use Rattle.buffa_map.specs.Encoding.{saturated};

use crate::codec::MapCodec;
use crate::storage::{MapStorage, StableWalk};
use buffa_wire::{EncodeError, Message, MessageSpec, SizeCache, prefix_len};

// The length of an entry whose message has so many bytes, or 2^64 - 1.
pub(crate) fn message_entry_len<KC: MapCodec>(key: &KC::Value, inner: u32) -> u64
    ensures { result ≡ saturated (entry_size KC.writing (KC.Value.meaning key.now) inner) }
{
    let message = (prefix_len(u64::from(inner)) as u64).saturating_add(u64::from(inner));
    KC::encoded_len(key)
        .saturating_add(message)
        .saturating_add(2)
}

// The length of its record, or 2^64 - 1.
fn message_record_len<KC: MapCodec>(outer_tag_len: u64, key: &KC::Value, inner: u32) -> u64
    ensures { let n = entry_size KC.writing (KC.Value.meaning key.now) inner in
        result ≡ saturated (outer_tag_len + (length (varint_encoding (saturated n)) + n)) }
{
    let len = message_entry_len::<KC>(key, inner);
    outer_tag_len
        .saturating_add(prefix_len(len) as u64)
        .saturating_add(len)
}

/// The length of a map field of messages in bytes, or 2^64 - 1 where it is more, by a function that sizes a
/// message. `outer_tag_len` is the length of the field's tag.
///
/// For each pair of the walk the length of the message's encoding is put into the cache, and then its own
/// slots. The function may be called on each value of the map, and is asked for nothing of others; so a
/// type that holds itself is sized by a function that recurs through this one.
///
/// # Errors
/// [`EncodeError::OutOfMemory`] alone, never for a map of no pairs; the cache's old slots come first then.
///
/// ```ignore
/// let len: u64 = message_field_len_by::<Int32, FlatMsg, _, _>(&map, 1, &mut cache, .. )?;
/// ```
pub fn message_field_len_by<
    'a,
    KC: MapCodec,
    M: MessageSpec + 'a,
    C: StableWalk<'a> + MapStorage<Key = KC::Value, Value = M>,
    F: Fn(&M, &mut SizeCache) -> Result<u32, EncodeError>,
>(map: &'a C, outer_tag_len: u64, cache: &mut SizeCache, size: F) -> Result<u64, EncodeError>
where
    KC::Value: 'a,
    requires may { (x : _) (c : _) → Contains (values_of (C.walk map.now)) (M.meaning x.now) → F.pre size x c }
    requires keeps { SizesMessages (F.post size) (Contains (values_of (C.walk map.now))) M.meaning M.encoding M.slots }
    ensures sized { IsFieldSized KC.writing M.encoding M.slots outer_tag_len (C.walk map.now) cache.old result cache.new }
    ensures some { OnErr result (C.pairs map.now ≢ []) }
{
    // The contract names this walk, also where the map has no pairs.
    let walk = map.storage_iter();
    if map.storage_len() == 0 {
        return Ok(0);
    }
    cache.make_room(map.storage_len())?;
    let mut total: u64 = 0;
    for (key, value) in walk {
        let slot = cache.reserve()?;
        let inner = size(value, cache)?;
        cache.set(slot, inner);
        total = total.saturating_add(message_record_len::<KC>(outer_tag_len, key, inner));
    }
    Ok(total)
}

/// The length of a map field of messages, and the slots of its messages.
///
/// `outer_tag_len` is the length of the field's tag, which each record has. The length is exact, up to
/// 2^64 - 1, where no message is longer than 2^31 - 1 bytes and each entry is shorter than 2^64.
///
/// # Errors
/// [`EncodeError::OutOfMemory`] alone, never for a map of no pairs; the cache's old slots come first then.
///
/// ```ignore
/// let size = message_field_len::<Int32, TestMsg, _>(&map, 1, &mut cache)?;
/// ```
pub fn message_field_len<
    'a,
    KC: MapCodec,
    M: Message + 'a,
    C: StableWalk<'a> + MapStorage<Key = KC::Value, Value = M>,
>(map: &'a C, outer_tag_len: u64, cache: &mut SizeCache) -> Result<u64, EncodeError>
where
    KC::Value: 'a,
    ensures sized { IsFieldSized KC.writing M.encoding M.slots outer_tag_len (C.walk map.now) cache.old result cache.new }
    ensures some { OnErr result (C.pairs map.now ≢ []) }
{
    message_field_len_by::<KC, M, C, _>(
        map,
        outer_tag_len,
        cache,
        |value: &M, cache: &mut SizeCache| value.compute_size(cache),
    )
}
