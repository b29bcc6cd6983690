//! The size of a map field whose values are no messages, which takes no cache.

ghost use Rattle.std.specs.Prelude.{◌≡◌, ◌+◌, ◌∷◌, List, [], IfSome, length};
ghost use Rattle.buffa_bytes.specs.Varint.{varint_encoding};
ghost use Rattle.buffa_map.specs.Pairs.{ListsOnce};
ghost use Rattle.buffa_map.specs.Encoding.{as_u64, entry_encoding, field_size, saturated};

use crate::codec::MapCodec;
use crate::storage::{MapStorage, MapWalk};
use buffa_wire::prefix_len;

// The length of an entry, two tags of one byte each and two encodings, if it fits 64 bits.
pub(crate) fn entry_len<KC: MapCodec, VC: MapCodec>(
    key: &KC::Value,
    value: &VC::Value,
) -> Option<u64>
    ensures len { result ≡ as_u64 (length (entry_encoding KC.writing VC.writing
        (KC.Value.meaning key.now, VC.Value.meaning value.now))) }
    ensures fits { KC.fits (KC.Value.meaning key.now) × VC.fits (VC.Value.meaning value.now) }
{
    let encodings = KC::encoded_len(key).checked_add(VC::encoded_len(value))?;
    encodings.checked_add(2)
}

// The length of a record whose key and value have encodings of so many bytes, if it fits 64 bits.
fn framed_len(outer_tag_len: u64, key_len: u64, value_len: u64) -> Option<u64>
    ensures { let n = 2 + (key_len + value_len) in
        result ≡ as_u64 (outer_tag_len + (length (varint_encoding n) + n)) }
{
    let entry_len = key_len.checked_add(value_len)?.checked_add(2)?;
    let head = outer_tag_len.checked_add(prefix_len(entry_len) as u64)?;
    head.checked_add(entry_len)
}

// The same, or 2^64 - 1. It stands by itself, since no encoding in memory is so long.
#[inline(never)]
fn large_record_len(outer_tag_len: u64, key_len: u64, value_len: u64) -> u64
    ensures { let n = 2 + (key_len + value_len) in
        result ≡ saturated (outer_tag_len + (length (varint_encoding n) + n)) }
{
    match framed_len(outer_tag_len, key_len, value_len) {
        Some(len) => len,
        None => u64::MAX,
    }
}

// Three lengths below this add up to less than 2^64.
const SMALL: u64 = 1 << 61;

// The length of a record, or 2^64 - 1.
fn record_len<KC: MapCodec, VC: MapCodec>(
    outer_tag_len: u64,
    key: &KC::Value,
    value: &VC::Value,
) -> u64
    ensures { let n = length (entry_encoding KC.writing VC.writing
        (KC.Value.meaning key.now, VC.Value.meaning value.now)) in
        result ≡ saturated (outer_tag_len + (length (varint_encoding n) + n)) }
{
    let (key_len, value_len) = (KC::encoded_len(key), VC::encoded_len(value));
    if outer_tag_len >= SMALL || key_len >= SMALL || value_len >= SMALL {
        return large_record_len(outer_tag_len, key_len, value_len);
    }
    let entry_len = key_len + value_len + 2;
    outer_tag_len + prefix_len(entry_len) as u64 + entry_len
}

// The length of every record, where all keys have one length, and all values, and it fits 64 bits.
fn fixed_record_len<KC: MapCodec, VC: MapCodec>(outer_tag_len: u64) -> Option<u64>
    ensures { IfSome result (λ len. (p : KC.Value.Meaning × VC.Value.Meaning) →
        len ≡ field_size KC.writing VC.writing outer_tag_len (p ∷ [])) }
{
    framed_len(outer_tag_len, KC::FIXED_LEN?, VC::FIXED_LEN?)
}

/// The length of a map field, in bytes, or 2^64 - 1 where it is more.
///
/// `outer_tag_len` is the length of the field's tag, which each record has. It takes no memory. Where both
/// codecs have a fixed length, the pairs are counted and not walked.
///
/// ```ignore
/// let size = field_len::<Str, Int32, _>(&map, 1);
/// ```
pub fn field_len<
    'a,
    KC: MapCodec,
    VC: MapCodec,
    C: MapWalk<'a> + MapStorage<Key = KC::Value, Value = VC::Value>,
>(map: &'a C, outer_tag_len: u64) -> u64
where
    KC::Value: 'a,
    VC::Value: 'a,
    ensures { (l : List (KC.Value.Meaning × VC.Value.Meaning)) × C.walks map.now l
        × ListsOnce C.equal (C.pairs map.now) l
        × (result ≡ saturated (field_size KC.writing VC.writing outer_tag_len l)) }
{
    // The contract names this walk, also where nothing is taken from it.
    let walk = map.storage_iter();
    if let Some(len) = fixed_record_len::<KC, VC>(outer_tag_len) {
        return (map.storage_len() as u64).saturating_mul(len);
    }
    let mut total: u64 = 0;
    for (key, value) in walk {
        total = total.saturating_add(record_len::<KC, VC>(outer_tag_len, key, value));
    }
    total
}
