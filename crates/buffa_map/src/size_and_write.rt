//! A map field, sized and written by one call.

ghost use Rattle.std.specs.Prelude.{◌≡◌, ◌+◌, ◌-◌, IfOk, length, vec_capacity, vec_len};
ghost use Rattle.buffa_bytes.specs.Number.{IsNumber};
ghost use Rattle.buffa_map.specs.Calls.{WritesMapField};

use crate::codec::MapCodec;
use crate::size::field_len;
use crate::storage::{MapStorage, MapWalk};
use crate::write::write_field;
use buffa_wire::{EncodeError, Tag, WireType};

/// Sizes a map field, and writes it behind what the vector has: the size is the number of bytes written, for
/// any storage, also one whose walks differ.
///
/// `number` is 1 to [`MAX_FIELD_NUMBER`](buffa_wire::MAX_FIELD_NUMBER).
///
/// # Errors
/// Those of [`write_field`].
///
/// ```ignore
/// let size = size_and_write_field::<Str, Int32, _>(&map, 5, &mut sink)?;
/// ```
pub fn size_and_write_field<
    'a,
    KC: MapCodec,
    VC: MapCodec,
    C: MapWalk<'a> + MapStorage<Key = KC::Value, Value = VC::Value>,
>(map: &'a C, number: u32, sink: &mut Vec<u8>) -> Result<u64, EncodeError>
where
    KC::Value: 'a,
    VC::Value: 'a,
    requires { IsNumber number }
    ensures size { IfOk result (λ size. length sink.new.items ≡ length sink.old.items + size) }
    ensures encoding { WritesMapField C.equal C.walks C.pairs map.now KC.writing VC.writing KC.fits VC.fits number
        (λ t. t.items) (λ t. vec_capacity t - vec_len t) sink.old sink.new result }
{
    let tag_len = Tag::new(number, WireType::LengthDelimited).encoded_len() as u64;
    let size = field_len::<KC, VC, C>(map, tag_len);
    write_field::<KC, VC, C, Vec<u8>>(map, number, sink)?;
    // A vector has fewer than 2^64 bytes, so that the size isn't capped.
    let _held = sink.len();
    Ok(size)
}
