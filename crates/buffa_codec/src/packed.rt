//! Codecs of lists, all elements in one record: they are written here, and read by [`repeated`](crate::repeated).

ghost use Rattle.std.specs.Prelude.{◌≡◌, IfOk, List, None, OnOk, map};
ghost use Rattle.std.specs.List.{AllByRecursion};
ghost use Rattle.buffa_codec.specs.Decoded.{AsksInList, Has, ReadsList, Refuses, packed_record};
ghost use Rattle.buffa_codec.specs.CodecFacts.{packed_back};
ghost use Rattle.buffa_wire.specs.Encoding.{encodings};

use crate::codec::{ExtensionCodec, PackableCodec, push_record};
use crate::repeated::Repeated;
use buffa_wire::{EncodeError, UnknownFieldData, UnknownFields};
use std::alloc::{AllocError, Global};
use std::marker::PhantomData;

/// A list: one packed record is written, none for no elements. It is read as [`Repeated`] is.
///
/// ```ignore
/// PackedRepeated::<Int32>::encode(alloc, 7, vec![in alloc; 4, 5]?, &mut fields)?; // 3A 02 04 05
/// ```
pub struct PackedRepeated<C> {
    of: PhantomData<C>,
}

impl<C: PackableCodec> ExtensionCodec for PackedRepeated<C> {
    type Value = Vec<C::Value>;

    type Output = Vec<C::Value>;

    ghost Meaning = { List C.Value.Meaning };

    ghost Answer = { List C.Value.Meaning };

    ghost meaning = { λ vs. map C.Value.meaning vs.items };

    ghost answer = { λ vs. map C.Value.meaning vs.items };

    ghost reads = { ReadsList (C.one 100) (C.leaves 100) C.packed };

    ghost extension_data = { packed_record C.packed_encoding };

    ghost refusal = { λ vs. None };

    ghost fits = { AllByRecursion C.fits };

    ghost normal = { λ vs. Unit {0} };

    ghost holds = { λ v o. o ≡ map C.back v };

    ghost never_fails = { ⊥ };

    ghost in_room = { λ vs. ⊥ };

    ghost asks = { Has (AsksInList C.asks (C.one 100) C.packed) };

    fn decode(
        alloc: Global,
        number: u32,
        fields: &UnknownFields,
    ) -> Result<Vec<C::Value>, AllocError> {
        Repeated::<C>::decode(alloc, number, fields)
    }

    fn try_encode(
        alloc: Global,
        number: u32,
        value: Vec<C::Value>,
        fields: &mut UnknownFields,
    ) -> Result<(), EncodeError> {
        if value.is_empty() {
            return Ok(());
        }
        let bytes = packed_bytes::<C>(alloc, value.as_slice())?;
        push_record(number, UnknownFieldData::LengthDelimited(bytes), fields)
    }

    ghost reads_back = { λ v o f n h.
        packed_back C.fits (C.one 100) (C.leaves 100) C.packed C.packed_encoding C.back C.PackableCodec.unpacks
        C.PackableCodec.unpacks_none C.PackableCodec.bytes_unread v o h.0 f h.1 };
}

// The bytes of the values, one after the other.
#[inline]
fn packed_bytes<C: PackableCodec>(
    alloc: Global,
    values: &[C::Value],
) -> Result<Vec<u8>, EncodeError>
    ensures bytes { IfOk result (λ b. b.items ≡ encodings C.packed_encoding (map C.Value.meaning values.now)) }
    ensures refused { Refuses result None }
    ensures fits { OnOk result (AllByRecursion C.fits (map C.Value.meaning values.now)) }
{
    let mut bytes = Vec::new(alloc);
    // Each value has a byte at least.
    bytes.reserve(values.len())?;
    for v in values {
        C::encode_packed(v, &mut bytes)?;
    }
    Ok(bytes)
}
