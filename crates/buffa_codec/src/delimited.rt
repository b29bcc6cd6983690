//! Codecs of strings and bytes.

ghost use Rattle.std.specs.Prelude.{◌≡◌, ◌≢◌, [], None, IfOk, OnErr, refl, true};
ghost use Rattle.std.specs.Str.{is_utf8};
ghost use Rattle.buffa_wire.specs.Records.{bytes};
ghost use Rattle.buffa_wire.specs.BudgetLeft.{defaults, nothing};
ghost use Rattle.buffa_codec.specs.Decoded.{HasByte, bytes_held, string_held};
ghost use Rattle.buffa_codec.specs.CodecFacts.{covers_nothing, covers_same, pays_nothing, string_back};

use crate::codec::SingularCodec;
use crate::last::LastWins;
use buffa_wire::{DecodeContext, EncodeError, UnknownFieldData};
use std::alloc::{AllocError, Global};

// The same bytes. No memory is asked for where there are none.
fn copied(alloc: Global, bytes: &[u8]) -> Result<Vec<u8>, AllocError>
    ensures bytes { IfOk result (λ v. v.items ≡ bytes.now) }
    ensures full { OnErr result (bytes.now ≢ []) }
{
    let mut copy = Vec::with_capacity(alloc, bytes.len())?;
    copy.extend_from_slice(bytes)?;
    Ok(copy)
}

/// `string`: the bytes of a record, where they are UTF-8.
///
/// ```ignore
/// let label = Extension::<StringCodec>::new(50002, FieldOptions::PROTO_FQN);
/// ```
pub struct StringCodec;

impl SingularCodec for StringCodec {
    type Value = String;

    ghost one = { λ depth b d. string_held d };

    ghost leaves = { λ depth b d left. left ≡ b };

    ghost packed = { λ bs. [] };

    ghost field_data = { bytes };

    ghost refusal = { λ v. None };

    ghost fits = { λ v. is_utf8 v ≡ true };

    ghost normal = { λ v. Unit {0} };

    ghost back = { λ v. v };

    ghost cost = { λ d. nothing };

    ghost most = { λ depth d. nothing };

    ghost never_fails = { ⊥ };

    ghost made_free = { λ v. v ≡ [] };

    ghost asks = { λ d. HasByte (string_held d) };

    fn decode_one(alloc: Global, payload: &UnknownFieldData) -> Result<Option<String>, AllocError> {
        let UnknownFieldData::LengthDelimited(held) = payload else {
            return Ok(None);
        };
        let Ok(text) = str::from_utf8(held.as_slice()) else {
            return Ok(None);
        };
        let mut owned = String::with_capacity(alloc, text.len())?;
        owned.push_str(text)?;
        Ok(Some(owned))
    }

    fn decode_one_ctx(
        alloc: Global,
        payload: &UnknownFieldData,
        _ctx: DecodeContext<'_>,
    ) -> Result<Option<String>, AllocError> {
        Self::decode_one(alloc, payload)
    }

    fn decode_packed(_bytes: &[u8], _out: &mut Vec<String>) -> Result<(), AllocError> {
        Ok(())
    }

    fn try_encode_one(alloc: Global, value: &String) -> Result<UnknownFieldData, EncodeError> {
        Ok(UnknownFieldData::LengthDelimited(copied(alloc, value.as_bytes())?))
    }

    ghost reads_field_data = { λ v b f n h. string_back v f };

    ghost spends_cost = { λ b left d v e h. pays_nothing b left h };

    ghost spends = { λ b left d h. covers_same b left h };
}

impl LastWins for StringCodec {
    ghost same = { λ b c d. refl };

    ghost free = { λ b left d h. h };

    ghost made = { λ b d. refl };

    ghost covered = { λ v. covers_nothing defaults };
}

/// `bytes`: the bytes of a record.
///
/// ```ignore
/// let dead = Extension::<BytesCodec>::new(7, "test.Carrier");
/// ```
pub struct BytesCodec;

impl SingularCodec for BytesCodec {
    type Value = Vec<u8>;

    ghost one = { λ depth b d. bytes_held d };

    ghost leaves = { λ depth b d left. left ≡ b };

    ghost packed = { λ bs. [] };

    ghost field_data = { bytes };

    ghost refusal = { λ v. None };

    ghost fits = { λ v. Unit {0} };

    ghost normal = { λ v. Unit {0} };

    ghost back = { λ v. v };

    ghost cost = { λ d. nothing };

    ghost most = { λ depth d. nothing };

    ghost never_fails = { ⊥ };

    ghost made_free = { λ v. v ≡ [] };

    ghost asks = { λ d. HasByte (bytes_held d) };

    fn decode_one(
        alloc: Global,
        payload: &UnknownFieldData,
    ) -> Result<Option<Vec<u8>>, AllocError> {
        let UnknownFieldData::LengthDelimited(held) = payload else {
            return Ok(None);
        };
        let owned = copied(alloc, held.as_slice())?;
        Ok(Some(owned))
    }

    fn decode_one_ctx(
        alloc: Global,
        payload: &UnknownFieldData,
        _ctx: DecodeContext<'_>,
    ) -> Result<Option<Vec<u8>>, AllocError> {
        Self::decode_one(alloc, payload)
    }

    fn decode_packed(_bytes: &[u8], _out: &mut Vec<Vec<u8>>) -> Result<(), AllocError> {
        Ok(())
    }

    fn try_encode_one(alloc: Global, value: &Vec<u8>) -> Result<UnknownFieldData, EncodeError> {
        Ok(UnknownFieldData::LengthDelimited(copied(alloc, value.as_slice())?))
    }

    ghost reads_field_data = { λ v b f n h. refl };

    ghost spends_cost = { λ b left d v e h. pays_nothing b left h };

    ghost spends = { λ b left d h. covers_same b left h };
}

impl LastWins for BytesCodec {
    ghost same = { λ b c d. refl };

    ghost free = { λ b left d h. h };

    ghost made = { λ b d. refl };

    ghost covered = { λ v. covers_nothing defaults };
}
