//! A map field without a message type: `map<string, int32> counts = 5`, read and written by itself.

ghost use Rattle.std.specs.Prelude.{◌≡◌, IfOk, string_bytes, vec_items};
ghost use Rattle.buffa_fields.specs.Terms.{Gives, field_encoding, field_size, means, saturated, varint_at};

use buffa_fields::map_codec::{Int32, Map, MapCodec, Str, field_len, read_map_field, write_field};
use buffa_fields::{
    Budget, DecodeContext, DecodeError, EncodeError, RECURSION_LIMIT, decode_varint,
};
use std::alloc::Global;
use std::collections::BTreeMap;

/// The map whose field the bytes are, tags and all: another field is refused.
///
/// # Errors
/// Those of [`read_map_field`].
///
/// ```ignore
/// let counts = counts_of(alloc, bytes.as_slice())?;
/// ```
pub fn counts_of(alloc: Global, bytes: &[u8]) -> Result<Map<String, i32>, DecodeError> {
    let mut counts: Map<String, i32> = Map::new(alloc);
    let mut budget = Budget::new(0);
    let ctx = DecodeContext::new(RECURSION_LIMIT, &mut budget);
    let mut rest = bytes;
    read_map_field::<Str, Int32, _, _>(alloc, &mut counts, 5, &mut rest, ctx, None)?;
    Ok(counts)
}

/// The encoding of the field `map<string, int32> counts = 5`: a record for each pair, in the order of the keys.
///
/// # Errors
/// [`EncodeError::MessageTooLarge`], [`EncodeError::OutOfMemory`].
///
/// ```ignore
/// let bytes = encoding_of(alloc, &counts)?;
/// ```
pub fn encoding_of(alloc: Global, counts: &BTreeMap<String, i32>) -> Result<Vec<u8>, EncodeError>
    ensures { IfOk result (λ bytes. vec_items bytes
        ≡ field_encoding ⟦<Str as MapCodec>⟧.writing ⟦<Int32 as MapCodec>⟧.writing 5 (means string_bytes (λ v. v) counts.now.entries)) }
{
    let mut bytes = Vec::new(alloc);
    write_field::<Str, Int32, _, _>(counts, 5, &mut bytes)?;
    Ok(bytes)
}

/// How many bytes [`encoding_of`] makes (`buffa::laws::law_8`), or 2^64 - 1 where they are more.
///
/// ```ignore
/// let size = announced(&counts);
/// ```
pub fn announced(counts: &BTreeMap<String, i32>) -> u64
    ensures { result ≡ saturated (field_size ⟦<Str as MapCodec>⟧.writing ⟦<Int32 as MapCodec>⟧.writing 1
        (means string_bytes (λ v. v) counts.now.entries)) }
{
    field_len::<Str, Int32, _>(counts, 1)
}

/// The number at the front of the bytes.
///
/// # Errors
/// Those of [`decode_varint`].
///
/// ```ignore
/// let number = number_at(&mut rest)?;
/// ```
pub fn number_at(rest: &mut &[u8]) -> Result<u64, DecodeError>
    ensures { Gives (λ n. (n, rest.new.now)) result (varint_at rest.old.now) }
{
    decode_varint(rest)
}
