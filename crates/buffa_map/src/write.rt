//! The encoding of a map field whose values are no messages, written in one pass.
//!
//! The steps of a record are inside the loop over the pairs (`inline`): a call would hand each result over in
//! memory, which cost a third of the time.

ghost use Rattle.std.specs.Prelude.{◌++◌};
ghost use Rattle.buffa_bytes.specs.Number.{IsNumber};
ghost use Rattle.buffa_bytes.specs.Values.{tag_encoding};
ghost use Rattle.buffa_bytes.specs.Varint.{varint_encoding};
ghost use Rattle.buffa_bytes.specs.Written.{UsesRoom, Writes};
ghost use Rattle.buffa_map.specs.Calls.{WritesMapField};
ghost use Rattle.buffa_map.specs.Encoding.{UsesRoomOf, WritesRecord, entry_encoding, record_encoding};

use crate::codec::MapCodec;
use crate::size::entry_len;
use crate::storage::{MapStorage, MapWalk};
use buffa_wire::{EncodeError, EncodeSink, Tag, WireType, encode_varint};

// Writes a field of an entry.
#[inline(always)]
#[tactic(auto, using(buffa_bytes::proofs::SinkLemmas::writes_then, buffa_bytes::proofs::SinkLemmas::front_first, buffa_bytes::proofs::SinkLemmas::room_then))]
pub(crate) fn write_part<VC: MapCodec, S: EncodeSink>(
    number: u32,
    value: &VC::Value,
    sink: &mut S,
) -> Result<(), EncodeError>
    requires { IsNumber number }
    ensures writes { Writes result (S.written sink.old)
        (tag_encoding number VC.writing.wire ++ VC.writing.encoding (VC.Value.meaning value.now)) (S.written sink.new) }
    ensures room { UsesRoom result (S.room sink.old)
        (tag_encoding number VC.writing.wire ++ VC.writing.encoding (VC.Value.meaning value.now)) (S.room sink.new) }
{
    Tag::new(number, VC::WIRE_TYPE).encode(sink)?;
    VC::encode(value, sink)
}

// Writes the fields of an entry.
#[inline(always)]
#[tactic(auto, using(buffa_bytes::proofs::SinkLemmas::writes_then, buffa_bytes::proofs::SinkLemmas::front_first, buffa_bytes::proofs::SinkLemmas::room_then))]
fn write_entry<KC: MapCodec, VC: MapCodec, S: EncodeSink>(
    key: &KC::Value,
    value: &VC::Value,
    sink: &mut S,
) -> Result<(), EncodeError>
    ensures writes { Writes result (S.written sink.old)
        (entry_encoding KC.writing VC.writing (KC.Value.meaning key.now, VC.Value.meaning value.now))
        (S.written sink.new) }
    ensures room { UsesRoom result (S.room sink.old)
        (entry_encoding KC.writing VC.writing (KC.Value.meaning key.now, VC.Value.meaning value.now))
        (S.room sink.new) }
{
    write_part::<KC, S>(1, key, sink)?;
    write_part::<VC, S>(2, value, sink)
}

// Writes the tag and the length of a record.
#[inline(always)]
#[tactic(auto, using(buffa_bytes::proofs::SinkLemmas::writes_then, buffa_bytes::proofs::SinkLemmas::front_first, buffa_bytes::proofs::SinkLemmas::room_then))]
pub(crate) fn write_head<S: EncodeSink>(
    number: u32,
    len: u64,
    sink: &mut S,
) -> Result<(), EncodeError>
    requires { IsNumber number }
    ensures writes { Writes result (S.written sink.old) (tag_encoding number WireType.LengthDelimited ++ varint_encoding len)
        (S.written sink.new) }
    ensures room { UsesRoom result (S.room sink.old) (tag_encoding number WireType.LengthDelimited ++ varint_encoding len)
        (S.room sink.new) }
{
    Tag::new(number, WireType::LengthDelimited).encode(sink)?;
    encode_varint(len, sink)
}

// Writes the record of a pair.
#[inline(always)]
pub(crate) fn write_record<KC: MapCodec, VC: MapCodec, S: EncodeSink>(
    number: u32,
    key: &KC::Value,
    value: &VC::Value,
    sink: &mut S,
) -> Result<(), EncodeError>
    requires { IsNumber number }
    ensures written { WritesRecord KC.writing VC.writing number (S.written sink.old) (S.written sink.new) result
        (KC.Value.meaning key.now, VC.Value.meaning value.now) }
    ensures room { UsesRoomOf result (S.room sink.old) (record_encoding KC.writing VC.writing number
        (KC.Value.meaning key.now, VC.Value.meaning value.now)) (S.room sink.new) }
    ensures fits { KC.fits (KC.Value.meaning key.now) × VC.fits (VC.Value.meaning value.now) }
{
    let Some(len) = entry_len::<KC, VC>(key, value) else {
        return Err(EncodeError::MessageTooLarge);
    };
    write_head(number, len, sink)?;
    write_entry::<KC, VC, S>(key, value, sink)
}

/// Writes a map field: a record for each pair, in the order of a walk; blanks are written too.
///
/// `number` is 1 to [`MAX_FIELD_NUMBER`](buffa_wire::MAX_FIELD_NUMBER).
///
/// # Errors
/// [`EncodeError::MessageTooLarge`] at the first entry of 2^64 bytes or more, after the records of the
/// pairs before it; [`EncodeError::OutOfMemory`], after a beginning of the encoding, where the encoding
/// doesn't fit for sure.
///
/// Source: the protobuf encoding guide, "Maps".
///
/// ```ignore
/// write_field::<Str, Int32, _, _>(&map, 5, &mut sink)?;
/// ```
pub fn write_field<
    'a,
    KC: MapCodec,
    VC: MapCodec,
    C: MapWalk<'a> + MapStorage<Key = KC::Value, Value = VC::Value>,
    S: EncodeSink,
>(map: &'a C, number: u32, sink: &mut S) -> Result<(), EncodeError>
where
    KC::Value: 'a,
    VC::Value: 'a,
    requires { IsNumber number }
    ensures { WritesMapField C.equal C.walks C.pairs map.now KC.writing VC.writing KC.fits VC.fits number
        S.written S.room sink.old sink.new result }
{
    for (key, value) in map.storage_iter() {
        write_record::<KC, VC, S>(number, key, value, sink)?;
    }
    Ok(())
}
