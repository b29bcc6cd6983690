//! A map through its bytes and back: whatever the codecs, the storage and the order of its walk.

ghost use Rattle.std.specs.Prelude.{◌≡◌, ◌+◌, [], List, IfErr, OnOk, IsPermutation, false};
ghost use Rattle.buffa_bytes.specs.Number.{IsNumber};
ghost use Rattle.buffa_map.specs.Merge.{rules};
ghost use Rattle.buffa_map.specs.Pairs.{InOrder, SamePairs};
ghost use Rattle.buffa_map.specs.Encoding.{AllHold};
ghost use Rattle.sample_types.specs.Letters.{same_letters, spelled};
ghost use Rattle.sample_types.specs.RoundTrip.{FitsTrip, IfUnwritten, RefusesTrip, StopsTrip};
ghost use Rattle.buffa_map.specs.Scalars.{text_writing};

use crate::word::Word;
use buffa_map::map_codec::{
    Bool, MapCodec, MapStorage, MapValueDecode, MapWalk, ProtoStringMap, read_map_field,
    write_field,
};
use buffa_map_laws::map_fields::{one_reading, plain_entries_charge_units, written_is_read};
use buffa_wire::{Budget, DEFAULT_ELEMENT_MEMORY_LIMIT, DecodeContext, DecodeError, EncodeError};
use std::alloc::Global;
use std::collections::HashMap;

/// Why a map didn't come back.
///
/// ```ignore
/// return Err(TripFault::Encode(error));
/// ```
#[derive(Debug, Drop)]
pub enum TripFault {
    /// It couldn't be written.
    Encode(EncodeError),
    /// Its bytes couldn't be read, since memory ran out or of budget.
    Decode(DecodeError),
}

/// Writes a map as a field, and reads the field into an empty map: it then holds the same pairs, and the
/// same stored keys. A storage that keeps an order has the pairs in the order of the walk.
///
/// # Errors
/// [`EncodeError::MessageTooLarge`] only where the entry of a pair has 2^64 bytes or more;
/// [`DecodeError::ElementMemoryLimitExceeded`] only where the pairs cost more than 268,435,456 units; and
/// out of memory, in either, to write only where there is a pair. Where the map couldn't be written the other stays
/// as it was; where its bytes couldn't be read it has what the entries before that say.
///
/// ```ignore
/// through_bytes::<ProtoStringMap<Word>, Bool, _>(alloc, 1, words, copy)?;
/// ```
pub fn through_bytes<
    'a,
    KC: MapCodec,
    VC: MapCodec,
    C: MapWalk<'a> + MapStorage<Key = KC::Value, Value = VC::Value>,
>(alloc: Global, number: u32, map: &'a C, copy: &mut C) -> Result<(), TripFault>
where
    KC::Value: 'a,
    VC::Value: 'a,
    requires number { IsNumber number }
    requires empty { C.pairs copy.old ≡ [] }
    requires normal { (l : List (KC.Value.Meaning × VC.Value.Meaning)) → C.walks map.now l → AllHold KC.normal VC.normal l }
    ensures ok { OnOk result (SamePairs C.equal (C.pairs map.now) (C.pairs copy.new)) }
    ensures order { OnOk result ((l : List (KC.Value.Meaning × VC.Value.Meaning)) × C.walks map.now l
        × InOrder C.keeps_order l (C.pairs copy.new)) }
    ensures fits { OnOk result (FitsTrip KC.writing VC.writing (KC.COST + VC.COST) C.equal (C.pairs map.now)
        (C.walks map.now)) }
    ensures err { IfErr result (RefusesTrip KC.writing VC.writing (KC.COST + VC.COST) C.equal (C.pairs map.now)
        (C.walks map.now)) }
    ensures unchanged { IfErr result (λ fault. IfUnwritten fault (copy.new ≡ copy.old)) }
    ensures stops { IfErr result (StopsTrip (rules (KC.reading, KC.COST) (VC.reading, VC.COST) (C.equal, C.keeps_order) 0 number false)
        KC.writing VC.writing (C.walks map.now) (C.pairs copy.new)) }
{
    let mut encoding = Vec::new(alloc);
    match write_field::<KC, VC, C, _>(map, number, &mut encoding) {
        Ok(()) => {}
        Err(error) => return Err(TripFault::Encode(error)),
    }
    let mut budget = Budget::new(0);
    let mut rest = encoding.as_slice();
    let ctx = DecodeContext::new(0, &mut budget);
    written_is_read::<KC, VC, C>();
    one_reading::<KC, VC>();
    plain_entries_charge_units::<KC, VC>();
    match read_map_field::<KC, VC, C, _>(alloc, copy, number, &mut rest, ctx, None) {
        Ok(()) => Ok(()),
        Err(error) => Err(TripFault::Decode(error)),
    }
}

/// The same of words in a map that keeps no order, where `Bee` and `BEE` are one key: each word comes back
/// as it was spelled.
///
/// # Errors
/// Those of [`through_bytes`], where a pair costs 25 units.
///
/// ```ignore
/// words_through_bytes(alloc, &words, &mut copy)?;
/// ```
pub fn words_through_bytes(
    alloc: Global,
    words: &HashMap<Word, bool>,
    copy: &mut HashMap<Word, bool>,
) -> Result<(), TripFault>
    requires { copy.old.entries ≡ [] }
    ensures ok { OnOk result (SamePairs same_letters (spelled words.now.entries) (spelled copy.new.entries)) }
    ensures fits { OnOk result (FitsTrip text_writing ⟦<Bool as MapCodec>⟧.writing 25 same_letters (spelled words.now.entries)
        (IsPermutation (spelled words.now.entries))) }
    ensures err { IfErr result (RefusesTrip text_writing ⟦<Bool as MapCodec>⟧.writing 25 same_letters (spelled words.now.entries)
        (IsPermutation (spelled words.now.entries))) }
    ensures unchanged { IfErr result (λ fault. IfUnwritten fault (copy.new ≡ copy.old)) }
    ensures stops { IfErr result (StopsTrip (rules (⟦<ProtoStringMap<Word> as MapValueDecode>⟧.reading, 24)
        (⟦<Bool as MapValueDecode>⟧.reading, 1) (same_letters, false) 0 1 false) text_writing ⟦<Bool as MapCodec>⟧.writing
        (IsPermutation (spelled words.now.entries)) (spelled copy.new.entries)) }
{
    through_bytes::<ProtoStringMap<Word>, Bool, HashMap<Word, bool>>(alloc, 1, words, copy)
}
