// Calls that size and write map fields, or put a pair into a map.

ghost use Rattle.buffa_bytes.specs.Number.{IsNumber};

use crate::storages::OnMap;
use crate::store::{Store, filled, pair_of, put};
use buffa_map::map_codec::{MapCodec, MapStorage, MapWrite};
use buffa_wire::{EncodeError, varint_len};
use conformance_rows::calls::StorageName;
use conformance_rows::case::Case;
use conformance_rows::fault::Fault;
use conformance_rows::mark::Mark;
use conformance_rows::outcome::{Outcome, got, in_words, text_told, two_in_words, written};
use conformance_rows::words::Worded;
use std::alloc::Global;

/// The bytes of the tag of a map field.
pub(crate) fn tag_len_of(number: u32) -> u64 {
    varint_len(u64::from(number) * 8 + 2) as u64
}

/// Writes a map.
pub(crate) fn put_text<
    KC: MapCodec,
    VC: MapCodec,
    C: MapWrite + MapStorage<Key = KC::Value, Value = VC::Value>,
>(map: &C, number: u32, text: &mut Vec<u8>) -> Result<(), EncodeError>
    requires { IsNumber number }
{
    map.storage_write::<KC, VC, Vec<u8>>(number, text)
}

// Writes a map, with its length before it where the row asks for both.
fn write<
    By,
    KC: MapCodec,
    VC: MapCodec,
    C: Store<By> + MapStorage<Key = KC::Value, Value = VC::Value>,
>(map: &C, sized: bool, number: u32, text: &mut Vec<u8>) -> Result<u64, EncodeError>
    requires { IsNumber number }
{
    if sized {
        return map.sized::<KC, VC>(number, text);
    }
    put_text::<KC, VC, C>(map, number, text)?;
    Ok(map.len_of::<KC, VC>(tag_len_of(number)))
}

// A length and a number of pairs; nothing where the map wasn't written.
fn pairs_told(alloc: Global, len: Result<u64, EncodeError>, pairs: usize) -> Result<String, Fault> {
    match len {
        Ok(len) => two_in_words(alloc, &len, &pairs),
        Err(_) => Ok(String::new(alloc)),
    }
}

// What is told of a write.
fn written_told(
    alloc: Global,
    len: Result<u64, EncodeError>,
    pairs: usize,
    text: &[u8],
    refused: bool,
) -> Result<Outcome, Fault> {
    let words = pairs_told(alloc, len, pairs);
    Outcome::of_words(
        alloc,
        written(alloc, len),
        words,
        text_told(alloc, text),
        refused,
    )
}

// How many pairs there are.
fn count<C: MapStorage>(map: &C) -> usize {
    map.storage_len()
}

// Takes all pairs out.
fn empty<C: MapStorage>(map: &mut C) {
    map.storage_clear();
}

// What comes of a write: the length and the encoding; and how many pairs there are.
fn writing<
    By,
    KC: MapCodec,
    VC: MapCodec,
    C: Store<By> + MapStorage<Key = KC::Value, Value = VC::Value>,
>(alloc: Global, case: &Case<'_>, storage: StorageName, mark: &mut Mark) -> Result<Outcome, Fault>
where
    KC::Value: Worded<By>,
    VC::Value: Worded<By>,
{
    let number = case.field_number()?;
    let map = filled::<By, KC::Value, VC::Value, C>(alloc, storage, case.before())?;
    let mut text = Vec::new(alloc);
    mark.begin(alloc);
    let len = write::<By, KC, VC, C>(&map, case.call == "size-and-write", number, &mut text);
    let refused = mark.end();
    written_told(alloc, len, count::<C>(&map), text.as_slice(), refused)
}

// A length, and how many pairs there are before and after.
fn sizes_told(alloc: Global, len: u64, pairs: usize, after: usize) -> Result<String, Fault> {
    let both = two_in_words(alloc, &len, &pairs)?;
    two_in_words(alloc, &both, &after)
}

// What is told of sizes.
fn sized_told(
    alloc: Global,
    words: Result<String, Fault>,
    refused: bool,
) -> Result<Outcome, Fault> {
    let none = Ok(String::new(alloc));
    Outcome::of_words(alloc, got(alloc, true), words, none, refused)
}

// How long a map field is; nothing is written.
fn sizing<
    By,
    KC: MapCodec,
    VC: MapCodec,
    C: Store<By> + MapStorage<Key = KC::Value, Value = VC::Value>,
>(alloc: Global, case: &Case<'_>, storage: StorageName, mark: &mut Mark) -> Result<Outcome, Fault>
where
    KC::Value: Worded<By>,
    VC::Value: Worded<By>,
{
    let tag_len = u64::from(case.number()?);
    let mut map = filled::<By, KC::Value, VC::Value, C>(alloc, storage, case.before())?;
    mark.begin(alloc);
    let len = map.len_of::<KC, VC>(tag_len);
    let pairs = count::<C>(&map);
    empty::<C>(&mut map);
    let refused = mark.end();
    let words = sizes_told(alloc, len, pairs, count::<C>(&map));
    sized_told(alloc, words, refused)
}

// What is told of a pair that is put.
fn put_told(
    alloc: Global,
    is_put: bool,
    pairs: Result<String, Fault>,
    count: usize,
    refused: bool,
) -> Result<Outcome, Fault> {
    let none = Ok(String::new(alloc));
    let count = in_words(alloc, &count);
    Outcome::of_words(alloc, got(alloc, is_put), pairs, none, refused)?.with_left(count, 0)
}

// A pair that is put into a map: the pairs then, and how many there are.
fn putting<
    By,
    KC: MapCodec,
    VC: MapCodec,
    C: Store<By> + MapStorage<Key = KC::Value, Value = VC::Value>,
>(alloc: Global, case: &Case<'_>, storage: StorageName, mark: &mut Mark) -> Result<Outcome, Fault>
where
    KC::Value: Worded<By>,
    VC::Value: Worded<By>,
{
    let mut map = filled::<By, KC::Value, VC::Value, C>(alloc, storage, case.before())?;
    let (key, value) = pair_of::<By, KC::Value, VC::Value>(alloc, case.input())?;
    mark.begin(alloc);
    let is_put = put::<C>(&mut map, key, value).is_ok();
    let refused = mark.end();
    let pairs = map.words(alloc);
    put_told(alloc, is_put, pairs, count::<C>(&map), refused)
}

/// A map that is sized or written, or takes a pair.
#[derive(Drop)]
pub struct Written;

impl<By> OnMap<By> for Written {
    fn on_map<
        KC: MapCodec,
        VC: MapCodec,
        C: Store<By> + MapStorage<Key = KC::Value, Value = VC::Value>,
    >(
        self,
        alloc: Global,
        case: &Case<'_>,
        storage: StorageName,
        mark: &mut Mark,
    ) -> Result<Outcome, Fault>
    where
        KC::Value: Worded<By>,
        VC::Value: Worded<By>,
    {
        match case.call {
            "put" => putting::<By, KC, VC, C>(alloc, case, storage, mark),
            "size" => sizing::<By, KC, VC, C>(alloc, case, storage, mark),
            _ => writing::<By, KC, VC, C>(alloc, case, storage, mark),
        }
    }
}
