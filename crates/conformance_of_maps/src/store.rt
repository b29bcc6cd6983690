// Maps that are filled with words, and told as words.

ghost use Rattle.buffa_bytes.specs.Number.{IsNumber};

use crate::any_map::AnyMap;
use buffa_map::map_codec::{
    Map, MapCodec, MapStorage, MapWalk, MapWrite, field_len, size_and_write_field,
};
use buffa_wire::{EncodeError, MapKey};
use conformance_rows::calls::StorageName;
use conformance_rows::fault::Fault;
use conformance_rows::words::{Worded, copied, joined};
use std::alloc::Global;
use std::collections::{BTreeMap, HashMap};
use std::hash::Hash;

/// A map whose pairs are told as words.
pub trait Store<By>: MapWrite + Drop {
    /// A map with no pairs; in this storage, where its type is any.
    fn empty(alloc: Global, storage: StorageName) -> Self;

    /// The pairs as they are walked, each as `key=value`, with a space between them.
    fn words(&self, alloc: Global) -> Result<String, Fault>;

    /// What [`field_len`] answers.
    fn len_of<KC: MapCodec<Value = Self::Key>, VC: MapCodec<Value = Self::Value>>(
        &self,
        tag_len: u64,
    ) -> u64;

    /// What [`size_and_write_field`] does.
    fn sized<KC: MapCodec<Value = Self::Key>, VC: MapCodec<Value = Self::Value>>(
        &self,
        number: u32,
        text: &mut Vec<u8>,
    ) -> Result<u64, EncodeError>
        requires { IsNumber number };
}

/// The pair of a word: a key, and behind an equals sign its value.
pub(crate) fn pair_of<By, K: Worded<By>, V: Worded<By>>(
    alloc: Global,
    word: &str,
) -> Result<(K, V), Fault> {
    let Some((key, value)) = word.split_once('=') else {
        return Err(Fault::Form);
    };
    let key = K::of_word(alloc, key)?;
    let value = V::of_word(alloc, value)?;
    Ok((key, value))
}

/// Puts a pair into a map.
pub(crate) fn put<C: MapStorage>(map: &mut C, key: C::Key, value: C::Value) -> Result<(), Fault> {
    match map.storage_insert(key, value) {
        Ok(()) => Ok(()),
        Err(_) => Err(Fault::Memory),
    }
}

// Puts the pair of a word into a map.
fn put_word<By, K: Worded<By>, V: Worded<By>, C: MapStorage<Key = K, Value = V>>(
    alloc: Global,
    map: &mut C,
    word: &str,
) -> Result<(), Fault> {
    let (key, value) = pair_of::<By, K, V>(alloc, word)?;
    put::<C>(map, key, value)
}

/// The map of pairs that stand as words; in this storage, where its type is any.
pub(crate) fn filled<
    By,
    K: Worded<By>,
    V: Worded<By>,
    C: Store<By> + MapStorage<Key = K, Value = V>,
>(alloc: Global, storage: StorageName, pairs: &str) -> Result<C, Fault> {
    let mut map = C::empty(alloc, storage);
    for pair in pairs.split_ascii_whitespace() {
        put_word::<By, K, V, C>(alloc, &mut map, pair)?;
    }
    Ok(map)
}

// The word of a pair.
fn pair_word<By, K: Worded<By>, V: Worded<By>>(
    alloc: Global,
    key: &K,
    value: &V,
) -> Result<String, Fault> {
    let key = key.word(alloc)?;
    let value = value.word(alloc)?;
    joined(alloc, key.as_str(), "=", value.as_str())
}

// Words, and one more.
fn with_word(alloc: Global, words: &str, word: &str) -> Result<String, Fault> {
    if words.is_empty() {
        return copied(alloc, word);
    }
    joined(alloc, words, " ", word)
}

// Words, and that of one pair more.
fn with_pair<By, K: Worded<By>, V: Worded<By>>(
    alloc: Global,
    words: Result<String, Fault>,
    key: &K,
    value: &V,
) -> Result<String, Fault> {
    let words = words?;
    let word = pair_word::<By, K, V>(alloc, key, value)?;
    with_word(alloc, words.as_str(), word.as_str())
}

/// The pairs of a map as words.
pub(crate) fn told<
    'a,
    By,
    K: Worded<By> + 'a,
    V: Worded<By> + 'a,
    C: MapWalk<'a> + MapStorage<Key = K, Value = V>,
>(alloc: Global, map: &'a C) -> Result<String, Fault> {
    let mut words = Ok(String::new(alloc));
    for (key, value) in map.storage_iter() {
        words = with_pair::<By, K, V>(alloc, words, key, value);
    }
    words
}

/// The length of a map field.
pub(crate) fn len_in<
    'a,
    KC: MapCodec,
    VC: MapCodec,
    C: MapWalk<'a> + MapStorage<Key = KC::Value, Value = VC::Value>,
>(map: &'a C, tag_len: u64) -> u64
where
    KC::Value: 'a,
    VC::Value: 'a,
{
    field_len::<KC, VC, C>(map, tag_len)
}

// A map field, sized and written.
fn sized_in<
    'a,
    KC: MapCodec,
    VC: MapCodec,
    C: MapWalk<'a> + MapStorage<Key = KC::Value, Value = VC::Value>,
>(map: &'a C, number: u32, text: &mut Vec<u8>) -> Result<u64, EncodeError>
where
    KC::Value: 'a,
    VC::Value: 'a,
    requires { IsNumber number }
{
    size_and_write_field::<KC, VC, C>(map, number, text)
}

impl<By, K: MapKey + Ord + Hash + Worded<By>, V: Worded<By>> Store<By> for AnyMap<K, V> {
    fn empty(alloc: Global, storage: StorageName) -> Self {
        match storage {
            StorageName::Ordered => AnyMap::Ordered(BTreeMap::new(alloc)),
            StorageName::Hashed => AnyMap::Hashed(HashMap::new(alloc)),
            StorageName::Indexed => AnyMap::Indexed(Map::new(alloc)),
        }
    }

    fn words(&self, alloc: Global) -> Result<String, Fault> {
        match self {
            AnyMap::Ordered(map) => told::<By, K, V, BTreeMap<K, V>>(alloc, map),
            AnyMap::Hashed(map) => told::<By, K, V, HashMap<K, V>>(alloc, map),
            AnyMap::Indexed(map) => told::<By, K, V, Map<K, V>>(alloc, map),
        }
    }

    fn len_of<KC: MapCodec<Value = K>, VC: MapCodec<Value = V>>(&self, tag_len: u64) -> u64 {
        match self {
            AnyMap::Ordered(map) => len_in::<KC, VC, BTreeMap<K, V>>(map, tag_len),
            AnyMap::Hashed(map) => len_in::<KC, VC, HashMap<K, V>>(map, tag_len),
            AnyMap::Indexed(map) => len_in::<KC, VC, Map<K, V>>(map, tag_len),
        }
    }

    fn sized<KC: MapCodec<Value = K>, VC: MapCodec<Value = V>>(
        &self,
        number: u32,
        text: &mut Vec<u8>,
    ) -> Result<u64, EncodeError> {
        match self {
            AnyMap::Ordered(map) => sized_in::<KC, VC, BTreeMap<K, V>>(map, number, text),
            AnyMap::Hashed(map) => sized_in::<KC, VC, HashMap<K, V>>(map, number, text),
            AnyMap::Indexed(map) => sized_in::<KC, VC, Map<K, V>>(map, number, text),
        }
    }
}

impl<By, K: MapKey + Ord + Worded<By>, V: Worded<By>> Store<By> for BTreeMap<K, V> {
    fn empty(alloc: Global, _storage: StorageName) -> Self {
        BTreeMap::new(alloc)
    }

    fn words(&self, alloc: Global) -> Result<String, Fault> {
        told::<By, K, V, Self>(alloc, self)
    }

    fn len_of<KC: MapCodec<Value = K>, VC: MapCodec<Value = V>>(&self, tag_len: u64) -> u64 {
        len_in::<KC, VC, Self>(self, tag_len)
    }

    fn sized<KC: MapCodec<Value = K>, VC: MapCodec<Value = V>>(
        &self,
        number: u32,
        text: &mut Vec<u8>,
    ) -> Result<u64, EncodeError> {
        sized_in::<KC, VC, Self>(self, number, text)
    }
}

impl<By, K: MapKey + Hash + Worded<By>, V: Worded<By>> Store<By> for HashMap<K, V> {
    fn empty(alloc: Global, _storage: StorageName) -> Self {
        HashMap::new(alloc)
    }

    fn words(&self, alloc: Global) -> Result<String, Fault> {
        told::<By, K, V, Self>(alloc, self)
    }

    fn len_of<KC: MapCodec<Value = K>, VC: MapCodec<Value = V>>(&self, tag_len: u64) -> u64 {
        len_in::<KC, VC, Self>(self, tag_len)
    }

    fn sized<KC: MapCodec<Value = K>, VC: MapCodec<Value = V>>(
        &self,
        number: u32,
        text: &mut Vec<u8>,
    ) -> Result<u64, EncodeError> {
        sized_in::<KC, VC, Self>(self, number, text)
    }
}

impl<By, K: MapKey + Hash + Worded<By>, V: Worded<By>> Store<By> for Map<K, V> {
    fn empty(alloc: Global, _storage: StorageName) -> Self {
        Map::new(alloc)
    }

    fn words(&self, alloc: Global) -> Result<String, Fault> {
        told::<By, K, V, Self>(alloc, self)
    }

    fn len_of<KC: MapCodec<Value = K>, VC: MapCodec<Value = V>>(&self, tag_len: u64) -> u64 {
        len_in::<KC, VC, Self>(self, tag_len)
    }

    fn sized<KC: MapCodec<Value = K>, VC: MapCodec<Value = V>>(
        &self,
        number: u32,
        text: &mut Vec<u8>,
    ) -> Result<u64, EncodeError> {
        sized_in::<KC, VC, Self>(self, number, text)
    }
}
