//! Many pairs in each storage, and maps that are passed on or come back.

use buffa_map::map_codec::{Int32, Map, MapStorage, MapWalk};
use buffa_wire::UnknownFields;
use sample_types::hues::{New, Old};
use sample_types::passed_on::passed_on;
use sample_types::round_trip::words_through_bytes;
use sample_types::word::Word;
use std::alloc::Global;
use std::collections::{BTreeMap, HashMap};
use std::test::Fail;

// How many keys there are.
const KEYS: i32 = 10_000;

// Puts a pair of each key, and then another value in its place.
fn fill<C: MapStorage<Key = i32, Value = i32>>(map: &mut C) -> Result<(), Fail> {
    for key in 0..KEYS {
        map.storage_insert(key, 0)?;
    }
    for key in 0..KEYS {
        map.storage_insert(key, key)?;
    }
    Ok(())
}

// Whether each key is there once, with the value that was put last.
fn is_filled<'a, C: MapWalk<'a> + MapStorage<Key = i32, Value = i32>>(map: &'a C) -> bool {
    let mut same = map.storage_len() == KEYS as usize;
    for (key, value) in map.storage_iter() {
        same = same && *key == *value && 0 <= *key && *key < KEYS;
    }
    same
}

#[test]
fn many_pairs_in_a_hash_map(rt: HostRuntime) -> Result<(), Fail> {
    let mut hashed: HashMap<i32, i32> = HashMap::new(rt.alloc());
    fill(&mut hashed)?;
    assert!(rt; is_filled(&hashed));
    Ok(())
}

#[test]
fn many_pairs_in_a_btree_map(rt: HostRuntime) -> Result<(), Fail> {
    let mut ordered: BTreeMap<i32, i32> = BTreeMap::new(rt.alloc());
    fill(&mut ordered)?;
    assert!(rt; is_filled(&ordered));
    Ok(())
}

#[test]
fn many_pairs_in_an_index_map(rt: HostRuntime) -> Result<(), Fail> {
    let mut indexed: Map<i32, i32> = Map::new(rt.alloc());
    fill(&mut indexed)?;
    assert!(rt; is_filled(&indexed));
    Ok(())
}

// What an older reader passes on of a run: the map, and what it doesn't understand.
fn passed(alloc: Global) -> Result<(BTreeMap<i32, New>, UnknownFields), Fail> {
    // 1 = C, 1 = A, 1 = C.
    let run = [
        0x2A, 0x04, 0x08, 0x01, 0x10, 0x02, 0x2A, 0x04, 0x08, 0x01, 0x10, 0x00, 0x2A, 0x04, 0x08,
        0x01, 0x10, 0x02,
    ];
    let mut scratch: BTreeMap<i32, Old> = BTreeMap::new(alloc);
    let mut map: BTreeMap<i32, New> = BTreeMap::new(alloc);
    let mut unknown = UnknownFields::new(alloc);
    passed_on::<Int32, Old, New, _, _>(alloc, 5, &run, 10, &mut scratch, &mut map, &mut unknown)?;
    Ok((map, unknown))
}

#[test]
fn a_run_is_passed_on_by_an_older_reader(rt: HostRuntime) -> Result<(), Fail> {
    let (map, unknown) = passed(rt.alloc())?;
    assert!(rt; map.get(&1).copied() == Some(New::C));
    assert!(rt; unknown.len() == 0);
    Ok(())
}

// Two words, the first put twice.
fn two_words(alloc: Global) -> Result<HashMap<Word, bool>, Fail> {
    let mut words: HashMap<Word, bool> = HashMap::new(alloc);
    for (text, value) in [("Bee", false), ("a", true), ("BEE", true)] {
        let text = String::from_str(alloc, text)?;
        words.storage_insert(Word { text }, value)?;
    }
    Ok(words)
}

// What words come back as.
fn back(alloc: Global, words: HashMap<Word, bool>) -> Result<HashMap<Word, bool>, Fail> {
    let mut copy: HashMap<Word, bool> = HashMap::new(alloc);
    words_through_bytes(alloc, &words, &mut copy)?;
    Ok(copy)
}

#[test]
fn words_come_back(rt: HostRuntime) -> Result<(), Fail> {
    let copy = back(rt.alloc(), two_words(rt.alloc())?)?;
    assert!(rt; copy.storage_len() == 2);
    for (word, value) in &copy {
        assert!(rt; *value);
        assert!(rt; word.text.as_str() == "Bee" || word.text.as_str() == "a");
    }
    Ok(())
}
