//! `HashMap` as a storage, walked in any order.

ghost use Rattle.std.specs.Prelude.{false};
ghost use Rattle.std.specs.HashMap.{HashMap};
ghost use Rattle.std.specs.List.Sorted.{IsPermutation};
ghost use Rattle.buffa_map.specs.Pairs.{means};

use crate::storage::{MapStorage, MapWalk};
use buffa_wire::{Blank, MapKey};
use std::alloc::AllocError;
use std::collections::{HashMap, hash_map};
use std::hash::{BuildHasher, Hash};

impl<K: MapKey + Hash, V: Blank, S: BuildHasher> MapStorage for HashMap<K, V, S> {
    type Key = K;

    type Value = V;

    ghost equal = { K.same };

    ghost pairs = { λ m. means K.meaning V.meaning m.entries };

    // The order is that of the hasher, which may change from one walk to the next.
    ghost walks = { λ m l. IsPermutation (means K.meaning V.meaning m.entries) l };

    ghost keeps_order = { false };

    fn storage_len(&self) -> usize {
        self.len()
    }

    fn storage_insert(&mut self, key: K, value: V) -> Result<(), AllocError> {
        match self.insert(key, value) {
            Ok(_) => Ok(()),
            Err(_) => Err(AllocError),
        }
    }

    fn storage_clear(&mut self) {
        self.clear();
    }

    ghost equivalence = { K.MapKey.equivalence };

    ghost walked = { λ m l walk never. cc };
}

impl<'a, K: MapKey + Hash + 'a, V: Blank + 'a, S: BuildHasher + 'a> MapWalk<'a>
    for HashMap<K, V, S> {
    type Iter = hash_map::Iter<'a, K, V>;

    ghost left = { λ s. s };

    fn storage_iter(&'a self) -> hash_map::Iter<'a, K, V> {
        self.iter()
    }
}
