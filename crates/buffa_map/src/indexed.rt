//! `IndexMap` as a storage, walked in the order in which its keys came.

ghost use Rattle.std.specs.Prelude.{◌≡◌, true};
ghost use Rattle.buffa_map.specs.Pairs.{means};

use crate::storage::{MapStorage, MapWalk, StableOrder, StableWalk};
use buffa_wire::{Blank, MapKey};
use indexmap::IndexMap;
use std::alloc::AllocError;
use std::hash::{BuildHasher, Hash};

/// The usual map: it is walked in the order in which its keys came.
///
/// ```ignore
/// let mut map: Map<String, i32> = Map::new(alloc);
/// ```
pub type Map<K, V> = IndexMap<K, V>;

impl<K: MapKey + Hash, V: Blank, S: BuildHasher> MapStorage for IndexMap<K, V, S> {
    type Key = K;

    type Value = V;

    ghost equal = { K.same };

    ghost pairs = { λ m. means K.meaning V.meaning m.entries };

    ghost use Rattle.std.specs.Prelude.{◌≡◌};

    ghost walks = { λ m l. l ≡ means K.meaning V.meaning m.entries };

    ghost keeps_order = { true };

    fn storage_len(&self) -> usize {
        self.len()
    }

    fn storage_insert(&mut self, key: K, value: V) -> Result<(), AllocError> {
        match self.insert(key, value) {
            Ok(_) => Ok(()),
            Err(_) => Err(AllocError),
        }
    }

    fn storage_clear(&mut self) {
        self.clear();
    }

    ghost equivalence = { K.MapKey.equivalence };

    ghost walked = { λ m l walk _. walk };
}

impl<'a, K: MapKey + Hash + 'a, V: Blank + 'a, S: BuildHasher + 'a> MapWalk<'a>
    for IndexMap<K, V, S> {
    type Iter = indexmap::map::Iter<'a, K, V>;

    ghost left = { λ s. s };

    fn storage_iter(&'a self) -> indexmap::map::Iter<'a, K, V> {
        self.iter()
    }
}

impl<K: MapKey + Hash, V: Blank, S: BuildHasher> StableOrder for IndexMap<K, V, S> {
    ghost walk = { λ m. means K.meaning V.meaning m.entries };

    ghost stable = { λ m l h. h };
}

impl<'a, K: MapKey + Hash + 'a, V: Blank + 'a, S: BuildHasher + 'a> StableWalk<'a>
    for IndexMap<K, V, S> {}
