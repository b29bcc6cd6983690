//! `BTreeMap` as a storage, walked in the order of its keys.

ghost use Rattle.std.specs.Prelude.{◌≡◌, false};
ghost use Rattle.buffa_map.specs.Pairs.{means};
ghost use Rattle.std.specs.BTreeMap.{BTreeMap};

use crate::storage::{MapStorage, MapWalk, StableOrder, StableWalk};
use buffa_wire::{Blank, MapKey};
use std::alloc::AllocError;
use std::collections::{BTreeMap, btree_map};

impl<K: MapKey + Ord, V: Blank> MapStorage for BTreeMap<K, V> {
    type Key = K;

    type Value = V;

    ghost equal = { K.same };

    ghost pairs = { λ m. means K.meaning V.meaning m.entries };

    ghost use Rattle.std.specs.Prelude.{◌≡◌};

    ghost walks = { λ m l. l ≡ means K.meaning V.meaning m.entries };

    ghost keeps_order = { false };

    fn storage_len(&self) -> usize {
        self.len()
    }

    fn storage_insert(&mut self, key: K, value: V) -> Result<(), AllocError> {
        match self.insert(key, value) {
            Ok(_) => Ok(()),
            Err(_) => Err(AllocError),
        }
    }

    fn storage_clear(&mut self) {
        self.clear();
    }

    ghost equivalence = { K.MapKey.equivalence };

    ghost walked = { λ m l walk never. cc };
}

impl<'a, K: MapKey + Ord + 'a, V: Blank + 'a> MapWalk<'a> for BTreeMap<K, V> {
    ghost use Rattle.std.specs.Prelude.{◌≡◌};

    type Iter = btree_map::Iter<'a, K, V>;

    ghost left = { λ s. s };

    fn storage_iter(&'a self) -> btree_map::Iter<'a, K, V> {
        self.iter()
    }
}

impl<K: MapKey + Ord, V: Blank> StableOrder for BTreeMap<K, V> {
    ghost walk = { λ m. means K.meaning V.meaning m.entries };

    ghost stable = { λ m l h. h };
}

impl<'a, K: MapKey + Ord + 'a, V: Blank + 'a> StableWalk<'a> for BTreeMap<K, V> {}
