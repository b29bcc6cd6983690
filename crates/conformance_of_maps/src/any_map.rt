// A map in any storage, so that each call is made of one type of maps.

ghost use Rattle.std.specs.Prelude.{◌≡◌, false};
ghost use Rattle.std.specs.BTreeMap.{BTreeMap};
ghost use Rattle.std.specs.HashMap.{HashMap};
ghost use Rattle.std.specs.List.Sorted.{IsPermutation};
ghost use Rattle.buffa_map.specs.Pairs.{means};

use buffa_map::map_codec::{Map, MapCodec, MapStorage, MapWrite};
use buffa_wire::{Blank, EncodeError, EncodeSink, MapKey};
use std::alloc::AllocError;
use std::collections::{BTreeMap, HashMap};
use std::hash::Hash;

/// A `BTreeMap`, a `HashMap` or a `Map`.
#[derive(Drop)]
pub enum AnyMap<K: MapKey + Ord + Hash, V: Blank> {
    /// In the order of keys.
    Ordered(BTreeMap<K, V>),
    /// In any order.
    Hashed(HashMap<K, V>),
    /// In the order in which keys came.
    Indexed(Map<K, V>),
}

impl<K: MapKey + Ord + Hash, V: Blank> MapStorage for AnyMap<K, V> {
    ghost use Rattle.std.specs.Prelude.{◌≡◌};
    ghost use Rattle.conformance_of_maps.specs.declared.any_map.AnyMap.TheVariants.{Hashed, Indexed, Ordered};

    type Key = K;

    type Value = V;

    ghost equal = { K.same };

    ghost pairs = { elim [
      | Ordered m ↦ means K.meaning V.meaning m.entries
      | Hashed m ↦ means K.meaning V.meaning m.entries
      | Indexed m ↦ means K.meaning V.meaning m.entries
    ] };

    ghost walks = { elim [
      | Ordered m ↦ (λ l. l ≡ means K.meaning V.meaning m.entries)
      | Hashed m ↦ (λ l. IsPermutation (means K.meaning V.meaning m.entries) l)
      | Indexed m ↦ (λ l. l ≡ means K.meaning V.meaning m.entries)
    ] };

    ghost keeps_order = { false };

    fn storage_len(&self) -> usize {
        match self {
            AnyMap::Ordered(map) => map.storage_len(),
            AnyMap::Hashed(map) => map.storage_len(),
            AnyMap::Indexed(map) => map.storage_len(),
        }
    }

    fn storage_insert(&mut self, key: K, value: V) -> Result<(), AllocError> {
        match self {
            AnyMap::Ordered(map) => map.storage_insert(key, value),
            AnyMap::Hashed(map) => map.storage_insert(key, value),
            AnyMap::Indexed(map) => map.storage_insert(key, value),
        }
    }

    fn storage_clear(&mut self) {
        match self {
            AnyMap::Ordered(map) => map.storage_clear(),
            AnyMap::Hashed(map) => map.storage_clear(),
            AnyMap::Indexed(map) => map.storage_clear(),
        }
    }

    ghost equivalence = { K.MapKey.equivalence };

    ghost walked = { λ m l walk never. cc };
}

impl<K: MapKey + Ord + Hash, V: Blank> MapWrite for AnyMap<K, V> {
    fn storage_write<KC: MapCodec<Value = K>, VC: MapCodec<Value = V>, S: EncodeSink>(
        &self,
        number: u32,
        sink: &mut S,
    ) -> Result<(), EncodeError> {
        match self {
            AnyMap::Ordered(map) => map.storage_write::<KC, VC, S>(number, sink),
            AnyMap::Hashed(map) => map.storage_write::<KC, VC, S>(number, sink),
            AnyMap::Indexed(map) => map.storage_write::<KC, VC, S>(number, sink),
        }
    }
}
