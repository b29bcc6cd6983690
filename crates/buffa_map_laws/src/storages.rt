//! Which storages `BTreeMap`, `HashMap` and `IndexMap` are.

ghost use Rattle.std.specs.Prelude.{◌≡◌, ◌↔◌, List, false, true};
ghost use Rattle.std.specs.BTreeMap.{IsOrdered};
ghost use Rattle.std.specs.List.Sorted.{IsPermutation};
ghost use Rattle.buffa_map.specs.Pairs.{HaveOneWalk, means};

use buffa_map::map_codec::{MapStorage, StableOrder};
use buffa_wire::{Blank, MapKey};
use indexmap::IndexMap;
use std::collections::{BTreeMap, HashMap};
use std::hash::{BuildHasher, Hash};

/// A `BTreeMap` is its entries, in which two keys are one that `==` says are equal; it is walked in their order.
pub fn ordered_maps_are_these<K: MapKey + Ord, V: Blank>()
    ensures pairs { (m : _) → ⟦<BTreeMap<K, V> as MapStorage>⟧.pairs m ≡ means K.meaning V.meaning m.entries }
    ensures keys { (a b : K) → ⟦<BTreeMap<K, V> as MapStorage>⟧.equal (K.meaning a) (K.meaning b) ≡ K.eq a b }
    ensures order { ⟦<BTreeMap<K, V> as MapStorage>⟧.keeps_order ≡ false }
    ensures walks { (m : _) (l : List (K.Meaning × V.Meaning)) →
        ⟦<BTreeMap<K, V> as MapStorage>⟧.walks m l ↔ (l ≡ means K.meaning V.meaning m.entries) }
    ensures walk { (m : _) → ⟦<BTreeMap<K, V> as StableOrder>⟧.walk m ≡ means K.meaning V.meaning m.entries }
{}

/// Two `BTreeMap`s that find the same pairs have one walk. Their keys ascend, as those of each `BTreeMap` do.
pub fn ordered_maps_have_one_walk<K: MapKey + Ord, V: Blank>()
    ensures { HaveOneWalk ⟦<BTreeMap<K, V> as MapStorage>⟧.walks (IsOrdered K.cmp) K.same
        (λ m. means K.meaning V.meaning m.entries) }
{}

/// A `HashMap` is its entries, in which two keys are one that `==` says are equal; it is walked in any order.
pub fn hashed_maps_are_these<K: MapKey + Hash, V: Blank, S: BuildHasher>()
    ensures pairs { (m : _) → ⟦<HashMap<K, V, S> as MapStorage>⟧.pairs m ≡ means K.meaning V.meaning m.entries }
    ensures keys { (a b : K) → ⟦<HashMap<K, V, S> as MapStorage>⟧.equal (K.meaning a) (K.meaning b) ≡ K.eq a b }
    ensures order { ⟦<HashMap<K, V, S> as MapStorage>⟧.keeps_order ≡ false }
    ensures walks { (m : _) (l : List (K.Meaning × V.Meaning)) →
        ⟦<HashMap<K, V, S> as MapStorage>⟧.walks m l ↔ IsPermutation (means K.meaning V.meaning m.entries) l }
{}

/// An `IndexMap` is its entries, in which two keys are one that `==` says are equal; it is walked in the order in which
/// the keys came, and keeps it.
pub fn index_maps_are_these<K: MapKey + Hash, V: Blank, S: BuildHasher>()
    ensures pairs { (m : _) → ⟦<IndexMap<K, V, S> as MapStorage>⟧.pairs m ≡ means K.meaning V.meaning m.entries }
    ensures keys { (a b : K) → ⟦<IndexMap<K, V, S> as MapStorage>⟧.equal (K.meaning a) (K.meaning b) ≡ K.eq a b }
    ensures order { ⟦<IndexMap<K, V, S> as MapStorage>⟧.keeps_order ≡ true }
    ensures walks { (m : _) (l : List (K.Meaning × V.Meaning)) →
        ⟦<IndexMap<K, V, S> as MapStorage>⟧.walks m l ↔ (l ≡ means K.meaning V.meaning m.entries) }
    ensures walk { (m : _) → ⟦<IndexMap<K, V, S> as StableOrder>⟧.walk m ≡ means K.meaning V.meaning m.entries }
{}
