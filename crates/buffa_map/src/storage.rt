//! The collection that holds a map field.

ghost use Rattle.std.specs.Prelude.{◌≡◌, Bool, List, Option, [], length, OnErr, OnOk};
ghost use Rattle.std.specs.Cmp.{IsEquivalence};
ghost use Rattle.std.specs.Iterator.{IsFinite};
ghost use Rattle.std.specs.List.{IsDistinct};
ghost use Rattle.std.specs.Map.{keys_of};
ghost use Rattle.std.specs.Map.Iter.{TakesFirst, deref_pair};
ghost use Rattle.buffa_map.specs.Pairs.{InOrder, ListsOnce, SamePairs, means, put};
ghost use denote.Ref.{Bor};

use buffa_wire::Blank;
use std::alloc::AllocError;

/// A map, seen as the set of its pairs. Keys that are equal under the map's own equality are one key.
///
/// ```ignore
/// let mut map: BTreeMap<i32, i32> = BTreeMap::new(alloc);
/// map.storage_insert(key, value)?;
/// ```
pub trait MapStorage {
    /// The type of the keys.
    ///
    /// ```ignore
    /// type Key = K;
    /// ```
    type Key: Blank;

    /// The type of the values.
    ///
    /// ```ignore
    /// type Value = V;
    /// ```
    type Value: Blank;

    /// Whether two keys are one key of the map.
    ghost equal: { Self.Key.Meaning → Self.Key.Meaning → Bool };

    /// What the pairs mean, in some order.
    ghost pairs: { Self → List (Self.Key.Meaning × Self.Value.Meaning) };

    /// Holds of a map and the pairs, in order, that one walk of it may give.
    ghost walks: { Self → List (Self.Key.Meaning × Self.Value.Meaning) → Type 0 };

    /// Whether the pairs are in the order in which their keys came.
    ghost keeps_order: { Bool };

    /// The number of pairs.
    ///
    /// ```ignore
    /// let pairs = map.storage_len();
    /// ```
    fn storage_len(&self) -> usize
        ensures len { result ≡ length (pairs self.now) }
        ensures distinct { IsDistinct equal (keys_of (pairs self.now)) };

    /// Puts the value at the key. A key that is there stays as it is stored, and its value is replaced. Where the
    /// order is kept, a key that is there keeps its place, and a new one comes last.
    ///
    /// # Errors
    /// `AllocError` alone; the map is as it was then.
    ///
    /// ```ignore
    /// map.storage_insert(key, value)?;
    /// ```
    fn storage_insert(&mut self, key: Self::Key, value: Self::Value) -> Result<(), AllocError>
        ensures ok { OnOk result (SamePairs equal
            (put equal (pairs self.old) (Self.Key.meaning key) (Self.Value.meaning value)) (pairs self.new)) }
        ensures order { OnOk result (InOrder keeps_order
            (put equal (pairs self.old) (Self.Key.meaning key) (Self.Value.meaning value)) (pairs self.new)) }
        ensures err { OnErr result (pairs self.new ≡ pairs self.old) };

    /// Takes all pairs out.
    ///
    /// ```ignore
    /// map.storage_clear();
    /// ```
    fn storage_clear(&mut self)
        ensures { pairs self.new ≡ [] };

    /// The equality of keys is an equivalence.
    ghost equivalence: { IsEquivalence equal };

    /// Where the order is kept, each walk gives the pairs in that order.
    ghost walked: { (m : Self) (l : List (Self.Key.Meaning × Self.Value.Meaning)) → walks m l →
        InOrder keeps_order (pairs m) l };
}

/// A map that can be walked while it is lent for `'a`.
///
/// ```ignore
/// for (key, value) in map.storage_iter() { .. }
/// ```
pub trait MapWalk<'a>: MapStorage
where
    Self::Key: 'a,
    Self::Value: 'a,
{
    /// The iterator over the pairs.
    ///
    /// ```ignore
    /// type Iter = btree_map::Iter<'a, K, V>;
    /// ```
    type Iter: Iterator<Item = (&'a Self::Key, &'a Self::Value)>;

    /// What an iterator has left.
    ghost left: { Self.Iter → List (Self.Key × Self.Value) };

    /// A walk, which gives each pair once.
    ///
    /// ```ignore
    /// for (key, value) in map.storage_iter() { .. }
    /// ```
    fn storage_iter(&'a self) -> Self::Iter
        ensures walk { Self.walks self.now (means Self.Key.meaning Self.Value.meaning (left result)) }
        ensures pairs { ListsOnce Self.equal (Self.pairs self.now)
            (means Self.Key.meaning Self.Value.meaning (left result)) }
        ensures can { Self.Iter.can_next result }
        ensures ends { IsFinite (Self.Iter.remaining result) }
        // Each call of `next` gives the first of what is left.
        ensures steps { (s : Self.Iter) (r : Option (Bor Self.Key × Bor Self.Value)) (t : Self.Iter) →
            Self.Iter.next_gives s r t → TakesFirst deref_pair (left s) r (left t) };
}

/// A map whose order is a function of its value: two walks of one value are one list.
///
/// ```ignore
/// impl<K: MapKey + Ord, V: Blank> StableOrder for BTreeMap<K, V> { .. }
/// ```
pub trait StableOrder: MapStorage {
    /// What each walk of a map gives.
    ghost walk: { Self → List (Self.Key.Meaning × Self.Value.Meaning) };

    /// No walk gives another list.
    ghost stable: { (m : Self) (l : List (Self.Key.Meaning × Self.Value.Meaning)) → Self.walks m l → l ≡ walk m };
}

/// A [`StableOrder`] that can be walked while it is lent for `'a`.
///
/// ```ignore
/// impl<'a, K: MapKey + Ord + 'a, V: Blank + 'a> StableWalk<'a> for BTreeMap<K, V> {}
/// ```
pub trait StableWalk<'a>: MapWalk<'a> + StableOrder
where
    Self::Key: 'a,
    Self::Value: 'a,
{}
