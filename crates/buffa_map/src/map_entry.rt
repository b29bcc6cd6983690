//! The parts of an entry, as they are read.

/// What the fields of an entry have said: the key, the value, and whether the value is a declared one.
#[derive(Drop)]
pub struct MapEntry<K, V> {
    /// The key of the last key field, or the default.
    pub key: K,
    /// What the value fields made of the default, in order.
    pub value: V,
    /// Whether the last value field held a declared value; true where there is none.
    pub known: bool,
}
