//! Messages of which something is required, as in proto2.

ghost use Rattle.std.specs.Prelude.{◌≡◌, Bool, None, Some, true};
ghost use Rattle.std.specs.List.{list_all};

use buffa_map::map_codec::Map;
use std::collections::BTreeMap;
use std::hash::Hash;

/// A message of which fields are required, or those of a message in it: a message that lacks one is read, and this says so.
///
/// Messages that are an optional member, in a list or in a map are looked into, by the impls below.
///
/// ```ignore
/// impl Required for Named { .. }
/// ```
pub trait Required {
    /// Whether all that is required is there.
    ghost initialized: { Self → Bool };

    /// Whether all that is required is there.
    ///
    /// ```ignore
    /// let is_whole = named.is_initialized();
    /// ```
    fn is_initialized(&self) -> bool
        ensures { result ≡ initialized self.now };
}

impl<M: Required> Required for Option<M> {
    ghost initialized = { elim [ Some m ↦ M.initialized m | None ↦ true ] };

    fn is_initialized(&self) -> bool {
        match self {
            Some(message) => message.is_initialized(),
            None => true,
        }
    }
}

impl<M: Required> Required for Vec<M> {
    ghost initialized = { λ v. list_all M.initialized v.items };

    fn is_initialized(&self) -> bool {
        self.iter().all(|message| message.is_initialized())
    }
}

impl<K: Hash + Eq, M: Required> Required for Map<K, M> {
    ghost initialized = { λ m. list_all (λ pair. M.initialized pair.1) m.entries };

    fn is_initialized(&self) -> bool {
        self.iter().all(|(_, message)| message.is_initialized())
    }
}

impl<K: Ord, M: Required> Required for BTreeMap<K, M> {
    ghost initialized = { λ m. list_all (λ pair. M.initialized pair.1) m.entries };

    fn is_initialized(&self) -> bool {
        self.iter().all(|(_, message)| message.is_initialized())
    }
}
