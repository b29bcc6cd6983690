//! What is left of a message, of messages in an `Option`, in a list and in a map.

ghost use Rattle.buffa_discard.specs.Discarded.{EachDiscarded, IfThereDiscarded, ValuesDiscarded};

use buffa_map::map_codec::Map;
use std::alloc::Global;
use std::collections::BTreeMap;
use std::hash::Hash;

/// A message from which the fields can be taken that its type doesn't declare, and those of each message in it.
///
/// Messages that are an optional member, in a list or in a map are gone through by the impls below.
///
/// ```ignore
/// payment.discard_unknown_fields(alloc);
/// ```
pub trait DiscardUnknown: Drop {
    /// Whether the second is the first without them: its members are the same, but for the messages in it, which are without
    /// theirs.
    ghost Discarded: { Self → Self → Type 0 };

    /// Takes them out. It asks for no memory.
    ///
    /// ```ignore
    /// payment.discard_unknown_fields(alloc);
    /// ```
    fn discard_unknown_fields(&mut self, alloc: Global)
        ensures { Discarded self.old self.new };
}

impl<M: DiscardUnknown> DiscardUnknown for Option<M> {
    ghost Discarded = { IfThereDiscarded M.Discarded };

    fn discard_unknown_fields(&mut self, alloc: Global) {
        if let Some(message) = self {
            message.discard_unknown_fields(alloc);
        }
    }
}

impl<M: DiscardUnknown> DiscardUnknown for Vec<M> {
    ghost Discarded = { λ old new. EachDiscarded M.Discarded old.items new.items };

    fn discard_unknown_fields(&mut self, alloc: Global) {
        'messages: for message in self.iter_mut() {
            message.discard_unknown_fields(alloc);
        }
    }
}

impl<K: Hash + Eq + Drop, M: DiscardUnknown> DiscardUnknown for Map<K, M> {
    ghost Discarded = { λ old new. ValuesDiscarded M.Discarded old.entries new.entries };

    fn discard_unknown_fields(&mut self, alloc: Global) {
        self.retain(|_, message| {
            message.discard_unknown_fields(alloc);
            true
        });
    }
}

impl<K: Ord + Drop, M: DiscardUnknown> DiscardUnknown for BTreeMap<K, M> {
    ghost Discarded = { λ old new. ValuesDiscarded M.Discarded old.entries new.entries };

    fn discard_unknown_fields(&mut self, alloc: Global) {
        self.retain(|_, message| {
            message.discard_unknown_fields(alloc);
            true
        });
    }
}
