// A call on a map, in the storage that is asked for.

use crate::any_map::AnyMap;
use crate::store::Store;
use buffa_map::map_codec::{Map, MapCodec, MapStorage, MapValueDecode, Msg};
use buffa_wire::{MapKey, Message};
use conformance_rows::calls::StorageName;
use conformance_rows::case::Case;
use conformance_rows::fault::Fault;
use conformance_rows::mark::Mark;
use conformance_rows::outcome::Outcome;
use conformance_rows::words::Worded;
use std::alloc::Global;
use std::collections::{BTreeMap, HashMap};
use std::hash::Hash;

/// What a row calls on a map of two codecs.
pub trait OnMap<By>: Drop {
    /// What comes of it in a storage.
    fn on_map<
        KC: MapCodec,
        VC: MapCodec,
        C: Store<By> + MapStorage<Key = KC::Value, Value = VC::Value>,
    >(
        self,
        alloc: Global,
        case: &Case<'_>,
        storage: StorageName,
        mark: &mut Mark,
    ) -> Result<Outcome, Fault>
    where
        KC::Value: Worded<By>,
        VC::Value: Worded<By>;
}

/// What a row calls on a map of messages, which no rewrite writes.
pub trait OnMessages<By>: Drop {
    /// What comes of it in a storage.
    fn on_messages<
        KC: MapCodec,
        M: Message + Worded<By>,
        C: Store<By> + MapStorage<Key = KC::Value, Value = <Msg<M> as MapValueDecode>::Value>,
    >(
        self,
        alloc: Global,
        case: &Case<'_>,
        storage: StorageName,
        mark: &mut Mark,
    ) -> Result<Outcome, Fault>
    where
        KC::Value: Worded<By>;
}

// A row whose types go into the storage.
fn some(found: Result<Outcome, Fault>) -> Result<Option<Outcome>, Fault> {
    Ok(Some(found?))
}

/// Where keys have an order and a hash: in each storage, by one type of maps.
pub fn stored<By, KC: MapCodec, VC: MapCodec, O: OnMap<By>>(
    alloc: Global,
    case: &Case<'_>,
    storage: StorageName,
    mark: &mut Mark,
    call: O,
) -> Result<Option<Outcome>, Fault>
where
    KC::Value: MapKey + Ord + Hash + Worded<By>,
    VC::Value: Worded<By>,
{
    some(call.on_map::<KC, VC, AnyMap<KC::Value, VC::Value>>(alloc, case, storage, mark))
}

/// The same of messages.
pub fn stored_messages<By, KC: MapCodec, M: Message + Worded<By>, O: OnMessages<By>>(
    alloc: Global,
    case: &Case<'_>,
    storage: StorageName,
    mark: &mut Mark,
    call: O,
) -> Result<Option<Outcome>, Fault>
where
    KC::Value: MapKey + Ord + Hash + Worded<By>,
{
    some(call.on_messages::<KC, M, AnyMap<KC::Value, M>>(alloc, case, storage, mark))
}

/// Where keys have a hash: in the two storages that hash them, and none in the other.
pub fn hashed<By, KC: MapCodec, VC: MapCodec, O: OnMap<By>>(
    alloc: Global,
    case: &Case<'_>,
    storage: StorageName,
    mark: &mut Mark,
    call: O,
) -> Result<Option<Outcome>, Fault>
where
    KC::Value: MapKey + Hash + Worded<By>,
    VC::Value: Worded<By>,
{
    match storage {
        StorageName::Ordered => Ok(None),
        StorageName::Hashed => {
            some(call.on_map::<KC, VC, HashMap<KC::Value, VC::Value>>(alloc, case, storage, mark))
        }
        StorageName::Indexed => {
            some(call.on_map::<KC, VC, Map<KC::Value, VC::Value>>(alloc, case, storage, mark))
        }
    }
}

/// Where keys have an order: in a `BTreeMap`, and none in the others.
pub fn ordered<By, KC: MapCodec, VC: MapCodec, O: OnMap<By>>(
    alloc: Global,
    case: &Case<'_>,
    storage: StorageName,
    mark: &mut Mark,
    call: O,
) -> Result<Option<Outcome>, Fault>
where
    KC::Value: MapKey + Ord + Worded<By>,
    VC::Value: Worded<By>,
{
    match storage {
        StorageName::Ordered => {
            some(call.on_map::<KC, VC, BTreeMap<KC::Value, VC::Value>>(alloc, case, storage, mark))
        }
        StorageName::Hashed | StorageName::Indexed => Ok(None),
    }
}
