//! What the keys of a map of messages of its own type are.

ghost use Rattle.buffa_recursive.specs.MapKeys.{Keys, keys_by};

use buffa_fields::members::ordered_key::OrderedKey;
use buffa_map::map_codec::MapCodec;
use buffa_wire::Blank;
use std::marker::PhantomData;

/// The keys of a codec.
///
/// ```ignore
/// map_inside 5 ⟦<ByKey<Int32> as Keyed>⟧.keys (..)
/// ```
pub struct ByKey<KC> {
    key: PhantomData<KC>,
}

/// Keys, for contracts.
pub trait Keyed {
    /// What a key means.
    type Key;

    /// How they are read and written, and in which order they are walked.
    ghost keys: { Keys Self.Key };
}

impl<KC: MapCodec> Keyed for ByKey<KC>
where
    KC::Value: OrderedKey,
{
    type Key = <KC::Value as Blank>::Meaning;

    ghost keys = { keys_by KC.reading KC.writing KC.COST KC.Value.order KC.fits KC.normal };
}
