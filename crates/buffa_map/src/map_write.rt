//! Storages that can be written by a function that fills them too.

ghost use Rattle.buffa_map.specs.Calls.{WritesMapField};
ghost use Rattle.buffa_bytes.specs.Number.{IsNumber};

use crate::codec::MapCodec;
use crate::storage::MapStorage;
use crate::write::{write_field, write_record};
use buffa_wire::{Blank, EncodeError, EncodeSink, MapKey};
use indexmap::IndexMap;
use std::collections::{BTreeMap, HashMap};
use std::hash::{BuildHasher, Hash};

/// A map that can be written by a method of its own, as [`write_field`] writes it.
///
/// A function that both fills and writes a map asks for it: [`write_field`] walks the map (`MapWalk<'a>`), and a
/// function can't ask for a walk of every lifetime `'a`, nor for one of its `&'a mut` and say what the map holds then.
///
/// ```ignore
/// map.storage_write::<KC, VC, S>(number, sink)?;
/// ```
pub trait MapWrite: MapStorage {
    /// Writes the map as a map field, like [`write_field`].
    ///
    /// # Errors
    /// Those of [`write_field`].
    ///
    /// ```ignore
    /// map.storage_write::<KC, VC, S>(number, sink)?;
    /// ```
    fn storage_write<
        KC: MapCodec<Value = Self::Key>,
        VC: MapCodec<Value = Self::Value>,
        S: EncodeSink,
    >(&self, number: u32, sink: &mut S) -> Result<(), EncodeError>
        requires { IsNumber number }
        ensures { WritesMapField Self.equal Self.walks Self.pairs self.now KC.writing VC.writing KC.fits VC.fits number
            S.written S.room sink.old sink.new result };
}

impl<K: MapKey + Ord, V: Blank> MapWrite for BTreeMap<K, V> {
    fn storage_write<KC: MapCodec<Value = K>, VC: MapCodec<Value = V>, S: EncodeSink>(
        &self,
        number: u32,
        sink: &mut S,
    ) -> Result<(), EncodeError> {
        write_field::<KC, VC, BTreeMap<K, V>, S>(self, number, sink)
    }
}

impl<K: MapKey + Hash, V: Blank, S: BuildHasher> MapWrite for HashMap<K, V, S> {
    fn storage_write<KC: MapCodec<Value = K>, VC: MapCodec<Value = V>, W: EncodeSink>(
        &self,
        number: u32,
        sink: &mut W,
    ) -> Result<(), EncodeError> {
        for (key, value) in self.iter() {
            write_record::<KC, VC, W>(number, key, value, sink)?;
        }
        Ok(())
    }
}

impl<K: MapKey + Hash, V: Blank, S: BuildHasher> MapWrite for IndexMap<K, V, S> {
    fn storage_write<KC: MapCodec<Value = K>, VC: MapCodec<Value = V>, W: EncodeSink>(
        &self,
        number: u32,
        sink: &mut W,
    ) -> Result<(), EncodeError> {
        for (key, value) in self.iter() {
            write_record::<KC, VC, W>(number, key, value, sink)?;
        }
        Ok(())
    }
}
