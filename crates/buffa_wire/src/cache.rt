//! The slots that one pass reserves, each for a size, and the other consumes.

ghost use Rattle.std.specs.Prelude.{◌≡◌, ◌+◌, ◌<◌, ◌∷◌, [], length, slice_index, slice_set, IfErr, IfOk, IsOk, OnErr, OnOk};
ghost use Rattle.buffa_bytes.specs.declared.error.EncodeError.TheVariants as error;
ghost use Rattle.buffa_wire.specs.Cache.{advanced, appended};

use buffa_bytes::EncodeError;
use std::alloc::Global;
use std::marker::Model;

/// Sizes of nested messages, which the size pass puts in and the write pass takes out, in one order. Where a pass was refused, the
/// cache may hold sizes that nothing takes out, so the next pass wants a new one.
///
/// ```ignore
/// let mut cache = SizeCache::new(alloc);
/// let size = message_field_len::<Int32, TestMsg, _>(&map, 1, &mut cache)?;
/// write_message_field::<Int32, TestMsg, _, _>(&map, 5, &mut cache, &mut sink)?;
/// ```
#[derive(Drop)]
pub struct SizeCache {
    slots: Vec<u32>,
    next: usize,
}

impl Model for SizeCache {
    ghost use Rattle.std.specs.Prelude.{◌≤◌, length};
    ghost use Rattle.buffa_wire.specs.Cache.{Cache};

    ghost Value = { Cache };

    ghost view = { λ c. record { slots = c.slots.items; next = c.next } };

    ghost invariant = { λ c. c.next ≤ length c.slots.items };
}

impl SizeCache {
    /// No slots. It takes no memory.
    ///
    /// ```ignore
    /// let mut cache = SizeCache::new(alloc);
    /// ```
    pub fn new(alloc: Global) -> SizeCache
        ensures { result ≡ record { slots = []; next = 0 } }
    {
        SizeCache {
            slots: Vec::new(alloc),
            next: 0,
        }
    }

    /// Asks for memory for so many slots more, in one request for memory in place of many. A hint, for speed: only
    /// that the slots stay is promised.
    ///
    /// # Errors
    /// [`EncodeError::OutOfMemory`] alone, never for no slots. The slots stay in any case.
    ///
    /// ```ignore
    /// cache.make_room(map.storage_len())?;
    /// ```
    pub fn make_room(&mut self, slots: usize) -> Result<(), EncodeError>
        ensures slots { self.new ≡ self.old }
        ensures which { IfErr result (λ e. e ≡ error.OutOfMemory) }
        ensures none { slots ≡ 0 → IsOk result }
    {
        Ok(self.slots.reserve(slots)?)
    }

    /// Reserves the next slot, which holds 0 until it is set, and gives its place.
    ///
    /// # Errors
    /// [`EncodeError::OutOfMemory`] alone; nothing is reserved then.
    ///
    /// ```ignore
    /// let slot = cache.reserve()?;
    /// ```
    pub fn reserve(&mut self) -> Result<usize, EncodeError>
        ensures place { IfOk result (λ slot. slot ≡ length self.old.slots) }
        ensures ok { OnOk result (self.new ≡ appended (0 ∷ []) self.old) }
        ensures err { OnErr result (self.new ≡ self.old) }
        ensures which { IfErr result (λ e. e ≡ error.OutOfMemory) }
    {
        let slot = self.slots.len();
        self.slots.push(0)?;
        Ok(slot)
    }

    /// Puts a size into a reserved slot. It takes no memory.
    ///
    /// ```ignore
    /// cache.set(slot, 300u32);
    /// ```
    pub fn set(&mut self, slot: usize, size: u32)
        requires { slot < length self.old.slots }
        ensures { self.new ≡ record { slots = slice_set self.old.slots slot size; next = self.old.next } }
    {
        self.slots[slot] = size;
    }

    /// Takes the next slot, in the order reserved; one has to be left. It takes no memory.
    ///
    /// ```ignore
    /// let size = cache.consume_next(); // 300
    /// ```
    pub fn consume_next(&mut self) -> u32
        requires { self.old.next < length self.old.slots }
        ensures size { result ≡ slice_index self.old.slots self.old.next }
        ensures rest { self.new ≡ advanced 1 self.old }
    {
        let size = self.slots[self.next];
        self.next += 1;
        size
    }
}
