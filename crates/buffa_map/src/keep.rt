//! Keepers: what becomes of a map entry whose value is undeclared.

ghost use Rattle.std.specs.Prelude.{◌≡◌, ◌≢◌, ◌+◌, ◌<◌, ◌≤◌, ◌++◌, ◌∷◌, ℕ, Bool, List, [], true, false};
ghost use Rattle.std.specs.Prelude.{IfErr, OnErr, OnOk, if◌then◌else◌};
ghost use Rattle.buffa_bytes.specs.declared.error.DecodeError.TheVariants.{OutOfMemory, UnknownFieldLimitExceeded};
ghost use Rattle.buffa_wire.specs.Records.{FieldData, bytes};
ghost use Rattle.buffa_map.specs.PassedList.{capacity_of};

use buffa_wire::{Budget, DecodeError, UnknownField, UnknownFieldData, UnknownFields};
use std::alloc::Global;

/// What becomes of an entry whose value a closed enum doesn't declare: it is kept whole, in a list of unknown fields,
/// or dropped.
pub trait Keeper {
    /// Whether it keeps such entries.
    const KEEPS: bool;

    ghost KEEPS: { Bool };

    /// The records so far.
    ghost records: { Self → List (ℕ × FieldData) };

    /// How many records fit without new memory, those that are there included.
    ghost room: { Self → ℕ };

    /// Takes a copy of the bytes of an entry, if it keeps them, as a record of the field's `number`, 1 to 536,870,911.
    ///
    /// # Errors
    /// Only where it keeps some: [`DecodeError::UnknownFieldLimitExceeded`] where no unknown field is left, or
    /// [`DecodeError::OutOfMemory`]. The records stay as they were.
    fn keep(
        &mut self,
        alloc: Global,
        number: u32,
        entry: &[u8],
        budget: &mut Budget,
    ) -> Result<(), DecodeError>
        ensures ok { OnOk result (records self.new ≡ records self.old ++ (if KEEPS then (number, bytes entry.now) ∷ [] else [])) }
        ensures pays { OnOk result (budget.new.unknown + (if KEEPS then 1 else 0) ≡ budget.old.unknown) }
        ensures err { OnErr result ((records self.new ≡ records self.old) × (budget.new.unknown ≤ budget.old.unknown)
            × (budget.old.unknown ≤ budget.new.unknown + (if KEEPS then 1 else 0))) }
        ensures fault { IfErr result (λ f. f ≢ OutOfMemory → (KEEPS ≡ true) × (budget.old.unknown ≡ 0)
            × (f ≡ UnknownFieldLimitExceeded) × (budget.new.unknown ≡ budget.old.unknown)) }
        ensures full { IfErr result (λ f. f ≡ OutOfMemory → (KEEPS ≡ true) × (0 < budget.old.unknown)) }
        ensures memory { budget.new.memory ≡ budget.old.memory }
        ensures room { room self.old ≤ room self.new };
}

/// Entries are dropped, and take none of the unknown fields left.
#[derive(Drop)]
pub struct Dropped;

impl Keeper for Dropped {
    const KEEPS: bool = false;

    ghost KEEPS = { false };

    ghost records = { λ _. [] };

    ghost room = { λ _. 0 };

    fn keep(
        &mut self,
        _alloc: Global,
        _number: u32,
        _entry: &[u8],
        _budget: &mut Budget,
    ) -> Result<(), DecodeError> {
        // Nothing is kept, and nothing is spent.
        Ok(())
    }
}

impl Keeper for UnknownFields {
    const KEEPS: bool = true;

    ghost KEEPS = { true };

    ghost records = { λ list. list.records };

    ghost room = { capacity_of };

    fn keep(
        &mut self,
        alloc: Global,
        number: u32,
        entry: &[u8],
        budget: &mut Budget,
    ) -> Result<(), DecodeError> {
        budget.take_unknown()?;
        let payload = UnknownFieldData::LengthDelimited(Vec::from_slice(alloc, entry)?);
        Ok(self.push(UnknownField { number, payload })?)
    }
}
