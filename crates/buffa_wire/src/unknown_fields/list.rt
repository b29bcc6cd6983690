//! Unknown fields as a list: how many there are, how many more fit, and what is added and taken out.

ghost use Rattle.std.specs.Prelude.{◌≡◌, ◌+◌, ◌<◌, ◌≤◌, ℕ, Bool, [], ◌∷◌, ◌++◌, length, IsOk, OnErr, OnOk};
ghost use Rattle.std.specs.Fn.{CalledAt};
ghost use Rattle.std.specs.List.{filter};
ghost use Rattle.std.specs.List.Retain.{IsFiltered};
ghost use Rattle.buffa_wire.specs.Records.{FieldData};
ghost use Rattle.buffa_wire.specs.RecordsOfValues.{AnswersRecords, CalledAtRecord, record_of, records_in};

use crate::unknown_fields::{UnknownField, UnknownFields};
use std::alloc::{AllocError, Global};

impl UnknownFields {
    /// No fields, and spare capacity for none. It takes no memory.
    ///
    /// ```ignore
    /// let fields = UnknownFields::new(alloc);
    /// ```
    pub fn new(alloc: Global) -> UnknownFields
        ensures { result ≡ record { records = []; spare = 0 } }
    {
        UnknownFields {
            fields: Vec::new(alloc),
        }
    }

    /// How many fields there are; those in groups are not counted.
    ///
    /// ```ignore
    /// let count = fields.len();
    /// ```
    pub fn len(&self) -> usize
        ensures { result ≡ length self.now.records }
    {
        self.fields.len()
    }

    /// How many more fields fit without new memory.
    ///
    /// ```ignore
    /// let spare = fields.spare();
    /// ```
    pub fn spare(&self) -> usize
        ensures { result ≡ self.now.spare }
    {
        self.fields.capacity() - self.fields.len()
    }

    /// The fields, in order.
    ///
    /// ```ignore
    /// for field in fields.iter() {
    ///     let UnknownField { number: _, payload } = field.copy()?;
    ///     payloads.push(payload)?;
    /// }
    /// ```
    pub fn iter(&self) -> std::slice::Iter<'_, UnknownField>
        ensures { records_in result.rest.now ≡ self.now.records }
    {
        self.fields.iter()
    }

    /// Puts a field behind the others.
    ///
    /// # Errors
    /// Where no spare capacity is left and memory runs out; nothing is changed then.
    ///
    /// ```ignore
    /// fields.push(UnknownField { number: 9, payload })?;
    /// ```
    #[inline(always)]
    pub fn push(&mut self, field: UnknownField) -> Result<(), AllocError>
        ensures ok { OnOk result (self.new.records ≡ self.old.records ++ record_of field ∷ []) }
        ensures room { OnOk result (self.old.spare ≤ self.new.spare + 1) }
        ensures err { OnErr result (self.new ≡ self.old) }
        ensures succeeds { 0 < self.old.spare → IsOk result }
    {
        self.fields.reserve(1)?;
        self.fields.push_reserved(field);
        Ok(())
    }

    /// Makes spare capacity for `n` more fields.
    ///
    /// # Errors
    /// Where that is missing and memory runs out; nothing is changed then.
    ///
    /// ```ignore
    /// fields.reserve(1)?;
    /// ```
    pub fn reserve(&mut self, n: usize) -> Result<(), AllocError>
        ensures records { self.new.records ≡ self.old.records }
        ensures ok { OnOk result (n ≤ self.new.spare) }
        ensures room { self.old.spare ≤ self.new.spare }
        ensures err { OnErr result (self.new ≡ self.old) }
        ensures succeeds { n ≤ self.old.spare → IsOk result }
    {
        self.fields.reserve(n)
    }

    /// Puts the fields of `other` behind these, into capacity that [`UnknownFields::reserve`] made. It takes
    /// no memory.
    ///
    /// ```ignore
    /// fields.reserve(more.len())?;
    /// fields.append(more);
    /// ```
    pub fn append(&mut self, mut other: UnknownFields)
        requires { length other.records ≤ self.old.spare }
        ensures records { self.new.records ≡ self.old.records ++ other.records }
        ensures room { self.old.spare ≤ self.new.spare + length other.records }
    {
        let done = self.fields.append(&mut other.fields);
        prove!(done.is_ok());
    }

    /// Keeps the fields for which `f` returns true, in order, and drops the others. It calls `f` at each field
    /// once, in order. It takes no memory, and leaves no less spare capacity.
    ///
    /// ```ignore
    /// info.unknown_fields.retain(|field| field.number != 9);
    /// ```
    pub fn retain<F: FnMut(&UnknownField) -> bool>(&mut self, f: F)
    where
        F: Drop,
        requires { F.IsAlwaysCallable f }
        ensures calls { IsFiltered (CalledAtRecord (CalledAt F.FnMut)) f self.old.records self.new.records }
        ensures records { (p : ℕ × FieldData → Bool) → AnswersRecords (CalledAt F.FnMut) f p → self.new.records
            ≡ filter p self.old.records }
        ensures spare { self.old.spare ≤ self.new.spare }
    {
        self.fields.retain(f);
    }
}
