//! The trait of messages that keep extensions; its calls change records by [`change_records`](crate::change_records).

ghost use Rattle.std.specs.Prelude.{◌≡◌, ◌≢◌, ◌↔◌, ◌≤◌, ◌+◌, IsTrue, ℕ, List, [], length, Option, None};
ghost use Rattle.std.specs.Prelude.{OnOk, OnErr, IfErr, IfOk, IsOk};
ghost use Rattle.std.specs.Borrow.{sem, Lends};
ghost use Rattle.buffa_wire.specs.Records.{Held};
ghost use Rattle.buffa_wire.specs.contracts.unknown_fields.UnknownFields.{the_row as fields_row};
ghost use Rattle.buffa_codec.specs.RecordsOfNumber.{sub};
ghost use Rattle.buffa_codec.specs.Decoded.{Refuses};
ghost use Rattle.buffa_codec.specs.Strict.{IsFaultOrFull};
ghost use Rattle.buffa_ext.specs.Defaults.{IsDefaulted, IsRefused, ReadsNumber};
ghost use Rattle.buffa_ext.specs.SetsAndClears.{HoldsRecord, IsCleared, IsSet};

use crate::change_records::{has_number, remove, replace};
use crate::descriptor::{Declared, Extension};
use buffa_codec::{ExtensionCodec, StrictCodec};
use buffa_wire::{Blank, DecodeError, EncodeError, UnknownFields};
use std::alloc::{AllocError, Global};

/// A message that lends its list of unknown fields, whose extensions are read and set there.
///
/// An impl gives the list and its name; the calls come with it.
///
/// ```ignore
/// let ext = Extension::<Int32>::new(7, "test.Carrier");
/// carrier.set_extension(alloc, &ext, value)?;
/// if carrier.has_extension(&ext) {
///     let read = carrier.extension(alloc, &ext)?; // Some(value)
/// }
/// ```
pub trait ExtensionSet {
    /// The full name of the message's type.
    ///
    /// ```ignore
    /// const PROTO_FQN: &'static str = "google.protobuf.FieldOptions";
    /// ```
    const PROTO_FQN: &'static str;

    /// The same as bytes.
    ghost fqn: { List ℕ };

    /// The records of its unknown fields.
    ghost fields_of: { Self → Held };

    /// The message with other unknown fields.
    ghost with_fields: { Self → Held → Self };

    /// [`ExtensionSet::PROTO_FQN`].
    ///
    /// ```ignore
    /// fn extendee_name() -> &'static str { Self::PROTO_FQN }
    /// ```
    fn extendee_name() -> &'static str
        ensures { result.now ≡ fqn };

    /// The unknown fields.
    ///
    /// ```ignore
    /// fn unknown_fields(&self) -> &UnknownFields { &self.fields }
    /// ```
    fn unknown_fields(&self) -> &UnknownFields
        ensures { result.now ≡ fields_of self.now };

    /// The unknown fields, to be changed; the rest of the message stays.
    ///
    /// ```ignore
    /// fn unknown_fields_mut(&mut self) -> &mut UnknownFields { &mut self.fields }
    /// ```
    fn unknown_fields_mut(&mut self) -> &mut UnknownFields
        ensures* lends { sem 𝓛 (Lends Self.row fields_row self.entry result (λ w. with_fields self.old w)) }
        ensures value { result.now ≡ fields_of self.old };

    /// What the records of the number are read as. `ext` has to extend this message: its extendee is
    /// [`ExtensionSet::extendee_name`].
    ///
    /// # Errors
    /// Where memory runs out, and never with codecs of numbers, whose reading takes none. A message may take memory also for an
    /// encoding that it refuses.
    ///
    /// ```ignore
    /// let read = carrier.extension(alloc, &ext)?;
    /// ```
    final fn extension<C: ExtensionCodec, D>(
        &self,
        alloc: Global,
        ext: &Extension<C, D>,
    ) -> Result<C::Output, AllocError>
        requires { ext.now.extendee.now ≡ fqn }
        // The value is what the codec reads of the records of the number alone.
        ensures value { IfOk result (λ o. C.reads (sub ext.now.number (fields_of self.now).records) (C.answer o)) }
        // It is refused for want of memory only, and only where the codec may ask for it.
        ensures always { C.never_fails → IsOk result }
        ensures full { OnErr result (C.asks (sub ext.now.number (fields_of self.now).records)) }
    {
        C::decode(alloc, ext.number(), self.unknown_fields())
    }

    /// Reads an extension strictly: where each record of the number can be read, the result is that of
    /// [`ExtensionSet::extension`]. `ext` has to extend this message.
    ///
    /// # Errors
    /// The fault of the first record of the number that can't be read: another wire type, a malformed payload, or a
    /// limit of a budget. Or out of memory, only where reading may ask for memory.
    ///
    /// ```ignore
    /// let limit = options.read_extension(alloc, &ext)?; // of 38 02 and 3A 00: Err(WireTypeMismatch 7 0 2)
    /// ```
    final fn read_extension<C: StrictCodec, D>(
        &self,
        alloc: Global,
        ext: &Extension<C, D>,
    ) -> Result<C::Output, DecodeError>
        requires { ext.now.extendee.now ≡ fqn }
        ensures value { IfOk result (λ o. C.reads (sub ext.now.number (fields_of self.now).records) (C.answer o)) }
        ensures whole { OnOk result (C.IsFaultless ext.now.number (sub ext.now.number (fields_of self.now).records)) }
        ensures fault { IfErr result (IsFaultOrFull (C.HasFault ext.now.number
            (sub ext.now.number (fields_of self.now).records)) (C.asks (sub ext.now.number (fields_of self.now).records))) }
    {
        C::decode_strictly(alloc, ext.number(), self.unknown_fields())
    }

    /// Drops the records of the extension's number, and puts the value's behind the others. No other record is
    /// copied. `ext` has to extend this message.
    ///
    /// # Errors
    /// What is wrong with the value, or out of memory; never for a value that has no records, as an empty
    /// list. Nothing is changed then.
    ///
    /// ```ignore
    /// carrier.try_set_extension(alloc, &ext, value)?;
    /// ```
    final fn try_set_extension<C: ExtensionCodec, D>(
        &mut self,
        alloc: Global,
        ext: &Extension<C, D>,
        value: C::Value,
    ) -> Result<(), EncodeError>
        requires { ext.now.extendee.now ≡ fqn }
        // Accepted: the value's records stand behind those of other numbers.
        ensures ok { OnOk result (IsSet ext.now.number (C.extension_data (C.meaning value)) (fields_of self.old)
            (fields_of self.new)) }
        // Refused: nothing is changed, and the error is what is wrong with the value, or want of memory.
        ensures err { OnErr result (self.new ≡ self.old) }
        ensures room { (fields_of self.old).spare ≤ (fields_of self.new).spare + length (C.extension_data (C.meaning value)) }
        ensures full { OnErr result (C.extension_data (C.meaning value) ≢ []) }
        ensures refused { Refuses result (C.refusal (C.meaning value)) }
        ensures fits { OnOk result (C.fits (C.meaning value)) }
        // Only the unknown fields are changed.
        ensures rest { (w : Held) × (self.new ≡ with_fields self.old w) }
    {
        let number = ext.number();
        let mut staged = UnknownFields::new(alloc);
        C::try_encode(alloc, number, value, &mut staged)?;
        Ok(replace(self.unknown_fields_mut(), number, staged)?)
    }

    /// The same as [`ExtensionSet::try_set_extension`].
    ///
    /// # Errors
    /// Those of [`ExtensionSet::try_set_extension`].
    ///
    /// ```ignore
    /// carrier.set_extension(alloc, &ext, value)?;
    /// ```
    final fn set_extension<C: ExtensionCodec, D>(
        &mut self,
        alloc: Global,
        ext: &Extension<C, D>,
        value: C::Value,
    ) -> Result<(), EncodeError>
        requires { ext.now.extendee.now ≡ fqn }
        ensures ok { OnOk result (IsSet ext.now.number (C.extension_data (C.meaning value)) (fields_of self.old)
            (fields_of self.new)) }
        ensures err { OnErr result (self.new ≡ self.old) }
        ensures room { (fields_of self.old).spare ≤ (fields_of self.new).spare + length (C.extension_data (C.meaning value)) }
        ensures full { OnErr result (C.extension_data (C.meaning value) ≢ []) }
        ensures refused { Refuses result (C.refusal (C.meaning value)) }
        ensures fits { OnOk result (C.fits (C.meaning value)) }
        ensures rest { (w : Held) × (self.new ≡ with_fields self.old w) }
    {
        self.try_set_extension(alloc, ext, value)
    }

    /// Takes the records of the number out; the others keep their order. It takes no memory. `ext` has to extend
    /// this message.
    ///
    /// ```ignore
    /// carrier.clear_extension(&ext);
    /// ```
    final fn clear_extension<C: ExtensionCodec, D>(&mut self, ext: &Extension<C, D>)
        requires { ext.now.extendee.now ≡ fqn }
        ensures records { IsCleared ext.now.number (fields_of self.old) (fields_of self.new) }
        ensures room { (fields_of self.old).spare ≤ (fields_of self.new).spare }
        ensures rest { (w : Held) × (self.new ≡ with_fields self.old w) }
    {
        let number = ext.number();
        remove(self.unknown_fields_mut(), number);
    }

    /// Whether a record of the number is there, whatever it is read as; never on another extendee. It takes
    /// no memory.
    ///
    /// ```ignore
    /// let is_there = carrier.has_extension(&ext);
    /// ```
    final fn has_extension<C: ExtensionCodec, D>(&self, ext: &Extension<C, D>) -> bool
        ensures { IsTrue result ↔ ((ext.now.extendee.now ≡ fqn) × HoldsRecord ext.now.number (fields_of self.now)) }
    {
        ext.extendee() == Self::extendee_name() && has_number(self.unknown_fields(), ext.number())
    }

    /// The value that [`ExtensionSet::extension`] returns; where it returns none, the declared default, made anew; and
    /// where none is declared, the default of the type. `ext` has to extend this message.
    ///
    /// # Errors
    /// Where memory runs out for the reading, or for the declared default, which is asked for only where no
    /// value is read.
    ///
    /// ```ignore
    /// let value = carrier.extension_or_default(alloc, &ext)?;
    /// ```
    final fn extension_or_default<
        V: Blank,
        C: ExtensionCodec<Value = V, Output = Option<V>>,
        D: Declared<V>,
    >(&self, alloc: Global, ext: &Extension<C, D>) -> Result<V, AllocError>
        requires extendee { ext.now.extendee.now ≡ fqn }
        requires callable { C.reads (sub ext.now.number (fields_of self.now).records) (C.answer None) →
            D.can_declare ext.now.default }
        // What is read; else what is declared; else the default of the type.
        ensures value { IfOk result (λ v. IsDefaulted (ReadsNumber C.reads C.answer ext.now.number (fields_of self.now))
            (D.may_declare ext.now.default) (V.meaning v ≡ V.blank_is) v) }
        ensures full { OnErr result (IsRefused (C.asks (sub ext.now.number (fields_of self.now).records))
            (ReadsNumber C.reads C.answer ext.now.number (fields_of self.now)) (D.may_refuse ext.now.default)) }
    {
        if let Some(value) = self.extension(alloc, ext)? {
            return Ok(value);
        }
        if let Some(value) = ext.declared(alloc)? {
            return Ok(value);
        }
        Ok(V::blank(alloc))
    }

    /// The unknown fields that were put in are those.
    ghost fields_of_with: { (m : Self) (w : Held) → fields_of (with_fields m w) ≡ w };

    /// Its own unknown fields change nothing.
    ghost with_fields_of: { (m : Self) → with_fields m (fields_of m) ≡ m };

    /// Of two lists that are put in the second counts.
    ghost with_fields_twice: { (m : Self) (w u : Held) → with_fields (with_fields m w) u ≡ with_fields m u };
}
