//! Strict readings: a record that a codec can't read is an error, and the fault of the first such record is returned.

ghost use Rattle.std.specs.Prelude.{◌≡◌, ℕ, List, None, Option, Some, IfErr, IfOk, OnErr, OnOk, refl};
ghost use Rattle.std.proofs.Common.{ap, sym, ◌∙◌};
ghost use Rattle.buffa_bytes.specs.declared.error.DecodeError.{DecodeError};
ghost use Rattle.buffa_wire.specs.BudgetLeft.{BudgetLeft, PaysAtMost, defaults};
ghost use Rattle.buffa_wire.specs.Records.{FieldData};
ghost use Rattle.buffa_wire.specs.RecordsOfValues.{field_data_of};
ghost use Rattle.buffa_codec.specs.Decoded.{Has};
ghost use Rattle.buffa_codec.specs.Strict.{AreElements, Faultless, FirstElementFault, FirstFault, IsFaultOrFull};
ghost use Rattle.buffa_codec.specs.Strict.{bytes_fault, number_list_fault, packed_fault, string_fault, unless_found};
ghost use Rattle.buffa_codec.specs.StrictFacts.{bytes_are_read, either_fault, either_listed, found_read, no_two};
ghost use Rattle.buffa_codec.specs.StrictFacts.{read_bytes, read_found, read_listed, read_string, string_read};
ghost use Rattle.buffa_codec.specs.RecordsOfNumber.{sub};

use crate::codec::{ExtensionCodec, PackableCodec, SingularCodec};
use crate::delimited::{BytesCodec, StringCodec};
use crate::last::LastWins;
use crate::number::Numbered;
use crate::packed::PackedRepeated;
use crate::repeated::Repeated;
use buffa_wire::{
    Budget, DEFAULT_UNKNOWN_FIELD_LIMIT, DecodeError, Form, UnknownFieldData, UnknownFields,
    WireType,
};
use std::alloc::Global;

/// A codec that also reads strictly: where [`ExtensionCodec::decode`] passes over a record, that is an error.
///
/// ```ignore
/// let value = Int32::decode_strictly(alloc, 7, &fields)?;
/// ```
pub trait StrictCodec: ExtensionCodec {
    /// Each record of the number is read.
    ghost IsFaultless: { ℕ → List FieldData → Type 0 };

    /// The fault of the first record of the number that isn't read.
    ghost HasFault: { ℕ → List FieldData → DecodeError → Type 0 };

    /// Reads the records of the number as [`ExtensionCodec::decode`] does, where each of them is read.
    ///
    /// # Errors
    /// The fault of the first record that isn't; or out of memory.
    ///
    /// ```ignore
    /// let value = Int32::decode_strictly(alloc, 7, &fields)?;
    /// ```
    fn decode_strictly(
        alloc: Global,
        number: u32,
        fields: &UnknownFields,
    ) -> Result<Self::Output, DecodeError>
        ensures value { IfOk result (λ o. Self.reads (sub number fields.now.records) (Self.answer o)) }
        ensures whole { OnOk result (IsFaultless number (sub number fields.now.records)) }
        ensures fault { IfErr result (IsFaultOrFull (HasFault number (sub number fields.now.records))
            (Self.asks (sub number fields.now.records))) };

    /// Records that are all read have no fault.
    ghost not_both: { (n : ℕ) (ds : List FieldData) (e : DecodeError) → IsFaultless n ds → HasFault n ds e → ⊥ };
}

/// A codec of one value that says why a record can't be read as a value.
///
/// ```ignore
/// let fault = C::fault(number, &field.payload); // Some(DecodeError::InvalidUtf8)
/// ```
pub trait StrictSingularCodec: SingularCodec {
    /// Why a record of the number is no value.
    ghost fault: { ℕ → FieldData → Option DecodeError };

    /// Why a record of the number is no value, where it is none. It takes no memory.
    ///
    /// ```ignore
    /// let fault = C::fault(number, &field.payload); // Some(DecodeError::InvalidUtf8)
    /// ```
    fn fault(number: u32, payload: &UnknownFieldData) -> Option<DecodeError>
        ensures { result ≡ fault number (field_data_of payload.now) };

    /// A record without a fault is a value.
    ghost faultless_read: { (n : ℕ) (b : BudgetLeft) (d : FieldData) → fault n d ≡ None →
        (v : Self.Value.Meaning) × (Self.one 100 b d ≡ Some v) };

    /// A record that is a value has no fault.
    ghost read_faultless: { (n : ℕ) (b : BudgetLeft) (d : FieldData) (v : Self.Value.Meaning) → Self.one 100 b d ≡ Some v →
        fault n d ≡ None };
}

/// A codec of the elements of a list that says why a record can't be read as elements.
///
/// ```ignore
/// C::check_element(alloc, number, &field.payload, &mut budget)?;
/// ```
pub trait StrictElementCodec: SingularCodec {
    /// A record of the number is an element, or packed ones to its end, by what is left of a budget.
    ghost IsElement: { ℕ → BudgetLeft → FieldData → Type 0 };

    /// Why it is not.
    ghost ElementFault: { ℕ → BudgetLeft → FieldData → DecodeError → Type 0 };

    /// Checks that a record of the number is an element, or packed elements to its end, and spends what reading it
    /// spends.
    ///
    /// # Errors
    /// Why the record is neither; or out of memory. What was spent stays spent, and is no more than the record may cost.
    ///
    /// ```ignore
    /// C::check_element(alloc, number, &field.payload, &mut budget)?;
    /// ```
    fn check_element(
        alloc: Global,
        number: u32,
        payload: &UnknownFieldData,
        budget: &mut Budget,
    ) -> Result<(), DecodeError>
        ensures element { OnOk result (IsElement number budget.old (field_data_of payload.now)) }
        ensures leaves { OnOk result (Self.leaves 100 budget.old (field_data_of payload.now) budget.new) }
        ensures most { PaysAtMost budget.old (Self.most 100 (field_data_of payload.now)) budget.new }
        ensures fault { IfErr result (IsFaultOrFull (ElementFault number budget.old (field_data_of payload.now))
            (Self.asks (field_data_of payload.now))) };

    /// An element has no fault.
    ghost no_element_fault: { (n : ℕ) (b : BudgetLeft) (d : FieldData) (e : DecodeError) → IsElement n b d →
        ElementFault n b d e → ⊥ };

    /// What an element leaves of a budget is one.
    ghost element_leaves: { (n : ℕ) (b x y : BudgetLeft) (d : FieldData) → IsElement n b d → Self.leaves 100 b d x →
        Self.leaves 100 b d y → x ≡ y };

    /// A record that is a value is an element.
    ghost value_is_element: { (n : ℕ) (b : BudgetLeft) (d : FieldData) (v : Self.Value.Meaning) →
        Self.one 100 b d ≡ Some v → IsElement n b d };
}

// ---- numbers

impl<N: Numbered> StrictSingularCodec for N {
    ghost fault = { λ n d. unless_found (N.Form.found d) N.Form.WIRE_TYPE n d };

    fn fault(number: u32, payload: &UnknownFieldData) -> Option<DecodeError> {
        match <N::Form as Form>::in_record(payload) {
            Some(_) => None,
            None => Some(DecodeError::WireTypeMismatch {
                field_number: number,
                expected: <N::Form as Form>::WIRE_TYPE,
                actual: payload.wire_type(),
            }),
        }
    }

    ghost faultless_read = { λ n b d h. found_read N.value_of (N.Form.found d) N.Form.WIRE_TYPE n d h };

    ghost read_faultless = { λ n b d v h. read_found N.value_of (N.Form.found d) N.Form.WIRE_TYPE n d v h };
}

// Why the bytes aren't payloads of the form to their end, where they are not.
fn packed_fault<F: Form>(bytes: &[u8]) -> Option<DecodeError>
    ensures { result ≡ packed_fault F.WIRE_TYPE bytes.now }
{
    let mut rest = bytes;
    while !rest.is_empty() {
        match F::read(&mut rest) {
            Ok(_) => {}
            Err(error) => return Some(error),
        }
    }
    None
}

impl<N: Numbered> StrictElementCodec for N {
    ghost IsElement = { λ n b d. number_list_fault N.Form.found N.Form.WIRE_TYPE n d ≡ None };

    ghost ElementFault = { λ n b d e. number_list_fault N.Form.found N.Form.WIRE_TYPE n d ≡ Some e };

    fn check_element(
        _alloc: Global,
        number: u32,
        payload: &UnknownFieldData,
        _budget: &mut Budget,
    ) -> Result<(), DecodeError> {
        let fault = match payload {
            UnknownFieldData::LengthDelimited(bytes) => packed_fault::<N::Form>(bytes.as_slice()),
            _ => <N as StrictSingularCodec>::fault(number, payload),
        };
        match fault {
            Some(error) => Err(error),
            None => Ok(()),
        }
    }

    ghost no_element_fault = { λ n b d e h k. no_two (number_list_fault N.Form.found N.Form.WIRE_TYPE n d) e h k };

    ghost element_leaves = { λ n b x y d h k l. k ∙ sym l };

    ghost value_is_element = { λ n b d v h.
        read_listed N.Form.found N.value_of N.Form.WIRE_TYPE n d v N.Form.Form.bytes_other h };
}

// ---- strings and bytes

impl StrictSingularCodec for StringCodec {
    ghost fault = { string_fault };

    fn fault(number: u32, payload: &UnknownFieldData) -> Option<DecodeError> {
        match payload {
            UnknownFieldData::LengthDelimited(held) => match str::from_utf8(held.as_slice()) {
                Ok(_) => None,
                Err(_) => Some(DecodeError::InvalidUtf8),
            },
            _ => Some(DecodeError::WireTypeMismatch {
                field_number: number,
                expected: WireType::LengthDelimited,
                actual: payload.wire_type(),
            }),
        }
    }

    ghost faultless_read = { λ n b d h. string_read n d h };

    ghost read_faultless = { λ n b d v h. read_string n d v h };
}

impl StrictElementCodec for StringCodec {
    ghost IsElement = { λ n b d. string_fault n d ≡ None };

    ghost ElementFault = { λ n b d e. string_fault n d ≡ Some e };

    fn check_element(
        _alloc: Global,
        number: u32,
        payload: &UnknownFieldData,
        _budget: &mut Budget,
    ) -> Result<(), DecodeError> {
        match <StringCodec as StrictSingularCodec>::fault(number, payload) {
            Some(error) => Err(error),
            None => Ok(()),
        }
    }

    ghost no_element_fault = { λ n b d e h k. no_two (string_fault n d) e h k };

    ghost element_leaves = { λ n b x y d h k l. k ∙ sym l };

    ghost value_is_element = { λ n b d v h. read_string n d v h };
}

impl StrictSingularCodec for BytesCodec {
    ghost fault = { bytes_fault };

    fn fault(number: u32, payload: &UnknownFieldData) -> Option<DecodeError> {
        match payload {
            UnknownFieldData::LengthDelimited(_) => None,
            _ => Some(DecodeError::WireTypeMismatch {
                field_number: number,
                expected: WireType::LengthDelimited,
                actual: payload.wire_type(),
            }),
        }
    }

    ghost faultless_read = { λ n b d h. bytes_are_read n d h };

    ghost read_faultless = { λ n b d v h. read_bytes n d v h };
}

impl StrictElementCodec for BytesCodec {
    ghost IsElement = { λ n b d. bytes_fault n d ≡ None };

    ghost ElementFault = { λ n b d e. bytes_fault n d ≡ Some e };

    fn check_element(
        _alloc: Global,
        number: u32,
        payload: &UnknownFieldData,
        _budget: &mut Budget,
    ) -> Result<(), DecodeError> {
        match <BytesCodec as StrictSingularCodec>::fault(number, payload) {
            Some(error) => Err(error),
            None => Ok(()),
        }
    }

    ghost no_element_fault = { λ n b d e h k. no_two (bytes_fault n d) e h k };

    ghost element_leaves = { λ n b x y d h k l. k ∙ sym l };

    ghost value_is_element = { λ n b d v h. read_bytes n d v h };
}

// ---- the records of a number

// Whether each record of the number is a value; else the fault of the first that is none.
fn check_values<C: StrictSingularCodec>(
    number: u32,
    fields: &UnknownFields,
) -> Result<(), DecodeError>
    ensures whole { OnOk result (Faultless (C.fault number) (sub number fields.now.records)) }
    ensures fault { IfErr result (FirstFault (C.fault number) (sub number fields.now.records)) }
{
    for field in fields.iter().as_slice() {
        if field.number == number {
            match C::fault(number, &field.payload) {
                Some(error) => return Err(error),
                None => {}
            }
        }
    }
    Ok(())
}

impl<C: LastWins + StrictSingularCodec> StrictCodec for C {
    ghost IsFaultless = { λ n. Faultless (C.fault n) };

    ghost HasFault = { λ n. FirstFault (C.fault n) };

    fn decode_strictly(
        alloc: Global,
        number: u32,
        fields: &UnknownFields,
    ) -> Result<Option<C::Value>, DecodeError> {
        check_values::<C>(number, fields)?;
        Ok(<C as ExtensionCodec>::decode(alloc, number, fields)?)
    }

    ghost not_both = { λ n ds e h k. either_fault (C.fault n) ds e h k };
}

// Whether each record of the number is an element, or packed ones; else the fault of the first that is not.
fn check_elements<C: StrictElementCodec>(
    alloc: Global,
    number: u32,
    fields: &UnknownFields,
) -> Result<(), DecodeError>
    ensures whole { OnOk result ((left : BudgetLeft)
        × AreElements (C.IsElement number) (C.leaves 100) defaults (sub number fields.now.records) left) }
    ensures fault { IfErr result (IsFaultOrFull (FirstElementFault (C.IsElement number) (C.ElementFault number)
        (C.leaves 100) defaults (sub number fields.now.records)) (Has C.asks (sub number fields.now.records))) }
{
    let mut budget = Budget::new(DEFAULT_UNKNOWN_FIELD_LIMIT);
    for field in fields.iter().as_slice() {
        if field.number == number {
            C::check_element(alloc, number, &field.payload, &mut budget)?;
        }
    }
    Ok(())
}

impl<C: StrictElementCodec> StrictCodec for Repeated<C> {
    ghost IsFaultless = { λ n ds. (left : BudgetLeft) × AreElements (C.IsElement n) (C.leaves 100) defaults ds left };

    ghost HasFault = { λ n. FirstElementFault (C.IsElement n) (C.ElementFault n) (C.leaves 100) defaults };

    fn decode_strictly(
        alloc: Global,
        number: u32,
        fields: &UnknownFields,
    ) -> Result<Vec<C::Value>, DecodeError> {
        check_elements::<C>(alloc, number, fields)?;
        Ok(<Repeated<C> as ExtensionCodec>::decode(alloc, number, fields)?)
    }

    ghost not_both = { λ n ds e h k.
        either_listed (C.IsElement n) (C.ElementFault n) (C.leaves 100) (C.StrictElementCodec.no_element_fault n)
        (C.StrictElementCodec.element_leaves n) defaults h.0 ds e h.1 k };
}

impl<C: PackableCodec + StrictElementCodec> StrictCodec for PackedRepeated<C> {
    ghost IsFaultless = { λ n ds. (left : BudgetLeft) × AreElements (C.IsElement n) (C.leaves 100) defaults ds left };

    ghost HasFault = { λ n. FirstElementFault (C.IsElement n) (C.ElementFault n) (C.leaves 100) defaults };

    fn decode_strictly(
        alloc: Global,
        number: u32,
        fields: &UnknownFields,
    ) -> Result<Vec<C::Value>, DecodeError> {
        <Repeated<C> as StrictCodec>::decode_strictly(alloc, number, fields)
    }

    ghost not_both = { λ n ds e h k.
        either_listed (C.IsElement n) (C.ElementFault n) (C.leaves 100) (C.StrictElementCodec.no_element_fault n)
        (C.StrictElementCodec.element_leaves n) defaults h.0 ds e h.1 k };
}
