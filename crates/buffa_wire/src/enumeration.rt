//! Enums: types whose values are declared numbers, and values of open enums.

ghost use Rattle.std.specs.Prelude.{◌≡◌, ℤ, IfSome, Option, Some, pos};
ghost use Rattle.buffa_wire.specs.Enums.{DeclaresBlank, numbers, open_number};

use buffa_bytes::Blank;
use std::alloc::Global;

/// An enum: each value has a number, and no two have one. A value means its number.
///
/// ```ignore
/// let b = <Old as Enumeration>::from_i32(1); // Some(Old::B)
/// let number = <Old as Enumeration>::to_i32(&Old::B); // 1
/// ```
pub trait Enumeration: Blank<Meaning = i32> {
    /// The value that has the number, if one has it.
    ghost of_number: { ℤ → Option Self };

    /// The value of the number, if one has it.
    ///
    /// ```ignore
    /// let b = <Old as Enumeration>::from_i32(1); // Some(Old::B)
    /// ```
    fn from_i32(number: i32) -> Option<Self>
        ensures value { result ≡ of_number number }
        ensures number { IfSome result (λ value. Self.meaning value ≡ number) };

    /// The number.
    ///
    /// ```ignore
    /// let number = <Old as Enumeration>::to_i32(&Old::B); // 1
    /// ```
    fn to_i32(&self) -> i32
        ensures { result ≡ Self.meaning self.now };

    /// A value is the one of its number.
    ghost stays: { (value : Self) → of_number (Self.meaning value) ≡ Some value };

    /// The default is one of the values.
    ghost blank_declared: { DeclaresBlank (numbers of_number Self.blank_is) };
}

/// A value of an open enum: a declared value, or a number.
///
/// ```ignore
/// let value = EnumValue::<Old>::from_i32(9); // EnumValue::Unknown(9)
/// ```
#[derive(Clone, Copy, Debug, PartialEq, Eq, Drop)]
pub enum EnumValue<E> {
    /// A value that the enum declares.
    Known(E),
    /// A number, as a rule one that the enum doesn't declare.
    Unknown(i32),
}

impl<E: Enumeration> EnumValue<E> {
    /// The declared value of the number, or the number where none has it.
    ///
    /// ```ignore
    /// let value = EnumValue::<Old>::from_i32(1); // EnumValue::Known(Old::B)
    /// ```
    pub fn from_i32(number: i32) -> EnumValue<E>
        ensures { ⟦<EnumValue<E> as Blank>⟧.meaning result ≡ open_number E.of_number number }
    {
        match E::from_i32(number) {
            Some(value) => EnumValue::Known(value),
            None => EnumValue::Unknown(number),
        }
    }

    /// The number.
    ///
    /// ```ignore
    /// let number = EnumValue::<Old>::Unknown(9).to_i32(); // 9
    /// ```
    pub fn to_i32(&self) -> i32
        ensures { result ≡ (⟦<EnumValue<E> as Blank>⟧.meaning self.now).1 }
    {
        match self {
            EnumValue::Known(value) => value.to_i32(),
            EnumValue::Unknown(number) => *number,
        }
    }

    /// The value as it is read: the declared value of its number, where one has it. It takes no memory.
    ///
    /// ```ignore
    /// let value = value.normal(); // EnumValue::Known(Old::B) for EnumValue::Unknown(1)
    /// ```
    pub fn normal(self) -> EnumValue<E>
        ensures { ⟦<EnumValue<E> as Blank>⟧.meaning result
            ≡ open_number E.of_number (⟦<EnumValue<E> as Blank>⟧.meaning self).1 }
    {
        match self {
            EnumValue::Known(value) => EnumValue::Known(value),
            EnumValue::Unknown(number) => EnumValue::from_i32(number),
        }
    }
}

impl<E: Enumeration> Blank for EnumValue<E> {
    ghost use Rattle.std.specs.Prelude.{true, false};
    ghost use Rattle.buffa_wire.specs.declared.enumeration.EnumValue.TheVariants.{Known, Unknown};

    type Meaning = (bool, i32);

    ghost meaning = { elim [ Known value ↦ (true, E.meaning value) | Unknown number ↦ (false, number) ] };

    ghost blank_is = { open_number E.of_number (pos 0) };

    fn blank(_alloc: Global) -> EnumValue<E> {
        EnumValue::from_i32(0)
    }
}
