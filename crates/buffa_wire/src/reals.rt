//! The values of `float` and of `double`, each by its bits.

ghost use Rattle.std.specs.Prelude.{◌≡◌, from_bits, to_bits};
ghost use Rattle.std.specs.Float.Ieee.{binary32, binary64};

use buffa_bytes::Blank;
use std::alloc::Global;
use std::num::{
    f32_from_bits_with_nan, f32_to_bits_with_nan, f64_from_bits_with_nan, f64_to_bits_with_nan,
};

/// A value of `float`: the 32 bits of a number in the format binary32 of IEEE 754, the sign the highest.
///
/// Two values are equal where their bits are. So a NaN is equal to itself, and `-0.0` isn't `0.0`. What was read is written
/// with the same bits. Source: the protobuf encoding guide, "Non-varint Numbers".
///
/// ```ignore
/// let half = FloatBits::new(0.5);
/// ```
#[derive(Clone, Copy, Debug, PartialEq, Eq)]
pub struct FloatBits {
    /// The bits.
    pub bits: u32,
}

impl FloatBits {
    /// A number as its bits. All NaNs have the same, 0x7FC0_0000.
    ///
    /// ```ignore
    /// let half = FloatBits::new(0.5);
    /// ```
    pub fn new(number: f32) -> FloatBits
        ensures bits { result.bits ≡ to_bits binary32 number }
        ensures number { from_bits binary32 result.bits ≡ number }
    {
        FloatBits {
            bits: f32_to_bits_with_nan(number),
        }
    }

    /// The number. The bits of a NaN give a NaN.
    ///
    /// ```ignore
    /// let number = half.number(); // 0.5
    /// ```
    pub fn number(self) -> f32
        ensures { result ≡ from_bits binary32 self.bits }
    {
        f32_from_bits_with_nan(self.bits)
    }
}

impl Blank for FloatBits {
    type Meaning = u32;

    ghost meaning = { λ v. v.bits };

    ghost blank_is = { 0 };

    fn blank(_alloc: Global) -> FloatBits {
        FloatBits { bits: 0 }
    }
}

/// A value of `double`: the 64 bits of a number in the format binary64 of IEEE 754, as [`FloatBits`] are 32.
///
/// ```ignore
/// let half = DoubleBits::new(0.5);
/// ```
#[derive(Clone, Copy, Debug, PartialEq, Eq)]
pub struct DoubleBits {
    /// The bits.
    pub bits: u64,
}

impl DoubleBits {
    /// A number as its bits. All NaNs have the same, 0x7FF8_0000_0000_0000.
    ///
    /// ```ignore
    /// let half = DoubleBits::new(0.5);
    /// ```
    pub fn new(number: f64) -> DoubleBits
        ensures bits { result.bits ≡ to_bits binary64 number }
        ensures number { from_bits binary64 result.bits ≡ number }
    {
        DoubleBits {
            bits: f64_to_bits_with_nan(number),
        }
    }

    /// The number. The bits of a NaN give a NaN.
    ///
    /// ```ignore
    /// let number = half.number(); // 0.5
    /// ```
    pub fn number(self) -> f64
        ensures { result ≡ from_bits binary64 self.bits }
    {
        f64_from_bits_with_nan(self.bits)
    }
}

impl Blank for DoubleBits {
    type Meaning = u64;

    ghost meaning = { λ v. v.bits };

    ghost blank_is = { 0 };

    fn blank(_alloc: Global) -> DoubleBits {
        DoubleBits { bits: 0 }
    }
}
