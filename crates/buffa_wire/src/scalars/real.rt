//! Scalars that are real numbers, as the bytes of their bits, the lowest first.

ghost use Rattle.std.specs.Prelude.{◌<◌, ◌^◌, Some, refl};
ghost use Rattle.buffa_wire.specs.ScalarFacts.{one_length};

use crate::form::{EightBytes, FourBytes};
use crate::reals::{DoubleBits, FloatBits};
use crate::scalar::Scalar;
use crate::sealed::Sealed;

/// `float`: the bits of a number in four bytes.
///
/// ```ignore
/// let ext = Extension::<Float>::new(7, "test.Carrier");
/// ```
pub struct Float;

impl Sealed for Float {}

impl Scalar for Float {
    type Value = FloatBits;

    type Form = FourBytes;

    const COST: usize = 4;

    const FIXED_LEN: Option<u64> = Some(4);

    ghost COST = { 4 };

    ghost FIXED_LEN = { Some 4 };

    ghost value_of = { λ n. n };

    ghost number_of = { λ n. n };

    ghost fits = { λ n. n < 2 ^ 32 };

    fn value_of(n: u64) -> FloatBits {
        FloatBits { bits: n as u32 }
    }

    fn number_of(value: &FloatBits) -> u64 {
        u64::from(value.bits)
    }

    ghost spelled = { λ v h. h };

    ghost means = { λ v h. refl };

    ghost fixed = { λ n h v. one_length h refl };
}

/// `double`: the bits of a number in eight bytes.
///
/// ```ignore
/// let ext = Extension::<Double>::new(7, "test.Carrier");
/// ```
pub struct Double;

impl Sealed for Double {}

impl Scalar for Double {
    type Value = DoubleBits;

    type Form = EightBytes;

    const COST: usize = 8;

    const FIXED_LEN: Option<u64> = Some(8);

    ghost COST = { 8 };

    ghost FIXED_LEN = { Some 8 };

    ghost value_of = { λ n. n };

    ghost number_of = { λ n. n };

    ghost fits = { λ n. n < 2 ^ 64 };

    fn value_of(n: u64) -> DoubleBits {
        DoubleBits { bits: n }
    }

    fn number_of(value: &DoubleBits) -> u64 {
        value.bits
    }

    ghost spelled = { λ v h. h };

    ghost means = { λ v h. refl };

    ghost fixed = { λ n h v. one_length h refl };
}
