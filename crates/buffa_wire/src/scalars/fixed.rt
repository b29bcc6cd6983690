//! Scalars of four and of eight bytes, the lowest first.

ghost use Rattle.std.specs.Prelude.{◌<◌, ◌^◌, FitsSigned, Some, refl};
ghost use Rattle.std.specs.Int.{cast_unsigned, w32, w64};
ghost use Rattle.buffa_bytes.specs.Scalars.{sfixed32_of, sfixed64_of};
ghost use Rattle.buffa_bytes.proofs.ScalarLemmas.{sfixed32_means, sfixed64_means, unsigned32_fits, unsigned64_fits};
ghost use Rattle.buffa_wire.specs.ScalarFacts.{one_length};

use crate::form::{EightBytes, FourBytes};
use crate::scalar::Scalar;
use crate::sealed::Sealed;

/// `fixed32`: a `u32` as four bytes.
///
/// ```ignore
/// let ext = Extension::<Fixed32>::new(7, "test.Carrier");
/// ```
pub struct Fixed32;

impl Sealed for Fixed32 {}

impl Scalar for Fixed32 {
    type Value = u32;

    type Form = FourBytes;

    const COST: usize = 4;

    const FIXED_LEN: Option<u64> = Some(4);

    ghost COST = { 4 };

    ghost FIXED_LEN = { Some 4 };

    ghost value_of = { λ n. n };

    ghost number_of = { λ n. n };

    ghost fits = { λ n. n < 2 ^ 32 };

    fn value_of(n: u64) -> u32 {
        n as u32
    }

    fn number_of(value: &u32) -> u64 {
        u64::from(*value)
    }

    ghost spelled = { λ v h. h };

    ghost means = { λ v h. refl };

    ghost fixed = { λ n h v. one_length h refl };
}

/// `fixed64`: a `u64` as eight bytes.
///
/// ```ignore
/// let ext = Extension::<Fixed64>::new(7, "test.Carrier");
/// ```
pub struct Fixed64;

impl Sealed for Fixed64 {}

impl Scalar for Fixed64 {
    type Value = u64;

    type Form = EightBytes;

    const COST: usize = 8;

    const FIXED_LEN: Option<u64> = Some(8);

    ghost COST = { 8 };

    ghost FIXED_LEN = { Some 8 };

    ghost value_of = { λ n. n };

    ghost number_of = { λ n. n };

    ghost fits = { λ n. n < 2 ^ 64 };

    fn value_of(n: u64) -> u64 {
        n
    }

    fn number_of(value: &u64) -> u64 {
        *value
    }

    ghost spelled = { λ v h. h };

    ghost means = { λ v h. refl };

    ghost fixed = { λ n h v. one_length h refl };
}

/// `sfixed32`: an `i32` as four bytes in two's complement.
///
/// ```ignore
/// let ext = Extension::<Sfixed32>::new(7, "test.Carrier");
/// ```
pub struct Sfixed32;

impl Sealed for Sfixed32 {}

impl Scalar for Sfixed32 {
    type Value = i32;

    type Form = FourBytes;

    const COST: usize = 4;

    const FIXED_LEN: Option<u64> = Some(4);

    ghost COST = { 4 };

    ghost FIXED_LEN = { Some 4 };

    ghost value_of = { sfixed32_of };

    ghost number_of = { cast_unsigned w32 };

    ghost fits = { FitsSigned w32 };

    fn value_of(n: u64) -> i32 {
        (n as u32).cast_signed()
    }

    fn number_of(value: &i32) -> u64 {
        u64::from(value.cast_unsigned())
    }

    ghost spelled = { unsigned32_fits };

    ghost means = { sfixed32_means };

    ghost fixed = { λ n h v. one_length h refl };
}

/// `sfixed64`: an `i64` as eight bytes in two's complement.
///
/// ```ignore
/// let ext = Extension::<Sfixed64>::new(7, "test.Carrier");
/// ```
pub struct Sfixed64;

impl Sealed for Sfixed64 {}

impl Scalar for Sfixed64 {
    type Value = i64;

    type Form = EightBytes;

    const COST: usize = 8;

    const FIXED_LEN: Option<u64> = Some(8);

    ghost COST = { 8 };

    ghost FIXED_LEN = { Some 8 };

    ghost value_of = { sfixed64_of };

    ghost number_of = { cast_unsigned w64 };

    ghost fits = { FitsSigned w64 };

    fn value_of(n: u64) -> i64 {
        n.cast_signed()
    }

    fn number_of(value: &i64) -> u64 {
        value.cast_unsigned()
    }

    ghost spelled = { unsigned64_fits };

    ghost means = { sfixed64_means };

    ghost fixed = { λ n h v. one_length h refl };
}
