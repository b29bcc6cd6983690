//! Scalars that are varints.

ghost use Rattle.std.specs.Prelude.{◌<◌, ◌^◌, FitsSigned, None, Some, refl};
ghost use Rattle.std.specs.Int.{cast_unsigned, from_bool, w32, w64};
ghost use Rattle.buffa_bytes.specs.Scalars.{bool_of, int32_of, int64_of, sint32_of, sint64_of, uint32_of, zigzag};
ghost use Rattle.buffa_bytes.proofs.IntLemmas.{int32_below, int32_means};
ghost use Rattle.buffa_bytes.proofs.ScalarLemmas.{bool_fits, bool_length, bool_means, int64_means, sint32_means};
ghost use Rattle.buffa_bytes.proofs.ScalarLemmas.{sint64_means, uint32_means, unsigned64_fits, zigzag_fits64};
ghost use Rattle.buffa_wire.specs.ScalarFacts.{below_64, no_fixed_length, one_length, zigzag32_below};

use crate::form::Varint;
use crate::scalar::Scalar;
use crate::sealed::Sealed;
use buffa_bytes::types::{
    zigzag_decode_i32, zigzag_decode_i64, zigzag_encode_i32, zigzag_encode_i64,
};

/// `int32`: an `i32` as a varint of its 64-bit two's complement; the low 32 bits are read.
///
/// ```ignore
/// let ext = Extension::<Int32>::new(7, "test.Carrier");
/// ```
pub struct Int32;

impl Sealed for Int32 {}

impl Scalar for Int32 {
    type Value = i32;

    type Form = Varint;

    const COST: usize = 4;

    const FIXED_LEN: Option<u64> = None;

    ghost COST = { 4 };

    ghost FIXED_LEN = { None };

    ghost value_of = { int32_of };

    ghost number_of = { cast_unsigned w64 };

    ghost fits = { FitsSigned w32 };

    fn value_of(n: u64) -> i32 {
        ((n % (1 << 32)) as u32).cast_signed()
    }

    fn number_of(value: &i32) -> u64 {
        i64::from(*value).cast_unsigned()
    }

    ghost spelled = { int32_below };

    ghost means = { int32_means };

    ghost fixed = { λ n h v. no_fixed_length h };
}

/// `int64`: an `i64` as a varint of its two's complement.
///
/// ```ignore
/// let ext = Extension::<Int64>::new(7, "test.Carrier");
/// ```
pub struct Int64;

impl Sealed for Int64 {}

impl Scalar for Int64 {
    type Value = i64;

    type Form = Varint;

    const COST: usize = 8;

    const FIXED_LEN: Option<u64> = None;

    ghost COST = { 8 };

    ghost FIXED_LEN = { None };

    ghost value_of = { int64_of };

    ghost number_of = { cast_unsigned w64 };

    ghost fits = { FitsSigned w64 };

    fn value_of(n: u64) -> i64 {
        n.cast_signed()
    }

    fn number_of(value: &i64) -> u64 {
        value.cast_unsigned()
    }

    ghost spelled = { unsigned64_fits };

    ghost means = { int64_means };

    ghost fixed = { λ n h v. no_fixed_length h };
}

/// `uint32`: a `u32` as a varint; the low 32 bits are read.
///
/// ```ignore
/// let ext = Extension::<Uint32>::new(7, "test.Carrier");
/// ```
pub struct Uint32;

impl Sealed for Uint32 {}

impl Scalar for Uint32 {
    type Value = u32;

    type Form = Varint;

    const COST: usize = 4;

    const FIXED_LEN: Option<u64> = None;

    ghost COST = { 4 };

    ghost FIXED_LEN = { None };

    ghost value_of = { uint32_of };

    ghost number_of = { λ n. n };

    ghost fits = { λ n. n < 2 ^ 32 };

    fn value_of(n: u64) -> u32 {
        (n % (1 << 32)) as u32
    }

    fn number_of(value: &u32) -> u64 {
        u64::from(*value)
    }

    ghost spelled = { below_64 };

    ghost means = { uint32_means };

    ghost fixed = { λ n h v. no_fixed_length h };
}

/// `uint64`: a `u64` as a varint.
///
/// ```ignore
/// let ext = Extension::<Uint64>::new(7, "test.Carrier");
/// ```
pub struct Uint64;

impl Sealed for Uint64 {}

impl Scalar for Uint64 {
    type Value = u64;

    type Form = Varint;

    const COST: usize = 8;

    const FIXED_LEN: Option<u64> = None;

    ghost COST = { 8 };

    ghost FIXED_LEN = { None };

    ghost value_of = { λ n. n };

    ghost number_of = { λ n. n };

    ghost fits = { λ n. n < 2 ^ 64 };

    fn value_of(n: u64) -> u64 {
        n
    }

    fn number_of(value: &u64) -> u64 {
        *value
    }

    ghost spelled = { λ v h. h };

    ghost means = { λ v h. refl };

    ghost fixed = { λ n h v. no_fixed_length h };
}

/// `sint32`: an `i32` as a varint of its zigzag; the low 32 bits are read.
///
/// ```ignore
/// visitor.visit::<PackedField<Sint32>>(7, &self.steps);
/// ```
pub struct Sint32;

impl Sealed for Sint32 {}

impl Scalar for Sint32 {
    type Value = i32;

    type Form = Varint;

    const COST: usize = 4;

    const FIXED_LEN: Option<u64> = None;

    ghost COST = { 4 };

    ghost FIXED_LEN = { None };

    ghost value_of = { sint32_of };

    ghost number_of = { zigzag };

    ghost fits = { FitsSigned w32 };

    fn value_of(n: u64) -> i32 {
        zigzag_decode_i32((n % (1 << 32)) as u32)
    }

    fn number_of(value: &i32) -> u64 {
        u64::from(zigzag_encode_i32(*value))
    }

    ghost spelled = { zigzag32_below };

    ghost means = { sint32_means };

    ghost fixed = { λ n h v. no_fixed_length h };
}

/// `sint64`: an `i64` as a varint of its zigzag.
///
/// ```ignore
/// let ext = Extension::<Sint64>::new(7, "test.Carrier");
/// ```
pub struct Sint64;

impl Sealed for Sint64 {}

impl Scalar for Sint64 {
    type Value = i64;

    type Form = Varint;

    const COST: usize = 8;

    const FIXED_LEN: Option<u64> = None;

    ghost COST = { 8 };

    ghost FIXED_LEN = { None };

    ghost value_of = { sint64_of };

    ghost number_of = { zigzag };

    ghost fits = { FitsSigned w64 };

    fn value_of(n: u64) -> i64 {
        zigzag_decode_i64(n)
    }

    fn number_of(value: &i64) -> u64 {
        zigzag_encode_i64(*value)
    }

    ghost spelled = { zigzag_fits64 };

    ghost means = { λ v h. sint64_means v };

    ghost fixed = { λ n h v. no_fixed_length h };
}

/// `bool`: a varint, 0 or 1; anything but 0 is read as true.
///
/// ```ignore
/// let ext = Extension::<Bool>::new(7, "test.Carrier");
/// ```
pub struct Bool;

impl Sealed for Bool {}

impl Scalar for Bool {
    type Value = bool;

    type Form = Varint;

    const COST: usize = 1;

    const FIXED_LEN: Option<u64> = Some(1);

    ghost COST = { 1 };

    ghost FIXED_LEN = { Some 1 };

    ghost value_of = { bool_of };

    ghost number_of = { from_bool };

    ghost fits = { λ _. Unit {0} };

    fn value_of(n: u64) -> bool {
        n != 0
    }

    fn number_of(value: &bool) -> u64 {
        u64::from(*value)
    }

    ghost spelled = { λ v h. bool_fits v };

    ghost means = { λ v h. bool_means v };

    ghost fixed = { λ n h v. one_length h (bool_length v) };
}
