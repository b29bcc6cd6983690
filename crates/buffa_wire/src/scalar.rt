//! Proto types whose values are one number each.

ghost use Rattle.std.specs.Prelude.{◌≡◌, ℕ, Option, Some, length};

use crate::form::Form;
use crate::sealed::Sealed;
use buffa_bytes::Blank;

/// A proto type whose values are one number each.
///
/// ```ignore
/// let ext = Extension::<Sint64>::new(7, "test.Carrier");
/// ```
pub trait Scalar: Sealed {
    /// The Rust type of the values.
    ///
    /// ```ignore
    /// type Value = N::Value;
    /// ```
    type Value: Blank;

    /// How the numbers are spelled.
    ///
    /// ```ignore
    /// type Form = <Sint64 as Scalar>::Form;
    /// ```
    type Form: Form;

    /// The units of element memory that a value costs.
    const COST: usize;

    /// The length of every encoding in bytes, where they have one length.
    const FIXED_LEN: Option<u64>;

    ghost COST: { ℕ };

    ghost FIXED_LEN: { Option ℕ };

    /// The value that a number means.
    ghost value_of: { ℕ → Self.Value.Meaning };

    /// The number of a value.
    ghost number_of: { Self.Value.Meaning → ℕ };

    /// What the type holds.
    ghost fits: { Self.Value.Meaning → Type 0 };

    /// The value that a number means.
    ///
    /// ```ignore
    /// cents: <Sint64 as Scalar>::value_of(n), // -3 for 5
    /// ```
    fn value_of(n: u64) -> Self::Value
        requires { Self.Form.spells n }
        ensures { Self.Value.meaning result ≡ value_of n };

    /// The number of a value.
    ///
    /// ```ignore
    /// let number = <Sint64 as Scalar>::number_of(&value.cents); // 5 for -3
    /// ```
    fn number_of(value: &Self::Value) -> u64
        ensures number { result ≡ number_of (Self.Value.meaning value.now) }
        ensures fits { fits (Self.Value.meaning value.now) }
        ensures spelled { Self.Form.spells result };

    /// The number of a value can be spelled.
    ghost spelled: { (v : Self.Value.Meaning) → fits v → Self.Form.spells (number_of v) };

    /// The number of a value means that value.
    ghost means: { (v : Self.Value.Meaning) → fits v → value_of (number_of v) ≡ v };

    /// The fixed length is that of every encoding, whatever the value.
    ghost fixed: { (n : ℕ) → FIXED_LEN ≡ Some n → (v : Self.Value.Meaning) → length (Self.Form.encoding (number_of v)) ≡ n };
}
