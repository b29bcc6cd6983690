//! Keys of maps: which values are one key.

ghost use Rattle.std.specs.Prelude.{◌≡◌, Bool, true, nat_eq, refl};
ghost use Rattle.std.specs.Bool.{beq};
ghost use Rattle.std.specs.Cmp.{IsEquivalence, bool_eq_equiv, int_eq_equiv, nat_eq_equiv};
ghost use Rattle.std.specs.Cmp.Lexicographic.{nat_list_eq_equiv, pointwise};
ghost use Rattle.std.specs.Ordering.{int_eq};
ghost use Rattle.buffa_bytes.specs.Plain.{bits_plain, bytes_plain, integers_plain, numbers_plain};

use crate::blank::Blank;
use bytes::Bytes;

/// A value that a map can take as its key: what it means decides which keys are one.
///
/// The equality of keys may be coarser than identity, as in a text that overlooks the case of letters. A
/// type of one's own says which meanings are one key, that this is an equivalence, and that `==` follows
/// it; the impl of `String` below is the pattern.
///
/// ```ignore
/// impl MapKey for Word { .. }
/// ```
pub trait MapKey: Blank + Eq {
    /// Whether two meanings are one key.
    ghost same: { Self.Meaning → Self.Meaning → Bool };

    /// `same` is an equivalence: each key is one with itself, either way round, and along a chain.
    ghost equivalence: { IsEquivalence same };

    /// `==` on keys says what `same` says of their meanings.
    ghost respects: { (a b : Self) → Self.eq a b ≡ same (Self.meaning a) (Self.meaning b) };
}

/// A key of which no two meanings are one key: equal keys are identical.
///
/// ```ignore
/// impl PlainKey for i32 { .. }
/// ```
pub trait PlainKey: MapKey {
    /// Equal meanings are identical.
    ghost plain: { (a b : Self.Meaning) → Self.same a b ≡ true → a ≡ b };
}

impl MapKey for i32 {
    ghost same = { int_eq };

    ghost equivalence = { int_eq_equiv };

    ghost respects = { λ a b. refl };
}

impl PlainKey for i32 {
    ghost plain = { integers_plain };
}

impl MapKey for i64 {
    ghost same = { int_eq };

    ghost equivalence = { int_eq_equiv };

    ghost respects = { λ a b. refl };
}

impl PlainKey for i64 {
    ghost plain = { integers_plain };
}

impl MapKey for u32 {
    ghost same = { nat_eq };

    ghost equivalence = { nat_eq_equiv };

    ghost respects = { λ a b. refl };
}

impl PlainKey for u32 {
    ghost plain = { numbers_plain };
}

impl MapKey for u64 {
    ghost same = { nat_eq };

    ghost equivalence = { nat_eq_equiv };

    ghost respects = { λ a b. refl };
}

impl PlainKey for u64 {
    ghost plain = { numbers_plain };
}

impl MapKey for bool {
    ghost same = { beq };

    ghost equivalence = { bool_eq_equiv };

    ghost respects = { λ a b. refl };
}

impl PlainKey for bool {
    ghost plain = { bits_plain };
}

impl MapKey for String {
    ghost same = { pointwise nat_eq };

    ghost equivalence = { nat_list_eq_equiv };

    ghost respects = { λ a b. refl };
}

impl PlainKey for String {
    ghost plain = { bytes_plain };
}

impl MapKey for Vec<u8> {
    ghost same = { pointwise nat_eq };

    ghost equivalence = { nat_list_eq_equiv };

    ghost respects = { λ a b. refl };
}

impl PlainKey for Vec<u8> {
    ghost plain = { bytes_plain };
}

impl MapKey for Bytes {
    ghost same = { pointwise nat_eq };

    ghost equivalence = { nat_list_eq_equiv };

    ghost respects = { λ a b. refl };
}

impl PlainKey for Bytes {
    ghost plain = { bytes_plain };
}
