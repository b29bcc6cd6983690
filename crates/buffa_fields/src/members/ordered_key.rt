//! Keys of maps that are walked in the order of their keys.

ghost use Rattle.std.specs.Prelude.{◌≡◌, refl};
ghost use Rattle.std.specs.Cmp.{IsTotalOrder, bool_cmp_total, int_cmp_total, nat_cmp_total, unsigned_ties};
ghost use Rattle.std.specs.Cmp.Lexicographic.{nat_list_cmp_total, slice_cmp, texts_ties};
ghost use Rattle.std.specs.Ordering.{bool_cmp, eq_by_cmp, int_cmp, nat_cmp};
ghost use Rattle.std.specs.declared.cmp.Ordering.{Ordering};
ghost use Rattle.buffa_fields.specs.OrderedMaps.{bits_tie};

use buffa_wire::MapKey;

/// A key whose order is that of what it means. A type of one's own says which order that is; the impl of `String`
/// below is the pattern.
///
/// ```ignore
/// impl OrderedKey for String { .. }
/// ```
pub trait OrderedKey: MapKey + Ord {
    /// The order of what keys mean.
    ghost order: { Self.Meaning → Self.Meaning → Ordering };

    /// It is total.
    ghost total: { IsTotalOrder order };

    /// Equal ones are one key.
    ghost ties: { (a b : Self.Meaning) → Self.same a b ≡ eq_by_cmp order a b };

    /// Keys compare as what they mean.
    ghost compares: { (a b : Self) → Self.cmp a b ≡ order (Self.meaning a) (Self.meaning b) };
}

impl OrderedKey for i32 {
    ghost order = { int_cmp };

    ghost total = { int_cmp_total };

    ghost ties = { λ a b. refl };

    ghost compares = { λ a b. refl };
}

impl OrderedKey for i64 {
    ghost order = { int_cmp };

    ghost total = { int_cmp_total };

    ghost ties = { λ a b. refl };

    ghost compares = { λ a b. refl };
}

impl OrderedKey for u32 {
    ghost order = { nat_cmp };

    ghost total = { nat_cmp_total };

    ghost ties = { unsigned_ties };

    ghost compares = { λ a b. refl };
}

impl OrderedKey for u64 {
    ghost order = { nat_cmp };

    ghost total = { nat_cmp_total };

    ghost ties = { unsigned_ties };

    ghost compares = { λ a b. refl };
}

impl OrderedKey for bool {
    ghost order = { bool_cmp };

    ghost total = { bool_cmp_total };

    ghost ties = { bits_tie };

    ghost compares = { λ a b. refl };
}

impl OrderedKey for String {
    ghost order = { slice_cmp nat_cmp };

    ghost total = { nat_list_cmp_total };

    ghost ties = { texts_ties };

    ghost compares = { λ a b. refl };
}
