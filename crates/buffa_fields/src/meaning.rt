//! What a message means: a pair for each member, of what it means and of what those after it do.

use buffa_wire::UnknownFields;
use std::marker::Model;

/// What a member means, and what those after it do: the pair, as a type with a name: each member adds to the time of
/// a check, and none doubles it. It is never made.
///
/// ```ignore
/// type Meaning = And5<i32, [u8; 0], Option<bool>, [And<[u8; 0], i32>; 0], Unknowns>;
/// ```
#[derive(Drop)]
pub struct And<A, B> {
    first: A,
    others: B,
}

impl<A, B> Model for And<A, B> {
    ghost use Rattle.std.specs.Coded.{coded×};

    ghost Value = { A × B };

    ghost coded = { coded× A.code B.code };

    ghost view = { λ m. (m.first, m.others) };
}

/// What three members mean, one after the other; those below are of more.
///
/// ```ignore
/// type Meaning = And3<i64, Option<<Inventory as Blank>::Meaning>, ()>;
/// ```
pub type And3<A, B, C> = And<A, And<B, C>>;

/// Four, one after the other.
///
/// ```ignore
/// type Meaning = And4<[And<[u8; 0], i32>; 0], [And<i32, <Inventory as Blank>::Meaning>; 0], .., Unknowns>;
/// ```
pub type And4<A, B, C, D> = And<A, And3<B, C, D>>;

/// Five, one after the other.
///
/// ```ignore
/// type Meaning = And5<i32, [u8; 0], Option<bool>, [And<[u8; 0], i32>; 0], Unknowns>;
/// ```
pub type And5<A, B, C, D, E> = And<A, And4<B, C, D, E>>;

/// Six, one after the other: [`And5`] shows how.
pub type And6<A, B, C, D, E, F> = And<A, And5<B, C, D, E, F>>;

/// Seven, one after the other: [`And5`] shows how.
pub type And7<A, B, C, D, E, F, G> = And<A, And6<B, C, D, E, F, G>>;

/// Eight, one after the other: [`And5`] shows how.
pub type And8<A, B, C, D, E, F, G, H> = And<A, And7<B, C, D, E, F, G, H>>;

/// Nine, one after the other.
///
/// ```ignore
/// type Meaning = And9<Option<[u8; 0]>, Option<(bool, i32)>, .., Unknowns>;
/// ```
pub type And9<A, B, C, D, E, F, G, H, I> = And<A, And8<B, C, D, E, F, G, H, I>>;

/// Ten, one after the other: [`And5`] shows how.
pub type And10<A, B, C, D, E, F, G, H, I, J> = And<A, And9<B, C, D, E, F, G, H, I, J>>;

/// Eleven, one after the other: [`And5`] shows how.
pub type And11<A, B, C, D, E, F, G, H, I, J, K> = And<A, And10<B, C, D, E, F, G, H, I, J, K>>;

/// Twelve, one after the other.
///
/// ```ignore
/// type Meaning = And12<Option<i32>, Option<i64>, .., Unknowns>;
/// ```
pub type And12<A, B, C, D, E, F, G, H, I, J, K, L> = And<A, And11<B, C, D, E, F, G, H, I, J, K, L>>;

/// Thirteen, one after the other.
///
/// ```ignore
/// type Meaning = And13<i64, [u8; 0], Option<bool>, .., Option<i32>, ()>;
/// ```
pub type And13<A, B, C, D, E, F, G, H, I, J, K, L, M> = And<
    A,
    And12<B, C, D, E, F, G, H, I, J, K, L, M>,
>;

/// Fourteen, one after the other.
///
/// ```ignore
/// type Meaning = And14<Option<<Load as Blank>::Meaning>, [<Load as Blank>::Meaning; 0], .., Unknowns>;
/// ```
pub type And14<A, B, C, D, E, F, G, H, I, J, K, L, M, N> = And<
    A,
    And13<B, C, D, E, F, G, H, I, J, K, L, M, N>,
>;

/// Fifteen, one after the other: [`And5`] shows how.
pub type And15<A, B, C, D, E, F, G, H, I, J, K, L, M, N, O> = And<
    A,
    And14<B, C, D, E, F, G, H, I, J, K, L, M, N, O>,
>;

/// Sixteen, one after the other: [`And5`] shows how.
pub type And16<A, B, C, D, E, F, G, H, I, J, K, L, M, N, O, P> = And<
    A,
    And15<B, C, D, E, F, G, H, I, J, K, L, M, N, O, P>,
>;

/// What a case of a `oneof` means, or one of those after it: one of the two, as a type with a name. It is never made.
///
/// ```ignore
/// type Meaning = Or<[u8; 0], Or<i32, Or<<Transfer as Blank>::Meaning, ()>>>;
/// ```
#[derive(Drop)]
pub enum Or<A, B> {
    /// The first case.
    This(A),
    /// One of those after it.
    Other(B),
}

/// What kept fields mean: their records. It is never made.
///
/// ```ignore
/// type Meaning = And3<[u8; 0], [And<[u8; 0], i32>; 0], Unknowns>;
/// ```
#[derive(Drop)]
pub struct Unknowns {
    fields: UnknownFields,
}

impl Model for Unknowns {
    ghost use Rattle.std.specs.Prelude.{ℕ, List};
    ghost use Rattle.std.specs.Coded.{coded_list, coded_ℕ, coded×};
    ghost use Rattle.buffa_wire.specs.StoredRecords.{coded_field_data};
    ghost use Rattle.buffa_wire.specs.Records.{FieldData};

    ghost Value = { List (ℕ × FieldData) };

    ghost coded = { coded_list (coded× coded_ℕ coded_field_data) };

    ghost view = { λ m. m.fields.records };
}
