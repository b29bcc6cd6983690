//! The codec of enums.

ghost use Rattle.std.proofs.Common.{ap};
ghost use Rattle.buffa_bytes.proofs.IntLemmas.{int32_below, int32_means};
ghost use Rattle.buffa_wire.specs.Enums.{open_number};

use crate::number::Numbered;
use buffa_wire::scalars::Int32;
use buffa_wire::{EnumValue, Enumeration, Form, Scalar};
use std::marker::PhantomData;

/// An enum: read as `int32` is, each number as the declared value that has it, if one has.
///
/// ```ignore
/// let hue = EnumCodec::<Old>::decode(alloc, 7, &fields)?; // of 38 01: Some(EnumValue::Known(Old::B))
/// ```
pub struct EnumCodec<E> {
    of: PhantomData<E>,
}

impl<E: Enumeration> Numbered for EnumCodec<E> {
    type Value = EnumValue<E>;

    type Form = <Int32 as Scalar>::Form;

    ghost value_of = { λ n. open_number E.of_number (⟦<Int32 as Scalar>⟧.value_of n) };

    ghost number_of = { λ v. ⟦<Int32 as Scalar>⟧.number_of v.1 };

    ghost fits = { λ v. ⟦<Int32 as Scalar>⟧.fits v.1 };

    ghost back = { λ v. open_number E.of_number v.1 };

    fn value_of(n: u64) -> EnumValue<E> {
        EnumValue::from_i32(<Int32 as Scalar>::value_of(n))
    }

    fn number_of(value: &EnumValue<E>) -> u64 {
        <Int32 as Scalar>::number_of(&value.to_i32())
    }

    ghost spelled = { λ v f. int32_below v.1 f };

    ghost means = { λ v f. ap (open_number E.of_number) (int32_means v.1 f) };
}
