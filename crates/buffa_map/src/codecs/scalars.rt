//! Map codecs of scalars: one for each [`Scalar`].

ghost use Rattle.std.specs.Prelude.{false, refl, true};
ghost use Rattle.std.proofs.Common.{Ok, ap};
ghost use Rattle.buffa_bytes.specs.PayloadValue.PayloadValue.{number};
ghost use Rattle.buffa_map.specs.Scalars.{number_reading, number_writing};
ghost use Rattle.buffa_map.specs.ScalarFacts.{always_known, never_faulty};

use crate::codec::sealed::Sealed;
use crate::codec::{MapCodec, MapValueDecode, MapValueDecodeStatus};
use buffa_wire::{
    Buf, DecodeContext, DecodeError, EncodeError, EncodeSink, Form, Scalar, WireType,
};
use std::alloc::Global;

impl<N: Scalar> Sealed for N {}

impl<N: Scalar> MapValueDecode for N {
    type Value = N::Value;

    const WIRE_TYPE: WireType = <N::Form as Form>::WIRE_TYPE;

    const MAY_RETURN_UNKNOWN: bool = false;

    const COST: usize = <N as Scalar>::COST;

    ghost WIRE_TYPE = { N.Form.WIRE_TYPE };

    ghost MAY_RETURN_UNKNOWN = { false };

    ghost COST = { N.Scalar.COST };

    ghost reading = { number_reading N.Form.WIRE_TYPE N.Value.blank_is N.value_of };

    fn merge<B: Buf>(
        _alloc: Global,
        value: &mut N::Value,
        buf: &mut B,
        _ctx: DecodeContext<'_>,
    ) -> Result<MapValueDecodeStatus, DecodeError> {
        *value = N::value_of(<N::Form as Form>::read(buf)?);
        Ok(MapValueDecodeStatus::Known)
    }

    ghost free = { λ _ d c. refl };

    ghost no_limit = { λ d old c x h. never_faulty x h };

    ghost wire = { refl };

    ghost blank = { refl };

    ghost declared = { λ _ d old c new known h. always_known new known h };

    ghost undeclared = { refl };
}

impl<N: Scalar> MapCodec for N {
    const FIXED_LEN: Option<u64> = <N as Scalar>::FIXED_LEN;

    ghost FIXED_LEN = { N.Scalar.FIXED_LEN };

    ghost writing = { number_writing N.Form.WIRE_TYPE N.Form.encoding N.number_of };

    ghost fits = { N.fits };

    ghost normal = { λ _. Unit {0} };

    fn encoded_len(value: &N::Value) -> u64 {
        <N::Form as Form>::len(N::number_of(value))
    }

    #[inline(always)]
    fn encode<S: EncodeSink>(value: &N::Value, sink: &mut S) -> Result<(), EncodeError> {
        <N::Form as Form>::write(N::number_of(value), sink)
    }

    ghost plain = { refl };

    ghost written_wire = { refl };

    ghost reads_back = { λ d old v h _. (
      number (N.number_of v),
      N.Form.Form.reads_back (N.number_of v)
          (N.Scalar.spelled v h),
      ap (λ z. Ok (z, true)) (N.Scalar.means v h),
    ) };

    ghost blank_normal = { tt };

    ghost stays_normal = { λ d old c new known h _. tt };

    ghost fixed = { N.Scalar.fixed };
}
