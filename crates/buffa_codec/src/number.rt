//! Codecs of values that are one number each: scalars and enums.

ghost use Rattle.std.specs.Prelude.{◌≡◌, ℕ, map, None, option_map, refl};
ghost use Rattle.std.proofs.Common.{ap, ◌∙◌};
ghost use Rattle.buffa_wire.specs.BudgetLeft.{defaults, nothing};
ghost use Rattle.buffa_codec.specs.Packed.{numbers_in};
ghost use Rattle.buffa_codec.specs.CodecFacts.{covers_nothing, covers_same, pays_nothing, some_of};
ghost use Rattle.buffa_codec.specs.PackedFacts.{none_unpacked, number_unpacks};

use crate::codec::{PackableCodec, SingularCodec};
use crate::last::LastWins;
use buffa_wire::{Blank, DecodeContext, EncodeError, Form, Scalar, UnknownFieldData};
use std::alloc::{AllocError, Global};

/// A type of values that are written as one number each. Every [`Scalar`] is one.
///
/// ```ignore
/// impl Numbered for PriceCodec { .. }
/// ```
pub trait Numbered {
    /// The Rust type of the values.
    ///
    /// ```ignore
    /// type Value = Price;
    /// ```
    type Value: Blank;

    /// How the numbers are spelled.
    ///
    /// ```ignore
    /// type Form = <Sint64 as Scalar>::Form;
    /// ```
    type Form: Form;

    /// The value that a number means.
    ghost value_of: { ℕ → Self.Value.Meaning };

    /// The number of a value.
    ghost number_of: { Self.Value.Meaning → ℕ };

    /// What the type holds.
    ghost fits: { Self.Value.Meaning → Type 0 };

    /// What the number of a value means: mostly that value.
    ghost back: { Self.Value.Meaning → Self.Value.Meaning };

    /// The value that a number means. It takes no memory.
    ///
    /// ```ignore
    /// fn value_of(n: u64) -> Price { .. } // in the impl for PriceCodec
    /// ```
    fn value_of(n: u64) -> Self::Value
        requires { Self.Form.spells n }
        ensures { Self.Value.meaning result ≡ value_of n };

    /// The number of a value. It takes no memory.
    ///
    /// ```ignore
    /// fn number_of(value: &Price) -> u64 { .. } // in the impl for PriceCodec
    /// ```
    fn number_of(value: &Self::Value) -> u64
        ensures number { result ≡ number_of (Self.Value.meaning value.now) }
        ensures fits { fits (Self.Value.meaning value.now) }
        ensures spelled { Self.Form.spells result };

    /// The number of a value can be spelled.
    ghost spelled: { (v : Self.Value.Meaning) → fits v → Self.Form.spells (number_of v) };

    /// The number of a value means what comes back of it.
    ghost means: { (v : Self.Value.Meaning) → fits v → value_of (number_of v) ≡ back v };
}

impl<N: Scalar> Numbered for N {
    type Value = N::Value;

    type Form = N::Form;

    ghost value_of = { N.value_of };

    ghost number_of = { N.number_of };

    ghost fits = { N.fits };

    ghost back = { λ v. v };

    fn value_of(n: u64) -> N::Value {
        <N as Scalar>::value_of(n)
    }

    fn number_of(value: &N::Value) -> u64 {
        <N as Scalar>::number_of(value)
    }

    ghost spelled = { N.Scalar.spelled };

    ghost means = { N.Scalar.means };
}

impl<N: Numbered> SingularCodec for N {
    type Value = N::Value;

    ghost one = { λ depth b d. option_map N.value_of (N.Form.found d) };

    ghost leaves = { λ depth b d left. left ≡ b };

    ghost packed = { λ bs. map N.value_of (numbers_in N.Form.WIRE_TYPE bs) };

    ghost field_data = { λ v. N.Form.field_data (N.number_of v) };

    ghost refusal = { λ v. None };

    ghost fits = { N.fits };

    ghost normal = { λ v. Unit {0} };

    ghost back = { N.back };

    ghost cost = { λ d. nothing };

    ghost most = { λ depth d. nothing };

    ghost never_fails = { Unit {0} };

    ghost made_free = { λ v. Unit {0} };

    ghost asks = { λ d. ⊥ };

    fn decode_one(
        _alloc: Global,
        payload: &UnknownFieldData,
    ) -> Result<Option<N::Value>, AllocError> {
        match <N::Form as Form>::in_record(payload) {
            Some(n) => Ok(Some(N::value_of(n))),
            None => Ok(None),
        }
    }

    fn decode_one_ctx(
        alloc: Global,
        payload: &UnknownFieldData,
        _ctx: DecodeContext<'_>,
    ) -> Result<Option<N::Value>, AllocError> {
        <N as SingularCodec>::decode_one(alloc, payload)
    }

    fn decode_packed(bytes: &[u8], out: &mut Vec<N::Value>) -> Result<(), AllocError> {
        let mut rest = bytes;
        while let Ok(n) = <N::Form as Form>::read(&mut rest) {
            out.push(N::value_of(n))?;
        }
        Ok(())
    }

    fn try_encode_one(_alloc: Global, value: &N::Value) -> Result<UnknownFieldData, EncodeError> {
        Ok(<N::Form as Form>::record_of(N::number_of(value)))
    }

    ghost reads_field_data = { λ v b f n h.
        ap (option_map N.value_of) (N.Form.Form.kept (N.number_of v)) ∙ ap some_of (N.Numbered.means v f) };

    ghost spends_cost = { λ b left d v e h. pays_nothing b left h };

    ghost spends = { λ b left d h. covers_same b left h };
}

impl<N: Numbered> LastWins for N {
    ghost same = { λ b c d. refl };

    ghost free = { λ b left d h. h };

    ghost made = { λ b d. refl };

    ghost covered = { λ v. covers_nothing defaults };
}

impl<N: Numbered> PackableCodec for N {
    ghost packed_encoding = { λ v. N.Form.encoding (N.number_of v) };

    fn encode_packed(value: &N::Value, buf: &mut Vec<u8>) -> Result<(), EncodeError> {
        let len = buf.len();
        let done = <N::Form as Form>::write(N::number_of(value), buf);
        if done.is_err() {
            buf.truncate(len);
        }
        done
    }

    ghost unpacks = { λ v rest f.
        number_unpacks N.Form.WIRE_TYPE N.value_of (N.Form.encoding (N.number_of v)) (N.number_of v) (N.back v) rest
        (N.Form.Form.reads_back (N.number_of v) (N.Numbered.spelled v f)) (N.Numbered.means v f) };

    ghost unpacks_none = { none_unpacked N.Form.WIRE_TYPE N.value_of };

    ghost bytes_unread = { λ b bs. ap (option_map N.value_of) (N.Form.Form.bytes_other bs) };

    ghost bytes_cost = { λ b left bs h. h };
}
