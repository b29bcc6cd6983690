//! Codecs of one value: the last record that is read at all.

ghost use Rattle.std.specs.Prelude.{◌≡◌, [], ◌∷◌, Option, Some, None, option_map};
ghost use Rattle.buffa_wire.specs.BudgetLeft.{BudgetLeft, Covers, defaults};
ghost use Rattle.buffa_wire.specs.Records.{FieldData};
ghost use Rattle.buffa_codec.specs.Decoded.{HasLast, last_read};
ghost use Rattle.buffa_codec.specs.CodecFacts.{last_of_one};

use crate::codec::{ExtensionCodec, SingularCodec, push_record};
use buffa_wire::{EncodeError, UnknownFields};
use std::alloc::{AllocError, Global};

/// A codec of which the last record that is read is the value, and whose reading spends nothing.
///
/// ```ignore
/// impl LastWins for StringCodec { .. }
/// ```
pub trait LastWins: SingularCodec {
    /// No budget changes what a record is read as.
    ghost same: { (b c : BudgetLeft) (d : FieldData) → Self.one 100 b d ≡ Self.one 100 c d };

    /// A reading spends nothing.
    ghost free: { (b left : BudgetLeft) (d : FieldData) → Self.leaves 100 b d left → left ≡ b };

    /// A reading may be made.
    ghost made: { (b : BudgetLeft) (d : FieldData) → Self.leaves 100 b d b };

    /// The record of a value costs no more than there is.
    ghost covered: { (v : Self.Value.Meaning) → Covers defaults (Self.cost (Self.field_data v)) };
}

impl<C: LastWins> ExtensionCodec for C {
    type Value = C::Value;

    type Output = Option<C::Value>;

    ghost Meaning = { C.Value.Meaning };

    ghost Answer = { Option C.Value.Meaning };

    ghost meaning = { C.Value.meaning };

    ghost answer = { option_map C.Value.meaning };

    ghost reads = { λ ds o. o ≡ last_read (C.one 100 defaults) ds };

    ghost extension_data = { λ v. C.field_data v ∷ [] };

    ghost refusal = { C.refusal };

    ghost fits = { C.fits };

    ghost normal = { C.normal };

    ghost holds = { λ v o. o ≡ Some (C.back v) };

    ghost never_fails = { C.never_fails };

    ghost in_room = { C.made_free };

    ghost asks = { HasLast C.asks (C.one 100 defaults) };

    fn decode(
        alloc: Global,
        number: u32,
        fields: &UnknownFields,
    ) -> Result<Option<C::Value>, AllocError> {
        let all = fields.iter().as_slice();
        let mut i = all.len();
        while i > 0 {
            i -= 1;
            let field = &all[i];
            if field.number == number {
                match C::decode_one(alloc, &field.payload)? {
                    Some(value) => return Ok(Some(value)),
                    None => {}
                }
            }
        }
        Ok(None)
    }

    fn try_encode(
        alloc: Global,
        number: u32,
        value: C::Value,
        fields: &mut UnknownFields,
    ) -> Result<(), EncodeError> {
        let payload = C::encode_one(alloc, &value)?;
        push_record(number, payload, fields)
    }

    ghost reads_back = { λ v o f n h.
        last_of_one (C.one 100 defaults) (C.field_data v) (C.back v) o
        (C.SingularCodec.reads_field_data v defaults f n (C.LastWins.covered v)) h };
}
