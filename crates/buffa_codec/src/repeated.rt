//! Codecs of lists, one record an element; packed records are read here too.

ghost use Rattle.std.specs.Prelude.{◌≡◌, List, map, OnErr, OnOk};
ghost use Rattle.std.specs.List.{AllByRecursion};
ghost use Rattle.buffa_wire.specs.RecordsOfValues.{field_data_of};
ghost use Rattle.buffa_codec.specs.Decoded.{AddsRecord, AsksInList, CoversAll, Has, ReadsList};
ghost use Rattle.buffa_codec.specs.Decoded.{first_refusal};
ghost use Rattle.buffa_wire.specs.BudgetLeft.{defaults};
ghost use Rattle.buffa_codec.specs.CodecFacts.{list_back};

use crate::codec::{ExtensionCodec, SingularCodec};
use buffa_wire::{
    Budget, DEFAULT_UNKNOWN_FIELD_LIMIT, DecodeContext, EncodeError, RECURSION_LIMIT, UnknownField,
    UnknownFieldData, UnknownFields,
};
use std::alloc::{AllocError, Global};
use std::marker::PhantomData;

/// A list: one record an element is written, and packed records are read too, a malformed one up to its fault.
///
/// ```ignore
/// Repeated::<Int32>::encode(alloc, 7, vec![in alloc; 3, 300]?, &mut fields)?; // 38 03 38 AC 02
/// ```
pub struct Repeated<C> {
    of: PhantomData<C>,
}

impl<C: SingularCodec> ExtensionCodec for Repeated<C> {
    type Value = Vec<C::Value>;

    type Output = Vec<C::Value>;

    ghost Meaning = { List C.Value.Meaning };

    ghost Answer = { List C.Value.Meaning };

    ghost meaning = { λ vs. map C.Value.meaning vs.items };

    ghost answer = { λ vs. map C.Value.meaning vs.items };

    ghost reads = { ReadsList (C.one 100) (C.leaves 100) C.packed };

    ghost extension_data = { map C.field_data };

    ghost refusal = { first_refusal C.refusal };

    ghost fits = { AllByRecursion C.fits };

    ghost normal = { λ vs. AllByRecursion C.normal vs × CoversAll C.cost defaults (map C.field_data vs) };

    ghost holds = { λ v o. o ≡ map C.back v };

    ghost never_fails = { ⊥ };

    ghost in_room = { AllByRecursion C.made_free };

    ghost asks = { Has (AsksInList C.asks (C.one 100) C.packed) };

    fn decode(
        alloc: Global,
        number: u32,
        fields: &UnknownFields,
    ) -> Result<Vec<C::Value>, AllocError> {
        let mut out = Vec::new(alloc);
        let mut budget = Budget::new(DEFAULT_UNKNOWN_FIELD_LIMIT);
        for field in fields.iter().as_slice() {
            if field.number == number {
                read_one::<C>(alloc, &field.payload, &mut budget, &mut out)?;
            }
        }
        Ok(out)
    }

    fn try_encode(
        alloc: Global,
        number: u32,
        value: Vec<C::Value>,
        fields: &mut UnknownFields,
    ) -> Result<(), EncodeError> {
        for v in value.as_slice() {
            let payload = C::encode_one(alloc, v)?;
            fields.push(UnknownField { number, payload })?;
        }
        Ok(())
    }

    ghost reads_back = { λ v o f n h.
        list_back C.fits C.normal C.cost (C.one 100) (C.leaves 100) C.packed C.field_data C.back C.SingularCodec.reads_field_data
        C.SingularCodec.spends_cost defaults v o h.0 f n.0 n.1 h.1 };
}

// Puts the values of one record behind the others, and spends what reading it costs.
fn read_one<C: SingularCodec>(
    alloc: Global,
    payload: &UnknownFieldData,
    budget: &mut Budget,
    out: &mut Vec<C::Value>,
) -> Result<(), AllocError>
    ensures leaves { OnOk result (C.leaves 100 budget.old (field_data_of payload.now) budget.new) }
    ensures values { OnOk result (AddsRecord C.Value.meaning C.packed (C.one 100 budget.old) out.old.items
        (field_data_of payload.now) out.new.items) }
    ensures full { OnErr result (AsksInList C.asks (C.one 100) C.packed (field_data_of payload.now)) }
{
    let ctx = DecodeContext {
        depth: RECURSION_LIMIT,
        budget: &mut *budget,
    };
    match C::decode_one_ctx(alloc, payload, ctx)? {
        Some(v) => out.push(v)?,
        None => {
            if let UnknownFieldData::LengthDelimited(bytes) = payload {
                C::decode_packed(bytes.as_slice(), out)?;
            }
        }
    }
    Ok(())
}
