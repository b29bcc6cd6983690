//! Strict readings of messages: a record of another kind is an error, and so is a refused encoding.

ghost use Rattle.std.specs.Prelude.{◌≡◌, ◌∷◌, [], None, Ok, Some, IfErr, IfOk, OnOk, option_map, true};
ghost use Rattle.buffa_wire.specs.BudgetLeft.{PaysAtMost, defaults};
ghost use Rattle.buffa_wire.specs.RecordsOfValues.{field_data_of};
ghost use Rattle.buffa_codec.specs.Strict.{Faultless, IsFaultOrFull};
ghost use Rattle.buffa_codec.specs.RecordsOfNumber.{sub};
ghost use Rattle.buffa_ext.specs.Messages.{IsAllMerged, IsAnswer, PartlyMergedRecord, cost_all, encodings_in, message_of};
ghost use Rattle.buffa_ext.specs.Strict.{AreMessages, FirstRecordFault, ReachesStrictly, MessageRecordFault, kind_fault};
ghost use Rattle.buffa_ext.specs.StrictFacts.{no_fault, no_first_fault, one_left};

use crate::message::MessageIn;
use crate::message_record::MessageRecord;
use buffa_codec::{StrictCodec, StrictElementCodec};
use buffa_wire::{
    Budget, DEFAULT_UNKNOWN_FIELD_LIMIT, DecodeContext, DecodeError, Message, RECURSION_LIMIT,
    UnknownFieldData, UnknownFields,
};
use std::alloc::Global;

// Merges the encoding in a record, 100 levels deep. A record of another kind is an error.
fn merge_one<K: MessageRecord, M: Message>(
    alloc: Global,
    number: u32,
    payload: &UnknownFieldData,
    budget: &mut Budget,
    message: &mut M,
) -> Result<(), DecodeError>
    ensures merged { OnOk result (IsAllMerged (M.merged 100) (M.cost 100)
        (encodings_in K.held (field_data_of payload.now ∷ [])) (M.meaning message.old) budget.old (Ok true)
        (M.meaning message.new) budget.new) }
    ensures kind { OnOk result (kind_fault K.held K.WIRE_TYPE number (field_data_of payload.now) ≡ None) }
    ensures most { PaysAtMost budget.old (cost_all (M.cost 100) (encodings_in K.held (field_data_of payload.now ∷ []))) budget.new }
    ensures fault { IfErr result (IsFaultOrFull (MessageRecordFault (M.merged 100) (M.cost 100) K.held K.WIRE_TYPE number
        (field_data_of payload.now) (M.meaning message.old) budget.old) (K.asks 100 (field_data_of payload.now))) }
    ensures partly { IfErr result (λ e. kind_fault K.held K.WIRE_TYPE number (field_data_of payload.now) ≡ None →
        PartlyMergedRecord M.merged M.cost M.Refused K.held 100 (field_data_of payload.now) (M.meaning message.old) budget.old e
        (M.meaning message.new)) }
{
    let lent = DecodeContext {
        depth: RECURSION_LIMIT,
        budget: &mut *budget,
    };
    if K::merge_in(alloc, payload, message, lent)? {
        return Ok(());
    }
    Err(DecodeError::WireTypeMismatch {
        field_number: number,
        expected: K::WIRE_TYPE,
        actual: payload.wire_type(),
    })
}

// Merges the encodings in all records of the number, 100 levels deep, and tells whether there is one. A record of
// another kind is an error.
fn merge_each<K: MessageRecord, M: Message>(
    alloc: Global,
    number: u32,
    fields: &UnknownFields,
    budget: &mut Budget,
    message: &mut M,
) -> Result<bool, DecodeError>
    ensures merged { IfOk result (λ some. IsAllMerged (M.merged 100) (M.cost 100)
        (encodings_in K.held (sub number fields.now.records)) (M.meaning message.old) budget.old (Ok some)
        (M.meaning message.new) budget.new) }
    ensures kinds { OnOk result (Faultless (kind_fault K.held K.WIRE_TYPE number) (sub number fields.now.records)) }
    ensures fault { IfErr result (λ e. ReachesStrictly (M.merged 100) (M.cost 100) K.held K.WIRE_TYPE number
        (λ d mid left. IsFaultOrFull (MessageRecordFault (M.merged 100) (M.cost 100) K.held K.WIRE_TYPE number d mid left)
        (K.asks 100 d) e) (M.meaning message.old) budget.old (sub number fields.now.records)) }
    ensures partly { IfErr result (λ e. ReachesStrictly (M.merged 100) (M.cost 100) K.held K.WIRE_TYPE number
        (λ d mid left. kind_fault K.held K.WIRE_TYPE number d ≡ None → PartlyMergedRecord M.merged M.cost M.Refused K.held 100 d
        mid left e (M.meaning message.new)) (M.meaning message.old) budget.old (sub number fields.now.records)) }
{
    let mut found = false;
    for field in fields.iter().as_slice() {
        if field.number == number {
            merge_one::<K, M>(alloc, number, &field.payload, &mut *budget, &mut *message)?;
            found = true;
        }
    }
    Ok(found)
}

// The message, where an encoding was there.
fn taken_if<M: Message>(there: bool, message: M) -> Option<M>
    ensures { IsAnswer (Ok there) (M.meaning message) (option_map M.meaning result) }
{
    if there { Some(message) } else { None }
}

impl<K: MessageRecord, M: Message> StrictCodec for MessageIn<K, M> {
    ghost IsFaultless = { λ n. AreMessages (M.merged 100) (M.cost 100) K.held K.WIRE_TYPE n M.blank_is defaults };

    ghost HasFault = { λ n. FirstRecordFault (M.merged 100) (M.cost 100) K.held K.WIRE_TYPE n M.blank_is defaults };

    fn decode_strictly(
        alloc: Global,
        number: u32,
        fields: &UnknownFields,
    ) -> Result<Option<M>, DecodeError> {
        let mut budget = Budget::new(DEFAULT_UNKNOWN_FIELD_LIMIT);
        let mut message = M::blank(alloc);
        let there = merge_each::<K, M>(alloc, number, fields, &mut budget, &mut message)?;
        Ok(taken_if(there, message))
    }

    ghost not_both = { λ n ds e h k.
        no_first_fault (M.merged 100) (M.cost 100) K.held K.WIRE_TYPE n M.blank_is defaults ds e h k };
}

impl<K: MessageRecord, M: Message> StrictElementCodec for MessageIn<K, M> {
    ghost IsElement = { λ n b d. (v : M.Meaning)
        × (message_of (M.merged 100) (M.cost 100) M.blank_is b (encodings_in K.held (d ∷ [])) ≡ Some v) };

    ghost ElementFault = { λ n b d. MessageRecordFault (M.merged 100) (M.cost 100) K.held K.WIRE_TYPE n d M.blank_is b };

    fn check_element(
        alloc: Global,
        number: u32,
        payload: &UnknownFieldData,
        budget: &mut Budget,
    ) -> Result<(), DecodeError> {
        let mut message = M::blank(alloc);
        merge_one::<K, M>(alloc, number, payload, &mut *budget, &mut message)?;
        Ok(())
    }

    ghost no_element_fault = { λ n b d e h k.
        no_fault (M.merged 100) (M.cost 100) K.held K.WIRE_TYPE n M.blank_is h.0 b d e h.1 k };

    ghost element_leaves = { λ n b x y d h k l.
        one_left (M.merged 100) (M.cost 100) K.held K.WIRE_TYPE n M.blank_is h.0 b x y d h.1 k l };

    ghost value_is_element = { λ n b d v h. (v, h) };
}
