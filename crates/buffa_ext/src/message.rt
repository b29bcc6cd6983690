//! Codecs of messages: all records of the right kind, merged in order.

ghost use Rattle.std.specs.Prelude.{◌≡◌, ◌≤◌, ℕ, [], ◌∷◌, Option, Some, None, Err, option_map, IfErr, IfOk, OnErr};
ghost use Rattle.std.proofs.Common.{◌∙◌};
ghost use Rattle.buffa_bytes.specs.declared.error.DecodeError.TheVariants.{OutOfMemory};
ghost use Rattle.buffa_wire.specs.BudgetLeft.{Covers, defaults};
ghost use Rattle.buffa_wire.specs.Parse.{Fits};
ghost use Rattle.buffa_wire.specs.Records.{records_of};
ghost use Rattle.buffa_codec.specs.RecordsOfNumber.{sub};
ghost use Rattle.buffa_ext.specs.Messages.{IsAnswer, LeavesOfRecord, MergesRecords, ReachesRecord, PartlyMergedRecord, StopsPartlyMerged};
ghost use Rattle.buffa_ext.specs.Messages.{cost_all, message_of};
ghost use Rattle.buffa_ext.specs.Messages.{encoding_refusal, encodings_in};
ghost use Rattle.buffa_ext.specs.MessageFacts.{message_back, spent, spent_cost};

use crate::message_record::{Delimited, Grouped, MessageRecord};
use buffa_codec::{ExtensionCodec, SingularCodec};
use buffa_wire::{
    Budget, DEFAULT_UNKNOWN_FIELD_LIMIT, DecodeContext, DecodeError, EncodeError, Message,
    RECURSION_LIMIT, UnknownField, UnknownFieldData, UnknownFields,
};
use std::alloc::{AllocError, Global};
use std::marker::PhantomData;

/// A message, whose encoding is the bytes of a record.
///
/// ```ignore
/// let one = Extension::<MessageCodec<FlatMsg>>::new(7, "test.Carrier");
/// ```
pub type MessageCodec<M> = MessageIn<Delimited, M>;

/// A message, whose encoding is that of a group's records.
///
/// ```ignore
/// let one = Extension::<GroupCodec<BudgetMsg>>::new(1, "test.Carrier");
/// ```
pub type GroupCodec<M> = MessageIn<Grouped, M>;

/// A message in records of one kind. All of a number are merged in order, under one default budget.
///
/// ```ignore
/// pub type MessageCodec<M> = MessageIn<Delimited, M>;
/// ```
pub struct MessageIn<K, M> {
    kind: PhantomData<K>,
    of: PhantomData<M>,
}

// The message, where an encoding was there; none where none was, or one was refused; an error where memory ran out.
fn answer<M: Message>(
    merged: Result<bool, DecodeError>,
    message: M,
) -> Result<Option<M>, AllocError>
    ensures answer { IfOk result (λ o. IsAnswer merged (M.meaning message) (option_map M.meaning o)) }
    ensures memory { OnErr result (merged ≡ Err OutOfMemory) }
{
    match merged {
        Ok(true) => Ok(Some(message)),
        Ok(false) => Ok(None),
        Err(DecodeError::OutOfMemory) => Err(AllocError),
        Err(_) => Ok(None),
    }
}

impl<K: MessageRecord, M: Message> SingularCodec for MessageIn<K, M> {
    type Value = M;

    ghost one = { λ depth b d. message_of (M.merged depth) (M.cost depth) M.blank_is b (encodings_in K.held (d ∷ [])) };

    ghost leaves = { λ depth. LeavesOfRecord (M.merged depth) (M.cost depth) M.blank_is K.held };

    ghost packed = { λ bs. [] };

    ghost field_data = { λ v. K.holder (M.encoding v) };

    ghost refusal = { λ v. encoding_refusal K.refusal (M.encoding v) };

    ghost fits = { λ v. encoding_refusal K.refusal (M.encoding v) ≡ None };

    ghost normal = { λ v. M.normal v × (M.levels v ≤ 100) × Fits (records_of (M.records v)) };

    ghost back = { λ v. v };

    ghost cost = { λ d. cost_all (M.cost 100) (encodings_in K.held (d ∷ [])) };

    ghost most = { λ depth d. cost_all (M.cost depth) (encodings_in K.held (d ∷ [])) };

    ghost never_fails = { ⊥ };

    ghost made_free = { λ v. ⊥ };

    ghost asks = { λ d. (n : ℕ) × K.asks n d };

    fn decode_one(alloc: Global, payload: &UnknownFieldData) -> Result<Option<M>, AllocError> {
        let mut budget = Budget::new(DEFAULT_UNKNOWN_FIELD_LIMIT);
        let ctx = DecodeContext {
            depth: RECURSION_LIMIT,
            budget: &mut budget,
        };
        Self::decode_one_ctx(alloc, payload, ctx)
    }

    fn decode_one_ctx(
        alloc: Global,
        payload: &UnknownFieldData,
        ctx: DecodeContext<'_>,
    ) -> Result<Option<M>, AllocError> {
        let DecodeContext { depth, budget } = ctx;
        let mut message = M::blank(alloc);
        let lent = DecodeContext {
            depth,
            budget: &mut *budget,
        };
        let merged = K::merge_in(alloc, payload, &mut message, lent);
        answer(merged, message)
    }

    fn decode_packed(_bytes: &[u8], _out: &mut Vec<M>) -> Result<(), AllocError> {
        Ok(())
    }

    fn try_encode_one(alloc: Global, value: &M) -> Result<UnknownFieldData, EncodeError> {
        let encoding = value.try_encode_to_vec(alloc)?;
        K::hold(alloc, encoding)
    }

    ghost reads_field_data = { λ v b f n h.
        message_back M.merged M.cost K.held K.holder K.refusal M.blank_is M.encoding M.records M.levels M.normal
        M.MessageSpec.encoding_records M.MessageSpec.valid M.MessageSpec.merged_encoding K.MessageRecord.held_back v b f n h };

    ghost spends_cost = { λ b left d v e h. spent_cost (M.merged 100) (M.cost 100) M.blank_is v b left
        (encodings_in K.held (d ∷ [])) e h };

    ghost spends = { λ b left d h. spent (M.merged 100) (M.cost 100) M.blank_is b left (encodings_in K.held (d ∷ [])) h };
}

/// Merges the encodings in all records of the number, 100 levels deep, and returns whether there is one. It
/// spends exactly what they cost together.
///
/// # Errors
/// Those of [`Message::merge`], of the first encoding that is refused: those before it are paid for, of its
/// own cost at most all, and of those behind it nothing. The message is then what those before it made, and in it what
/// [`MessageRecord::merge_in`] leaves of that one.
///
/// ```ignore
/// let found = merge_number::<K, M>(alloc, number, &fields, &mut budget, &mut message)?;
/// ```
pub fn merge_number<K: MessageRecord, M: Message>(
    alloc: Global,
    number: u32,
    fields: &UnknownFields,
    budget: &mut Budget,
    message: &mut M,
) -> Result<bool, DecodeError>
    ensures merged { MergesRecords (M.merged 100) (M.cost 100) K.held (K.asks 100) (sub number fields.now.records)
        (M.meaning message.old) budget.old result (M.meaning message.new) budget.new }
    ensures partly { IfErr result (λ e. StopsPartlyMerged (M.merged 100) (M.cost 100) K.held (K.asks 100)
        (PartlyMergedRecord M.merged M.cost M.Refused K.held 100) (sub number fields.now.records) (M.meaning message.old)
        budget.old e (M.meaning message.new) budget.new) }
{
    let mut found = false;
    for field in fields.iter().as_slice() {
        if field.number == number {
            let lent = DecodeContext {
                depth: RECURSION_LIMIT,
                budget: &mut *budget,
            };
            found |= K::merge_in(alloc, &field.payload, message, lent)?;
        }
    }
    Ok(found)
}

impl<K: MessageRecord, M: Message> ExtensionCodec for MessageIn<K, M> {
    type Value = M;

    type Output = Option<M>;

    ghost Meaning = { M.Meaning };

    ghost Answer = { Option M.Meaning };

    ghost meaning = { M.meaning };

    ghost answer = { option_map M.meaning };

    ghost reads = { λ ds o. o ≡ message_of (M.merged 100) (M.cost 100) M.blank_is defaults (encodings_in K.held ds) };

    ghost extension_data = { λ v. K.holder (M.encoding v) ∷ [] };

    ghost refusal = { λ v. encoding_refusal K.refusal (M.encoding v) };

    ghost fits = { λ v. encoding_refusal K.refusal (M.encoding v) ≡ None };

    ghost normal = { λ v. ⟦<MessageIn<K, M> as SingularCodec>⟧.normal v
        × Covers defaults (⟦<MessageIn<K, M> as SingularCodec>⟧.cost (K.holder (M.encoding v))) };

    ghost holds = { λ v o. o ≡ Some v };

    ghost never_fails = { ⊥ };

    ghost in_room = { λ v. ⊥ };

    ghost asks = { ReachesRecord (M.merged 100) (M.cost 100) M.blank_is K.held (K.asks 100) };

    fn decode(alloc: Global, number: u32, fields: &UnknownFields) -> Result<Option<M>, AllocError> {
        let mut budget = Budget::new(DEFAULT_UNKNOWN_FIELD_LIMIT);
        let mut message = M::blank(alloc);
        let merged = merge_number::<K, M>(alloc, number, fields, &mut budget, &mut message);
        answer(merged, message)
    }

    fn try_encode(
        alloc: Global,
        number: u32,
        value: M,
        fields: &mut UnknownFields,
    ) -> Result<(), EncodeError> {
        let payload = <Self as SingularCodec>::encode_one(alloc, &value)?;
        Ok(fields.push(UnknownField { number, payload })?)
    }

    ghost reads_back = { λ v o f n h.
        h ∙ message_back M.merged M.cost K.held K.holder K.refusal M.blank_is M.encoding M.records M.levels M.normal
        M.MessageSpec.encoding_records M.MessageSpec.valid M.MessageSpec.merged_encoding K.MessageRecord.held_back v defaults f n.0 n.1 };
}
