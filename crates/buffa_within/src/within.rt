//! Strict readings of messages at the depth of a context, of what its budget has.

ghost use Rattle.std.specs.Prelude.{◌≡◌, ◌∷◌, [], None, Ok, Some, IfErr, IfOk, OnErr, OnOk, option_map, true};
ghost use Rattle.buffa_wire.specs.BudgetLeft.{PaysAtMost, budget_left};
ghost use Rattle.buffa_wire.specs.RecordsOfValues.{field_data_of};
ghost use Rattle.buffa_codec.specs.Strict.{Faultless, IsFaultOrFull};
ghost use Rattle.buffa_codec.specs.RecordsOfNumber.{sub};
ghost use Rattle.buffa_ext.specs.Messages.{IsAllMerged, IsAnswer, cost_all, encodings_in};
ghost use Rattle.buffa_ext.specs.Strict.{AreMessages, MessageRecordFault, kind_fault};
ghost use Rattle.buffa_within.specs.Within.{ReadsWithin, StopsWithin};

use buffa_ext::{Extension, ExtensionSet, MessageIn, MessageRecord};
use buffa_wire::{Budget, DecodeContext, DecodeError, Message, UnknownFieldData, UnknownFields};
use std::alloc::Global;

// Merges the encoding in a record. A record of another kind is an error.
fn merge_one<K: MessageRecord, M: Message>(
    alloc: Global,
    number: u32,
    payload: &UnknownFieldData,
    depth: u32,
    budget: &mut Budget,
    message: &mut M,
) -> Result<(), DecodeError>
    ensures merged { OnOk result (IsAllMerged (M.merged depth) (M.cost depth)
        (encodings_in K.held (field_data_of payload.now ∷ [])) (M.meaning message.old) budget.old (Ok true)
        (M.meaning message.new) budget.new) }
    ensures kind { OnOk result (kind_fault K.held K.WIRE_TYPE number (field_data_of payload.now) ≡ None) }
    ensures most { PaysAtMost budget.old (cost_all (M.cost depth) (encodings_in K.held (field_data_of payload.now ∷ []))) budget.new }
    ensures fault { IfErr result (IsFaultOrFull (MessageRecordFault (M.merged depth) (M.cost depth) K.held K.WIRE_TYPE number
        (field_data_of payload.now) (M.meaning message.old) budget.old) (K.asks depth (field_data_of payload.now))) }
{
    let lent = DecodeContext {
        depth,
        budget: &mut *budget,
    };
    if K::merge_in(alloc, payload, message, lent)? {
        return Ok(());
    }
    Err(DecodeError::WireTypeMismatch {
        field_number: number,
        expected: K::WIRE_TYPE,
        actual: payload.wire_type(),
    })
}

// Merges the encodings in all records of the number, and tells whether there is one. A record of another kind is an error.
fn merge_each<K: MessageRecord, M: Message>(
    alloc: Global,
    number: u32,
    fields: &UnknownFields,
    depth: u32,
    budget: &mut Budget,
    message: &mut M,
) -> Result<bool, DecodeError>
    ensures merged { IfOk result (λ some. IsAllMerged (M.merged depth) (M.cost depth)
        (encodings_in K.held (sub number fields.now.records)) (M.meaning message.old) budget.old (Ok some)
        (M.meaning message.new) budget.new) }
    ensures kinds { OnOk result (Faultless (kind_fault K.held K.WIRE_TYPE number) (sub number fields.now.records)) }
    ensures fault { IfErr result (StopsWithin (M.merged depth) (M.cost depth) K.held K.WIRE_TYPE number (K.asks depth)
        (M.meaning message.old) (sub number fields.now.records) budget.old) }
    ensures most { OnErr result (PaysAtMost budget.old (cost_all (M.cost depth) (encodings_in K.held (sub number fields.now.records)))
        budget.new) }
{
    let mut found = false;
    for field in fields.iter().as_slice() {
        if field.number == number {
            merge_one::<K, M>(
                alloc,
                number,
                &field.payload,
                depth,
                &mut *budget,
                &mut *message,
            )?;
            found = true;
        }
    }
    Ok(found)
}

// The message, where an encoding was there.
fn taken_if<M: Message>(there: bool, message: M) -> Option<M>
    ensures { IsAnswer (Ok there) (M.meaning message) (option_map M.meaning result) }
{
    if there { Some(message) } else { None }
}

// The message of all records of the number.
fn read_number<K: MessageRecord, M: Message>(
    alloc: Global,
    number: u32,
    fields: &UnknownFields,
    depth: u32,
    budget: &mut Budget,
) -> Result<Option<M>, DecodeError>
    ensures value { IfOk result (λ o. ReadsWithin (M.merged depth) (M.cost depth) K.held M.blank_is
        (sub number fields.now.records) budget.old (option_map M.meaning o) budget.new) }
    ensures whole { OnOk result (AreMessages (M.merged depth) (M.cost depth) K.held K.WIRE_TYPE number
        M.blank_is budget.old (sub number fields.now.records)) }
    ensures fault { IfErr result (StopsWithin (M.merged depth) (M.cost depth) K.held K.WIRE_TYPE number
        (K.asks depth) M.blank_is (sub number fields.now.records) budget.old) }
    ensures most { OnErr result (PaysAtMost budget.old (cost_all (M.cost depth)
        (encodings_in K.held (sub number fields.now.records))) budget.new) }
{
    let mut message = M::blank(alloc);
    let there = merge_each::<K, M>(alloc, number, fields, depth, &mut *budget, &mut message)?;
    Ok(taken_if(there, message))
}

/// Reads the extensions of a message under the limits of its caller.
///
/// It comes with each [`ExtensionSet`].
///
/// ```ignore
/// let swatch = options.read_extension_within(alloc, &ext, DecodeContext::new(20, &mut *budget))?;
/// ```
pub trait ReadWithin: ExtensionSet {
    /// Reads an extension that holds a message, or a group, strictly, as [`ExtensionSet::read_extension`] does: at most as many levels
    /// deep as the context has, of what its budget has. It spends exactly what the encodings cost. `ext` has to extend this message.
    ///
    /// # Errors
    /// The fault of the first record of the number that can't be read: another wire type, a malformed payload, or a limit of the
    /// context. Or out of memory, only where reading may ask for memory. Of what all records cost at most all is spent then.
    ///
    /// ```ignore
    /// let swatch = options.read_extension_within(alloc, &ext, DecodeContext::new(20, &mut *budget))?;
    /// ```
    final fn read_extension_within<K: MessageRecord, M: Message, D>(
        &self,
        alloc: Global,
        ext: &Extension<MessageIn<K, M>, D>,
        ctx: DecodeContext<'_>,
    ) -> Result<Option<M>, DecodeError>
        requires { ext.now.extendee.now ≡ Self.fqn }
        ensures value { IfOk result (λ o. ReadsWithin (M.merged ctx.entry.depth) (M.cost ctx.entry.depth) K.held M.blank_is
            (sub ext.now.number (Self.fields_of self.now).records) ctx.entry.budget.now (option_map M.meaning o) (budget_left ctx.exit)) }
        ensures whole { OnOk result (AreMessages (M.merged ctx.entry.depth) (M.cost ctx.entry.depth) K.held K.WIRE_TYPE ext.now.number
            M.blank_is ctx.entry.budget.now (sub ext.now.number (Self.fields_of self.now).records)) }
        ensures fault { IfErr result (StopsWithin (M.merged ctx.entry.depth) (M.cost ctx.entry.depth) K.held K.WIRE_TYPE ext.now.number
            (K.asks ctx.entry.depth) M.blank_is (sub ext.now.number (Self.fields_of self.now).records) ctx.entry.budget.now) }
        ensures most { OnErr result (PaysAtMost ctx.entry.budget.now (cost_all (M.cost ctx.entry.depth)
            (encodings_in K.held (sub ext.now.number (Self.fields_of self.now).records))) (budget_left ctx.exit)) }
    {
        let DecodeContext { depth, budget } = ctx;
        read_number::<K, M>(
            alloc,
            ext.number(),
            self.unknown_fields(),
            depth,
            &mut *budget,
        )
    }
}

impl<S: ExtensionSet> ReadWithin for S {}
