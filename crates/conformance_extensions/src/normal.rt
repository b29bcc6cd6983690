// Messages that are set and read in one call, where a test says at run time that they are read back.

ghost use Rattle.std.specs.Prelude.{◌≡◌, map, IfOk, IsTrue, OnOk};
ghost use Rattle.std.specs.List.{AllByRecursion};
ghost use Rattle.buffa_wire.specs.BudgetLeft.{Pays, defaults};
ghost use Rattle.buffa_wire.specs.RecordsOfValues.{field_data_of};
ghost use Rattle.buffa_codec.specs.Decoded.{CoversAll};
ghost use Rattle.conformance_extensions.specs.Normal.{IsNormal};

use crate::back::set_then;
use crate::told::Told;
use buffa_ext::{MessageIn, MessageRecord, Repeated, SingularCodec};
use buffa_wire::{
    Budget, DEFAULT_UNKNOWN_FIELD_LIMIT, DecodeContext, EncodeError, Message, RECURSION_LIMIT,
    UnknownFieldData,
};
use conformance_rows::case::Case;
use conformance_rows::fault::Fault;
use conformance_rows::mark::Mark;
use conformance_rows::outcome::Outcome;
use conformance_rows::words::Worded;
use std::alloc::Global;

/// A message that tells whether it is read back. `Back` is a type of the crate that says how, so that a crate can say
/// it of types that are not its own.
pub trait Normal<Back>: Message {
    /// Whether the message is read back of its encoding, where its cost is left.
    fn is_normal(&self) -> bool
        ensures { IsTrue result → IsNormal (Self.normal (Self.meaning self.now)) (Self.levels (Self.meaning self.now))
            (Self.records (Self.meaning self.now)) };
}

// The record of a value; a row whose value has none isn't in form.
fn payload_of<C: SingularCodec>(alloc: Global, value: &C::Value) -> Result<UnknownFieldData, Fault>
    ensures { IfOk result (λ d. field_data_of d ≡ C.field_data (C.Value.meaning value.now)) }
{
    match C::encode_one(alloc, value) {
        Ok(payload) => Ok(payload),
        Err(EncodeError::OutOfMemory) => Err(Fault::Memory),
        Err(_) => Err(Fault::Form),
    }
}

// Spends what reading a value's record costs; a row whose value isn't read isn't in form.
fn pay<C: SingularCodec>(alloc: Global, budget: &mut Budget, value: &C::Value) -> Result<(), Fault>
    ensures { OnOk result (Pays budget.old (C.cost (C.field_data (C.Value.meaning value.now))) budget.new) }
{
    let payload = payload_of::<C>(alloc, value)?;
    let ctx = DecodeContext {
        depth: RECURSION_LIMIT,
        budget: &mut *budget,
    };
    let found = C::decode_one_ctx(alloc, &payload, ctx)?;
    match found {
        Some(_) => Ok(()),
        None => Err(Fault::Form),
    }
}

// Spends what reading the records of a list costs, one after the other, of one default budget.
fn pay_all<C: SingularCodec>(alloc: Global, values: &[C::Value]) -> Result<(), Fault>
    ensures { OnOk result (CoversAll C.cost defaults (map C.field_data (map C.Value.meaning values.now))) }
{
    let mut budget = Budget::new(DEFAULT_UNKNOWN_FIELD_LIMIT);
    for value in values {
        pay::<C>(alloc, &mut budget, value)?;
    }
    Ok(())
}

// Whether each message of a list is read back of its encoding, where its cost is left.
fn are_normal<Back, M: Normal<Back>>(messages: &[M]) -> bool
    ensures { IsTrue result → AllByRecursion (λ v. IsNormal (M.normal v) (M.levels v) (M.records v)) (map M.meaning messages.now) }
{
    for message in messages {
        if !message.is_normal() {
            return false;
        }
    }
    true
}

// One message.
fn one<By, Back, M: Worded<By> + Normal<Back>, K: MessageRecord>(
    alloc: Global,
    case: &Case<'_>,
    mark: &mut Mark,
) -> Result<Outcome, Fault> {
    let message = M::of_word(alloc, case.input())?;
    if !message.is_normal() {
        return Err(Fault::Form);
    }
    let mut budget = Budget::new(DEFAULT_UNKNOWN_FIELD_LIMIT);
    pay::<MessageIn<K, M>>(alloc, &mut budget, &message)?;
    set_then::<By, Option<M>, MessageIn<K, M>>(alloc, case, mark, message)
}

// A list of messages.
fn list<By, Back, M: Worded<By> + Normal<Back>, K: MessageRecord>(
    alloc: Global,
    case: &Case<'_>,
    mark: &mut Mark,
) -> Result<Outcome, Fault> {
    let messages = <Vec<M> as Told<By>>::value_of(alloc, case.input())?;
    if !are_normal::<Back, M>(messages.as_slice()) {
        return Err(Fault::Form);
    }
    pay_all::<MessageIn<K, M>>(alloc, messages.as_slice())?;
    set_then::<By, Vec<M>, Repeated<MessageIn<K, M>>>(alloc, case, mark, messages)
}

/// A message, or a list of them, that is set and read in one call; a row isn't in form whose messages aren't read back.
pub fn set_messages<By, Back, M: Worded<By> + Normal<Back>, K: MessageRecord>(
    alloc: Global,
    case: &Case<'_>,
    mark: &mut Mark,
) -> Result<Outcome, Fault> {
    if case.says("how", "all") {
        list::<By, Back, M, K>(alloc, case, mark)
    } else {
        one::<By, Back, M, K>(alloc, case, mark)
    }
}
