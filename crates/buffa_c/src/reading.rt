//! Whether bytes are accepted, and the message that they mean.

ghost use Rattle.std.specs.Prelude.{◌≡◌, IfErr, IfOk, OnOk, Some};
ghost use Rattle.buffa_c.specs.Answers.{AreAccepted, AreRefused, Checks, ChecksWhole, NumbersFault};

use crate::answer::{ACCEPTED, MISSING_REQUIRED, TOO_LONG, fault_number};
use crate::limits::Limits;
use buffa_fields::{Decode, Message, Required};
use std::alloc::Global;

/// The message that the bytes mean, under the limits.
///
/// # Errors
/// [`TOO_LONG`] exactly where they are longer than the limits say; else the number of the error of
/// `Decode::decode_within`.
///
/// ```ignore
/// let payment = match read::<Payment>(alloc, bytes, USUAL) { .. }
/// ```
// Where a call has it inlined, the message isn't moved.
#[inline(always)]
pub fn read<M: Message + Drop>(alloc: Global, bytes: &[u8], limits: Limits) -> Result<M, u32>
    ensures message { IfOk result (λ m. M.merged limits.depth M.blank_is bytes.now ≡ Some (M.meaning m)) }
    ensures accepted { OnOk result (AreAccepted (M.merged limits.depth M.blank_is bytes.now) (M.cost limits.depth bytes.now)
        limits bytes.now) }
    ensures refused { IfErr result (λ answer. AreRefused (M.merged limits.depth M.blank_is bytes.now)
        (M.cost limits.depth bytes.now) limits bytes.now answer) }
    ensures which { IfErr result (λ answer. NumbersFault M.merged M.cost M.Refused M.blank_is limits bytes.now answer) }
{
    if bytes.len() > limits.longest {
        return Err(TOO_LONG);
    }
    match M::decode_within(alloc, bytes, limits.depth, limits.budget()) {
        Ok(message) => Ok(message),
        Err(fault) => Err(fault_number(fault)),
    }
}

/// Whether the bytes are accepted under the limits: [`ACCEPTED`], or the number of why they aren't.
///
/// It is [`ACCEPTED`] exactly where they are no longer than the limits say, mean a message, and cost no more than the limits
/// say, if memory doesn't run out.
///
/// ```ignore
/// check::<Payment>(alloc, bytes, USUAL)
/// ```
pub fn check<M: Message + Drop>(alloc: Global, bytes: &[u8], limits: Limits) -> u32
    ensures answer { Checks (M.merged limits.depth M.blank_is bytes.now) (M.cost limits.depth bytes.now) limits bytes.now
        result }
    ensures which { NumbersFault M.merged M.cost M.Refused M.blank_is limits bytes.now result }
{
    match read::<M>(alloc, bytes, limits) {
        Ok(_) => ACCEPTED,
        Err(answer) => answer,
    }
}

/// Whether the bytes are accepted under the limits, and have all that is required: [`ACCEPTED`], or the number of why not.
///
/// It is [`MISSING_REQUIRED`] where [`check`] accepts the bytes, and `is_initialized` says that something is missing.
///
/// ```ignore
/// match read::<M>(alloc, bytes, limits) { .. } // is_initialized of what is read
/// ```
pub fn check_whole<M: Message + Required + Drop>(alloc: Global, bytes: &[u8], limits: Limits) -> u32
    ensures answer { ChecksWhole (M.merged limits.depth M.blank_is bytes.now) (M.cost limits.depth bytes.now) M.meaning
        M.initialized limits bytes.now result }
    ensures which { NumbersFault M.merged M.cost M.Refused M.blank_is limits bytes.now result }
{
    match read::<M>(alloc, bytes, limits) {
        Ok(message) => {
            if message.is_initialized() {
                ACCEPTED
            } else {
                MISSING_REQUIRED
            }
        }
        Err(answer) => answer,
    }
}
