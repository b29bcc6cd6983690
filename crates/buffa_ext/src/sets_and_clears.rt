//! Sets and clears, one after the other.

ghost use Rattle.std.specs.Prelude.{◌≡◌, ◌≢◌, ◌<◌, [], length, map, take, OnOk, OnErr, IfErr, IfOk};
ghost use Rattle.buffa_wire.specs.RecordsOfValues.{field_data_of};
ghost use Rattle.buffa_codec.specs.RecordsOfNumber.{tagged};
ghost use Rattle.buffa_ext.specs.SetsAndClears.{KeepsRoom, RefusedAt, StepTakesMemory, after, after_one, put_in, step_of};
ghost use Rattle.std.specs.Prelude.{◌≤◌, ◌+◌};

use crate::change_records::{remove, replace};
use buffa_wire::{UnknownField, UnknownFieldData, UnknownFields};
use std::alloc::{AllocError, Global};

/// A set of the records of one number, or a clear.
///
/// One after the other, such steps are taken by [`replay`].
///
/// ```ignore
/// let steps = vec![in alloc; Step::Set { number: 7, records }, Step::Clear { number: 9 }]?;
/// ```
#[derive(Debug, PartialEq, Eq, Drop)]
pub enum Step {
    /// Records that hold these take the place of the number's.
    Set {
        /// The number.
        number: u32,
        /// What its records are to hold, in order.
        records: Vec<UnknownFieldData>,
    },
    /// The number's records are taken out.
    Clear {
        /// The number.
        number: u32,
    },
}

/// Why a replay ended early: memory ran out.
///
/// ```ignore
/// Err(ReplayFault { done }) => .. // the first `done` steps are taken
/// ```
#[derive(Clone, Copy, Debug, PartialEq, Eq)]
pub struct ReplayFault {
    /// How many steps were taken; the next one changed nothing.
    pub done: usize,
}

// The records of a number that hold these.
fn staged(
    alloc: Global,
    number: u32,
    payloads: Vec<UnknownFieldData>,
) -> Result<UnknownFields, AllocError>
    ensures records { IfOk result (λ f. f.records ≡ tagged number (map field_data_of payloads.items)) }
    ensures memory { OnErr result (map field_data_of payloads.items ≢ []) }
{
    let mut fields = UnknownFields::new(alloc);
    for payload in payloads {
        fields.push(UnknownField { number, payload })?;
    }
    Ok(fields)
}

// Takes one step, or leaves everything as it was.
fn replay_one(alloc: Global, fields: &mut UnknownFields, step: Step) -> Result<(), AllocError>
    ensures ok { OnOk result (fields.new.records ≡ after_one fields.old.records (step_of step)) }
    ensures err { OnErr result (fields.new ≡ fields.old) }
    ensures room { fields.old.spare ≤ fields.new.spare + length (put_in (step_of step)) }
    ensures memory { OnErr result (StepTakesMemory (step_of step)) }
{
    match step {
        Step::Set { number, records } => {
            let list = staged(alloc, number, records)?;
            replace(fields, number, list)?;
        }
        Step::Clear { number } => remove(fields, number),
    }
    Ok(())
}

/// Takes the steps, or those before the first for which there is no memory.
///
/// # Errors
/// Where memory runs out: how many steps were taken. It runs out at no clear, and at no set to no records. No more
/// spare capacity is used than these steps put records in.
///
/// ```ignore
/// replay(alloc, &mut fields, steps)?;
/// ```
pub fn replay(
    alloc: Global,
    fields: &mut UnknownFields,
    steps: Vec<Step>,
) -> Result<(), ReplayFault>
    ensures ok { OnOk result (fields.new.records ≡ after fields.old.records (map step_of steps.items)) }
    ensures done { IfErr result (λ e. e.done < length steps.items) }
    ensures err { IfErr result (λ e. fields.new.records
        ≡ after fields.old.records (take e.done (map step_of steps.items))) }
    ensures memory { IfErr result (λ e. RefusedAt e.done (map step_of steps.items)) }
    ensures room { OnOk result (KeepsRoom (map step_of steps.items) fields.old fields.new) }
    ensures err_room { IfErr result (λ e. KeepsRoom (take e.done (map step_of steps.items)) fields.old fields.new) }
{
    let mut done = 0usize;
    for step in steps {
        match replay_one(alloc, fields, step) {
            Ok(()) => done += 1,
            Err(_) => return Err(ReplayFault { done }),
        }
    }
    Ok(())
}
