//! Where bytes are refused, into a caller's room.

ghost use Rattle.std.specs.Prelude.{◌≡◌};
ghost use Rattle.buffa_c.specs.Places.{LaysPath, TellsPlace, told_step};

use crate::answer::{ACCEPTED, OUT_OF_MEMORY, TOO_LONG, fault_number};
use crate::limits::Limits;
use buffa_fields::Message;
use buffa_locate::{Locate, Step, locate};
use std::alloc::Global;

/// A field on the way to the record that is refused, as other languages have it.
///
/// ```ignore
/// PathStep { number, listed: 0, index: 0 }
/// ```
#[repr(C)]
#[derive(Clone, Copy)]
pub struct PathStep {
    /// The number of the field.
    pub number: u32,
    /// 1 where the field is one of many, and has an index; else 0.
    pub listed: u32,
    /// How many fields of this number are in front of it; 0 where it isn't one of many.
    pub index: usize,
}

// A step as other languages have it.
fn told(step: Step) -> PathStep
    ensures { result ≡ told_step step }
{
    let number = step.number;
    match step.index {
        Some(index) => PathStep {
            number,
            listed: 1,
            index,
        },
        None => PathStep {
            number,
            listed: 0,
            index: 0,
        },
    }
}

// Puts the steps at the front of the room, as many as it holds.
fn lay(path: &[Step], room: &mut [PathStep])
    ensures { LaysPath path.now room.old room.new }
{
    'steps: for (at, step) in path.iter().enumerate() {
        if at < room.len() {
            room[at] = told(*step);
        }
    }
}

/// Where the bytes are refused under the limits: the fields to the first refused record, from the outside in, at the front of
/// the path, as many as it holds; how many they are; and the record's offset. The answer is the number of the fault.
///
/// It is [`ACCEPTED`] exactly where [`crate::check`] accepts the bytes, if memory doesn't run out. Then, and with [`TOO_LONG`]
/// and [`OUT_OF_MEMORY`], the path is as it was, and the steps and the offset are 0.
///
/// ```ignore
/// place_of::<Payment>(alloc, bytes, limits, path, steps, offset)
/// ```
pub fn place_of<M: Locate + Message + Drop>(
    alloc: Global,
    bytes: &[u8],
    limits: Limits,
    path: &mut [PathStep],
    steps: &mut usize,
    offset: &mut usize,
) -> u32
    ensures { TellsPlace M.merged M.cost M.Refused M.blank_is limits bytes.now result path.old path.new steps.new offset.new }
{
    *steps = 0;
    *offset = 0;
    if bytes.len() > limits.longest {
        return TOO_LONG;
    }
    match locate::<M>(alloc, bytes, limits.depth, limits.budget()) {
        Ok(Some(found)) => {
            lay(found.path.as_slice(), path);
            *steps = found.path.len();
            *offset = found.offset;
            fault_number(found.fault)
        }
        Ok(None) => ACCEPTED,
        Err(_) => OUT_OF_MEMORY,
    }
}
