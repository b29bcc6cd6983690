//! A message through its encoding and back, whatever its type.

ghost use Rattle.std.specs.Prelude.{◌≡◌, ◌≤◌, IfOk};
ghost use Rattle.buffa_fields.specs.Terms.{Fits, records_of};

use anyhow::Error;
use buffa_fields::{Message, RECURSION_LIMIT};
use std::alloc::Global;

/// A copy of a message, made by its encoding. It means the same where the message is normal, its lengths are below 2^64, and it nests no more
/// than 100 levels deep.
///
/// # Errors
/// Where it is too large to be written, nests deeper, costs more than the default limits, or memory runs out.
pub fn again<M: Message + Drop>(alloc: Global, message: &M) -> Result<M, Error>
    ensures same { IfOk result (λ copy. M.normal (M.meaning message.now) → Fits (records_of (M.records (M.meaning message.now)))
        → M.levels (M.meaning message.now) ≤ RECURSION_LIMIT → M.meaning copy ≡ M.meaning message.now) }
{
    let bytes = message.try_encode_to_vec(alloc)?;
    let mut copy = M::blank(alloc);
    copy.merge_from_slice(alloc, &bytes)?;
    Ok(copy)
}
