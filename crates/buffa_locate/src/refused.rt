//! The first record of a message that is refused.

ghost use Rattle.std.specs.Prelude.{◌≡◌, ◌≢◌, IfOk, MatchOption, OnErr, length};
ghost use Rattle.buffa_bytes.specs.declared.error.DecodeError.TheVariants.{OutOfMemory};
ghost use Rattle.buffa_wire.specs.Message.{BeginsField};
ghost use Rattle.buffa_locate.specs.Places.{AreAllMerged, IsFirstRefused};

use buffa_wire::{Budget, Buf, DecodeContext, DecodeError, Message, Tag};
use std::alloc::{AllocError, Global};

/// The first record that is refused of some bytes, those of a message.
///
/// ```ignore
/// let found = first_refused::<M>(alloc, bytes, self.depth, budget)?;
/// ```
#[derive(Clone, Copy, Debug, PartialEq, Eq)]
pub struct Refused {
    /// Where it begins: in front of its tag.
    pub at: usize,
    /// Its tag, where one begins it.
    pub tag: Option<Tag>,
    /// Where its payload begins: behind its tag, and where it has none, where it begins itself.
    pub behind: usize,
    /// Why it is refused.
    pub fault: DecodeError,
    /// The unknown fields that are left in front of it.
    pub unknown: usize,
    /// The units of element memory that are left in front of it.
    pub memory: usize,
}

// The fault that says something of the bytes.
fn told(fault: DecodeError) -> Result<DecodeError, AllocError>
    ensures same { IfOk result (λ e. (e ≡ fault) × (e ≢ OutOfMemory)) }
    ensures full { OnErr result (fault ≡ OutOfMemory) }
{
    match fault {
        DecodeError::OutOfMemory => Err(AllocError),
        other => Ok(other),
    }
}

/// The first record that is refused where the bytes are merged into a blank message, or none where they are all merged.
///
/// # Errors
/// Where memory runs out, which it does only if a field begins the bytes.
///
/// ```ignore
/// let found = first_refused::<M>(alloc, bytes, self.depth, budget)?;
/// ```
pub fn first_refused<M: Message + Drop>(
    alloc: Global,
    bytes: &[u8],
    depth: u32,
    budget: Budget,
) -> Result<Option<Refused>, AllocError>
    ensures told { IfOk result (λ found. MatchOption found
        (AreAllMerged (M.merged depth M.blank_is bytes.now) (M.cost depth bytes.now) budget)
        (IsFirstRefused M.merged M.cost M.Refused depth M.blank_is bytes.now budget)) }
    ensures full { OnErr result (BeginsField bytes.now) }
{
    let mut message = M::blank(alloc);
    let mut left = budget;
    let mut rest = bytes;
    'fields: while rest.remaining() > 0 {
        let mut found = Refused {
            at: bytes.len() - rest.len(),
            tag: None,
            behind: bytes.len() - rest.len(),
            fault: DecodeError::UnexpectedEof,
            unknown: left.unknown_left(),
            memory: left.memory_left(),
        };
        let tag = match Tag::decode(&mut rest) {
            Ok(tag) => tag,
            Err(fault) => {
                found.fault = fault;
                return Ok(Some(found));
            }
        };
        found.tag = Some(tag);
        found.behind = bytes.len() - rest.len();
        let lent = DecodeContext {
            depth,
            budget: &mut left,
        };
        match message.merge_field(alloc, tag, &mut rest, lent) {
            Ok(()) => {}
            Err(fault) => {
                found.fault = told(fault)?;
                return Ok(Some(found));
            }
        }
    }
    Ok(None)
}
