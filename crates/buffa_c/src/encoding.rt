//! The encoding of the message that bytes mean.

ghost use Rattle.std.specs.Prelude.{◌≡◌, ◌≢◌, ◌<◌, ◌≤◌, ◌^◌, length, IfErr, IfOk, OnOk};
ghost use Rattle.buffa_c.specs.Encodings.{ChecksCanonical, Measures, Rewrites, RewritesDeclared};

use crate::answer::{ACCEPTED, NO_ROOM, NOT_CANONICAL, OUT_OF_MEMORY, TOO_LARGE};
use crate::copying::put;
use crate::limits::Limits;
use crate::reading::read;
use buffa_discard::DiscardUnknown;
use buffa_fields::{MAX_MESSAGE_BYTES, Message, SizeCache};
use std::alloc::Global;

// The encoding of a message, where it has at most so many bytes; else the number of why not. Its memory is asked for at once.
fn encoded<M: Message>(alloc: Global, message: &M, most: usize) -> Result<Vec<u8>, u32>
    ensures encoding { IfOk result (λ v. v.items ≡ M.encoding (M.meaning message.now)) }
    ensures small { OnOk result (length (M.encoding (M.meaning message.now)) < 2 ^ 31) }
    ensures fits { OnOk result (length (M.encoding (M.meaning message.now)) ≤ most) }
    ensures large { IfErr result (λ n. n ≡ TOO_LARGE → 2 ^ 31 ≤ length (M.encoding (M.meaning message.now))) }
    ensures long { IfErr result (λ n. n ≡ NO_ROOM → (length (M.encoding (M.meaning message.now)) < 2 ^ 31)
        × (most < length (M.encoding (M.meaning message.now)))) }
    ensures other { IfErr result (λ n. n ≢ TOO_LARGE → n ≢ NO_ROOM → n ≡ OUT_OF_MEMORY) }
{
    let mut cache = SizeCache::new(alloc);
    let Ok(size) = message.compute_size(&mut cache) else {
        return Err(OUT_OF_MEMORY);
    };
    if size > MAX_MESSAGE_BYTES {
        return Err(TOO_LARGE);
    }
    if size as usize > most {
        return Err(NO_ROOM);
    }
    let Ok(mut encoding) = Vec::with_capacity(alloc, size as usize) else {
        return Err(OUT_OF_MEMORY);
    };
    match message.write_to(&mut cache, &mut encoding) {
        Ok(()) => Ok(encoding),
        Err(_) => Err(OUT_OF_MEMORY),
    }
}

/// Writes the encoding of the message that the bytes mean to the front of the room, and says how many bytes it has. It is the
/// canonical spelling of the message.
///
/// It answers [`ACCEPTED`]; or as [`crate::check`] does where the bytes are refused; [`crate::NO_ROOM`] where the room is too
/// small; [`TOO_LARGE`] where the encoding would have 2^31 bytes or more; or [`OUT_OF_MEMORY`]. Where it isn't [`ACCEPTED`],
/// the room is as it was, and 0 bytes were written.
///
/// ```ignore
/// canonical::<Payment>(alloc, bytes, USUAL, out, written)
/// ```
pub fn canonical<M: Message + Drop>(
    alloc: Global,
    bytes: &[u8],
    limits: Limits,
    room: &mut [u8],
    written: &mut usize,
) -> u32
    ensures { Rewrites (M.merged limits.depth M.blank_is bytes.now) (M.cost limits.depth bytes.now) M.encoding limits bytes.now
        result room.old room.new written.new }
{
    *written = 0;
    let message = match read::<M>(alloc, bytes, limits) {
        Ok(message) => message,
        Err(answer) => return answer,
    };
    match encoded(alloc, &message, room.len()) {
        Ok(encoding) => put(&encoding, room, written),
        Err(answer) => answer,
    }
}

/// Writes the encoding of what is left of the message that the bytes mean, when the fields are taken out that aren't declared:
/// those of each message in it, too.
///
/// It answers as [`canonical`] does, of that encoding.
///
/// ```ignore
/// canonical_declared::<Payment>(alloc, bytes, USUAL, out, written)
/// ```
pub fn canonical_declared<M: Message + DiscardUnknown + Drop>(
    alloc: Global,
    bytes: &[u8],
    limits: Limits,
    room: &mut [u8],
    written: &mut usize,
) -> u32
    ensures { RewritesDeclared (M.merged limits.depth M.blank_is bytes.now) (M.cost limits.depth bytes.now) M.meaning
        M.Discarded M.encoding limits bytes.now result room.old room.new written.new }
{
    *written = 0;
    let mut message = match read::<M>(alloc, bytes, limits) {
        Ok(message) => message,
        Err(answer) => return answer,
    };
    message.discard_unknown_fields(alloc);
    match encoded(alloc, &message, room.len()) {
        Ok(encoding) => put(&encoding, room, written),
        Err(answer) => answer,
    }
}

/// How many bytes [`canonical`] writes.
///
/// It answers as [`canonical`] does where the room is large enough. Where that isn't [`ACCEPTED`], the room is 0.
///
/// ```ignore
/// room_of::<Payment>(alloc, bytes, USUAL, room)
/// ```
pub fn room_of<M: Message + Drop>(
    alloc: Global,
    bytes: &[u8],
    limits: Limits,
    room: &mut usize,
) -> u32
    ensures { Measures (M.merged limits.depth M.blank_is bytes.now) (M.cost limits.depth bytes.now) M.encoding limits bytes.now
        result room.new }
{
    *room = 0;
    let message = match read::<M>(alloc, bytes, limits) {
        Ok(message) => message,
        Err(answer) => return answer,
    };
    let mut cache = SizeCache::new(alloc);
    match message.compute_size(&mut cache) {
        Ok(size) => {
            if size > MAX_MESSAGE_BYTES {
                return TOO_LARGE;
            }
            *room = size as usize;
            ACCEPTED
        }
        Err(_) => OUT_OF_MEMORY,
    }
}

/// Whether the bytes are the encoding of the message that they mean, each of them.
///
/// It answers [`ACCEPTED`] where they are; [`NOT_CANONICAL`] where they are accepted, and aren't; as [`crate::check`] does
/// where they are refused; or [`OUT_OF_MEMORY`].
///
/// ```ignore
/// is_canonical::<Payment>(alloc, bytes, USUAL)
/// ```
pub fn is_canonical<M: Message + Drop>(alloc: Global, bytes: &[u8], limits: Limits) -> u32
    ensures { ChecksCanonical (M.merged limits.depth M.blank_is bytes.now) (M.cost limits.depth bytes.now) M.encoding limits
        bytes.now result }
{
    let message = match read::<M>(alloc, bytes, limits) {
        Ok(message) => message,
        Err(answer) => return answer,
    };
    match encoded(alloc, &message, bytes.len()) {
        Ok(encoding) => {
            if encoding.as_slice() == bytes {
                ACCEPTED
            } else {
                NOT_CANONICAL
            }
        }
        Err(OUT_OF_MEMORY) => OUT_OF_MEMORY,
        Err(_) => NOT_CANONICAL,
    }
}
