//! Bytes into a caller's room.

ghost use Rattle.std.specs.Prelude.{◌≡◌, ◌≢◌, Some};
ghost use Rattle.buffa_c.specs.Encodings.{Puts};
ghost use Rattle.buffa_c.specs.Members.{CopiesBytes, CopiesBytesIf};

use crate::answer::{ACCEPTED, NO_ROOM};

/// Copies bytes to the front of the room, and says how many.
///
/// It answers [`ACCEPTED`] exactly where the room is as long as they are, or longer; else [`NO_ROOM`], and nothing is copied.
///
/// ```ignore
/// Ok(message) => put(message.note.as_bytes(), out, written),
/// ```
pub fn put(bytes: &[u8], room: &mut [u8], written: &mut usize) -> u32
    ensures puts { Puts bytes.now result room.old room.new written.new }
    // The same of a member that has these bytes.
    ensures copies { CopiesBytes (Some bytes.now) result room.old room.new written.new }
{
    *written = 0;
    if bytes.len() > room.len() {
        return NO_ROOM;
    }
    room[..bytes.len()].copy_from_slice(bytes);
    *written = bytes.len();
    ACCEPTED
}

/// Copies the bytes of a member that may be absent, and says that it is there.
///
/// It answers as [`put`] does.
///
/// ```ignore
/// put(bytes, room, written)
/// ```
pub fn put_some(bytes: &[u8], there: &mut bool, room: &mut [u8], written: &mut usize) -> u32
    ensures copies { CopiesBytesIf (Some (Some bytes.now)) result there.new room.old room.new written.new }
    ensures full { result ≢ ACCEPTED → result ≡ NO_ROOM }
{
    *there = true;
    put(bytes, room, written)
}
