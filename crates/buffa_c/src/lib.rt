//! Calls for programs in other languages, which know a message by its bytes: whether bytes are accepted, and what is written
//! of the message that they mean. Each answers a number.
//!
//! A static library has an export for each call and each of its messages. It calls what is here, and states the contract again.
//!
//! ```ignore
//! check::<Payment>(alloc, bytes, USUAL)
//! ```
#![tactic(auto)]

pub mod answer;
pub mod copying;
pub mod encoding;
pub mod limits;
pub mod place;
pub mod reading;

pub use answer::{
    ACCEPTED, MISSING_REQUIRED, NO_ROOM, NOT_CANONICAL, OUT_OF_MEMORY, TOO_LARGE, TOO_LONG,
    fault_number,
};
pub use copying::{put, put_some};
pub use encoding::{canonical, canonical_declared, is_canonical, room_of};
pub use limits::{Limits, USUAL};
pub use place::{PathStep, place_of};
pub use reading::{check, check_whole, read};
