//! Does the calls of rows on messages, and on map fields of messages, and compares what comes of them with a row's words.
#![tactic(auto)]

mod inside;
pub mod merges;
mod messages;
mod parts;
mod passes;
mod slots;
mod stands;

pub use crate::inside::delimited;
pub use crate::messages::message;
pub use crate::parts::{Parted, Parts, parted_word};
pub use crate::stands::{merge, parted};
