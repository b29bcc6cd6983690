//! Items of a MessageSet, read and written.
//!
//! An Item is a group of number 1 with a type id and a message, which stands for the extension of that id. A caller, behind
//! an Item's start tag:
//!
//! ```ignore
//! let (number, payload) = merge_item(alloc, &mut rest, ctx)?;
//! ```
//!
//! [`message_set`] has the calls: `merge_item` reads the rest of an Item, `write_item` writes one, and `item_encoded_len`
//! says how long it is.
#![tactic(auto)]

pub mod message_set;
