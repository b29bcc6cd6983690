//! MessageSets as messages: what the plugin's impls of a `.proto`'s message with `message_set_wire_format` call.
//!
//! Such a message keeps the message of each Item as bytes under its type id among its unknown fields, where an extension of that
//! number finds it, and every other field as it is. The calls of [`set`] size, write and merge these fields. What contracts cite is
//! in `specs/`, under the name `Terms`.
//!
//! ```ignore
//! use buffa_sets::set;
//! ```
#![tactic(auto)]

mod record;
pub mod set;
