//! Messages by their fields: what a type says of itself, and how its messages are merged, sized and written.

pub mod member_block;
pub mod merge;
pub mod message;
pub mod message_fields;
pub mod required;
pub mod unknown;
