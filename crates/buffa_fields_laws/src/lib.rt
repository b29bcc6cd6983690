//! What holds of messages from their fields: each law is a function that does nothing, and its contract is the law.
#![tactic(auto)]

pub mod blocks;
pub mod definitions;
pub mod encoding;
pub mod levels;
pub mod member_list;
pub mod members;
pub mod oneofs;
pub mod proto_types;
pub mod records;
pub mod recursive_members;
pub mod recursive_messages;
pub mod refusals;
pub mod spending;
pub mod undeclared;
