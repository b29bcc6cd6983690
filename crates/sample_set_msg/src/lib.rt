//! A MessageSet as the plugin writes it, with laws that say what it is. `set_msg.rt` is what `tools/protoc-gen-buffa` made of
//! `set_msg.proto`.
#![tactic(auto)]

pub mod laws;
pub mod set_msg;

pub use set_msg::SetMsg;
