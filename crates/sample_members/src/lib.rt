//! Messages from their fields: one of all scalars for each way in which a message has these. Its files are what the plugin
//! `tools/protoc-gen-buffa` made of `members.proto`, with the parameters that `tools/check` lists.
#![tactic(auto)]

pub mod explicit;
pub mod implicit;
pub mod joined;
pub mod separate;
