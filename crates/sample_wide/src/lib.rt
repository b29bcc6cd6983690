//! A message of more than sixty members, which are read and written in blocks. This is what the plugin
//! `tools/protoc-gen-buffa` made of `day.proto`, but for `noon.rt`, which is as a user writes it.
#![tactic(auto)]

pub mod day;
pub mod noon;
pub mod place;
