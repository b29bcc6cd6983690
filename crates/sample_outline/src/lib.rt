//! Messages that hold themselves in a list, in a map and in one member, among members of other kinds. All but `laws.rt` is what
//! the plugin `tools/protoc-gen-buffa` made of `outline.proto`.
#![tactic(auto)]

pub mod laws;
pub mod outline;
pub mod outline_mark;
pub mod outline_source;
pub mod spot;
