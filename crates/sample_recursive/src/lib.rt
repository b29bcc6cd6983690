//! Messages that hold themselves: a failure may hold one in a box, a branch a list of them, and settings a map. A task has all
//! three, and something is required in it. Their author writes no proof: the files are what the plugin
//! `tools/protoc-gen-buffa` made of the `.proto` files.
#![tactic(auto)]

pub mod agenda;
pub mod branch;
pub mod failure;
pub mod person;
pub mod settings;
pub mod task;
pub mod task_at;
