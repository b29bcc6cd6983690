//! The tasks of docs/GUIDE.md, as a user writes them: a file a task. `messages.rt` and the files in `messages/` are
//! what `tools/protoc-gen-buffa` made of `stock.proto`. No crate of the product depends on this one.
#![tactic(auto)]

pub mod again;
pub mod counts;
pub mod laws;
pub mod limits;
pub mod located;
pub mod messages;
pub mod orders;
pub mod places;
pub mod proxy;
pub mod sets;
