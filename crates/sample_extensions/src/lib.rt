//! Extensions of a message, each by the function that the plugin wrote of it: their author writes no number, no codec and no default.
//! What is in `messages` is what `tools/protoc-gen-buffa` made of `shipment.proto`.
#![tactic(auto)]

pub mod delivery;
pub mod messages;
pub mod paperwork;
#[cfg(test)]
mod tests;
