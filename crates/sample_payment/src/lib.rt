//! A message with a `oneof`: its author writes no proof.
#![tactic(auto)]

pub mod method;
pub mod pay;
pub mod payment;
pub mod transfer;
