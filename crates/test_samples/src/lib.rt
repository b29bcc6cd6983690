//! What the samples do, run. No crate depends on this one.
//!
//! Expected values come from outside: from the protobuf encoding guide, or worked out by hand.
#![tactic(auto)]

#[cfg(test)]
mod failure;
#[cfg(test)]
mod frames;
#[cfg(test)]
mod held;
#[cfg(test)]
mod located;
#[cfg(test)]
mod measure;
#[cfg(test)]
mod names;
#[cfg(test)]
mod outline;
#[cfg(test)]
mod palette;
#[cfg(test)]
mod payment;
#[cfg(test)]
mod printed;
#[cfg(test)]
mod settings;
#[cfg(test)]
mod stock;
#[cfg(test)]
mod task;
#[cfg(test)]
mod wide;
