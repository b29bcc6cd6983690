//! Tests of the crates below the facade, of what is no case of a table: buffers and sinks of the crate `bytes`,
//! options, many pairs, and examples of the documentation. No crate depends on this one.
//!
//! Expected values come from outside: from the protobuf encoding guide, or worked out by hand.
#![tactic(auto)]

#[cfg(test)]
mod adapted;
#[cfg(test)]
mod buffers;
#[cfg(test)]
mod errors;
#[cfg(test)]
mod examples;
#[cfg(test)]
mod numbers;
#[cfg(test)]
mod options;
#[cfg(test)]
mod records;
#[cfg(test)]
mod storages;
#[cfg(test)]
mod texts;
