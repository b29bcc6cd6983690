//! Examples of comments whose lines no other proved function says, tasks of docs/GUIDE.md, and descriptors, all run. No crate
//! depends on this one.
//!
//! Expected values come from outside: from the protobuf encoding guide, or worked out by hand.
#![tactic(auto)]

#[cfg(test)]
mod descriptor;
#[cfg(test)]
mod examples;
#[cfg(test)]
mod node;
#[cfg(test)]
mod tasks;
#[cfg(test)]
mod tree;
#[cfg(test)]
mod types;
#[cfg(test)]
mod within;
