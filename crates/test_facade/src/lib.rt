//! Tests of what crosses crates, by the names of the facade, and of what is no case of a table: the cases are in
//! `vectors`, and the programs `conformance..` run them. Then worked examples of docs/BY_HAND.md, run. No crate depends
//! on this one.
//!
//! Expected values come from outside: from the protobuf encoding guide, worked out by hand, or from a table. The
//! messages, enums and keys are in `sample_types`, an extendee and the options in `sample_validator`. Tests compare
//! with `==` in `assert!`: of `assert_eq!` it is proved too how both sides print, which takes a fifth of a test's time.
#![tactic(auto)]

#[cfg(test)]
mod facade;
#[cfg(test)]
mod guide;
#[cfg(test)]
mod labelled;
#[cfg(test)]
mod large;
#[cfg(test)]
mod required;
#[cfg(test)]
mod surface;
