//! A message type that holds itself in a map, in the form `RecursiveFieldByField`. Its other maps, of scores and of a closed enum, and the
//! fields that it doesn't declare, are members of types of `buffa_fields`. What a node is, is said here once more, without the words
//! of that form, and proved to be what the form makes of it.
#![tactic(auto)]

pub mod laws;
pub mod node;
pub mod shade;
