//! Rows of tables on the library: what comes of a call in words, values as words, and buffers.
//!
//! A row is a [`case::Case`], and what its call does an [`outcome::Outcome`]; [`words`] has values as words, [`calls`]
//! what a call is given, and [`mark`] the lines before and after a call, between which memory may be refused.
//! [`any_buf`] is the one type of buffers, and [`runs`] runs rows, each of whose calls reads one.
#![tactic(auto)]

pub mod any_buf;
mod cuts;
pub mod outcome;
pub mod runs;
pub mod tables;
pub mod words;

use crate::tables::case::{MAX_NUMBER, UNITS, UNKNOWN};
pub use crate::tables::{calls, case, fault, mark, tally};
use buffa_wire::{DEFAULT_ELEMENT_MEMORY_LIMIT, DEFAULT_UNKNOWN_FIELD_LIMIT, MAX_FIELD_NUMBER};

// What a row may say, and what it means where it says nothing, is what the library has.
const _: () = prove!(MAX_NUMBER == MAX_FIELD_NUMBER);

const _: () = prove!(UNKNOWN == DEFAULT_UNKNOWN_FIELD_LIMIT as u64);

const _: () = prove!(UNITS == DEFAULT_ELEMENT_MEMORY_LIMIT as u64);
