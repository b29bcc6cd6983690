//! Rows of tables as texts, and the ways to run them, whatever does their calls.
//!
//! A row is a [`case::Case`], and what its call does an [`outcome::Outcome`]; [`calls`] has what a call is given,
//! [`words`] texts and bytes as words, [`mark`] the lines before and after a call, between which memory may be refused,
//! and [`repeated`] lines in which a text stands many times over.
//!
//! [`runs`] runs the rows on standard input, and tells which of them don't hold. Without a word each row is run whole,
//! cut in every way, and where it is accepted each beginning of it. With the word `refused` each row is run with its
//! requests for memory refused, one after the other, by `tests/refuse.c`. A row that says `ways=once` is run whole
//! alone, and of its requests the first fifty are refused, and the last ten. What does the call of a row is a program's own: a type that is [`on_bytes::CallsOnBytes`].

pub mod calls;
pub mod case;
pub mod fault;
pub mod mark;
pub mod on_bytes;
pub mod outcome;
pub mod repeated;
pub mod runs;
pub mod tally;
mod ways;
pub mod words;
