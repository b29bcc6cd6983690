//! Types that a program would write over the crates below, each proved to keep their laws.
//!
//! [`word`] is a key type of one's own, [`hues`] has two enums, of which one declares more; [`flat`], [`two`],
//! [`count`], [`keep`] and [`tree`] are messages, of which [`count`] is by hand, since it is no list of its fields.
//! [`round_trip`] takes a map through its bytes and back, and [`passed_on`] through a reader that does not know all its
//! values.
#![tactic(auto)]

pub mod census;
pub mod count;
pub mod flat;
pub mod hues;
pub mod keep;
pub mod laws;
pub mod passed_on;
pub mod round_trip;
pub mod tree;
pub mod two;
pub mod word;
mod word_laws;
