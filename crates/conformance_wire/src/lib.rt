//! Does the calls of rows on what `buffa_wire` has by itself, and compares what comes of them with a row's words:
//! [`scalars`], strings, bytes and tags; [`records`], which are kept or passed over; [`lists`] of records, caches of sizes,
//! contexts and limits.
#![tactic(auto)]

pub mod lists;
pub mod records;
pub mod scalars;
