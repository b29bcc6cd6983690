//! Laws of map fields: what the definitions of `buffa_map` say together, and what the contracts there leave out. Each law is
//! a function with nothing to do, whose contract is the law. [`map_fields`] has them all.
#![tactic(auto)]

mod calls;
mod codecs;
mod entries;
mod in_bytes;
pub mod map_fields;
mod pinned;
mod runs;
mod storages;
