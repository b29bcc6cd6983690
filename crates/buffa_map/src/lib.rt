//! Map fields: storages, codecs, entries, runs, sizes and encodings.
//!
//! A map field is a run of records of one number, each of them a length and an entry, a small message of a
//! key field and a value field. [`map_codec`] has the public surface. What the definitions say together is in the crate
//! `buffa_map_laws`, but for two laws that code above calls, which are in [`laws`].
//!
//! Read: records from the buffer (`run`), of each its entry (`entry`), of that its fields (`entry_fields`), by the codecs of
//! key and value (`codec`, `codecs`, `message`); and the pair is put into a storage (`storage`). Written:
//! from a walk of a storage by way of a size (`size`) into an encoding (`write`).
//!
//! A caller, of a field of number 5 that is a `map<string, int32>`:
//!
//! ```ignore
//! let mut counts = BTreeMap::new(alloc);
//! let mut budget = Budget::new(0);
//! let ctx = DecodeContext::new(RECURSION_LIMIT, &mut budget);
//! let mut rest = bytes;
//! read_map_field::<Str, Int32, _, _>(alloc, &mut counts, 5, &mut rest, ctx, None)?;
//! Ok(counts)
//! ```
#![tactic(auto)]

mod codec;
mod codecs;
mod entry;
mod entry_fields;
mod hashed;
mod indexed;
mod keep;
pub mod laws;
pub mod map_codec;
pub mod map_entry;
mod map_write;
mod merge_value;
mod message;
mod message_merge;
mod message_size;
mod message_write;
mod ordered;
mod rewrite;
mod run;
mod size;
mod size_and_write;
mod storage;
mod write;
