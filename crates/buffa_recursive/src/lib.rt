//! Messages that hold themselves, in lists, in maps and in boxes: their types are data, and their authors write no proof.
//!
//! A program with such a message names this crate beside `buffa_fields`, which has the member types of all messages. What
//! contracts cite of it is in `specs/` under the name `Terms`.
//!
//! ```ignore
//! use buffa_recursive::{RecursiveType, RecursiveFields, RecursiveFieldByField, RecursiveMeaning, InnerMerger, RecursiveVisitor, take_list};
//! ```
#![tactic(auto)]

pub mod inner_merger;
pub mod map_keys;
pub mod maps;
mod merge;
pub mod message;
pub mod one_of;
mod ordered_maps;
pub mod recursive_fields;
pub mod recursive_meaning;
pub mod recursive_type;
pub mod required;
pub mod required_meaning;
mod size_inner;
mod sizer;
pub mod takes;
pub mod visitor;
mod write_inner;
mod writer;

pub use crate::inner_merger::InnerMerger;
pub use crate::map_keys::{ByKey, Keyed};
pub use crate::maps::take_map;
pub use crate::one_of::take_one_of;
pub use crate::recursive_fields::RecursiveFields;
pub use crate::recursive_meaning::{RecursiveFieldByField, RecursiveMeaning};
pub use crate::recursive_type::RecursiveType;
pub use crate::required::{
    SelfAsked, SelfAsker, SelfRequired, list_initialized, map_initialized, one_initialized,
    tree_initialized,
};
pub use crate::required_meaning::{RequiredCases, RequiredMeaning, RequiredMember};
pub use crate::takes::{take_list, take_one};
pub use crate::visitor::RecursiveVisitor;
