//! Messages without the fields that their types don't declare, and without those of each message in them.
//!
//! A program that passes a message on, and vouches for what it knows of it alone, takes the others out first.
//!
//! ```ignore
//! payment.discard_unknown_fields(alloc);
//! ```
#![tactic(auto)]

pub mod discard;

pub use discard::DiscardUnknown;
