//! Types over extensions that a program would write by hand, each proved: a message that is nothing but its
//! unknown fields, a reader of options, and a validator that options drive.
#![tactic(auto)]

pub mod carrier;
pub mod laws;
pub mod options;
pub mod price;
pub mod rules;

pub use carrier::Carrier;
pub use options::FieldOptions;
pub use price::{Price, PriceCodec, store_price};
pub use rules::{Rules, Violation, judge, read_rules, validate};
