//! The scalars, each with the numbers that stand for its values.
//!
//! | Scalar | Form |
//! |---|---|
//! | [`Int32`], [`Sint32`], [`Uint32`] | varint, written in 1 to 5 bytes, and in 10 for a negative `Int32` |
//! | [`Int64`], [`Sint64`], [`Uint64`] | varint, written in 1 to 10 bytes |
//! | [`Bool`] | varint, written in 1 byte |
//! | [`Fixed32`], [`Sfixed32`], [`Float`] | four bytes |
//! | [`Fixed64`], [`Sfixed64`], [`Double`] | eight bytes |
//!
//! Any varint of 1 to 10 bytes is read as each of the first three rows.
//!
//! Source: the protobuf encoding guide, "Message Structure".

mod fixed;
mod real;
mod varint;

pub use fixed::{Fixed32, Fixed64, Sfixed32, Sfixed64};
pub use real::{Double, Float};
pub use varint::{Bool, Int32, Int64, Sint32, Sint64, Uint32, Uint64};
