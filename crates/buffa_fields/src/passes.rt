//! The passes over the members of a message: the size pass and the write pass, each a visitor.

pub mod sizer;
pub mod visitor;
pub mod writer;
