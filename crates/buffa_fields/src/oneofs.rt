//! Oneofs: an enum of one's own, of which a message has at most one case.

pub mod case;
pub mod one_of;
