//! Two messages over the crates below this one: a node that holds a map of itself, and a MessageSet, which is written by hand.
//!
//! Which messages they are is said by [`crate::laws::nodes`] and [`crate::laws::sets`]. What they cite is handed on in
//! `specs/` under the names `Branch`, `NodeMeaning`, `NodeEncoding` and `Set`.
//!
//! ```ignore
//! use buffa::samples::Node;
//! use buffa::{Blank, Message};
//!
//! let mut node = Node::blank(alloc);
//! node.merge_from_slice(alloc, &[0x12, 0x02, 0x08, 0x01])?; // a blank child under 1
//! let encoding = node.try_encode_to_vec(alloc)?; // 12 04 08 01 12 00
//! ```

pub use sample_node::node::{Node, merge_node, size_node, write_node};
pub use sample_node::shade::Shade;
pub use sample_set_msg::SetMsg;
