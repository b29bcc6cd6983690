//! Members that are lists of messages, as groups.

use crate::members::group_field::Grouped;
use crate::members::messages_in::MessagesIn;

/// A list of messages, as groups: each group is a new element, which costs its type's units of element memory, and what
/// is in it.
///
/// ```ignore
/// visitor.visit::<RepeatedGroupField<Inventory>>(3, &self.layers); // repeated group Layers = 3 { .. }
/// ```
pub type RepeatedGroupField<N> = MessagesIn<Grouped, N>;
