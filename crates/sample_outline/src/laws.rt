//! What a proof knows of outlines by the laws of messages that hold themselves.

use crate::outline::Outline;
use buffa_fields::map_codec::Int32;
use buffa_fields_laws::recursive_members::{
    lists_inside_are_these, maps_inside_are_these, messages_that_hold_themselves_are_these,
    ones_inside_are_these,
};
use buffa_fields_laws::recursive_messages::{levels_are_exact, messages_are_their_members};

/// What is told of an outline is what its members say; those that hold outlines are what members of messages are; and its
/// levels are exact.
pub fn outlines_are_these(message: Outline) {
    messages_that_hold_themselves_are_these::<Outline>();
    lists_inside_are_these::<Outline>();
    ones_inside_are_these::<Outline>();
    maps_inside_are_these::<Outline, Int32>();
    levels_are_exact::<Outline>();
    messages_are_their_members(&message);
}
