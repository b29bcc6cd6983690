//! Members that are lists of messages.

use crate::members::message_field::Delimited;
use crate::members::messages_in::MessagesIn;

/// A list of messages: each record is a new element, which costs its type's units of element memory, and what is in it.
///
/// ```ignore
/// visitor.visit::<RepeatedMessageField<Parcel>>(2, &self.parcels); // repeated Parcel parcels = 2;
/// ```
pub type RepeatedMessageField<N> = MessagesIn<Delimited, N>;
