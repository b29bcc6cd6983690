//! Where bytes were refused.

use crate::messages::Order;
use buffa_fields::{Budget, Decode, DecodeError};
use buffa_locate::locate;
use std::alloc::{AllocError, Global};

// What reading an order may take.
const LEVELS: u32 = 20;

const UNKNOWN: usize = 1_000;

const MEMORY: usize = 1_000_000;

/// An order of bytes that are a stranger's.
///
/// # Errors
/// The first fault of the bytes, or that memory runs out.
pub fn order_of(alloc: Global, bytes: &[u8]) -> Result<Order, DecodeError> {
    let limits = Budget::new(UNKNOWN).with_element_memory(MEMORY);
    Order::decode_within(alloc, bytes, LEVELS, limits)
}

/// The line that says where bytes are refused as an order, as `order.lines[1].count at byte 12: WireTypeMismatch 2 0 2`; none where
/// they are one.
///
/// # Errors
/// Where memory runs out.
pub fn refusal(alloc: Global, bytes: &[u8]) -> Result<Option<String>, AllocError> {
    let limits = Budget::new(UNKNOWN).with_element_memory(MEMORY);
    match locate::<Order>(alloc, bytes, LEVELS, limits)? {
        Some(place) => Ok(Some(format!(in alloc; "order{place}")?)),
        None => Ok(None),
    }
}
