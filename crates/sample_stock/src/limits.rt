//! Limits for bytes that aren't trusted.

use crate::messages::Stock;
use buffa_fields::{Blank, Budget, DecodeContext, DecodeError, Message};
use std::alloc::Global;

/// Reads a stock under limits: at most 20 levels deep, 1,000 unknown fields, and 1,000,000 units of element memory.
///
/// # Errors
/// Where the bytes are no stock, or what they need isn't left, or memory runs out.
pub fn stock_within_limits(alloc: Global, bytes: &[u8]) -> Result<Stock, DecodeError> {
    let mut stock = Stock::blank(alloc);
    let mut budget = Budget::new(1_000).with_element_memory(1_000_000);
    let mut rest = bytes;
    stock.merge(alloc, &mut rest, DecodeContext::new(20, &mut budget))?;
    Ok(stock)
}
