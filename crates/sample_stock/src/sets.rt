//! A MessageSet: its Items are extensions.

use crate::messages::Stock;
use buffa_ext::codecs::MessageCodec;
use buffa_ext::{Extension, ExtensionSet};
use buffa_fields::{Blank, DecodeError, EncodeError, Message};
use sample_set_msg::SetMsg;
use std::alloc::Global;

/// The stock in the Item of type id 1000, where the set has one.
///
/// # Errors
/// Where the bytes are no MessageSet, or the Item's message is no stock, or memory runs out.
pub fn stock_in_set(alloc: Global, bytes: &[u8]) -> Result<Option<Stock>, DecodeError> {
    let mut set = SetMsg::blank(alloc);
    set.merge_from_slice(alloc, bytes)?;
    let stock = Extension::<MessageCodec<Stock>>::new(1000, SetMsg::PROTO_FQN);
    set.read_extension(alloc, &stock)
}

/// The MessageSet that has a stock in an Item of type id 1000.
///
/// # Errors
/// Where the set is too large to be written, or memory runs out.
pub fn set_of_stock(alloc: Global, stock: Stock) -> Result<Vec<u8>, EncodeError> {
    let mut set = SetMsg::blank(alloc);
    let ext = Extension::<MessageCodec<Stock>>::new(1000, SetMsg::PROTO_FQN);
    set.set_extension(alloc, &ext, stock)?;
    set.try_encode_to_vec(alloc)
}
