//! Maps of inventories and of orders, sized and read by one call each.

use crate::inventory::Inventory;
use crate::order::Order;
use buffa_fields::map_codec::{Map, Msg, Str, message_field_len, read_map_field};
use buffa_fields::{DecodeContext, DecodeError, EncodeError, SizeCache};
use std::alloc::Global;
use std::string::String;

/// The length in bytes of a `map<string, Inventory>` of number 1, by one call. The sizes of its messages go to the
/// cache.
///
/// # Errors
/// [`EncodeError::OutOfMemory`] alone, never for a map of no pairs.
///
/// ```ignore
/// message_field_len::<Str, Inventory, Map<String, Inventory>>(map, 1, cache)
/// ```
pub fn inventories_len(
    map: &Map<String, Inventory>,
    cache: &mut SizeCache,
) -> Result<u64, EncodeError> {
    message_field_len::<Str, Inventory, Map<String, Inventory>>(map, 1, cache)
}

/// Reads a `map<string, Inventory>` of number 1, by one call.
///
/// # Errors
/// Those of [`read_map_field`].
///
/// ```ignore
/// read_map_field::<Str, Msg<Inventory>, Map<String, Inventory>, &[u8]>(alloc, map, 1, buf, ctx, None)
/// ```
pub fn read_inventories(
    alloc: Global,
    map: &mut Map<String, Inventory>,
    buf: &mut &[u8],
    ctx: DecodeContext<'_>,
) -> Result<(), DecodeError> {
    read_map_field::<Str, Msg<Inventory>, Map<String, Inventory>, &[u8]>(
        alloc, map, 1, buf, ctx, None,
    )
}

/// The length in bytes of a `map<string, Order>` of number 1, as [`inventories_len`].
///
/// # Errors
/// Those of [`inventories_len`].
///
/// ```ignore
/// message_field_len::<Str, Order, Map<String, Order>>(map, 1, cache)
/// ```
pub fn orders_len(map: &Map<String, Order>, cache: &mut SizeCache) -> Result<u64, EncodeError> {
    message_field_len::<Str, Order, Map<String, Order>>(map, 1, cache)
}

/// Reads a `map<string, Order>` of number 1, as [`read_inventories`].
///
/// # Errors
/// Those of [`read_map_field`].
///
/// ```ignore
/// read_map_field::<Str, Msg<Order>, Map<String, Order>, &[u8]>(alloc, map, 1, buf, ctx, None)
/// ```
pub fn read_orders(
    alloc: Global,
    map: &mut Map<String, Order>,
    buf: &mut &[u8],
    ctx: DecodeContext<'_>,
) -> Result<(), DecodeError> {
    read_map_field::<Str, Msg<Order>, Map<String, Order>, &[u8]>(alloc, map, 1, buf, ctx, None)
}
