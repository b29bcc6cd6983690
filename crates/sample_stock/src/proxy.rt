//! What a proxy may do with the fields that a message doesn't declare.

use crate::messages::Stock;

/// Whether a stock has a field of this number that it doesn't declare.
pub fn has_unknown(stock: &Stock, number: u32) -> bool {
    let mut found = false;
    for field in stock.unknown_fields.iter() {
        if field.number == number {
            found = true;
        }
    }
    found
}

/// Drops the fields of number 9, which a stock doesn't declare; all others stay.
pub fn drop_nine(stock: &mut Stock) {
    stock.unknown_fields.retain(|field| field.number != 9);
}
