//! The two laws of map fields that code above calls: each is a function with nothing to do, whose contract is the law. The
//! others are in `buffa_map_laws`.

ghost use Rattle.buffa_map.specs.Laws.{LimitsAreTrue, SizeIsLength};

use crate::codec::{MapCodec, MapValueDecode};

/// A budget's error is returned for an entry only where what it needs isn't left: its units, what the messages in
/// it cost, and the unknown field of one with an undeclared value, where it is kept.
///
/// ```ignore
/// limits_are_reported_where_charges_are_not_left::<KC, VC>();
/// ```
pub fn limits_are_reported_where_charges_are_not_left<KC: MapValueDecode, VC: MapValueDecode>()
    ensures { LimitsAreTrue KC.reading VC.reading }
{}

/// The size of a field is the length of its encoding, where its tag is the field's.
///
/// ```ignore
/// size_is_length::<KC, VC>();
/// ```
pub fn size_is_length<KC: MapCodec, VC: MapCodec>()
    ensures { SizeIsLength KC.writing VC.writing }
{}
