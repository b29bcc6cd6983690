//! Parts of bytes that a message is in, by where they begin and end; and how many fields are in front.

ghost use Rattle.std.specs.Prelude.{◌≤◌, IfSome, length};

use buffa_wire::{Tag, WireType, decode_varint, skip_field_depth};

// The bytes behind the length at the front, as many as it says.
pub(crate) fn delimited(all: &[u8], start: usize, end: usize) -> Option<(usize, usize)>
    requires begins { start ≤ end }
    requires ends { end ≤ length all.now }
    ensures { IfSome result (λ part. (start ≤ part.0) × (part.0 ≤ part.1) × (part.1 ≤ end)) }
{
    let mut rest = &all[start..end];
    let length = decode_varint(&mut rest).ok()?;
    let from = start.max(end.saturating_sub(rest.len()));
    let to = from.checked_add(length as usize)?;
    if to > end {
        return None;
    }
    Some((from, to))
}

// The first tag of number 2 in an entry: where it begins, and where it ends. It is of a message.
pub(crate) fn value_tag(all: &[u8], start: usize, end: usize, depth: u32) -> Option<(usize, usize)>
    requires begins { start ≤ end }
    requires ends { end ≤ length all.now }
    ensures { IfSome result (λ tag. (start ≤ tag.0) × (tag.0 ≤ tag.1) × (tag.1 ≤ end)) }
{
    let mut rest = &all[start..end];
    // each field takes a byte at least
    for _ in start..end {
        let at = start.max(end.saturating_sub(rest.len()));
        let tag = Tag::decode(&mut rest).ok()?;
        if tag.field_number() == 2 {
            let behind = at.max(end.saturating_sub(rest.len()));
            return (tag.wire_type() == WireType::LengthDelimited).then_some((at, behind));
        }
        skip_field_depth(tag, &mut rest, depth).ok()?;
    }
    None
}

// How many of the fields at the front have a number.
pub(crate) fn count_of(bytes: &[u8], number: u32, depth: u32) -> usize {
    let mut count: usize = 0;
    let mut rest = bytes;
    // each field takes a byte at least
    for _ in bytes {
        let Ok(tag) = Tag::decode(&mut rest) else {
            return count;
        };
        if skip_field_depth(tag, &mut rest, depth).is_err() {
            return count;
        }
        if tag.field_number() == number {
            count = count.saturating_add(1);
        }
    }
    count
}
