//! What is searched.

ghost use Rattle.std.specs.Prelude.{◌≡◌, ◌+◌, ◌-◌, ◌<◌, ◌≤◌, IfOk, IfSome, length};

use crate::cuts::{count_of, delimited, value_tag};
use crate::inside::{Holds, Inside, Locate};
use crate::place::Step;
use crate::refused::{Refused, first_refused};
use buffa_wire::{Budget, DecodeError, Message, Tag, WireType, encode_varint};
use std::alloc::{AllocError, Global};

/// The bytes of a message, by where they begin and end in all bytes; what reading them may spend; and the fault that is
/// looked for.
///
/// ```ignore
/// M::find_inside(tag.field_number(), alloc, inner, path)
/// ```
#[derive(Clone, Copy)]
pub struct Search<'a> {
    /// All bytes.
    pub all: &'a [u8],
    /// Where the message begins in them.
    pub start: usize,
    /// Where it ends; a group ends in front of it.
    pub end: usize,
    /// Whether it is a group, which ends at its end tag.
    pub grouped: bool,
    /// How many levels of groups and messages may open in it.
    pub depth: u32,
    /// The unknown fields that are left.
    pub unknown: usize,
    /// The units of element memory that are left.
    pub memory: usize,
    /// The fault that is looked for.
    pub fault: DecodeError,
    ghost begins: { start ≤ end },
    ghost ends: { end ≤ length all.now },
}

impl<'a> Search<'a> {
    // The first record that is refused, if it is refused for the fault that is looked for.
    pub(crate) fn refused<M: Message + Drop>(
        self,
        alloc: Global,
    ) -> Result<Option<Refused>, AllocError>
        ensures { IfOk result (λ found. IfSome found (λ it. (it.at ≤ it.behind) × (it.at < self.entry.end - self.entry.start)
            × (it.behind ≤ self.entry.end - self.entry.start))) }
    {
        let budget = Budget::new(self.unknown).with_element_memory(self.memory);
        let bytes = &self.all[self.start..self.end];
        let found = first_refused::<M>(alloc, bytes, self.depth, budget)?;
        match found {
            Some(it) if it.fault == self.fault && !self.ends_at(it) => Ok(Some(it)),
            _ => Ok(None),
        }
    }

    // Whether a record is the end tag of the group, or one of another number, for which the group itself is refused.
    fn ends_at(self, refused: Refused) -> bool {
        match refused.tag {
            Some(tag) => self.grouped && tag.wire_type() == WireType::EndGroup,
            None => false,
        }
    }

    // Whether the entry would be read that the refused record is, if it ended here.
    fn reads_to<M: Message + Drop>(
        self,
        alloc: Global,
        refused: Refused,
        start: usize,
        end: usize,
    ) -> Result<bool, AllocError>
        requires record { (refused.at ≤ refused.behind) × (refused.behind ≤ self.end - self.start) }
        requires begins { start ≤ end }
        requires ends { end ≤ self.end }
    {
        let mut entry = Vec::new(alloc);
        let tag = &self.all[self.start + refused.at..self.start + refused.behind];
        entry.extend_from_slice(tag)?;
        encode_varint((end - start) as u64, &mut entry).map_err(|_| AllocError)?;
        entry.extend_from_slice(&self.all[start..end])?;
        let budget = Budget::new(refused.unknown).with_element_memory(refused.memory);
        Ok(first_refused::<M>(alloc, &entry, self.depth, budget)?.is_none())
    }

    // The value of the entry that the refused record is, where what is in front of it is read.
    fn value<M: Message + Drop>(
        self,
        alloc: Global,
        refused: Refused,
    ) -> Result<Option<(usize, usize)>, AllocError>
        requires record { (refused.at ≤ refused.behind) × (refused.behind ≤ self.end - self.start) }
        ensures { IfOk result (λ found. IfSome found (λ part. (self.entry.start + refused.behind ≤ part.0) × (part.0 ≤ part.1)
            × (part.1 ≤ self.entry.end))) }
    {
        let from = self.start + refused.behind;
        let Some((start, end)) = delimited(self.all, from, self.end) else {
            return Ok(None);
        };
        let Some((at, behind)) = value_tag(self.all, start, end, self.depth) else {
            return Ok(None);
        };
        if !self.reads_to::<M>(alloc, refused, start, at)? {
            return Ok(None);
        }
        Ok(delimited(self.all, behind, end))
    }

    // The bytes of the message that the refused record holds.
    fn held<M: Message + Drop>(
        self,
        alloc: Global,
        tag: Tag,
        refused: Refused,
        holds: Holds,
    ) -> Result<Option<(usize, usize)>, AllocError>
        requires record { (refused.at ≤ refused.behind) × (refused.behind ≤ self.end - self.start) }
        ensures { IfOk result (λ found. IfSome found (λ part. (self.entry.start + refused.behind ≤ part.0) × (part.0 ≤ part.1)
            × (part.1 ≤ self.entry.end))) }
    {
        let from = self.start + refused.behind;
        match (holds, tag.wire_type()) {
            (Holds::Message, WireType::LengthDelimited) => Ok(delimited(self.all, from, self.end)),
            (Holds::Group, WireType::StartGroup) => Ok(Some((from, self.end))),
            (Holds::Value, WireType::LengthDelimited) => self.value::<M>(alloc, refused),
            _ => Ok(None),
        }
    }

    // The message that the refused record holds, one level down.
    pub(crate) fn enter<M: Message + Drop>(
        self,
        alloc: Global,
        tag: Tag,
        refused: Refused,
        inside: Inside,
    ) -> Result<Option<Search<'a>>, AllocError>
        requires { (refused.at ≤ refused.behind) × (refused.behind ≤ self.end - self.start) }
        ensures { IfOk result (λ found. IfSome found (λ inner. (inner.depth + 1 ≡ self.entry.depth)
            × (self.entry.start + refused.behind ≤ inner.start) × (inner.end ≤ self.entry.end))) }
    {
        let left = refused.memory.checked_sub(inside.key);
        let Some(memory) = left.and_then(|it| it.checked_sub(inside.units)) else {
            return Ok(None);
        };
        if self.depth == 0 {
            return Ok(None);
        }
        let Some((start, end)) = self.held::<M>(alloc, tag, refused, inside.holds)? else {
            return Ok(None);
        };
        Ok(Some(Search {
            all: self.all,
            start,
            end,
            grouped: inside.holds == Holds::Group,
            depth: self.depth - 1,
            unknown: refused.unknown,
            memory,
            fault: self.fault,
        }))
    }

    // The step to the refused record.
    pub(crate) fn step<M: Locate>(self, tag: Tag, refused: Refused, inside: Option<Inside>) -> Step
        requires { refused.at ≤ self.end - self.start }
        ensures { result.number ≡ tag.number }
    {
        let number = tag.field_number();
        let front = &self.all[self.start..self.start + refused.at];
        let index = match inside {
            Some(it) if it.listed => Some(count_of(front, number, self.depth)),
            _ => None,
        };
        Step {
            number,
            name: M::name_of(number),
            index,
        }
    }
}
