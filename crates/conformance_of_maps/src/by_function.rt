// Entries of messages that are merged by a function.

use crate::reads::{Limits, Read};
use crate::storages::OnMessages;
use crate::store::{Store, filled};
use buffa_map::map_codec::{MapCodec, MapStorage, MapValueDecode, Msg, merge_message_entry_by};
use buffa_wire::{Budget, Buf, DecodeContext, DecodeError, Message};
use conformance_rows::calls::StorageName;
use conformance_rows::case::Case;
use conformance_rows::fault::Fault;
use conformance_rows::mark::Mark;
use conformance_rows::outcome::Outcome;
use conformance_rows::words::Worded;
use std::alloc::Global;

// Merges an entry by the message's own way to merge bytes.
fn merged<KC: MapCodec, M: Message, C: MapStorage<Key = KC::Value, Value = M>, B: Buf>(
    alloc: Global,
    map: &mut C,
    buf: &mut B,
    ctx: DecodeContext<'_>,
) -> Result<(), DecodeError> {
    merge_message_entry_by::<KC, M, C, B, _>(
        alloc,
        map,
        buf,
        ctx,
        |message: &mut M, bytes: &[u8], depth: u32, budget: &mut Budget| {
            let mut rest = bytes;
            message.merge(alloc, &mut rest, DecodeContext { depth, budget })
        },
    )
}

/// An entry that is read from a buffer, and its message merged by a function.
#[derive(Drop)]
pub struct ByFunction<'a, B> {
    /// The buffer.
    pub buf: &'a mut B,
}

impl<By, B: Buf> OnMessages<By> for ByFunction<'_, B> {
    fn on_messages<
        KC: MapCodec,
        M: Message + Worded<By>,
        C: Store<By> + MapStorage<Key = KC::Value, Value = <Msg<M> as MapValueDecode>::Value>,
    >(
        self,
        alloc: Global,
        case: &Case<'_>,
        storage: StorageName,
        mark: &mut Mark,
    ) -> Result<Outcome, Fault>
    where
        KC::Value: Worded<By>,
    {
        let mut limits = Limits::of(case)?;
        let mut map = filled::<By, KC::Value, M, C>(alloc, storage, case.before())?;
        mark.begin(alloc);
        let answer = merged::<KC, M, C, B>(alloc, &mut map, self.buf, limits.context());
        let read = Read::of(answer, mark.end(), self.buf);
        let none = Ok(String::new(alloc));
        read.outcome(alloc, case, &limits.budget, map.words(alloc), none)
    }
}
