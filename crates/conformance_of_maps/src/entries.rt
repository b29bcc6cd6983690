// Calls that read entries and runs of map fields.

ghost use Rattle.buffa_bytes.specs.Number.{IsNumber};

use crate::reads::{Limits, Read};
use crate::storages::{OnMap, OnMessages};
use crate::store::{Store, filled};
use buffa_map::map_codec::{
    MapCodec, MapStorage, MapValueDecode, MapWrite, Msg, RewriteError, merge_entry,
    merge_entry_with_unknowns, read_map_field, rewrite_map_field,
};
use buffa_wire::{Budget, Buf, DecodeContext, DecodeError, Message, UnknownFields};
use conformance_rows::calls::StorageName;
use conformance_rows::case::{Case, given};
use conformance_rows::fault::Fault;
use conformance_rows::mark::Mark;
use conformance_rows::outcome::{Outcome, digits_told, in_words, text_told, with_left};
use conformance_rows::words::{Worded, copied, records_of, records_word};
use std::alloc::Global;

// The list that is lent, if one is.
fn lent(alloc: Global, case: &Case<'_>) -> Result<Option<UnknownFields>, Fault> {
    match case.setting("list") {
        None => Ok(None),
        Some(digits) => Ok(Some(records_of(alloc, given(digits))?)),
    }
}

// The records of the list, if one was lent.
fn kept(alloc: Global, list: &Option<UnknownFields>) -> Result<String, Fault> {
    match list {
        None => Ok(String::new(alloc)),
        Some(list) => {
            let records = records_word(alloc, list)?;
            digits_told(alloc, "list", records.as_str())
        }
    }
}

// A run, or an entry, whose undeclared values may be kept.
fn listed<
    KC: MapCodec,
    VC: MapValueDecode,
    C: MapStorage<Key = KC::Value, Value = VC::Value>,
    B: Buf,
>(
    alloc: Global,
    is_run: bool,
    map: &mut C,
    buf: &mut B,
    ctx: DecodeContext<'_>,
    number: u32,
    list: Option<&mut UnknownFields>,
) -> Result<(), DecodeError> {
    if is_run {
        return read_map_field::<KC, VC, C, B>(alloc, map, number, buf, ctx, list);
    }
    merge_entry_with_unknowns::<KC, VC, C, B>(alloc, map, buf, ctx, number, list)
}

// What an entry or a run is read with: limits, a number, and a list if one is lent.
#[derive(Drop)]
struct Given {
    limits: Limits,
    number: u32,
    list: Option<UnknownFields>,
}

impl Given {
    // What a row gives.
    fn of(alloc: Global, case: &Case<'_>) -> Result<Given, Fault> {
        let limits = Limits::of(case)?;
        let number = case.number()?;
        let list = lent(alloc, case)?;
        Ok(Given {
            limits,
            number,
            list,
        })
    }

    // The call of a row with what it gives.
    fn read<
        KC: MapCodec,
        VC: MapValueDecode,
        C: MapStorage<Key = KC::Value, Value = VC::Value>,
        B: Buf,
    >(&mut self, alloc: Global, call: &str, map: &mut C, buf: &mut B) -> Result<(), DecodeError> {
        let ctx = self.limits.context();
        match call {
            "entry" if self.list.is_none() => merge_entry::<KC, VC, C, B>(alloc, map, buf, ctx),
            "unlisted" => listed::<KC, VC, C, B>(alloc, false, map, buf, ctx, self.number, None),
            _ => {
                let list = self.list.as_mut();
                listed::<KC, VC, C, B>(alloc, call != "entry", map, buf, ctx, self.number, list)
            }
        }
    }
}

// What comes of an entry or a run.
fn reading<
    By,
    KC: MapCodec,
    VC: MapValueDecode,
    C: Store<By> + MapStorage<Key = KC::Value, Value = VC::Value>,
    B: Buf,
>(
    alloc: Global,
    case: &Case<'_>,
    storage: StorageName,
    mark: &mut Mark,
    buf: &mut B,
) -> Result<Outcome, Fault>
where
    KC::Value: Worded<By>,
    VC::Value: Worded<By>,
{
    let mut given = Given::of(alloc, case)?;
    let mut map = filled::<By, KC::Value, VC::Value, C>(alloc, storage, case.before())?;
    mark.begin(alloc);
    let answer = given.read::<KC, VC, C, B>(alloc, case.call, &mut map, buf);
    let read = Read::of(answer, mark.end(), buf);
    let kept = kept(alloc, &given.list);
    read.outcome(alloc, case, &given.limits.budget, map.words(alloc), kept)
}

/// An entry or a run of messages that is read from a buffer.
#[derive(Drop)]
pub struct Runs<'a, B> {
    /// The buffer.
    pub buf: &'a mut B,
}

impl<By, B: Buf> OnMessages<By> for Runs<'_, B> {
    fn on_messages<
        KC: MapCodec,
        M: Message + Worded<By>,
        C: Store<By> + MapStorage<Key = KC::Value, Value = <Msg<M> as MapValueDecode>::Value>,
    >(
        self,
        alloc: Global,
        case: &Case<'_>,
        storage: StorageName,
        mark: &mut Mark,
    ) -> Result<Outcome, Fault>
    where
        KC::Value: Worded<By>,
    {
        reading::<By, KC, Msg<M>, C, B>(alloc, case, storage, mark, self.buf)
    }
}

// The word of a rewrite's answer.
fn rewrite_told(alloc: Global, answer: Result<(), RewriteError>) -> Result<String, Fault> {
    match answer {
        Ok(()) => copied(alloc, "ok"),
        Err(fault) => in_words(alloc, &fault),
    }
}

// What is told of a rewrite.
fn rewritten(
    alloc: Global,
    case: &Case<'_>,
    budget: &Budget,
    answer: Result<(), RewriteError>,
    pairs: Result<String, Fault>,
    text: Result<String, Fault>,
    refused: bool,
) -> Result<Outcome, Fault> {
    let answer = rewrite_told(alloc, answer);
    let outcome = Outcome::of_words(alloc, answer, pairs, text, refused);
    with_left(alloc, case, budget, outcome, 0)
}

// Rewrites a map field.
fn rewrite<
    KC: MapCodec,
    VC: MapCodec,
    C: MapWrite + MapStorage<Key = KC::Value, Value = VC::Value>,
    B: Buf,
>(
    alloc: Global,
    map: &mut C,
    number: u32,
    buf: &mut B,
    ctx: DecodeContext<'_>,
    text: &mut Vec<u8>,
) -> Result<(), RewriteError>
    requires { IsNumber number }
{
    rewrite_map_field::<KC, VC, C, B, Vec<u8>>(alloc, map, number, buf, ctx, text)
}

// What comes of a rewrite.
fn rewriting<
    By,
    KC: MapCodec,
    VC: MapCodec,
    C: Store<By> + MapStorage<Key = KC::Value, Value = VC::Value>,
    B: Buf,
>(
    alloc: Global,
    case: &Case<'_>,
    storage: StorageName,
    mark: &mut Mark,
    buf: &mut B,
) -> Result<Outcome, Fault>
where
    KC::Value: Worded<By>,
    VC::Value: Worded<By>,
{
    let mut limits = Limits::of(case)?;
    let number = case.field_number()?;
    let mut map = filled::<By, KC::Value, VC::Value, C>(alloc, storage, case.before())?;
    let mut text = Vec::new(alloc);
    mark.begin(alloc);
    let ctx = limits.context();
    let answer = rewrite::<KC, VC, C, B>(alloc, &mut map, number, buf, ctx, &mut text);
    let refused = mark.end();
    let text = text_told(alloc, text.as_slice());
    rewritten(
        alloc,
        case,
        &limits.budget,
        answer,
        map.words(alloc),
        text,
        refused,
    )
}

/// An entry, a run or a rewrite that is read from a buffer.
#[derive(Drop)]
pub struct Entries<'a, B> {
    /// The buffer.
    pub buf: &'a mut B,
}

impl<By, B: Buf> OnMap<By> for Entries<'_, B> {
    fn on_map<
        KC: MapCodec,
        VC: MapCodec,
        C: Store<By> + MapStorage<Key = KC::Value, Value = VC::Value>,
    >(
        self,
        alloc: Global,
        case: &Case<'_>,
        storage: StorageName,
        mark: &mut Mark,
    ) -> Result<Outcome, Fault>
    where
        KC::Value: Worded<By>,
        VC::Value: Worded<By>,
    {
        if case.call == "rewrite" {
            return rewriting::<By, KC, VC, C, B>(alloc, case, storage, mark, self.buf);
        }
        reading::<By, KC, VC, C, B>(alloc, case, storage, mark, self.buf)
    }
}
