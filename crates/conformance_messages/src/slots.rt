// Caches with slots before a call, and slots in words.

ghost use Rattle.std.specs.Prelude.{◌≡◌, ◌+◌, length, IfOk, OnOk};

use buffa_wire::{EncodeError, Message, SizeCache};
use conformance_rows::case::{Case, or_dash};
use conformance_rows::fault::Fault;
use conformance_rows::outcome::{Outcome, count_told, in_words, written};
use conformance_rows::words::{copied, joined};
use std::alloc::Global;

// What a slot holds that was there before a call.
const BEFORE: u32 = 7;

// Reserves a slot, which holds so much.
fn put_slot(cache: &mut SizeCache, size: u32) -> Result<(), Fault>
    ensures next { cache.new.next ≡ cache.old.next }
    ensures one { OnOk result (length cache.new.slots ≡ length cache.old.slots + 1) }
{
    match cache.reserve() {
        Err(_) => Err(Fault::Memory),
        Ok(slot) => {
            cache.set(slot, size);
            Ok(())
        }
    }
}

/// A cache of as many slots as the row says, of which none was consumed.
pub(crate) fn with_slots(alloc: Global, case: &Case<'_>) -> Result<SizeCache, Fault>
    ensures { IfOk result (λ cache. cache.next ≡ 0) }
{
    let mut cache = SizeCache::new(alloc);
    for _ in 0..case.reserved()? {
        put_slot(&mut cache, BEFORE)?;
    }
    Ok(cache)
}

/// The same where each of them was consumed.
pub(crate) fn with_slots_behind(alloc: Global, case: &Case<'_>) -> Result<SizeCache, Fault>
    ensures { IfOk result (λ cache. cache.next ≡ length cache.slots) }
{
    let mut cache = SizeCache::new(alloc);
    for _ in 0..case.reserved()? {
        put_slot(&mut cache, BEFORE)?;
        let _size = cache.consume_next();
    }
    Ok(cache)
}

/// The size of a message.
pub(crate) fn sized<M: Message>(message: &M, cache: &mut SizeCache) -> Result<u64, EncodeError>
    ensures { cache.new.next ≡ cache.old.next }
{
    match message.compute_size(cache) {
        Ok(size) => Ok(u64::from(size)),
        Err(fault) => Err(fault),
    }
}

// Words and the next slot's, with a space between them, but before the first.
fn with_word(alloc: Global, words: &str, is_first: bool, size: u32) -> Result<String, Fault> {
    let size = in_words(alloc, &size)?;
    let space = if is_first { "" } else { " " };
    joined(alloc, words, space, size.as_str())
}

// The slots of a cache in order, with a space between them.
fn slots_word(alloc: Global, cache: &mut SizeCache) -> Result<String, Fault>
    requires { cache.old.next ≡ 0 }
{
    let count = match cache.reserve() {
        Ok(count) => count,
        Err(_) => return Err(Fault::Memory),
    };
    let mut words = String::new(alloc);
    for place in 0..count {
        let size = cache.consume_next();
        words = with_word(alloc, words.as_str(), place == 0, size)?;
    }
    Ok(words)
}

// The slots of a cache of which none was consumed, where the row tells them.
fn slots_told(alloc: Global, case: &Case<'_>, cache: &mut SizeCache) -> Result<String, Fault>
    requires { cache.old.next ≡ 0 }
{
    if !case.says("cache", "told") {
        return Ok(String::new(alloc));
    }
    let words = slots_word(alloc, cache)?;
    joined(alloc, "cache ", or_dash(words.as_str()), "")
}

// Whether a word is that of a slot that was there before.
fn is_before(word: Option<&str>) -> bool {
    match word {
        Some(word) => word == "7",
        None => false,
    }
}

// Whether the first slots of those that are told are the ones that were there before.
fn first_stand(case: &Case<'_>, slots: &str) -> Result<bool, Fault> {
    let mut words = slots.split(' ').skip(1);
    for _ in 0..case.reserved()? {
        if !is_before(words.next()) {
            return Ok(false);
        }
    }
    Ok(true)
}

// The word of a size's answer; another one where the slots that were there before don't come first.
fn sized_told(
    alloc: Global,
    case: &Case<'_>,
    made: Result<u64, EncodeError>,
    slots: &str,
) -> Result<String, Fault> {
    if case.says("cache", "told") && !first_stand(case, slots)? {
        return copied(alloc, "slots are gone");
    }
    written(alloc, made)
}

/// What comes of a size, with the slots of a cache of which none was consumed, where the row tells them.
pub(crate) fn sized_outcome(
    alloc: Global,
    case: &Case<'_>,
    cache: &mut SizeCache,
    made: Result<u64, EncodeError>,
    refused: bool,
) -> Result<Outcome, Fault>
    requires { cache.old.next ≡ 0 }
{
    let slots = slots_told(alloc, case, cache)?;
    let answer = sized_told(alloc, case, made, slots.as_str());
    Outcome::of_words(alloc, answer, count_told(alloc, made), Ok(slots), refused)
}
