// Caches of sizes, step by step.

ghost use Rattle.std.specs.Prelude.{◌≡◌, length};

use buffa_wire::{EncodeError, SizeCache};
use conformance_rows::case::Case;
use conformance_rows::fault::Fault;
use conformance_rows::mark::Mark;
use conformance_rows::outcome::{Outcome, in_words, written};
use conformance_rows::words::push_word;
use std::alloc::Global;

// What is done with a cache.
#[derive(Clone, Copy)]
enum Deed {
    // Room for so many slots.
    Room(usize),
    // The next slot is reserved.
    Reserve,
    // A size is put into a slot.
    Set(usize, u32),
    // The next slot is consumed.
    Next,
}

// A deed, and the number that it gives.
#[derive(Clone, Copy)]
struct Step {
    deed: Deed,
    gave: Option<u64>,
}

// Why steps end.
#[derive(Clone, Copy)]
enum Stop {
    // A slot is named that isn't reserved.
    Form,
    // The cache refused.
    Refused(EncodeError),
}

impl From<EncodeError> for Stop {
    fn from(error: EncodeError) -> Stop {
        Stop::Refused(error)
    }
}

// A cache, and how many of its slots are reserved and consumed.
#[derive(Drop)]
struct Counted {
    cache: SizeCache,
    reserved: usize,
    consumed: usize,
    ghost tied: { (reserved ≡ length cache.slots) × (consumed ≡ cache.next) },
}

impl Counted {
    // Reserves a slot.
    fn reserve(&mut self) -> Result<usize, Stop> {
        let Some(reserved) = self.reserved.checked_add(1) else {
            return Err(Stop::Form);
        };
        let slot = self.cache.reserve()?;
        self.reserved = reserved;
        Ok(slot)
    }

    // Puts a size into a slot.
    fn set(&mut self, slot: usize, size: u32) -> Result<(), Stop> {
        if slot >= self.reserved {
            return Err(Stop::Form);
        }
        self.cache.set(slot, size);
        Ok(())
    }

    // Consumes a slot.
    fn next(&mut self) -> Result<u32, Stop> {
        if self.consumed >= self.reserved {
            return Err(Stop::Form);
        }
        let size = self.cache.consume_next();
        self.consumed += 1;
        Ok(size)
    }

    // Does a step, and gives the number that comes of it.
    fn take(&mut self, deed: Deed) -> Result<Option<u64>, Stop> {
        match deed {
            Deed::Room(slots) => {
                self.cache.make_room(slots)?;
                Ok(None)
            }
            Deed::Reserve => Ok(Some(self.reserve()? as u64)),
            Deed::Set(slot, size) => {
                self.set(slot, size)?;
                Ok(None)
            }
            Deed::Next => Ok(Some(u64::from(self.next()?))),
        }
    }
}

// The deed of a word: `room:3`, `reserve`, `0:7`, `next`.
fn deed_of(word: &str) -> Result<Deed, Fault> {
    match word.split_once(':') {
        Some(("room", slots)) => Ok(Deed::Room(slots.parse::<u64>()? as usize)),
        Some((slot, size)) => {
            let slot = slot.parse::<u64>()? as usize;
            Ok(Deed::Set(slot, size.parse::<u32>()?))
        }
        None if word == "reserve" => Ok(Deed::Reserve),
        None if word == "next" => Ok(Deed::Next),
        None => Err(Fault::Form),
    }
}

// The steps of words.
fn steps_of(alloc: Global, words: &str) -> Result<Vec<Step>, Fault> {
    let mut steps = Vec::new(alloc);
    for word in words.split_ascii_whitespace() {
        let deed = deed_of(word)?;
        steps.push(Step { deed, gave: None })?;
    }
    Ok(steps)
}

// Does the steps in order.
fn do_all(cache: &mut Counted, steps: &mut [Step]) -> Result<(), Stop> {
    for step in steps.iter_mut() {
        step.gave = cache.take(step.deed)?;
    }
    Ok(())
}

// Puts the number that a step gave behind words.
fn push_gift(alloc: Global, words: &mut String, step: Step) -> Result<(), Fault> {
    if let Some(number) = step.gave {
        let word = in_words(alloc, &number)?;
        push_word(words, word.as_str())?;
    }
    Ok(())
}

// The numbers that steps gave.
fn gifts(alloc: Global, steps: &[Step]) -> Result<String, Fault> {
    let mut words = String::new(alloc);
    for step in steps {
        push_gift(alloc, &mut words, *step)?;
    }
    Ok(words)
}

// A cache with nothing in it.
fn empty(alloc: Global) -> Counted {
    Counted {
        cache: SizeCache::new(alloc),
        reserved: 0,
        consumed: 0,
    }
}

// The word of an answer; a row isn't in form whose steps name a slot that isn't reserved.
fn answer_of(alloc: Global, done: Result<(), Stop>) -> Result<String, Fault> {
    match done {
        Ok(()) => written::<()>(alloc, Ok(())),
        Err(Stop::Refused(error)) => written::<()>(alloc, Err(error)),
        Err(Stop::Form) => Err(Fault::Form),
    }
}

/// What steps on a cache give.
pub fn cache(alloc: Global, case: &Case<'_>, mark: &mut Mark) -> Result<Outcome, Fault> {
    let mut steps = steps_of(alloc, case.input())?;
    let mut before = steps_of(alloc, case.before())?;
    let mut cache = empty(alloc);
    if do_all(&mut cache, before.as_mut_slice()).is_err() {
        return Err(Fault::Form);
    }
    mark.begin(alloc);
    let done = do_all(&mut cache, steps.as_mut_slice());
    let refused = mark.end();
    let answer = answer_of(alloc, done);
    let words = gifts(alloc, steps.as_slice());
    Outcome::of_words(alloc, answer, words, Ok(String::new(alloc)), refused)
}
