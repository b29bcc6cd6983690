// Failures as words; no failure is read of a word.

use crate::members::lists::numbers_word;
use conformance_messages::{Parted, Parts};
use conformance_rows::fault::Fault;
use conformance_rows::words::{Worded, copied, records_word, text_word};
use sample_recursive::failure::Failure;
use std::alloc::Global;
use std::marker::PhantomData;

/// The words of failures. It has a parameter for the reason that `Branches` has one.
pub struct Failures<T> {
    of: PhantomData<T>,
}

// The word of a failure behind which at most so many causes stand, each the one of that before it.
fn failure_word(alloc: Global, failure: &Failure, levels: u32) -> Result<String, Fault> {
    if levels == 0 {
        return copied(alloc, "..");
    }
    let cause = match &failure.cause {
        Some(cause) => failure_word(alloc, &**cause, levels - 1)?,
        None => copied(alloc, "none")?,
    };
    let reason = text_word(alloc, failure.reason.as_str())?;
    let lines = numbers_word(alloc, failure.lines.as_slice())?;
    let rest = records_word(alloc, &failure.unknown_fields)?;
    Ok(format!(in alloc; "({reason}|{cause}|[{lines}]|{rest})")?)
}

impl<T> Worded<Failures<T>> for Failure {
    fn word(&self, alloc: Global) -> Result<String, Fault> {
        failure_word(alloc, self, 102)
    }

    fn of_word(_alloc: Global, _word: &str) -> Result<Failure, Fault> {
        Err(Fault::Form)
    }
}

impl<T> Parted<Failures<T>> for Failure {
    fn parts(&self, parts: &mut Parts<Failures<T>>) {
        parts.value(1, &self.reason);
        match &self.cause {
            Some(cause) => parts.value(2, &**cause),
            None => parts.maybe::<Failure>(2, &None),
        }
        parts.list(3, self.lines.as_slice());
        parts.kept(&self.unknown_fields);
    }
}
