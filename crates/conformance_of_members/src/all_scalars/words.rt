// Messages of all scalars as words; no message is read of a word.

use crate::all_scalars::AllScalars;
use conformance_messages::{Parted, Parts, parted_word};
use conformance_rows::fault::Fault;
use conformance_rows::words::Worded;
use sample_members::explicit::Explicit;
use sample_members::implicit::Implicit;
use sample_members::joined::Joined;
use sample_members::separate::Separate;
use std::alloc::Global;

impl Parted<AllScalars> for Explicit {
    fn parts(&self, parts: &mut Parts<AllScalars>) {
        parts.maybe(1, &self.int32);
        parts.maybe(2, &self.int64);
        parts.maybe(3, &self.uint32);
        parts.maybe(4, &self.uint64);
        parts.maybe(5, &self.sint32);
        parts.maybe(6, &self.sint64);
        parts.maybe(7, &self.truth);
        parts.maybe(8, &self.fixed32);
        parts.maybe(15, &self.fixed64);
        parts.maybe(16, &self.sfixed32);
        parts.maybe(536870911, &self.sfixed64);
        parts.kept(&self.unknown_fields);
    }
}

impl Worded<AllScalars> for Explicit {
    fn word(&self, alloc: Global) -> Result<String, Fault> {
        parted_word::<AllScalars, _>(alloc, self)
    }

    fn of_word(_alloc: Global, _word: &str) -> Result<Explicit, Fault> {
        Err(Fault::Form)
    }
}

impl Parted<AllScalars> for Implicit {
    fn parts(&self, parts: &mut Parts<AllScalars>) {
        parts.value(1, &self.int32);
        parts.value(2, &self.int64);
        parts.value(3, &self.uint32);
        parts.value(4, &self.uint64);
        parts.value(5, &self.sint32);
        parts.value(6, &self.sint64);
        parts.value(7, &self.truth);
        parts.value(8, &self.fixed32);
        parts.value(9, &self.fixed64);
        parts.value(10, &self.sfixed32);
        parts.value(11, &self.sfixed64);
    }
}

impl Worded<AllScalars> for Implicit {
    fn word(&self, alloc: Global) -> Result<String, Fault> {
        parted_word::<AllScalars, _>(alloc, self)
    }

    fn of_word(_alloc: Global, _word: &str) -> Result<Implicit, Fault> {
        Err(Fault::Form)
    }
}

impl Parted<AllScalars> for Joined {
    fn parts(&self, parts: &mut Parts<AllScalars>) {
        parts.list(1, self.int32.as_slice());
        parts.list(2, self.int64.as_slice());
        parts.list(3, self.uint32.as_slice());
        parts.list(4, self.uint64.as_slice());
        parts.list(5, self.sint32.as_slice());
        parts.list(6, self.sint64.as_slice());
        parts.list(7, self.truth.as_slice());
        parts.list(15, self.fixed32.as_slice());
        parts.list(16, self.fixed64.as_slice());
        parts.list(2047, self.sfixed32.as_slice());
        parts.list(2048, self.sfixed64.as_slice());
        parts.kept(&self.unknown_fields);
    }
}

impl Worded<AllScalars> for Joined {
    fn word(&self, alloc: Global) -> Result<String, Fault> {
        parted_word::<AllScalars, _>(alloc, self)
    }

    fn of_word(_alloc: Global, _word: &str) -> Result<Joined, Fault> {
        Err(Fault::Form)
    }
}

impl Parted<AllScalars> for Separate {
    fn parts(&self, parts: &mut Parts<AllScalars>) {
        parts.list(1, self.int32.as_slice());
        parts.list(2, self.int64.as_slice());
        parts.list(3, self.uint32.as_slice());
        parts.list(4, self.uint64.as_slice());
        parts.list(5, self.sint32.as_slice());
        parts.list(6, self.sint64.as_slice());
        parts.list(7, self.truth.as_slice());
        parts.list(8, self.fixed32.as_slice());
        parts.list(9, self.fixed64.as_slice());
        parts.list(10, self.sfixed32.as_slice());
        parts.list(11, self.sfixed64.as_slice());
    }
}

impl Worded<AllScalars> for Separate {
    fn word(&self, alloc: Global) -> Result<String, Fault> {
        parted_word::<AllScalars, _>(alloc, self)
    }

    fn of_word(_alloc: Global, _word: &str) -> Result<Separate, Fault> {
        Err(Fault::Form)
    }
}
