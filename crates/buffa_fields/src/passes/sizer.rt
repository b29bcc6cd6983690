//! The size pass.

ghost use Rattle.std.specs.Prelude.{◌≡◌, [], Ok, ℕ};
ghost use Rattle.buffa_bytes.specs.Number.{IsNumber};
ghost use Rattle.buffa_wire.specs.Cache.{Cache};
ghost use Rattle.buffa_fields.specs.Schema.{IsCounted, Seen, more, visited};
ghost use Rattle.buffa_fields.specs.facts.SchemaFacts.{comes_free};

use crate::members::member::Member;
use crate::messages::unknown::kept_len;
use crate::passes::visitor::Visitor;
use buffa_wire::{EncodeError, SizeCache, UnknownFields};

/// Adds the length of a member to a sum, unless memory ran out.
#[inline(always)]
#[tactic(auto, using(crate::specs::facts::SchemaFacts::is_counted, crate::specs::facts::SchemaFacts::counted_err, crate::specs::facts::SchemaFacts::counted_none))]
pub fn member_counted<M: Member>(
    total: Result<u32, EncodeError>,
    number: u32,
    part: &M::Part,
    cache: &mut SizeCache,
) -> Result<u32, EncodeError>
    requires { IsNumber number }
    ensures { (name : ℕ) (z : Seen) → IsCounted name total cache.old z →
        IsCounted name result cache.new (visited M.shape number part.now z) }
{
    let total = total?;
    let len = M::len(number, part, cache)?;
    Ok(total.saturating_add(len))
}

/// Adds the length of the fields that were kept.
#[inline(always)]
#[tactic(auto, using(crate::specs::facts::SchemaFacts::is_counted, crate::specs::facts::SchemaFacts::sized_free, crate::specs::facts::SchemaFacts::counted_none))]
pub fn kept_counted(
    total: Result<u32, EncodeError>,
    fields: &UnknownFields,
) -> Result<u32, EncodeError>
    ensures { (name : ℕ) (cache : Cache) (z : Seen) → IsCounted name total cache z →
        IsCounted name result cache (more fields.now.records [] z) }
{
    let total = total?;
    Ok(total.saturating_add(kept_len(fields)))
}

/// Adds lengths, up to 2^32 - 1, and puts those of messages into a cache that is lent, until memory runs out.
#[derive(Drop)]
pub struct Sizer<'a> {
    cache: &'a mut SizeCache,
    total: Result<u32, EncodeError>,
}

impl<'a> Sizer<'a> {
    /// Lends a cache.
    #[inline(always)]
    pub fn new(cache: &'a mut SizeCache) -> Sizer<'a>
        ensures same_reference { result.cache.ghost_name ≡ cache.entry.ghost_name }
        ensures cache { result.cache.now ≡ cache.old }
        ensures total { result.total ≡ Ok 0 }
    {
        Sizer {
            cache,
            total: Ok(0),
        }
    }
}

impl Sizer<'_> {
    /// Ends the loan: the sum.
    ///
    /// # Errors
    /// [`EncodeError::OutOfMemory`] alone.
    #[inline(always)]
    pub fn finish(self) -> Result<u32, EncodeError>
        ensures result { result ≡ self.entry.total }
        ensures cache { self.exit.0.now ≡ self.entry.cache.now }
    {
        let Sizer { cache: _, total } = self;
        total
    }
}

impl Visitor for Sizer<'_> {
    ghost IsAt = { λ z s. IsCounted s.cache.ghost_name s.total s.cache.now z };

    ghost Waits = { λ ss s. Unit {0} };

    ghost begins = { λ ss rest s h. comes_free ss s };

    #[inline(always)]
    fn visit<M: Member>(&mut self, number: u32, part: &M::Part) {
        self.total = member_counted::<M>(self.total, number, part, self.cache);
    }

    #[inline(always)]
    fn visit_unknown_fields(&mut self, fields: &UnknownFields) {
        self.total = kept_counted(self.total, fields);
    }
}
