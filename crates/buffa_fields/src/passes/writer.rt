//! The write pass.

ghost use Rattle.std.specs.Prelude.{◌≡◌, ◌++◌, [], List, Ok, ℕ};
ghost use Rattle.buffa_bytes.specs.Number.{IsNumber};
ghost use Rattle.buffa_wire.specs.Cache.{Cache};
ghost use Rattle.buffa_fields.specs.Schema.{Comes, Follow, IsPut, Seen, more, visited};
ghost use Rattle.buffa_fields.specs.facts.SchemaFacts.{comes_front};

use crate::members::member::Member;
use crate::passes::visitor::Visitor;
use buffa_wire::{EncodeError, EncodeSink, SizeCache, UnknownFields};

/// Writes a member behind what was written, unless memory ran out.
#[inline(always)]
#[tactic(auto, using(crate::specs::facts::SchemaFacts::is_put, crate::specs::facts::SchemaFacts::put_none, crate::specs::facts::SchemaFacts::follow_first, crate::specs::facts::SchemaFacts::follow_rest, crate::specs::facts::SchemaFacts::follow_none))]
pub fn member_put<M: Member, S: EncodeSink>(
    written: Result<(), EncodeError>,
    number: u32,
    part: &M::Part,
    cache: &mut SizeCache,
    sink: &mut S,
) -> Result<(), EncodeError>
    requires number { IsNumber number }
    requires comes { Comes (λ ss c. Follow ss written c) (M.shape.slots (M.shape.meaning part.now)) cache.old }
    ensures seen { (name of : ℕ) (z : Seen) → IsPut name of (S.written sink.old) cache.old written z →
        IsPut name of (S.written sink.new) cache.new result (visited M.shape number part.now z) }
    ensures waits { (rest : List ℕ) → Follow (M.shape.slots (M.shape.meaning part.now) ++ rest) written cache.old →
        Follow rest result cache.new }
{
    written?;
    M::write_to(number, part, cache, sink)
}

/// Writes the fields that were kept.
#[inline(always)]
#[tactic(auto, using(crate::specs::facts::SchemaFacts::is_put, crate::specs::facts::SchemaFacts::put_none, buffa_wire::proofs::PassLemmas::written_put, crate::specs::facts::SchemaFacts::follow_rest, crate::specs::facts::SchemaFacts::follow_none))]
pub fn kept_put<S: EncodeSink>(
    written: Result<(), EncodeError>,
    fields: &UnknownFields,
    sink: &mut S,
) -> Result<(), EncodeError>
    ensures seen { (name of : ℕ) (cache : Cache) (z : Seen) → IsPut name of (S.written sink.old) cache written z →
        IsPut name of (S.written sink.new) cache result (more fields.now.records [] z) }
    ensures waits { (rest : List ℕ) (cache : Cache) → Follow rest written cache → Follow rest result cache }
{
    written?;
    fields.write_to(sink)
}

/// Writes into a sink that is lent, by the sizes in a cache that is lent, until memory runs out.
#[derive(Drop)]
pub struct Writer<'a, S> {
    sink: &'a mut S,
    cache: &'a mut SizeCache,
    result: Result<(), EncodeError>,
}

impl<'a, S: EncodeSink> Writer<'a, S> {
    /// Lends a sink and a cache.
    #[inline(always)]
    pub fn new(sink: &'a mut S, cache: &'a mut SizeCache) -> Writer<'a, S>
        ensures same_sink { result.sink.ghost_name ≡ sink.entry.ghost_name }
        ensures sink { result.sink.now ≡ sink.old }
        ensures same_cache { result.cache.ghost_name ≡ cache.entry.ghost_name }
        ensures cache { result.cache.now ≡ cache.old }
        ensures result { result.result ≡ Ok tt }
    {
        Writer {
            sink,
            cache,
            result: Ok(()),
        }
    }
}

impl<S: EncodeSink> Writer<'_, S> {
    /// Ends the loans: whether all was written.
    ///
    /// # Errors
    /// [`EncodeError::OutOfMemory`] alone.
    #[inline(always)]
    pub fn finish(self) -> Result<(), EncodeError>
        ensures result { result ≡ self.entry.result }
        ensures sink { self.exit.0.now ≡ self.entry.sink.now }
        ensures cache { self.exit.1.0.now ≡ self.entry.cache.now }
    {
        let Writer {
            sink: _,
            cache: _,
            result,
        } = self;
        result
    }
}

impl<S: EncodeSink> Visitor for Writer<'_, S> {
    ghost IsAt = { λ z w. IsPut w.sink.ghost_name w.cache.ghost_name (S.written w.sink.now) w.cache.now w.result z };

    ghost Waits = { λ ss w. Follow ss w.result w.cache.now };

    ghost begins = { comes_front (λ w. w.result) (λ w. w.cache.now) };

    #[inline(always)]
    fn visit<M: Member>(&mut self, number: u32, part: &M::Part) {
        self.result = member_put::<M, S>(self.result, number, part, self.cache, self.sink);
    }

    #[inline(always)]
    fn visit_unknown_fields(&mut self, fields: &UnknownFields) {
        self.result = kept_put(self.result, fields, self.sink);
    }
}
