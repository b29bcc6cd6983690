//! The write pass of messages that hold themselves.

ghost use Rattle.std.specs.Prelude.{◌≡◌, ◌<◌, ◌≤◌, ◌++◌, ℕ, List, Ok};
ghost use Rattle.std.specs.Option.{option_map};
ghost use Rattle.buffa_bytes.specs.Number.{IsNumber};
ghost use Rattle.buffa_wire.specs.Passes.{IsNext, IsWritten};
ghost use Rattle.buffa_map.specs.Calls.{WritesMessages};
ghost use Rattle.buffa_fields.specs.Schema.{Follow, IsPut, Seen, visited};
ghost use Rattle.buffa_fields.specs.facts.SchemaFacts.{comes_front};
ghost use Rattle.buffa_recursive.specs.RecursiveSchema.{children_shape, maybe_shape};
ghost use Rattle.buffa_recursive.specs.Fixpoint.{semantics};
ghost use Rattle.buffa_recursive.specs.InnerMessages.{encoding_by};

use crate::maps::map_put;
use crate::one_of::case_put;
use crate::recursive_fields::RecursiveFields;
use crate::recursive_meaning::RecursiveMeaning;
use crate::recursive_type::RecursiveType;
use crate::visitor::RecursiveVisitor;
use crate::write_inner::{write_list, write_one};
use buffa_fields::members::member::Member;
use buffa_fields::members::ordered_key::OrderedKey;
use buffa_fields::oneofs::one_of::OneOf;
use buffa_fields::passes::writer::{kept_put, member_put};
use buffa_map::map_codec::MapCodec;
use buffa_wire::{EncodeError, EncodeSink, SizeCache, UnknownFields};
use std::collections::BTreeMap;

// Writes into a sink that is lent, by the sizes in a cache that is lent, until memory runs out. A message inside is written by
// a function.
#[derive(Drop)]
struct WriterBy<'a, S, F> {
    sink: &'a mut S,
    cache: &'a mut SizeCache,
    result: Result<(), EncodeError>,
    write: F,
}

impl<'a, S: EncodeSink, F> WriterBy<'a, S, F> {
    // Lends a sink and a cache.
    #[inline(always)]
    fn new(sink: &'a mut S, cache: &'a mut SizeCache, write: F) -> WriterBy<'a, S, F>
        ensures same_sink { result.sink.ghost_name ≡ sink.entry.ghost_name }
        ensures sink { result.sink.now ≡ sink.old }
        ensures same_cache { result.cache.ghost_name ≡ cache.entry.ghost_name }
        ensures cache { result.cache.now ≡ cache.old }
        ensures result { result.result ≡ Ok tt }
        ensures write { result.write ≡ write }
    {
        WriterBy {
            sink,
            cache,
            result: Ok(()),
            write,
        }
    }
}

impl<S: EncodeSink, F: Drop> WriterBy<'_, S, F> {
    // Ends the loans: whether all was written.
    #[inline(always)]
    fn finish(self) -> Result<(), EncodeError>
        ensures result { result ≡ self.entry.result }
        ensures sink { self.exit.0.now ≡ self.entry.sink.now }
        ensures cache { self.exit.1.0.now ≡ self.entry.cache.now }
    {
        let WriterBy {
            sink: _,
            cache: _,
            result,
            write: _,
        } = self;
        result
    }
}

// Writes a list of messages behind what was written.
fn list_put<
    M: RecursiveType,
    S: EncodeSink,
    F: Fn(&M, &mut SizeCache, &mut S) -> Result<(), EncodeError>,
>(
    number: u32,
    list: &Vec<M>,
    cache: &mut SizeCache,
    sink: &mut S,
    write: F,
) -> Result<(), EncodeError>
    requires number { IsNumber number }
    requires next { let s = children_shape M.schema (semantics M.COST M.schema M.sound) in
        IsNext (s.slots (M.schema.of_list list.now.items)) cache.old }
    requires may { let w = semantics M.COST M.schema M.sound in
        (x : _) (c : _) (s : _) → M.schema.height x.now ≤ M.schema.children_height (M.schema.of_list list.now.items) →
        IsNext (w.slots x.now) c.now → F.pre write x c s }
    requires keeps { let w = semantics M.COST M.schema M.sound in
        WritesMessages (F.post write) (λ v. M.schema.height v ≤ M.schema.children_height (M.schema.of_list list.now.items))
        (λ m. m) (encoding_by w) w.slots S.written }
    ensures seen { let s = children_shape M.schema (semantics M.COST M.schema M.sound) in
        (name of : ℕ) (z : Seen) → IsPut name of (S.written sink.old) cache.old (Ok tt) z →
        IsPut name of (S.written sink.new) cache.new result (visited s number (M.schema.of_list list.now.items) z) }
    ensures waits { let s = children_shape M.schema (semantics M.COST M.schema M.sound) in
        (rest : List ℕ) → Follow (s.slots (M.schema.of_list list.now.items) ++ rest) (Ok tt) cache.old →
        Follow rest result cache.new }
{
    write_list(number, list.as_slice(), cache, sink, write)
}

// Writes a message, if it is there, behind what was written.
fn one_put<
    M: RecursiveType,
    S: EncodeSink,
    F: Fn(&M, &mut SizeCache, &mut S) -> Result<(), EncodeError>,
>(
    number: u32,
    one: &Option<Box<M>>,
    cache: &mut SizeCache,
    sink: &mut S,
    write: F,
) -> Result<(), EncodeError>
    requires number { IsNumber number }
    requires next { let s = maybe_shape M.schema (semantics M.COST M.schema M.sound) in
        IsNext (s.slots (M.schema.of_option (option_map (λ b. b.value) one.now))) cache.old }
    requires may { let w = semantics M.COST M.schema M.sound in
        (x : _) (c : _) (s : _) →
        M.schema.height x.now ≤ M.schema.maybe_height (M.schema.of_option (option_map (λ b. b.value) one.now)) →
        IsNext (w.slots x.now) c.now → F.pre write x c s }
    requires keeps { let w = semantics M.COST M.schema M.sound in
        WritesMessages (F.post write)
        (λ v. M.schema.height v ≤ M.schema.maybe_height (M.schema.of_option (option_map (λ b. b.value) one.now))) (λ m. m)
        (encoding_by w) w.slots S.written }
    ensures seen { let s = maybe_shape M.schema (semantics M.COST M.schema M.sound) in
        (name of : ℕ) (z : Seen) → IsPut name of (S.written sink.old) cache.old (Ok tt) z →
        IsPut name of (S.written sink.new) cache.new result
        (visited s number (M.schema.of_option (option_map (λ b. b.value) one.now)) z) }
    ensures waits { let s = maybe_shape M.schema (semantics M.COST M.schema M.sound) in
        (rest : List ℕ) →
        Follow (s.slots (M.schema.of_option (option_map (λ b. b.value) one.now)) ++ rest) (Ok tt) cache.old →
        Follow rest result cache.new }
{
    write_one(number, one, cache, sink, write)
}

impl<
    M: RecursiveMeaning,
    S: EncodeSink,
    F: Fn(&M, &mut SizeCache, &mut S) -> Result<(), EncodeError>,
> RecursiveVisitor<M> for WriterBy<'_, S, F> {
    ghost IsAt = { λ z w. IsPut w.sink.ghost_name w.cache.ghost_name (S.written w.sink.now) w.cache.now w.result z };

    ghost Waits = { λ ss w. Follow ss w.result w.cache.now };

    ghost begins = { comes_front (λ w. w.result) (λ w. w.cache.now) };

    ghost Reaches = { λ h w. let t = semantics M.RecursiveType.COST M.schema M.sound in
        ((x : _) (c : _) (s : _) → M.schema.height x.now < h → IsNext (t.slots x.now) c.now → F.pre w.write x c s)
        × WritesMessages (F.post w.write) (λ v. M.schema.height v < h) (λ m. m) (encoding_by t) t.slots S.written };

    #[inline(always)]
    fn visit<N: Member>(&mut self, number: u32, part: &N::Part) {
        self.result = member_put::<N, S>(self.result, number, part, self.cache, self.sink);
    }

    #[inline(always)]
    fn visit_one_of<E: OneOf>(&mut self, part: &Option<E>) {
        E::reads_back();
        self.result = case_put(self.result, part, self.cache, self.sink);
    }

    #[inline(always)]
    fn visit_list(&mut self, number: u32, part: &Vec<M>) {
        if let Ok(()) = self.result {
            self.result = list_put(number, part, self.cache, self.sink, &self.write);
        }
    }

    #[inline(always)]
    fn visit_one(&mut self, number: u32, part: &Option<Box<M>>) {
        if let Ok(()) = self.result {
            self.result = one_put(number, part, self.cache, self.sink, &self.write);
        }
    }

    #[inline(always)]
    fn visit_map<KC: MapCodec>(&mut self, number: u32, part: &BTreeMap<KC::Value, M>)
    where
        KC::Value: OrderedKey,
    {
        if let Ok(()) = self.result {
            self.result = map_put::<KC, M, S, &F>(number, part, self.cache, self.sink, &self.write);
        }
    }

    #[inline(always)]
    fn visit_unknown_fields(&mut self, fields: &UnknownFields) {
        self.result = kept_put(self.result, fields, self.sink);
    }
}

// Writes all members.
#[inline(always)]
fn write_members<
    M: RecursiveFields,
    S: EncodeSink,
    F: Fn(&M, &mut SizeCache, &mut S) -> Result<(), EncodeError>,
>(message: &M, writer: &mut WriterBy<'_, S, F>)
    requires fresh { writer.old.result ≡ Ok tt }
    requires next { IsNext ((semantics M.COST M.schema M.sound).slots message.now) writer.old.cache.now }
    requires may { let w = semantics M.COST M.schema M.sound in
        (x : _) (c : _) (s : _) → M.schema.height x.now < M.schema.height message.now → IsNext (w.slots x.now) c.now →
        F.pre writer.old.write x c s }
    requires keeps { let w = semantics M.COST M.schema M.sound in
        WritesMessages (F.post writer.old.write) (λ v. M.schema.height v < M.schema.height message.now) (λ m. m)
        (encoding_by w) w.slots S.written }
    ensures same_sink { writer.new.sink.ghost_name ≡ writer.old.sink.ghost_name }
    ensures same_cache { writer.new.cache.ghost_name ≡ writer.old.cache.ghost_name }
    ensures written { let w = semantics M.COST M.schema M.sound in
        IsWritten (encoding_by w message.now) (w.slots message.now) writer.old.cache.now (S.written writer.old.sink.now)
        writer.new.result writer.new.cache.now (S.written writer.new.sink.now) }
{
    message.visit(writer);
}

// The write pass of a message, by a function that writes a message inside.
fn write_by<
    M: RecursiveFields,
    S: EncodeSink,
    F: Fn(&M, &mut SizeCache, &mut S) -> Result<(), EncodeError>,
>(message: &M, cache: &mut SizeCache, sink: &mut S, write: F) -> Result<(), EncodeError>
    requires next { IsNext ((semantics M.COST M.schema M.sound).slots message.now) cache.old }
    requires may { let w = semantics M.COST M.schema M.sound in
        (x : _) (c : _) (s : _) → M.schema.height x.now < M.schema.height message.now → IsNext (w.slots x.now) c.now →
        F.pre write x c s }
    requires keeps { let w = semantics M.COST M.schema M.sound in
        WritesMessages (F.post write) (λ v. M.schema.height v < M.schema.height message.now) (λ m. m) (encoding_by w)
        w.slots S.written }
    ensures { let w = semantics M.COST M.schema M.sound in
        IsWritten (encoding_by w message.now) (w.slots message.now) cache.old (S.written sink.old) result cache.new
        (S.written sink.new) }
{
    let mut writer = WriterBy::new(sink, cache, write);
    write_members(message, &mut writer);
    writer.finish()
}

// The write pass of a message: one that is inside another, or the outermost one.
pub(crate) fn write_self<M: RecursiveFields, S: EncodeSink>(
    message: &M,
    cache: &mut SizeCache,
    sink: &mut S,
) -> Result<(), EncodeError>
    requires { IsNext ((semantics M.COST M.schema M.sound).slots message.now) cache.old }
    ensures { let w = semantics M.COST M.schema M.sound in
        IsWritten (encoding_by w message.now) (w.slots message.now) cache.old (S.written sink.old) result cache.new
        (S.written sink.new) }
{
    write_by(
        message,
        cache,
        sink,
        |child: &M, cache: &mut SizeCache, sink: &mut S| -> Result<(), EncodeError>
            requires { IsNext ((semantics M.COST M.schema M.sound).slots child.now) cache.old }
            ensures { let w = semantics M.COST M.schema M.sound in
                IsWritten (encoding_by w child.now) (w.slots child.now) cache.old (S.written sink.old) result cache.new
                (S.written sink.new) }
        { write_self(child, cache, sink) },
    )
}
