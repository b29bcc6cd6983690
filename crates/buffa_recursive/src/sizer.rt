//! The size pass of messages that hold themselves.

ghost use Rattle.std.specs.Prelude.{◌≡◌, ◌<◌, ◌≤◌, [], ℕ, IsOk, Ok, length};
ghost use Rattle.std.specs.Option.{option_map};
ghost use Rattle.buffa_bytes.specs.Number.{IsNumber};
ghost use Rattle.buffa_wire.specs.Encoding.{records_encoding};
ghost use Rattle.buffa_wire.specs.Passes.{IsSized, cap};
ghost use Rattle.buffa_map.specs.Calls.{SizesMessages};
ghost use Rattle.buffa_fields.specs.Schema.{IsCounted, Seen, visited};
ghost use Rattle.buffa_fields.specs.facts.SchemaFacts.{comes_free};
ghost use Rattle.buffa_recursive.specs.RecursiveSchema.{children_shape, maybe_shape};
ghost use Rattle.buffa_recursive.specs.Fixpoint.{semantics};
ghost use Rattle.buffa_recursive.specs.InnerMessages.{encoding_by};

use crate::maps::map_counted;
use crate::one_of::case_counted;
use crate::recursive_fields::RecursiveFields;
use crate::recursive_meaning::RecursiveMeaning;
use crate::recursive_type::RecursiveType;
use crate::size_inner::{list_len, one_len};
use crate::visitor::RecursiveVisitor;
use buffa_fields::members::member::Member;
use buffa_fields::members::ordered_key::OrderedKey;
use buffa_fields::oneofs::one_of::OneOf;
use buffa_fields::passes::sizer::{kept_counted, member_counted};
use buffa_map::map_codec::MapCodec;
use buffa_wire::{EncodeError, SizeCache, UnknownFields};
use std::collections::BTreeMap;

// Adds the length of a list of messages to a sum.
fn list_counted<M: RecursiveType, F: Fn(&M, &mut SizeCache) -> Result<u32, EncodeError>>(
    total: u32,
    number: u32,
    list: &Vec<M>,
    cache: &mut SizeCache,
    size: F,
) -> Result<u32, EncodeError>
    requires number { IsNumber number }
    requires may { (x : _) (c : _) → M.schema.height x.now ≤ M.schema.children_height (M.schema.of_list list.now.items) →
        F.pre size x c }
    requires keeps { let w = semantics M.COST M.schema M.sound in
        SizesMessages (F.post size) (λ v. M.schema.height v ≤ M.schema.children_height (M.schema.of_list list.now.items))
        (λ m. m) (encoding_by w) w.slots }
    ensures { let s = children_shape M.schema (semantics M.COST M.schema M.sound) in
        (name : ℕ) (z : Seen) → IsCounted name (Ok total) cache.old z →
        IsCounted name result cache.new (visited s number (M.schema.of_list list.now.items) z) }
{
    let len = list_len(number, list.as_slice(), cache, size)?;
    Ok(total.saturating_add(len))
}

// Adds the length of a message, if it is there, to a sum.
fn one_counted<M: RecursiveType, F: Fn(&M, &mut SizeCache) -> Result<u32, EncodeError>>(
    total: u32,
    number: u32,
    one: &Option<Box<M>>,
    cache: &mut SizeCache,
    size: F,
) -> Result<u32, EncodeError>
    requires number { IsNumber number }
    requires may { (x : _) (c : _) →
        M.schema.height x.now ≤ M.schema.maybe_height (M.schema.of_option (option_map (λ b. b.value) one.now)) →
        F.pre size x c }
    requires keeps { let w = semantics M.COST M.schema M.sound in
        SizesMessages (F.post size)
        (λ v. M.schema.height v ≤ M.schema.maybe_height (M.schema.of_option (option_map (λ b. b.value) one.now))) (λ m. m)
        (encoding_by w) w.slots }
    ensures { let s = maybe_shape M.schema (semantics M.COST M.schema M.sound) in
        (name : ℕ) (z : Seen) → IsCounted name (Ok total) cache.old z →
        IsCounted name result cache.new (visited s number (M.schema.of_option (option_map (λ b. b.value) one.now)) z) }
{
    let len = one_len(number, one, cache, size)?;
    Ok(total.saturating_add(len))
}

// Adds lengths, up to 2^32 - 1, and puts those of messages into a cache that is lent, until memory runs out. A message inside
// is sized by a function.
#[derive(Drop)]
struct SizerBy<'a, F> {
    cache: &'a mut SizeCache,
    total: Result<u32, EncodeError>,
    size: F,
}

impl<'a, F> SizerBy<'a, F> {
    // Lends a cache.
    #[inline(always)]
    fn new(cache: &'a mut SizeCache, size: F) -> SizerBy<'a, F>
        ensures same_reference { result.cache.ghost_name ≡ cache.entry.ghost_name }
        ensures cache { result.cache.now ≡ cache.old }
        ensures total { result.total ≡ Ok 0 }
        ensures size { result.size ≡ size }
    {
        SizerBy {
            cache,
            total: Ok(0),
            size,
        }
    }
}

impl<F: Drop> SizerBy<'_, F> {
    // Ends the loan: the sum.
    #[inline(always)]
    fn finish(self) -> Result<u32, EncodeError>
        ensures result { result ≡ self.entry.total }
        ensures cache { self.exit.0.now ≡ self.entry.cache.now }
    {
        let SizerBy {
            cache: _,
            total,
            size: _,
        } = self;
        total
    }
}

impl<M: RecursiveMeaning, F: Fn(&M, &mut SizeCache) -> Result<u32, EncodeError>> RecursiveVisitor<M>
    for SizerBy<'_, F> {
    ghost IsAt = { λ z s. IsCounted s.cache.ghost_name s.total s.cache.now z };

    ghost Waits = { λ ss s. Unit {0} };

    ghost begins = { λ ss rest s h. comes_free ss s };

    ghost Reaches = { λ h s. let w = semantics M.RecursiveType.COST M.schema M.sound in
        ((x : _) (c : _) → M.schema.height x.now < h → F.pre s.size x c)
        × SizesMessages (F.post s.size) (λ v. M.schema.height v < h) (λ m. m) (encoding_by w) w.slots };

    #[inline(always)]
    fn visit<N: Member>(&mut self, number: u32, part: &N::Part) {
        self.total = member_counted::<N>(self.total, number, part, self.cache);
    }

    #[inline(always)]
    fn visit_one_of<E: OneOf>(&mut self, part: &Option<E>) {
        E::reads_back();
        self.total = case_counted(self.total, part, self.cache);
    }

    #[inline(always)]
    fn visit_list(&mut self, number: u32, part: &Vec<M>) {
        if let Ok(total) = self.total {
            self.total = list_counted(total, number, part, self.cache, &self.size);
        }
    }

    #[inline(always)]
    fn visit_one(&mut self, number: u32, part: &Option<Box<M>>) {
        if let Ok(total) = self.total {
            self.total = one_counted(total, number, part, self.cache, &self.size);
        }
    }

    #[inline(always)]
    fn visit_map<KC: MapCodec>(&mut self, number: u32, part: &BTreeMap<KC::Value, M>)
    where
        KC::Value: OrderedKey,
    {
        if let Ok(total) = self.total {
            self.total = map_counted::<KC, M, &F>(total, number, part, self.cache, &self.size);
        }
    }

    #[inline(always)]
    fn visit_unknown_fields(&mut self, fields: &UnknownFields) {
        self.total = kept_counted(self.total, fields);
    }
}

// Sizes all members.
#[inline(always)]
fn size_members<M: RecursiveFields, F: Fn(&M, &mut SizeCache) -> Result<u32, EncodeError>>(
    message: &M,
    sizer: &mut SizerBy<'_, F>,
)
    requires none { sizer.old.total ≡ Ok 0 }
    requires may { (x : _) (c : _) → M.schema.height x.now < M.schema.height message.now → F.pre sizer.old.size x c }
    requires keeps { let w = semantics M.COST M.schema M.sound in
        SizesMessages (F.post sizer.old.size) (λ v. M.schema.height v < M.schema.height message.now) (λ m. m)
        (encoding_by w) w.slots }
    ensures same_reference { sizer.new.cache.ghost_name ≡ sizer.old.cache.ghost_name }
    ensures sized { let w = semantics M.COST M.schema M.sound in
        IsSized (encoding_by w message.now) (w.slots message.now) sizer.old.cache.now sizer.new.total sizer.new.cache.now }
    ensures always { (semantics M.COST M.schema M.sound).slots message.now ≡ [] → IsOk sizer.new.total }
{
    message.visit(sizer);
}

// The size pass of a message, by a function that sizes a message inside.
fn size_by<M: RecursiveFields, F: Fn(&M, &mut SizeCache) -> Result<u32, EncodeError>>(
    message: &M,
    cache: &mut SizeCache,
    size: F,
) -> Result<u32, EncodeError>
    requires may { (x : _) (c : _) → M.schema.height x.now < M.schema.height message.now → F.pre size x c }
    requires keeps { let w = semantics M.COST M.schema M.sound in
        SizesMessages (F.post size) (λ v. M.schema.height v < M.schema.height message.now) (λ m. m) (encoding_by w) w.slots }
    ensures sized { let w = semantics M.COST M.schema M.sound in
        IsSized (encoding_by w message.now) (w.slots message.now) cache.old result cache.new }
    ensures always { (semantics M.COST M.schema M.sound).slots message.now ≡ [] → IsOk result }
{
    let mut sizer = SizerBy::new(cache, size);
    size_members(message, &mut sizer);
    sizer.finish()
}

// The size pass of a message: one that is inside another, or the outermost one.
pub(crate) fn size_self<M: RecursiveFields>(
    message: &M,
    cache: &mut SizeCache,
) -> Result<u32, EncodeError>
    ensures sized { let w = semantics M.COST M.schema M.sound in
        IsSized (encoding_by w message.now) (w.slots message.now) cache.old result cache.new }
    ensures always { (semantics M.COST M.schema M.sound).slots message.now ≡ [] → IsOk result }
{
    size_by(
        message,
        cache,
        |child: &M, cache: &mut SizeCache| -> Result<u32, EncodeError>
            ensures { let w = semantics M.COST M.schema M.sound in
                IsSized (encoding_by w child.now) (w.slots child.now) cache.old result cache.new }
        { size_self(child, cache) },
    )
}
