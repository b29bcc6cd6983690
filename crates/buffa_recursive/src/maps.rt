//! Members that are maps of the message's own type.

ghost use Rattle.std.specs.Prelude.{◌≡◌, ◌+◌, ◌≤◌, ◌++◌, ℕ, List, Ok};
ghost use Rattle.buffa_bytes.specs.Number.{IsNumber};
ghost use Rattle.buffa_wire.specs.BudgetLeft.{budget_left};
ghost use Rattle.buffa_wire.specs.Message.{MergesBytes};
ghost use Rattle.buffa_wire.specs.Passes.{IsNext};
ghost use Rattle.buffa_map.specs.Calls.{SizesMessages, WritesMessages};
ghost use Rattle.buffa_map.specs.Pairs.{means};
ghost use Rattle.buffa_fields.specs.Schema.{Follow, IsCounted, IsPut, Seen, Took, visited};
ghost use Rattle.buffa_recursive.specs.RecursiveSchema.{map_shape};
ghost use Rattle.buffa_recursive.specs.Fixpoint.{semantics};
ghost use Rattle.buffa_recursive.specs.InnerMessages.{encoding_by};

use crate::inner_merger::InnerMerger;
use crate::map_keys::{ByKey, Keyed};
use crate::ordered_maps::{pairs_len_by, take_pair_by, write_pairs_by};
use crate::recursive_meaning::RecursiveMeaning;
use buffa_fields::members::ordered_key::OrderedKey;
use buffa_map::map_codec::MapCodec;
use buffa_wire::{Budget, DecodeContext, DecodeError, EncodeError, EncodeSink, SizeCache, Tag};
use std::alloc::Global;
use std::collections::BTreeMap;

// Adds the length of a map of messages to a sum. Only memory can run out: an error that is named here, and not handed on, is
// a constant, which costs a message that is sized nothing on its way out.
pub(crate) fn map_counted<'a, KC: MapCodec, M: RecursiveMeaning + 'a, F>(
    total: u32,
    number: u32,
    map: &'a BTreeMap<KC::Value, M>,
    cache: &mut SizeCache,
    size: F,
) -> Result<u32, EncodeError>
where
    KC::Value: OrderedKey + 'a,
    F: Fn(&M, &mut SizeCache) -> Result<u32, EncodeError>,
    requires number { IsNumber number }
    requires may { let ps = means KC.Value.meaning M.meaning map.now.entries in
        (x : _) (c : _) → M.schema.height x.now ≤ M.schema.pairs_height (M.schema.of_pairs ps) → F.pre size x c }
    requires keeps { let ps = means KC.Value.meaning M.meaning map.now.entries in
        let w = semantics M.RecursiveType.COST M.schema M.sound in
        SizesMessages (F.post size) (λ v. M.schema.height v ≤ M.schema.pairs_height (M.schema.of_pairs ps)) (λ m. m)
        (encoding_by w) w.slots }
    ensures { let s = map_shape M.schema ⟦<ByKey<KC> as Keyed>⟧.keys (semantics M.RecursiveType.COST M.schema M.sound) in
        (name : ℕ) (z : Seen) → IsCounted name (Ok total) cache.old z →
        IsCounted name result cache.new (visited s number (M.schema.of_pairs (means KC.Value.meaning M.meaning map.now.entries)) z) }
{
    match pairs_len_by::<KC, M, F>(number, map, cache, size) {
        Ok(len) => Ok(total.saturating_add(len)),
        Err(_) => Err(EncodeError::OutOfMemory),
    }
}

// Writes a map of messages behind what was written. Here too the one error is named.
pub(crate) fn map_put<'a, KC: MapCodec, M: RecursiveMeaning + 'a, S: EncodeSink, F>(
    number: u32,
    map: &'a BTreeMap<KC::Value, M>,
    cache: &mut SizeCache,
    sink: &mut S,
    write: F,
) -> Result<(), EncodeError>
where
    KC::Value: OrderedKey + 'a,
    F: Fn(&M, &mut SizeCache, &mut S) -> Result<(), EncodeError>,
    requires number { IsNumber number }
    requires next { let s = map_shape M.schema ⟦<ByKey<KC> as Keyed>⟧.keys (semantics M.RecursiveType.COST M.schema M.sound) in
        IsNext (s.slots (M.schema.of_pairs (means KC.Value.meaning M.meaning map.now.entries))) cache.old }
    requires may { let ps = means KC.Value.meaning M.meaning map.now.entries in
        let w = semantics M.RecursiveType.COST M.schema M.sound in
        (x : _) (c : _) (s : _) → M.schema.height x.now ≤ M.schema.pairs_height (M.schema.of_pairs ps) →
        IsNext (w.slots x.now) c.now → F.pre write x c s }
    requires keeps { let ps = means KC.Value.meaning M.meaning map.now.entries in
        let w = semantics M.RecursiveType.COST M.schema M.sound in
        WritesMessages (F.post write) (λ v. M.schema.height v ≤ M.schema.pairs_height (M.schema.of_pairs ps)) (λ m. m)
        (encoding_by w) w.slots S.written }
    ensures seen { let s = map_shape M.schema ⟦<ByKey<KC> as Keyed>⟧.keys (semantics M.RecursiveType.COST M.schema M.sound) in
        (name of : ℕ) (z : Seen) → IsPut name of (S.written sink.old) cache.old (Ok tt) z →
        IsPut name of (S.written sink.new) cache.new result
        (visited s number (M.schema.of_pairs (means KC.Value.meaning M.meaning map.now.entries)) z) }
    ensures waits { let s = map_shape M.schema ⟦<ByKey<KC> as Keyed>⟧.keys (semantics M.RecursiveType.COST M.schema M.sound) in
        (rest : List ℕ) → Follow (s.slots (M.schema.of_pairs (means KC.Value.meaning M.meaning map.now.entries)) ++ rest) (Ok tt) cache.old →
        Follow rest result cache.new }
{
    match write_pairs_by::<KC, M, S, F>(number, map, cache, sink, write) {
        Ok(()) => Ok(()),
        Err(_) => Err(EncodeError::OutOfMemory),
    }
}

/// Merges the entry of the field whose tag was read: its message into a default one, which takes the place of the key's.
///
/// # Errors
/// [`DecodeError::WireTypeMismatch`] where the field isn't a length and so many bytes; else those of an entry. The map is as
/// it was.
///
/// ```ignore
/// 5 => take_map::<Int32, Outline, I>(&mut self.by_number, alloc, tag, buf, ctx, inner),
/// ```
pub fn take_map<KC: MapCodec, M: RecursiveMeaning, I: InnerMerger<M>>(
    map: &mut BTreeMap<KC::Value, M>,
    alloc: Global,
    tag: Tag,
    buf: &mut &[u8],
    ctx: DecodeContext<'_>,
    inner: &I,
) -> Result<(), DecodeError>
where
    KC::Value: OrderedKey,
    requires { (d : ℕ) → d + 1 ≡ ctx.depth → I.may inner.now d }
    ensures { let s = map_shape M.schema ⟦<ByKey<KC> as Keyed>⟧.keys (semantics M.RecursiveType.COST M.schema M.sound) in
        Took s ctx.entry.depth (M.schema.of_pairs (means KC.Value.meaning M.meaning map.old.entries)) tag.number
        tag.wire_type buf.old.now ctx.entry.budget.now result
        (M.schema.of_pairs (means KC.Value.meaning M.meaning map.new.entries)) (budget_left ctx.exit) buf.new.now }
{
    let DecodeContext { depth, budget } = ctx;
    take_pair_by::<KC, M, _>(
        alloc,
        map,
        tag,
        buf,
        depth,
        budget,
        |child: &mut M, bytes: &[u8], depth: u32, budget: &mut Budget| -> Result<(), DecodeError>
            requires { I.may inner.now depth }
            ensures { let t = semantics M.RecursiveType.COST M.schema M.sound in
                MergesBytes t.merged t.cost depth child.old bytes.now budget.old result child.new budget.new }
        { inner.merge(alloc, child, bytes, depth, budget) },
    )
}
