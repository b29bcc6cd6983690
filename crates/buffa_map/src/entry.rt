//! One entry of a map field.

ghost use Rattle.std.specs.Prelude.{◌≡◌, ◌+◌, ◌<◌, ◌≤◌, ℕ, List, Ok, [], IfErr, IfOk, OnErr, OnOk, false, is_some, true};
ghost use Rattle.buffa_bytes.specs.declared.error.DecodeError.TheVariants.{ElementMemoryLimitExceeded, OutOfMemory};
ghost use Rattle.buffa_bytes.specs.Readings.{varint_at};
ghost use Rattle.buffa_wire.specs.BudgetLeft.{budget_left, plus, units};
ghost use Rattle.buffa_map.specs.Entry.{entry_meaning};
ghost use Rattle.buffa_map.specs.Merge.{MergesEntry, MergesWhole, RefusesEntry, RefusesWhole, rules, state};
ghost use Rattle.buffa_map.specs.PassedList.{records_before, records_after, capacity_before, capacity_after};
ghost use Rattle.buffa_map.specs.Pairs.{InOrder, SamePairs, put};
ghost use Rattle.buffa_map.specs.EntryFieldsSpent.{ReadsCut, ReadsParts, RefusesCut, RefusesParts};

use crate::codec::{MapCodec, MapValueDecode};
use crate::entry_fields::merge_fields;
use crate::keep::{Dropped, Keeper};
use crate::map_entry::MapEntry;
use crate::merge_value::{ByCodec, MergeValue};
use crate::storage::MapStorage;
use buffa_bytes::buf::{copy_bytes, front};
use buffa_wire::{Budget, Buf, DecodeContext, DecodeError, Limited, UnknownFields, decode_varint};
use std::alloc::Global;

// Spends the cost of a pair. A sum of 2^64 or more is more than any budget has.
fn charge(budget: &mut Budget, key: usize, value: usize) -> Result<(), DecodeError>
    ensures ok { OnOk result ((budget.new.memory + (key + value) ≡ budget.old.memory)
        × (budget.new.unknown ≡ budget.old.unknown)) }
    ensures err { OnErr result ((budget.old.memory < key + value) × (budget.new ≡ budget.old)) }
    ensures which { IfErr result (λ e. e ≡ ElementMemoryLimitExceeded) }
{
    // for the proof: what is left is a `usize`, so it is less than a sum that isn't one
    let _left = budget.memory_left();
    match key.checked_add(value) {
        Some(cost) => budget.take_memory(cost),
        None => Err(DecodeError::ElementMemoryLimitExceeded),
    }
}

// Spends the cost of a pair, and reads the fields of an entry, all that is left of the bytes.
#[inline(always)]
fn read_parts<KC: MapCodec, W: MergeValue, B: Buf>(
    alloc: Global,
    buf: &mut B,
    ctx: DecodeContext<'_>,
    how: &W,
) -> Result<MapEntry<KC::Value, W::Value>, DecodeError>
    requires { W.may how.now ctx.depth }
    ensures ok { IfOk result (λ parts. ReadsParts KC.reading W.reading ctx.entry.depth (KC.COST + W.COST) (B.unread buf.old)
        ctx.entry.budget.now (entry_meaning KC.Value.meaning W.Value.meaning parts) (budget_left ctx.exit)) }
    ensures err { IfErr result (RefusesParts KC.reading W.reading ctx.entry.depth (KC.COST + W.COST)
        (B.unread buf.old) ctx.entry.budget.now (budget_left ctx.exit)) }
    ensures kept { B.beyond buf.new ≡ B.beyond buf.old }
{
    let DecodeContext { depth, budget } = ctx;
    charge(&mut *budget, KC::COST, W::COST)?;
    let lent = DecodeContext { depth, budget };
    merge_fields::<KC, W, B>(alloc, buf, lent, how)
}

// The same of an entry of `len` bytes, which is read as it comes; what is left of it is passed over.
fn read_cut<KC: MapCodec, W: MergeValue, B: Buf>(
    alloc: Global,
    buf: &mut B,
    len: u64,
    ctx: DecodeContext<'_>,
    how: &W,
) -> Result<MapEntry<KC::Value, W::Value>, DecodeError>
    requires { W.may how.now ctx.depth }
    ensures ok { IfOk result (λ parts. ReadsCut KC.reading W.reading ctx.entry.depth (KC.COST + W.COST) len (B.unread buf.old)
        ctx.entry.budget.now (entry_meaning KC.Value.meaning W.Value.meaning parts) (budget_left ctx.exit) (B.unread buf.new)) }
    ensures err { IfErr result (RefusesCut KC.reading W.reading ctx.entry.depth (KC.COST + W.COST)
        len (B.unread buf.old) ctx.entry.budget.now (budget_left ctx.exit) (B.unread buf.new)) }
    ensures kept { B.beyond buf.new ≡ B.beyond buf.old }
{
    if len > buf.remaining() as u64 {
        return Err(DecodeError::UnexpectedEof);
    }
    let mut entry = Limited::new(buf, len as usize);
    let parts = read_parts::<KC, W, Limited<'_, B>>(alloc, &mut entry, ctx, how);
    entry.finish();
    parts
}

// Puts the pair of an entry.
#[inline(always)]
fn put_pair<C: MapStorage>(
    map: &mut C,
    parts: MapEntry<C::Key, C::Value>,
) -> Result<(), DecodeError>
    ensures ok { OnOk result (SamePairs C.equal
        (put C.equal (C.pairs map.old) (C.Key.meaning parts.key) (C.Value.meaning parts.value)) (C.pairs map.new)) }
    ensures order { OnOk result (InOrder C.keeps_order
        (put C.equal (C.pairs map.old) (C.Key.meaning parts.key) (C.Value.meaning parts.value)) (C.pairs map.new)) }
    ensures err { OnErr result (C.pairs map.new ≡ C.pairs map.old) }
    ensures full { IfErr result (λ e. e ≡ OutOfMemory) }
{
    Ok(map.storage_insert(parts.key, parts.value)?)
}

// Merges an entry, all of the bytes, whose cost was spent before: its pair is put, and one that is undeclared goes to the
// keeper.
#[inline(always)]
fn merge_charged<
    KC: MapCodec,
    W: MergeValue,
    C: MapStorage<Key = KC::Value, Value = W::Value>,
    L: Keeper,
>(
    alloc: Global,
    map: &mut C,
    entry: &[u8],
    ctx: DecodeContext<'_>,
    number: u32,
    how: &W,
    keeper: &mut L,
) -> Result<(), DecodeError>
    requires { W.may how.now ctx.depth }
    ensures ok { OnOk result (MergesWhole
        (rules (KC.reading, KC.COST) (W.reading, W.COST) (C.equal, C.keeps_order) ctx.entry.depth number L.KEEPS)
        (state (C.pairs map.old) (L.records keeper.old) (plus (units (KC.COST + W.COST)) ctx.entry.budget.now)) entry.now
        (state (C.pairs map.new) (L.records keeper.new) (budget_left ctx.exit))) }
    ensures err { IfErr result (RefusesWhole
        (rules (KC.reading, KC.COST) (W.reading, W.COST) (C.equal, C.keeps_order) ctx.entry.depth number L.KEEPS)
        (state (C.pairs map.old) (L.records keeper.old) (plus (units (KC.COST + W.COST)) ctx.entry.budget.now)) entry.now
        (state (C.pairs map.new) (L.records keeper.new) (budget_left ctx.exit))) }
    ensures room { L.room keeper.old ≤ L.room keeper.new }
{
    let DecodeContext { depth, budget } = ctx;
    let lent = DecodeContext {
        depth,
        budget: &mut *budget,
    };
    let mut rest = entry;
    let parts = merge_fields::<KC, W, &[u8]>(alloc, &mut rest, lent, how)?;
    if !parts.known {
        return keeper.keep(alloc, number, entry, budget);
    }
    put_pair(map, parts)
}

// Spends the cost of an entry, all of the bytes, and merges it.
fn merge_whole<
    KC: MapCodec,
    W: MergeValue,
    C: MapStorage<Key = KC::Value, Value = W::Value>,
    L: Keeper,
>(
    alloc: Global,
    map: &mut C,
    entry: &[u8],
    ctx: DecodeContext<'_>,
    number: u32,
    how: &W,
    keeper: &mut L,
) -> Result<(), DecodeError>
    requires { W.may how.now ctx.depth }
    ensures ok { OnOk result (MergesWhole
        (rules (KC.reading, KC.COST) (W.reading, W.COST) (C.equal, C.keeps_order) ctx.entry.depth number L.KEEPS)
        (state (C.pairs map.old) (L.records keeper.old) ctx.entry.budget.now) entry.now
        (state (C.pairs map.new) (L.records keeper.new) (budget_left ctx.exit))) }
    ensures err { IfErr result (RefusesWhole
        (rules (KC.reading, KC.COST) (W.reading, W.COST) (C.equal, C.keeps_order) ctx.entry.depth number L.KEEPS)
        (state (C.pairs map.old) (L.records keeper.old) ctx.entry.budget.now) entry.now
        (state (C.pairs map.new) (L.records keeper.new) (budget_left ctx.exit))) }
    ensures room { L.room keeper.old ≤ L.room keeper.new }
{
    let DecodeContext { depth, budget } = ctx;
    charge(&mut *budget, KC::COST, W::COST)?;
    let lent = DecodeContext { depth, budget };
    merge_charged::<KC, W, C, L>(alloc, map, entry, lent, number, how, keeper)
}

// The same of a cut entry of `len` bytes that may be kept: it is copied, since it is kept as it came, and charged before that, so
// that the charge stays spent where memory for the copy runs out.
fn merge_copy<
    KC: MapCodec,
    W: MergeValue,
    C: MapStorage<Key = KC::Value, Value = W::Value>,
    B: Buf,
    L: Keeper,
>(
    alloc: Global,
    map: &mut C,
    buf: &mut B,
    len: u64,
    ctx: DecodeContext<'_>,
    number: u32,
    how: &W,
    keeper: &mut L,
) -> Result<(), DecodeError>
    requires may { W.may how.now ctx.depth }
    requires keeps { L.KEEPS ≡ true }
    requires undeclared { W.MAY_RETURN_UNKNOWN ≡ true }
    ensures ok { OnOk result ((bytes : List ℕ) → varint_at bytes ≡ Ok (len, B.unread buf.old) → MergesEntry
        (rules (KC.reading, KC.COST) (W.reading, W.COST) (C.equal, C.keeps_order) ctx.entry.depth number L.KEEPS)
        (state (C.pairs map.old) (L.records keeper.old) ctx.entry.budget.now) bytes
        (state (C.pairs map.new) (L.records keeper.new) (budget_left ctx.exit)) (B.unread buf.new)) }
    ensures err { IfErr result (λ f. (bytes : List ℕ) → varint_at bytes ≡ Ok (len, B.unread buf.old) → RefusesEntry
        (rules (KC.reading, KC.COST) (W.reading, W.COST) (C.equal, C.keeps_order) ctx.entry.depth number L.KEEPS)
        (state (C.pairs map.old) (L.records keeper.old) ctx.entry.budget.now) bytes
        (state (C.pairs map.new) (L.records keeper.new) (budget_left ctx.exit)) (B.unread buf.new) f) }
    ensures room { L.room keeper.old ≤ L.room keeper.new }
    ensures kept { B.beyond buf.new ≡ B.beyond buf.old }
{
    if len > buf.remaining() as u64 {
        return Err(DecodeError::UnexpectedEof);
    }
    let DecodeContext { depth, budget } = ctx;
    if let Err(fault) = charge(&mut *budget, KC::COST, W::COST) {
        buf.advance(len as usize);
        return Err(fault);
    }
    let entry = copy_bytes(alloc, buf, len)?;
    let lent = DecodeContext { depth, budget };
    merge_charged::<KC, W, C, L>(alloc, map, &entry, lent, number, how, keeper)
}

// Merges one entry; one that is undeclared goes to the keeper. It is read where it lies, and copied only
// where it is cut and may be kept. Its cost is spent as soon as the entry is there, before anything is copied or read.
pub(crate) fn merge_entry_by<
    KC: MapCodec,
    W: MergeValue,
    C: MapStorage<Key = KC::Value, Value = W::Value>,
    B: Buf,
    L: Keeper,
>(
    alloc: Global,
    map: &mut C,
    buf: &mut B,
    ctx: DecodeContext<'_>,
    number: u32,
    how: &W,
    keeper: &mut L,
) -> Result<(), DecodeError>
    requires { W.may how.now ctx.depth }
    ensures ok { OnOk result (MergesEntry
        (rules (KC.reading, KC.COST) (W.reading, W.COST) (C.equal, C.keeps_order) ctx.entry.depth number L.KEEPS)
        (state (C.pairs map.old) (L.records keeper.old) ctx.entry.budget.now) (B.unread buf.old)
        (state (C.pairs map.new) (L.records keeper.new) (budget_left ctx.exit)) (B.unread buf.new)) }
    ensures err { IfErr result (RefusesEntry
        (rules (KC.reading, KC.COST) (W.reading, W.COST) (C.equal, C.keeps_order) ctx.entry.depth number L.KEEPS)
        (state (C.pairs map.old) (L.records keeper.old) ctx.entry.budget.now) (B.unread buf.old)
        (state (C.pairs map.new) (L.records keeper.new) (budget_left ctx.exit)) (B.unread buf.new)) }
    ensures room { L.room keeper.old ≤ L.room keeper.new }
    ensures kept { B.beyond buf.new ≡ B.beyond buf.old }
{
    let len = decode_varint(buf)?;
    if let Some(entry) = front(buf, len) {
        let merged = merge_whole::<KC, W, C, L>(alloc, map, entry, ctx, number, how, keeper);
        buf.advance(len as usize);
        return merged;
    }
    if L::KEEPS && W::MAY_RETURN_UNKNOWN {
        return merge_copy::<KC, W, C, B, L>(alloc, map, buf, len, ctx, number, how, keeper);
    }
    let parts = read_cut::<KC, W, B>(alloc, buf, len, ctx, how)?;
    if !parts.known {
        return Ok(());
    }
    put_pair(map, parts)
}

/// Merges one entry of a map field, its length varint first, into the map.
///
/// Key and value start as defaults, each occurrence is merged in order, and other fields are skipped at
/// the context's depth. A declared pair is put into the map; one with a value that is undeclared is
/// dropped. Each entry costs `KC::COST + VC::COST` units of element memory, and what its messages cost.
/// The contract's `number` is 0, since no entry is kept under a number.
///
/// # Errors
/// The first of these, in this order: the faults of the length's varint; [`DecodeError::UnexpectedEof`]
/// where the length passes what is left; [`DecodeError::ElementMemoryLimitExceeded`] where the units
/// aren't left; the first fault of the entry's fields. Or [`DecodeError::OutOfMemory`]. A fault inside a
/// message may be told as another error, but not as [`DecodeError::ElementMemoryLimitExceeded`] or
/// [`DecodeError::UnknownFieldLimitExceeded`]; and where the units are left, but not what the messages in
/// the entry need besides, the error may be any, but out of memory only where merging takes memory. The
/// map is as it was then; where the units were left, they stay spent, whatever the error.
///
/// Source: the protobuf encoding guide, "Maps".
///
/// ```ignore
/// merge_entry::<Str, Int32, _, _>(alloc, &mut map, &mut rest, ctx)?;
/// ```
pub fn merge_entry<
    KC: MapCodec,
    VC: MapValueDecode,
    C: MapStorage<Key = KC::Value, Value = VC::Value>,
    B: Buf,
>(alloc: Global, map: &mut C, buf: &mut B, ctx: DecodeContext<'_>) -> Result<(), DecodeError>
    // Accepted: a length and so many bytes are at the front, and they are an entry, which is put into the map unless it is
    // undeclared.
    ensures ok { OnOk result (MergesEntry
        (rules (KC.reading, KC.COST) (VC.reading, VC.COST) (C.equal, C.keeps_order) ctx.entry.depth 0 false)
        (state (C.pairs map.old) [] ctx.entry.budget.now) (B.unread buf.old)
        (state (C.pairs map.new) [] (budget_left ctx.exit)) (B.unread buf.new)) }
    // Refused: the error is the entry's first fault, or memory ran out, and the map is as it was. `RefusesEntry` says what is left
    // open where messages are in the entry.
    ensures err { IfErr result (RefusesEntry
        (rules (KC.reading, KC.COST) (VC.reading, VC.COST) (C.equal, C.keeps_order) ctx.entry.depth 0 false)
        (state (C.pairs map.old) [] ctx.entry.budget.now) (B.unread buf.old)
        (state (C.pairs map.new) [] (budget_left ctx.exit)) (B.unread buf.new)) }
    // What lies behind the end of a limited buffer stays there.
    ensures kept { B.beyond buf.new ≡ B.beyond buf.old }
{
    let how = ByCodec::<VC>::new();
    merge_entry_by::<KC, _, C, B, Dropped>(alloc, map, buf, ctx, 0, &how, &mut Dropped)
}

/// Merges one entry as [`merge_entry`] does, and keeps one with a value that is undeclared, if a list is passed.
///
/// It is appended to the list as a length-delimited record of the field's `number`, byte for byte as it
/// was read, and takes one of the unknown fields left. Without a list it is dropped, and takes
/// none.
///
/// # Errors
/// Those of [`merge_entry`], and after them [`DecodeError::UnknownFieldLimitExceeded`] where an unknown field
/// is needed and none is left. The map and the list are as they were then; what was charged stays spent.
///
/// Source: the protobuf encoding guide, "Maps", and the language guide on unknown values of an enum.
///
/// ```ignore
/// merge_entry_with_unknowns::<Int32, ClosedEnum<Old>, _, _>(
///     rt.alloc(),
///     &mut closed,
///     &mut rest,
///     ctx,
///     5,
///     Some(&mut kept),
/// )?;
/// ```
pub fn merge_entry_with_unknowns<
    KC: MapCodec,
    VC: MapValueDecode,
    C: MapStorage<Key = KC::Value, Value = VC::Value>,
    B: Buf,
>(
    alloc: Global,
    map: &mut C,
    buf: &mut B,
    ctx: DecodeContext<'_>,
    number: u32,
    unknown: Option<&mut UnknownFields>,
) -> Result<(), DecodeError>
    // Accepted: the entry at the front is put into the map, or kept in the list where it is undeclared.
    ensures ok { OnOk result (MergesEntry
        (rules (KC.reading, KC.COST) (VC.reading, VC.COST) (C.equal, C.keeps_order) ctx.entry.depth number (is_some unknown.entry))
        (state (C.pairs map.old) (records_before unknown.entry) ctx.entry.budget.now) (B.unread buf.old)
        (state (C.pairs map.new) (records_after unknown.exit) (budget_left ctx.exit)) (B.unread buf.new)) }
    // Refused: the error is its first fault, or memory ran out, as `RefusesEntry` says, and map and list are as they were.
    ensures err { IfErr result (RefusesEntry
        (rules (KC.reading, KC.COST) (VC.reading, VC.COST) (C.equal, C.keeps_order) ctx.entry.depth number (is_some unknown.entry))
        (state (C.pairs map.old) (records_before unknown.entry) ctx.entry.budget.now) (B.unread buf.old)
        (state (C.pairs map.new) (records_after unknown.exit) (budget_left ctx.exit)) (B.unread buf.new)) }
    // The list can hold no fewer records than before without new memory; what lies behind the end of a limited buffer stays.
    ensures room { capacity_before unknown.entry ≤ capacity_after unknown.exit }
    ensures kept { B.beyond buf.new ≡ B.beyond buf.old }
{
    let how = ByCodec::<VC>::new();
    match unknown {
        None => merge_entry_by::<KC, _, C, B, Dropped>(
            alloc,
            map,
            buf,
            ctx,
            number,
            &how,
            &mut Dropped,
        ),
        Some(list) => merge_entry_by::<KC, _, C, B, UnknownFields>(
            alloc, map, buf, ctx, number, &how, list,
        ),
    }
}
