//! The size pass over messages of a type in a message of the same type, by a function that sizes one of them.

ghost use Rattle.std.specs.Prelude.{◌≡◌, ◌≢◌, ◌<◌, ◌≤◌, ◌∷◌, [], ℕ, IsOk, length};
ghost use Rattle.std.specs.Option.{option_map};
ghost use Rattle.buffa_bytes.specs.Number.{IsNumber};
ghost use Rattle.buffa_wire.specs.Encoding.{records_encoding};
ghost use Rattle.buffa_wire.specs.Passes.{IsSized, cap};
ghost use Rattle.buffa_wire.specs.Records.{bytes};
ghost use Rattle.buffa_map.specs.Calls.{SizesMessages};
ghost use Rattle.buffa_recursive.specs.Fixpoint.{semantics};
ghost use Rattle.buffa_recursive.specs.InnerMessages.{encoding_by, list_shape, child_shape};

use crate::recursive_type::RecursiveType;
use buffa_fields::members::framing::Framing;
use buffa_fields::members::message_field::Delimited;
use buffa_wire::{EncodeError, SizeCache};

// The length of a message's record. Its own length, and then its slots, are appended to the cache.
fn inner_len<M: RecursiveType, F: Fn(&M, &mut SizeCache) -> Result<u32, EncodeError>>(
    number: u32,
    child: &M,
    cache: &mut SizeCache,
    size: F,
) -> Result<u32, EncodeError>
    requires number { IsNumber number }
    requires may { (x : _) (c : _) → x.now ≡ child.now → F.pre size x c }
    requires keeps { let w = semantics M.COST M.schema M.sound in
        SizesMessages (F.post size) (λ v. v ≡ child.now) (λ m. m) (encoding_by w) w.slots }
    ensures { let w = semantics M.COST M.schema M.sound in
        IsSized (records_encoding ((number, bytes (encoding_by w child.now)) ∷ []))
        (cap (length (encoding_by w child.now)) ∷ w.slots child.now) cache.old result cache.new }
{
    let slot = cache.reserve()?;
    let inner = size(child, cache)?;
    cache.set(slot, inner);
    Ok(Delimited::field_len(number, inner))
}

// The length of the records of a list of messages, or 2^32 - 1 where it is more. The slots of each are appended to the
// cache.
pub(crate) fn list_len<M: RecursiveType, F: Fn(&M, &mut SizeCache) -> Result<u32, EncodeError>>(
    number: u32,
    inner_messages: &[M],
    cache: &mut SizeCache,
    size: F,
) -> Result<u32, EncodeError>
    requires number { IsNumber number }
    requires may { (x : _) (c : _) → M.schema.height x.now ≤ M.schema.children_height (M.schema.of_list inner_messages.now) → F.pre size x c }
    requires keeps { let w = semantics M.COST M.schema M.sound in
        SizesMessages (F.post size) (λ v. M.schema.height v ≤ M.schema.children_height (M.schema.of_list inner_messages.now)) (λ m. m)
        (encoding_by w) w.slots }
    ensures sized { let s = list_shape (semantics M.COST M.schema M.sound) in
        IsSized (records_encoding (s.records number inner_messages.now)) (s.slots inner_messages.now) cache.old result cache.new }
    ensures always { (list_shape (semantics M.COST M.schema M.sound)).slots inner_messages.now ≡ [] → IsOk result }
{
    let mut total: u32 = 0;
    for child in inner_messages {
        let len = inner_len(number, child, cache, &size)?;
        total = total.saturating_add(len);
    }
    Ok(total)
}

// The length of the record of a message, if it is there, or 2^32 - 1 where it is more. Its slots are appended to the cache.
pub(crate) fn one_len<M: RecursiveType, F: Fn(&M, &mut SizeCache) -> Result<u32, EncodeError>>(
    number: u32,
    one: &Option<Box<M>>,
    cache: &mut SizeCache,
    size: F,
) -> Result<u32, EncodeError>
    requires number { IsNumber number }
    requires may { (x : _) (c : _) →
        M.schema.height x.now ≤ M.schema.maybe_height (M.schema.of_option (option_map (λ b. b.value) one.now)) → F.pre size x c }
    requires keeps { let w = semantics M.COST M.schema M.sound in
        SizesMessages (F.post size)
        (λ v. M.schema.height v ≤ M.schema.maybe_height (M.schema.of_option (option_map (λ b. b.value) one.now))) (λ m. m)
        (encoding_by w) w.slots }
    ensures sized { let s = child_shape (semantics M.COST M.schema M.sound) in
        let o = option_map (λ b. b.value) one.now in
        IsSized (records_encoding (s.records number o)) (s.slots o) cache.old result cache.new }
    ensures always { (child_shape (semantics M.COST M.schema M.sound)).slots (option_map (λ b. b.value) one.now) ≡ [] →
        IsOk result }
{
    match one {
        None => Ok(0),
        Some(child) => inner_len(number, &**child, cache, size),
    }
}
