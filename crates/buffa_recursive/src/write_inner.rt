//! The write pass over messages of a type in a message of the same type, by a function that writes one of them.

ghost use Rattle.std.specs.Prelude.{◌≡◌, ◌<◌, ◌≤◌, ◌∷◌, [], ℕ, length};
ghost use Rattle.std.specs.Option.{option_map};
ghost use Rattle.buffa_bytes.specs.Number.{IsNumber};
ghost use Rattle.buffa_wire.specs.Encoding.{records_encoding};
ghost use Rattle.buffa_wire.specs.Passes.{IsNext, IsWritten, cap};
ghost use Rattle.buffa_map.specs.Calls.{WritesMessages};
ghost use Rattle.buffa_fields.specs.ListAndMapCalls.{WritesMessage};
ghost use Rattle.buffa_recursive.specs.Fixpoint.{semantics};
ghost use Rattle.buffa_recursive.specs.InnerMessages.{encoding_by, list_shape, child_shape};

use crate::recursive_type::RecursiveType;
use buffa_fields::members::framing::Framing;
use buffa_fields::members::message_field::Delimited;
use buffa_wire::{EncodeError, EncodeSink, SizeCache};

// Writes a message's record; the message's length is in the next slot.
fn write_inner<
    M: RecursiveType,
    S: EncodeSink,
    F: Fn(&M, &mut SizeCache, &mut S) -> Result<(), EncodeError>,
>(number: u32, child: &M, cache: &mut SizeCache, sink: &mut S, write: F) -> Result<(), EncodeError>
    requires number { IsNumber number }
    requires next { let w = semantics M.COST M.schema M.sound in
        IsNext (cap (length (encoding_by w child.now)) ∷ w.slots child.now) cache.old }
    requires may { let w = semantics M.COST M.schema M.sound in
        (x : _) (c : _) (s : _) → x.now ≡ child.now → IsNext (w.slots x.now) c.now → F.pre write x c s }
    requires keeps { let w = semantics M.COST M.schema M.sound in
        WritesMessages (F.post write) (λ v. v ≡ child.now) (λ m. m) (encoding_by w) w.slots S.written }
    ensures { let w = semantics M.COST M.schema M.sound in
        WritesMessage cache.old (S.written sink.old) result cache.new (S.written sink.new) (encoding_by w) w.slots number
        child.now }
{
    let inner = cache.consume_next();
    Delimited::begin(number, inner, sink)?;
    write(child, cache, sink)
}

// Writes a record for each message, whose slots are next.
pub(crate) fn write_list<
    M: RecursiveType,
    S: EncodeSink,
    F: Fn(&M, &mut SizeCache, &mut S) -> Result<(), EncodeError>,
>(
    number: u32,
    inner_messages: &[M],
    cache: &mut SizeCache,
    sink: &mut S,
    write: F,
) -> Result<(), EncodeError>
    requires number { IsNumber number }
    requires next { IsNext ((list_shape (semantics M.COST M.schema M.sound)).slots inner_messages.now) cache.old }
    requires may { let w = semantics M.COST M.schema M.sound in
        (x : _) (c : _) (s : _) → M.schema.height x.now ≤ M.schema.children_height (M.schema.of_list inner_messages.now) →
        IsNext (w.slots x.now) c.now → F.pre write x c s }
    requires keeps { let w = semantics M.COST M.schema M.sound in
        WritesMessages (F.post write) (λ v. M.schema.height v ≤ M.schema.children_height (M.schema.of_list inner_messages.now)) (λ m. m)
        (encoding_by w) w.slots S.written }
    ensures { let s = list_shape (semantics M.COST M.schema M.sound) in
        IsWritten (records_encoding (s.records number inner_messages.now)) (s.slots inner_messages.now) cache.old (S.written sink.old) result
        cache.new (S.written sink.new) }
{
    for child in inner_messages {
        write_inner(number, child, cache, sink, &write)?;
    }
    Ok(())
}

// Writes the record of a message, if it is there; its slots are next.
pub(crate) fn write_one<
    M: RecursiveType,
    S: EncodeSink,
    F: Fn(&M, &mut SizeCache, &mut S) -> Result<(), EncodeError>,
>(
    number: u32,
    one: &Option<Box<M>>,
    cache: &mut SizeCache,
    sink: &mut S,
    write: F,
) -> Result<(), EncodeError>
    requires number { IsNumber number }
    requires next { IsNext ((child_shape (semantics M.COST M.schema M.sound)).slots (option_map (λ b. b.value) one.now)) cache.old }
    requires may { let w = semantics M.COST M.schema M.sound in
        (x : _) (c : _) (s : _) →
        M.schema.height x.now ≤ M.schema.maybe_height (M.schema.of_option (option_map (λ b. b.value) one.now)) →
        IsNext (w.slots x.now) c.now → F.pre write x c s }
    requires keeps { let w = semantics M.COST M.schema M.sound in
        WritesMessages (F.post write)
        (λ v. M.schema.height v ≤ M.schema.maybe_height (M.schema.of_option (option_map (λ b. b.value) one.now))) (λ m. m)
        (encoding_by w) w.slots S.written }
    ensures { let s = child_shape (semantics M.COST M.schema M.sound) in
        let o = option_map (λ b. b.value) one.now in
        IsWritten (records_encoding (s.records number o)) (s.slots o) cache.old (S.written sink.old) result cache.new
        (S.written sink.new) }
{
    match one {
        None => Ok(()),
        Some(child) => write_inner(number, &**child, cache, sink, write),
    }
}
