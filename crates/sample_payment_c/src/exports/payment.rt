//! `Payment` for programs in other languages, made of payment.proto by c_library.

ghost use Rattle.std.specs.Prelude.{option_map};
ghost use Rattle.buffa_c.specs.Answers.{Checks, NumbersFault};
ghost use Rattle.buffa_c.specs.Encodings.{ChecksCanonical, Measures, Rewrites, RewritesDeclared};
ghost use Rattle.buffa_c.specs.Places.{TellsPlace};
ghost use Rattle.buffa_c.specs.Members.{ChecksRoom, CopiesBytes, TellsNumber};

use buffa_c::{
    ACCEPTED, Limits, PathStep, USUAL, canonical, canonical_declared, check, is_canonical,
    place_of, put, read, room_of,
};
use buffa_discard::DiscardUnknown;
use buffa_fields::{Blank, MessageSpec, RECURSION_LIMIT};
use sample_payment::payment::Payment;
use std::alloc::Global;

/// Whether the bytes are accepted as `Payment`.
#[unsafe(no_mangle)]
pub extern "C" fn payment_check(alloc: Global, bytes: &[u8]) -> u32
    ensures answer { Checks
        (⟦<Payment as MessageSpec>⟧.merged RECURSION_LIMIT ⟦<Payment as Blank>⟧.blank_is bytes.now)
        (⟦<Payment as MessageSpec>⟧.cost RECURSION_LIMIT bytes.now) USUAL bytes.now result }
    ensures which { NumbersFault ⟦<Payment as MessageSpec>⟧.merged ⟦<Payment as MessageSpec>⟧.cost
        ⟦<Payment as MessageSpec>⟧.Refused ⟦<Payment as Blank>⟧.blank_is USUAL bytes.now result }
{
    check::<Payment>(alloc, bytes, USUAL)
}

/// Whether the bytes are accepted as `Payment`, under limits of the caller's.
#[unsafe(no_mangle)]
pub extern "C" fn payment_check_within(
    alloc: Global,
    bytes: &[u8],
    longest: usize,
    depth: u32,
    unknown: usize,
    units: usize,
) -> u32
    ensures answer { Checks (⟦<Payment as MessageSpec>⟧.merged depth ⟦<Payment as Blank>⟧.blank_is bytes.now)
        (⟦<Payment as MessageSpec>⟧.cost depth bytes.now)
        record { longest = longest; depth = depth; unknown = unknown; units = units } bytes.now result }
    ensures which { NumbersFault ⟦<Payment as MessageSpec>⟧.merged ⟦<Payment as MessageSpec>⟧.cost
        ⟦<Payment as MessageSpec>⟧.Refused ⟦<Payment as Blank>⟧.blank_is
        record { longest = longest; depth = depth; unknown = unknown; units = units } bytes.now result }
{
    let limits = Limits {
        longest,
        depth,
        unknown,
        units,
    };
    check::<Payment>(alloc, bytes, limits)
}

/// Where the bytes are refused as `Payment`, under limits of the caller's.
#[unsafe(no_mangle)]
pub extern "C" fn payment_place(
    alloc: Global,
    bytes: &[u8],
    longest: usize,
    depth: u32,
    unknown: usize,
    units: usize,
    path: &mut [PathStep],
    steps: &mut usize,
    offset: &mut usize,
) -> u32
    ensures { TellsPlace ⟦<Payment as MessageSpec>⟧.merged ⟦<Payment as MessageSpec>⟧.cost
        ⟦<Payment as MessageSpec>⟧.Refused ⟦<Payment as Blank>⟧.blank_is
        record { longest = longest; depth = depth; unknown = unknown; units = units } bytes.now result path.old
        path.new steps.new offset.new }
{
    let limits = Limits {
        longest,
        depth,
        unknown,
        units,
    };
    place_of::<Payment>(alloc, bytes, limits, path, steps, offset)
}

/// The encoding of the `Payment` that the bytes mean, at the front of `out`.
#[unsafe(no_mangle)]
pub extern "C" fn payment_canonical(
    alloc: Global,
    bytes: &[u8],
    out: &mut [u8],
    written: &mut usize,
) -> u32
    ensures { Rewrites (⟦<Payment as MessageSpec>⟧.merged RECURSION_LIMIT ⟦<Payment as Blank>⟧.blank_is bytes.now)
        (⟦<Payment as MessageSpec>⟧.cost RECURSION_LIMIT bytes.now) ⟦<Payment as MessageSpec>⟧.encoding USUAL
        bytes.now result out.old out.new written.new }
{
    canonical::<Payment>(alloc, bytes, USUAL, out, written)
}

/// The encoding of what is left of the `Payment` that the bytes mean, without the fields that aren't declared.
#[unsafe(no_mangle)]
pub extern "C" fn payment_canonical_declared(
    alloc: Global,
    bytes: &[u8],
    out: &mut [u8],
    written: &mut usize,
) -> u32
    ensures { RewritesDeclared
        (⟦<Payment as MessageSpec>⟧.merged RECURSION_LIMIT ⟦<Payment as Blank>⟧.blank_is bytes.now)
        (⟦<Payment as MessageSpec>⟧.cost RECURSION_LIMIT bytes.now) ⟦<Payment as Blank>⟧.meaning
        ⟦<Payment as DiscardUnknown>⟧.Discarded ⟦<Payment as MessageSpec>⟧.encoding USUAL bytes.now result out.old
        out.new written.new }
{
    canonical_declared::<Payment>(alloc, bytes, USUAL, out, written)
}

/// How many bytes `payment_canonical` writes.
#[unsafe(no_mangle)]
pub extern "C" fn payment_room(alloc: Global, bytes: &[u8], room: &mut usize) -> u32
    ensures { Measures (⟦<Payment as MessageSpec>⟧.merged RECURSION_LIMIT ⟦<Payment as Blank>⟧.blank_is bytes.now)
        (⟦<Payment as MessageSpec>⟧.cost RECURSION_LIMIT bytes.now) ⟦<Payment as MessageSpec>⟧.encoding USUAL
        bytes.now result room.new }
{
    room_of::<Payment>(alloc, bytes, USUAL, room)
}

/// Whether the bytes are the encoding of the `Payment` that they mean, each of them.
#[unsafe(no_mangle)]
pub extern "C" fn payment_is_canonical(alloc: Global, bytes: &[u8]) -> u32
    ensures { ChecksCanonical
        (⟦<Payment as MessageSpec>⟧.merged RECURSION_LIMIT ⟦<Payment as Blank>⟧.blank_is bytes.now)
        (⟦<Payment as MessageSpec>⟧.cost RECURSION_LIMIT bytes.now) ⟦<Payment as MessageSpec>⟧.encoding USUAL
        bytes.now result }
{
    is_canonical::<Payment>(alloc, bytes, USUAL)
}

/// The member `amount` of the `Payment` that the bytes mean.
#[unsafe(no_mangle)]
pub extern "C" fn payment_amount(alloc: Global, bytes: &[u8], value: &mut i32) -> u32
    ensures answer { Checks
        (⟦<Payment as MessageSpec>⟧.merged RECURSION_LIMIT ⟦<Payment as Blank>⟧.blank_is bytes.now)
        (⟦<Payment as MessageSpec>⟧.cost RECURSION_LIMIT bytes.now) USUAL bytes.now result }
    ensures answered { TellsNumber (option_map (λ m. m.0)
        (⟦<Payment as MessageSpec>⟧.merged RECURSION_LIMIT ⟦<Payment as Blank>⟧.blank_is bytes.now))
        result value.old value.new }
{
    match read::<Payment>(alloc, bytes, USUAL) {
        Ok(message) => {
            *value = message.amount;
            ACCEPTED
        }
        Err(answer) => answer,
    }
}

/// The member `note` of the `Payment` that the bytes mean.
#[unsafe(no_mangle)]
pub extern "C" fn payment_note(
    alloc: Global,
    bytes: &[u8],
    out: &mut [u8],
    written: &mut usize,
) -> u32
    ensures answer { ChecksRoom
        (⟦<Payment as MessageSpec>⟧.merged RECURSION_LIMIT ⟦<Payment as Blank>⟧.blank_is bytes.now)
        (⟦<Payment as MessageSpec>⟧.cost RECURSION_LIMIT bytes.now) USUAL bytes.now result }
    ensures answered { CopiesBytes (option_map (λ m. m.1.1.0)
        (⟦<Payment as MessageSpec>⟧.merged RECURSION_LIMIT ⟦<Payment as Blank>⟧.blank_is bytes.now))
        result out.old out.new written.new }
{
    *written = 0;
    match read::<Payment>(alloc, bytes, USUAL) {
        Ok(message) => put(message.note.as_bytes(), out, written),
        Err(answer) => answer,
    }
}
