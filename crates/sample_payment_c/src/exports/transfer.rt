//! `Transfer` for programs in other languages, made of payment.proto by c_library.

ghost use Rattle.std.specs.Prelude.{option_map};
ghost use Rattle.buffa_c.specs.Answers.{Checks, NumbersFault};
ghost use Rattle.buffa_c.specs.Encodings.{ChecksCanonical, Measures, Rewrites, RewritesDeclared};
ghost use Rattle.buffa_c.specs.Places.{TellsPlace};
ghost use Rattle.buffa_c.specs.Members.{ChecksRoom, CopiesBytes, TellsNumber};

use buffa_c::{
    ACCEPTED, Limits, PathStep, USUAL, canonical, canonical_declared, check, is_canonical,
    place_of, put, read, room_of,
};
use buffa_discard::DiscardUnknown;
use buffa_fields::{Blank, MessageSpec, RECURSION_LIMIT};
use sample_payment::transfer::Transfer;
use std::alloc::Global;

/// Whether the bytes are accepted as `Transfer`.
#[unsafe(no_mangle)]
pub extern "C" fn transfer_check(alloc: Global, bytes: &[u8]) -> u32
    ensures answer { Checks
        (⟦<Transfer as MessageSpec>⟧.merged RECURSION_LIMIT ⟦<Transfer as Blank>⟧.blank_is bytes.now)
        (⟦<Transfer as MessageSpec>⟧.cost RECURSION_LIMIT bytes.now) USUAL bytes.now result }
    ensures which { NumbersFault ⟦<Transfer as MessageSpec>⟧.merged ⟦<Transfer as MessageSpec>⟧.cost
        ⟦<Transfer as MessageSpec>⟧.Refused ⟦<Transfer as Blank>⟧.blank_is USUAL bytes.now result }
{
    check::<Transfer>(alloc, bytes, USUAL)
}

/// Whether the bytes are accepted as `Transfer`, under limits of the caller's.
#[unsafe(no_mangle)]
pub extern "C" fn transfer_check_within(
    alloc: Global,
    bytes: &[u8],
    longest: usize,
    depth: u32,
    unknown: usize,
    units: usize,
) -> u32
    ensures answer { Checks (⟦<Transfer as MessageSpec>⟧.merged depth ⟦<Transfer as Blank>⟧.blank_is bytes.now)
        (⟦<Transfer as MessageSpec>⟧.cost depth bytes.now)
        record { longest = longest; depth = depth; unknown = unknown; units = units } bytes.now result }
    ensures which { NumbersFault ⟦<Transfer as MessageSpec>⟧.merged ⟦<Transfer as MessageSpec>⟧.cost
        ⟦<Transfer as MessageSpec>⟧.Refused ⟦<Transfer as Blank>⟧.blank_is
        record { longest = longest; depth = depth; unknown = unknown; units = units } bytes.now result }
{
    let limits = Limits {
        longest,
        depth,
        unknown,
        units,
    };
    check::<Transfer>(alloc, bytes, limits)
}

/// Where the bytes are refused as `Transfer`, under limits of the caller's.
#[unsafe(no_mangle)]
pub extern "C" fn transfer_place(
    alloc: Global,
    bytes: &[u8],
    longest: usize,
    depth: u32,
    unknown: usize,
    units: usize,
    path: &mut [PathStep],
    steps: &mut usize,
    offset: &mut usize,
) -> u32
    ensures { TellsPlace ⟦<Transfer as MessageSpec>⟧.merged ⟦<Transfer as MessageSpec>⟧.cost
        ⟦<Transfer as MessageSpec>⟧.Refused ⟦<Transfer as Blank>⟧.blank_is
        record { longest = longest; depth = depth; unknown = unknown; units = units } bytes.now result path.old
        path.new steps.new offset.new }
{
    let limits = Limits {
        longest,
        depth,
        unknown,
        units,
    };
    place_of::<Transfer>(alloc, bytes, limits, path, steps, offset)
}

/// The encoding of the `Transfer` that the bytes mean, at the front of `out`.
#[unsafe(no_mangle)]
pub extern "C" fn transfer_canonical(
    alloc: Global,
    bytes: &[u8],
    out: &mut [u8],
    written: &mut usize,
) -> u32
    ensures { Rewrites (⟦<Transfer as MessageSpec>⟧.merged RECURSION_LIMIT ⟦<Transfer as Blank>⟧.blank_is bytes.now)
        (⟦<Transfer as MessageSpec>⟧.cost RECURSION_LIMIT bytes.now) ⟦<Transfer as MessageSpec>⟧.encoding USUAL
        bytes.now result out.old out.new written.new }
{
    canonical::<Transfer>(alloc, bytes, USUAL, out, written)
}

/// The encoding of what is left of the `Transfer` that the bytes mean, without the fields that aren't declared.
#[unsafe(no_mangle)]
pub extern "C" fn transfer_canonical_declared(
    alloc: Global,
    bytes: &[u8],
    out: &mut [u8],
    written: &mut usize,
) -> u32
    ensures { RewritesDeclared
        (⟦<Transfer as MessageSpec>⟧.merged RECURSION_LIMIT ⟦<Transfer as Blank>⟧.blank_is bytes.now)
        (⟦<Transfer as MessageSpec>⟧.cost RECURSION_LIMIT bytes.now) ⟦<Transfer as Blank>⟧.meaning
        ⟦<Transfer as DiscardUnknown>⟧.Discarded ⟦<Transfer as MessageSpec>⟧.encoding USUAL bytes.now result out.old
        out.new written.new }
{
    canonical_declared::<Transfer>(alloc, bytes, USUAL, out, written)
}

/// How many bytes `transfer_canonical` writes.
#[unsafe(no_mangle)]
pub extern "C" fn transfer_room(alloc: Global, bytes: &[u8], room: &mut usize) -> u32
    ensures { Measures (⟦<Transfer as MessageSpec>⟧.merged RECURSION_LIMIT ⟦<Transfer as Blank>⟧.blank_is bytes.now)
        (⟦<Transfer as MessageSpec>⟧.cost RECURSION_LIMIT bytes.now) ⟦<Transfer as MessageSpec>⟧.encoding USUAL
        bytes.now result room.new }
{
    room_of::<Transfer>(alloc, bytes, USUAL, room)
}

/// Whether the bytes are the encoding of the `Transfer` that they mean, each of them.
#[unsafe(no_mangle)]
pub extern "C" fn transfer_is_canonical(alloc: Global, bytes: &[u8]) -> u32
    ensures { ChecksCanonical
        (⟦<Transfer as MessageSpec>⟧.merged RECURSION_LIMIT ⟦<Transfer as Blank>⟧.blank_is bytes.now)
        (⟦<Transfer as MessageSpec>⟧.cost RECURSION_LIMIT bytes.now) ⟦<Transfer as MessageSpec>⟧.encoding USUAL
        bytes.now result }
{
    is_canonical::<Transfer>(alloc, bytes, USUAL)
}

/// The member `to` of the `Transfer` that the bytes mean.
#[unsafe(no_mangle)]
pub extern "C" fn transfer_to(
    alloc: Global,
    bytes: &[u8],
    out: &mut [u8],
    written: &mut usize,
) -> u32
    ensures answer { ChecksRoom
        (⟦<Transfer as MessageSpec>⟧.merged RECURSION_LIMIT ⟦<Transfer as Blank>⟧.blank_is bytes.now)
        (⟦<Transfer as MessageSpec>⟧.cost RECURSION_LIMIT bytes.now) USUAL bytes.now result }
    ensures answered { CopiesBytes (option_map (λ m. m.0)
        (⟦<Transfer as MessageSpec>⟧.merged RECURSION_LIMIT ⟦<Transfer as Blank>⟧.blank_is bytes.now))
        result out.old out.new written.new }
{
    *written = 0;
    match read::<Transfer>(alloc, bytes, USUAL) {
        Ok(message) => put(message.to.as_bytes(), out, written),
        Err(answer) => answer,
    }
}

/// The member `day` of the `Transfer` that the bytes mean.
#[unsafe(no_mangle)]
pub extern "C" fn transfer_day(alloc: Global, bytes: &[u8], value: &mut i32) -> u32
    ensures answer { Checks
        (⟦<Transfer as MessageSpec>⟧.merged RECURSION_LIMIT ⟦<Transfer as Blank>⟧.blank_is bytes.now)
        (⟦<Transfer as MessageSpec>⟧.cost RECURSION_LIMIT bytes.now) USUAL bytes.now result }
    ensures answered { TellsNumber (option_map (λ m. m.1.0)
        (⟦<Transfer as MessageSpec>⟧.merged RECURSION_LIMIT ⟦<Transfer as Blank>⟧.blank_is bytes.now))
        result value.old value.new }
{
    match read::<Transfer>(alloc, bytes, USUAL) {
        Ok(message) => {
            *value = message.day;
            ACCEPTED
        }
        Err(answer) => answer,
    }
}
