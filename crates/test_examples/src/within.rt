//! An extension that holds a message, read under limits.

use buffa_descriptor::messages::FieldOptions;
use buffa_ext::{Extension, ExtensionSet, MessageCodec};
use buffa_wire::{Blank, Budget, DecodeContext, DecodeError, Message};
use buffa_within::ReadWithin;
use sample_palette::shade::Shade;
use sample_palette::swatch::Swatch;
use std::alloc::Global;
use std::test::Fail;

// The options that the bytes are.
fn options_of(alloc: Global, bytes: &[u8]) -> Result<FieldOptions, Fail> {
    let mut options: FieldOptions = Blank::blank(alloc);
    options.merge_from_slice(alloc, bytes)?;
    Ok(options)
}

// The swatch that options hold as an extension, of what a budget has.
fn swatch_in(
    alloc: Global,
    options: &FieldOptions,
    budget: &mut Budget,
) -> Result<Option<Swatch>, DecodeError> {
    let ext = Extension::<MessageCodec<Swatch>>::new(1000, FieldOptions::PROTO_FQN);
    options.read_extension_within(alloc, &ext, DecodeContext::new(20, &mut *budget))
}

// A swatch with a field that it doesn't declare, as the extension of number 1000.
const OPTIONS: [u8; 7] = [0xC2, 0x3E, 0x04, 0x08, 0x01, 0x18, 0x07];

#[test]
fn an_extension_spends_what_its_message_costs(rt: HostRuntime) -> Result<(), Fail> {
    let alloc = rt.alloc();
    let options = options_of(alloc, &OPTIONS)?;
    let mut budget = Budget::new(3);
    let swatch = swatch_in(alloc, &options, &mut budget)?;
    assert!(rt; swatch.is_some_and(|it| it.shade == Some(Shade::B)));
    assert!(rt; budget.unknown_left() == 2);
    Ok(())
}

#[test]
fn an_extension_is_refused_where_too_little_is_left(rt: HostRuntime) -> Result<(), Fail> {
    let alloc = rt.alloc();
    let options = options_of(alloc, &OPTIONS)?;
    let mut budget = Budget::new(0);
    let refused = swatch_in(alloc, &options, &mut budget).err();
    assert!(rt; refused == Some(DecodeError::UnknownFieldLimitExceeded));
    Ok(())
}
