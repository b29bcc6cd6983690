//! How a shipment is delivered, as its extensions say.

ghost use Rattle.std.specs.Prelude.{◌≡◌, IsOk, OnErr, OnOk};
ghost use Rattle.buffa_ext.specs.SetsAndClears.{IsSet};

use crate::messages::extensions::{handling, insurance_of_shipment, tries, tries_or_default};
use crate::messages::{Handling, Insurance, Shipment};
use buffa_ext::codecs::Int32;
use buffa_ext::{ExtensionCodec, ExtensionSet};
use buffa_fields::{Blank, DecodeError, EncodeError, EnumValue};
use std::alloc::{AllocError, Global};

/// Whether a delivery that was tried so often is tried once more.
///
/// # Errors
/// None: neither reading the number nor its default takes memory.
pub fn is_tried_again(alloc: Global, shipment: &Shipment, times: i32) -> Result<bool, AllocError>
    ensures always { IsOk result }
{
    Ok(times < tries_or_default(alloc, shipment)?)
}

/// Says how often the delivery is tried.
///
/// # Errors
/// Where memory runs out; nothing is changed then.
pub fn set_tries(alloc: Global, shipment: &mut Shipment, times: i32) -> Result<(), EncodeError>
    ensures ok { OnOk result (IsSet 100 (⟦<Int32 as ExtensionCodec>⟧.extension_data times)
        shipment.old.unknown_fields shipment.new.unknown_fields) }
    ensures err { OnErr result (shipment.new ≡ shipment.old) }
{
    shipment.set_extension(alloc, &tries(), times)
}

/// Insures the shipment for so many cents, and has it handled with care.
///
/// # Errors
/// Where memory runs out.
pub fn insure(alloc: Global, shipment: &mut Shipment, cents: u32) -> Result<(), EncodeError> {
    let mut insurance = Insurance::blank(alloc);
    insurance.cents = Some(cents);
    shipment.set_extension(alloc, &insurance_of_shipment(), insurance)?;
    let fragile = EnumValue::Known(Handling::Fragile);
    shipment.set_extension(alloc, &handling(), fragile)
}

/// For how many cents the shipment is insured; none where it isn't.
///
/// # Errors
/// Where a record of the insurance is malformed, or memory runs out.
pub fn insured_for(alloc: Global, shipment: &Shipment) -> Result<Option<u32>, DecodeError> {
    let Some(insurance) = shipment.read_extension(alloc, &insurance_of_shipment())? else {
        return Ok(None);
    };
    Ok(insurance.cents)
}
