//! Extensions, made of shipment.proto by protoc-gen-buffa.

ghost use Rattle.std.specs.Prelude.{IfOk, IsOk, Some, codes, option_map, pos, string_bytes, true, ◌≡◌};
ghost use Rattle.buffa_ext.specs.Defaults.{IsDefaulted, ReadsNumber};

use crate::messages::customs::Customs;
use crate::messages::handling::Handling;
use crate::messages::insurance::Insurance;
use buffa_ext::codecs::{EnumCodec, Int32, MessageCodec, PackedRepeated, StringCodec, Uint32};
use buffa_ext::{Extension, ExtensionCodec, ExtensionSet};
use buffa_fields::{Blank, EnumValue};
use std::alloc::{AllocError, Global};
use std::string::String;

/// What is paid where it is lost.
///
/// extend buffa.sample.Shipment { optional Insurance of_shipment = 103; } in the message buffa.sample.Insurance
pub fn insurance_of_shipment() -> Extension<MessageCodec<Insurance>>
    ensures number { result.number ≡ 103 }
    ensures extendee { result.extendee.now ≡ codes "buffa.sample.Shipment" }
{
    Extension::<MessageCodec<Insurance>>::new(103, "buffa.sample.Shipment")
}

/// What the customs want to know.
///
/// extend buffa.sample.Papers { optional Customs paper = 1000; } in the message buffa.sample.Customs
///
/// It is an Item of a MessageSet, and its number a type id.
pub fn customs_paper() -> Extension<MessageCodec<Customs>>
    ensures number { result.number ≡ 1000 }
    ensures extendee { result.extendee.now ≡ codes "buffa.sample.Papers" }
{
    Extension::<MessageCodec<Customs>>::new(1000, "buffa.sample.Papers")
}

/// How often its delivery is tried.
///
/// extend buffa.sample.Shipment { optional int32 tries = 100 [default = 3]; }
///
/// It is given without its default, which [`tries_or_default`] has.
pub fn tries() -> Extension<Int32>
    ensures number { result.number ≡ 100 }
    ensures extendee { result.extendee.now ≡ codes "buffa.sample.Shipment" }
{
    Extension::<Int32>::new(100, "buffa.sample.Shipment")
}

/// What the message has for `tries`, or where it has none the declared default: 3.
/// A record that can't be read counts as none.
pub fn tries_or_default<M: ExtensionSet>(alloc: Global, message: &M) -> Result<i32, AllocError>
    requires { M.fqn ≡ codes "buffa.sample.Shipment" }
    ensures value { IfOk result (λ v. IsDefaulted (ReadsNumber ⟦<Int32 as ExtensionCodec>⟧.reads
        ⟦<Int32 as ExtensionCodec>⟧.answer 100 (M.fields_of message.now))
        (λ o. o ≡ Some (pos 3)) ⊥ v) }
    ensures always { IsOk result }
{
    match message.extension(alloc, &tries())? {
        Some(value) => Ok(value),
        None => Ok(3),
    }
}

/// What the driver is told.
///
/// extend buffa.sample.Shipment { optional string note = 101 [default = "ring the bell"]; }
///
/// It is given without its default, which [`note_or_default`] has.
pub fn note() -> Extension<StringCodec>
    ensures number { result.number ≡ 101 }
    ensures extendee { result.extendee.now ≡ codes "buffa.sample.Shipment" }
{
    Extension::<StringCodec>::new(101, "buffa.sample.Shipment")
}

/// What the message has for `note`, or where it has none the declared default: "ring the bell".
/// A record that can't be read counts as none.
///
/// # Errors
/// Where memory runs out.
pub fn note_or_default<M: ExtensionSet>(alloc: Global, message: &M) -> Result<String, AllocError>
    requires { M.fqn ≡ codes "buffa.sample.Shipment" }
    ensures value { IfOk result (λ v. IsDefaulted (ReadsNumber ⟦<StringCodec as ExtensionCodec>⟧.reads
        ⟦<StringCodec as ExtensionCodec>⟧.answer 101 (M.fields_of message.now))
        (λ o. option_map string_bytes o ≡ Some (codes "ring the bell")) ⊥ v) }
{
    match message.extension(alloc, &note())? {
        Some(value) => Ok(value),
        None => String::from_str(alloc, "ring the bell"),
    }
}

/// The numbers of the depots on its way.
///
/// extend buffa.sample.Shipment { repeated uint32 depots = 102 [packed = true]; }
pub fn depots() -> Extension<PackedRepeated<Uint32>>
    ensures number { result.number ≡ 102 }
    ensures extendee { result.extendee.now ≡ codes "buffa.sample.Shipment" }
{
    Extension::<PackedRepeated<Uint32>>::new(102, "buffa.sample.Shipment")
}

/// How it is handled.
///
/// extend buffa.sample.Shipment { optional Handling handling = 104 [default = HANDLING_FRAGILE]; }
///
/// It is given without its default, which [`handling_or_default`] has.
pub fn handling() -> Extension<EnumCodec<Handling>>
    ensures number { result.number ≡ 104 }
    ensures extendee { result.extendee.now ≡ codes "buffa.sample.Shipment" }
{
    Extension::<EnumCodec<Handling>>::new(104, "buffa.sample.Shipment")
}

/// What the message has for `handling`, or where it has none the declared default: HANDLING_FRAGILE.
/// A record that can't be read counts as none.
pub fn handling_or_default<M: ExtensionSet>(
    alloc: Global,
    message: &M,
) -> Result<EnumValue<Handling>, AllocError>
    requires { M.fqn ≡ codes "buffa.sample.Shipment" }
    ensures value { IfOk result (λ v. IsDefaulted (ReadsNumber ⟦<EnumCodec<Handling> as ExtensionCodec>⟧.reads
        ⟦<EnumCodec<Handling> as ExtensionCodec>⟧.answer 104 (M.fields_of message.now))
        (λ o. option_map ⟦<EnumValue<Handling> as Blank>⟧.meaning o ≡ Some (true, pos 1)) ⊥ v) }
    ensures always { IsOk result }
{
    match message.extension(alloc, &handling())? {
        Some(value) => Ok(value),
        None => Ok(EnumValue::Known(Handling::Fragile)),
    }
}
