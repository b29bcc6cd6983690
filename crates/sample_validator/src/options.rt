//! The custom options of a field, read of the unknown fields of its options.

ghost use Rattle.std.specs.Prelude.{◌≡◌, ◌≢◌, [], codes, refl, pos, unwrap_or};
ghost use Rattle.std.proofs.Common.{lit<};
ghost use Rattle.std.specs.Prelude.{IfErr, IfOk, IsOk, OnErr, OnOk, option_map, string_bytes};
ghost use Rattle.buffa_codec.specs.Decoded.{HasByte};
ghost use Rattle.buffa_fields.specs.MemberList.{field, keep_unknown};
ghost use Rattle.sample_validator.specs.Options.{IsMalformed, IsReadWhole, bool_option, int32_list};
ghost use Rattle.sample_validator.specs.Options.{int32_option, string_option};

use buffa_codec::{Repeated, StringCodec};
use buffa_ext::{Extension, ExtensionSet};
use buffa_fields::meaning::{And, Unknowns};
use buffa_fields::members::explicit_field::ExplicitField;
use buffa_fields::members::member::Member;
use buffa_fields::messages::message::{FieldByField, FieldsMeaning};
use buffa_fields::messages::message_fields::MessageFields;
use buffa_fields::messages::unknown;
use buffa_fields::passes::visitor::Visitor;
use buffa_wire::scalars::{Bool, Int32};
use buffa_wire::{Blank, DecodeContext, DecodeError, MessageImpl, Tag, UnknownFields};
use std::alloc::{AllocError, Global};

/// The options of a field, as `google.protobuf.FieldOptions` has them: one that is declared, and the records
/// of all others, custom options among them.
///
/// message FieldOptions { optional bool deprecated = 3; extensions 1000 to max; }
///
/// ```ignore
/// impl ExtensionSet for FieldOptions { .. }
/// ```
#[derive(Drop, PartialEq)]
pub struct FieldOptions {
    /// Whether the field is deprecated.
    pub deprecated: Option<bool>,
    /// The records of the other options, in order.
    pub fields: UnknownFields,
}

impl MessageFields for FieldOptions {
    type Meaning = And<Option<bool>, Unknowns>;

    const COST: usize = 32;

    ghost COST = { 32 };

    ghost positive = { lit< tt };

    ghost schema = { field 3 (λ m. m.deprecated) ⟦<ExplicitField<Bool> as Member>⟧.shape (keep_unknown (λ m. m.fields.records)) };

    ghost sound = { refl };

    fn visit<V: Visitor>(&self, visitor: &mut V) {
        visitor.visit::<ExplicitField<Bool>>(3, &self.deprecated);
        visitor.visit_unknown_fields(&self.fields);
    }

    fn take(
        &mut self,
        alloc: Global,
        tag: Tag,
        buf: &mut &[u8],
        ctx: DecodeContext<'_>,
    ) -> Result<(), DecodeError> {
        match tag.field_number() {
            3 => ExplicitField::<Bool>::merge(&mut self.deprecated, alloc, tag, buf, ctx),
            _ => unknown::keep(alloc, &mut self.fields, tag, buf, ctx),
        }
    }
}

impl Blank for FieldOptions {
    type Meaning = <FieldOptions as MessageFields>::Meaning;

    ghost meaning = { ⟦<FieldOptions as MessageFields>⟧.schema.meaning };

    ghost blank_is = { ⟦<FieldOptions as MessageFields>⟧.schema.blank };

    fn blank(alloc: Global) -> FieldOptions {
        FieldOptions {
            deprecated: None,
            fields: UnknownFields::new(alloc),
        }
    }
}

impl FieldsMeaning for FieldOptions {
    ghost means = { λ m. refl };

    ghost starts = { refl };
}

impl MessageImpl for FieldOptions {
    type Impl = FieldByField;
}

impl ExtensionSet for FieldOptions {
    const PROTO_FQN: &'static str = "google.protobuf.FieldOptions";

    ghost fqn = { codes "google.protobuf.FieldOptions" };

    ghost fields_of = { λ m. m.fields };

    ghost with_fields = { λ m w. record m { fields = w } };

    fn extendee_name() -> &'static str {
        Self::PROTO_FQN
    }

    fn unknown_fields(&self) -> &UnknownFields {
        &self.fields
    }

    fn unknown_fields_mut(&mut self) -> &mut UnknownFields {
        &mut self.fields
    }

    ghost fields_of_with = { λ m w. refl };

    ghost with_fields_of = { λ m. refl };

    ghost with_fields_twice = { λ m w u. refl };
}

/// A custom option of type `int32`, by its number; none where no record says it.
///
/// # Errors
/// None: reading a number takes no memory.
///
/// ```ignore
/// let limit = read_int32(alloc, &options, 50001)?; // Some(80)
/// ```
pub fn read_int32(
    alloc: Global,
    options: &FieldOptions,
    number: u32,
) -> Result<Option<i32>, AllocError>
    ensures value { IfOk result (λ o. o ≡ int32_option number options.now.fields.records) }
    ensures always { IsOk result }
{
    let option = Extension::<Int32>::new(number, FieldOptions::PROTO_FQN);
    options.extension(alloc, &option)
}

/// A custom option of type `bool`, by its number; none where no record says it.
///
/// # Errors
/// None: reading a number takes no memory.
///
/// ```ignore
/// let required = read_bool(alloc, options, 50013)?; // Some(true)
/// ```
pub fn read_bool(
    alloc: Global,
    options: &FieldOptions,
    number: u32,
) -> Result<Option<bool>, AllocError>
    ensures value { IfOk result (λ o. o ≡ bool_option number options.now.fields.records) }
    ensures always { IsOk result }
{
    let option = Extension::<Bool>::new(number, FieldOptions::PROTO_FQN);
    options.extension(alloc, &option)
}

/// The same as [`read_int32`], where each record of the number is a varint; none only where there is no record.
///
/// # Errors
/// [`DecodeError::WireTypeMismatch`] of the first record that is no varint. It takes no memory.
///
/// ```ignore
/// let least = read_int32_strictly(alloc, options, 50011)?; // Some(1)
/// ```
pub fn read_int32_strictly(
    alloc: Global,
    options: &FieldOptions,
    number: u32,
) -> Result<Option<i32>, DecodeError>
    ensures value { IfOk result (λ o. o ≡ int32_option number options.now.fields.records) }
    ensures whole { OnOk result (IsReadWhole number options.now.fields.records) }
    ensures fault { IfErr result (IsMalformed number options.now.fields.records) }
{
    let strict = Extension::<Int32>::new(number, FieldOptions::PROTO_FQN);
    options.read_extension(alloc, &strict)
}

/// The same as [`read_bool`], where each record of the number is a varint; none only where there is no record.
///
/// # Errors
/// [`DecodeError::WireTypeMismatch`] of the first record that is no varint. It takes no memory.
///
/// ```ignore
/// let required = read_bool_strictly(alloc, options, 50013)?; // Some(true)
/// ```
pub fn read_bool_strictly(
    alloc: Global,
    options: &FieldOptions,
    number: u32,
) -> Result<Option<bool>, DecodeError>
    ensures value { IfOk result (λ o. o ≡ bool_option number options.now.fields.records) }
    ensures whole { OnOk result (IsReadWhole number options.now.fields.records) }
    ensures fault { IfErr result (IsMalformed number options.now.fields.records) }
{
    let strict = Extension::<Bool>::new(number, FieldOptions::PROTO_FQN);
    options.read_extension(alloc, &strict)
}

/// The option `int32 max_length = 50001`, or 255 where no record says it.
///
/// # Errors
/// None: neither reading a number nor making this default takes memory.
///
/// ```ignore
/// let limit = max_length_or_default(alloc, &options)?; // 255
/// ```
pub fn max_length_or_default(alloc: Global, options: &FieldOptions) -> Result<i32, AllocError>
    ensures value { IfOk result (λ v. v ≡ unwrap_or (int32_option 50001 options.now.fields.records) (pos 255)) }
    ensures always { IsOk result }
{
    let max_length = Extension::<Int32>::with_default(
        50001,
        FieldOptions::PROTO_FQN,
        |_alloc: Global| -> Result<i32, AllocError>
            ensures value { IfOk result (λ v. v ≡ pos 255) }
            ensures always { IsOk result }
        { Ok(255) },
    );
    options.extension_or_default(alloc, &max_length)
}

/// The option `string label = 50002`: the last that is UTF-8.
///
/// # Errors
/// Where memory runs out; never where no record is a string, nor for an empty one.
///
/// ```ignore
/// let label = read_label(alloc, &options)?; // Some("name")
/// ```
pub fn read_label(alloc: Global, options: &FieldOptions) -> Result<Option<String>, AllocError>
    ensures value { IfOk result (λ o. option_map string_bytes o ≡ string_option 50002 options.now.fields.records) }
    ensures full { OnErr result (HasByte (string_option 50002 options.now.fields.records)) }
{
    let label = Extension::<StringCodec>::new(50002, FieldOptions::PROTO_FQN);
    options.extension(alloc, &label)
}

/// The option `repeated int32 choices = 50003`: the numbers of all its records, packed or not.
///
/// # Errors
/// Where memory runs out; never where the records have no number.
///
/// ```ignore
/// let choices = read_choices(alloc, &options_of(alloc, &listed)?)?; // [1, 2, 300]
/// ```
pub fn read_choices(alloc: Global, options: &FieldOptions) -> Result<Vec<i32>, AllocError>
    ensures value { IfOk result (λ v. v.items ≡ int32_list 50003 options.now.fields.records) }
    ensures full { OnErr result (int32_list 50003 options.now.fields.records ≢ []) }
{
    let choices = Extension::<Repeated<Int32>>::new(50003, FieldOptions::PROTO_FQN);
    options.extension(alloc, &choices)
}
