//! Whether a message keeps the rules of a field.

ghost use Rattle.std.specs.Prelude.{◌↔◌, IfErr, IsOk};
ghost use Rattle.sample_options.specs.Rules.{BreaksLength, BreaksRange, FitsLength, IsInRange};

use crate::rules::Rules;
use buffa_descriptor::messages::{
    FieldDescriptorProto, FieldDescriptorProtoLabel, FieldDescriptorProtoType,
};
use buffa_fields::map_codec::{Int32, Int64, Sint32, Sint64, Uint32, Uint64};
use buffa_fields::{Scalar, UnknownFieldData, UnknownFields};
use std::alloc::{AllocError, Global};

/// Why a message doesn't keep the rules of a field.
#[derive(Clone, Copy, Debug, PartialEq, Eq)]
pub enum Fault {
    /// A value has to be there, and none is.
    Missing,
    /// A text has too many bytes.
    TooLong,
    /// A number is below the least.
    TooSmall,
    /// A number is above the greatest.
    TooGreat,
    /// The rules can't judge the value: they are for values of another type, or its wire type isn't its type's.
    OfAnotherKind,
}

// Judges the length of a text, in bytes.
fn judge_length(rules: &Rules, length: u64) -> Result<(), Fault>
    ensures accepts { IsOk result ↔ FitsLength rules.now length }
    ensures why { IfErr result (BreaksLength rules.now length) }
{
    match rules.max_len {
        Some(most) if length > most as u64 => Err(Fault::TooLong),
        _ => Ok(()),
    }
}

// Judges a number: the least comes before the greatest.
fn judge_number(rules: &Rules, number: i128) -> Result<(), Fault>
    ensures accepts { IsOk result ↔ IsInRange rules.now number }
    ensures why { IfErr result (BreaksRange rules.now number) }
{
    if let Some(least) = rules.least
        && number < least as i128
    {
        return Err(Fault::TooSmall);
    }
    if let Some(most) = rules.most
        && number > most as i128
    {
        return Err(Fault::TooGreat);
    }
    Ok(())
}

// The number that a varint is, as the type spells it; none for a type that is no integer, or isn't spelled as a varint.
fn number_of(kind: Option<FieldDescriptorProtoType>, n: u64) -> Option<i128> {
    match kind? {
        FieldDescriptorProtoType::Int32 => Some(<Int32 as Scalar>::value_of(n) as i128),
        FieldDescriptorProtoType::Int64 => Some(<Int64 as Scalar>::value_of(n) as i128),
        FieldDescriptorProtoType::Uint32 => Some(<Uint32 as Scalar>::value_of(n) as i128),
        FieldDescriptorProtoType::Uint64 => Some(<Uint64 as Scalar>::value_of(n) as i128),
        FieldDescriptorProtoType::Sint32 => Some(<Sint32 as Scalar>::value_of(n) as i128),
        FieldDescriptorProtoType::Sint64 => Some(<Sint64 as Scalar>::value_of(n) as i128),
        _ => None,
    }
}

fn has_range(rules: &Rules) -> bool {
    rules.least.is_some() || rules.most.is_some()
}

// Judges one value: what the rules can't speak of doesn't keep them.
fn judge_value(
    kind: Option<FieldDescriptorProtoType>,
    rules: &Rules,
    value: &UnknownFieldData,
) -> Result<(), Fault> {
    match value {
        UnknownFieldData::LengthDelimited(bytes) if !has_range(rules) => {
            judge_length(rules, bytes.len() as u64)
        }
        UnknownFieldData::Varint(n) if has_range(rules) && rules.max_len.is_none() => {
            match number_of(kind, *n) {
                Some(number) => judge_number(rules, number),
                None => Err(Fault::OfAnotherKind),
            }
        }
        _ if has_range(rules) || rules.max_len.is_some() => Err(Fault::OfAnotherKind),
        _ => Ok(()),
    }
}

// The values of a field in a message: of a list all, of any other field the last, which counts.
fn values_of<'a>(
    alloc: Global,
    field: &FieldDescriptorProto,
    fields: &'a UnknownFields,
) -> Result<Vec<&'a UnknownFieldData>, AllocError> {
    let is_list = field.label == Some(FieldDescriptorProtoLabel::Repeated);
    let mut values = Vec::new(alloc);
    for each in fields.iter() {
        if Some(each.number as i64) == field.number.map(|it| it as i64) {
            if !is_list {
                values.clear();
            }
            values.push(&each.payload)?;
        }
    }
    Ok(values)
}

/// Judges the values that a field has among the `fields` of a message, and says which rule the first bad one breaks.
///
/// # Errors
/// Where memory runs out.
pub fn judge(
    alloc: Global,
    field: &FieldDescriptorProto,
    rules: &Rules,
    fields: &UnknownFields,
) -> Result<Result<(), Fault>, AllocError> {
    let values = values_of(alloc, field, fields)?;
    if values.is_empty() && rules.required {
        return Ok(Err(Fault::Missing));
    }
    for value in values {
        if let Err(fault) = judge_value(field.type_, rules, value) {
            return Ok(Err(fault));
        }
    }
    Ok(Ok(()))
}
