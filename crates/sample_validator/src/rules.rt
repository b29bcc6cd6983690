//! A validator that the options of a field drive.

ghost use Rattle.std.specs.Prelude.{◌≡◌, ◌↔◌, IfOk, IfErr, IsOk, OnOk};
ghost use Rattle.sample_validator.specs.Rules.{Accepts, AreMalformed, AreRead, BreaksRule, rules_in};

use crate::options::{FieldOptions, read_bool_strictly, read_int32_strictly};
use buffa_wire::DecodeError;
use std::alloc::Global;

/// What a field of type `int32` may hold.
///
/// ```ignore
/// let found = read_rules(alloc, options)?;
/// ```
#[derive(Clone, Copy, Debug, PartialEq, Eq)]
pub struct Rules {
    /// The least value, where one is set.
    pub min: Option<i32>,
    /// The greatest value, where one is set.
    pub max: Option<i32>,
    /// Whether a value has to be there.
    pub required: bool,
}

/// Why a value isn't accepted.
///
/// ```ignore
/// let judged = Err(Violation::TooSmall);
/// ```
#[derive(Clone, Copy, Debug, PartialEq, Eq)]
pub enum Violation {
    /// A value has to be there, and none is.
    Missing,
    /// It is below the least value.
    TooSmall,
    /// It is above the greatest value.
    TooGreat,
}

/// The rules that the options `int32 min = 50011`, `int32 max = 50012` and `bool required = 50013` set.
///
/// # Errors
/// The first fault of an option, in this order: a malformed limit is no limit left out. Reading numbers takes no memory.
///
/// ```ignore
/// let found = read_rules(alloc, options)?; // min 1, max 9, required
/// ```
pub fn read_rules(alloc: Global, options: &FieldOptions) -> Result<Rules, DecodeError>
    ensures value { IfOk result (λ r. r ≡ rules_in options.now.fields.records) }
    ensures whole { OnOk result (AreRead options.now.fields.records) }
    ensures fault { IfErr result (AreMalformed options.now.fields.records) }
{
    Ok(Rules {
        min: read_int32_strictly(alloc, options, 50011)?,
        max: read_int32_strictly(alloc, options, 50012)?,
        required: read_bool_strictly(alloc, options, 50013)?.unwrap_or(false),
    })
}

/// Judges the value of a field, none where it has no value.
///
/// # Errors
/// The first rule that it breaks: the minimum comes before the maximum.
///
/// ```ignore
/// let judged = judge(&rules, value); // Err(Violation::TooGreat) for Some(12), where 9 is the maximum
/// ```
pub fn judge(rules: &Rules, value: Option<i32>) -> Result<(), Violation>
    ensures accepts { IsOk result ↔ Accepts rules.now value }
    ensures why { IfErr result (BreaksRule rules.now value) }
{
    let Some(number) = value else {
        return if rules.required {
            Err(Violation::Missing)
        } else {
            Ok(())
        };
    };
    if let Some(min) = rules.min
        && number < min
    {
        return Err(Violation::TooSmall);
    }
    if let Some(max) = rules.max
        && max < number
    {
        return Err(Violation::TooGreat);
    }
    Ok(())
}

/// Judges the value of a field by its options: of a value that isn't accepted, the first rule that it breaks.
///
/// # Errors
/// That of [`read_rules`], where an option is malformed.
///
/// ```ignore
/// let judged = validate(alloc, &options, value)?; // Ok(()) for Some(5), where 1 to 9 are allowed
/// ```
pub fn validate(
    alloc: Global,
    options: &FieldOptions,
    value: Option<i32>,
) -> Result<Result<(), Violation>, DecodeError>
    ensures judged { IfOk result (λ judged. IsOk judged ↔ Accepts (rules_in options.now.fields.records) value) }
    ensures why { IfOk result (λ judged. IfErr judged (BreaksRule (rules_in options.now.fields.records) value)) }
    ensures whole { OnOk result (AreRead options.now.fields.records) }
    ensures fault { IfErr result (AreMalformed options.now.fields.records) }
{
    let rules = read_rules(alloc, options)?;
    Ok(judge(&rules, value))
}
