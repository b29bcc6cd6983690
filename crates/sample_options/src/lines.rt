//! What is printed.

use crate::judge::Fault;
use crate::rules::Rules;
use buffa_descriptor::messages::FieldDescriptorProto;
use std::alloc::{AllocError, Global};

/// A field, and its rules.
pub fn field_line(
    alloc: Global,
    field: &FieldDescriptorProto,
    rules: &Rules,
) -> Result<String, AllocError> {
    let name = field.name.as_ref().map_or("", |it| it.as_str());
    let mut line = format!(in alloc; "{name} = {}", field.number.unwrap_or(0))?;
    if let Some(most) = rules.max_len {
        line.push_str(format!(in alloc; ", at most {most} bytes")?.as_str())?;
    }
    if let Some(least) = rules.least {
        line.push_str(format!(in alloc; ", at least {least}")?.as_str())?;
    }
    if let Some(most) = rules.most {
        line.push_str(format!(in alloc; ", at most {most}")?.as_str())?;
    }
    if rules.required {
        line.push_str(", required")?;
    }
    Ok(line)
}

/// The rule that is broken.
pub fn fault_line(fault: Fault) -> &'static str {
    match fault {
        Fault::Missing => "isn't there",
        Fault::TooLong => "is too long",
        Fault::TooSmall => "is too small",
        Fault::TooGreat => "is too great",
        Fault::OfAnotherKind => "isn't of the kind that the rules are for",
    }
}
