//! The rules that the options of a field set.

use crate::messages::extensions::{least, max_len, most, required};
use buffa_descriptor::messages::FieldDescriptorProto;
use buffa_ext::ExtensionSet;
use buffa_fields::DecodeError;
use std::alloc::Global;

/// What a value of a field may be.
#[derive(Clone, Copy, Debug, PartialEq, Eq)]
pub struct Rules {
    /// Of a text, how many bytes it may have.
    pub max_len: Option<u32>,
    /// Of a number, the least that it may be.
    pub least: Option<i64>,
    /// Of a number, the greatest that it may be.
    pub most: Option<i64>,
    /// Whether a value has to be there.
    pub required: bool,
}

/// The rules that a field's options set, which `shop.proto` declares. Each record of an option has to be read.
///
/// # Errors
/// Where an option is malformed, or memory runs out.
pub fn read_rules(alloc: Global, field: &FieldDescriptorProto) -> Result<Rules, DecodeError> {
    let Some(options) = &field.options else {
        return Ok(Rules {
            max_len: None,
            least: None,
            most: None,
            required: false,
        });
    };
    Ok(Rules {
        max_len: options.read_extension(alloc, &max_len())?,
        least: options.read_extension(alloc, &least())?,
        most: options.read_extension(alloc, &most())?,
        required: options.read_extension(alloc, &required())?.unwrap_or(false),
    })
}
