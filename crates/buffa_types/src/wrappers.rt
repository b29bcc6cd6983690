//! Wrappers: messages around one value.

ghost use Rattle.std.specs.Prelude.{◌≡◌, []};

use crate::messages::bool_value::BoolValue;
use crate::messages::bytes_value::BytesValue;
use crate::messages::double_value::DoubleValue;
use crate::messages::float_value::FloatValue;
use crate::messages::int32_value::Int32Value;
use crate::messages::int64_value::Int64Value;
use crate::messages::string_value::StringValue;
use crate::messages::u_int32_value::UInt32Value;
use crate::messages::u_int64_value::UInt64Value;
use buffa_fields::{DoubleBits, FloatBits, UnknownFields};
use std::alloc::Global;
use std::string::String;

impl BoolValue {
    /// This `bool` in a message.
    ///
    /// ```ignore
    /// BoolValue::new(alloc, true)
    /// ```
    pub fn new(alloc: Global, value: bool) -> BoolValue
        ensures { (result.value ≡ value) × (result.unknown_fields.records ≡ []) }
    {
        BoolValue {
            value,
            unknown_fields: UnknownFields::new(alloc),
        }
    }
}

impl BytesValue {
    /// This `bytes` in a message.
    ///
    /// ```ignore
    /// BytesValue::new(alloc, bytes)
    /// ```
    pub fn new(alloc: Global, value: Vec<u8>) -> BytesValue
        ensures { (result.value ≡ value) × (result.unknown_fields.records ≡ []) }
    {
        BytesValue {
            value,
            unknown_fields: UnknownFields::new(alloc),
        }
    }
}

impl DoubleValue {
    /// This `double` in a message.
    ///
    /// ```ignore
    /// DoubleValue::new(alloc, DoubleBits::new(0.5))
    /// ```
    pub fn new(alloc: Global, value: DoubleBits) -> DoubleValue
        ensures { (result.value ≡ value) × (result.unknown_fields.records ≡ []) }
    {
        DoubleValue {
            value,
            unknown_fields: UnknownFields::new(alloc),
        }
    }
}

impl FloatValue {
    /// This `float` in a message.
    ///
    /// ```ignore
    /// FloatValue::new(alloc, FloatBits::new(0.5))
    /// ```
    pub fn new(alloc: Global, value: FloatBits) -> FloatValue
        ensures { (result.value ≡ value) × (result.unknown_fields.records ≡ []) }
    {
        FloatValue {
            value,
            unknown_fields: UnknownFields::new(alloc),
        }
    }
}

impl Int32Value {
    /// This `int32` in a message.
    ///
    /// ```ignore
    /// Int32Value::new(alloc, -5)
    /// ```
    pub fn new(alloc: Global, value: i32) -> Int32Value
        ensures { (result.value ≡ value) × (result.unknown_fields.records ≡ []) }
    {
        Int32Value {
            value,
            unknown_fields: UnknownFields::new(alloc),
        }
    }
}

impl Int64Value {
    /// This `int64` in a message.
    ///
    /// ```ignore
    /// Int64Value::new(alloc, -5)
    /// ```
    pub fn new(alloc: Global, value: i64) -> Int64Value
        ensures { (result.value ≡ value) × (result.unknown_fields.records ≡ []) }
    {
        Int64Value {
            value,
            unknown_fields: UnknownFields::new(alloc),
        }
    }
}

impl StringValue {
    /// This `string` in a message.
    ///
    /// ```ignore
    /// StringValue::new(alloc, text)
    /// ```
    pub fn new(alloc: Global, value: String) -> StringValue
        ensures { (result.value ≡ value) × (result.unknown_fields.records ≡ []) }
    {
        StringValue {
            value,
            unknown_fields: UnknownFields::new(alloc),
        }
    }
}

impl UInt32Value {
    /// This `uint32` in a message.
    ///
    /// ```ignore
    /// UInt32Value::new(alloc, 5)
    /// ```
    pub fn new(alloc: Global, value: u32) -> UInt32Value
        ensures { (result.value ≡ value) × (result.unknown_fields.records ≡ []) }
    {
        UInt32Value {
            value,
            unknown_fields: UnknownFields::new(alloc),
        }
    }
}

impl UInt64Value {
    /// This `uint64` in a message.
    ///
    /// ```ignore
    /// UInt64Value::new(alloc, 5)
    /// ```
    pub fn new(alloc: Global, value: u64) -> UInt64Value
        ensures { (result.value ≡ value) × (result.unknown_fields.records ≡ []) }
    {
        UInt64Value {
            value,
            unknown_fields: UnknownFields::new(alloc),
        }
    }
}
