//! What protoc-gen-buffa made of google/protobuf/any.proto, google/protobuf/duration.proto, google/protobuf/empty.proto, google/protobuf/field_mask.proto, google/protobuf/source_context.proto, google/protobuf/timestamp.proto, google/protobuf/wrappers.proto.

pub mod any;
pub mod bool_value;
pub mod bytes_value;
pub mod double_value;
pub mod duration;
pub mod empty;
pub mod field_mask;
pub mod float_value;
pub mod int32_value;
pub mod int64_value;
pub mod source_context;
pub mod string_value;
pub mod timestamp;
pub mod u_int32_value;
pub mod u_int64_value;

pub use any::Any;
pub use bool_value::BoolValue;
pub use bytes_value::BytesValue;
pub use double_value::DoubleValue;
pub use duration::Duration;
pub use empty::Empty;
pub use field_mask::FieldMask;
pub use float_value::FloatValue;
pub use int32_value::Int32Value;
pub use int64_value::Int64Value;
pub use source_context::SourceContext;
pub use string_value::StringValue;
pub use timestamp::Timestamp;
pub use u_int32_value::UInt32Value;
pub use u_int64_value::UInt64Value;
