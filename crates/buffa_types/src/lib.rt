//! The well-known types: the messages of `google/protobuf/any.proto`, `duration.proto`, `empty.proto`, `field_mask.proto`,
//! `source_context.proto`, `timestamp.proto` and `wrappers.proto`, which many `.proto` files import.
//!
//! [`messages`] was made of our own text of these files, in `google/protobuf` beside `src`, by `tools/protoc-gen-buffa`. What
//! it makes of a file that imports one of them takes their types from here. Calls of [`Timestamp`], [`Duration`] and [`Any`]
//! and those that make a wrapper are written by hand.
#![tactic(auto)]

pub mod any;
pub mod duration;
pub mod laws;
pub mod messages;
pub mod named_message;
pub mod timestamp;
pub mod wrappers;

pub use messages::any::Any;
pub use messages::bool_value::BoolValue;
pub use messages::bytes_value::BytesValue;
pub use messages::double_value::DoubleValue;
pub use messages::duration::Duration;
pub use messages::empty::Empty;
pub use messages::field_mask::FieldMask;
pub use messages::float_value::FloatValue;
pub use messages::int32_value::Int32Value;
pub use messages::int64_value::Int64Value;
pub use messages::source_context::SourceContext;
pub use messages::string_value::StringValue;
pub use messages::timestamp::Timestamp;
pub use messages::u_int32_value::UInt32Value;
pub use messages::u_int64_value::UInt64Value;
pub use named_message::NamedMessage;
