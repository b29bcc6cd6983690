//! What protoc-gen-buffa made of error_info.proto.

pub mod error_info;

pub use error_info::ErrorInfo;
