//! What protoc-gen-buffa made of readings.proto.

pub mod reading;

pub use reading::Reading;
