//! What protoc-gen-buffa made of shop.proto.

pub mod extensions;
pub mod note;

pub use note::Note;
