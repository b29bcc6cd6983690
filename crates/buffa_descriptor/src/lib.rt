//! Descriptors: the messages of `google/protobuf/descriptor.proto`, by which a program knows what `.proto` files declare.
//!
//! `protoc --include_imports --descriptor_set_out=x.bin x.proto` writes a [`messages::FileDescriptorSet`]. Each `..Options` is an
//! `ExtensionSet`, and each option, declared by `descriptor.proto` or custom, is read from it as an extension. Fields that
//! aren't declared are kept. A [`messages::DescriptorProto`] holds a list of itself, its `nested_type`.
//!
//! [`messages`] was made of `descriptor.proto`, beside `src`, by `tools/protoc-gen-buffa`.
#![tactic(auto)]

pub mod messages;
