//! google.protobuf.FieldDescriptorProto.Type, made of descriptor.proto by protoc-gen-buffa.

ghost use Rattle.std.specs.Prelude.{None, Some, if◌then◌else◌, pos, refl};
ghost use Rattle.std.specs.Ordering.{int_eq};

use buffa_fields::{Blank, Enumeration};
use std::alloc::Global;

/// The type of a field.
///
/// enum Type {
///     TYPE_DOUBLE = 1;
///     TYPE_FLOAT = 2;
///     TYPE_INT64 = 3;
///     TYPE_UINT64 = 4;
///     TYPE_INT32 = 5;
///     TYPE_FIXED64 = 6;
///     TYPE_FIXED32 = 7;
///     TYPE_BOOL = 8;
///     TYPE_STRING = 9;
///     TYPE_GROUP = 10;
///     TYPE_MESSAGE = 11;
///     TYPE_BYTES = 12;
///     TYPE_UINT32 = 13;
///     TYPE_ENUM = 14;
///     TYPE_SFIXED32 = 15;
///     TYPE_SFIXED64 = 16;
///     TYPE_SINT32 = 17;
///     TYPE_SINT64 = 18;
/// }
#[derive(Clone, Copy, Debug, PartialEq, Eq)]
pub enum FieldDescriptorProtoType {
    Double,
    Float,
    Int64,
    Uint64,
    Int32,
    Fixed64,
    Fixed32,
    Bool,
    String,
    Group,
    Message,
    Bytes,
    Uint32,
    Enum,
    Sfixed32,
    Sfixed64,
    Sint32,
    Sint64,
}

impl Blank for FieldDescriptorProtoType {
    ghost use Rattle.buffa_descriptor.specs.declared.messages.field_descriptor_proto_type.FieldDescriptorProtoType.TheVariants.{Double, Float, Int64, Uint64, Int32, Fixed64, Fixed32, Bool, String, Group, Message, Bytes, Uint32, Enum, Sfixed32, Sfixed64, Sint32, Sint64};

    type Meaning = i32;

    ghost meaning = { elim [
      | Double ↦ pos 1
      | Float ↦ pos 2
      | Int64 ↦ pos 3
      | Uint64 ↦ pos 4
      | Int32 ↦ pos 5
      | Fixed64 ↦ pos 6
      | Fixed32 ↦ pos 7
      | Bool ↦ pos 8
      | String ↦ pos 9
      | Group ↦ pos 10
      | Message ↦ pos 11
      | Bytes ↦ pos 12
      | Uint32 ↦ pos 13
      | Enum ↦ pos 14
      | Sfixed32 ↦ pos 15
      | Sfixed64 ↦ pos 16
      | Sint32 ↦ pos 17
      | Sint64 ↦ pos 18
    ] };

    ghost blank_is = { pos 1 };

    fn blank(_alloc: Global) -> FieldDescriptorProtoType {
        FieldDescriptorProtoType::Double
    }
}

impl Enumeration for FieldDescriptorProtoType {
    ghost use Rattle.buffa_descriptor.specs.declared.messages.field_descriptor_proto_type.FieldDescriptorProtoType.TheVariants.{Double, Float, Int64, Uint64, Int32, Fixed64, Fixed32, Bool, String, Group, Message, Bytes, Uint32, Enum, Sfixed32, Sfixed64, Sint32, Sint64};

    ghost of_number = { λ n.
        if int_eq n (pos 1) then Some Double else if int_eq n (pos 2) then Some Float else
        if int_eq n (pos 3) then Some Int64 else if int_eq n (pos 4) then Some Uint64 else
        if int_eq n (pos 5) then Some Int32 else if int_eq n (pos 6) then Some Fixed64 else
        if int_eq n (pos 7) then Some Fixed32 else if int_eq n (pos 8) then Some Bool else
        if int_eq n (pos 9) then Some String else if int_eq n (pos 10) then Some Group else
        if int_eq n (pos 11) then Some Message else if int_eq n (pos 12) then Some Bytes else
        if int_eq n (pos 13) then Some Uint32 else if int_eq n (pos 14) then Some Enum else
        if int_eq n (pos 15) then Some Sfixed32 else if int_eq n (pos 16) then Some Sfixed64 else
        if int_eq n (pos 17) then Some Sint32 else if int_eq n (pos 18) then Some Sint64 else
        None };

    fn from_i32(number: i32) -> Option<FieldDescriptorProtoType> {
        match number {
            1 => Some(FieldDescriptorProtoType::Double),
            2 => Some(FieldDescriptorProtoType::Float),
            3 => Some(FieldDescriptorProtoType::Int64),
            4 => Some(FieldDescriptorProtoType::Uint64),
            5 => Some(FieldDescriptorProtoType::Int32),
            6 => Some(FieldDescriptorProtoType::Fixed64),
            7 => Some(FieldDescriptorProtoType::Fixed32),
            8 => Some(FieldDescriptorProtoType::Bool),
            9 => Some(FieldDescriptorProtoType::String),
            10 => Some(FieldDescriptorProtoType::Group),
            11 => Some(FieldDescriptorProtoType::Message),
            12 => Some(FieldDescriptorProtoType::Bytes),
            13 => Some(FieldDescriptorProtoType::Uint32),
            14 => Some(FieldDescriptorProtoType::Enum),
            15 => Some(FieldDescriptorProtoType::Sfixed32),
            16 => Some(FieldDescriptorProtoType::Sfixed64),
            17 => Some(FieldDescriptorProtoType::Sint32),
            18 => Some(FieldDescriptorProtoType::Sint64),
            _ => None,
        }
    }

    fn to_i32(&self) -> i32 {
        match self {
            FieldDescriptorProtoType::Double => 1,
            FieldDescriptorProtoType::Float => 2,
            FieldDescriptorProtoType::Int64 => 3,
            FieldDescriptorProtoType::Uint64 => 4,
            FieldDescriptorProtoType::Int32 => 5,
            FieldDescriptorProtoType::Fixed64 => 6,
            FieldDescriptorProtoType::Fixed32 => 7,
            FieldDescriptorProtoType::Bool => 8,
            FieldDescriptorProtoType::String => 9,
            FieldDescriptorProtoType::Group => 10,
            FieldDescriptorProtoType::Message => 11,
            FieldDescriptorProtoType::Bytes => 12,
            FieldDescriptorProtoType::Uint32 => 13,
            FieldDescriptorProtoType::Enum => 14,
            FieldDescriptorProtoType::Sfixed32 => 15,
            FieldDescriptorProtoType::Sfixed64 => 16,
            FieldDescriptorProtoType::Sint32 => 17,
            FieldDescriptorProtoType::Sint64 => 18,
        }
    }

    ghost stays = { elim [
      | Double ↦ refl
      | Float ↦ refl
      | Int64 ↦ refl
      | Uint64 ↦ refl
      | Int32 ↦ refl
      | Fixed64 ↦ refl
      | Fixed32 ↦ refl
      | Bool ↦ refl
      | String ↦ refl
      | Group ↦ refl
      | Message ↦ refl
      | Bytes ↦ refl
      | Uint32 ↦ refl
      | Enum ↦ refl
      | Sfixed32 ↦ refl
      | Sfixed64 ↦ refl
      | Sint32 ↦ refl
      | Sint64 ↦ refl
    ] };

    ghost blank_declared = { refl };
}

impl FieldDescriptorProtoType {
    /// The full name of the enum.
    pub const FULL_NAME: &'static str = "google.protobuf.FieldDescriptorProto.Type";
}
