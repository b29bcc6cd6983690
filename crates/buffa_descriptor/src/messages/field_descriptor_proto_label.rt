//! google.protobuf.FieldDescriptorProto.Label, made of descriptor.proto by protoc-gen-buffa.

ghost use Rattle.std.specs.Prelude.{None, Some, if◌then◌else◌, pos, refl};
ghost use Rattle.std.specs.Ordering.{int_eq};

use buffa_fields::{Blank, Enumeration};
use std::alloc::Global;

/// How often a field may stand in a message. A field of proto3 that isn't repeated is optional.
///
/// enum Label {
///     LABEL_OPTIONAL = 1;
///     LABEL_REQUIRED = 2;
///     LABEL_REPEATED = 3;
/// }
#[derive(Clone, Copy, Debug, PartialEq, Eq)]
pub enum FieldDescriptorProtoLabel {
    Optional,
    Required,
    Repeated,
}

impl Blank for FieldDescriptorProtoLabel {
    ghost use Rattle.buffa_descriptor.specs.declared.messages.field_descriptor_proto_label.FieldDescriptorProtoLabel.TheVariants.{Optional, Required, Repeated};

    type Meaning = i32;

    ghost meaning = { elim [ Optional ↦ pos 1 | Required ↦ pos 2 | Repeated ↦ pos 3 ] };

    ghost blank_is = { pos 1 };

    fn blank(_alloc: Global) -> FieldDescriptorProtoLabel {
        FieldDescriptorProtoLabel::Optional
    }
}

impl Enumeration for FieldDescriptorProtoLabel {
    ghost use Rattle.buffa_descriptor.specs.declared.messages.field_descriptor_proto_label.FieldDescriptorProtoLabel.TheVariants.{Optional, Required, Repeated};

    ghost of_number = { λ n.
        if int_eq n (pos 1) then Some Optional else if int_eq n (pos 2) then Some Required else
        if int_eq n (pos 3) then Some Repeated else
        None };

    fn from_i32(number: i32) -> Option<FieldDescriptorProtoLabel> {
        match number {
            1 => Some(FieldDescriptorProtoLabel::Optional),
            2 => Some(FieldDescriptorProtoLabel::Required),
            3 => Some(FieldDescriptorProtoLabel::Repeated),
            _ => None,
        }
    }

    fn to_i32(&self) -> i32 {
        match self {
            FieldDescriptorProtoLabel::Optional => 1,
            FieldDescriptorProtoLabel::Required => 2,
            FieldDescriptorProtoLabel::Repeated => 3,
        }
    }

    ghost stays = { elim [ Optional ↦ refl | Required ↦ refl | Repeated ↦ refl ] };

    ghost blank_declared = { refl };
}

impl FieldDescriptorProtoLabel {
    /// The full name of the enum.
    pub const FULL_NAME: &'static str = "google.protobuf.FieldDescriptorProto.Label";
}
