//! What `protoc` writes is read, and written back byte for byte.

mod sets;

use buffa_descriptor::messages::{
    DescriptorProto, FieldDescriptorProtoLabel, FieldDescriptorProtoType, FieldOptions,
    FileDescriptorSet,
};
use buffa_ext::codecs::{Bool, Sint64};
use buffa_ext::{Extension, ExtensionSet};
use buffa_wire::{Blank, Message};
use std::alloc::Global;
use std::test::Fail;

fn read(alloc: Global, hex: &str) -> Result<(FileDescriptorSet, Vec<u8>), Fail> {
    let bytes = hex::decode(alloc, hex)?;
    let mut set = FileDescriptorSet::blank(alloc);
    set.merge_from_slice(alloc, &bytes)?;
    Ok((set, bytes))
}

fn is_called(message: &DescriptorProto, name: &str) -> bool {
    message
        .name
        .as_ref()
        .is_some_and(|own| own.as_str() == name)
}

#[test]
fn what_protoc_writes_is_written_back(rt: HostRuntime) -> Result<(), Fail> {
    let alloc = rt.alloc();
    for hex in [sets::DESCRIPTOR, sets::SHOP, sets::SHOP_WITH_PLACES] {
        let (set, bytes) = read(alloc, hex)?;
        assert!(rt; set.unknown_fields.len() == 0 && set.file.len() == 1);
        let encoding = set.try_encode_to_vec(alloc)?;
        assert!(rt; encoding.as_slice() == bytes.as_slice());
    }
    Ok(())
}

// The message type of this place in the one file of a set.
fn type_at(set: &FileDescriptorSet, at: usize) -> Option<&DescriptorProto> {
    set.file.first()?.message_type.get(at)
}

#[test]
fn descriptor_proto_is_described(rt: HostRuntime) -> Result<(), Fail> {
    let alloc = rt.alloc();
    let (set, _) = read(alloc, sets::DESCRIPTOR)?;
    let none = DescriptorProto::blank(alloc);
    let message = type_at(&set, 4).unwrap_or(&none);
    assert!(rt; is_called(message, "FieldDescriptorProto") && message.enum_type.len() == 2);
    for field in &message.field {
        if field.number == Some(4) {
            assert!(rt; field.type_ == Some(FieldDescriptorProtoType::Enum));
            assert!(rt; field.label == Some(FieldDescriptorProtoLabel::Optional));
        }
    }
    Ok(())
}

#[test]
fn options_are_extensions(rt: HostRuntime) -> Result<(), Fail> {
    let alloc = rt.alloc();
    let (set, _) = read(alloc, sets::SHOP)?;
    let none = DescriptorProto::blank(alloc);
    let order = type_at(&set, 1).unwrap_or(&none);
    assert!(rt; is_called(order, "Order") && order.field.len() == 7);
    let least = Extension::<Sint64>::new(50002, FieldOptions::PROTO_FQN);
    let deprecated = Extension::<Bool>::new(3, FieldOptions::PROTO_FQN);
    for field in &order.field {
        if let Some(options) = &field.options {
            assert!(rt; field.number != Some(3) || options.extension(alloc, &least)? == Some(-50));
            assert!(rt;
                field.number != Some(7) || options.extension(alloc, &deprecated)? == Some(true)
            );
        }
    }
    Ok(())
}

#[test]
fn nested_types_are_read_to_any_depth(rt: HostRuntime) -> Result<(), Fail> {
    let alloc = rt.alloc();
    let (set, _) = read(alloc, sets::SHOP)?;
    let none = DescriptorProto::blank(alloc);
    let order = type_at(&set, 1).unwrap_or(&none);
    assert!(rt; order.nested_type.len() == 2);
    for found in &order.nested_type {
        assert!(rt; found.nested_type.len() == 1 || is_called(found, "LabelsEntry"));
    }
    Ok(())
}
