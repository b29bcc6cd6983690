//! A message type in a set, by its full name.

use buffa_descriptor::messages::{DescriptorProto, FileDescriptorSet};

fn is_called(message: &DescriptorProto, name: &str) -> bool {
    message
        .name
        .as_ref()
        .is_some_and(|own| own.as_str() == name)
}

// Of types, and those in them, the one that a path of names leads to: `Order.Line` to the type `Line` in `Order`.
fn at_path<'a>(types: &'a [DescriptorProto], path: &str) -> Option<&'a DescriptorProto> {
    let mut names = path.split('.');
    let first = names.next()?;
    let mut message = types.iter().find(|it| is_called(it, first))?;
    for name in names {
        message = message.nested_type.iter().find(|it| is_called(it, name))?;
    }
    Some(message)
}

// What follows the package and a dot in a full name.
fn path_in<'a>(package: Option<&str>, full: &'a str) -> Option<&'a str> {
    match package {
        None => Some(full),
        Some(package) => full.strip_prefix(package)?.strip_prefix('.'),
    }
}

/// The message type with this full name, which has no dot in front; none where the set doesn't have it.
pub fn message_type<'a>(set: &'a FileDescriptorSet, full: &str) -> Option<&'a DescriptorProto> {
    for file in &set.file {
        let package = file.package.as_ref().map(|it| it.as_str());
        let Some(path) = path_in(package, full) else {
            continue;
        };
        if let Some(message) = at_path(file.message_type.as_slice(), path) {
            return Some(message);
        }
    }
    None
}
