//! A message of one's own with extensions: its other fields stay.

ghost use Rattle.std.specs.Prelude.{◌≡◌, codes, refl};

use buffa::extension::codecs::Int32;
use buffa::{EncodeError, Extension, ExtensionSet, UnknownFields};
use std::alloc::Global;
use std::test::Fail;

/// A label, and whatever else there is.
#[derive(Drop)]
pub struct Labelled {
    /// What isn't an extension.
    pub label: u32,
    /// The records.
    pub fields: UnknownFields,
}

impl ExtensionSet for Labelled {
    const PROTO_FQN: &'static str = "test.Carrier";

    ghost fqn = { codes "test.Carrier" };

    ghost fields_of = { λ m. m.fields };

    ghost with_fields = { λ m w. record m { fields = w } };

    fn extendee_name() -> &'static str {
        Self::PROTO_FQN
    }

    fn unknown_fields(&self) -> &UnknownFields {
        &self.fields
    }

    fn unknown_fields_mut(&mut self) -> &mut UnknownFields {
        &mut self.fields
    }

    ghost fields_of_with = { λ m w. refl };

    ghost with_fields_of = { λ m. refl };

    ghost with_fields_twice = { λ m w u. refl };
}

/// A label and the records that the bytes are.
pub fn labelled_of(alloc: Global, bytes: &[u8]) -> Result<Labelled, Fail> {
    let fields = UnknownFields::decode_from_slice(alloc, bytes)?;
    Ok(Labelled { label: 3, fields })
}

/// Sets a number, and reads it back; the label stays.
pub fn set_then_read_number(
    alloc: Global,
    labelled: &mut Labelled,
    value: i32,
) -> Result<Option<i32>, EncodeError>
    ensures { labelled.new.label ≡ labelled.old.label }
{
    let ext = Extension::<Int32>::new(7, "test.Carrier");
    labelled.set_extension(alloc, &ext, value)?;
    Ok(labelled.extension(alloc, &ext)?)
}

#[test]
fn the_label_stays(rt: HostRuntime) -> Result<(), Fail> {
    let mut labelled = labelled_of(rt.alloc(), &[0x38, 0x09])?;
    let found = set_then_read_number(rt.alloc(), &mut labelled, -3)?;
    assert!(rt; found == Some(-3));
    assert!(rt; labelled.label == 3);
    assert!(rt; labelled.fields.len() == 1);
    Ok(())
}
