//! Extensions: descriptors, codecs, calls on a message, and steps.

use crate::labelled::{Labelled, labelled_of};
use buffa::extension::codecs::{Int32, PackedRepeated, Repeated, StringCodec};
use buffa::extension::{
    Declared, Extension, ExtensionCodec, ExtensionSet, Make, NoDefault, PackableCodec, ReplayFault,
    SingularCodec, Step, StrictCodec, StrictElementCodec, StrictSingularCodec, replay,
};
use buffa::{Budget, DecodeContext, RECURSION_LIMIT, UnknownFieldData, UnknownFields};
use std::alloc::{AllocError, Global};
use std::test::Fail;

#[test]
fn descriptors(rt: HostRuntime) -> Result<(), Fail> {
    let ext: Extension<Int32, NoDefault> = Extension::<Int32>::new(7, "test.Carrier");
    let copy = ext;
    assert!(rt; copy.number() == 7);
    assert!(rt; ext.extendee() == "test.Carrier");
    assert!(rt; ext.declared(rt.alloc())? == None);
    assert!(rt; Declared::<i32>::declared(&NoDefault, rt.alloc())? == None);
    Ok(())
}

// What is declared of an extension with a default.
fn declared_of<F: Fn(Global) -> Result<i32, AllocError> + Copy>(
    alloc: Global,
    default: F,
) -> Result<Option<i32>, AllocError>
    requires { F.IsAlwaysCallable default }
{
    let ext: Extension<Int32, Make<F>> = Extension::<Int32>::with_default(
        7,
        "test.Carrier",
        default,
    );
    ext.declared(alloc)
}

#[test]
fn defaults_are_declared(rt: HostRuntime) -> Result<(), Fail> {
    let declared = declared_of(rt.alloc(), |_alloc: Global| -> Result<i32, AllocError> {
        Ok(9)
    })?;
    assert!(rt; declared == Some(9));
    Ok(())
}

#[test]
fn sets_of_extensions(rt: HostRuntime) -> Result<(), Fail> {
    let mut labelled = labelled_of(rt.alloc(), &[0x38, 5])?;
    let ext = Extension::<Int32>::new(7, "test.Carrier");
    assert!(rt; labelled.extension(rt.alloc(), &ext)? == Some(5));
    assert!(rt; labelled.read_extension(rt.alloc(), &ext)? == Some(5));
    labelled.set_extension(rt.alloc(), &ext, 6)?;
    labelled.try_set_extension(rt.alloc(), &ext, 7)?;
    assert!(rt; labelled.has_extension(&ext));
    assert!(rt; labelled.extension_or_default(rt.alloc(), &ext)? == 7);
    labelled.clear_extension(&ext);
    assert!(rt; !labelled.has_extension(&ext));
    assert!(rt; labelled.unknown_fields().len() == 0);
    assert!(rt; labelled.unknown_fields_mut().len() == 0);
    assert!(rt; <Labelled as ExtensionSet>::PROTO_FQN == "test.Carrier");
    Ok(())
}

#[test]
fn codecs_of_all_records(rt: HostRuntime) -> Result<(), Fail> {
    let mut fields = UnknownFields::new(rt.alloc());
    <Int32 as ExtensionCodec>::try_encode(rt.alloc(), 1, 5, &mut fields)?;
    <Int32 as ExtensionCodec>::encode(rt.alloc(), 1, 6, &mut fields)?;
    let last = <Int32 as ExtensionCodec>::decode(rt.alloc(), 1, &fields)?;
    assert!(rt; last == Some(6));
    let all: Vec<i32> = <Repeated<Int32> as ExtensionCodec>::decode(rt.alloc(), 1, &fields)?;
    assert!(rt; all.as_slice() == [5, 6].as_slice());
    let packed = <PackedRepeated<Int32> as ExtensionCodec>::decode(rt.alloc(), 1, &fields)?;
    assert!(rt; packed.as_slice() == all.as_slice());
    Ok(())
}

#[test]
fn codecs_of_one_record(rt: HostRuntime) -> Result<(), Fail> {
    let payload = <Int32 as SingularCodec>::try_encode_one(rt.alloc(), &5)?;
    let again = <Int32 as SingularCodec>::encode_one(rt.alloc(), &5)?;
    assert!(rt; payload == UnknownFieldData::Varint(5));
    assert!(rt; again == payload);
    let read = <Int32 as SingularCodec>::decode_one(rt.alloc(), &payload)?;
    assert!(rt; read == Some(5));
    let mut budget = Budget::new(0);
    let ctx = DecodeContext::new(RECURSION_LIMIT, &mut budget);
    let read = <Int32 as SingularCodec>::decode_one_ctx(rt.alloc(), &payload, ctx)?;
    assert!(rt; read == Some(5));
    let none = <StringCodec as SingularCodec>::decode_one(rt.alloc(), &payload)?;
    assert!(rt; none.is_none());
    Ok(())
}

#[test]
fn strict_codecs(rt: HostRuntime) -> Result<(), Fail> {
    let payload = UnknownFieldData::Varint(5);
    assert!(rt; <Int32 as StrictSingularCodec>::fault(1, &payload).is_none());
    let mut budget = Budget::new(0);
    <Int32 as StrictElementCodec>::check_element(rt.alloc(), 1, &payload, &mut budget)?;
    let fields = UnknownFields::decode_from_slice(rt.alloc(), &[0x08, 5])?;
    assert!(rt; <Int32 as StrictCodec>::decode_strictly(rt.alloc(), 1, &fields)? == Some(5));
    Ok(())
}

#[test]
fn packed_values(rt: HostRuntime) -> Result<(), Fail> {
    let mut bytes = Vec::new(rt.alloc());
    <Int32 as PackableCodec>::encode_packed(&300, &mut bytes)?;
    assert!(rt; bytes.as_slice() == [0xAC, 2].as_slice());
    let mut out = Vec::new(rt.alloc());
    <Int32 as SingularCodec>::decode_packed(&bytes, &mut out)?;
    assert!(rt; out.as_slice() == [300].as_slice());
    Ok(())
}

// A set of 1 to one record, a clear of 7, and a set of 2 to no records.
fn three_steps(alloc: Global) -> Result<Vec<Step>, Fail> {
    let mut records: Vec<UnknownFieldData> = Vec::new(alloc);
    records.push(UnknownFieldData::Varint(8))?;
    let none: Vec<UnknownFieldData> = Vec::new(alloc);
    let mut steps = Vec::new(alloc);
    steps.push(Step::Set { number: 1, records })?;
    steps.push(Step::Clear { number: 7 })?;
    steps.push(Step::Set {
        number: 2,
        records: none,
    })?;
    Ok(steps)
}

#[test]
fn steps(rt: HostRuntime) -> Result<(), Fail> {
    let mut fields = UnknownFields::decode_from_slice(rt.alloc(), &[0x08, 5, 0x38, 9, 0x08, 6])?;
    let steps = three_steps(rt.alloc())?;
    let answer: Result<(), ReplayFault> = replay(rt.alloc(), &mut fields, steps);
    match answer {
        Ok(()) => {
            assert!(rt; fields == UnknownFields::decode_from_slice(rt.alloc(), &[0x08, 8])?);
        }
        Err(ReplayFault { done }) => assert!(rt; done < 3),
    }
    Ok(())
}
