//! Groups whose records are more than a budget has unknown fields left, which no bytes are read as.

use buffa::extension::codecs::{GroupCodec, Repeated};
use buffa::extension::{Extension, ExtensionSet};
use buffa::{UnknownField, UnknownFieldData, UnknownFields};
use sample_types::keep::BudgetMsg;
use sample_validator::Carrier;
use std::alloc::Global;
use std::test::Fail;

// So many records of number 9, each the varint 0.
fn zeros(alloc: Global, count: usize) -> Result<UnknownFields, Fail> {
    let mut fields = UnknownFields::new(alloc);
    for _ in 0..count {
        let payload = UnknownFieldData::Varint(0);
        fields.push(UnknownField { number: 9, payload })?;
    }
    Ok(fields)
}

// A carrier of two groups of number 1, each with 666,666 records.
fn carrier_of_two(alloc: Global) -> Result<Carrier, Fail> {
    let mut carrier = Carrier {
        fields: UnknownFields::new(alloc),
    };
    for _ in 0..2 {
        let payload = UnknownFieldData::Group(zeros(alloc, 666_666)?);
        carrier.fields.push(UnknownField { number: 1, payload })?;
    }
    Ok(carrier)
}

#[test]
fn groups_of_a_message_share_one_budget(rt: HostRuntime) -> Result<(), Fail> {
    let alloc = rt.alloc();
    let one = Extension::<GroupCodec<BudgetMsg>>::new(1, "test.Carrier");
    let all = Extension::<Repeated<GroupCodec<BudgetMsg>>>::new(1, "test.Carrier");
    let carrier = carrier_of_two(alloc)?;
    assert!(rt; carrier.extension(alloc, &one)?.is_none());
    let list = carrier.extension(alloc, &all)?;
    assert!(rt; list.len() == 1);
    Ok(())
}
