//! Unknown fields, budgets, contexts, and caches of sizes.

use buffa::{
    Budget, DEFAULT_ELEMENT_MEMORY_LIMIT, DEFAULT_UNKNOWN_FIELD_LIMIT, DecodeContext, DecodeError,
    RECURSION_LIMIT, SizeCache, Tag, UnknownField, UnknownFieldData, UnknownFields,
    decode_unknown_field,
};
use std::alloc::Global;
use std::test::Fail;

// A list of a record of each kind.
fn of_each_kind(alloc: Global) -> Result<UnknownFields, Fail> {
    let mut list = UnknownFields::new(alloc);
    let mut text = Vec::new(alloc);
    text.extend_from_slice(b"ok")?;
    let inside = UnknownFields::new(alloc);
    for payload in [
        UnknownFieldData::Varint(5),
        UnknownFieldData::Fixed32(6),
        UnknownFieldData::Fixed64(7),
        UnknownFieldData::LengthDelimited(text),
        UnknownFieldData::Group(inside),
    ] {
        list.push(UnknownField { number: 1, payload })?;
    }
    Ok(list)
}

#[test]
fn lists(rt: HostRuntime) -> Result<(), Fail> {
    let list = of_each_kind(rt.alloc())?;
    let mut sink = Vec::new(rt.alloc());
    list.write_to(&mut sink)?;
    assert!(rt; list.encoded_len() == 22u64);
    assert!(rt; sink.len() == 22);
    let read = UnknownFields::decode_from_slice(rt.alloc(), &sink)?;
    assert!(rt; read == list);
    assert!(rt; read.len() == 5);
    Ok(())
}

#[test]
fn rooms(rt: HostRuntime) -> Result<(), Fail> {
    let mut list = of_each_kind(rt.alloc())?;
    list.retain(|field: &UnknownField| field.payload == UnknownFieldData::Varint(5));
    let mut other = UnknownFields::new(rt.alloc());
    for field in list.iter() {
        let copy: UnknownField = field.copy()?;
        other.push(copy)?;
    }
    list.reserve(1)?;
    assert!(rt; list.spare() >= 1);
    if other.len() <= list.spare() {
        list.append(other);
    }
    assert!(rt; list.len() == 2);
    Ok(())
}

#[test]
fn records(rt: HostRuntime) -> Result<(), Fail> {
    let mut budget = Budget::new(1);
    let ctx = DecodeContext::new(RECURSION_LIMIT, &mut budget);
    let mut rest: &[u8] = &[0x08, 5];
    let tag = Tag::decode(&mut rest)?;
    let field: UnknownField = decode_unknown_field(rt.alloc(), tag, &mut rest, ctx)?;
    assert!(rt; field.number == 1);
    assert!(rt; field.payload == UnknownFieldData::Varint(5));
    assert!(rt; budget.unknown_left() == 0);
    Ok(())
}

#[test]
fn budgets(rt: HostRuntime) {
    let budget = Budget::new(DEFAULT_UNKNOWN_FIELD_LIMIT);
    assert!(rt; budget.memory_left() == DEFAULT_ELEMENT_MEMORY_LIMIT);
    let budget = budget.with_element_memory(56);
    assert!(rt; budget.memory_left() == 56);
    assert!(rt; budget.unknown_left() == 1_000_000);
}

#[test]
fn contexts(rt: HostRuntime) -> Result<(), Fail> {
    let mut budget = Budget::new(1);
    let ctx = DecodeContext {
        depth: 1,
        budget: &mut budget,
    };
    assert!(rt; ctx.depth() == 1);
    let mut ctx = ctx.descend()?;
    ctx.register_unknown_field()?;
    ctx.register_element_memory(28)?;
    let lent = DecodeContext {
        depth: ctx.depth,
        budget: &mut *ctx.budget,
    };
    assert!(rt; lent.descend().err() == Some(DecodeError::RecursionLimitExceeded));
    let refused = ctx.register_unknown_field();
    assert!(rt; refused == Err(DecodeError::UnknownFieldLimitExceeded));
    Ok(())
}

#[test]
fn caches(rt: HostRuntime) -> Result<(), Fail> {
    let mut cache = SizeCache::new(rt.alloc());
    let slot: usize = cache.reserve()?;
    cache.set(slot, 300u32);
    assert!(rt; cache.consume_next() == 300);
    Ok(())
}
