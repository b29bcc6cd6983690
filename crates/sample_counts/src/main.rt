//! A map field by itself: `map<string, int32> counts = 5` is read from the standard input, changed and written.
#![tactic(auto)]

ghost use Rattle.std.specs.Prelude.{◌≡◌, IfOk, string_bytes, vec_items};
ghost use Rattle.buffa_map.specs.Encoding.{field_encoding, field_size, saturated};
ghost use Rattle.buffa_map.specs.Pairs.{means};

use anyhow::{Error, anyhow};
use buffa_map::map_codec::{Int32, MapCodec, Str, field_len, read_map_field, write_field};
use buffa_wire::{Budget, DecodeContext, DecodeError, EncodeError, RECURSION_LIMIT};
use std::alloc::Global;
use std::collections::BTreeMap;
use std::io::Read;

// As many bytes of input are refused.
const TOO_MANY: u64 = 1 << 20;

// The map whose field the bytes are, tags and all: another field is refused.
fn counts_of(alloc: Global, bytes: &[u8]) -> Result<BTreeMap<String, i32>, DecodeError> {
    let mut counts = BTreeMap::new(alloc);
    let mut budget = Budget::new(0);
    let ctx = DecodeContext::new(RECURSION_LIMIT, &mut budget);
    let mut rest = bytes;
    read_map_field::<Str, Int32, _, _>(alloc, &mut counts, 5, &mut rest, ctx, None)?;
    Ok(counts)
}

// How long the field will be, or 2^64 - 1 where it is longer.
fn announced(counts: &BTreeMap<String, i32>) -> u64
    ensures { result ≡ saturated (field_size ⟦<Str as MapCodec>⟧.writing ⟦<Int32 as MapCodec>⟧.writing 1
        (means string_bytes (λ v. v) counts.now.entries)) }
{
    field_len::<Str, Int32, _>(counts, 1)
}

// The field: a record for each pair, in the order of the keys.
fn field_of(alloc: Global, counts: &BTreeMap<String, i32>) -> Result<Vec<u8>, EncodeError>
    ensures { IfOk result (λ bytes. vec_items bytes
        ≡ field_encoding ⟦<Str as MapCodec>⟧.writing ⟦<Int32 as MapCodec>⟧.writing 5 (means string_bytes (λ v. v) counts.now.entries)) }
{
    let mut bytes = Vec::new(alloc);
    write_field::<Str, Int32, _, _>(counts, 5, &mut bytes)?;
    Ok(bytes)
}

// What stands in the standard input, if it isn't too long.
fn input_of(rt: &HostRuntime) -> Result<Vec<u8>, Error> {
    let mut input = Vec::new(rt.alloc());
    rt.stdin().take(TOO_MANY).read_to_end(&mut input)?;
    if input.len() as u64 == TOO_MANY {
        return Err(anyhow!("the input has {TOO_MANY} bytes or more"));
    }
    Ok(input)
}

fn main(rt: HostRuntime) -> Result<(), Error> {
    let alloc = rt.alloc();
    let input = input_of(&rt)?;
    let mut counts = counts_of(alloc, &input)?;
    counts.insert(String::from_str(alloc, "pears")?, 3)?;
    for (name, count) in &counts {
        println!(rt; "{name}: {count}")?;
    }
    println!(rt; "{} bytes are announced", announced(&counts))?;
    let field = field_of(alloc, &counts)?;
    println!(rt; "{} bytes are written", field.len())?;
    Ok(())
}
