//! Judges a message by the custom options of its fields.
//!
//!     sample_options TYPE HEX < SET
//!
//! SET is what `protoc --include_imports --descriptor_set_out` writes, TYPE the full name of a message in it, HEX a message
//! of this type. It prints each field of the type with its rules, and below it the rule that the message breaks. Where an
//! option is malformed, the program ends with an error. A value that isn't spelled as the field's type is, as one of a packed list, breaks the
//! rules; a length is judged of whatever has one, a text, bytes or a message.
#![tactic(auto)]

mod find;
mod judge;
mod lines;
mod messages;
mod rules;
#[cfg(test)]
mod tests;

use anyhow::{Error, anyhow};
use buffa_descriptor::messages::{DescriptorProto, FileDescriptorSet};
use buffa_fields::{Decode, UnknownFields};
use find::message_type;
use judge::judge;
use lines::{fault_line, field_line};
use rules::read_rules;
use std::env;
use std::io::Read;

// As many bytes of input are refused.
const TOO_MANY: u64 = 1 << 20;

// The words of the call: the type's full name, and a message in hexadecimal.
fn words_of(rt: &HostRuntime) -> Result<(String, Vec<u8>), Error> {
    let mut words = env::args(rt)?.skip(1);
    let (Some(name), Some(hex)) = (words.next(), words.next()) else {
        return Err(anyhow!("usage: sample_options TYPE HEX < SET"));
    };
    Ok((name, hex::decode(rt.alloc(), hex.as_str())?))
}

fn judge_all(
    rt: &HostRuntime,
    message: &DescriptorProto,
    fields: &UnknownFields,
) -> Result<usize, Error> {
    let alloc = rt.alloc();
    let mut faults = 0usize;
    for field in &message.field {
        let rules = read_rules(alloc, field)?;
        println!(rt; "{}", field_line(alloc, field, &rules)?)?;
        if let Err(fault) = judge(alloc, field, &rules, fields)? {
            println!(rt; "  {}", fault_line(fault))?;
            faults = faults.saturating_add(1);
        }
    }
    Ok(faults)
}

// What stands in the standard input, if it isn't too long.
fn input_of(rt: &HostRuntime) -> Result<Vec<u8>, Error> {
    let mut input = Vec::new(rt.alloc());
    rt.stdin().take(TOO_MANY).read_to_end(&mut input)?;
    if input.len() as u64 == TOO_MANY {
        return Err(anyhow!("the input has {TOO_MANY} bytes or more"));
    }
    Ok(input)
}

fn main(rt: HostRuntime) -> Result<(), Error> {
    let alloc = rt.alloc();
    let (name, bytes) = words_of(&rt)?;
    let input = input_of(&rt)?;
    let set = FileDescriptorSet::decode_canonical(alloc, &input)?;
    let Some(message) = message_type(&set, name.as_str()) else {
        return Err(anyhow!("no message is called {name}"));
    };
    let fields = UnknownFields::decode_from_slice(alloc, &bytes)?;
    let faults = judge_all(&rt, message, &fields)?;
    println!(rt; "{faults} rules are broken")?;
    Ok(())
}
