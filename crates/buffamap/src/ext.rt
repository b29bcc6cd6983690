// `ext N`: what extensions of number N read in a message.
ghost use Rattle.std.specs.Prelude.{◌≡◌, ◌++◌, IfErr, IfOk, OnOk, codes, refl};
ghost use Rattle.buffa_codec.specs.RecordsOfNumber.{sub};
ghost use Rattle.buffamap.specs.Ext.{IsShown, RepliesToExt, ext_text, has_line, int32_line, int32_of_last};
ghost use Rattle.buffamap.specs.Ext.{int32s_of_each, ints_line, records_from, string_line, string_of_last, words_of};
ghost use Rattle.buffamap.specs.Fault.{TellsReply};
ghost use Rattle.buffamap.specs.Reply.{success};

use crate::fault::Fault;
use crate::forms::{hex_bytes, without_newline};
use buffa_ext::codecs::{Int32, Repeated, StringCodec};
use buffa_ext::{Extension, ExtensionSet};
use buffa_wire::UnknownFields;
use std::alloc::{AllocError, Global};

// A message of which no field is declared.
#[derive(Drop)]
struct Extendee {
    fields: UnknownFields,
}

impl ExtensionSet for Extendee {
    const PROTO_FQN: &'static str = "buffamap.Extendee";

    ghost fqn = { codes "buffamap.Extendee" };

    ghost fields_of = { λ m. m.fields };

    ghost with_fields = { λ m w. record m { fields = w } };

    fn extendee_name() -> &'static str {
        Self::PROTO_FQN
    }

    fn unknown_fields(&self) -> &UnknownFields {
        &self.fields
    }

    fn unknown_fields_mut(&mut self) -> &mut UnknownFields {
        &mut self.fields
    }

    ghost fields_of_with = { λ m w. refl };

    ghost with_fields_of = { λ m. refl };

    ghost with_fields_twice = { λ m w u. refl };
}

// Adds the line on whether a record of the number is there.
fn add_has(message: &Extendee, number: u32, text: &mut Vec<u8>) -> Result<(), AllocError>
    ensures { OnOk result (text.new.items ≡ text.old.items ++ has_line (sub number message.now.fields.records)) }
{
    let any = Extension::<Int32>::new(number, Extendee::PROTO_FQN);
    if message.has_extension(&any) {
        text.extend_from_slice(b"has yes\n")
    } else {
        text.extend_from_slice(b"has no\n")
    }
}

// Adds the line of the int32.
fn add_int32(
    alloc: Global,
    message: &Extendee,
    number: u32,
    text: &mut Vec<u8>,
) -> Result<(), AllocError>
    ensures { OnOk result (text.new.items
        ≡ text.old.items ++ int32_line (int32_of_last (sub number message.now.fields.records))) }
{
    let int32 = Extension::<Int32>::new(number, Extendee::PROTO_FQN);
    let Some(value) = message.extension(alloc, &int32)? else {
        return text.extend_from_slice(b"int32 none\n");
    };
    let line = format!(in alloc; "int32 {value}\n")?;
    text.extend_from_slice(line.as_bytes())
}

// Adds the line of the string.
fn add_string(
    alloc: Global,
    message: &Extendee,
    number: u32,
    text: &mut Vec<u8>,
) -> Result<(), AllocError>
    ensures { OnOk result (text.new.items
        ≡ text.old.items ++ string_line (string_of_last (sub number message.now.fields.records))) }
{
    let string = Extension::<StringCodec>::new(number, Extendee::PROTO_FQN);
    let Some(value) = message.extension(alloc, &string)? else {
        return text.extend_from_slice(b"string none\n");
    };
    let value = hex::encode(alloc, value)?;
    let line = format!(in alloc; "string {value}\n")?;
    text.extend_from_slice(line.as_bytes())
}

// Adds each value after a space.
fn add_words(alloc: Global, values: &[i32], text: &mut Vec<u8>) -> Result<(), AllocError>
    ensures { OnOk result (text.new.items ≡ text.old.items ++ words_of values.now) }
{
    for value in values {
        let word = format!(in alloc; " {value}")?;
        text.extend_from_slice(word.as_bytes())?;
    }
    Ok(())
}

// Adds the line of the int32s.
fn add_ints(
    alloc: Global,
    message: &Extendee,
    number: u32,
    text: &mut Vec<u8>,
) -> Result<(), AllocError>
    ensures { OnOk result (text.new.items
        ≡ text.old.items ++ ints_line (int32s_of_each (sub number message.now.fields.records))) }
{
    let ints = Extension::<Repeated<Int32>>::new(number, Extendee::PROTO_FQN);
    let values = message.extension(alloc, &ints)?;
    text.extend_from_slice(b"ints")?;
    add_words(alloc, values.as_slice(), text)?;
    text.push(b'\n')?;
    Ok(())
}

// The lines of a message.
fn lines_of(alloc: Global, message: &Extendee, number: u32) -> Result<Vec<u8>, AllocError>
    ensures { IfOk result (λ text. text.items ≡ ext_text (sub number message.now.fields.records)) }
{
    let mut text = Vec::new(alloc);
    add_has(message, number, &mut text)?;
    add_int32(alloc, message, number, &mut text)?;
    add_string(alloc, message, number, &mut text)?;
    add_ints(alloc, message, number, &mut text)?;
    Ok(text)
}

// The answer to a message.
fn ext_message(alloc: Global, number: u32, bytes: &[u8]) -> Result<Vec<u8>, Fault>
    ensures text { IfOk result (λ text. IsShown number (records_from bytes.now) (success text.items)) }
    ensures fault { IfErr result (TellsReply (IsShown number (records_from bytes.now))) }
{
    let fields = UnknownFields::decode_from_slice(alloc, bytes)?;
    Ok(lines_of(alloc, &Extendee { fields }, number)?)
}

/// Four lines on the records of number `number` in a message, which the input gives in hexadecimal: whether
/// there are any; the value of an int32; of a string; and those of int32s, packed or not.
pub fn ext_reply(alloc: Global, number: u32, input: &[u8]) -> Result<Vec<u8>, Fault>
    ensures text { IfOk result (λ text. RepliesToExt number input.now (success text.items)) }
    ensures fault { IfErr result (TellsReply (RepliesToExt number input.now)) }
{
    let bytes = hex_bytes(alloc, without_newline(input))?;
    ext_message(alloc, number, bytes.as_slice())
}
