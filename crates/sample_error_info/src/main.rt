//! A whole small program of a user's: a message that is read, changed and written.
#![tactic(auto)]

mod messages;
#[cfg(test)]
mod tests;

ghost use Rattle.std.specs.Prelude.{◌≡◌, IfOk, Some, option_map, string_bytes, vec_items};
ghost use Rattle.sample_error_info.specs.messages.ErrorInfo.{with_domain};

use crate::messages::ErrorInfo;
use anyhow::Error;
use buffa_fields::{Blank, Decode, Message, MessageSpec, RECURSION_LIMIT};
use std::alloc::Global;

// An `ErrorInfo` with the reason NO_STOCK and the good pear.
const BYTES: &[u8] = b"\x0A\x08NO_STOCK\x1A\x0C\x0A\x04good\x12\x04pear";

// Reads an `ErrorInfo`, gives it another domain, and writes it: all else is as it was, also the fields that it doesn't
// declare. It is refused where the bytes are no `ErrorInfo`, or it is too large to be written, or memory runs out.
fn with_domain(alloc: Global, bytes: &[u8], domain: String) -> Result<Vec<u8>, Error>
    ensures { IfOk result (λ answer. Some (vec_items answer)
        ≡ option_map (λ m. ⟦<ErrorInfo as MessageSpec>⟧.encoding (with_domain (string_bytes domain) m))
        (⟦<ErrorInfo as MessageSpec>⟧.merged RECURSION_LIMIT ⟦<ErrorInfo as Blank>⟧.blank_is bytes.now)) }
{
    let mut info = ErrorInfo::decode_from_slice(alloc, bytes)?;
    info.domain = domain;
    Ok(info.try_encode_to_vec(alloc)?)
}

fn main(rt: HostRuntime) -> Result<(), Error> {
    let alloc = rt.alloc();
    let mut info = ErrorInfo::decode_from_slice(alloc, BYTES)?;
    info.domain = String::from_str(alloc, "example.com")?;
    let encoding = info.try_encode_to_vec(alloc)?;
    println!(rt; "{}, now {} bytes", info.reason, encoding.len())?;
    println!(rt; "{info:?}")?;
    Ok(())
}
