// The forms of words and inputs: decimal digits, hexadecimal digits, a final newline.
ghost use Rattle.std.specs.Prelude.{◌≡◌, ◌≤◌, ◌==◌, IfErr, IfOk, Some, map};
ghost use Rattle.std.specs.Char.{is_ascii_digit};
ghost use Rattle.std.specs.List.{list_all, slice_split};
ghost use Rattle.buffamap.specs.Fault.{SaysNone};
ghost use Rattle.buffamap.specs.Forms.{decimal, hex_bytes, without_newline};
ghost use Rattle.buffamap.specs.Reply.{hex_line};

use crate::fault::Fault;
use std::alloc::{AllocError, Global};
use std::str;

// Whether each byte is a decimal digit.
fn all_digits(bytes: &[u8]) -> bool
    ensures { result ≡ list_all is_ascii_digit bytes.now }
{
    bytes.iter().all(|b| b.is_ascii_digit())
}

/// The number that one to `most` decimal digits spell. `most` is 0 to 10.
pub fn decimal(most: usize, digits: &[u8]) -> Option<u64>
    requires { most ≤ 10 }
    ensures { result ≡ decimal most digits.now }
{
    if digits.is_empty() || digits.len() > most || !all_digits(digits) {
        return None;
    }
    str::from_utf8(digits).ok()?.parse::<u64>().ok()
}

/// The bytes that pairs of hexadecimal digits spell.
pub fn hex_bytes(alloc: Global, digits: &[u8]) -> Result<Vec<u8>, Fault>
    ensures bytes { IfOk result (λ bytes. hex_bytes digits.now ≡ Some bytes.items) }
    ensures fault { IfErr result (SaysNone (hex_bytes digits.now)) }
{
    Ok(hex::decode(alloc, digits)?)
}

/// Bytes in hexadecimal, on a line.
pub fn hex_line(alloc: Global, bytes: &[u8]) -> Result<Vec<u8>, AllocError>
    ensures { IfOk result (λ text. text.items ≡ hex_line bytes.now) }
{
    let mut text = hex::encode(alloc, bytes)?.into_bytes();
    text.push(b'\n')?;
    Ok(text)
}

/// A text without its final newline, if it has one.
pub fn without_newline(text: &[u8]) -> &[u8]
    ensures { result.now ≡ without_newline text.now }
{
    if !text.is_empty() && text[text.len() - 1] == b'\n' {
        &text[..text.len() - 1]
    } else {
        text
    }
}

/// The parts of the bytes between those that are `at`.
pub fn parts_of(alloc: Global, bytes: &[u8], at: u8) -> Result<Vec<&[u8]>, AllocError>
    ensures { IfOk result (λ parts. map (λ p. p.now) parts.items ≡ slice_split (λ b. b == at) bytes.now) }
{
    bytes.split(|b| *b == at).collect(alloc)
}
