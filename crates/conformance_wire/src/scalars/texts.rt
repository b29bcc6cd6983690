// Strings and bytes by themselves.

use crate::scalars::payload::{Payload, Spelled, read_told, word_told};
use buffa_bytes::buf::copy_bytes;
use buffa_wire::types::{
    bytes_encoded_len, decode_bytes, decode_bytes_to, decode_bytes_to_bytes, decode_string,
    decode_string_to, encode_bytes, encode_string, string_encoded_len,
};
use buffa_wire::{Buf, DecodeError, ProtoBytes, ProtoString};
use bytes::Bytes;
use conformance_rows::case::Case;
use conformance_rows::fault::Fault;
use conformance_rows::mark::Mark;
use conformance_rows::outcome::{Outcome, told};
use conformance_rows::words::Worded;
use std::alloc::Global;
use std::marker::PhantomData;

/// A string.
pub struct PlainString;

impl Payload for PlainString {
    type Value = String;

    fn decode<B: Buf>(alloc: Global, buf: &mut B) -> Result<String, DecodeError> {
        decode_string(alloc, buf)
    }

    fn spell(value: &String, text: &mut Vec<u8>) -> Spelled {
        (
            string_encoded_len(value.as_str()),
            encode_string(value.as_str(), text),
        )
    }
}

/// A string in a type of one's own.
pub struct OwnString<S>(PhantomData<S>);

impl<S: ProtoString> Payload for OwnString<S> {
    type Value = S;

    fn decode<B: Buf>(alloc: Global, buf: &mut B) -> Result<S, DecodeError> {
        decode_string_to::<S, B>(alloc, buf)
    }

    fn spell(value: &S, text: &mut Vec<u8>) -> Spelled {
        (
            string_encoded_len(value.as_str()),
            encode_string(value.as_str(), text),
        )
    }
}

/// Bytes.
pub struct PlainBytes;

impl Payload for PlainBytes {
    type Value = Vec<u8>;

    fn decode<B: Buf>(alloc: Global, buf: &mut B) -> Result<Vec<u8>, DecodeError> {
        decode_bytes(alloc, buf)
    }

    fn spell(value: &Vec<u8>, text: &mut Vec<u8>) -> Spelled {
        (
            bytes_encoded_len(value.as_slice()),
            encode_bytes(value.as_slice(), text),
        )
    }
}

/// Bytes that can be shared.
pub struct SharedBytes;

impl Payload for SharedBytes {
    type Value = Bytes;

    fn decode<B: Buf>(alloc: Global, buf: &mut B) -> Result<Bytes, DecodeError> {
        decode_bytes_to_bytes(alloc, buf)
    }

    fn spell(value: &Bytes, text: &mut Vec<u8>) -> Spelled {
        (
            bytes_encoded_len(value.as_slice()),
            encode_bytes(value.as_slice(), text),
        )
    }
}

/// Bytes in a type of one's own.
pub struct OwnBytes<P>(PhantomData<P>);

impl<P: ProtoBytes> Payload for OwnBytes<P> {
    type Value = P;

    fn decode<B: Buf>(alloc: Global, buf: &mut B) -> Result<P, DecodeError> {
        decode_bytes_to::<P, B>(alloc, buf)
    }

    fn spell(value: &P, text: &mut Vec<u8>) -> Spelled {
        (
            bytes_encoded_len(value.as_bytes()),
            encode_bytes(value.as_bytes(), text),
        )
    }
}

/// So many bytes that are copied out of a buffer.
pub fn copy<By, B: Buf>(
    alloc: Global,
    case: &Case<'_>,
    mark: &mut Mark,
    buf: &mut B,
) -> Result<Outcome, Fault> {
    let len = case.length()?;
    mark.begin(alloc);
    let read = copy_bytes(alloc, buf, len);
    let refused = mark.end();
    read_told::<By, Vec<u8>, B>(alloc, case, read, refused, buf)
}

// What comes of a value that was made of bytes, or not.
fn made_told<By, V: Worded<By>>(
    alloc: Global,
    made: Result<V, DecodeError>,
    refused: bool,
) -> Result<Outcome, Fault> {
    let words = word_told::<By, V>(alloc, &made);
    let none = Ok(String::new(alloc));
    Outcome::of_words(alloc, told(alloc, made), words, none, refused)
}

/// A string of one's own that is made of bytes.
pub fn own_string<By, S: ProtoString + Worded<By>>(
    alloc: Global,
    case: &Case<'_>,
    mark: &mut Mark,
) -> Result<Outcome, Fault> {
    let bytes = hex::decode(alloc, case.input())?;
    mark.begin(alloc);
    let made = S::from_wire(alloc, bytes.as_slice());
    let refused = mark.end();
    made_told::<By, S>(alloc, made, refused)
}

/// Bytes of one's own that are made of bytes.
pub fn own_bytes<By, P: ProtoBytes + Worded<By>>(
    alloc: Global,
    case: &Case<'_>,
    mark: &mut Mark,
) -> Result<Outcome, Fault> {
    let bytes = hex::decode(alloc, case.input())?;
    mark.begin(alloc);
    let made = P::from_wire(alloc, bytes.as_slice());
    let refused = mark.end();
    made_told::<By, P>(alloc, made, refused)
}
