//! Extensions, made of shop.proto by protoc-gen-buffa.

ghost use Rattle.std.specs.Prelude.{codes, ◌≡◌};

use crate::messages::note::Note;
use buffa_ext::Extension;
use buffa_ext::codecs::{Bool, MessageCodec, Sint64, Uint32};

/// Of a string or bytes, how many bytes there may be.
///
/// extend google.protobuf.FieldOptions { uint32 max_len = 50001; }
pub fn max_len() -> Extension<Uint32>
    ensures number { result.number ≡ 50001 }
    ensures extendee { result.extendee.now ≡ codes "google.protobuf.FieldOptions" }
{
    Extension::<Uint32>::new(50001, "google.protobuf.FieldOptions")
}

/// Of an integer, the least that it may be.
///
/// extend google.protobuf.FieldOptions { sint64 least = 50002; }
pub fn least() -> Extension<Sint64>
    ensures number { result.number ≡ 50002 }
    ensures extendee { result.extendee.now ≡ codes "google.protobuf.FieldOptions" }
{
    Extension::<Sint64>::new(50002, "google.protobuf.FieldOptions")
}

/// Of an integer, the greatest that it may be.
///
/// extend google.protobuf.FieldOptions { sint64 most = 50003; }
pub fn most() -> Extension<Sint64>
    ensures number { result.number ≡ 50003 }
    ensures extendee { result.extendee.now ≡ codes "google.protobuf.FieldOptions" }
{
    Extension::<Sint64>::new(50003, "google.protobuf.FieldOptions")
}

/// Whether it has to be there.
///
/// extend google.protobuf.FieldOptions { bool required = 50004; }
pub fn required() -> Extension<Bool>
    ensures number { result.number ≡ 50004 }
    ensures extendee { result.extendee.now ≡ codes "google.protobuf.FieldOptions" }
{
    Extension::<Bool>::new(50004, "google.protobuf.FieldOptions")
}

/// What is said of it.
///
/// extend google.protobuf.FieldOptions { Note note = 50005; }
pub fn note() -> Extension<MessageCodec<Note>>
    ensures number { result.number ≡ 50005 }
    ensures extendee { result.extendee.now ≡ codes "google.protobuf.FieldOptions" }
{
    Extension::<MessageCodec<Note>>::new(50005, "google.protobuf.FieldOptions")
}
