//! The lowest layer: varints, tags and payloads are read from a buffer, a [`Buf`], and written to a sink, an
//! [`EncodeSink`].
//!
//! What each call answers is a definition of `specs/`, in the words of the protobuf encoding guide. A caller, which counts
//! the fields of some bytes:
//!
//! ```ignore
//! let mut rest = bytes;
//! let mut count: u64 = 0;
//! for _ in 0..u64::MAX {
//!     if rest.remaining() == 0 {
//!         break;
//!     }
//!     let tag = Tag::decode(&mut rest)?;
//!     skip_field_depth(tag, &mut rest, depth)?;
//!     count = count.saturating_add(1);
//! }
//! Ok(count)
//! ```
//!
//! Calls | What for
//! ---|---
//! [`Buf`], [`Pieces`], [`Adapted`], [`Limited`] | Bytes to read, whole or in pieces, those of another reader, or a beginning of them.
//! [`EncodeSink`] | What is written to: a `Vec<u8>`, or a type of your own.
//! [`decode_varint`], [`encode_varint`], [`varint_len`], [`prefix_len`] | A varint, and how long it is.
//! [`Tag`], [`WireType`], [`check_wire_type`], [`skip_field_depth`] | The tag of a field, and its payload passed over, groups too.
//! [`types`] | A payload of each scalar type, strings and bytes: read, written, and how long it is.
//! [`ProtoString`], [`ProtoBytes`], [`MapKey`], [`Blank`] | Types of yours for strings, bytes and keys, and what makes a value empty.
//! [`DecodeError`], [`EncodeError`] | Why bytes are refused, and why nothing is written.
#![tactic(auto)]

pub mod adapted;
pub mod blank;
pub mod buf;
pub mod check;
pub mod error;
pub mod key;
pub mod limited;
pub mod pieces;
pub mod proto;
pub mod sink;
pub mod skip;
pub mod tag;
pub mod types;
pub mod varint;
pub mod wire_type;

pub use adapted::Adapted;
pub use blank::Blank;
pub use buf::Buf;
pub use check::check_wire_type;
pub use error::{DecodeError, EncodeError, MessageSetFault};
pub use key::{MapKey, PlainKey};
pub use limited::Limited;
pub use pieces::Pieces;
pub use proto::{ProtoBytes, ProtoString};
pub use sink::EncodeSink;
pub use skip::skip_field_depth;
pub use tag::{MAX_FIELD_NUMBER, Tag};
pub use varint::{decode_varint, encode_varint, prefix_len, varint_len};
pub use wire_type::WireType;
