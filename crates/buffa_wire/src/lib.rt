//! The wire layer, on `buffa_bytes`, which it re-exports: the budgets and contexts that a reader hands on to what it
//! calls, the unknown fields that are kept, scalars, enums and messages.
//!
//! A caller, which reads a message of at most twenty levels under limits of its own:
//!
//! ```ignore
//! let limits = Budget::new(1_000).with_element_memory(1_000_000);
//! Swatch::decode_within(alloc, bytes, 20, limits)
//! ```
//!
//! Calls | What for
//! ---|---
//! [`Decode`] | A message of bytes, under default limits or yours, or only where the bytes are its encoding.
//! [`Message`] | What each message type has: `merge` and its kin, `compute_size`, `write_to`, `try_encode_to_vec`, `clear`.
//! [`Budget`], [`DecodeContext`] | How many unknown fields and how much memory may be taken, and how deep messages nest.
//! [`UnknownFields`], [`UnknownField`], [`decode_unknown_field`] | Fields that nobody declared: kept, copied, written again.
//! [`Enumeration`], [`EnumValue`] | An enum of yours, closed and open.
//! [`Scalar`], [`Form`] | The scalar types, and how each is spelled in a payload.
//! [`SizeCache`] | Sizes of inner messages, which the size pass leaves for the write pass.
#![tactic(auto)]

pub mod budget;
pub mod cache;
pub(crate) mod compared;
pub mod context;
pub mod decode;
pub mod enumeration;
pub mod form;
pub mod message;
pub mod message_impl;
pub mod reals;
pub mod scalar;
pub mod scalars;
mod short;
pub mod unknown_fields;

pub(crate) mod sealed {
    /// Only types of this crate are scalars: how the wire spells them is nothing that a type of one's own can choose.
    pub trait Sealed {}
}

pub use budget::{Budget, DEFAULT_ELEMENT_MEMORY_LIMIT, DEFAULT_UNKNOWN_FIELD_LIMIT};
pub use buffa_bytes::{
    Adapted, Blank, Buf, DecodeError, EncodeError, EncodeSink, Limited, MAX_FIELD_NUMBER, MapKey,
    MessageSetFault, Pieces, PlainKey, ProtoBytes, ProtoString, Tag, WireType, check_wire_type,
    decode_varint, encode_varint, prefix_len, skip_field_depth, types, varint_len,
};
pub use cache::SizeCache;
pub use context::{DecodeContext, RECURSION_LIMIT};
pub use decode::{CanonicalError, Decode};
pub use enumeration::{EnumValue, Enumeration};
pub use form::Form;
pub use message::{Message, MessageSpec, capped};
pub use message_impl::{MessageImpl, MessageMeaning, MessageMethods};
pub use reals::{DoubleBits, FloatBits};
pub use scalar::Scalar;
pub use unknown_fields::read::decode_unknown_field;
pub use unknown_fields::{UnknownField, UnknownFieldData, UnknownFields};
