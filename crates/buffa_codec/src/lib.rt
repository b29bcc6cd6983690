//! Codecs of extensions: how the unknown fields of one number are read as a value, and a value is written
//! as unknown fields.
//!
//! An [`ExtensionCodec`] reads the records of a number: of a scalar, a string or bytes the last one that can be read
//! counts; [`Repeated`] and [`PackedRepeated`] read all in order, each by a [`SingularCodec`]. A program names a codec
//! where it declares an extension, which the crate `buffa_ext` has:
//!
//! ```ignore
//! let label = Extension::<StringCodec>::new(50002, FieldOptions::PROTO_FQN);
//! ```
//!
//! Codec | Of what
//! ---|---
//! the scalars of `buffa_wire::scalars`, by [`Numbered`] | A number, a `bool`, a real.
//! [`StringCodec`], [`BytesCodec`], [`EnumCodec`] | A string, bytes, an enum.
//! [`Repeated`], [`PackedRepeated`] | A list, of which each value is a record, or all are one.
//! [`StrictCodec`] and its kin | The same, where a record that can't be read is an error, and isn't passed over.
#![tactic(auto)]

pub mod codec;
pub mod delimited;
pub mod enums;
pub mod last;
pub mod number;
pub mod packed;
pub mod repeated;
pub mod strict;

pub use codec::{ExtensionCodec, PackableCodec, SingularCodec};
pub use delimited::{BytesCodec, StringCodec};
pub use enums::EnumCodec;
pub use last::LastWins;
pub use number::Numbered;
pub use packed::PackedRepeated;
pub use repeated::Repeated;
pub use strict::{StrictCodec, StrictElementCodec, StrictSingularCodec};
