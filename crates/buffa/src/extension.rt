//! Typed extensions, under upstream's names.
//!
//! ```ignore
//! use buffa::extension::codecs::Int32;
//! use buffa::extension::{Extension, ExtensionSet};
//!
//! let ext = Extension::<Int32>::new(7, "test.Carrier");
//! carrier.set_extension(alloc, &ext, value)?;
//! let read = carrier.extension(alloc, &ext)?; // Some(value)
//! ```

pub use buffa_ext::{
    Declared, Extension, ExtensionCodec, ExtensionSet, LastWins, Make, MessageIn, MessageRecord,
    NoDefault, Numbered, PackableCodec, ReplayFault, SingularCodec, Step, StrictCodec,
    StrictElementCodec, StrictSingularCodec, codecs, replay, set_then_read,
};
