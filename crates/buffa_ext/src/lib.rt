//! Extensions: typed values in the unknown fields of a message.
//!
//! An [`Extension`] is declared by its codec, its number and the full name of the message that it extends. A message is an
//! [`ExtensionSet`], whose calls read and write extensions. A caller, of an Item of a MessageSet:
//!
//! ```ignore
//! let ext = Extension::<MessageCodec<Stock>>::new(1000, SetMsg::PROTO_FQN);
//! set.set_extension(alloc, &ext, stock)?;
//! ```
//!
//! Calls | What for
//! ---|---
//! [`Extension`], [`Declared`] | A number, a codec, the extendee, and a default where one is declared.
//! [`ExtensionSet`] | `has_extension`, `extension`, `read_extension`, `extension_or_default`, `set_extension`, `clear_extension`.
//! [`MessageCodec`], [`GroupCodec`] | Codecs of messages and groups; those of all else are of `buffa_codec`, and re-exported.
//! [`replay`], [`Step`] | The accepted history of a number, one step after the other.
#![tactic(auto)]

pub mod back;
pub mod change_records;
pub mod codecs;
pub mod descriptor;
pub mod message;
pub mod message_record;
pub mod set;
pub mod sets_and_clears;
pub mod strict;

pub use back::set_then_read;
pub use buffa_codec::{
    BytesCodec, EnumCodec, ExtensionCodec, LastWins, Numbered, PackableCodec, PackedRepeated,
    Repeated, SingularCodec, StrictCodec, StrictElementCodec, StrictSingularCodec, StringCodec,
};
pub use descriptor::{Declared, Extension, Make, NoDefault};
pub use message::{GroupCodec, MessageCodec, MessageIn};
pub use message_record::MessageRecord;
pub use set::ExtensionSet;
pub use sets_and_clears::{ReplayFault, Step, replay};
