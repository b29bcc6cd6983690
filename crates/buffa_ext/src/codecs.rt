//! The codecs of extensions, under upstream's names.

pub use crate::{
    BytesCodec, EnumCodec, GroupCodec, MessageCodec, PackableCodec, PackedRepeated, Repeated,
    SingularCodec, StringCodec,
};
pub use buffa_wire::scalars::{
    Bool, Double, Fixed32, Fixed64, Float, Int32, Int32 as EnumI32, Int64, Sfixed32, Sfixed64,
    Sint32, Sint64, Uint32, Uint64,
};
