//! The public surface of map fields, under upstream's names.
//!
//! ```ignore
//! use buffa_map::map_codec::{Int32, Str, field_len, merge_entry, write_field};
//!
//! let size = field_len::<Str, Int32, _>(&map, 1);
//! write_field::<Str, Int32, _, _>(&map, 5, &mut sink)?;
//! merge_entry::<Str, Int32, _, _>(alloc, &mut map, &mut rest, ctx)?;
//! ```

pub use crate::codec::{MapCodec, MapValueDecode, MapValueDecodeStatus};
pub use crate::codecs::{
    Bool, BytesBuf, BytesVec, ClosedEnum, Double, Fixed32, Fixed64, Float, Int32, Int64, OpenEnum,
    ProtoBytesMap, ProtoStringMap, Sfixed32, Sfixed64, Sint32, Sint64, Str, Uint32, Uint64,
};
pub use crate::entry::{merge_entry, merge_entry_with_unknowns};
pub use crate::indexed::Map;
pub use crate::map_write::MapWrite;
pub use crate::message::Msg;
pub use crate::message_merge::merge_message_entry_by;
pub use crate::message_size::{message_field_len, message_field_len_by};
pub use crate::message_write::{write_message_field, write_message_field_by};
pub use crate::rewrite::{RewriteError, rewrite_map_field};
pub use crate::run::read_map_field;
pub use crate::size::field_len;
pub use crate::size_and_write::size_and_write_field;
pub use crate::storage::{MapStorage, MapWalk, StableOrder, StableWalk};
pub use crate::write::write_field;
