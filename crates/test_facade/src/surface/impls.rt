//! The impls of the types of the surface, asked for by bounds.

use crate::labelled::Labelled;
use buffa::extension::codecs::{self, PackedRepeated, Repeated};
use buffa::extension::{
    Declared, ExtensionCodec, Make, NoDefault, PackableCodec, ReplayFault, SingularCodec, Step,
};
use buffa::map_codec::{
    self, MapCodec, MapValueDecode, MapValueDecodeStatus, MapWalk, Msg, RewriteError, StableWalk,
};
use buffa::samples::{Node, SetMsg, Shade};
use buffa::{
    Blank, Buf, DecodeError, EncodeError, EncodeSink, EnumValue, Enumeration, Extension,
    ExtensionSet, Limited, Map, MapKey, MapStorage, Message, MessageSetFault, MessageSpec, Pieces,
    PlainKey, ProtoBytes, ProtoString, Tag, UnknownField, UnknownFieldData, UnknownFields,
    WireType,
};
use bytes::Bytes;
use sample_types::flat::FlatMsg;
use sample_types::hues::Old;
use std::alloc::{AllocError, Global};
use std::collections::{BTreeMap, HashMap};
use std::error::Error;
use std::fmt::{Debug, Display};

fn is_value<T: Clone + Copy + Debug + PartialEq + Eq>() {}

fn is_compared<T: Debug + PartialEq + Eq>() {}

fn is_copied<T: Clone + Copy>() {}

fn is_error<T: Error + Display>() {}

fn is_buffer<T: Buf>() {}

fn is_sink<T: EncodeSink>() {}

fn is_blank<T: Blank>() {}

fn is_plain_key<T: PlainKey + MapKey + Eq>() {}

fn is_string<T: ProtoString + Blank>() {}

fn is_bytes<T: ProtoBytes + Blank>() {}

fn is_enumeration<T: Enumeration + Blank>() {}

fn is_message<T: Message + MessageSpec + Blank>() {}

fn is_storage<'a, T: MapWalk<'a> + MapStorage<Key = i32, Value = i32>>()
where
    T::Key: 'a,
    T::Value: 'a,
{}

fn is_stable<'a, T: StableWalk<'a> + MapStorage<Key = i32, Value = i32>>()
where
    T::Key: 'a,
    T::Value: 'a,
{}

fn is_map_codec<T: MapCodec + MapValueDecode>() {}

fn is_map_value<T: MapValueDecode>() {}

fn is_number_codec<T: ExtensionCodec + SingularCodec + PackableCodec>() {}

fn is_one_codec<T: ExtensionCodec + SingularCodec>() {}

fn is_list_codec<T: ExtensionCodec>() {}

fn is_extended<T: ExtensionSet>() {}

fn is_declared<V, T: Declared<V>>() {}

#[test]
fn values(_rt: HostRuntime) {
    is_value::<WireType>();
    is_value::<Tag>();
    is_value::<EnumValue<Old>>();
    is_value::<DecodeError>();
    is_value::<EncodeError>();
    is_value::<MessageSetFault>();
    is_value::<RewriteError>();
    is_value::<ReplayFault>();
    is_value::<MapValueDecodeStatus>();
    is_compared::<UnknownField>();
    is_compared::<UnknownFieldData>();
    is_compared::<UnknownFields>();
    is_compared::<Step>();
    is_error::<DecodeError>();
    is_error::<EncodeError>();
    is_error::<MessageSetFault>();
    is_error::<RewriteError>();
}

#[test]
fn bytes_in_and_out(_rt: HostRuntime) {
    is_buffer::<&[u8]>();
    is_buffer::<Bytes>();
    is_buffer::<Pieces<'_>>();
    is_buffer::<Limited<'_, &[u8]>>();
    is_buffer::<Limited<'_, Pieces<'_>>>();
    is_sink::<Vec<u8>>();
    is_string::<String>();
    is_bytes::<Vec<u8>>();
}

#[test]
fn defaults(_rt: HostRuntime) {
    is_blank::<i32>();
    is_blank::<i64>();
    is_blank::<u32>();
    is_blank::<u64>();
    is_blank::<bool>();
    is_blank::<String>();
    is_blank::<Vec<u8>>();
    is_blank::<Bytes>();
    is_blank::<EnumValue<Old>>();
    is_enumeration::<Old>();
    is_message::<FlatMsg>();
    is_enumeration::<Shade>();
    is_message::<Node>();
    is_message::<SetMsg>();
}

#[test]
fn keys_and_storages(_rt: HostRuntime) {
    is_plain_key::<i32>();
    is_plain_key::<i64>();
    is_plain_key::<u32>();
    is_plain_key::<u64>();
    is_plain_key::<bool>();
    is_plain_key::<String>();
    is_plain_key::<Vec<u8>>();
    is_plain_key::<Bytes>();
    is_storage::<BTreeMap<i32, i32>>();
    is_storage::<HashMap<i32, i32>>();
    is_storage::<Map<i32, i32>>();
    is_stable::<BTreeMap<i32, i32>>();
    is_stable::<Map<i32, i32>>();
}

#[test]
fn map_codecs(_rt: HostRuntime) {
    is_map_codec::<map_codec::Int32>();
    is_map_codec::<map_codec::Int64>();
    is_map_codec::<map_codec::Uint32>();
    is_map_codec::<map_codec::Uint64>();
    is_map_codec::<map_codec::Sint32>();
    is_map_codec::<map_codec::Sint64>();
    is_map_codec::<map_codec::Bool>();
    is_map_codec::<map_codec::Fixed32>();
    is_map_codec::<map_codec::Fixed64>();
    is_map_codec::<map_codec::Sfixed32>();
    is_map_codec::<map_codec::Sfixed64>();
    is_map_codec::<map_codec::Str>();
    is_map_codec::<map_codec::BytesVec>();
    is_map_codec::<map_codec::BytesBuf>();
    is_map_codec::<map_codec::ProtoBytesMap<Vec<u8>>>();
    is_map_codec::<map_codec::ProtoStringMap<String>>();
    is_map_codec::<map_codec::OpenEnum<Old>>();
    is_map_codec::<map_codec::ClosedEnum<Old>>();
    is_map_value::<Msg<FlatMsg>>();
}

#[test]
fn extension_codecs(_rt: HostRuntime) {
    is_number_codec::<codecs::Int32>();
    is_number_codec::<codecs::Int64>();
    is_number_codec::<codecs::Uint32>();
    is_number_codec::<codecs::Uint64>();
    is_number_codec::<codecs::Sint32>();
    is_number_codec::<codecs::Sint64>();
    is_number_codec::<codecs::Bool>();
    is_number_codec::<codecs::EnumI32>();
    is_number_codec::<codecs::EnumCodec<Old>>();
    is_number_codec::<codecs::Fixed32>();
    is_number_codec::<codecs::Sfixed32>();
    is_number_codec::<codecs::Fixed64>();
    is_number_codec::<codecs::Sfixed64>();
    is_one_codec::<codecs::StringCodec>();
    is_one_codec::<codecs::BytesCodec>();
    is_one_codec::<codecs::MessageCodec<FlatMsg>>();
    is_one_codec::<codecs::GroupCodec<FlatMsg>>();
    is_list_codec::<Repeated<codecs::StringCodec>>();
    is_list_codec::<PackedRepeated<codecs::Int32>>();
}

// Whether a function that makes a default is copied with its descriptor.
fn with_function<F: Fn(Global) -> Result<i32, AllocError> + Copy>(_default: F) {
    is_copied::<Make<F>>();
    is_copied::<Extension<codecs::Int32, Make<F>>>();
    is_declared::<i32, Make<F>>();
}

#[test]
fn descriptors(_rt: HostRuntime) {
    is_copied::<NoDefault>();
    is_copied::<Extension<codecs::StringCodec>>();
    is_copied::<Extension<Repeated<codecs::Int32>, NoDefault>>();
    is_declared::<String, NoDefault>();
    is_extended::<Labelled>();
    with_function(|_alloc: Global| -> Result<i32, AllocError> { Ok(7) });
}
