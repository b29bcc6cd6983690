//! Messages from their fields: a message type is data, and its author writes no proof.
//!
//! A program that reads and writes messages names this crate. The member types and the traits of a message are at the top,
//! beside the items of the wire; [`map_codec`] has the codecs of members and of map fields. What contracts of such a
//! program cite is in `specs/` under the name `Terms`.
//!
//! ```ignore
//! use buffa_fields::map_codec::{Map, Str};
//! use buffa_fields::{Blank, MessageFields, FieldByField, FieldsMeaning, MapField, Member, Message, ImplicitField, UnknownFields};
//! ```
#![tactic(auto)]

pub mod meaning;
pub mod members;
pub mod messages;
pub mod oneofs;
pub mod passes;

pub use crate::meaning::{
    And, And3, And4, And5, And6, And7, And8, And9, And10, And11, And12, And13, And14, And15, And16,
    Or, Unknowns,
};
pub use crate::members::explicit_field::ExplicitField;
pub use crate::members::group_field::GroupField;
pub use crate::members::implicit_field::ImplicitField;
pub use crate::members::keeps_unknowns::KeepsUnknowns;
pub use crate::members::map_field::MapField;
pub use crate::members::member::Member;
pub use crate::members::message_field::MessageField;
pub use crate::members::message_map_field::MessageMapField;
pub use crate::members::ordered_key::OrderedKey;
pub use crate::members::ordered_map_field::OrderedMapField;
pub use crate::members::ordered_message_map_field::OrderedMessageMapField;
pub use crate::members::packed_field::{Packable, PackedField};
pub use crate::members::proto_type::ProtoType;
pub use crate::members::repeated_field::RepeatedField;
pub use crate::members::repeated_group_field::RepeatedGroupField;
pub use crate::members::repeated_message_field::RepeatedMessageField;
pub use crate::messages::member_block::MemberBlock;
pub use crate::messages::message::{FieldByField, FieldsMeaning};
pub use crate::messages::message_fields::MessageFields;
pub use crate::messages::required::Required;
pub use crate::messages::unknown;
pub use crate::oneofs::case::{Case, Set, case_reads_back};
pub use crate::oneofs::one_of::{OneOf, visit_one_of};
pub use crate::passes::visitor::Visitor;
pub use buffa_map::map_codec;
pub use buffa_map::map_codec::{Map, MapStorage};
pub use buffa_wire::message::MAX_MESSAGE_BYTES;
pub use buffa_wire::{
    Adapted, Blank, Budget, Buf, CanonicalError, DEFAULT_ELEMENT_MEMORY_LIMIT,
    DEFAULT_UNKNOWN_FIELD_LIMIT, Decode, DecodeContext, DecodeError, DoubleBits, EncodeError,
    EncodeSink, EnumValue, Enumeration, FloatBits, Form, Limited, MAX_FIELD_NUMBER, MapKey,
    Message, MessageImpl, MessageSetFault, MessageSpec, Pieces, PlainKey, ProtoBytes, ProtoString,
    RECURSION_LIMIT, Scalar, SizeCache, Tag, UnknownField, UnknownFieldData, UnknownFields,
    WireType, capped, check_wire_type, decode_unknown_field, decode_varint, encode_varint,
    skip_field_depth, types, varint_len,
};
