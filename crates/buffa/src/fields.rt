//! Messages by their fields: a struct of one's own is a [`Message`](crate::Message), and its author writes no proof.
//!
//! A struct is one by [`MessageFields`], [`Blank`](crate::Blank), [`FieldsMeaning`] and [`MessageImpl`]; what these cite is handed on in
//! `specs/` under the name `Members`. An enum of which a message has one case is a [`OneOf`]. A struct that holds its own type,
//! in lists, in maps and in boxes, is one by [`RecursiveType`], [`RecursiveFields`], [`Blank`](crate::Blank), [`RecursiveMeaning`] and [`MessageImpl`];
//! what its `Model` cites is under the name `RecursiveMessages`. [`crate::laws::fields`], [`crate::laws::inside`],
//! [`crate::laws::selves`] and [`crate::laws::oneofs`] say what each member type and each form is.
//!
//! ```ignore
//! impl MessageFields for Stock { .. }
//! ```

pub use buffa_fields::meaning::{
    And, And3, And4, And5, And6, And7, And8, And9, And10, And11, And12, And13, And14, And15, And16,
    Or, Unknowns,
};
pub use buffa_fields::members::explicit_field::ExplicitField;
pub use buffa_fields::members::group_field::GroupField;
pub use buffa_fields::members::implicit_field::ImplicitField;
pub use buffa_fields::members::keeps_unknowns::KeepsUnknowns;
pub use buffa_fields::members::map_field::MapField;
pub use buffa_fields::members::member::Member;
pub use buffa_fields::members::message_field::MessageField;
pub use buffa_fields::members::message_map_field::MessageMapField;
pub use buffa_fields::members::ordered_key::OrderedKey;
pub use buffa_fields::members::ordered_map_field::OrderedMapField;
pub use buffa_fields::members::ordered_message_map_field::OrderedMessageMapField;
pub use buffa_fields::members::packed_field::{Packable, PackedField};
pub use buffa_fields::members::proto_type::ProtoType;
pub use buffa_fields::members::repeated_field::RepeatedField;
pub use buffa_fields::members::repeated_group_field::RepeatedGroupField;
pub use buffa_fields::members::repeated_message_field::RepeatedMessageField;
pub use buffa_fields::messages::member_block::MemberBlock;
pub use buffa_fields::messages::message::{FieldByField, FieldsMeaning};
pub use buffa_fields::messages::message_fields::MessageFields;
pub use buffa_fields::messages::required::Required;
pub use buffa_fields::messages::unknown;
pub use buffa_fields::oneofs::case::{Case, Set, case_reads_back};
pub use buffa_fields::oneofs::one_of::{OneOf, visit_one_of};
pub use buffa_fields::passes::visitor::Visitor;
pub use buffa_recursive::inner_merger::InnerMerger;
pub use buffa_recursive::map_keys::{ByKey, Keyed};
pub use buffa_recursive::maps::take_map;
pub use buffa_recursive::one_of::take_one_of;
pub use buffa_recursive::recursive_fields::RecursiveFields;
pub use buffa_recursive::recursive_meaning::{RecursiveFieldByField, RecursiveMeaning};
pub use buffa_recursive::recursive_type::RecursiveType;
pub use buffa_recursive::required::{
    SelfAsked, SelfAsker, SelfRequired, list_initialized, map_initialized, one_initialized,
    tree_initialized,
};
pub use buffa_recursive::required_meaning::{RequiredCases, RequiredMeaning, RequiredMember};
pub use buffa_recursive::takes::{take_list, take_one};
pub use buffa_recursive::visitor::RecursiveVisitor;
pub use buffa_wire::MessageImpl;
