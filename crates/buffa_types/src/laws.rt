//! What the URL of an `Any` says: laws, each a function with nothing to do.

ghost use Rattle.std.specs.Prelude.{◌≡◌, ◌↔◌, ◌++◌, ◌∷◌, ℕ, List, codes};
ghost use Rattle.std.specs.List.{Contains};
ghost use Rattle.buffa_types.specs.TypeUrl.{NamesType, slash, url_of};

use crate::messages::any::Any;
use crate::messages::bool_value::BoolValue;
use crate::messages::bytes_value::BytesValue;
use crate::messages::double_value::DoubleValue;
use crate::messages::duration::Duration;
use crate::messages::empty::Empty;
use crate::messages::field_mask::FieldMask;
use crate::messages::float_value::FloatValue;
use crate::messages::int32_value::Int32Value;
use crate::messages::int64_value::Int64Value;
use crate::messages::source_context::SourceContext;
use crate::messages::string_value::StringValue;
use crate::messages::timestamp::Timestamp;
use crate::messages::u_int32_value::UInt32Value;
use crate::messages::u_int64_value::UInt64Value;
use crate::named_message::NamedMessage;

/// Which URL is written for a full name, and when a URL names a type: its name, in which no `/` is, stands behind a `/` of
/// the URL. Nothing is left out.
pub fn urls_are_these()
    ensures written { (name : List ℕ) → url_of name ≡ codes "type.googleapis.com/" ++ name }
    ensures named { (url name : List ℕ) → NamesType url name
        ↔ (((host : List ℕ) × (url ≡ host ++ 47 ∷ name)) × (Contains name 47 → ⊥)) }
{}

/// A URL names one type at most: of two names that it has, each is the other.
pub fn urls_name_one_type()
    ensures { (url name other : List ℕ) → NamesType url name → NamesType url other → name ≡ other }
{}

/// A URL that is written for a name without a `/` names that type, and no other.
pub fn written_urls_name_their_type()
    ensures { (name other : List ℕ) → (Contains name slash → ⊥) → NamesType (url_of name) other ↔ (other ≡ name) }
{}

/// The names of the well-known types.
pub fn well_known_types_are_called_so()
    ensures any { ⟦<Any as NamedMessage>⟧.name ≡ codes "google.protobuf.Any" }
    ensures bool_value { ⟦<BoolValue as NamedMessage>⟧.name ≡ codes "google.protobuf.BoolValue" }
    ensures bytes_value { ⟦<BytesValue as NamedMessage>⟧.name ≡ codes "google.protobuf.BytesValue" }
    ensures double_value { ⟦<DoubleValue as NamedMessage>⟧.name ≡ codes "google.protobuf.DoubleValue" }
    ensures duration { ⟦<Duration as NamedMessage>⟧.name ≡ codes "google.protobuf.Duration" }
    ensures empty { ⟦<Empty as NamedMessage>⟧.name ≡ codes "google.protobuf.Empty" }
    ensures field_mask { ⟦<FieldMask as NamedMessage>⟧.name ≡ codes "google.protobuf.FieldMask" }
    ensures float_value { ⟦<FloatValue as NamedMessage>⟧.name ≡ codes "google.protobuf.FloatValue" }
    ensures int32_value { ⟦<Int32Value as NamedMessage>⟧.name ≡ codes "google.protobuf.Int32Value" }
    ensures int64_value { ⟦<Int64Value as NamedMessage>⟧.name ≡ codes "google.protobuf.Int64Value" }
    ensures source_context { ⟦<SourceContext as NamedMessage>⟧.name ≡ codes "google.protobuf.SourceContext" }
    ensures string_value { ⟦<StringValue as NamedMessage>⟧.name ≡ codes "google.protobuf.StringValue" }
    ensures timestamp { ⟦<Timestamp as NamedMessage>⟧.name ≡ codes "google.protobuf.Timestamp" }
    ensures uint32_value { ⟦<UInt32Value as NamedMessage>⟧.name ≡ codes "google.protobuf.UInt32Value" }
    ensures uint64_value { ⟦<UInt64Value as NamedMessage>⟧.name ≡ codes "google.protobuf.UInt64Value" }
{}
