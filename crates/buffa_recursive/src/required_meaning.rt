//! Messages of other types in messages that hold themselves: whether all that is required is there, by what they mean.

ghost use Rattle.std.specs.Prelude.{◌≡◌, Bool};
ghost use Rattle.std.specs.List.{list_all};
ghost use Rattle.buffa_fields.specs.OneOfParts.{case_means};
ghost use Rattle.buffa_recursive.specs.Initialized.{true_if_there};

use buffa_fields::members::framing::Framing;
use buffa_fields::members::member::Member;
use buffa_fields::members::message_in::MessageIn;
use buffa_fields::members::message_map_field::MessageMapField;
use buffa_fields::members::messages_in::MessagesIn;
use buffa_fields::members::ordered_key::OrderedKey;
use buffa_fields::members::ordered_message_map_field::OrderedMessageMapField;
use buffa_fields::oneofs::one_of::OneOf;
use buffa_map::map_codec::{Map, MapCodec};
use buffa_wire::{Blank, MapKey, Message};
use std::collections::BTreeMap;
use std::hash::Hash;

/// A message in which something is required, by what it means: contracts see no more of it where it is in a message that holds
/// itself.
///
/// ```ignore
/// impl RequiredMeaning for Person { .. }
/// ```
pub trait RequiredMeaning: Blank {
    /// Whether all that is required is there, by what the message means.
    ghost by_meaning: { Self.Meaning → Bool };

    /// Whether all that is required is there.
    ///
    /// ```ignore
    /// self.name.is_some()
    /// ```
    fn meaning_initialized(&self) -> bool
        ensures { result ≡ by_meaning (Self.meaning self.now) };
}

/// A member type whose messages are looked into.
pub trait RequiredMember: Member {
    /// Whether all that is required is there, by what the member means.
    ghost by_meaning: { Self.Meaning → Bool };

    /// Whether all that is required is there.
    ///
    /// ```ignore
    /// RepeatedMessageField::<Person>::part_initialized(&self.people)
    /// ```
    fn part_initialized(part: &Self::Part) -> bool
        ensures { result ≡ by_meaning (Self.shape.meaning part.now) };
}

impl<F: Framing, N: Message + RequiredMeaning> RequiredMember for MessageIn<F, N> {
    ghost by_meaning = { true_if_there N.by_meaning };

    fn part_initialized(part: &Option<N>) -> bool {
        match part {
            Some(message) => message.meaning_initialized(),
            None => true,
        }
    }
}

// Whether all that is required is there, in each message of a list.
fn each_initialized<N: RequiredMeaning>(list: &Vec<N>) -> bool
    ensures { result ≡ list_all (λ m. N.by_meaning (N.meaning m)) list.now.items }
{
    list.iter().all(|message| message.meaning_initialized())
}

impl<F: Framing, N: Message + RequiredMeaning> RequiredMember for MessagesIn<F, N> {
    ghost by_meaning = { list_all N.by_meaning };

    fn part_initialized(part: &Vec<N>) -> bool {
        each_initialized(part)
    }
}

// Whether all that is required is there, in each message of a map.
fn values_initialized<K: Hash + Eq, N: RequiredMeaning>(map: &Map<K, N>) -> bool
    ensures { result ≡ list_all (λ p. N.by_meaning (N.meaning p.1)) map.now.entries }
{
    map.iter().all(|(_, message)| message.meaning_initialized())
}

impl<KC: MapCodec, N: Message + RequiredMeaning> RequiredMember for MessageMapField<KC, N>
where
    KC::Value: MapKey + Hash,
{
    ghost by_meaning = { list_all (λ p. N.by_meaning p.1) };

    fn part_initialized(part: &Map<KC::Value, N>) -> bool {
        values_initialized(part)
    }
}

// Whether all that is required is there, in each message of a map in the order of its keys.
fn ordered_initialized<K: Ord, N: RequiredMeaning>(map: &BTreeMap<K, N>) -> bool
    ensures { result ≡ list_all (λ p. N.by_meaning (N.meaning p.1)) map.now.entries }
{
    map.iter().all(|(_, message)| message.meaning_initialized())
}

impl<KC: MapCodec, N: Message + RequiredMeaning> RequiredMember for OrderedMessageMapField<KC, N>
where
    KC::Value: OrderedKey,
{
    ghost by_meaning = { list_all (λ p. N.by_meaning p.1) };

    fn part_initialized(part: &BTreeMap<KC::Value, N>) -> bool {
        ordered_initialized(part)
    }
}

/// The enum of a oneof in whose messages something is required, by what its cases mean.
///
/// ```ignore
/// impl RequiredCases for TaskAt { .. }
/// ```
pub trait RequiredCases: OneOf {
    /// Whether all that is required is there, by what a case means.
    ghost by_meaning: { Self.Meaning → Bool };

    /// Whether all that is required is there, in the case that is there, if one is.
    ///
    /// ```ignore
    /// TaskAt::case_initialized(&self.at)
    /// ```
    fn case_initialized(part: &Option<Self>) -> bool
        ensures { result ≡ true_if_there by_meaning (case_means Self.cases part.now) };
}
