//! What holds of messages that hold themselves: each law is a function that does nothing.

ghost use Rattle.std.specs.Prelude.{◌≡◌, ◌≤◌, ◌↔◌, Bool, ℕ, Some, true};
ghost use Rattle.buffa_wire.specs.Parse.{Fits};
ghost use Rattle.buffa_wire.specs.Records.{records_of};
ghost use Rattle.buffa_fields.specs.facts.SchemaFacts.{comes_free};
ghost use Rattle.buffa_recursive.specs.Layers.{IsNormalRecursive};
ghost use Rattle.buffa_recursive.specs.Fixpoint.{semantics, message_schema};
ghost use Rattle.buffa_recursive.specs.InnerMessages.{AreExactBy, encoding_by};
ghost use Rattle.buffa_recursive.specs.ConditionsInside.{each_asked};
ghost use Rattle.buffa_recursive.specs.MessageTree.{MessageTree};
ghost use Rattle.buffa_fields_laws.specs.MessagesInside.{IsIn};

use buffa_fields::members::member::Member;
use buffa_fields::members::ordered_key::OrderedKey;
use buffa_fields::oneofs::one_of::OneOf;
use buffa_map::map_codec::MapCodec;
use buffa_recursive::recursive_fields::RecursiveFields;
use buffa_recursive::recursive_meaning::RecursiveMeaning;
use buffa_recursive::recursive_type::RecursiveType;
use buffa_recursive::visitor::RecursiveVisitor;
use buffa_wire::UnknownFields;
use std::collections::BTreeMap;

// Visits members, and does nothing.
#[derive(Drop)]
struct Nothing;

impl<M: RecursiveMeaning> RecursiveVisitor<M> for Nothing {
    ghost IsAt = { λ z v. Unit {0} };

    ghost Waits = { λ ss v. Unit {0} };

    ghost begins = { λ ss rest v h. comes_free ss v };

    ghost Reaches = { λ h v. Unit {0} };

    fn visit<N: Member>(&mut self, _number: u32, _part: &N::Part) {}

    fn visit_one_of<E: OneOf>(&mut self, _part: &Option<E>) {
        E::reads_back();
    }

    fn visit_list(&mut self, _number: u32, _part: &Vec<M>) {}

    fn visit_one(&mut self, _number: u32, _part: &Option<Box<M>>) {}

    fn visit_map<KC: MapCodec>(&mut self, _number: u32, _part: &BTreeMap<KC::Value, M>)
    where
        KC::Value: OrderedKey,
    {}

    fn visit_unknown_fields(&mut self, _fields: &UnknownFields) {}
}

/// The members of another type read back.
///
/// ```ignore
/// members_read_back(message);
/// ```
pub fn members_read_back<M: RecursiveFields>(message: &M)
    ensures { M.schema.Owes }
{
    let mut nothing = Nothing;
    message.visit(&mut nothing);
}

/// The encoding of a message reads back to it: its lengths can be read, its members are normal, also those of the messages
/// inside, and it isn't too deep.
///
/// ```ignore
/// messages_read_back(&message);
/// ```
pub fn messages_read_back<M: RecursiveFields>(message: &M)
    ensures { let t = semantics M.COST M.schema M.sound in
        (d : ℕ) → Fits (records_of (t.records message.now)) →
        M.schema.into (M.schema.out message.now) ≡ message.now →
        (message_schema M.COST M.schema M.sound).normal (M.schema.out message.now) → t.levels message.now ≤ d →
        t.merged d t.blank (encoding_by t message.now) ≡ Some message.now }
{
    members_read_back(message);
}

/// The levels of a message are exact, where those of its members of another type are: its encoding is merged at no lesser
/// depth.
///
/// ```ignore
/// levels_are_exact::<Outline>();
/// ```
pub fn levels_are_exact<M: RecursiveType>()
    ensures { M.schema.Exact → AreExactBy (semantics M.COST M.schema M.sound) }
{}

/// What is told of a message is what its members say, by what is told.
///
/// ```ignore
/// messages_are_their_members(&message);
/// ```
pub fn messages_are_their_members<M: RecursiveType>(message: &M)
    ensures records { let t = semantics M.COST M.schema M.sound in
        t.records message.now ≡ (M.schema.schema t).records (M.schema.out message.now) }
    ensures slots { let t = semantics M.COST M.schema M.sound in
        t.slots message.now ≡ (M.schema.schema t).slots (M.schema.out message.now) }
    ensures levels { let t = semantics M.COST M.schema M.sound in
        t.levels message.now ≡ (M.schema.schema t).levels (M.schema.out message.now) }
    ensures normal { let t = semantics M.COST M.schema M.sound in
        t.normal message.now → IsNormalRecursive M.COST M.schema t message.now }
    ensures is_normal { let t = semantics M.COST M.schema M.sound in
        IsNormalRecursive M.COST M.schema t message.now → t.normal message.now }
{}

/// All that is required is there in a message that holds itself exactly where each message of its type in it, at any depth, has
/// what is asked of it.
pub fn what_is_asked_is_asked_of_each<W>()
    ensures { (asked : MessageTree W → Bool) (t : MessageTree W) → ((each_asked asked).whole t ≡ true)
        ↔ ((k : MessageTree W) → IsIn k t → asked k ≡ true) }
{}
