//! buffa.sample.Task, made of task.proto by protoc-gen-buffa.

ghost use Rattle.std.proofs.Common.{lit<, refl};
ghost use Rattle.std.specs.Prelude.{is_some, ◌&&◌};
ghost use Rattle.buffa_recursive.specs.Terms.{each_asked, keeps_unknown, list_inside, map_inside, member, member_one_of, one_inside, recursive_message, rest_of, true_if_there};

use crate::person::Person;
use crate::task_at::TaskAt;
use buffa_fields::map_codec::{Int32, Str};
use buffa_fields::{
    Blank, DecodeContext, DecodeError, ExplicitField, Member, MessageImpl, OneOf,
    RepeatedMessageField, Required, Tag, UnknownFields, unknown,
};
use buffa_recursive::{
    ByKey, InnerMerger, Keyed, RecursiveFieldByField, RecursiveFields, RecursiveMeaning,
    RecursiveType, RecursiveVisitor, RequiredCases, RequiredMember, SelfAsked, SelfAsker,
    SelfRequired, list_initialized, map_initialized, one_initialized, take_list, take_map,
    take_one, take_one_of, tree_initialized,
};
use std::alloc::Global;
use std::collections::BTreeMap;
use std::marker::Model;
use std::string::String;

/// A task, with those that it consists of: each has a title, and each person in it a name.
///
/// message Task {
///     required string title = 1;
///     repeated Task parts = 2;
///     optional Task before = 3;
///     map<int32, Task> by_day = 4;
///     repeated Person people = 5;
///     oneof at {
///         int32 room = 6;
///         Person host = 7;
///     }
/// }
///
/// Read where it isn't there, too, and `is_initialized` says whether it is: title = 1.
///
/// `is_initialized` looks into the messages of these: parts = 2, before = 3, by_day = 4, people = 5, host = 7.
///
/// Written in the order of their keys: by_day = 4.
#[derive(Debug, Drop)]
pub struct Task {
    pub title: Option<String>,
    pub parts: Vec<Task>,
    pub before: Option<Box<Task>>,
    pub by_day: BTreeMap<i32, Task>,
    pub people: Vec<Person>,
    pub at: Option<TaskAt>,
    /// The fields that aren't declared, in order.
    pub unknown_fields: UnknownFields,
}

impl Model for Task {
    ghost use Rattle.std.specs.Coded.{codes};
    ghost use Rattle.std.specs.Option.{option_map};
    ghost use Rattle.std.specs.Prelude.{List, Option, ℕ, ℤ};
    ghost use Rattle.std.proofs.Common.{arith};
    ghost use Rattle.buffa_fields.specs.Terms.{FieldData, coded_field_data, coded_or};
    ghost use Rattle.buffa_recursive.specs.Terms.{CaseMeaningOf, MeaningOf, MessageTree, coded_tree, has, has_case, has_list, has_map, has_one, has_unknown_fields, most-of_list, most-of_map, tree_height, tree_of};

    ghost Value = { MessageTree (
        Option (List ℕ) × (
        List ℤ × (
        MeaningOf ⟦<RepeatedMessageField<Person> as Member>⟧.shape × (
        CaseMeaningOf ⟦<TaskAt as OneOf>⟧.cases × List (ℕ × FieldData))))) };

    ghost coded = { Prim.hlevel (codes, coded_field_data, coded_tree, coded_or) };

    ghost view = { λ m. tree_of (
        has (⟦<ExplicitField<Str> as Member>⟧.shape.meaning m.title) (
        has_list m.parts.items (
        has_one (option_map (λ b. b.value) m.before) (
        has_map ⟦<i32 as Blank>⟧.meaning m.by_day.entries (
        has (⟦<RepeatedMessageField<Person> as Member>⟧.shape.meaning m.people) (
        has_case ⟦<TaskAt as OneOf>⟧.cases m.at (has_unknown_fields m.unknown_fields.records))))))) };

    ghost size = { tree_height };

    ghost size_decreases = { λ m h. Prim.grind (
      arith,
      most-of_list m.parts.items,
      most-of_map ⟦<i32 as Blank>⟧.meaning m.by_day.entries,
    ) };
}

impl RecursiveType for Task {
    const COST: usize = 216;

    ghost COST = { 216 };

    ghost positive = { lit< tt };

    ghost schema = { recursive_message (
        member 1 ⟦<ExplicitField<Str> as Member>⟧.shape (
        list_inside 2 (
        one_inside 3 (
        map_inside 4 ⟦<ByKey<Int32> as Keyed>⟧.keys (
        member 5 ⟦<RepeatedMessageField<Person> as Member>⟧.shape (
        member_one_of ⟦<TaskAt as OneOf>⟧.cases keeps_unknown)))))) };

    ghost sound = { λ w. refl };
}

impl RecursiveFields for Task {
    fn visit<V: RecursiveVisitor<Task>>(&self, visitor: &mut V) {
        visitor.visit::<ExplicitField<Str>>(1, &self.title);
        visitor.visit_list(2, &self.parts);
        visitor.visit_one(3, &self.before);
        visitor.visit_map::<Int32>(4, &self.by_day);
        visitor.visit::<RepeatedMessageField<Person>>(5, &self.people);
        visitor.visit_one_of(&self.at);
        visitor.visit_unknown_fields(&self.unknown_fields);
    }

    fn take<I: InnerMerger<Task>>(
        &mut self,
        alloc: Global,
        tag: Tag,
        buf: &mut &[u8],
        ctx: DecodeContext<'_>,
        inner: &I,
    ) -> Result<(), DecodeError> {
        match tag.field_number() {
            1 => ExplicitField::<Str>::merge(&mut self.title, alloc, tag, buf, ctx),
            2 => take_list(&mut self.parts, alloc, tag, buf, ctx, inner),
            3 => take_one(&mut self.before, alloc, tag, buf, ctx, inner),
            4 => take_map::<Int32, Task, I>(&mut self.by_day, alloc, tag, buf, ctx, inner),
            5 => RepeatedMessageField::<Person>::merge(&mut self.people, alloc, tag, buf, ctx),
            6 => take_one_of(&mut self.at, alloc, tag, buf, ctx),
            7 => take_one_of(&mut self.at, alloc, tag, buf, ctx),
            _ => unknown::keep(alloc, &mut self.unknown_fields, tag, buf, ctx),
        }
    }
}

impl Blank for Task {
    type Meaning = Task;

    ghost meaning = { λ m. m };

    ghost blank_is = { ⟦<Task as RecursiveType>⟧.schema.into ⟦<Task as RecursiveType>⟧.schema.blank };

    fn blank(alloc: Global) -> Task {
        Task {
            title: None,
            parts: Vec::new(alloc),
            before: None,
            by_day: BTreeMap::new(alloc),
            people: Vec::new(alloc),
            at: None,
            unknown_fields: UnknownFields::new(alloc),
        }
    }
}

impl RecursiveMeaning for Task {
    ghost means = { λ m. refl };

    ghost starts = { refl };
}

impl MessageImpl for Task {
    type Impl = RecursiveFieldByField;
}

const _: () = prove!(size_of::<Task>() <= Task::COST);

impl SelfAsked for Task {
    ghost tree = { ⟦<Task as RecursiveType>⟧.schema };

    ghost asking = { each_asked (λ m. is_some (rest_of m).0.0 &&
        ⟦<RepeatedMessageField<Person> as RequiredMember>⟧.by_meaning (rest_of m).0.1.1.0 &&
        true_if_there ⟦<TaskAt as RequiredCases>⟧.by_meaning (rest_of m).0.1.1.1.0) };
}

impl SelfRequired for Task {
    fn is_initialized_by<I: SelfAsker<Task>>(&self, inner: &I) -> bool {
        self.title.is_some()
            & RepeatedMessageField::<Person>::part_initialized(&self.people)
            & TaskAt::case_initialized(&self.at)
            & list_initialized(&self.parts, inner)
            & one_initialized(&self.before, inner)
            & map_initialized(&self.by_day, inner)
    }
}

impl Required for Task {
    ghost initialized = { ⟦<Task as SelfAsked>⟧.asking.whole };

    fn is_initialized(&self) -> bool {
        tree_initialized(self)
    }
}

impl Task {
    ghost use Rattle.std.specs.Prelude.{[], unwrap_or, ◌≡◌};

    /// The full name of the message.
    pub const FULL_NAME: &'static str = "buffa.sample.Task";

    /// `title`, or the default of its type where it isn't there: empty.
    pub fn title(&self) -> &str
        ensures is { result.now ≡ unwrap_or (rest_of self.now).0.0 [] }
    {
        match &self.title {
            Some(it) => it.as_str(),
            None => "",
        }
    }
}

impl buffa_locate::Locate for Task {
    fn name_of(number: u32) -> Option<&'static str> {
        match number {
            1 => Some("title"),
            2 => Some("parts"),
            3 => Some("before"),
            4 => Some("by_day"),
            5 => Some("people"),
            6 => Some("room"),
            7 => Some("host"),
            _ => None,
        }
    }

    fn inside(number: u32) -> Option<buffa_locate::Inside> {
        match number {
            2 => Some(buffa_locate::Inside::own_element::<Task>()),
            3 => Some(buffa_locate::Inside::boxed::<Task>()),
            4 => {
                let key = <Int32 as buffa_fields::map_codec::MapValueDecode>::COST;
                let held = buffa_locate::Inside::own_value::<Task>(key);
                Some(held)
            }
            5 => Some(buffa_locate::Inside::element::<Person>()),
            7 => Some(buffa_locate::Inside::one()),
            _ => None,
        }
    }

    fn find_inside(
        number: u32,
        alloc: Global,
        search: buffa_locate::Search<'_>,
        path: &mut Vec<buffa_locate::Step>,
    ) -> Result<Option<usize>, std::alloc::AllocError> {
        match number {
            5 | 7 => buffa_locate::find::<Person>(alloc, search, path),
            _ => buffa_locate::nothing_inside(search, path),
        }
    }
}
