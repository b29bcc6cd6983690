//! buffa.sample.Agenda, made of task.proto by protoc-gen-buffa.

ghost use Rattle.std.proofs.Common.{lit<, refl};
ghost use Rattle.buffa_fields.specs.Terms.{field, keep_unknown};

use crate::task::Task;
use buffa_fields::{
    And, Blank, DecodeContext, DecodeError, FieldByField, FieldsMeaning, Member, MessageFields,
    MessageImpl, RepeatedMessageField, Required, Tag, UnknownFields, Unknowns, Visitor, unknown,
};
use std::alloc::Global;

/// Nothing is required of it, but of the tasks in it.
///
/// message Agenda {
///     repeated Task tasks = 1;
/// }
///
/// `is_initialized` looks into the messages of these: tasks = 1.
#[derive(Debug, Drop)]
pub struct Agenda {
    pub tasks: Vec<Task>,
    /// The fields that aren't declared, in order.
    pub unknown_fields: UnknownFields,
}

impl MessageFields for Agenda {
    type Meaning = And<[<Task as Blank>::Meaning; 0], Unknowns>;

    const COST: usize = 48;

    ghost COST = { 48 };

    ghost positive = { lit< tt };

    ghost schema = { field 1 (λ m. m.tasks) ⟦<RepeatedMessageField<Task> as Member>⟧.shape (
        keep_unknown (λ m. m.unknown_fields.records)) };

    ghost sound = { refl };

    fn visit<V: Visitor>(&self, visitor: &mut V) {
        visitor.visit::<RepeatedMessageField<Task>>(1, &self.tasks);
        visitor.visit_unknown_fields(&self.unknown_fields);
    }

    fn take(
        &mut self,
        alloc: Global,
        tag: Tag,
        buf: &mut &[u8],
        ctx: DecodeContext<'_>,
    ) -> Result<(), DecodeError> {
        match tag.field_number() {
            1 => RepeatedMessageField::<Task>::merge(&mut self.tasks, alloc, tag, buf, ctx),
            _ => unknown::keep(alloc, &mut self.unknown_fields, tag, buf, ctx),
        }
    }
}

impl Blank for Agenda {
    type Meaning = <Agenda as MessageFields>::Meaning;

    ghost meaning = { ⟦<Agenda as MessageFields>⟧.schema.meaning };

    ghost blank_is = { ⟦<Agenda as MessageFields>⟧.schema.blank };

    fn blank(alloc: Global) -> Agenda {
        Agenda {
            tasks: Vec::new(alloc),
            unknown_fields: UnknownFields::new(alloc),
        }
    }
}

impl FieldsMeaning for Agenda {
    ghost means = { λ m. refl };

    ghost starts = { refl };
}

impl MessageImpl for Agenda {
    type Impl = FieldByField;
}

const _: () = prove!(size_of::<Agenda>() <= Agenda::COST);

impl Required for Agenda {
    ghost initialized = { λ m. ⟦<Vec<Task> as Required>⟧.initialized m.tasks };

    fn is_initialized(&self) -> bool {
        self.tasks.is_initialized()
    }
}

impl Agenda {
    /// The full name of the message.
    pub const FULL_NAME: &'static str = "buffa.sample.Agenda";
}

impl buffa_locate::Locate for Agenda {
    fn name_of(number: u32) -> Option<&'static str> {
        match number {
            1 => Some("tasks"),
            _ => None,
        }
    }

    fn inside(number: u32) -> Option<buffa_locate::Inside> {
        match number {
            1 => Some(buffa_locate::Inside::element::<Task>()),
            _ => None,
        }
    }

    fn find_inside(
        number: u32,
        alloc: Global,
        search: buffa_locate::Search<'_>,
        path: &mut Vec<buffa_locate::Step>,
    ) -> Result<Option<usize>, std::alloc::AllocError> {
        match number {
            1 => buffa_locate::find::<Task>(alloc, search, path),
            _ => buffa_locate::nothing_inside(search, path),
        }
    }
}
