//! The oneof buffa.sample.Task.at, made of task.proto by protoc-gen-buffa.

ghost use Rattle.std.specs.Prelude.{true};
ghost use Rattle.buffa_recursive.specs.Terms.{by_case};
ghost use Rattle.buffa_fields.specs.Terms.{case, enum_of, no_case};
ghost use Rattle.buffa_fields.specs.declared.meaning.Or.TheVariants.{Other, This};
ghost use Rattle.sample_recursive.specs.declared.task_at.TaskAt.TheVariants.{Host, Room};

use crate::person::Person;
use buffa_fields::map_codec::Int32;
use buffa_fields::{
    Blank, Case, DecodeContext, DecodeError, ExplicitField, MessageField, OneOf, Or, Required, Set,
    Tag, Visitor, case_reads_back,
};
use buffa_recursive::{RequiredCases, RequiredMeaning};
use std::alloc::Global;

/// oneof at {
///     int32 room = 6;
///     Person host = 7;
/// }
#[derive(Debug, Drop)]
pub enum TaskAt {
    Room(i32),
    Host(Person),
}

impl OneOf for TaskAt {
    type Meaning = Or<i32, Or<<Person as Blank>::Meaning, ()>>;

    ghost cases = { enum_of (case 6 ⟦<ExplicitField<Int32> as Case>⟧.words (
        case 7 ⟦<MessageField<Person> as Case>⟧.words (
        no_case))) (λ m. elim m [
          | Room x ↦ This x
          | Host x ↦ Other (This x)
        ]) };

    fn visit<V: Visitor>(&self, visitor: &mut V) {
        match self {
            TaskAt::Room(it) => visitor.visit::<Set<ExplicitField<Int32>>>(6, it),
            TaskAt::Host(it) => visitor.visit::<Set<MessageField<Person>>>(7, it),
        }
    }

    fn take(
        slot: &mut Option<TaskAt>,
        alloc: Global,
        tag: Tag,
        buf: &mut &[u8],
        ctx: DecodeContext<'_>,
    ) -> Result<(), DecodeError> {
        match tag.field_number() {
            6 => {
                let it = ExplicitField::<Int32>::read_value(alloc, tag, buf, ctx)?;
                drop(slot.replace(TaskAt::Room(it)));
                Ok(())
            }
            7 => match slot {
                Some(TaskAt::Host(it)) => {
                    MessageField::<Person>::merge_value(it, alloc, tag, buf, ctx)
                }
                _ => {
                    let it = MessageField::<Person>::read_value(alloc, tag, buf, ctx)?;
                    drop(slot.replace(TaskAt::Host(it)));
                    Ok(())
                }
            },
            _ => Ok(()),
        }
    }

    fn reads_back() {
        case_reads_back::<ExplicitField<Int32>>();
        case_reads_back::<MessageField<Person>>();
    }
}

impl Required for TaskAt {
    ghost initialized = { elim [
      | Host x ↦ ⟦<Person as Required>⟧.initialized x
      | _ ↦ true
    ] };

    fn is_initialized(&self) -> bool {
        match self {
            TaskAt::Host(it) => it.is_initialized(),
            _ => true,
        }
    }
}

impl RequiredCases for TaskAt {
    ghost by_meaning = { by_case (λ _. true) (by_case ⟦<Person as RequiredMeaning>⟧.by_meaning (λ _. true)) };

    fn case_initialized(part: &Option<TaskAt>) -> bool {
        match part {
            Some(TaskAt::Host(it)) => it.meaning_initialized(),
            _ => true,
        }
    }
}
