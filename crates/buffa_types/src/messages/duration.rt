//! google.protobuf.Duration, made of google/protobuf/duration.proto by protoc-gen-buffa.

ghost use Rattle.std.proofs.Common.{lit<, refl};
ghost use Rattle.buffa_fields.specs.Terms.{field, keep_unknown};

use crate::named_message::NamedMessage;
use buffa_fields::map_codec::{Int32, Int64};
use buffa_fields::{
    And3, Blank, DecodeContext, DecodeError, FieldByField, FieldsMeaning, ImplicitField, Member,
    MessageFields, MessageImpl, Tag, UnknownFields, Unknowns, Visitor, unknown,
};
use std::alloc::Global;

/// A span of time, forward or back, of seconds and parts of a second: some 10,000 years at most.
///
/// message Duration {
///     int64 seconds = 1;
///     int32 nanos = 2;
/// }
#[derive(Clone, Debug, Drop, PartialEq, Eq)]
pub struct Duration {
    /// The whole seconds, -315,576,000,000 to 315,576,000,000.
    pub seconds: i64,
    /// The rest in nanoseconds, -999,999,999 to 999,999,999. Where neither it nor the seconds are 0 both have one sign.
    pub nanos: i32,
    /// The fields that aren't declared, in order.
    pub unknown_fields: UnknownFields,
}

impl MessageFields for Duration {
    type Meaning = And3<i64, i32, Unknowns>;

    const COST: usize = 40;

    ghost COST = { 40 };

    ghost positive = { lit< tt };

    ghost schema = { field 1 (λ m. m.seconds) ⟦<ImplicitField<Int64> as Member>⟧.shape (
        field 2 (λ m. m.nanos) ⟦<ImplicitField<Int32> as Member>⟧.shape (
        keep_unknown (λ m. m.unknown_fields.records))) };

    ghost sound = { refl };

    fn visit<V: Visitor>(&self, visitor: &mut V) {
        visitor.visit::<ImplicitField<Int64>>(1, &self.seconds);
        visitor.visit::<ImplicitField<Int32>>(2, &self.nanos);
        visitor.visit_unknown_fields(&self.unknown_fields);
    }

    fn take(
        &mut self,
        alloc: Global,
        tag: Tag,
        buf: &mut &[u8],
        ctx: DecodeContext<'_>,
    ) -> Result<(), DecodeError> {
        match tag.field_number() {
            1 => ImplicitField::<Int64>::merge(&mut self.seconds, alloc, tag, buf, ctx),
            2 => ImplicitField::<Int32>::merge(&mut self.nanos, alloc, tag, buf, ctx),
            _ => unknown::keep(alloc, &mut self.unknown_fields, tag, buf, ctx),
        }
    }
}

impl Blank for Duration {
    type Meaning = <Duration as MessageFields>::Meaning;

    ghost meaning = { ⟦<Duration as MessageFields>⟧.schema.meaning };

    ghost blank_is = { ⟦<Duration as MessageFields>⟧.schema.blank };

    fn blank(alloc: Global) -> Duration {
        Duration {
            seconds: 0,
            nanos: 0,
            unknown_fields: UnknownFields::new(alloc),
        }
    }
}

impl FieldsMeaning for Duration {
    ghost means = { λ m. refl };

    ghost starts = { refl };
}

impl MessageImpl for Duration {
    type Impl = FieldByField;
}

const _: () = prove!(size_of::<Duration>() <= Duration::COST);

impl NamedMessage for Duration {
    ghost use Rattle.std.specs.Prelude.{codes};

    ghost name = { codes "google.protobuf.Duration" };

    fn full_name() -> &'static str {
        Self::FULL_NAME
    }
}

impl Duration {
    /// The full name of the message.
    pub const FULL_NAME: &'static str = "google.protobuf.Duration";
}
