//! buffa.sample.Train, made of inventory.proto by protoc-gen-buffa.

ghost use Rattle.std.proofs.Common.{lit<, refl};
ghost use Rattle.buffa_fields.specs.Terms.{field, skip_unknown};

use crate::wagon::Wagon;
use buffa_fields::map_codec::{Int32, Map};
use buffa_fields::{
    And, And3, Blank, DecodeContext, DecodeError, FieldByField, FieldsMeaning, Member,
    MessageFields, MessageImpl, MessageMapField, RepeatedMessageField, Tag, Visitor, unknown,
};
use std::alloc::Global;

/// A train: messages of thirteen members in a map and in a list.
///
/// message Train {
///     map<int32, Wagon> wagons = 1;
///     repeated Wagon spares = 2;
/// }
///
/// The fields that aren't declared are passed over.
#[derive(Debug, Drop)]
pub struct Train {
    pub wagons: Map<i32, Wagon>,
    pub spares: Vec<Wagon>,
}

impl MessageFields for Train {
    type Meaning = And3<
        [And<i32, <Wagon as Blank>::Meaning>; 0],
        [<Wagon as Blank>::Meaning; 0],
        (),
    >;

    const COST: usize = 72;

    ghost COST = { 72 };

    ghost positive = { lit< tt };

    ghost schema = { field 1 (λ m. m.wagons) ⟦<MessageMapField<Int32, Wagon> as Member>⟧.shape (
        field 2 (λ m. m.spares) ⟦<RepeatedMessageField<Wagon> as Member>⟧.shape (
        skip_unknown)) };

    ghost sound = { refl };

    fn visit<V: Visitor>(&self, visitor: &mut V) {
        visitor.visit::<MessageMapField<Int32, Wagon>>(1, &self.wagons);
        visitor.visit::<RepeatedMessageField<Wagon>>(2, &self.spares);
    }

    fn take(
        &mut self,
        alloc: Global,
        tag: Tag,
        buf: &mut &[u8],
        ctx: DecodeContext<'_>,
    ) -> Result<(), DecodeError> {
        match tag.field_number() {
            1 => MessageMapField::<Int32, Wagon>::merge(&mut self.wagons, alloc, tag, buf, ctx),
            2 => RepeatedMessageField::<Wagon>::merge(&mut self.spares, alloc, tag, buf, ctx),
            _ => unknown::pass(tag, buf, ctx),
        }
    }
}

impl Blank for Train {
    type Meaning = <Train as MessageFields>::Meaning;

    ghost meaning = { ⟦<Train as MessageFields>⟧.schema.meaning };

    ghost blank_is = { ⟦<Train as MessageFields>⟧.schema.blank };

    fn blank(alloc: Global) -> Train {
        Train {
            wagons: Map::new(alloc),
            spares: Vec::new(alloc),
        }
    }
}

impl FieldsMeaning for Train {
    ghost means = { λ m. refl };

    ghost starts = { refl };
}

impl MessageImpl for Train {
    type Impl = FieldByField;
}

impl Train {
    /// The full name of the message.
    pub const FULL_NAME: &'static str = "buffa.sample.Train";
}

impl buffa_locate::Locate for Train {
    fn name_of(number: u32) -> Option<&'static str> {
        match number {
            1 => Some("wagons"),
            2 => Some("spares"),
            _ => None,
        }
    }

    fn inside(number: u32) -> Option<buffa_locate::Inside> {
        match number {
            1 => {
                let key = <Int32 as buffa_fields::map_codec::MapValueDecode>::COST;
                let held = buffa_locate::Inside::value::<Wagon>(key);
                Some(held)
            }
            2 => Some(buffa_locate::Inside::element::<Wagon>()),
            _ => None,
        }
    }

    fn find_inside(
        number: u32,
        alloc: Global,
        search: buffa_locate::Search<'_>,
        path: &mut Vec<buffa_locate::Step>,
    ) -> Result<Option<usize>, std::alloc::AllocError> {
        match number {
            1 | 2 => buffa_locate::find::<Wagon>(alloc, search, path),
            _ => buffa_locate::nothing_inside(search, path),
        }
    }
}
