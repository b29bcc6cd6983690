//! buffa.sample.Load, made of inventory.proto by protoc-gen-buffa.

ghost use Rattle.std.proofs.Common.{lit<, refl};
ghost use Rattle.buffa_fields.specs.Terms.{field, keep_unknown};

use buffa_fields::map_codec::{Int32, Str};
use buffa_fields::{
    And3, Blank, DecodeContext, DecodeError, ExplicitField, FieldByField, FieldsMeaning, Member,
    MessageFields, MessageImpl, Tag, UnknownFields, Unknowns, Visitor, unknown,
};
use std::alloc::Global;
use std::string::String;

/// A load: optional values.
///
/// message Load {
///     optional int32 weight = 1;
///     optional string mark = 2;
/// }
#[derive(Debug, Drop)]
pub struct Load {
    pub weight: Option<i32>,
    pub mark: Option<String>,
    /// The fields that aren't declared, in order.
    pub unknown_fields: UnknownFields,
}

impl MessageFields for Load {
    type Meaning = And3<Option<i32>, Option<[u8; 0]>, Unknowns>;

    const COST: usize = 56;

    ghost COST = { 56 };

    ghost positive = { lit< tt };

    ghost schema = { field 1 (λ m. m.weight) ⟦<ExplicitField<Int32> as Member>⟧.shape (
        field 2 (λ m. m.mark) ⟦<ExplicitField<Str> as Member>⟧.shape (
        keep_unknown (λ m. m.unknown_fields.records))) };

    ghost sound = { refl };

    fn visit<V: Visitor>(&self, visitor: &mut V) {
        visitor.visit::<ExplicitField<Int32>>(1, &self.weight);
        visitor.visit::<ExplicitField<Str>>(2, &self.mark);
        visitor.visit_unknown_fields(&self.unknown_fields);
    }

    fn take(
        &mut self,
        alloc: Global,
        tag: Tag,
        buf: &mut &[u8],
        ctx: DecodeContext<'_>,
    ) -> Result<(), DecodeError> {
        match tag.field_number() {
            1 => ExplicitField::<Int32>::merge(&mut self.weight, alloc, tag, buf, ctx),
            2 => ExplicitField::<Str>::merge(&mut self.mark, alloc, tag, buf, ctx),
            _ => unknown::keep(alloc, &mut self.unknown_fields, tag, buf, ctx),
        }
    }
}

impl Blank for Load {
    type Meaning = <Load as MessageFields>::Meaning;

    ghost meaning = { ⟦<Load as MessageFields>⟧.schema.meaning };

    ghost blank_is = { ⟦<Load as MessageFields>⟧.schema.blank };

    fn blank(alloc: Global) -> Load {
        Load {
            weight: None,
            mark: None,
            unknown_fields: UnknownFields::new(alloc),
        }
    }
}

impl FieldsMeaning for Load {
    ghost means = { λ m. refl };

    ghost starts = { refl };
}

impl MessageImpl for Load {
    type Impl = FieldByField;
}

impl Load {
    ghost use Rattle.std.specs.Prelude.{[], option_map, pos, string_bytes, unwrap_or, ◌≡◌};

    /// The full name of the message.
    pub const FULL_NAME: &'static str = "buffa.sample.Load";

    /// `weight`, or the default of its type where it isn't there: 0.
    pub fn weight(&self) -> i32
        ensures is { result ≡ unwrap_or self.now.weight (pos 0) }
    {
        self.weight.unwrap_or(0)
    }

    /// `mark`, or the default of its type where it isn't there: empty.
    pub fn mark(&self) -> &str
        ensures is { result.now ≡ unwrap_or (option_map string_bytes self.now.mark) [] }
    {
        match &self.mark {
            Some(it) => it.as_str(),
            None => "",
        }
    }
}

impl buffa_locate::Locate for Load {
    fn name_of(number: u32) -> Option<&'static str> {
        match number {
            1 => Some("weight"),
            2 => Some("mark"),
            _ => None,
        }
    }

    fn inside(_number: u32) -> Option<buffa_locate::Inside> {
        None
    }

    fn find_inside(
        _number: u32,
        _alloc: Global,
        search: buffa_locate::Search<'_>,
        path: &mut Vec<buffa_locate::Step>,
    ) -> Result<Option<usize>, std::alloc::AllocError> {
        buffa_locate::nothing_inside(search, path)
    }
}
