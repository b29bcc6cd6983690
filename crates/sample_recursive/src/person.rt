//! buffa.sample.Person, made of task.proto by protoc-gen-buffa.

ghost use Rattle.std.proofs.Common.{lit<, refl};
ghost use Rattle.std.specs.Prelude.{is_some};
ghost use Rattle.buffa_fields.specs.Terms.{field, keep_unknown};

use buffa_fields::map_codec::Str;
use buffa_fields::{
    And, Blank, DecodeContext, DecodeError, ExplicitField, FieldByField, FieldsMeaning, Member,
    MessageFields, MessageImpl, Required, Tag, UnknownFields, Unknowns, Visitor, unknown,
};
use buffa_recursive::RequiredMeaning;
use std::alloc::Global;
use std::string::String;

/// message Person {
///     required string name = 1;
/// }
///
/// Read where it isn't there, too, and `is_initialized` says whether it is: name = 1.
#[derive(Debug, Drop)]
pub struct Person {
    pub name: Option<String>,
    /// The fields that aren't declared, in order.
    pub unknown_fields: UnknownFields,
}

impl MessageFields for Person {
    type Meaning = And<Option<[u8; 0]>, Unknowns>;

    const COST: usize = 56;

    ghost COST = { 56 };

    ghost positive = { lit< tt };

    ghost schema = { field 1 (λ m. m.name) ⟦<ExplicitField<Str> as Member>⟧.shape (
        keep_unknown (λ m. m.unknown_fields.records)) };

    ghost sound = { refl };

    fn visit<V: Visitor>(&self, visitor: &mut V) {
        visitor.visit::<ExplicitField<Str>>(1, &self.name);
        visitor.visit_unknown_fields(&self.unknown_fields);
    }

    fn take(
        &mut self,
        alloc: Global,
        tag: Tag,
        buf: &mut &[u8],
        ctx: DecodeContext<'_>,
    ) -> Result<(), DecodeError> {
        match tag.field_number() {
            1 => ExplicitField::<Str>::merge(&mut self.name, alloc, tag, buf, ctx),
            _ => unknown::keep(alloc, &mut self.unknown_fields, tag, buf, ctx),
        }
    }
}

impl Blank for Person {
    type Meaning = <Person as MessageFields>::Meaning;

    ghost meaning = { ⟦<Person as MessageFields>⟧.schema.meaning };

    ghost blank_is = { ⟦<Person as MessageFields>⟧.schema.blank };

    fn blank(alloc: Global) -> Person {
        Person {
            name: None,
            unknown_fields: UnknownFields::new(alloc),
        }
    }
}

impl FieldsMeaning for Person {
    ghost means = { λ m. refl };

    ghost starts = { refl };
}

impl MessageImpl for Person {
    type Impl = FieldByField;
}

const _: () = prove!(size_of::<Person>() <= Person::COST);

impl RequiredMeaning for Person {
    ghost by_meaning = { λ y. is_some y.0 };

    fn meaning_initialized(&self) -> bool {
        self.name.is_some()
    }
}

impl Required for Person {
    ghost initialized = { λ m. ⟦<Person as RequiredMeaning>⟧.by_meaning (⟦<Person as Blank>⟧.meaning m) };

    fn is_initialized(&self) -> bool {
        self.meaning_initialized()
    }
}

impl Person {
    ghost use Rattle.std.specs.Prelude.{[], option_map, string_bytes, unwrap_or, ◌≡◌};

    /// The full name of the message.
    pub const FULL_NAME: &'static str = "buffa.sample.Person";

    /// `name`, or the default of its type where it isn't there: empty.
    pub fn name(&self) -> &str
        ensures is { result.now ≡ unwrap_or (option_map string_bytes self.now.name) [] }
    {
        match &self.name {
            Some(it) => it.as_str(),
            None => "",
        }
    }
}

impl buffa_locate::Locate for Person {
    fn name_of(number: u32) -> Option<&'static str> {
        match number {
            1 => Some("name"),
            _ => None,
        }
    }

    fn inside(_number: u32) -> Option<buffa_locate::Inside> {
        None
    }

    fn find_inside(
        _number: u32,
        _alloc: Global,
        search: buffa_locate::Search<'_>,
        path: &mut Vec<buffa_locate::Step>,
    ) -> Result<Option<usize>, std::alloc::AllocError> {
        buffa_locate::nothing_inside(search, path)
    }
}
