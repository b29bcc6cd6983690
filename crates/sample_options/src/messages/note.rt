//! shop.Note, made of shop.proto by protoc-gen-buffa.

ghost use Rattle.std.proofs.Common.{lit<, refl};
ghost use Rattle.buffa_fields.specs.Terms.{field, keep_unknown};

use buffa_fields::map_codec::Str;
use buffa_fields::{
    And, Blank, DecodeContext, DecodeError, FieldByField, FieldsMeaning, ImplicitField, Member,
    MessageFields, MessageImpl, Tag, UnknownFields, Unknowns, Visitor, unknown,
};
use std::alloc::Global;
use std::string::String;

/// What an option may say in words.
///
/// message Note {
///     string text = 1;
/// }
#[derive(Debug, Drop)]
pub struct Note {
    pub text: String,
    /// The fields that aren't declared, in order.
    pub unknown_fields: UnknownFields,
}

impl MessageFields for Note {
    type Meaning = And<[u8; 0], Unknowns>;

    const COST: usize = 48;

    ghost COST = { 48 };

    ghost positive = { lit< tt };

    ghost schema = { field 1 (λ m. m.text) ⟦<ImplicitField<Str> as Member>⟧.shape (
        keep_unknown (λ m. m.unknown_fields.records)) };

    ghost sound = { refl };

    fn visit<V: Visitor>(&self, visitor: &mut V) {
        visitor.visit::<ImplicitField<Str>>(1, &self.text);
        visitor.visit_unknown_fields(&self.unknown_fields);
    }

    fn take(
        &mut self,
        alloc: Global,
        tag: Tag,
        buf: &mut &[u8],
        ctx: DecodeContext<'_>,
    ) -> Result<(), DecodeError> {
        match tag.field_number() {
            1 => ImplicitField::<Str>::merge(&mut self.text, alloc, tag, buf, ctx),
            _ => unknown::keep(alloc, &mut self.unknown_fields, tag, buf, ctx),
        }
    }
}

impl Blank for Note {
    type Meaning = <Note as MessageFields>::Meaning;

    ghost meaning = { ⟦<Note as MessageFields>⟧.schema.meaning };

    ghost blank_is = { ⟦<Note as MessageFields>⟧.schema.blank };

    fn blank(alloc: Global) -> Note {
        Note {
            text: String::new(alloc),
            unknown_fields: UnknownFields::new(alloc),
        }
    }
}

impl FieldsMeaning for Note {
    ghost means = { λ m. refl };

    ghost starts = { refl };
}

impl MessageImpl for Note {
    type Impl = FieldByField;
}

const _: () = prove!(size_of::<Note>() <= Note::COST);

impl Note {
    /// The full name of the message.
    pub const FULL_NAME: &'static str = "shop.Note";
}
