//! buffa.sample.Customs, made of shipment.proto by protoc-gen-buffa.

ghost use Rattle.std.proofs.Common.{lit<, refl};
ghost use Rattle.buffa_fields.specs.Terms.{field, keep_unknown};

use buffa_fields::map_codec::Str;
use buffa_fields::{
    And, Blank, DecodeContext, DecodeError, ExplicitField, FieldByField, FieldsMeaning, Member,
    MessageFields, MessageImpl, Tag, UnknownFields, Unknowns, Visitor, unknown,
};
use buffa_types::NamedMessage;
use std::alloc::Global;
use std::string::String;

/// What the customs want to know.
///
/// message Customs {
///     optional string goods = 1;
/// }
#[derive(Debug, Drop)]
pub struct Customs {
    pub goods: Option<String>,
    /// The fields that aren't declared, in order.
    pub unknown_fields: UnknownFields,
}

impl MessageFields for Customs {
    type Meaning = And<Option<[u8; 0]>, Unknowns>;

    const COST: usize = 56;

    ghost COST = { 56 };

    ghost positive = { lit< tt };

    ghost schema = { field 1 (λ m. m.goods) ⟦<ExplicitField<Str> as Member>⟧.shape (
        keep_unknown (λ m. m.unknown_fields.records)) };

    ghost sound = { refl };

    fn visit<V: Visitor>(&self, visitor: &mut V) {
        visitor.visit::<ExplicitField<Str>>(1, &self.goods);
        visitor.visit_unknown_fields(&self.unknown_fields);
    }

    fn take(
        &mut self,
        alloc: Global,
        tag: Tag,
        buf: &mut &[u8],
        ctx: DecodeContext<'_>,
    ) -> Result<(), DecodeError> {
        match tag.field_number() {
            1 => ExplicitField::<Str>::merge(&mut self.goods, alloc, tag, buf, ctx),
            _ => unknown::keep(alloc, &mut self.unknown_fields, tag, buf, ctx),
        }
    }
}

impl Blank for Customs {
    type Meaning = <Customs as MessageFields>::Meaning;

    ghost meaning = { ⟦<Customs as MessageFields>⟧.schema.meaning };

    ghost blank_is = { ⟦<Customs as MessageFields>⟧.schema.blank };

    fn blank(alloc: Global) -> Customs {
        Customs {
            goods: None,
            unknown_fields: UnknownFields::new(alloc),
        }
    }
}

impl FieldsMeaning for Customs {
    ghost means = { λ m. refl };

    ghost starts = { refl };
}

impl MessageImpl for Customs {
    type Impl = FieldByField;
}

const _: () = prove!(size_of::<Customs>() <= Customs::COST);

impl NamedMessage for Customs {
    ghost use Rattle.std.specs.Prelude.{codes};

    ghost name = { codes "buffa.sample.Customs" };

    fn full_name() -> &'static str {
        Self::FULL_NAME
    }
}

impl Customs {
    ghost use Rattle.std.specs.Prelude.{[], option_map, string_bytes, unwrap_or, ◌≡◌};

    /// The full name of the message.
    pub const FULL_NAME: &'static str = "buffa.sample.Customs";

    /// `goods`, or the default of its type where it isn't there: empty.
    pub fn goods(&self) -> &str
        ensures is { result.now ≡ unwrap_or (option_map string_bytes self.now.goods) [] }
    {
        match &self.goods {
            Some(it) => it.as_str(),
            None => "",
        }
    }
}
