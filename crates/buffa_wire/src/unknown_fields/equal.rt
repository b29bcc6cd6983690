//! Equality of unknown fields: that of their records.

ghost use Rattle.std.specs.Cmp.{partial_equiv_from_equiv, on_per, on_equiv};
ghost use Rattle.buffa_wire.specs.Equal.{field_data_eq, field_data_eq_equiv, field_eq, field_eq_equiv, held_eq, held_eq_equiv};
ghost use Rattle.buffa_wire.specs.RecordsOfValues.{field_data_of};

use crate::unknown_fields::{UnknownField, UnknownFieldData, UnknownFields};

impl PartialEq for UnknownField {
    ghost eq = { field_eq };

    ghost laws = { partial_equiv_from_equiv field_eq_equiv };

    #[cycle(equal)]
    fn eq(&self, other: &UnknownField) -> bool {
        self.number == other.number && self.payload == other.payload
    }
}

impl Eq for UnknownField {
    ghost laws = { field_eq_equiv };
}

impl PartialEq for UnknownFieldData {
    ghost eq = { λ a b. field_data_eq (field_data_of a) (field_data_of b) };

    ghost laws = { on_per field_data_of (partial_equiv_from_equiv field_data_eq_equiv) };

    #[cycle(equal)]
    fn eq(&self, other: &UnknownFieldData) -> bool {
        match self {
            UnknownFieldData::Varint(a) => match other {
                UnknownFieldData::Varint(b) => return *a == *b,
                _ => return false,
            },
            UnknownFieldData::Fixed32(a) => match other {
                UnknownFieldData::Fixed32(b) => return *a == *b,
                _ => return false,
            },
            UnknownFieldData::Fixed64(a) => match other {
                UnknownFieldData::Fixed64(b) => return *a == *b,
                _ => return false,
            },
            UnknownFieldData::LengthDelimited(a) => match other {
                UnknownFieldData::LengthDelimited(b) => return a.as_slice() == b.as_slice(),
                _ => return false,
            },
            UnknownFieldData::Group(a) => match other {
                UnknownFieldData::Group(b) => return *a == *b,
                _ => return false,
            },
        }
    }
}

impl Eq for UnknownFieldData {
    ghost laws = { on_equiv field_data_of field_data_eq_equiv };
}

impl PartialEq for UnknownFields {
    ghost eq = { held_eq };

    ghost laws = { partial_equiv_from_equiv held_eq_equiv };

    #[cycle(equal)]
    fn eq(&self, other: &UnknownFields) -> bool {
        let n = self.fields.len();
        if n != other.fields.len() {
            return false;
        }
        for i in 0..n {
            let a = &self.fields[i];
            let b = &other.fields[i];
            let same = *a == *b;
            if !same {
                return false;
            }
        }
        true
    }
}

impl Eq for UnknownFields {
    ghost laws = { held_eq_equiv };
}
