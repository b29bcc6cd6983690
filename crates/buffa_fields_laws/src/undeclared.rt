//! What may stand among the records that a member of a closed enum puts aside.

ghost use Rattle.std.specs.Prelude.{◌≡◌, ◌↔◌, ℕ, List, false};
ghost use Rattle.buffa_bytes.specs.Values.{int32_of};
ghost use Rattle.buffa_wire.specs.Enums.{numbers};
ghost use Rattle.buffa_wire.specs.Records.FieldData.{bytes, varint};
ghost use Rattle.buffa_map.specs.Enums.{closed_reading};
ghost use Rattle.buffa_map.specs.Scalars.{int32_reading};
ghost use Rattle.buffa_fields.specs.ClosedEnumMaps.{IsUndeclaredAt};

use buffa_fields::members::explicit_field::ExplicitField;
use buffa_fields::members::keeps_unknowns::KeepsUnknowns;
use buffa_fields::members::map_field::MapField;
use buffa_map::map_codec::{ClosedEnum, Int32, MapValueDecode, Str};
use buffa_wire::Enumeration;

/// Under a map's number a length-delimited entry that isn't known, at whatever depth, whether its keys are numbers or strings; under
/// an enum's a varint whose number is undeclared.
pub fn these_may_stand<E: Enumeration>()
    ensures entry { (d : ℕ) (e : List ℕ) →
        IsUndeclaredAt int32_reading (closed_reading (numbers E.of_number E.blank_is)) d e →
        ⟦<MapField<Int32, ClosedEnum<E>> as KeepsUnknowns>⟧.unknowns.AreUnknowns (bytes e) }
    ensures named_entry { (d : ℕ) (e : List ℕ) →
        IsUndeclaredAt ⟦<Str as MapValueDecode>⟧.reading (closed_reading (numbers E.of_number E.blank_is)) d e →
        ⟦<MapField<Str, ClosedEnum<E>> as KeepsUnknowns>⟧.unknowns.AreUnknowns (bytes e) }
    ensures number { (k : ℕ) → ⟦<ExplicitField<ClosedEnum<E>> as KeepsUnknowns>⟧.unknowns.AreUnknowns (varint k)
        ↔ ((numbers E.of_number E.blank_is).declares (int32_of k) ≡ false) }
{}
