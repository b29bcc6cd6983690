//! Proto types whose values can be in a field by themselves.

ghost use Rattle.std.specs.Prelude.{◌≡◌, ◌++◌, ℕ, Bool, true};
ghost use Rattle.buffa_wire.specs.Parse.{IsValidFieldData};
ghost use Rattle.buffa_wire.specs.Records.{FieldData};
ghost use Rattle.buffa_wire.specs.Encoding.{tagged_encoding};
ghost use Rattle.buffa_bytes.specs.Values.{tag_encoding};

use buffa_map::map_codec::MapCodec;

/// A proto type whose values can be in a field by themselves.
///
/// ```ignore
/// impl ProtoType for Int32 { .. }
/// ```
pub trait ProtoType: MapCodec {
    /// The record data of a value.
    ghost field_data: { Self.Value.Meaning → FieldData };

    /// Whether a value is the default.
    ghost is_blank: { Self.Value.Meaning → Bool };

    /// Whether a value is the default, which isn't written where nothing says that it is there.
    fn is_blank(value: &Self::Value) -> bool
        ensures { result ≡ is_blank (Self.Value.meaning value.now) };

    /// The encoding of a field is that of its record.
    ghost field_data_encoding: { (n : ℕ) (v : Self.Value.Meaning) → tag_encoding n Self.writing.wire ++ Self.writing.encoding v ≡ tagged_encoding n (field_data v) };

    /// The data of a value of the type are in range.
    ghost field_data_valid: { (v : Self.Value.Meaning) → Self.fits v → IsValidFieldData (field_data v) };

    /// Of the values that are read, none but the default is left out.
    ghost blank_only: { (v : Self.Value.Meaning) → Self.normal v → is_blank v ≡ true → v ≡ Self.Value.blank_is };
}
