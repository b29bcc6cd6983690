//! What the words of values mean, in the encoding guide's words: bits, bytes, sums and lists. Each law is a function with
//! nothing to do, whose contract is the law.

ghost use Rattle.std.specs.Prelude.{◌≡◌, ◌<◌, ◌^◌, ◌+◌, ◌*◌, ◌↔◌, ℕ, ℤ, Bool, true, false, pos, negsuc, suc, max, List, [], ◌∷◌, ◌++◌};
ghost use Rattle.std.specs.Prelude.{length, codes, Some, is_some, Result, Ok, Err};
ghost use Rattle.std.specs.Prelude.{◌-◌, Vec, vec_capacity, vec_len};
ghost use Rattle.std.specs.Global.{Global};
ghost use Rattle.std.specs.Fmt.{decimal};
ghost use Rattle.std.specs.Fn.{CalledAt};
ghost use Rattle.std.specs.Int.{cast_unsigned, to_le_bytes, w32, w64};
ghost use Rattle.std.specs.Str.{is_utf8};
ghost use Rattle.buffa_bytes.specs.declared.error.DecodeError.{DecodeError};
ghost use Rattle.buffa_bytes.specs.declared.error.DecodeError.TheVariants.{InvalidUtf8};
ghost use Rattle.buffa_bytes.specs.declared.error.DecodeError.TheVariants as decoding;
ghost use Rattle.buffa_bytes.specs.declared.error.EncodeError.TheVariants as encoding;
ghost use Rattle.buffa_bytes.specs.declared.error.MessageSetFault.TheVariants as item;
ghost use Rattle.buffa_bytes.specs.declared.wire_type.WireType.{WireType};
ghost use Rattle.buffa_bytes.specs.declared.wire_type.WireType.TheVariants as wire;
ghost use Rattle.buffa_bytes.specs.PayloadValue.{PayloadValue, bytes, bytes_in, payload_value_at, payload_value_by, number, number_in};
ghost use Rattle.buffa_bytes.specs.Delimited.{string_as, text_as};
ghost use Rattle.buffa_bytes.specs.ErrorText.{decode_error_text, encode_error_text, message_set_fault_text};
ghost use Rattle.buffa_bytes.specs.Scalars.{bool_at, bool_encoding, bool_of, eight_as, fixed32_at, fixed32_encoding, fixed32_of};
ghost use Rattle.buffa_bytes.specs.Scalars.{fixed64_at, fixed64_encoding, fixed64_of, four_as, int64_at, int64_encoding, int64_of};
ghost use Rattle.buffa_bytes.specs.Scalars.{sfixed32_at, sfixed32_encoding, sfixed32_of, sfixed64_at, sfixed64_encoding};
ghost use Rattle.buffa_bytes.specs.Scalars.{sfixed64_of, sint32_at, sint32_encoding, sint32_of, sint64_at, sint64_encoding};
ghost use Rattle.buffa_bytes.specs.Scalars.{sint64_of, uint32_at, uint32_encoding, uint32_of, uint64_at, uint64_encoding};
ghost use Rattle.buffa_bytes.specs.Scalars.{uint64_of, varint_as, zigzag};
ghost use Rattle.buffa_bytes.specs.Values.{delimited_encoding, int32_at, int32_encoding, int32_of, string_at, tag_encoding};
ghost use Rattle.buffa_bytes.specs.Varint.{varint_encoding};
ghost use Rattle.buffa_bytes.specs.Number.{IsNumber, wire_number};
ghost use Rattle.buffa_wire.specs.Encoding.{encodings, payload_encoding, records_encoding, tagged_encoding, wire_of};
ghost use Rattle.buffa_wire.specs.Enums.{DeclaresBlank, Numbers, Refines, numbers, open_number};
ghost use Rattle.buffa_wire.specs.NumberInRecord.{fixed32_in, fixed64_in, varint_in};
ghost use Rattle.buffa_wire.specs.Parse.{AreValid, Fits, InRange, field_count, fields_inside};
ghost use Rattle.buffa_wire.specs.Records as field_data;
ghost use Rattle.buffa_wire.specs.Records.{FieldData, Held, IsEmpty, IsNumeric, Records, field_data_height, height, records_height};
ghost use Rattle.buffa_wire.specs.Records.{records_of};
ghost use Rattle.buffa_wire.specs.RecordsOfValues.{AnswersRecords, CalledAtRecord, field_data_of, held, record_of, records_in};
ghost use Rattle.buffa_wire.specs.declared.unknown_fields.UnknownFieldData.TheVariants as payload;
ghost use Rattle.buffa_wire.specs.declared.unknown_fields.UnknownFields.TheInside.{Inside};

use buffa_wire::enumeration::Enumeration;
use buffa_wire::unknown_fields::UnknownField;

/// Of a number in a varint the low 32 bits count where the scalar has 32 bits, so that numbers with the same ones mean one
/// value. A bool is false at 0 alone. A number that isn't signed is itself. Source: the protobuf encoding guide, "Base 128
/// Varints" and "Bools and Enums".
pub fn low_bits_count()
    ensures int32 { (n k : ℕ) → int32_of (n + 2 ^ 32 * k) ≡ int32_of n }
    ensures uint32 { (n k : ℕ) → uint32_of (n + 2 ^ 32 * k) ≡ uint32_of n }
    ensures sint32 { (n k : ℕ) → sint32_of (n + 2 ^ 32 * k) ≡ sint32_of n }
    ensures uint64 { (n : ℕ) → uint64_of n ≡ n }
    ensures bool { (n : ℕ) → (bool_of n ≡ false) ↔ (n ≡ 0) }
    ensures fixed32 { (n : ℕ) → fixed32_of n ≡ n }
    ensures fixed64 { (n : ℕ) → fixed64_of n ≡ n }
{}

/// The zigzag of a number that isn't negative is its double, and that of -1 - n is one more than the double of n. Source: the
/// protobuf encoding guide, "Signed Integers".
pub fn zigzags_are_these()
    ensures not_negative { (n : ℕ) → zigzag (pos n) ≡ 2 * n }
    ensures negative { (n : ℕ) → zigzag (negsuc n) ≡ 2 * n + 1 }
{}

/// How each scalar is written: as a varint, of its two's complement in 64 bits or its zigzag where it is signed; or as four or
/// eight bytes, the lowest first. Bytes have their length before them.
#[tactic(auto, unfolding(buffa_bytes::specs::Varint::varint_encoding, buffa_bytes::specs::Varint::shortest))]
pub fn encodings_are_these()
    ensures tag { (f : ℕ) (w : WireType) → tag_encoding f w ≡ varint_encoding (8 * f + wire_number w) }
    ensures delimited { (bs : List ℕ) → delimited_encoding bs ≡ varint_encoding (length bs) ++ bs }
    ensures int32 { (v : ℤ) → int32_encoding v ≡ varint_encoding (cast_unsigned w64 v) }
    ensures int64 { (v : ℤ) → int64_encoding v ≡ varint_encoding (cast_unsigned w64 v) }
    ensures uint32 { (n : ℕ) → uint32_encoding n ≡ varint_encoding n }
    ensures uint64 { (n : ℕ) → uint64_encoding n ≡ varint_encoding n }
    ensures sint32 { (v : ℤ) → sint32_encoding v ≡ varint_encoding (zigzag v) }
    ensures sint64 { (v : ℤ) → sint64_encoding v ≡ varint_encoding (zigzag v) }
    ensures bool_true { bool_encoding true ≡ 1 ∷ [] }
    ensures bool_false { bool_encoding false ≡ 0 ∷ [] }
    ensures fixed32 { (n : ℕ) → fixed32_encoding n ≡ to_le_bytes w32 n }
    ensures fixed64 { (n : ℕ) → fixed64_encoding n ≡ to_le_bytes w64 n }
    ensures sfixed32 { (v : ℤ) → sfixed32_encoding v ≡ to_le_bytes w32 (cast_unsigned w32 v) }
    ensures sfixed64 { (v : ℤ) → sfixed64_encoding v ≡ to_le_bytes w64 (cast_unsigned w64 v) }
{}

/// A scalar at the front of bytes is what the number means that is at the front.
pub fn scalars_at_the_front_are_these()
    ensures int32 { (bs : List ℕ) → int32_at bs ≡ varint_as int32_of bs }
    ensures int64 { (bs : List ℕ) → int64_at bs ≡ varint_as int64_of bs }
    ensures uint32 { (bs : List ℕ) → uint32_at bs ≡ varint_as uint32_of bs }
    ensures uint64 { (bs : List ℕ) → uint64_at bs ≡ varint_as uint64_of bs }
    ensures sint32 { (bs : List ℕ) → sint32_at bs ≡ varint_as sint32_of bs }
    ensures sint64 { (bs : List ℕ) → sint64_at bs ≡ varint_as sint64_of bs }
    ensures bool { (bs : List ℕ) → bool_at bs ≡ varint_as bool_of bs }
    ensures fixed32 { (bs : List ℕ) → fixed32_at bs ≡ four_as fixed32_of bs }
    ensures fixed64 { (bs : List ℕ) → fixed64_at bs ≡ eight_as fixed64_of bs }
    ensures sfixed32 { (bs : List ℕ) → sfixed32_at bs ≡ four_as sfixed32_of bs }
    ensures sfixed64 { (bs : List ℕ) → sfixed64_at bs ≡ eight_as sfixed64_of bs }
    ensures string { (bs : List ℕ) → string_at bs ≡ string_as (λ text. text) bs }
{}

/// What is made of the content of a payload: the number or the bytes, and of bytes that are UTF-8 their text.
pub fn payload_values_mean_these<V>()
    ensures number { (n : ℕ) → number_in (number n) ≡ n }
    ensures bytes { (b : List ℕ) → bytes_in (bytes b) ≡ b }
    ensures text { (of : List ℕ → V) (b : List ℕ) → is_utf8 b ≡ true → text_as of b ≡ Ok (of b) }
    ensures no_text { (of : List ℕ → V) (b : List ℕ) → is_utf8 b ≡ false → text_as of b ≡ Err InvalidUtf8 }
    ensures made { (w : WireType) (of : PayloadValue → Result V DecodeError) (bs rest : List ℕ) (c : PayloadValue) (v : V) →
        payload_value_at w bs ≡ Ok (c, rest) → of c ≡ Ok v → payload_value_by w of bs ≡ Ok (v, rest) }
    ensures refused { (w : WireType) (of : PayloadValue → Result V DecodeError) (bs rest : List ℕ) (c : PayloadValue) (e : DecodeError) →
        payload_value_at w bs ≡ Ok (c, rest) → of c ≡ Err e → payload_value_by w of bs ≡ Err e }
    ensures no_payload_value { (w : WireType) (of : PayloadValue → Result V DecodeError) (bs : List ℕ) (e : DecodeError) →
        payload_value_at w bs ≡ Err e → payload_value_by w of bs ≡ Err e }
{}

/// A number of an open enum stays, declared or not, and is declared where a value has it. The numbers of an enum are those
/// that a value has. Source: the protobuf language guide, "Enumerations".
pub fn numbers_of_enums_stay<E: Enumeration>()
    ensures number { (n : ℤ) → (open_number E.of_number n).1 ≡ n }
    ensures declared { (n : ℤ) → (open_number E.of_number n).0 ≡ is_some (E.of_number n) }
    ensures declares { (n blank : ℤ) → (numbers E.of_number blank).declares n ≡ is_some (E.of_number n) }
    ensures default { (n : ℤ) → (numbers E.of_number n).blank ≡ n }
    ensures default_declared { is_some (E.of_number E.blank_is) ≡ true }
    ensures declares_default { (e : Numbers) → DeclaresBlank e ↔ (e.declares e.blank ≡ true) }
    ensures refines { (e f : Numbers) → Refines e f ↔ (((n : ℤ) → e.declares n ≡ true → f.declares n ≡ true)
        × (e.blank ≡ f.blank)) }
{}

/// The record of an unknown field: its number, and the number, the bytes or the records that it holds.
pub fn records_of_fields_are_these()
    ensures field { (f : UnknownField) → record_of f ≡ (f.number, field_data_of f.payload) }
    ensures varint { (v : ℕ) → field_data_of (payload.Varint v) ≡ field_data.varint v }
    ensures fixed32 { (v : ℕ) → field_data_of (payload.Fixed32 v) ≡ field_data.fixed32 v }
    ensures fixed64 { (v : ℕ) → field_data_of (payload.Fixed64 v) ≡ field_data.fixed64 v }
    ensures bytes { (b : Vec ℕ Global) → field_data_of (payload.LengthDelimited b) ≡ field_data.bytes b.items }
    ensures group { (fs : Held) → field_data_of (payload.Group fs) ≡ field_data.group (records_of fs.records) }
    ensures held { (a : Inside) → (held a).records ≡ records_in a.fields.items }
    ensures spare { (a : Inside) → (held a).spare ≡ vec_capacity a.fields - vec_len a.fields }
    ensures no_records { records_of [] ≡ field_data.no_records }
    ensures more_records { (r : ℕ × FieldData) (rs : List (ℕ × FieldData)) → records_of (r ∷ rs) ≡ field_data.one r.0 r.1 (records_of rs) }
    ensures no_fields { records_in [] ≡ [] }
    ensures more_fields { (f : UnknownField) (fs : List UnknownField) → records_in (f ∷ fs) ≡ record_of f ∷ records_in fs }
    ensures varint_found { (d : FieldData) (v : ℕ) → (varint_in d ≡ Some v) ↔ (d ≡ field_data.varint v) }
    ensures fixed32_found { (d : FieldData) (v : ℕ) → (fixed32_in d ≡ Some v) ↔ (d ≡ field_data.fixed32 v) }
    ensures fixed64_found { (d : FieldData) (v : ℕ) → (fixed64_in d ≡ Some v) ↔ (d ≡ field_data.fixed64 v) }
{}

/// A test of unknown fields is called at a record where it is called at a field of that record. It answers by records alone, as
/// p does, where each of its answers is that of p at the field's record, and a call leaves it as it was.
pub fn tests_of_records_are_these<F: FnMut(&UnknownField) -> bool>()
    ensures called { (f g : F) (r : ℕ × FieldData) (b : Bool) → CalledAtRecord (CalledAt F.FnMut) f r b g
        ↔ ((x : UnknownField) × (record_of x ≡ r) × CalledAt F.FnMut f x b g) }
    ensures answers { (f : F) (p : ℕ × FieldData → Bool) → AnswersRecords (CalledAt F.FnMut) f p
        ↔ ((x : UnknownField) (b : Bool) (g : F) → CalledAt F.FnMut f x b g → (b ≡ p (record_of x)) × (g ≡ f)) }
{}

/// Data for whose copy no memory is wanted: a number, no bytes, and a group of no records.
pub fn data_without_memory_are_these()
    ensures varint { (v : ℕ) → IsNumeric (field_data.varint v) }
    ensures fixed32 { (v : ℕ) → IsNumeric (field_data.fixed32 v) }
    ensures fixed64 { (v : ℕ) → IsNumeric (field_data.fixed64 v) }
    ensures bytes { (b : List ℕ) → (IsNumeric (field_data.bytes b) → ⊥) × (IsEmpty (field_data.bytes b) ↔ (b ≡ [])) }
    ensures group { (rs : Records) → (IsNumeric (field_data.group rs) → ⊥) × (IsEmpty (field_data.group rs) ↔ (rs ≡ field_data.no_records)) }
{}

/// What is printed of each error: its name, and what it holds in decimal, wire types as their numbers.
pub fn texts_of_errors_are_these()
    ensures unexpected_eof { decode_error_text decoding.UnexpectedEof ≡ codes "UnexpectedEof" }
    ensures varint_too_long { decode_error_text decoding.VarintTooLong ≡ codes "VarintTooLong" }
    ensures invalid_field_number { decode_error_text decoding.InvalidFieldNumber ≡ codes "InvalidFieldNumber" }
    ensures invalid_wire_type { (n : ℕ) → decode_error_text (decoding.InvalidWireType n) ≡ codes "InvalidWireType " ++ decimal n }
    ensures wire_type_mismatch { (n : ℕ) (e a : WireType) → decode_error_text (decoding.WireTypeMismatch n e a)
        ≡ codes "WireTypeMismatch " ++ decimal n ++ codes " " ++ decimal (wire_number e) ++ codes " "
        ++ decimal (wire_number a) }
    ensures invalid_utf8 { decode_error_text decoding.InvalidUtf8 ≡ codes "InvalidUtf8" }
    ensures message_too_large { decode_error_text decoding.MessageTooLarge ≡ codes "MessageTooLarge" }
    ensures recursion_limit { decode_error_text decoding.RecursionLimitExceeded ≡ codes "RecursionLimitExceeded" }
    ensures unknown_field_limit { decode_error_text decoding.UnknownFieldLimitExceeded ≡ codes "UnknownFieldLimitExceeded" }
    ensures element_memory_limit { decode_error_text decoding.ElementMemoryLimitExceeded
        ≡ codes "ElementMemoryLimitExceeded" }
    ensures invalid_end_group { (n : ℕ) → decode_error_text (decoding.InvalidEndGroup n) ≡ codes "InvalidEndGroup " ++ decimal n }
    ensures missing_type_id { decode_error_text (decoding.InvalidMessageSet item.MissingTypeId)
        ≡ codes "InvalidMessageSet missing type_id" }
    ensures type_id_out_of_range { decode_error_text (decoding.InvalidMessageSet item.TypeIdOutOfRange)
        ≡ codes "InvalidMessageSet type_id out of range" }
    ensures unexpected_field { (n : ℕ) → decode_error_text (decoding.UnexpectedField n) ≡ codes "UnexpectedField " ++ decimal n }
    ensures out_of_memory { decode_error_text decoding.OutOfMemory ≡ codes "OutOfMemory" }
    ensures encoding_too_large { encode_error_text encoding.MessageTooLarge ≡ codes "MessageTooLarge" }
    ensures group_refused { (e : DecodeError) → encode_error_text (encoding.GroupRefused e)
        ≡ codes "GroupRefused " ++ decode_error_text e }
    ensures encoding_out_of_memory { encode_error_text encoding.OutOfMemory ≡ codes "OutOfMemory" }
    ensures no_type_id { message_set_fault_text item.MissingTypeId ≡ codes "missing type_id" }
    ensures no_such_type_id { message_set_fault_text item.TypeIdOutOfRange ≡ codes "type_id out of range" }
{}

/// How many records there are, those in groups counted too, and how deep groups nest.
pub fn records_are_counted()
    ensures none { field_count field_data.no_records ≡ 0 }
    ensures more { (n : ℕ) (x : FieldData) (rs : Records) → field_count (field_data.one n x rs) ≡ 1 + fields_inside x + field_count rs }
    ensures varint { (v : ℕ) → (fields_inside (field_data.varint v) ≡ 0) × (field_data_height (field_data.varint v) ≡ 0) }
    ensures fixed32 { (v : ℕ) → (fields_inside (field_data.fixed32 v) ≡ 0) × (field_data_height (field_data.fixed32 v) ≡ 0) }
    ensures fixed64 { (v : ℕ) → (fields_inside (field_data.fixed64 v) ≡ 0) × (field_data_height (field_data.fixed64 v) ≡ 0) }
    ensures bytes { (b : List ℕ) → (fields_inside (field_data.bytes b) ≡ 0) × (field_data_height (field_data.bytes b) ≡ 0) }
    ensures group { (rs : Records) → fields_inside (field_data.group rs) ≡ field_count rs }
    ensures group_height { (rs : Records) → field_data_height (field_data.group rs) ≡ suc (records_height rs) }
    ensures no_heights { records_height field_data.no_records ≡ 0 }
    ensures heights { (n : ℕ) (x : FieldData) (rs : Records) → records_height (field_data.one n x rs)
        ≡ max (field_data_height x) (records_height rs) }
    ensures no_height { height [] ≡ 0 }
    ensures height { (r : ℕ × FieldData) (rs : List (ℕ × FieldData)) → height (r ∷ rs) ≡ max (field_data_height r.1) (height rs) }
{}

/// The encoding of records: for each its tag and what follows it, one after the other. After a group's tag come its records
/// and the end tag. Source: the protobuf encoding guide, "Message Structure" and "Groups".
pub fn encodings_of_records_are_these<V>()
    ensures none { records_encoding [] ≡ [] }
    ensures more { (r : ℕ × FieldData) (rs : List (ℕ × FieldData)) → records_encoding (r ∷ rs)
        ≡ tagged_encoding r.0 r.1 ++ records_encoding rs }
    ensures one { (n : ℕ) (x : FieldData) → tagged_encoding n x ≡ tag_encoding n (wire_of x) ++ payload_encoding n x }
    ensures varint { (n v : ℕ) → payload_encoding n (field_data.varint v) ≡ varint_encoding v }
    ensures fixed32 { (n v : ℕ) → payload_encoding n (field_data.fixed32 v) ≡ to_le_bytes w32 v }
    ensures fixed64 { (n v : ℕ) → payload_encoding n (field_data.fixed64 v) ≡ to_le_bytes w64 v }
    ensures bytes { (n : ℕ) (b : List ℕ) → payload_encoding n (field_data.bytes b) ≡ varint_encoding (length b) ++ b }
    ensures group { (n : ℕ) (rs : List (ℕ × FieldData)) → payload_encoding n (field_data.group (records_of rs))
        ≡ records_encoding rs ++ tag_encoding n wire.EndGroup }
    ensures no_values { (of : V → List ℕ) → encodings of [] ≡ [] }
    ensures values { (of : V → List ℕ) (v : V) (vs : List V) → encodings of (v ∷ vs) ≡ of v ++ encodings of vs }
{}

/// Data that are in range: a varint and eight bytes below 2^64, four bytes below 2^32, and in a group all of its records'.
pub fn ranges_of_data_are_these()
    ensures none { InRange field_data.no_records }
    ensures varint { (n v : ℕ) (rs : Records) → InRange (field_data.one n (field_data.varint v) rs) ↔ ((v < 2 ^ 64) × InRange rs) }
    ensures fixed32 { (n v : ℕ) (rs : Records) → InRange (field_data.one n (field_data.fixed32 v) rs) ↔ ((v < 2 ^ 32) × InRange rs) }
    ensures fixed64 { (n v : ℕ) (rs : Records) → InRange (field_data.one n (field_data.fixed64 v) rs) ↔ ((v < 2 ^ 64) × InRange rs) }
    ensures bytes { (n : ℕ) (b : List ℕ) (rs : Records) → InRange (field_data.one n (field_data.bytes b) rs) ↔ InRange rs }
    ensures group { (n : ℕ) (qs rs : Records) → InRange (field_data.one n (field_data.group qs) rs) ↔ (InRange qs × InRange rs) }
{}

/// Records that fit: no length of bytes in them is 2^64 or more, in a group neither.
pub fn records_that_fit_are_these()
    ensures none { Fits field_data.no_records }
    ensures varint { (n v : ℕ) (rs : Records) → Fits (field_data.one n (field_data.varint v) rs) ↔ Fits rs }
    ensures fixed32 { (n v : ℕ) (rs : Records) → Fits (field_data.one n (field_data.fixed32 v) rs) ↔ Fits rs }
    ensures fixed64 { (n v : ℕ) (rs : Records) → Fits (field_data.one n (field_data.fixed64 v) rs) ↔ Fits rs }
    ensures bytes { (n : ℕ) (b : List ℕ) (rs : Records) → Fits (field_data.one n (field_data.bytes b) rs)
        ↔ ((length b < 2 ^ 64) × Fits rs) }
    ensures group { (n : ℕ) (qs rs : Records) → Fits (field_data.one n (field_data.group qs) rs) ↔ (Fits qs × Fits rs) }
{}

/// Valid records: each has a number that a field may have, in a group too, and data in range.
pub fn valid_records_are_these()
    ensures none { AreValid field_data.no_records }
    ensures varint { (n v : ℕ) (rs : Records) → AreValid (field_data.one n (field_data.varint v) rs)
        ↔ (IsNumber n × (v < 2 ^ 64) × AreValid rs) }
    ensures fixed32 { (n v : ℕ) (rs : Records) → AreValid (field_data.one n (field_data.fixed32 v) rs)
        ↔ (IsNumber n × (v < 2 ^ 32) × AreValid rs) }
    ensures fixed64 { (n v : ℕ) (rs : Records) → AreValid (field_data.one n (field_data.fixed64 v) rs)
        ↔ (IsNumber n × (v < 2 ^ 64) × AreValid rs) }
    ensures bytes { (n : ℕ) (b : List ℕ) (rs : Records) → AreValid (field_data.one n (field_data.bytes b) rs)
        ↔ (IsNumber n × AreValid rs) }
    ensures group { (n : ℕ) (qs rs : Records) → AreValid (field_data.one n (field_data.group qs) rs)
        ↔ (IsNumber n × AreValid qs × AreValid rs) }
{}
