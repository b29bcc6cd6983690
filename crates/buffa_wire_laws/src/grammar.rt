//! What the words of the grammar mean, in the encoding guide's words: bytes, lists, lengths, sums and ranges. Each law is a
//! function with nothing to do, whose contract is the law.

ghost use Rattle.std.specs.Prelude.{◌≡◌, ◌≢◌, ◌<◌, ◌≤◌, ◌⊎◌, ◌^◌, ◌+◌, ◌*◌, ◌%◌, ◌↔◌, ℕ, suc, List, [], ◌∷◌, ◌++◌};
ghost use Rattle.std.specs.Prelude.{length};
ghost use Rattle.std.specs.Int.{from_le_bytes, w32, w64};
ghost use Rattle.buffa_bytes.specs.declared.error.DecodeError.{DecodeError};
ghost use Rattle.buffa_bytes.specs.declared.error.DecodeError.TheVariants.{InvalidEndGroup, InvalidFieldNumber, InvalidWireType};
ghost use Rattle.buffa_bytes.specs.declared.error.DecodeError.TheVariants.{RecursionLimitExceeded, UnexpectedEof};
ghost use Rattle.buffa_bytes.specs.declared.error.DecodeError.TheVariants.{VarintTooLong};
ghost use Rattle.buffa_bytes.specs.declared.wire_type.WireType.{WireType};
ghost use Rattle.buffa_bytes.specs.declared.wire_type.WireType.TheVariants as wire;
ghost use Rattle.buffa_bytes.specs.Varint.{Continue, IsByte, IsVarint, TakesVarint, VarintFault, base128};
ghost use Rattle.buffa_bytes.specs.PayloadValue.{PayloadValue, PayloadValueFault, HasPayloadValue, TakesPayloadValue, bytes, number};
ghost use Rattle.buffa_bytes.specs.Field.{BadTag, Field, IsTag, LengthFault, Payload, PayloadFault};
ghost use Rattle.buffa_bytes.specs.Field.{SomeField, TagFault, TakesBytes, TakesDelimited, TakesPayload, TakesTag};
ghost use Rattle.buffa_bytes.specs.Join.{Join};
ghost use Rattle.buffa_wire.specs.Parse.{IsPayload, Parse, TakesField};
ghost use Rattle.buffa_wire.specs.Parse.{TakesRecords, field_count, fields_inside};
ghost use Rattle.buffa_wire.specs.Encoding.{wire_of};
ghost use Rattle.buffa_wire.specs.Records as field_data;
ghost use Rattle.buffa_wire.specs.Records.{FieldData, Records};

/// A varint is at most ten bytes: each but the last is 128 or more, and the last is below 128. Its value is below 2^64, and
/// the sum of the low seven bits of each byte, the lowest first. Source: the protobuf encoding guide, "Base 128 Varints".
pub fn varints_are_these()
    ensures spelled { (bs : List ℕ) (n : ℕ) → IsVarint bs n ↔ ((front : List ℕ) × (last : ℕ) × (bs ≡ front ++ last ∷ [])
        × Continue front × (last < 128) × (length front < 10) × (n ≡ base128 bs) × (n < 2 ^ 64)) }
    ensures none_continue { Continue [] }
    ensures continued { (b : ℕ) (bs : List ℕ) → Continue (b ∷ bs) ↔ ((128 ≤ b) × Continue bs) }
    ensures no_sum { base128 [] ≡ 0 }
    ensures sum { (b : ℕ) (bs : List ℕ) → base128 (b ∷ bs) ≡ b % 128 + 128 * base128 bs }
    ensures byte { (b : ℕ) → IsByte b ↔ (b < 256) }
    ensures taken { (old new : List ℕ) (n : ℕ) → TakesVarint old n new
        ↔ ((bs : List ℕ) × IsVarint bs n × (old ≡ bs ++ new)) }
{}

/// No varint begins bytes that end before one does, or whose tenth byte is 2 or more.
pub fn faults_of_varints_are_these()
    ensures cut { (bs : List ℕ) → VarintFault bs UnexpectedEof ↔ (Continue bs × (length bs < 10)) }
    ensures long { (bs : List ℕ) → VarintFault bs VarintTooLong ↔ ((front : List ℕ) × (b : ℕ) × (rest : List ℕ)
        × Continue front × (length front ≡ 9) × (2 ≤ b) × (bs ≡ front ++ b ∷ rest)) }
    ensures no_other { (bs : List ℕ) (e : DecodeError) → VarintFault bs e → (e ≡ UnexpectedEof) ⊎ (e ≡ VarintTooLong) }
{}

/// A tag is a varint, of eight times the field's number and the number of the wire type. A field's number is 1 to 2^29 - 1.
/// Source: the protobuf encoding guide, "Message Structure".
pub fn tags_are_these()
    ensures varint { (t : List ℕ) (f : ℕ) → IsTag t f wire.Varint ↔ ((0 < f) × (f < 2 ^ 29) × IsVarint t (8 * f)) }
    ensures fixed64 { (t : List ℕ) (f : ℕ) → IsTag t f wire.Fixed64 ↔ ((0 < f) × (f < 2 ^ 29) × IsVarint t (8 * f + 1)) }
    ensures delimited { (t : List ℕ) (f : ℕ) → IsTag t f wire.LengthDelimited
        ↔ ((0 < f) × (f < 2 ^ 29) × IsVarint t (8 * f + 2)) }
    ensures start { (t : List ℕ) (f : ℕ) → IsTag t f wire.StartGroup ↔ ((0 < f) × (f < 2 ^ 29) × IsVarint t (8 * f + 3)) }
    ensures end { (t : List ℕ) (f : ℕ) → IsTag t f wire.EndGroup ↔ ((0 < f) × (f < 2 ^ 29) × IsVarint t (8 * f + 4)) }
    ensures fixed32 { (t : List ℕ) (f : ℕ) → IsTag t f wire.Fixed32 ↔ ((0 < f) × (f < 2 ^ 29) × IsVarint t (8 * f + 5)) }
    ensures taken { (old new : List ℕ) (f : ℕ) (w : WireType) → TakesTag old f w new
        ↔ ((t : List ℕ) × IsTag t f w × (old ≡ t ++ new)) }
{}

/// No tag begins bytes that no varint begins, or one of a number that a tag can't have.
pub fn faults_of_tags_are_these()
    ensures faults { (bs : List ℕ) (e : DecodeError) → TagFault bs e
        ↔ (VarintFault bs e ⊎ ((n : ℕ) × (rest : List ℕ) × TakesVarint bs n rest × BadTag n e)) }
    ensures number { (n : ℕ) → BadTag n InvalidFieldNumber ↔ ((2 ^ 32 ≤ n) ⊎ (n < 8)) }
    ensures wire_type { (n w : ℕ) → BadTag n (InvalidWireType w)
        ↔ ((8 ≤ n) × (n < 2 ^ 32) × (w ≡ n % 8) × ((w ≡ 6) ⊎ (w ≡ 7))) }
    ensures no_other { (n : ℕ) (e : DecodeError) → BadTag n e → (e ≡ InvalidFieldNumber)
        ⊎ ((w : ℕ) × (e ≡ InvalidWireType w)) }
{}

/// What follows a tag: a varint; eight or four bytes; a length and so many bytes; nothing, at an end tag. A group's start is
/// followed by fields, one after the other, and an end tag of its number, where a level is left.
#[tactic(auto, unfolding(buffa_bytes::specs::Field::Group))]
pub fn payloads_are_these()
    ensures varint { (d f : ℕ) (p : List ℕ) → Payload d f wire.Varint p ↔ ((n : ℕ) × IsVarint p n) }
    ensures fixed64 { (d f : ℕ) (p : List ℕ) → Payload d f wire.Fixed64 p ↔ (length p ≡ 8) }
    ensures delimited { (d f : ℕ) (p : List ℕ) → Payload d f wire.LengthDelimited p
        ↔ ((t : List ℕ) × (body : List ℕ) × IsVarint t (length body) × (p ≡ t ++ body)) }
    ensures too_deep { (f : ℕ) (p : List ℕ) → Payload 0 f wire.StartGroup p → ⊥ }
    ensures group { (d f : ℕ) (p : List ℕ) → Payload (suc d) f wire.StartGroup p
        ↔ ((body : List ℕ) × (t : List ℕ) × Join (SomeField d) body × IsTag t f wire.EndGroup × (p ≡ body ++ t)) }
    ensures end { (d f : ℕ) (p : List ℕ) → Payload d f wire.EndGroup p → ⊥ }
    ensures fixed32 { (d f : ℕ) (p : List ℕ) → Payload d f wire.Fixed32 p ↔ (length p ≡ 4) }
{}

/// A field is a tag and a payload of its wire type.
pub fn fields_are_these()
    ensures field { (d f : ℕ) (w : WireType) (b : List ℕ) → Field d f w b
        ↔ ((t : List ℕ) × (p : List ℕ) × IsTag t f w × Payload d f w p × (b ≡ t ++ p)) }
    ensures some { (d : ℕ) (b : List ℕ) → SomeField d b ↔ ((f : ℕ) × (w : WireType) × Field d f w b) }
    ensures none_joined { (d : ℕ) → Join (SomeField d) [] }
    ensures one_joined { (d : ℕ) (b rest : List ℕ) → SomeField d b → Join (SomeField d) rest → Join (SomeField d) (b ++ rest) }
    ensures joined { (d : ℕ) (bs : List ℕ) → Join (SomeField d) bs → (bs ≡ [])
        ⊎ ((b : List ℕ) × (rest : List ℕ) × SomeField d b × Join (SomeField d) rest × (bs ≡ b ++ rest)) }
    ensures payload { (d f : ℕ) (w : WireType) (old new : List ℕ) → TakesPayload d f w old new
        ↔ ((p : List ℕ) × Payload d f w p × (old ≡ p ++ new)) }
    ensures delimited { (old p new : List ℕ) → TakesDelimited old p new
        ↔ ((t : List ℕ) × IsVarint t (length p) × (old ≡ t ++ (p ++ new))) }
    ensures some_bytes { (n : ℕ) (old new : List ℕ) → TakesBytes n old new
        ↔ ((p : List ℕ) × (length p ≡ n) × (old ≡ p ++ new)) }
{}

/// No payload begins bytes that end before one does, or no varint or length that are well formed begins. An end tag has none.
/// A group is too deep where no level is left; else its fields are well formed up to one that isn't, to an end tag of another
/// number, or to the end of the bytes.
#[tactic(auto, unfolding(buffa_bytes::specs::Field::GroupFault))]
pub fn faults_of_payloads_are_these()
    ensures varint { (d f : ℕ) (bs : List ℕ) (e : DecodeError) → PayloadFault d f wire.Varint bs e ↔ VarintFault bs e }
    ensures fixed64 { (d f : ℕ) (bs : List ℕ) (e : DecodeError) → PayloadFault d f wire.Fixed64 bs e
        ↔ ((length bs < 8) × (e ≡ UnexpectedEof)) }
    ensures delimited { (d f : ℕ) (bs : List ℕ) (e : DecodeError) → PayloadFault d f wire.LengthDelimited bs e
        ↔ (VarintFault bs e ⊎ ((n : ℕ) × (rest : List ℕ) × TakesVarint bs n rest × (length rest < n) × (e ≡ UnexpectedEof))) }
    ensures too_deep { (f : ℕ) (bs : List ℕ) (e : DecodeError) → PayloadFault 0 f wire.StartGroup bs e
        ↔ (e ≡ RecursionLimitExceeded) }
    ensures group { (d f : ℕ) (bs : List ℕ) (e : DecodeError) → PayloadFault (suc d) f wire.StartGroup bs e
        ↔ ((body : List ℕ) × (rest : List ℕ) × Join (SomeField d) body × (bs ≡ body ++ rest)
        × (TagFault rest e
        ⊎ (((g : ℕ) × (more : List ℕ) × TakesTag rest g wire.EndGroup more × (g ≢ f) × (e ≡ InvalidEndGroup g))
        ⊎ ((g : ℕ) × (w : WireType) × (more : List ℕ) × TakesTag rest g w more × (w ≢ wire.EndGroup)
        × PayloadFault d g w more e)))) }
    ensures end { (d f : ℕ) (bs : List ℕ) (e : DecodeError) → PayloadFault d f wire.EndGroup bs e ↔ (e ≡ InvalidEndGroup f) }
    ensures fixed32 { (d f : ℕ) (bs : List ℕ) (e : DecodeError) → PayloadFault d f wire.Fixed32 bs e
        ↔ ((length bs < 4) × (e ≡ UnexpectedEof)) }
    ensures length { (bs : List ℕ) (e : DecodeError) → LengthFault bs e
        ↔ (VarintFault bs e ⊎ ((n : ℕ) × (rest : List ℕ) × TakesVarint bs n rest × (length rest < n) × (e ≡ UnexpectedEof))) }
{}

/// What a payload holds: a varint its value; four or eight bytes the number that they spell, the lowest byte first; a length
/// and so many bytes these bytes. Nothing else has contents.
pub fn payload_values_are_these()
    ensures varint { (p : List ℕ) (n : ℕ) → HasPayloadValue wire.Varint p (number n) ↔ IsVarint p n }
    ensures fixed64 { (p : List ℕ) (n : ℕ) → HasPayloadValue wire.Fixed64 p (number n)
        ↔ ((length p ≡ 8) × (n ≡ from_le_bytes w64 p)) }
    ensures delimited { (p b : List ℕ) → HasPayloadValue wire.LengthDelimited p (bytes b)
        ↔ ((t : List ℕ) × IsVarint t (length b) × (p ≡ t ++ b)) }
    ensures fixed32 { (p : List ℕ) (n : ℕ) → HasPayloadValue wire.Fixed32 p (number n)
        ↔ ((length p ≡ 4) × (n ≡ from_le_bytes w32 p)) }
    ensures numbers { (w : WireType) (p : List ℕ) (n : ℕ) → HasPayloadValue w p (number n) → (w ≡ wire.Varint)
        ⊎ ((w ≡ wire.Fixed64) ⊎ (w ≡ wire.Fixed32)) }
    ensures no_numbers { (w : WireType) (p b : List ℕ) → HasPayloadValue w p (bytes b) → w ≡ wire.LengthDelimited }
    ensures taken { (w : WireType) (old new : List ℕ) (c : PayloadValue) → TakesPayloadValue w old c new
        ↔ ((p : List ℕ) × HasPayloadValue w p c × (old ≡ p ++ new)) }
{}

/// Why nothing that a payload could hold begins bytes: the fault of the payload; a group's start and end have no contents.
pub fn faults_of_payload_values_are_these()
    ensures varint { (bs : List ℕ) (e : DecodeError) → PayloadValueFault wire.Varint bs e ↔ VarintFault bs e }
    ensures fixed64 { (bs : List ℕ) (e : DecodeError) → PayloadValueFault wire.Fixed64 bs e
        ↔ ((length bs < 8) × (e ≡ UnexpectedEof)) }
    ensures delimited { (bs : List ℕ) (e : DecodeError) → PayloadValueFault wire.LengthDelimited bs e
        ↔ (VarintFault bs e ⊎ ((n : ℕ) × (rest : List ℕ) × TakesVarint bs n rest × (length rest < n) × (e ≡ UnexpectedEof))) }
    ensures start { (bs : List ℕ) (e : DecodeError) → PayloadValueFault wire.StartGroup bs e ↔ (e ≡ InvalidWireType 3) }
    ensures end { (bs : List ℕ) (e : DecodeError) → PayloadValueFault wire.EndGroup bs e ↔ (e ≡ InvalidWireType 4) }
    ensures fixed32 { (bs : List ℕ) (e : DecodeError) → PayloadValueFault wire.Fixed32 bs e
        ↔ ((length bs < 4) × (e ≡ UnexpectedEof)) }
{}

/// The payload of a record in a field of number n, where groups nest at most d deep, and the wire type in the field's tag.
/// A group has its records' fields, one level less deep, and an end tag of number n. Source: the protobuf encoding guide,
/// "Message Structure" and "Groups".
pub fn payloads_of_records_are_these()
    ensures varint { (d n v : ℕ) (p : List ℕ) → IsPayload d n (field_data.varint v) p ↔ IsVarint p v }
    ensures fixed32 { (d n v : ℕ) (p : List ℕ) → IsPayload d n (field_data.fixed32 v) p
        ↔ ((length p ≡ 4) × (v ≡ from_le_bytes w32 p)) }
    ensures fixed64 { (d n v : ℕ) (p : List ℕ) → IsPayload d n (field_data.fixed64 v) p
        ↔ ((length p ≡ 8) × (v ≡ from_le_bytes w64 p)) }
    ensures bytes { (d n : ℕ) (v p : List ℕ) → IsPayload d n (field_data.bytes v) p
        ↔ ((t : List ℕ) × IsVarint t (length v) × (p ≡ t ++ v)) }
    ensures too_deep { (n : ℕ) (rs : Records) (p : List ℕ) → IsPayload 0 n (field_data.group rs) p → ⊥ }
    ensures group { (d n : ℕ) (rs : Records) (p : List ℕ) → IsPayload (suc d) n (field_data.group rs) p
        ↔ ((b : List ℕ) × (t : List ℕ) × Parse d b rs × IsTag t n wire.EndGroup × (p ≡ b ++ t)) }
    ensures varint_wire { (v : ℕ) → wire_of (field_data.varint v) ≡ wire.Varint }
    ensures fixed32_wire { (v : ℕ) → wire_of (field_data.fixed32 v) ≡ wire.Fixed32 }
    ensures fixed64_wire { (v : ℕ) → wire_of (field_data.fixed64 v) ≡ wire.Fixed64 }
    ensures bytes_wire { (v : List ℕ) → wire_of (field_data.bytes v) ≡ wire.LengthDelimited }
    ensures group_wire { (rs : Records) → wire_of (field_data.group rs) ≡ wire.StartGroup }
{}

/// Bytes are the fields of records: none of no records; else a tag of the first one's number and wire type, its payload, and
/// the fields of the others.
pub fn fields_of_records_are_these()
    ensures none { (d : ℕ) (bs : List ℕ) → Parse d bs field_data.no_records ↔ (bs ≡ []) }
    ensures more { (d n : ℕ) (x : FieldData) (rs : Records) (bs : List ℕ) → Parse d bs (field_data.one n x rs)
        ↔ ((f : List ℕ) × (rest : List ℕ) × ((t : List ℕ) × (p : List ℕ) × IsTag t n (wire_of x) × IsPayload d n x p
        × (f ≡ t ++ p)) × Parse d rest rs × (bs ≡ f ++ rest)) }
    ensures one_taken { (d s n : ℕ) (w : WireType) (old new : List ℕ) (x : FieldData) (left : ℕ) → TakesField d s n w old x left new
        ↔ ((p : List ℕ) × IsPayload d n x p × (wire_of x ≡ w) × (1 + fields_inside x + left ≡ s) × (old ≡ p ++ new)) }
    ensures taken { (d s : ℕ) (old new : List ℕ) (rs : Records) (left : ℕ) → TakesRecords d s old rs left new
        ↔ ((b : List ℕ) × Parse d b rs × (field_count rs + left ≡ s) × (old ≡ b ++ new)) }
{}
