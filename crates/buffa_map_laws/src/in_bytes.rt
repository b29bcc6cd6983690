//! What codecs, entries, runs and encodings are in the words of the encoding guide: varints, tags, lengths and bytes.

ghost use Rattle.std.specs.Prelude.{◌≡◌, ◌↔◌, ◌++◌, ◌^◌, ◌<◌, FitsSigned, List, ℕ, ℤ, is_some, length, false, map, true, Ok, Err};
ghost use Rattle.std.specs.Int.{w32};
ghost use Rattle.std.specs.Str.{is_utf8};
ghost use Rattle.buffa_bytes.specs.PayloadValue.PayloadValue.{bytes, number};
ghost use Rattle.buffa_bytes.specs.declared.error.DecodeError.TheVariants.{InvalidUtf8};
ghost use Rattle.buffa_bytes.specs.Delimited.{bytes_as, string_as};
ghost use Rattle.buffa_bytes.specs.Readings.{delimited_at};
ghost use Rattle.buffa_bytes.specs.Varint.{varint_encoding};
ghost use Rattle.buffa_bytes.specs.declared.wire_type.WireType.TheVariants as wire;
ghost use Rattle.buffa_bytes.specs.Scalars.{bool_encoding, fixed32_encoding, fixed64_encoding, int64_encoding, sfixed32_encoding};
ghost use Rattle.buffa_bytes.specs.Scalars.{sfixed64_encoding, sint32_encoding, sint64_encoding, uint32_encoding, uint64_encoding};
ghost use Rattle.buffa_bytes.specs.Scalars.{bool_at, fixed32_at, fixed64_at, int64_at, sfixed32_at, sfixed64_at, sint32_at};
ghost use Rattle.buffa_bytes.specs.Scalars.{sint64_at, uint32_at, uint64_at};
ghost use Rattle.buffa_bytes.specs.Values.{int32_at, int32_encoding, int32_of, string_at};
ghost use Rattle.buffa_map_laws.specs.CodecWords.{WritesAs, AtBytes, Never, NothingIsFree, IsReadAs, MessagesAreReadAs, always, any_number, declared_number};
ghost use Rattle.buffa_map.specs.EntryReading.{blanks};
ghost use Rattle.buffa_map_laws.specs.EntryWords.{EntriesAreFields, EntriesCharge, PairsAreLists, RulesAreTheGuides};
ghost use Rattle.buffa_map.specs.Pairs.{means};
ghost use Rattle.buffa_map_laws.specs.FieldWords.{EnumsAreNumbers, FieldsAreRecords, MessageFieldsAreRecords, RewritesAreFields};

use buffa_map::map_codec::{
    Bool, BytesBuf, BytesVec, ClosedEnum, Double, Fixed32, Fixed64, Float, Int32, Int64, MapCodec,
    MapStorage, MapValueDecode, Msg, OpenEnum, ProtoBytesMap, ProtoStringMap, Sfixed32, Sfixed64,
    Sint32, Sint64, Str, Uint32, Uint64,
};
use buffa_wire::{Enumeration, Message, MessageSpec, ProtoBytes, ProtoString};

/// How scalars are read: as the wire's reading of that name. They take no memory.
pub fn scalars_are_read_so()
    ensures int32 { IsReadAs ⟦<Int32 as MapValueDecode>⟧.reading (always int32_at) Never }
    ensures int64 { IsReadAs ⟦<Int64 as MapValueDecode>⟧.reading (always int64_at) Never }
    ensures uint32 { IsReadAs ⟦<Uint32 as MapValueDecode>⟧.reading (always uint32_at) Never }
    ensures uint64 { IsReadAs ⟦<Uint64 as MapValueDecode>⟧.reading (always uint64_at) Never }
    ensures sint32 { IsReadAs ⟦<Sint32 as MapValueDecode>⟧.reading (always sint32_at) Never }
    ensures sint64 { IsReadAs ⟦<Sint64 as MapValueDecode>⟧.reading (always sint64_at) Never }
    ensures bool { IsReadAs ⟦<Bool as MapValueDecode>⟧.reading (always bool_at) Never }
    ensures fixed32 { IsReadAs ⟦<Fixed32 as MapValueDecode>⟧.reading (always fixed32_at) Never }
    ensures fixed64 { IsReadAs ⟦<Fixed64 as MapValueDecode>⟧.reading (always fixed64_at) Never }
    ensures sfixed32 { IsReadAs ⟦<Sfixed32 as MapValueDecode>⟧.reading (always sfixed32_at) Never }
    ensures sfixed64 { IsReadAs ⟦<Sfixed64 as MapValueDecode>⟧.reading (always sfixed64_at) Never }
    ensures float { IsReadAs ⟦<Float as MapValueDecode>⟧.reading (always fixed32_at) Never }
    ensures double { IsReadAs ⟦<Double as MapValueDecode>⟧.reading (always fixed64_at) Never }
{}

/// How strings and bytes are read: as a length and so many bytes, which are UTF-8 in a string. Memory may run out only
/// where these bytes are there, and there are some.
pub fn strings_and_bytes_are_read_so<T: ProtoString, P: ProtoBytes>()
    ensures string { IsReadAs ⟦<Str as MapValueDecode>⟧.reading (always string_at) AtBytes }
    ensures bytes { IsReadAs ⟦<BytesVec as MapValueDecode>⟧.reading (always delimited_at) AtBytes }
    ensures shared { IsReadAs ⟦<BytesBuf as MapValueDecode>⟧.reading (always delimited_at) AtBytes }
    ensures own_string { IsReadAs ⟦<ProtoStringMap<T> as MapValueDecode>⟧.reading (always (string_as T.of_text)) AtBytes }
    ensures own_bytes { IsReadAs ⟦<ProtoBytesMap<P> as MapValueDecode>⟧.reading (always (bytes_as P.of_bytes)) AtBytes }
    ensures empty_string { NothingIsFree ⟦<ProtoStringMap<T> as MapValueDecode>⟧.reading }
    ensures empty_bytes { NothingIsFree ⟦<ProtoBytesMap<P> as MapValueDecode>⟧.reading }
    ensures empty_shared { NothingIsFree ⟦<BytesBuf as MapValueDecode>⟧.reading }
{}

/// How enums are read: as an int32. A closed enum's value stays as it was where the number isn't declared, and the payload
/// isn't a declared one. An open enum's value is the number, whatever it is.
pub fn enums_are_read_so<E: Enumeration>()
    ensures closed { IsReadAs ⟦<ClosedEnum<E> as MapValueDecode>⟧.reading (declared_number E.of_number) Never }
    ensures open { IsReadAs ⟦<OpenEnum<E> as MapValueDecode>⟧.reading (always (any_number E.of_number)) Never }
{}

/// How messages are read: as a length and so many bytes, merged one level deeper.
pub fn messages_are_read_so<M: Message>()
    ensures { MessagesAreReadAs ⟦<Msg<M> as MapValueDecode>⟧.reading M.merged M.cost }
{}

/// An entry is its fields, one behind the other: what each of them says, and how each may be wrong.
pub fn entries_are_their_fields<KC: MapValueDecode, VC: MapValueDecode>()
    ensures fields { EntriesAreFields KC.reading VC.reading }
    ensures needs { EntriesCharge KC.reading VC.reading }
{}

/// Entries are put, kept or dropped, each for its need, and runs are their entries, one behind the other.
pub fn runs_are_their_entries<KC: MapValueDecode, VC: MapValueDecode>()
    ensures { RulesAreTheGuides KC.reading VC.reading }
{}

/// The pairs of a map are a list, in which a new key comes last, and a key that is there keeps its place.
pub fn pairs_are_lists<C: MapStorage>()
    ensures lists { PairsAreLists C.Value.Meaning C.equal }
    ensures meaning { (l : List (C.Key × C.Value)) → means C.Key.meaning C.Value.meaning l
        ≡ map (λ p. (C.Key.meaning p.0, C.Value.meaning p.1)) l }
{}

/// How scalars are written: as the encoding of that name, with its wire type.
pub fn scalars_are_written_so()
    ensures int32 { WritesAs ⟦<Int32 as MapCodec>⟧.writing wire.Varint int32_encoding }
    ensures int64 { WritesAs ⟦<Int64 as MapCodec>⟧.writing wire.Varint int64_encoding }
    ensures uint32 { WritesAs ⟦<Uint32 as MapCodec>⟧.writing wire.Varint uint32_encoding }
    ensures uint64 { WritesAs ⟦<Uint64 as MapCodec>⟧.writing wire.Varint uint64_encoding }
    ensures sint32 { WritesAs ⟦<Sint32 as MapCodec>⟧.writing wire.Varint sint32_encoding }
    ensures sint64 { WritesAs ⟦<Sint64 as MapCodec>⟧.writing wire.Varint sint64_encoding }
    ensures bool { WritesAs ⟦<Bool as MapCodec>⟧.writing wire.Varint bool_encoding }
    ensures fixed32 { WritesAs ⟦<Fixed32 as MapCodec>⟧.writing wire.Fixed32 fixed32_encoding }
    ensures fixed64 { WritesAs ⟦<Fixed64 as MapCodec>⟧.writing wire.Fixed64 fixed64_encoding }
    ensures sfixed32 { WritesAs ⟦<Sfixed32 as MapCodec>⟧.writing wire.Fixed32 sfixed32_encoding }
    ensures sfixed64 { WritesAs ⟦<Sfixed64 as MapCodec>⟧.writing wire.Fixed64 sfixed64_encoding }
    ensures float { WritesAs ⟦<Float as MapCodec>⟧.writing wire.Fixed32 fixed32_encoding }
    ensures double { WritesAs ⟦<Double as MapCodec>⟧.writing wire.Fixed64 fixed64_encoding }
{}

/// How strings, bytes and enums are written: a length and the bytes, or an int32. And which values their types hold: fewer than
/// 2^64 bytes, of a string UTF-8; a declared number; and for an open enum any, which is read back if it is said to be declared where
/// it is.
pub fn other_values_are_written_so<E: Enumeration, T: ProtoString, P: ProtoBytes>()
    ensures string { WritesAs ⟦<ProtoStringMap<T> as MapCodec>⟧.writing wire.LengthDelimited
        (λ v. varint_encoding (length (T.text v)) ++ T.text v) }
    ensures bytes { WritesAs ⟦<ProtoBytesMap<P> as MapCodec>⟧.writing wire.LengthDelimited
        (λ v. varint_encoding (length (P.bytes v)) ++ P.bytes v) }
    ensures shared { WritesAs ⟦<BytesBuf as MapCodec>⟧.writing wire.LengthDelimited
        (λ b. varint_encoding (length b) ++ b) }
    ensures closed { WritesAs ⟦<ClosedEnum<E> as MapCodec>⟧.writing wire.Varint int32_encoding }
    ensures open { WritesAs ⟦<OpenEnum<E> as MapCodec>⟧.writing wire.Varint (λ v. int32_encoding v.1) }
    ensures string_fits { (v : _) → ⟦<ProtoStringMap<T> as MapCodec>⟧.fits v
        ↔ ((is_utf8 (T.text v) ≡ true) × (length (T.text v) < 2 ^ 64)) }
    ensures bytes_fits { (v : _) → ⟦<ProtoBytesMap<P> as MapCodec>⟧.fits v ↔ (length (P.bytes v) < 2 ^ 64) }
    ensures shared_fits { (b : List ℕ) → ⟦<BytesBuf as MapCodec>⟧.fits b ↔ (length b < 2 ^ 64) }
    ensures closed_fits { (n : ℤ) → ⟦<ClosedEnum<E> as MapCodec>⟧.fits n
        ↔ (FitsSigned w32 n × (is_some (E.of_number n) ≡ true)) }
    ensures open_fits { (v : _) → ⟦<OpenEnum<E> as MapCodec>⟧.fits v ↔ FitsSigned w32 v.1 }
    ensures open_normal { (v : _) → ⟦<OpenEnum<E> as MapCodec>⟧.normal v ↔ (v.0 ≡ is_some (E.of_number v.1)) }
{}

/// The encoding of a map field is a record for each pair, and its size is the sum of their lengths.
pub fn fields_are_their_records<KC: MapCodec, VC: MapCodec>()
    ensures { FieldsAreRecords KC.writing VC.writing KC.fits VC.fits }
{}

/// A map field of messages has a slot for the length of each message, and then the message's own.
pub fn message_fields_are_their_records<KC: MapCodec, M: MessageSpec>()
    ensures { MessageFieldsAreRecords KC.writing M.encoding M.slots }
{}

/// A rewrite is the field of the map, and behind it a record for each entry that isn't declared, byte for byte.
pub fn rewrites_are_their_fields<
    KC: MapCodec,
    VC: MapCodec,
    C: MapStorage<Key = KC::Value, Value = VC::Value>,
>()
    ensures enums { EnumsAreNumbers }
    ensures rewrites { (d n cost : ℕ) (map : C) → RewritesAreFields KC.writing VC.writing (record {
      key = KC.reading;
      val = VC.reading;
      same = C.equal;
      keeps_order = C.keeps_order;
      depth = d;
      number = n;
      cost = cost;
      keeps_undeclared = true;
    }) KC.fits VC.fits (C.walks map) }
{}

/// A string is refused that isn't UTF-8; a number that a closed enum doesn't declare leaves the value as it was; an open
/// enum's value is the number; and an entry with no field is declared.
pub fn texts_numbers_and_defaults_are_these<
    KC: MapValueDecode,
    VC: MapValueDecode,
    E: Enumeration,
    T: ProtoString,
>()
    ensures text { (d : ℕ) (old : _) (b : List ℕ) → is_utf8 b ≡ true →
        ⟦<ProtoStringMap<T> as MapValueDecode>⟧.reading.reads d old (bytes b) ≡ Ok (T.of_text b, true) }
    ensures no_text { (d : ℕ) (old : _) (b : List ℕ) → is_utf8 b ≡ false →
        ⟦<ProtoStringMap<T> as MapValueDecode>⟧.reading.reads d old (bytes b) ≡ Err InvalidUtf8 }
    ensures declared { (d n : ℕ) (old : ℤ) → is_some (E.of_number (int32_of n)) ≡ true →
        ⟦<ClosedEnum<E> as MapValueDecode>⟧.reading.reads d old (number n) ≡ Ok (int32_of n, true) }
    ensures undeclared { (d n : ℕ) (old : ℤ) → is_some (E.of_number (int32_of n)) ≡ false →
        ⟦<ClosedEnum<E> as MapValueDecode>⟧.reading.reads d old (number n) ≡ Ok (old, false) }
    ensures any { (d n : ℕ) (old : _) → ⟦<OpenEnum<E> as MapValueDecode>⟧.reading.reads d old (number n)
        ≡ Ok ((is_some (E.of_number (int32_of n)), int32_of n), true) }
    ensures no_fields { (d : ℕ) → (blanks KC.reading VC.reading d).known ≡ true }
{}
