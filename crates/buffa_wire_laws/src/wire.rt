//! Laws of `buffa_bytes`: what bytes say, field by field, and how values are written.

ghost use Rattle.std.specs.Prelude.{◌≡◌, ◌≢◌, ◌<◌, ◌≤◌, ◌<ℤ◌, ◌^◌, ◌+◌, ◌↔◌, ℕ, ℤ, suc, pos, Bool, List, ◌++◌};
ghost use Rattle.std.specs.Prelude.{length, take, drop, Ok, Err, FitsSigned, true, false, [], ◌∷◌, ◌-◌, Some, None, string_bytes};
ghost use Rattle.std.specs.Prelude.{vec_capacity, vec_len, Vec};
ghost use Rattle.std.specs.Borrow.{MutBor};
ghost use Rattle.std.specs.Global.{Global};
ghost use Rattle.std.specs.Int.{cast_unsigned, from_bool, w32, w64};
ghost use Rattle.std.specs.List.{All};
ghost use Rattle.std.specs.Str.{is_utf8};
ghost use Rattle.buffa_bytes.specs.declared.tag.Tag.{Tag};
ghost use Rattle.buffa_bytes.specs.declared.wire_type.WireType.{WireType};
ghost use Rattle.buffa_bytes.specs.declared.wire_type.WireType.TheVariants.{EndGroup, Fixed32, Fixed64, LengthDelimited};
ghost use Rattle.buffa_bytes.specs.declared.wire_type.WireType.TheVariants.{StartGroup, Varint};
ghost use Rattle.buffa_bytes.specs.declared.error.DecodeError.{DecodeError};
ghost use Rattle.buffa_bytes.specs.declared.error.DecodeError.TheVariants.{OutOfMemory, UnexpectedEof, WireTypeMismatch};
ghost use Rattle.buffa_bytes.specs.declared.error.EncodeError.{EncodeError};
ghost use Rattle.buffa_bytes.specs.declared.error.EncodeError.TheVariants as encoding;
ghost use Rattle.buffa_bytes.specs.declared.error.MessageSetFault.{MessageSetFault};
ghost use Rattle.buffa_bytes.specs.ErrorText.{decode_error_text, encode_error_text, message_set_fault_text};
ghost use Rattle.buffa_bytes.specs.Varint.{IsByte, varint_encoding, IsVarint, TakesVarint, VarintFault};
ghost use Rattle.buffa_bytes.specs.Unread.{past_no_payload, past_no_tag, past_no_delimited, past_no_varint};
ghost use Rattle.buffa_bytes.specs.Number.{IsNumber, wire_kind, wire_number};
ghost use Rattle.buffa_bytes.specs.PayloadValue.{PayloadValue, PayloadValueFault, TakesPayloadValue, bytes_in, payload_value_at, payload_value_by};
ghost use Rattle.buffa_bytes.specs.PayloadValue.{number_in};
ghost use Rattle.buffa_bytes.specs.Field.{LengthFault, SomeField, TakesDelimited, TakesTag, TagFault, TakesPayload};
ghost use Rattle.buffa_bytes.specs.Field.{PayloadFault};
ghost use Rattle.buffa_bytes.specs.Readings.{delimited_at, varint_at, tag_at, taken, skip_at, group_at, group_by_field, check_wire};
ghost use Rattle.buffa_bytes.specs.Scalars.{bool_at, bool_of, bool_encoding, eight_as, fixed32_at, fixed32_encoding};
ghost use Rattle.buffa_bytes.specs.Scalars.{fixed64_at, fixed64_encoding, four_as, int32_of, int64_at, int64_of};
ghost use Rattle.buffa_bytes.specs.Scalars.{int64_encoding, sfixed32_at, sfixed32_of, sfixed32_encoding, sfixed64_at};
ghost use Rattle.buffa_bytes.specs.Scalars.{sfixed64_of, sfixed64_encoding, sint32_at, sint32_of, sint32_encoding, sint64_at};
ghost use Rattle.buffa_bytes.specs.Scalars.{sint64_of, sint64_encoding, uint32_at, uint32_of, uint32_encoding, uint64_at};
ghost use Rattle.buffa_bytes.specs.Scalars.{uint64_encoding, unzigzag, varint_as, zigzag};
ghost use Rattle.bytes.specs.Filled.{Filled};
ghost use Rattle.buffa_bytes.specs.Adapted.{ShowsInner, kept_beyond};
ghost use Rattle.buffa_bytes.specs.Pinned.{AnswerIsPinned, AnswerIsPinnedUnlessFull, ChunkIsPinned, IsItsBytes};
ghost use Rattle.buffa_bytes.specs.Pinned.{IsCopied, LentIsPinned, Means, SameIsOne, ShowsBytes, ShowsFront, WriteIsPinned};
ghost use Rattle.buffa_bytes.specs.Delimited.{bytes_as, string_as, text_as};
ghost use Rattle.buffa_bytes.specs.Values.{delimited_encoding, int32_at, int32_encoding, string_at, tag_encoding};

use buffa_bytes::adapted::Adapted;
use buffa_bytes::blank::Blank;
use buffa_bytes::buf::Buf;
use buffa_bytes::error::{DecodeError, EncodeError, MessageSetFault};
use buffa_bytes::key::{MapKey, PlainKey};
use buffa_bytes::limited::Limited;
use buffa_bytes::pieces::Pieces;
use buffa_bytes::proto::{ProtoBytes, ProtoString};
use buffa_bytes::sink::EncodeSink;
use buffa_bytes::tag::{MAX_FIELD_NUMBER, Tag};
use buffa_bytes::types::{BOOL_ENCODED_LEN, FIXED32_ENCODED_LEN, FIXED64_ENCODED_LEN};
use buffa_bytes::wire_type::WireType;
use bytes::{Bytes, BytesMut};
use std::alloc::{AllocError, AllocFailed};
use std::fmt;

/// A varint is read exactly where a spelling begins the bytes, and a fault is returned exactly where the
/// grammar has it.
pub fn varints_are_read()
    ensures ok { (bs : List ℕ) (n : ℕ) (rest : List ℕ) → (varint_at bs ≡ Ok (n, rest)) ↔ TakesVarint bs n rest }
    ensures err { (bs : List ℕ) (e : DecodeError) → (varint_at bs ≡ Err e) ↔ VarintFault bs e }
{}

/// The same of tags.
pub fn tags_are_read()
    ensures ok { (bs : List ℕ) (f : ℕ) (w : WireType) (rest : List ℕ) → (tag_at bs ≡ Ok (f, w, rest))
        ↔ TakesTag bs f w rest }
    ensures err { (bs : List ℕ) (e : DecodeError) → (tag_at bs ≡ Err e) ↔ TagFault bs e }
{}

/// The same of a length and so many bytes.
pub fn delimited_bytes_are_read()
    ensures ok { (bs bytes rest : List ℕ) → (delimited_at bs ≡ Ok (bytes, rest)) ↔ TakesDelimited bs bytes rest }
    ensures err { (bs : List ℕ) (e : DecodeError) → (delimited_at bs ≡ Err e) ↔ LengthFault bs e }
{}

/// The same of what a payload holds, a number or bytes.
pub fn payload_values_are_read()
    ensures ok { (w : WireType) (bs : List ℕ) (c : PayloadValue) (rest : List ℕ) → (payload_value_at w bs ≡ Ok (c, rest))
        ↔ TakesPayloadValue w bs c rest }
    ensures err { (w : WireType) (bs : List ℕ) (e : DecodeError) → (payload_value_at w bs ≡ Err e) ↔ PayloadValueFault w bs e }
{}

/// The same of payloads, groups to any depth among them.
pub fn payloads_are_read()
    ensures ok { (d f : ℕ) (w : WireType) (bs rest : List ℕ) → (skip_at d f w bs ≡ Ok rest)
        ↔ TakesPayload d f w bs rest }
    ensures err { (d f : ℕ) (w : WireType) (bs : List ℕ) (e : DecodeError) → (skip_at d f w bs ≡ Err e)
        ↔ PayloadFault d f w bs e }
{}

/// The first bytes are there exactly where they and what follows are all, and where there are fewer that is an unexpected end.
pub fn first_bytes_are_these()
    ensures there { (n : ℕ) (bs first rest : List ℕ) → (taken n bs ≡ Ok (first, rest)) ↔ ((length first ≡ n)
        × (bs ≡ first ++ rest)) }
    ensures too_few { (n : ℕ) (bs : List ℕ) (e : DecodeError) → (taken n bs ≡ Err e) ↔ ((length bs < n)
        × (e ≡ UnexpectedEof)) }
{}

/// The shortest spelling is one, of bytes, none is shorter, and it is read back whatever follows.
pub fn shortest_spelling()
    ensures spells { (n : ℕ) → n < 2 ^ 64 → IsVarint (varint_encoding n) n }
    ensures shortest { (bytes : List ℕ) (n : ℕ) → IsVarint bytes n → length (varint_encoding n) ≤ length bytes }
    ensures read_back { (n : ℕ) (rest : List ℕ) → n < 2 ^ 64 → varint_at (varint_encoding n ++ rest) ≡ Ok (n, rest) }
    ensures bytes { (n : ℕ) → All IsByte (varint_encoding n) }
{}

/// Of two spellings of a number in as many bytes there is one: the shortest is the only one of its length.
pub fn one_spelling_of_a_length()
    ensures { (a b : List ℕ) (n : ℕ) → All IsByte a → All IsByte b → IsVarint a n → IsVarint b n → length a
        ≡ length b → a ≡ b }
{}

/// Out of memory is no fault of the bytes.
pub fn memory_is_no_fault()
    ensures varint { (bs : List ℕ) → varint_at bs ≢ Err OutOfMemory }
    ensures tag { (bs : List ℕ) → tag_at bs ≢ Err OutOfMemory }
    ensures delimited { (bs : List ℕ) → delimited_at bs ≢ Err OutOfMemory }
    ensures content { (w : WireType) (bs : List ℕ) → payload_value_at w bs ≢ Err OutOfMemory }
    ensures payload { (d f : ℕ) (w : WireType) (bs : List ℕ) → skip_at d f w bs ≢ Err OutOfMemory }
    ensures fault { (d f : ℕ) (w : WireType) (bs : List ℕ) → PayloadFault d f w bs OutOfMemory → ⊥ }
{}

/// Refused memory is out of memory, and nothing else, where `?` hands it on, with a value or with none. It leaves nothing
/// out.
pub fn refused_memory_is_out_of_memory<T: Drop>()
    ensures decode { (e : _) (f : _) → ⟦<DecodeError as From<AllocError>>⟧.from_gives e f ↔ (f ≡ OutOfMemory) }
    ensures decode_with_value { (e : _) (f : _) → ⟦<DecodeError as From<AllocFailed<T>>>⟧.from_gives e f ↔ (f ≡ OutOfMemory) }
    ensures encode { (e : _) (f : _) → ⟦<EncodeError as From<AllocError>>⟧.from_gives e f ↔ (f ≡ encoding.OutOfMemory) }
    ensures encode_with_value { (e : _) (f : _) → ⟦<EncodeError as From<AllocFailed<T>>>⟧.from_gives e f
        ↔ (f ≡ encoding.OutOfMemory) }
{}

/// The constants: the largest field number, and the lengths of scalars of one length.
pub fn constants()
    ensures max_field_number { (f : ℕ) → IsNumber f ↔ ((0 < f) × (f ≤ MAX_FIELD_NUMBER)) }
    ensures bool { BOOL_ENCODED_LEN ≡ 1 }
    ensures fixed32 { FIXED32_ENCODED_LEN ≡ 4 }
    ensures fixed64 { FIXED64_ENCODED_LEN ≡ 8 }
{}

/// The number of a tag is one that a field may have.
pub fn tags_have_numbers(tag: Tag)
    ensures { IsNumber tag.number }
{}

/// What is read does not depend on what follows.
pub fn more_bytes_change_nothing()
    ensures varint { (bs : List ℕ) (n : ℕ) (rest more : List ℕ) → varint_at bs ≡ Ok (n, rest) →
        varint_at (bs ++ more) ≡ Ok (n, rest ++ more) }
    ensures tag { (bs : List ℕ) (f : ℕ) (w : WireType) (rest more : List ℕ) → tag_at bs ≡ Ok (f, w, rest) →
        tag_at (bs ++ more) ≡ Ok (f, w, rest ++ more) }
    ensures skip { (d f : ℕ) (w : WireType) (bs rest more : List ℕ) → skip_at d f w bs ≡ Ok rest →
        skip_at d f w (bs ++ more) ≡ Ok (rest ++ more) }
{}

/// What is read leaves less.
pub fn readings_shorten()
    ensures varint { (bs : List ℕ) (n : ℕ) (rest : List ℕ) → varint_at bs ≡ Ok (n, rest) → length rest < length bs }
    ensures tag { (bs : List ℕ) (f : ℕ) (w : WireType) (rest : List ℕ) → tag_at bs ≡ Ok (f, w, rest) →
        length rest < length bs }
    ensures skip { (d f : ℕ) (w : WireType) (bs rest : List ℕ) → skip_at d f w bs ≡ Ok rest → length rest ≤ length bs }
{}

/// A group is read field by field, with no count of steps.
pub fn group_field_by_field()
    ensures { (d f : ℕ) (bs : List ℕ) → group_at (suc d) f bs ≡ group_by_field d f bs }
{}

/// No payload is a proper beginning of another of its wire type, and no field of another.
pub fn no_field_begins_another()
    ensures payload { (d f : ℕ) (w : WireType) (bs x y : List ℕ) → TakesPayload d f w bs x →
        TakesPayload d f w bs y → x ≡ y }
    ensures field { (d : ℕ) (first second x y : List ℕ) → SomeField d first → SomeField d second → first ++ x
        ≡ second ++ y → first ≡ second }
{}

/// Bytes have one fault at most, and none where a payload begins them.
pub fn one_fault()
    ensures one { (d f : ℕ) (w : WireType) (bs : List ℕ) (e k : DecodeError) → PayloadFault d f w bs e →
        PayloadFault d f w bs k → e ≡ k }
    ensures none { (d f : ℕ) (w : WireType) (bs rest : List ℕ) (e : DecodeError) → TakesPayload d f w bs rest →
        PayloadFault d f w bs e → ⊥ }
{}

/// A tag that was written is read back, whatever follows.
pub fn tags_are_read_back()
    ensures { (f : ℕ) (w : WireType) (rest : List ℕ) → IsNumber f → tag_at (tag_encoding f w ++ rest) ≡ Ok (f, w, rest) }
{}

/// An int32 that was written is read back, whatever follows, and a negative one takes ten bytes.
pub fn int32_is_read_back()
    ensures read_back { (v : ℤ) (rest : List ℕ) → FitsSigned w32 v → int32_at (int32_encoding v ++ rest) ≡ Ok (v, rest) }
    ensures negative { (v : ℤ) → FitsSigned w32 v → v <ℤ pos 0 → length (int32_encoding v) ≡ 10 }
{}

/// Zigzag is undone, from either side, and keeps within the width.
pub fn zigzag_is_undone()
    ensures of_a_value { (v : ℤ) → unzigzag (zigzag v) ≡ v }
    ensures of_a_number { (n : ℕ) → zigzag (unzigzag n) ≡ n }
    ensures fits32 { (v : ℤ) → FitsSigned w32 v → zigzag v < 2 ^ 32 }
    ensures fits64 { (v : ℤ) → FitsSigned w64 v → zigzag v < 2 ^ 64 }
{}

/// The number that is written of a scalar means that scalar.
pub fn numbers_mean_their_values()
    ensures int32 { (v : ℤ) → FitsSigned w32 v → int32_of (cast_unsigned w64 v) ≡ v }
    ensures int64 { (v : ℤ) → FitsSigned w64 v → int64_of (cast_unsigned w64 v) ≡ v }
    ensures uint32 { (n : ℕ) → n < 2 ^ 32 → uint32_of n ≡ n }
    ensures sint32 { (v : ℤ) → FitsSigned w32 v → sint32_of (zigzag v) ≡ v }
    ensures sint64 { (v : ℤ) → sint64_of (zigzag v) ≡ v }
    ensures bool { (b : Bool) → bool_of (from_bool b) ≡ b }
    ensures sfixed32 { (v : ℤ) → FitsSigned w32 v → sfixed32_of (cast_unsigned w32 v) ≡ v }
    ensures sfixed64 { (v : ℤ) → FitsSigned w64 v → sfixed64_of (cast_unsigned w64 v) ≡ v }
{}

/// A scalar that was written as a varint is read back, whatever follows.
pub fn varint_scalars_are_read_back()
    ensures int64 { (v : ℤ) (rest : List ℕ) → FitsSigned w64 v → int64_at (int64_encoding v ++ rest) ≡ Ok (v, rest) }
    ensures uint32 { (n : ℕ) (rest : List ℕ) → n < 2 ^ 32 → uint32_at (uint32_encoding n ++ rest) ≡ Ok (n, rest) }
    ensures uint64 { (n : ℕ) (rest : List ℕ) → n < 2 ^ 64 → uint64_at (uint64_encoding n ++ rest) ≡ Ok (n, rest) }
    ensures sint32 { (v : ℤ) (rest : List ℕ) → FitsSigned w32 v → sint32_at (sint32_encoding v ++ rest) ≡ Ok (v, rest) }
    ensures sint64 { (v : ℤ) (rest : List ℕ) → FitsSigned w64 v → sint64_at (sint64_encoding v ++ rest) ≡ Ok (v, rest) }
    ensures bool { (b : Bool) (rest : List ℕ) → bool_at (bool_encoding b ++ rest) ≡ Ok (b, rest) }
{}

/// A scalar that was written as four or eight bytes is read back, whatever follows.
pub fn fixed_scalars_are_read_back()
    ensures fixed32 { (n : ℕ) (rest : List ℕ) → n < 2 ^ 32 → fixed32_at (fixed32_encoding n ++ rest) ≡ Ok (n, rest) }
    ensures fixed64 { (n : ℕ) (rest : List ℕ) → n < 2 ^ 64 → fixed64_at (fixed64_encoding n ++ rest) ≡ Ok (n, rest) }
    ensures sfixed32 { (v : ℤ) (rest : List ℕ) → FitsSigned w32 v → sfixed32_at (sfixed32_encoding v ++ rest)
        ≡ Ok (v, rest) }
    ensures sfixed64 { (v : ℤ) (rest : List ℕ) → FitsSigned w64 v → sfixed64_at (sfixed64_encoding v ++ rest)
        ≡ Ok (v, rest) }
{}

/// The scalars of one length, whatever the value.
pub fn scalars_of_one_length()
    ensures bool { (b : Bool) → length (bool_encoding b) ≡ 1 }
    ensures fixed32 { (n : ℕ) → length (fixed32_encoding n) ≡ 4 }
    ensures fixed64 { (n : ℕ) → length (fixed64_encoding n) ≡ 8 }
    ensures sfixed32 { (v : ℤ) → length (sfixed32_encoding v) ≡ 4 }
    ensures sfixed64 { (v : ℤ) → length (sfixed64_encoding v) ≡ 8 }
{}

/// A text of UTF-8 that was written is read back, whatever follows.
pub fn strings_are_read_back()
    ensures { (text rest : List ℕ) → is_utf8 text ≡ true → length text < 2 ^ 64 →
        string_at (delimited_encoding text ++ rest) ≡ Ok (text, rest) }
{}

/// A string in a type of one's own that was written is read back, whatever follows.
pub fn own_strings_are_read_back<S: ProtoString>()
    ensures { (value : S) (rest : List ℕ) → length (S.text (S.meaning value)) < 2 ^ 64 →
        string_as S.of_text (delimited_encoding (S.text (S.meaning value)) ++ rest) ≡ Ok (S.meaning value, rest) }
{}

/// Bytes in a type of one's own that were written are read back, whatever follows.
pub fn own_bytes_are_read_back<P: ProtoBytes>()
    ensures { (value : P.Meaning) (rest : List ℕ) → length (P.bytes value) < 2 ^ 64 →
        bytes_as P.of_bytes (delimited_encoding (P.bytes value) ++ rest) ≡ Ok (value, rest) }
{}

/// A value is read as the content of its payload.
pub fn values_are_read_of_payloads<V>()
    ensures varint { (of : ℕ → V) (bs : List ℕ) → varint_as of bs
        ≡ payload_value_by Varint (λ c. Ok (of (number_in c))) bs }
    ensures four_bytes { (of : ℕ → V) (bs : List ℕ) → four_as of bs
        ≡ payload_value_by Fixed32 (λ c. Ok (of (number_in c))) bs }
    ensures eight_bytes { (of : ℕ → V) (bs : List ℕ) → eight_as of bs
        ≡ payload_value_by Fixed64 (λ c. Ok (of (number_in c))) bs }
    ensures bytes { (of : List ℕ → V) (bs : List ℕ) → bytes_as of bs
        ≡ payload_value_by LengthDelimited (λ c. Ok (of (bytes_in c))) bs }
    ensures string { (of : List ℕ → V) (bs : List ℕ) → string_as of bs
        ≡ payload_value_by LengthDelimited (λ c. text_as of (bytes_in c)) bs }
{}

/// What reads and takes no memory has one answer, and leaves one rest of refused bytes. It doesn't say what is unread
/// after a refusal within a group.
pub fn answers_are_pinned<X, Y>()
    ensures { AnswerIsPinned X Y }
{}

/// What refused bytes leave, in the words of the grammar. It leaves out groups, of which a tail is left.
#[tactic(auto, using(buffa_bytes::proofs::UnreadLemmas::end_stays))]
pub fn rests_are_these()
    ensures no_varint { (bs : List ℕ) → past_no_varint bs ≡ drop 10 bs }
    ensures no_number { (bs : List ℕ) (e : DecodeError) → VarintFault bs e → (past_no_tag bs ≡ drop 10 bs)
        × (past_no_delimited bs ≡ drop 10 bs) }
    ensures tag { (bs : List ℕ) (n : ℕ) (rest : List ℕ) → TakesVarint bs n rest → past_no_tag bs ≡ rest }
    ensures cut { (bs : List ℕ) (n : ℕ) (rest : List ℕ) → TakesVarint bs n rest → length rest < n → past_no_delimited bs
        ≡ rest }
    ensures whole { (bs : List ℕ) (n : ℕ) (rest : List ℕ) → TakesVarint bs n rest → n ≤ length rest → past_no_delimited bs
        ≡ drop n rest }
    ensures payload { (bs : List ℕ) → (past_no_payload Varint bs ≡ drop 10 bs)
        × (past_no_payload LengthDelimited bs ≡ past_no_delimited bs) }
    ensures fixed { (bs : List ℕ) → (past_no_payload Fixed32 bs ≡ bs) × (past_no_payload Fixed64 bs ≡ bs) }
    ensures end { (bs : List ℕ) → past_no_payload EndGroup bs ≡ bs }
{}

/// The same of what takes memory. It doesn't say whether out of memory is returned where the whole is there and isn't
/// empty, and how much of the whole is unread then.
pub fn answers_are_pinned_unless_full<X, Y, Z>()
    ensures { AnswerIsPinnedUnlessFull X Y Z }
{}

/// The bytes that are lent to a function are those at the front, and it is called once, or not at all. It doesn't say
/// which of the function's answers is given, whether out of memory is returned where there is a byte or more, and how many
/// are unread then.
pub fn lent_bytes_are_pinned<T, F: FnMut(&[u8]) -> Result<T, DecodeError>>()
    ensures { LentIsPinned F.FnMut }
{}

/// An encoding is written in one way. It doesn't say whether an encoding is refused that doesn't fit the
/// spare capacity, before which of its bytes, and whether more capacity is left than is promised.
pub fn writes_are_pinned<T>()
    ensures { WriteIsPinned T }
{}

/// Chunks and fronts of the same bytes are beginnings of them. It doesn't say where a chunk ends.
pub fn chunks_are_pinned()
    ensures { ChunkIsPinned }
{}

/// What the values of each type mean, and its default. It says nothing of the capacity and the layout of a text.
pub fn meanings_are_these()
    ensures int32 { Means (λ n. n) (pos 0) ⟦<i32 as Blank>⟧.meaning ⟦<i32 as Blank>⟧.blank_is }
    ensures int64 { Means (λ n. n) (pos 0) ⟦<i64 as Blank>⟧.meaning ⟦<i64 as Blank>⟧.blank_is }
    ensures uint32 { Means (λ n. n) 0 ⟦<u32 as Blank>⟧.meaning ⟦<u32 as Blank>⟧.blank_is }
    ensures uint64 { Means (λ n. n) 0 ⟦<u64 as Blank>⟧.meaning ⟦<u64 as Blank>⟧.blank_is }
    ensures bool { Means (λ b. b) false ⟦<bool as Blank>⟧.meaning ⟦<bool as Blank>⟧.blank_is }
    ensures string { Means string_bytes [] ⟦<String as Blank>⟧.meaning ⟦<String as Blank>⟧.blank_is }
    ensures bytes { Means (λ v. v.items) [] ⟦<Vec<u8> as Blank>⟧.meaning ⟦<Vec<u8> as Blank>⟧.blank_is }
    ensures shared { Means (λ b. b) [] ⟦<Bytes as Blank>⟧.meaning ⟦<Bytes as Blank>⟧.blank_is }
{}

/// Two values of each of these types are one key exactly where they mean the same. It leaves nothing out.
pub fn keys_are_these()
    ensures int32 { SameIsOne ⟦<i32 as MapKey>⟧.same }
    ensures int64 { SameIsOne ⟦<i64 as MapKey>⟧.same }
    ensures uint32 { SameIsOne ⟦<u32 as MapKey>⟧.same }
    ensures uint64 { SameIsOne ⟦<u64 as MapKey>⟧.same }
    ensures bool { SameIsOne ⟦<bool as MapKey>⟧.same }
    ensures string { SameIsOne ⟦<String as MapKey>⟧.same }
    ensures bytes { SameIsOne ⟦<Vec<u8> as MapKey>⟧.same }
    ensures shared { SameIsOne ⟦<Bytes as MapKey>⟧.same }
{}

/// The text of a `String`, and the bytes of a vector, are its bytes. It leaves nothing out.
pub fn values_are_their_bytes()
    ensures string { IsItsBytes ⟦<String as ProtoString>⟧.text ⟦<String as ProtoString>⟧.of_text }
    ensures bytes { IsItsBytes ⟦<Vec<u8> as ProtoBytes>⟧.bytes ⟦<Vec<u8> as ProtoBytes>⟧.of_bytes }
{}

/// The bytes that each buffer shows, and what it keeps past them. It doesn't say where chunks of pieces end.
pub fn buffers_are_these<B: Buf>()
    ensures slice { ShowsBytes (λ s. s.now) ⟦<&'static [u8] as Buf>⟧.unread ⟦<&'static [u8] as Buf>⟧.beyond }
    ensures shared { ShowsBytes (λ b. b) ⟦<Bytes as Buf>⟧.unread ⟦<Bytes as Buf>⟧.beyond }
    ensures pieces { ShowsBytes (λ s. s) ⟦<Pieces<'static> as Buf>⟧.unread ⟦<Pieces<'static> as Buf>⟧.beyond }
    ensures limited { ShowsFront ⟦<Limited<'static, B> as Buf>⟧.unread ⟦<Limited<'static, B> as Buf>⟧.beyond
        (λ s. s.inner) (λ s. s.limit) B.unread B.beyond }
{}

/// A lent front that is let go, and not finished, leaves the buffer as it was.
pub fn fronts_let_go_stay<B: Buf + Drop>(buf: &mut B, limit: usize)
    ensures { buf.new ≡ buf.old }
{
    if limit <= buf.remaining() {
        let _front = Limited::new(buf, limit);
    }
}

/// A lent front that was read from and is let go leaves the buffer behind what was read.
pub fn fronts_let_go_leave_what_is_unread<B: Buf + Drop>(buf: &mut B, limit: usize, n: usize)
    requires within { n ≤ limit }
    requires there { limit ≤ length (B.unread buf.old) }
    ensures rest { B.unread buf.new ≡ drop n (B.unread buf.old) }
    ensures kept { B.beyond buf.new ≡ B.beyond buf.old }
{
    let mut front = Limited::new(buf, limit);
    front.advance(n);
}

/// An adapted buffer shows what the one within does, and keeps what that one keeps. It doesn't say where chunks end.
#[tactic(auto, using(buffa_bytes::proofs::AdaptedLemmas::kept_is_one))]
pub fn adapted_buffers_are_these<B: bytes::Buf>()
    ensures inner { ShowsInner ⟦<Adapted<B> as Buf>⟧.unread ⟦<Adapted<B> as Buf>⟧.beyond (λ s. s.0) B.unread B.kept }
    ensures shown { (s : _) → ⟦<Adapted<B> as Buf>⟧.unread s ≡ B.unread s.0 }
    ensures past { (s : _) → ⟦<Adapted<B> as Buf>⟧.beyond s ≡ kept_beyond (B.kept s.0) }
    ensures kept { (x y : List (List ℕ × ℕ)) → kept_beyond x ≡ kept_beyond y → x ≡ y }
    ensures none_kept { kept_beyond [] ≡ [] }
    ensures more_kept { (n : ℕ) (b : List ℕ) (x : List (List ℕ × ℕ)) → kept_beyond ((b, n) ∷ x) ≡ (n, b) ∷ kept_beyond x }
{}

/// An adapted buffer that was lent, and is let go, leaves its lender as it was.
pub fn adapted_buffers_let_go_stay<B: bytes::Buf + Drop>(buf: &mut B)
    ensures { buf.new ≡ buf.old }
{
    let adapted = Adapted(&mut *buf);
    let _left = adapted.remaining();
}

/// What was written to a vector or to a `BytesMut`, and its spare capacity. It leaves nothing out.
pub fn sinks_are_these()
    ensures written { (v : Vec ℕ Global) → ⟦<Vec<u8> as EncodeSink>⟧.written v ≡ v.items }
    ensures room { (v : Vec ℕ Global) → ⟦<Vec<u8> as EncodeSink>⟧.room v ≡ vec_capacity v - vec_len v }
    ensures grown { (b : Filled) → ⟦<BytesMut as EncodeSink>⟧.written b ≡ b.items }
    ensures spare { (b : Filled) → ⟦<BytesMut as EncodeSink>⟧.room b ≡ b.spare }
{}

/// Two types of one's own for strings read one text out of the same bytes. It doesn't say how a value holds its text.
pub fn own_strings_are_pinned<S: ProtoString, T: ProtoString>()
    ensures one { (bs x y : List ℕ) (s : S.Meaning) (t : T.Meaning) → string_as S.of_text bs ≡ Ok (s, x) →
        string_as T.of_text bs ≡ Ok (t, y) → (S.text s ≡ T.text t) × (x ≡ y) }
    ensures meaning { (a b : S.Meaning) → S.text a ≡ S.text b → a ≡ b }
{}

/// The same of bytes.
pub fn own_bytes_are_pinned<P: ProtoBytes, Q: ProtoBytes>()
    ensures one { (bs x y : List ℕ) (p : P.Meaning) (q : Q.Meaning) → bytes_as P.of_bytes bs ≡ Ok (p, x) →
        bytes_as Q.of_bytes bs ≡ Ok (q, y) → (P.bytes p ≡ Q.bytes q) × (x ≡ y) }
    ensures meaning { (a b : P.Meaning) → P.bytes a ≡ P.bytes b → a ≡ b }
{}

/// `==` on plain keys says exactly whether they mean the same; on other keys it says what `same` says of their
/// meanings.
pub fn own_keys_are_pinned<K: MapKey, P: PlainKey>()
    ensures key { (a b : K) → K.eq a b ≡ K.same (K.meaning a) (K.meaning b) }
    ensures plain { (a b : P) → (P.eq a b ≡ true) ↔ (P.meaning a ≡ P.meaning b) }
{}

/// `==` says exactly whether two of these are one: two tags by what they hold. It leaves nothing out.
pub fn equal_ones_are_one()
    ensures wire_type { SameIsOne ⟦<WireType as PartialEq>⟧.eq }
    ensures item { SameIsOne ⟦<MessageSetFault as PartialEq>⟧.eq }
    ensures decode { SameIsOne ⟦<DecodeError as PartialEq>⟧.eq }
    ensures encode { SameIsOne ⟦<EncodeError as PartialEq>⟧.eq }
    ensures tag { (a b : Tag) → (⟦<Tag as PartialEq>⟧.eq a b ≡ true) ↔ ((a.number ≡ b.number)
        × (a.wire_type ≡ b.wire_type)) }
{}

/// What `clone` makes of each of these is the same again, and it doesn't fail. It leaves nothing out.
pub fn clones_are_these()
    ensures wire_type { IsCopied ⟦<WireType as Clone>⟧.is_clone ⟦<WireType as Clone>⟧.is_infallible }
    ensures item { IsCopied ⟦<MessageSetFault as Clone>⟧.is_clone ⟦<MessageSetFault as Clone>⟧.is_infallible }
    ensures decode { IsCopied ⟦<DecodeError as Clone>⟧.is_clone ⟦<DecodeError as Clone>⟧.is_infallible }
    ensures encode { IsCopied ⟦<EncodeError as Clone>⟧.is_clone ⟦<EncodeError as Clone>⟧.is_infallible }
    ensures tag { IsCopied ⟦<Tag as Clone>⟧.is_clone ⟦<Tag as Clone>⟧.is_infallible }
{}

/// What the words say by which laws name a type of values and a buffer. Whether two are one, and whether a copy is made, is
/// said here of what has an answer.
pub fn words_of_laws_are_these<A, B, M>()
    ensures means { (of : A → M) (zero : M) (meaning : A → M) (blank : M) → Means of zero meaning blank
        ↔ (((v : A) → meaning v ≡ of v) × (blank ≡ zero)) }
    ensures same { (same : A → A → Bool) → SameIsOne same ↔ ((a b : A) → (same a b ≡ true) ↔ (a ≡ b)) }
    ensures copied { (copy : A → A → Bool) (made : A → Bool) → IsCopied (λ a b. copy a b ≡ true) (λ a. made a ≡ true)
        ↔ (((a b : A) → copy a b ≡ true → a ≡ b) × ((a : A) → made a ≡ true)) }
    ensures its_bytes { (bytes of : List ℕ → List ℕ) → IsItsBytes bytes of ↔ ((b : List ℕ) → (bytes b ≡ b) × (of b ≡ b)) }
    ensures bytes { (bytes unread : A → List ℕ) (beyond : A → List (ℕ × List ℕ)) → ShowsBytes bytes unread beyond
        ↔ (((s : A) → unread s ≡ bytes s) × ((s : A) → beyond s ≡ [])) }
    ensures front { (unread : A → List ℕ) (beyond : A → List (ℕ × List ℕ)) (inner : A → MutBor B) (limit : A → ℕ)
        (shown : B → List ℕ) (past : B → List (ℕ × List ℕ)) → ShowsFront unread beyond inner limit shown past
        ↔ (((s : A) → unread s ≡ take (limit s) (shown (inner s).now))
        × ((s : A) → beyond s ≡ ((inner s).ghost_name, drop (limit s) (shown (inner s).now)) ∷ past (inner s).now)) }
    ensures inner { (unread : A → List ℕ) (beyond : A → List (ℕ × List ℕ)) (inner : A → B) (shown : B → List ℕ)
        (kept : B → List (List ℕ × ℕ)) → ShowsInner unread beyond inner shown kept
        ↔ (((s : A) → unread s ≡ shown (inner s)) × ((s : A) → beyond s ≡ kept_beyond (kept (inner s)))) }
{}

/// What is printed of each error, in std's words for text. It leaves nothing out.
pub fn errors_print_these()
    ensures decode { (e : DecodeError) → ⟦<DecodeError as fmt::Display>⟧.output e ≡ Some (decode_error_text e) }
    ensures encode { (e : EncodeError) → ⟦<EncodeError as fmt::Display>⟧.output e ≡ Some (encode_error_text e) }
    ensures item { (e : MessageSetFault) → ⟦<MessageSetFault as fmt::Display>⟧.output e
        ≡ Some (message_set_fault_text e) }
{}

/// The number of each wire type. It is undone, and 6 and 7 are none. Two wire types are one exactly where they are equal.
/// Source: the protobuf encoding guide, "Message Structure".
pub fn wire_types_are_pinned()
    ensures numbers { (wire_number Varint ≡ 0) × (wire_number Fixed64 ≡ 1) × (wire_number LengthDelimited ≡ 2)
        × (wire_number StartGroup ≡ 3) × (wire_number EndGroup ≡ 4) × (wire_number Fixed32 ≡ 5) }
    ensures number { (w : WireType) → wire_kind (wire_number w) ≡ Some w }
    ensures kind { (n : ℕ) (w : WireType) → wire_kind n ≡ Some w → wire_number w ≡ n }
    ensures none { (n : ℕ) → 6 ≤ n → wire_kind n ≡ None }
    ensures same { (f : ℕ) (e a : WireType) → (check_wire f e a ≡ Ok tt) ↔ (e ≡ a) }
    ensures other { (f : ℕ) (e a : WireType) → e ≢ a → check_wire f e a ≡ Err (WireTypeMismatch f e a) }
{}
