//! What each command answers to each input, in plain words: each law is a function with nothing to do, whose contract is the
//! law. `reply_laws.rt` has the words of replies, digits and lines.

ghost use Rattle.std.specs.Prelude.{◌≡◌, ◌⊎◌, ◌↔◌, ◌≢◌, ◌≤◌, ◌<◌, ◌+◌, ◌-◌, ◌^◌, ◌++◌, ◌∷◌, [], ℕ, ℤ, Bool, List, Err, FitsSigned, IfSome, None, Ok, Option, Some, codes, false, length, map, nat_lt, option_map, true};
ghost use Rattle.std.specs.Fmt.{decimal, signed_decimal};
ghost use Rattle.std.specs.Int.{w32};
ghost use Rattle.std.specs.List.{flat_map, list_all};
ghost use Rattle.std.specs.List.Sorted.{IsStrictlySortedBy};
ghost use Rattle.std.specs.Map.{keys_of};
ghost use Rattle.std.specs.Ordering.{int_cmp, int_eq};
ghost use Rattle.hex.specs.Hex.{encode_lower};
ghost use Rattle.sample_node.specs.Branch.{blank_node};
ghost use Rattle.sample_node.specs.NodeEncoding.{node_encoding};
ghost use Rattle.sample_node.specs.NodeMeaning.{node_cost, node_merged};
ghost use Rattle.buffa_sets.specs.Set.{set_cost, set_encoding, set_merged};
ghost use Rattle.buffa_bytes.specs.ErrorText.{decode_error_text};
ghost use Rattle.buffa_bytes.specs.Values.{int32_of};
ghost use Rattle.buffa_bytes.specs.declared.error.DecodeError.TheVariants.{OutOfMemory};
ghost use Rattle.buffa_bytes.specs.declared.wire_type.WireType.TheVariants.{Varint};
ghost use Rattle.buffa_codec.specs.Decoded.{elements, last_read, string_held};
ghost use Rattle.buffa_codec.specs.Packed.{numbers_in};
ghost use Rattle.buffa_codec.specs.RecordsOfNumber.{sub};
ghost use Rattle.buffa_map.specs.Encoding.{HasEncoding, entry_encoding, field_encoding};
ghost use Rattle.buffa_map.specs.Enums.{ClosedFits, closed_reading, closed_writing};
ghost use Rattle.buffa_map.specs.Pairs.{ListsOnce};
ghost use Rattle.buffa_map.specs.Rewrite.{IsRewrite};
ghost use Rattle.buffa_map.specs.Run.{EntryRecord, fold_entries};
ghost use Rattle.buffa_map.specs.RunReading.{run_of};
ghost use Rattle.buffa_map.specs.Scalars.{int32_reading, int32_writing, text_reading, text_writing};
ghost use Rattle.buffa_message_set.specs.Item.{item_in};
ghost use Rattle.buffa_wire.specs.BudgetLeft.{BudgetLeft, Lacks, defaults};
ghost use Rattle.buffa_wire.specs.NumberInRecord.{varint_in};
ghost use Rattle.buffa_wire.specs.Message.{MergeFault};
ghost use Rattle.buffa_wire.specs.RecordReading.{list_at};
ghost use Rattle.buffa_wire.specs.Records.{FieldData};
ghost use Rattle.buffamap.specs.Again.{RepliesToAgain, encoding_reply};
ghost use Rattle.buffamap.specs.Choice.{two_numbers};
ghost use Rattle.buffamap.specs.Command.{command_of};
ghost use Rattle.buffamap.specs.Engine.{Answers, AnswersAnyCall, AnswersCall, RepliesTo};
ghost use Rattle.buffamap.specs.Ext.{RepliesToExt, ext_text, has_line, int32_line, ints_line, string_line, words_of};
ghost use Rattle.buffamap.specs.Forms.{hex_bytes, without_newline};
ghost use Rattle.buffamap.specs.Item.{RepliesToItem};
ghost use Rattle.buffamap.specs.Lines.{ListedInOrder, Pair, lines_of, map_in, same_key};
ghost use Rattle.buffamap.specs.Read.{RepliesToRead};
ghost use Rattle.buffamap.specs.Reply.{GivesReply, Reply, bad_input, broken, fault, no_memory, success, wrong_words};
ghost use Rattle.buffamap.specs.Rewrite.{HasNoRewrite, RepliesToRewrite, RewritesTo};
ghost use Rattle.buffamap.specs.Streams.{Known, Source, StreamChange};
ghost use Rattle.buffamap.specs.Write.{RepliesToWrite, field_reply};
ghost use denote.Ref.{Bor};

use crate::command::Command;
use buffa_wire::{DEFAULT_UNKNOWN_FIELD_LIMIT, DecodeError, MessageSpec, RECURSION_LIMIT};

/// What `item` answers to what follows an Item's start tag: the type id in decimal, the message's bytes and the bytes that
/// follow the Item, a line each. Its fields may be one level less deep than a message's, since the Item is a level. Nothing is
/// left out.
pub fn item_is_answered_so()
    ensures form { (input : List ℕ) (reply : Reply) → hex_bytes (without_newline input) ≡ None →
        (RepliesToItem input reply ↔ (reply ≡ bad_input)) }
    ensures item { (input bytes message rest : List ℕ) (id : ℕ) (reply : Reply) →
        hex_bytes (without_newline input) ≡ Some bytes →
        item_in (RECURSION_LIMIT - 1) DEFAULT_UNKNOWN_FIELD_LIMIT bytes ≡ Ok (id, message, rest) →
        (RepliesToItem input reply ↔ (reply ≡ success ((decimal id ++ codes "\n")
        ++ ((encode_lower message ++ codes "\n") ++ (encode_lower rest ++ codes "\n"))))) }
    ensures refused { (input bytes : List ℕ) (e : DecodeError) (reply : Reply) →
        hex_bytes (without_newline input) ≡ Some bytes →
        item_in (RECURSION_LIMIT - 1) DEFAULT_UNKNOWN_FIELD_LIMIT bytes ≡ Err e →
        (RepliesToItem input reply ↔ (reply ≡ fault (decode_error_text e))) }
{}

/// What `read N` answers to a run: a line for each pair of its map. An entry costs 24 units for its string and 4 for its int32,
/// and none is kept. Nothing is left out.
pub fn read_is_answered_so(number: u32)
    ensures form { (input : List ℕ) (reply : Reply) → hex_bytes (without_newline input) ≡ None →
        (RepliesToRead number input reply ↔ (reply ≡ bad_input)) }
    ensures run { (input bytes : List ℕ) (entries : List (EntryRecord (List ℕ) ℤ)) (left : BudgetLeft) (reply : Reply) →
        hex_bytes (without_newline input) ≡ Some bytes →
        run_of text_reading int32_reading RECURSION_LIMIT number (24 + 4) 0 defaults bytes ≡ Ok (entries, left) →
        (RepliesToRead number input reply ↔ ((pairs : List Pair) × ListedInOrder (fold_entries same_key [] entries) pairs
        × (reply ≡ success (lines_of pairs)))) }
    ensures refused { (input bytes : List ℕ) (e : DecodeError) (reply : Reply) →
        hex_bytes (without_newline input) ≡ Some bytes →
        run_of text_reading int32_reading RECURSION_LIMIT number (24 + 4) 0 defaults bytes ≡ Err e →
        (RepliesToRead number input reply ↔ (reply ≡ fault (decode_error_text e))) }
{}

/// What `write N` answers to lines: the field of their map in hexadecimal, its pairs in the order of the keys' bytes; or that an
/// entry is too long for its length to be a varint. Nothing is left out.
pub fn write_is_answered_so(number: u32)
    ensures form { (input : List ℕ) (reply : Reply) → map_in input ≡ None →
        (RepliesToWrite number input reply ↔ (reply ≡ bad_input)) }
    ensures map { (input : List ℕ) (map : List Pair) (reply : Reply) → map_in input ≡ Some map →
        (RepliesToWrite number input reply
        ↔ ((pairs : List Pair) × ListedInOrder map pairs × (reply ≡ field_reply number pairs))) }
    ensures field { (pairs : List Pair) →
        list_all (λ p. nat_lt (length (entry_encoding text_writing int32_writing p)) (2 ^ 64)) pairs ≡ true →
        field_reply number pairs
        ≡ success (encode_lower (field_encoding text_writing int32_writing number pairs) ++ codes "\n") }
    ensures too_large { (pairs : List Pair) →
        list_all (λ p. nat_lt (length (entry_encoding text_writing int32_writing p)) (2 ^ 64)) pairs ≡ false →
        field_reply number pairs ≡ fault (codes "MessageTooLarge") }
{}

/// What `rewrite N` answers to a run: its rewrite in hexadecimal, the map's pairs in the order of the keys; or that an entry of
/// the map is too long for its length to be a varint. An entry costs 4 units for its int32 and 4 for its enum, and an unknown
/// field where it is kept. Nothing is left out.
pub fn rewrite_is_answered_so(number: u32)
    ensures form { (input : List ℕ) (reply : Reply) → hex_bytes (without_newline input) ≡ None →
        (RepliesToRewrite number input reply ↔ (reply ≡ bad_input)) }
    ensures run { (input bytes : List ℕ) (entries : List (EntryRecord ℤ ℤ)) (left : BudgetLeft) (reply : Reply) →
        hex_bytes (without_newline input) ≡ Some bytes →
        run_of int32_reading (closed_reading two_numbers) RECURSION_LIMIT number (4 + 4) 1 defaults bytes
        ≡ Ok (entries, left) →
        (RepliesToRewrite number input reply
        ↔ (((out : List ℕ) × RewritesTo number entries out × (reply ≡ success (encode_lower out ++ codes "\n")))
        ⊎ (HasNoRewrite entries × (reply ≡ fault (codes "MessageTooLarge"))))) }
    ensures refused { (input bytes : List ℕ) (e : DecodeError) (reply : Reply) →
        hex_bytes (without_newline input) ≡ Some bytes →
        run_of int32_reading (closed_reading two_numbers) RECURSION_LIMIT number (4 + 4) 1 defaults bytes ≡ Err e →
        (RepliesToRewrite number input reply ↔ (reply ≡ fault (decode_error_text e))) }
    ensures rewrite { (entries : List (EntryRecord ℤ ℤ)) (out : List ℕ) → RewritesTo number entries out
        ↔ ((w : IsRewrite int_eq int32_writing closed_writing (FitsSigned w32) (ClosedFits two_numbers) number entries out)
        × IsStrictlySortedBy int_cmp (keys_of w.0)) }
    ensures too_large { (entries : List (EntryRecord ℤ ℤ)) → HasNoRewrite entries
        ↔ ((pairs : List (ℤ × ℤ)) × ListsOnce int_eq (fold_entries int_eq [] entries) pairs
        × IsStrictlySortedBy int_cmp (keys_of pairs) × (HasEncoding int32_writing closed_writing pairs → ⊥)) }
{}

/// What `again` answers to a message: the encoding, in hexadecimal, of what its bytes mean to a blank one; or that this is too
/// long; or a fault of the bytes. Nothing is left out.
pub fn again_is_answered_so<M: MessageSpec>()
    ensures form { (input : List ℕ) (reply : Reply) → hex_bytes (without_newline input) ≡ None →
        (RepliesToAgain M.merged M.cost M.encoding M.blank_is input reply ↔ (reply ≡ bad_input)) }
    ensures bytes { (input bytes : List ℕ) (reply : Reply) → hex_bytes (without_newline input) ≡ Some bytes →
        let meant = M.merged RECURSION_LIMIT M.blank_is bytes in
        let cost = M.cost RECURSION_LIMIT bytes in
        (RepliesToAgain M.merged M.cost M.encoding M.blank_is input reply
        ↔ (((v : M.Meaning) × (meant ≡ Some v) × (Lacks defaults cost → ⊥) × (reply ≡ encoding_reply (M.encoding v)))
        ⊎ ((e : DecodeError) × (e ≢ OutOfMemory) × MergeFault meant cost defaults e
        × (reply ≡ fault (decode_error_text e))))) }
    ensures encoding { (encoding : List ℕ) → length encoding < 2 ^ 31 →
        encoding_reply encoding ≡ success (encode_lower encoding ++ codes "\n") }
    ensures too_large { (encoding : List ℕ) → 2 ^ 31 ≤ length encoding →
        encoding_reply encoding ≡ fault (codes "MessageTooLarge") }
{}

/// What `ext N` answers to a message: four lines on the records of the number. Nothing is left out.
pub fn ext_is_answered_so(number: u32)
    ensures form { (input : List ℕ) (reply : Reply) → hex_bytes (without_newline input) ≡ None →
        (RepliesToExt number input reply ↔ (reply ≡ bad_input)) }
    ensures records { (input bytes : List ℕ) (records : List (ℕ × FieldData)) (reply : Reply) →
        hex_bytes (without_newline input) ≡ Some bytes →
        list_at RECURSION_LIMIT DEFAULT_UNKNOWN_FIELD_LIMIT bytes ≡ Ok records →
        (RepliesToExt number input reply ↔ (reply ≡ success (ext_text (sub number records)))) }
    ensures refused { (input bytes : List ℕ) (e : DecodeError) (reply : Reply) →
        hex_bytes (without_newline input) ≡ Some bytes →
        list_at RECURSION_LIMIT DEFAULT_UNKNOWN_FIELD_LIMIT bytes ≡ Err e →
        (RepliesToExt number input reply ↔ (reply ≡ fault (decode_error_text e))) }
{}

/// What the four lines of `ext N` are: whether there is a record, the last one that is an int32, the last one that is a string,
/// and all int32s, those in packed records too.
pub fn lines_of_ext_are_these()
    ensures text { (records : List FieldData) → let int32 : FieldData → Option ℤ = λ d. option_map int32_of (varint_in d) in ext_text records
        ≡ ((has_line records ++ int32_line (last_read int32 records)) ++ string_line (last_read string_held records))
        ++ ints_line (flat_map (λ d. elements (λ bytes. map int32_of (numbers_in Varint bytes)) d (int32 d)) records) }
    ensures has_no { has_line [] ≡ codes "has no\n" }
    ensures has { (d : FieldData) (records : List FieldData) → has_line (d ∷ records) ≡ codes "has yes\n" }
    ensures no_int32 { int32_line None ≡ codes "int32 none\n" }
    ensures int32 { (v : ℤ) → int32_line (Some v) ≡ (codes "int32 " ++ signed_decimal v) ++ codes "\n" }
    ensures no_string { string_line None ≡ codes "string none\n" }
    ensures string { (text : List ℕ) → string_line (Some text) ≡ (codes "string " ++ encode_lower text) ++ codes "\n" }
    ensures ints { (vs : List ℤ) → ints_line vs ≡ (codes "ints" ++ words_of vs) ++ codes "\n" }
    ensures words { (vs : List ℤ) → words_of vs ≡ flat_map (λ v. codes " " ++ signed_decimal v) vs }
{}

/// Which definition says the reply of each command.
pub fn commands_are_answered_so()
    ensures read { (n : ℕ) (input : List ℕ) (reply : Reply) →
        RepliesTo (Command.Read n) input reply ↔ RepliesToRead n input reply }
    ensures write { (n : ℕ) (input : List ℕ) (reply : Reply) →
        RepliesTo (Command.Write n) input reply ↔ RepliesToWrite n input reply }
    ensures rewrite { (n : ℕ) (input : List ℕ) (reply : Reply) →
        RepliesTo (Command.Rewrite n) input reply ↔ RepliesToRewrite n input reply }
    ensures ext { (n : ℕ) (input : List ℕ) (reply : Reply) →
        RepliesTo (Command.Ext n) input reply ↔ RepliesToExt n input reply }
    ensures item { (input : List ℕ) (reply : Reply) → RepliesTo Command.Item input reply ↔ RepliesToItem input reply }
    ensures node { (input : List ℕ) (reply : Reply) → RepliesTo Command.AgainNode input reply
        ↔ RepliesToAgain node_merged node_cost node_encoding blank_node input reply }
    ensures set { (input : List ℕ) (reply : Reply) → RepliesTo Command.AgainSet input reply
        ↔ RepliesToAgain set_merged set_cost set_encoding [] input reply }
{}

/// Which reply a call gives: to words that are no command the usage line; to a command its reply to the input, or that memory ran
/// out, where no call of the input failed; and where one failed, that the input failed, and nothing else. Of streams that don't tell
/// it, any may have failed.
pub fn calls_are_answered_so()
    ensures words { (from : Source) (reply : Reply) → Answers None from reply ↔ (reply ≡ wrong_words) }
    ensures command { (c : Command) (from : Source) (reply : Reply) → Answers (Some c) from reply
        ↔ (((input : List ℕ) × IfSome from.bytes (λ xs. input ≡ xs) × RepliesTo c input reply × (from.failed ≡ false))
        ⊎ (((reply ≡ no_memory) × (from.failed ≡ false)) ⊎ ((reply ≡ broken) × (from.failed ≡ true)))) }
    ensures call { (words : List (Bor (List ℕ))) (from : Source) (out err : StreamChange) (status : ℕ) →
        AnswersCall words from out err status
        ↔ ((reply : Reply) × Answers (command_of (map (λ w. w.now) words)) from reply × GivesReply reply out err status) }
    ensures any_call { (words : List (Bor (List ℕ))) (input out held err said : Known) (status : ℕ) →
        AnswersAnyCall words input out held err said status
        ↔ ((input_failed : Bool) × (output_failed : Bool) × (errors_failed : Bool)
        × AnswersCall words (record { bytes = input; failed = input_failed })
        (record { old = out; new = held; failed = output_failed }) (record { old = err; new = said; failed = errors_failed })
        status × ((input_failed ≡ true) ⊎ (output_failed ≡ true) → status ≡ 3)) }
{}
