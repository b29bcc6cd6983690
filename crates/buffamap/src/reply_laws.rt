//! What the program's definitions are, in plain words: statuses, digits, words and lines. Each law is a function with nothing
//! to do, whose contract is the law.

ghost use Rattle.std.specs.Prelude.{◌≡◌, ◌⊎◌, ◌≢◌, ◌≤◌, ◌<◌, ◌↔◌, ◌^◌, ◌++◌, ◌∷◌, ◌==◌, [], ℕ, ℤ, Bool, List, None, Some, codes, false, length, nat_eq, neg_ℤ, pos, true};
ghost use Rattle.std.specs.Char.{is_ascii_digit};
ghost use Rattle.std.specs.Cmp.Lexicographic.{pointwise, slice_cmp};
ghost use Rattle.std.specs.Fmt.{signed_decimal};
ghost use Rattle.std.specs.List.{flat_map, list_all, slice_split};
ghost use Rattle.std.specs.List.Sorted.{IsStrictlySortedBy};
ghost use Rattle.std.specs.Map.{keys_of};
ghost use Rattle.std.specs.Ordering.{nat_cmp};
ghost use Rattle.std.specs.Result.{result_ok};
ghost use Rattle.std.specs.Str.{is_utf8};
ghost use Rattle.std.specs.Str.Parse.{digits_value};
ghost use Rattle.hex.specs.Hex.{decode_of, encode_lower};
ghost use Rattle.buffa_bytes.specs.ErrorText.{decode_error_text, encode_error_text};
ghost use Rattle.buffa_map.specs.Pairs.{ListsOnce, put};
ghost use Rattle.buffamap.specs.Command.{IsNamed, command_of};
ghost use Rattle.buffamap.specs.Fault.{TellsFault, fault_reply};
ghost use Rattle.buffamap.specs.Forms.{decimal, hex_bytes, without_newline};
ghost use Rattle.buffamap.specs.Lines.{ListedInOrder, Pair, key_of, line_of, lines_of, map_in, pair_of, put_lines, value_of_text};
ghost use Rattle.buffamap.specs.Reply.{GivesReply, Reply, bad_input, broken, fault, hex_line, no_memory, success, wrong_words};
ghost use Rattle.buffamap.specs.Streams.{Known, StreamChange};

use crate::command::Command;
use crate::fault::Fault;
use buffa_wire::{DecodeError, EncodeError};

/// What each reply is: its status, its text on the output, and its text on the errors. Nothing is left out.
pub fn replies_are_these()
    ensures done { (text : List ℕ) → ((success text).status ≡ 0) × ((success text).text ≡ text)
        × ((success text).complaint ≡ []) }
    ensures refused { (name : List ℕ) → ((fault name).status ≡ 1)
        × ((fault name).text ≡ (codes "fault " ++ name) ++ codes "\n") × ((fault name).complaint ≡ []) }
    ensures words { (wrong_words.status ≡ 2) × (wrong_words.text ≡ []) × (wrong_words.complaint
        ≡ codes "usage: buffamap read N | write N | rewrite N | item | ext N | again node | again set\n") }
    ensures form { (bad_input.status ≡ 3) × (bad_input.text ≡ codes "fault input\n") × (bad_input.complaint ≡ []) }
    ensures stream { (broken.status ≡ 3) × (broken.text ≡ [])
        × (broken.complaint ≡ codes "buffamap: input or output failed\n") }
    ensures memory { (no_memory.status ≡ 4) × (no_memory.text ≡ codes "fault OutOfMemory\n")
        × (no_memory.complaint ≡ []) }
{}

/// A call whose streams don't fail ends with the reply's status, and its texts stand behind what the output and the errors
/// held. Nothing is left out.
pub fn replies_are_given_whole()
    ensures { (r : Reply) (out err : List ℕ) (a b : Known) (s : ℕ) →
        let output : StreamChange = record { old = Some out; new = a; failed = false } in
        let errors : StreamChange = record { old = Some err; new = b; failed = false } in
        GivesReply r output errors s
        ↔ ((s ≡ r.status) × (a ≡ Some (out ++ r.text)) × (b ≡ Some (err ++ r.complaint))) }
{}

/// Whichever stream fails, the output has a beginning of the reply's text behind what it held, and the errors have one of the
/// reply's text for them, or of the line on a failed stream, where it was the output that failed.
pub fn replies_are_begun_where_streams_fail()
    ensures output { (r : Reply) (out : List ℕ) (a : Known) (failed : Bool) (errors : StreamChange) (s : ℕ) →
        let output : StreamChange = record { old = Some out; new = a; failed = failed } in
        GivesReply r output errors s →
        (front rest : List ℕ) × (r.text ≡ front ++ rest) × (a ≡ Some (out ++ front)) }
    ensures errors { (r : Reply) (output : StreamChange) (err : List ℕ) (b : Known) (failed : Bool) (s : ℕ) →
        let errors : StreamChange = record { old = Some err; new = b; failed = failed } in
        GivesReply r output errors s →
        (text front rest : List ℕ) × ((text ≡ r.complaint) ⊎ ((text ≡ broken.complaint) × (output.failed ≡ true)))
        × (text ≡ front ++ rest) × (b ≡ Some (err ++ front)) }
{}

/// Which reply tells which fault. Nothing is left out.
pub fn faults_are_reported_so()
    ensures words { fault_reply Fault.Words ≡ wrong_words }
    ensures form { fault_reply Fault.Form ≡ bad_input }
    ensures stream { fault_reply Fault.Stream ≡ broken }
    ensures memory { fault_reply Fault.OutOfMemory ≡ no_memory }
    ensures bytes { (e : DecodeError) → fault_reply (Fault.RefusedBytes e) ≡ fault (decode_error_text e) }
    ensures encoding { (e : EncodeError) → fault_reply (Fault.RefusedEncoding e) ≡ fault (encode_error_text e) }
{}

/// Which reply is given of a fault: the one that tells it. Of bytes and of encodings that are refused it may be that memory ran out,
/// since the line that names their fault takes memory; and of no other fault. Nothing is left out.
pub fn faults_are_given_so()
    ensures words { (out err : StreamChange) (status : ℕ) → TellsFault Fault.Words out err status
        ↔ GivesReply wrong_words out err status }
    ensures form { (out err : StreamChange) (status : ℕ) → TellsFault Fault.Form out err status
        ↔ GivesReply bad_input out err status }
    ensures stream { (out err : StreamChange) (status : ℕ) → TellsFault Fault.Stream out err status
        ↔ GivesReply broken out err status }
    ensures memory { (out err : StreamChange) (status : ℕ) → TellsFault Fault.OutOfMemory out err status
        ↔ GivesReply no_memory out err status }
    ensures bytes { (e : DecodeError) (out err : StreamChange) (status : ℕ) → TellsFault (Fault.RefusedBytes e) out err status
        ↔ (GivesReply (fault (decode_error_text e)) out err status ⊎ GivesReply no_memory out err status) }
    ensures encoding { (e : EncodeError) (out err : StreamChange) (status : ℕ) →
        TellsFault (Fault.RefusedEncoding e) out err status
        ↔ (GivesReply (fault (encode_error_text e)) out err status ⊎ GivesReply no_memory out err status) }
{}

/// What the forms of words and inputs are: decimal digits, hexadecimal digits, a line of these, and a final newline.
pub fn forms_of_input_are_these()
    ensures decimal { (most n : ℕ) (ds : List ℕ) → (decimal most ds ≡ Some n)
        ↔ ((list_all is_ascii_digit ds ≡ true) × (1 ≤ length ds) × (length ds ≤ most) × (n ≡ digits_value 10 ds)) }
    ensures hex { (ds : List ℕ) → hex_bytes ds ≡ result_ok (decode_of ds) }
    ensures line { (bytes : List ℕ) → hex_line bytes ≡ encode_lower bytes ++ codes "\n" }
    ensures empty { without_newline [] ≡ [] }
    ensures newline { (text : List ℕ) → without_newline (text ++ 10 ∷ []) ≡ text }
    ensures other { (text : List ℕ) (c : ℕ) → c ≢ 10 → without_newline (text ++ c ∷ []) ≡ text ++ c ∷ [] }
{}

/// Which words are which command, and that no other words are one. A field number is one to nine decimal digits.
pub fn commands_are_these()
    ensures item { command_of (codes "item" ∷ []) ≡ Some Command.Item }
    ensures node { command_of (codes "again" ∷ codes "node" ∷ []) ≡ Some Command.AgainNode }
    ensures set { command_of (codes "again" ∷ codes "set" ∷ []) ≡ Some Command.AgainSet }
    ensures fields { (ds : List ℕ) (n : ℕ) → decimal 9 ds ≡ Some n → 1 ≤ n → n ≤ 536870911 →
        (command_of (codes "read" ∷ ds ∷ []) ≡ Some (Command.Read n))
        × (command_of (codes "write" ∷ ds ∷ []) ≡ Some (Command.Write n))
        × (command_of (codes "rewrite" ∷ ds ∷ []) ≡ Some (Command.Rewrite n))
        × (command_of (codes "ext" ∷ ds ∷ []) ≡ Some (Command.Ext n)) }
    ensures only { (words : List (List ℕ)) (c : Command) → command_of words ≡ Some c → IsNamed words c }
{}

/// What the lines are that `read N` writes: for each pair the key's bytes in hexadecimal, a space and the value in decimal, in
/// the order of the keys' bytes.
pub fn lines_are_these()
    ensures line { (key : List ℕ) (value : ℤ) → line_of (key, value)
        ≡ encode_lower key ++ codes " " ++ signed_decimal value ++ codes "\n" }
    ensures lines { (pairs : List Pair) → lines_of pairs ≡ flat_map line_of pairs }
    ensures order { (map pairs : List Pair) → ListedInOrder map pairs
        ↔ (ListsOnce (pointwise nat_eq) map pairs × IsStrictlySortedBy (slice_cmp nat_cmp) (keys_of pairs)) }
{}

/// Which keys and values the lines spell that `write N` reads: a key's bytes are UTF-8, and a value is within 32 bits.
pub fn words_of_lines_are_these()
    ensures key { (digits bytes : List ℕ) → hex_bytes digits ≡ Some bytes → is_utf8 bytes ≡ true → key_of digits ≡ Some bytes }
    ensures no_text { (digits bytes : List ℕ) → hex_bytes digits ≡ Some bytes → is_utf8 bytes ≡ false → key_of digits ≡ None }
    ensures no_bytes { (digits : List ℕ) → hex_bytes digits ≡ None → key_of digits ≡ None }
    ensures value { (c n : ℕ) (ds : List ℕ) → c ≢ 45 → decimal 10 (c ∷ ds) ≡ Some n → n < 2 ^ 31 →
        value_of_text (c ∷ ds) ≡ Some (pos n) }
    ensures too_large { (c n : ℕ) (ds : List ℕ) → c ≢ 45 → decimal 10 (c ∷ ds) ≡ Some n → 2 ^ 31 ≤ n →
        value_of_text (c ∷ ds) ≡ None }
    ensures no_digits { (c : ℕ) (ds : List ℕ) → c ≢ 45 → decimal 10 (c ∷ ds) ≡ None → value_of_text (c ∷ ds) ≡ None }
    ensures negative { (n : ℕ) (ds : List ℕ) → decimal 10 ds ≡ Some n → n ≤ 2 ^ 31 →
        value_of_text (45 ∷ ds) ≡ Some (neg_ℤ (pos n)) }
    ensures too_small { (n : ℕ) (ds : List ℕ) → decimal 10 ds ≡ Some n → 2 ^ 31 < n → value_of_text (45 ∷ ds) ≡ None }
    ensures no_negative { (ds : List ℕ) → decimal 10 ds ≡ None → value_of_text (45 ∷ ds) ≡ None }
    ensures nothing { value_of_text [] ≡ None }
{}

/// Which pair a line gives: a key and a value, and one space between them.
pub fn pairs_of_lines_are_these()
    ensures pair { (line key value k : List ℕ) (v : ℤ) → slice_split (λ b. b == 32) line ≡ key ∷ value ∷ [] →
        key_of key ≡ Some k → value_of_text value ≡ Some v → pair_of line ≡ Some (k, v) }
    ensures no_key { (line key value : List ℕ) → slice_split (λ b. b == 32) line ≡ key ∷ value ∷ [] →
        key_of key ≡ None → pair_of line ≡ None }
    ensures no_value { (line key value : List ℕ) → slice_split (λ b. b == 32) line ≡ key ∷ value ∷ [] →
        value_of_text value ≡ None → pair_of line ≡ None }
    ensures no_space { (line key : List ℕ) → slice_split (λ b. b == 32) line ≡ key ∷ [] → pair_of line ≡ None }
    ensures more { (line key value word : List ℕ) (rest : List (List ℕ)) →
        slice_split (λ b. b == 32) line ≡ key ∷ value ∷ word ∷ rest → pair_of line ≡ None }
{}

/// Which map a text of lines gives: the pairs of its lines, put one after the other; none where a line gives no pair.
pub fn maps_of_lines_are_these()
    ensures empty { map_in [] ≡ Some [] }
    ensures text { (c : ℕ) (more : List ℕ) → map_in (c ∷ more)
        ≡ put_lines (slice_split (λ b. b == 10) (without_newline (c ∷ more))) (Some []) }
    ensures put { (line : List ℕ) (more : List (List ℕ)) (map : List Pair) (p : Pair) → pair_of line ≡ Some p →
        put_lines (line ∷ more) (Some map) ≡ put_lines more (Some (put (pointwise nat_eq) map p.0 p.1)) }
    ensures no_pair { (line : List ℕ) (more : List (List ℕ)) (map : List Pair) → pair_of line ≡ None →
        put_lines (line ∷ more) (Some map) ≡ put_lines more None }
    ensures none { (lines : List (List ℕ)) → put_lines lines None ≡ None }
    ensures whole { (map : List Pair) → put_lines [] (Some map) ≡ Some map }
{}
