//! What the words mean of which the laws of replies and of commands are made. Each law is a function with nothing to do, whose
//! contract is the law.

ghost use Rattle.std.specs.Prelude.{◌≡◌, ◌≢◌, ◌⊎◌, ◌≤◌, ◌↔◌, ◌++◌, ◌∷◌, [], ℕ, List, None, Option, Some, codes, nat_eq, pos, true};
ghost use Rattle.std.specs.Cmp.Lexicographic.{pointwise};
ghost use Rattle.std.specs.Io.KnownBytes.{Appends};
ghost use Rattle.std.specs.List.{filter_map, last_or};
ghost use Rattle.buffa_codec.specs.Decoded.{last_read};
ghost use Rattle.buffa_wire.specs.Enums.{numbers};
ghost use Rattle.buffa_wire.specs.Records.{FieldData};
ghost use Rattle.buffamap.specs.Choice.{choice_of, two_numbers};
ghost use Rattle.buffamap.specs.Command.{IsNamed};
ghost use Rattle.buffamap.specs.Forms.{decimal};
ghost use Rattle.buffamap.specs.Lines.{same_key};
ghost use Rattle.buffamap.specs.Reply.{GivesReply, Reply, broken};
ghost use Rattle.buffamap.specs.Streams.{StreamChange};

use crate::command::Command;

/// Which words name which command: its name alone; `again` and a message; or its name and a field number, of one to nine
/// decimal digits. Nothing is left out.
pub fn names_of_commands_are_these()
    ensures read { (words : List (List ℕ)) (n : ℕ) → IsNamed words (Command.Read n) ↔ ((digits : List ℕ)
        × (words ≡ codes "read" ∷ digits ∷ []) × (decimal 9 digits ≡ Some n) × (1 ≤ n) × (n ≤ 536870911)) }
    ensures write { (words : List (List ℕ)) (n : ℕ) → IsNamed words (Command.Write n) ↔ ((digits : List ℕ)
        × (words ≡ codes "write" ∷ digits ∷ []) × (decimal 9 digits ≡ Some n) × (1 ≤ n) × (n ≤ 536870911)) }
    ensures rewrite { (words : List (List ℕ)) (n : ℕ) → IsNamed words (Command.Rewrite n) ↔ ((digits : List ℕ)
        × (words ≡ codes "rewrite" ∷ digits ∷ []) × (decimal 9 digits ≡ Some n) × (1 ≤ n) × (n ≤ 536870911)) }
    ensures ext { (words : List (List ℕ)) (n : ℕ) → IsNamed words (Command.Ext n) ↔ ((digits : List ℕ)
        × (words ≡ codes "ext" ∷ digits ∷ []) × (decimal 9 digits ≡ Some n) × (1 ≤ n) × (n ≤ 536870911)) }
    ensures item { (words : List (List ℕ)) → IsNamed words Command.Item ↔ (words ≡ codes "item" ∷ []) }
    ensures node { (words : List (List ℕ)) → IsNamed words Command.AgainNode ↔ (words ≡ codes "again" ∷ codes "node" ∷ []) }
    ensures set { (words : List (List ℕ)) → IsNamed words Command.AgainSet ↔ (words ≡ codes "again" ∷ codes "set" ∷ []) }
{}

/// A call ends with the reply's status, and its text is on the output whole; or the status is 3, the output failed, and a
/// beginning of the text is there, which isn't all of it. The errors have their text whole, or a beginning of it where they
/// failed. Nothing is left out.
pub fn replies_are_given_so()
    ensures { (r : Reply) (out err : StreamChange) (status : ℕ) → GivesReply r out err status
        ↔ (((status ≡ r.status) × Appends out.old out.new r.text × (Appends err.old err.new r.complaint
        ⊎ (((front : List ℕ) × (rest : List ℕ) × (r.complaint ≡ front ++ rest) × (rest ≢ [])
        × Appends err.old err.new front) × (err.failed ≡ true))))
        ⊎ ((status ≡ 3) × (((front : List ℕ) × (rest : List ℕ) × (r.text ≡ front ++ rest) × (rest ≢ [])
        × Appends out.old out.new front) × (out.failed ≡ true)) × (Appends err.old err.new broken.complaint
        ⊎ (((front : List ℕ) × (rest : List ℕ) × (broken.complaint ≡ front ++ rest) × (rest ≢ [])
        × Appends err.old err.new front) × (err.failed ≡ true))))) }
{}

/// Two keys that `read N` reads are one where their bytes are. The last record counts that is read at all. The enum of
/// `rewrite N` declares the numbers that its values have, and its default is 0.
pub fn keys_records_and_numbers_are_these<V>()
    ensures key { same_key ≡ pointwise nat_eq }
    ensures last { (one : FieldData → Option V) (records : List FieldData) → last_read one records ≡ last_or None (filter_map one records) }
    ensures numbers { two_numbers ≡ numbers choice_of (pos 0) }
{}
