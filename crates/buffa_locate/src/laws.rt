//! Laws of places: what the definitions say together. Each law is a function with nothing to do, whose contract is the law.

ghost use Rattle.std.specs.Prelude.{◌≡◌, ◌≤◌, ℕ, List, take};
ghost use Rattle.buffa_bytes.specs.Field.{SomeField};
ghost use Rattle.buffa_bytes.specs.Join.{Join};
ghost use Rattle.buffa_wire.specs.BudgetLeft.{BudgetLeft};
ghost use Rattle.buffa_locate.specs.Places.{AreAllMerged, IsFirstRefused};
ghost use Rattle.buffa_locate.specs.declared.refused.Refused.{Refused};

use buffa_wire::Message;

/// Bytes that have a first refused record aren't accepted.
pub fn bytes_with_a_refused_record_are_refused<M: Message>()
    ensures { (d : ℕ) (old : M.Meaning) (bytes : List ℕ) (before : BudgetLeft) (found : Refused) →
        IsFirstRefused M.merged M.cost M.Refused d old bytes before found →
        AreAllMerged (M.merged d old bytes) (M.cost d bytes) before → ⊥ }
{}

/// What is in front of the first refused record is accepted.
pub fn what_is_in_front_is_accepted<M: Message>()
    ensures { (d : ℕ) (old : M.Meaning) (bytes : List ℕ) (before : BudgetLeft) (found : Refused) →
        IsFirstRefused M.merged M.cost M.Refused d old bytes before found →
        AreAllMerged (M.merged d old (take found.at bytes)) (M.cost d (take found.at bytes)) before }
{}

/// No record in front of it is refused: bytes that end behind some of the fields there are accepted.
pub fn no_earlier_record_is_refused<M: Message>()
    ensures { (d : ℕ) (old : M.Meaning) (bytes : List ℕ) (before : BudgetLeft) (found : Refused) (n : ℕ) →
        IsFirstRefused M.merged M.cost M.Refused d old bytes before found → n ≤ found.at → Join (SomeField d) (take n bytes) →
        AreAllMerged (M.merged d old (take n bytes)) (M.cost d (take n bytes)) before }
{}

/// Bytes have one first refused record.
pub fn bytes_have_one_first_refused_record<M: Message>()
    ensures { (d : ℕ) (old : M.Meaning) (bytes : List ℕ) (before : BudgetLeft) (one other : Refused) →
        IsFirstRefused M.merged M.cost M.Refused d old bytes before one →
        IsFirstRefused M.merged M.cost M.Refused d old bytes before other →
        one.at ≡ other.at }
{}
