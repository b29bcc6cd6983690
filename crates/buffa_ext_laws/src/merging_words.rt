//! What the words say by which the merging of messages in records is described: each law is a function with nothing to do, whose
//! contract is the law.

ghost use Rattle.std.specs.Prelude.{◌≡◌, ◌≢◌, ◌↔◌, ◌⊎◌, ℕ, Bool, List, [], ◌∷◌, ◌++◌, Err, Ok, Some, false, true};
ghost use Rattle.std.specs.List.{filter_map};
ghost use Rattle.buffa_bytes.specs.declared.error.DecodeError.{DecodeError};
ghost use Rattle.buffa_bytes.specs.declared.error.DecodeError.TheVariants.{OutOfMemory};
ghost use Rattle.buffa_wire.specs.BudgetLeft.{BudgetLeft, Pays, PaysAtMost};
ghost use Rattle.buffa_wire.specs.Message.{MergeFault, PartlyMerged};
ghost use Rattle.buffa_wire.specs.Records.{FieldData};
ghost use Rattle.buffa_wire.specs.declared.context.DecodeContext.{DecodeContext};
ghost use Rattle.buffa_ext.specs.Messages.{MergesOne, MergesRecords, PartlyMergedRecord, StopsPartlyMerged, cost_all, merged_all, some_there};

use buffa_ext::message_record::MessageRecord;
use buffa_wire::Message;

/// Merging the encoding in one record, at a context's depth, returns whether there is one, and spends exactly what it costs; a
/// refusal spends at most that, and is want of memory, or says why the encoding isn't merged. Where it is refused, the message is
/// as its type says, or memory ran out before any of it was merged.
pub fn one_record_is_merged_so<K: MessageRecord, M: Message>()
    ensures none { some_there [] ≡ false }
    ensures some { (b : List ℕ) (bs : List (List ℕ)) → some_there (b ∷ bs) ≡ true }
    ensures merged { (ctx : DecodeContext) (d : FieldData) (old new : M.Meaning) (some : Bool) (left : BudgetLeft) →
        MergesOne M.merged M.cost K.held ctx d old (Ok some) new left
        ↔ ((some ≡ some_there (filter_map K.held (d ∷ [])))
        × (merged_all (M.merged ctx.depth) old (filter_map K.held (d ∷ [])) ≡ Some new)
        × Pays ctx.budget.now (cost_all (M.cost ctx.depth) (filter_map K.held (d ∷ []))) left) }
    ensures refused { (ctx : DecodeContext) (d : FieldData) (old new : M.Meaning) (e : DecodeError) (left : BudgetLeft) →
        MergesOne M.merged M.cost K.held ctx d old (Err e) new left
        ↔ (PaysAtMost ctx.budget.now (cost_all (M.cost ctx.depth) (filter_map K.held (d ∷ []))) left
        × (e ≢ OutOfMemory → MergeFault (merged_all (M.merged ctx.depth) old (filter_map K.held (d ∷ [])))
        (cost_all (M.cost ctx.depth) (filter_map K.held (d ∷ []))) ctx.budget.now e)) }
    ensures partly { (n : ℕ) (d : FieldData) (old new : M.Meaning) (before : BudgetLeft) (e : DecodeError) →
        PartlyMergedRecord M.merged M.cost M.Refused K.held n d old before e new
        ↔ ((t : List ℕ) × (K.held d ≡ Some t) × (PartlyMerged M.merged M.cost M.Refused n old t before e new
        ⊎ ((e ≡ OutOfMemory) × (new ≡ old)))) }
{}

/// Merging the encodings in records, one after the other, returns whether there was one, and spends exactly what they cost
/// together; or it stops at the first one that is refused. Those before it are merged and paid for, of its own cost at most all is
/// spent, and of those behind it nothing is.
pub fn merged_records_are_these<K: MessageRecord, M: Message>()
    ensures merged { (n : ℕ) (ds : List FieldData) (old new : M.Meaning) (before left : BudgetLeft) (some : Bool) →
        MergesRecords (M.merged n) (M.cost n) K.held (K.asks n) ds old before (Ok some) new left
        ↔ ((some ≡ some_there (filter_map K.held ds)) × (merged_all (M.merged n) old (filter_map K.held ds) ≡ Some new)
        × Pays before (cost_all (M.cost n) (filter_map K.held ds)) left) }
    ensures refused { (n : ℕ) (ds : List FieldData) (old new : M.Meaning) (before after : BudgetLeft) (e : DecodeError) →
        MergesRecords (M.merged n) (M.cost n) K.held (K.asks n) ds old before (Err e) new after
        ↔ ((front : List FieldData) × (d : FieldData) × (back : List FieldData) × (mid : M.Meaning) × (left : BudgetLeft)
        × (ds ≡ front ++ d ∷ back) × ((merged_all (M.merged n) old (filter_map K.held front) ≡ Some mid)
        × Pays before (cost_all (M.cost n) (filter_map K.held front)) left)
        × (t : List ℕ) × (K.held d ≡ Some t) × PaysAtMost left (M.cost n t) after × (e ≡ OutOfMemory → K.asks n d)
        × (e ≢ OutOfMemory → MergeFault (M.merged n mid t) (M.cost n t) left e)) }
    ensures partly { (n : ℕ) (ds : List FieldData) (old new : M.Meaning) (before after : BudgetLeft) (e : DecodeError) →
        StopsPartlyMerged (M.merged n) (M.cost n) K.held (K.asks n) (PartlyMergedRecord M.merged M.cost M.Refused K.held n) ds old
        before e new after
        ↔ ((front : List FieldData) × (d : FieldData) × (back : List FieldData) × (mid : M.Meaning) × (left : BudgetLeft)
        × (ds ≡ front ++ d ∷ back) × ((merged_all (M.merged n) old (filter_map K.held front) ≡ Some mid)
        × Pays before (cost_all (M.cost n) (filter_map K.held front)) left)
        × ((t : List ℕ) × (K.held d ≡ Some t) × PaysAtMost left (M.cost n t) after × (e ≡ OutOfMemory → K.asks n d)
        × (e ≢ OutOfMemory → MergeFault (M.merged n mid t) (M.cost n t) left e))
        × PartlyMergedRecord M.merged M.cost M.Refused K.held n d mid left e new) }
{}
