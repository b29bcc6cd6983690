//! What the program sees of its streams, in plain words: each law is a function with nothing to do, whose contract is the law.

ghost use Rattle.std.specs.Prelude.{◌≡◌, ◌≢◌, ◌⊎◌, ◌↔◌, [], ℕ, Bool, Err, List, Ok, false, true};
ghost use Rattle.buffamap.specs.Calls.{ReadFails, WriteFails};
ghost use Rattle.buffamap.specs.Streams.{change, source};

use crate::calls::{AnyCalls, ReadCalls, WriteCalls};
use std::io::{Read, Write};

/// What is seen of a reader: the bytes that it had, and whether a call of it failed since. What is seen of a writer: what it held
/// and holds, and whether a call of it failed since. Nothing is left out.
pub fn streams_are_seen_so<A: ReadCalls, B: WriteCalls>()
    ensures source { (old new : A) → ((source A.remaining A.failed old new).bytes ≡ A.remaining old)
        × ((source A.remaining A.failed old new).failed ≡ A.failed new) }
    ensures change { (old new : B) → ((change B.contents B.failed old new).old ≡ B.contents old)
        × ((change B.contents B.failed old new).new ≡ B.contents new)
        × ((change B.contents B.failed old new).failed ≡ B.failed new) }
{}

/// A reader or a writer that is lent has and holds what it does by itself, and a call of it failed where that was noted. Nothing
/// is left out.
pub fn lent_streams_are_seen_so<R: Read, W: Write>()
    ensures reader { (s : _) → (⟦<AnyCalls<'static, R> as ReadCalls>⟧.remaining s ≡ R.remaining s.stream.now)
        × (⟦<AnyCalls<'static, R> as ReadCalls>⟧.failed s ≡ s.failed) }
    ensures writer { (s : _) → (⟦<AnyCalls<'static, W> as WriteCalls>⟧.contents s ≡ W.contents s.stream.now)
        × (⟦<AnyCalls<'static, W> as WriteCalls>⟧.failed s ≡ s.failed) }
{}

/// A read fails where it says so; a write where it says so, or takes no byte of a text that has one. Nothing is left out.
pub fn failed_calls_are_these<E>()
    ensures read { (failed : Bool) (n : ℕ) → ReadFails {E = E} failed (Ok n) ↔ (failed ≡ false) }
    ensures read_refused { (failed : Bool) (e : E) → ReadFails failed (Err e) ↔ (failed ≡ true) }
    ensures write { (failed : Bool) (n : ℕ) (text : List ℕ) → WriteFails {E = E} failed (Ok n) text
        ↔ (((n ≡ 0) × (text ≢ []) × (failed ≡ true)) ⊎ ((n ≡ 0 → text ≡ []) × (failed ≡ false))) }
    ensures write_refused { (failed : Bool) (e : E) (text : List ℕ) → WriteFails failed (Err e) text ↔ (failed ≡ true) }
{}
