//! What the definitions of the program say together: each law is a function with nothing to do, whose contract is
//! the law.

ghost use Rattle.std.specs.Prelude.{◌≡◌, ◌≢◌, ℤ, None, Some, if◌then◌else◌, pos, false};
ghost use Rattle.std.specs.Ordering.{int_eq};
ghost use Rattle.buffa_bytes.specs.Number.{IsNumber};
ghost use Rattle.buffamap.specs.Again.{RepliesToAgain};
ghost use Rattle.buffamap.specs.Choice.{choice_of, choice_number};
ghost use Rattle.buffamap.specs.Ext.{RepliesToExt};
ghost use Rattle.buffamap.specs.Item.{RepliesToItem};
ghost use Rattle.buffamap.specs.Pinned.{CallIsPinned, HasReply, ReplyIsPinned, ReplyIsPinnedButForFaults};
ghost use Rattle.buffamap.specs.Read.{RepliesToRead};
ghost use Rattle.buffamap.specs.Rewrite.{RepliesToRewrite, RewriteKeepsMeaning};
ghost use Rattle.buffamap.specs.Write.{RepliesToWrite};

use crate::calls::{ReadCalls, WriteCalls};
use crate::choice::Choice;
use crate::fault::Fault;
use buffa_map::map_codec::{ClosedEnum, Int32, RewriteError};
use buffa_wire::{Blank, DecodeError, EncodeError, Enumeration, MessageSpec};
use hex::FromHexError;
use std::alloc::{AllocError, AllocFailed};
use std::io::{Read, Sink, Write};

/// `read N` has one reply to each input. When memory runs out isn't said: the reply may be that it did.
pub fn one_reply_to_read(number: u32)
    ensures one { ReplyIsPinned (RepliesToRead number) }
    ensures there { HasReply (RepliesToRead number) }
{}

/// `write N` has one reply to each input. When memory runs out isn't said: the reply may be that it did.
pub fn one_reply_to_write(number: u32)
    ensures one { ReplyIsPinned (RepliesToWrite number) }
    ensures there { HasReply (RepliesToWrite number) }
{}

/// `rewrite N` has one reply to each input. When memory runs out isn't said: the reply may be that it did.
pub fn one_reply_to_rewrite(number: u32)
    ensures one { ReplyIsPinned (RepliesToRewrite number) }
    ensures there { HasReply (RepliesToRewrite number) }
{
    buffa_map_laws::map_fields::runs_are_read::<Int32, ClosedEnum<Choice>>();
}

/// What `rewrite N` writes keeps the meaning of what it reads: `law_12` of `buffa`, of the program's reply. A reader of an
/// enum that declares more reads from both the same map, if the run is ordered, and keeps the same entries.
pub fn rewrites_keep_their_meaning(number: u32)
    requires { IsNumber number }
    ensures { RewriteKeepsMeaning number }
{
    buffa_map_laws::map_fields::rewrite_means::<Int32>();
    buffa_map_laws::map_fields::runs_are_read::<Int32, ClosedEnum<Choice>>();
    buffa_map_laws::map_fields::one_reading::<Int32, ClosedEnum<Choice>>();
}

/// `ext N` has one reply to each input. When memory runs out isn't said: the reply may be that it did.
pub fn one_reply_to_ext(number: u32)
    ensures one { ReplyIsPinned (RepliesToExt number) }
    ensures there { HasReply (RepliesToExt number) }
{}

/// `item` has one reply to each input. When memory runs out isn't said: the reply may be that it did.
pub fn one_reply_to_item()
    ensures one { ReplyIsPinned RepliesToItem }
    ensures there { HasReply RepliesToItem }
{}

/// `again` has one reply to each input that it accepts, and refuses every other; of any message. It doesn't say which
/// fault is named of bytes that are refused, nor when memory runs out: the reply may be that it did.
pub fn one_reply_to_again<M: MessageSpec>()
    ensures one { ReplyIsPinnedButForFaults (RepliesToAgain M.merged M.cost M.encoding M.blank_is) }
    ensures there { HasReply (RepliesToAgain M.merged M.cost M.encoding M.blank_is) }
{}

/// Which numbers the enum of `rewrite N` declares, and no others, by which values, and its default. Nothing is left out.
pub fn choices_are_these()
    ensures declared { (n : ℤ) → choice_of n
        ≡ (if int_eq n (pos 0) then Some Choice.A else if int_eq n (pos 1) then Some Choice.B else None) }
    ensures enumeration { ⟦<Choice as Enumeration>⟧.of_number ≡ choice_of }
    ensures numbers { (choice_number Choice.A ≡ pos 0) × (choice_number Choice.B ≡ pos 1) }
    ensures blank { ⟦<Choice as Blank>⟧.blank_is ≡ pos 0 }
{}

/// Which fault an error of a layer below is: no other, and out of memory where memory ran out. Nothing is left out.
pub fn faults_are_these<T: Drop>()
    ensures none { (e : AllocError) (f : Fault) → ⟦<Fault as From<AllocError>>⟧.from_gives e f → f ≡ Fault.OutOfMemory }
    ensures failed { (e : AllocFailed T) (f : Fault) → ⟦<Fault as From<AllocFailed<T>>>⟧.from_gives e f →
        f ≡ Fault.OutOfMemory }
    ensures digits { (e : FromHexError) (f : Fault) → ⟦<Fault as From<FromHexError>>⟧.from_gives e f →
        (e ≡ FromHexError.OutOfMemory → f ≡ Fault.OutOfMemory) × (e ≢ FromHexError.OutOfMemory → f ≡ Fault.Form) }
    ensures bytes { (e : DecodeError) (f : Fault) → ⟦<Fault as From<DecodeError>>⟧.from_gives e f →
        (e ≡ DecodeError.OutOfMemory → f ≡ Fault.OutOfMemory)
        × (e ≢ DecodeError.OutOfMemory → f ≡ Fault.RefusedBytes e) }
    ensures encoding { (e : EncodeError) (f : Fault) → ⟦<Fault as From<EncodeError>>⟧.from_gives e f →
        (e ≡ EncodeError.OutOfMemory → f ≡ Fault.OutOfMemory)
        × (e ≢ EncodeError.OutOfMemory → f ≡ Fault.RefusedEncoding e) }
    ensures read { (e : DecodeError) (f : Fault) → ⟦<Fault as From<RewriteError>>⟧.from_gives (RewriteError.Decode e) f →
        (e ≡ DecodeError.OutOfMemory → f ≡ Fault.OutOfMemory)
        × (e ≢ DecodeError.OutOfMemory → f ≡ Fault.RefusedBytes e) }
    ensures written { (e : EncodeError) (f : Fault) →
        ⟦<Fault as From<RewriteError>>⟧.from_gives (RewriteError.Encode e) f →
        (e ≡ EncodeError.OutOfMemory → f ≡ Fault.OutOfMemory)
        × (e ≢ EncodeError.OutOfMemory → f ≡ Fault.RefusedEncoding e) }
{}

/// A call of bytes in memory, as a reader, or of a sink that keeps nothing, as a writer, never fails; what is left to read is
/// these bytes, and what a sink has is what std says of it. Nothing is left out.
pub fn sure_calls_never_fail()
    ensures reader { (bytes : _) → ⟦<&'static [u8] as ReadCalls>⟧.failed bytes ≡ false }
    ensures writer { (sink : _) → ⟦<Sink as WriteCalls>⟧.failed sink ≡ false }
    ensures bytes { ⟦<&'static [u8] as ReadCalls>⟧.remaining ≡ ⟦<&'static [u8] as Read>⟧.remaining }
    ensures contents { ⟦<Sink as WriteCalls>⟧.contents ≡ ⟦<Sink as Write>⟧.contents }
{}

/// One call of the program has one status, and leaves its output and its errors in one way, where no call of its streams
/// failed; whichever failed, it has one output, if its status is neither 3 nor 4. Not promised: that memory ran out; which
/// fault `again` names of bytes that it refuses; how much of a line is on a stream that failed; and a reader or a
/// writer that doesn't tell its bytes.
pub fn one_answer_to_a_call(words: &[&str])
    ensures { CallIsPinned words.now }
{}
