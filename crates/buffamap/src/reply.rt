// What is told of a call: a line and an exit status.
ghost use Rattle.std.specs.Prelude.{◌≡◌, ◌⊎◌, ◌++◌, IfOk, codes, false, string_bytes, true};
ghost use Rattle.buffa_bytes.specs.ErrorText.{decode_error_text, encode_error_text};
ghost use Rattle.buffamap.specs.Fault.{TellsFault};
ghost use Rattle.buffamap.specs.Reply.{GivesLine, GivesReply, line, reply};
ghost use Rattle.buffamap.specs.Streams.{WritesOrBreaks, change};

use crate::calls::WriteCalls;
use crate::fault::Fault;
use crate::stream::write_whole;
use buffa_wire::{DecodeError, EncodeError};
use std::alloc::{AllocError, Global};

/// The line of words that are no command.
pub const USAGE: &[u8] =
    b"usage: buffamap read N | write N | rewrite N | item | ext N | again node | again set\n";

const FAILED: &[u8] = b"buffamap: input or output failed\n";

const BAD_INPUT: &[u8] = b"fault input\n";

const OUT_OF_MEMORY: &[u8] = b"fault OutOfMemory\n";

// Writes the line to the errors, and answers the status, also where they fail.
fn complain<C: WriteCalls>(status: u8, line: &[u8], errors: &mut C) -> u8
    requires { C.failed errors.old ≡ false }
    ensures status { result ≡ status }
    ensures line { WritesOrBreaks (change C.contents C.failed errors.old errors.new) line.now }
    ensures kept { C.lenders errors.new ≡ C.lenders errors.old }
{
    let _ = write_whole(errors, line);
    status
}

/// Writes the text to the output and returns the status; where the output fails, a line on the error stream says so.
pub fn finish<B: WriteCalls, C: WriteCalls>(
    status: u8,
    text: &[u8],
    output: &mut B,
    errors: &mut C,
) -> u8
    requires { (B.failed output.old ≡ false) × (C.failed errors.old ≡ false) }
    ensures reply { GivesReply (reply status text.now) (change B.contents B.failed output.old output.new)
        (change C.contents C.failed errors.old errors.new) result }
    ensures failed { B.failed output.new ≡ true → result ≡ 3 }
    ensures kept { (B.lenders output.new ≡ B.lenders output.old) × (C.lenders errors.new ≡ C.lenders errors.old) }
{
    match write_whole(output, text) {
        Ok(()) => status,
        Err(_) => complain(3, FAILED, errors),
    }
}

// The line that names why bytes are refused.
fn line_of_bytes(alloc: Global, error: DecodeError) -> Result<String, AllocError>
    ensures { IfOk result (λ text. string_bytes text ≡ line (codes "fault " ++ decode_error_text error)) }
{
    format!(in alloc; "fault {error}\n")
}

// The line that names why an encoding is refused.
fn line_of_encoding(alloc: Global, error: EncodeError) -> Result<String, AllocError>
    ensures { IfOk result (λ text. string_bytes text ≡ line (codes "fault " ++ encode_error_text error)) }
{
    format!(in alloc; "fault {error}\n")
}

// The line that names a fault was made, or there was no memory for it.
fn finish_named<B: WriteCalls, C: WriteCalls>(
    line: Result<String, AllocError>,
    output: &mut B,
    errors: &mut C,
) -> u8
    requires { (B.failed output.old ≡ false) × (C.failed errors.old ≡ false) }
    ensures line { GivesLine line (change B.contents B.failed output.old output.new)
        (change C.contents C.failed errors.old errors.new) result }
    ensures failed { B.failed output.new ≡ true → result ≡ 3 }
    ensures kept { (B.lenders output.new ≡ B.lenders output.old) × (C.lenders errors.new ≡ C.lenders errors.old) }
{
    match line {
        Ok(line) => finish(1, line.as_bytes(), output, errors),
        Err(AllocError) => finish(4, OUT_OF_MEMORY, output, errors),
    }
}

/// Tells a fault: makes of it a status and a line, and writes the line. A line that names a fault takes memory.
pub fn tell<B: WriteCalls, C: WriteCalls>(
    alloc: Global,
    fault: Fault,
    output: &mut B,
    errors: &mut C,
) -> u8
    requires { (B.failed output.old ≡ false) × (C.failed errors.old ≡ false) }
    ensures reported { TellsFault fault (change B.contents B.failed output.old output.new)
        (change C.contents C.failed errors.old errors.new) result }
    ensures failed { (fault ≡ Fault.Stream) ⊎ (B.failed output.new ≡ true) → result ≡ 3 }
    ensures usage { fault ≡ Fault.Words → output.new ≡ output.old }
    ensures kept { (B.lenders output.new ≡ B.lenders output.old) × (C.lenders errors.new ≡ C.lenders errors.old) }
{
    match fault {
        Fault::Words => complain(2, USAGE, errors),
        Fault::Stream => complain(3, FAILED, errors),
        Fault::Form => finish(3, BAD_INPUT, output, errors),
        Fault::OutOfMemory => finish(4, OUT_OF_MEMORY, output, errors),
        Fault::RefusedBytes(error) => finish_named(line_of_bytes(alloc, error), output, errors),
        Fault::RefusedEncoding(error) => finish_named(
            line_of_encoding(alloc, error),
            output,
            errors,
        ),
    }
}
