//! How streams are called, and whether a call of them failed.
ghost use Rattle.std.specs.Prelude.{◌≡◌, ℕ, Bool, false, List, [], ◌∷◌, Option};
ghost use Rattle.std.specs.Io.{ReadsAtMost, WritesAtMost};
ghost use Rattle.std.specs.Io.KnownBytes.{ReadConsumes, WriteAppends};
ghost use Rattle.buffamap.specs.Calls.{ReadFails, WriteFails};

use std::io;
use std::io::{Read, Sink, Write};

/// A reader that tells whether a call of it failed. After that it isn't called any more: no contract of std tells what a
/// reader is then.
pub trait ReadCalls {
    /// The bytes that reads will give from here on, where they are known.
    ghost remaining: { Self → Option (List ℕ) };

    /// Whether a call failed.
    ghost failed: { Self → Bool };

    /// The ghost names of what it was lent, which no call changes.
    ghost lenders: { Self → List ℕ } = { λ _. [] };

    /// One call, as of [`Read::read`].
    fn read(&mut self, piece: &mut [u8]) -> io::Result<usize>
        requires { failed self.old ≡ false }
        ensures bound { ReadsAtMost result piece.new }
        ensures bytes { ReadConsumes (remaining self.old) (remaining self.new) result piece.new }
        ensures failed { ReadFails (failed self.new) result }
        ensures kept { lenders self.new ≡ lenders self.old };
}

/// A writer that tells whether a call of it failed, and isn't called any more after that. A call fails too where it takes
/// no byte of a text that has one.
pub trait WriteCalls {
    /// The bytes that it holds, where they are known.
    ghost contents: { Self → Option (List ℕ) };

    /// Whether a call failed.
    ghost failed: { Self → Bool };

    /// The ghost names of what it was lent, which no call changes.
    ghost lenders: { Self → List ℕ } = { λ _. [] };

    /// One call, as of [`Write::write`].
    fn write(&mut self, text: &[u8]) -> io::Result<usize>
        requires { failed self.old ≡ false }
        ensures bound { WritesAtMost result text.now }
        ensures bytes { WriteAppends (contents self.old) (contents self.new) result text.now }
        ensures failed { WriteFails (failed self.new) result text.now }
        ensures kept { lenders self.new ≡ lenders self.old };
}

/// Any reader or writer, which is lent, and whether a call of it failed.
#[derive(Drop)]
pub struct AnyCalls<'a, S> {
    stream: &'a mut S,
    failed: bool,
}

impl<'a, S> AnyCalls<'a, S> {
    /// Lends a stream that wasn't called yet.
    pub fn new(stream: &'a mut S) -> AnyCalls<'a, S>
        ensures same_reference { result.stream.ghost_name ≡ stream.entry.ghost_name }
        ensures stream { result.stream.now ≡ stream.old }
        ensures failed { result.failed ≡ false }
    {
        AnyCalls {
            stream,
            failed: false,
        }
    }
}

impl<R: Read> ReadCalls for AnyCalls<'_, R> {
    ghost remaining = { λ s. R.remaining s.stream.now };

    ghost failed = { λ s. s.failed };

    ghost lenders = { λ s. s.stream.ghost_name ∷ [] };

    fn read(&mut self, piece: &mut [u8]) -> io::Result<usize> {
        let answer = self.stream.read(piece);
        self.failed = answer.is_err();
        answer
    }
}

impl<W: Write> WriteCalls for AnyCalls<'_, W> {
    ghost contents = { λ s. W.contents s.stream.now };

    ghost failed = { λ s. s.failed };

    ghost lenders = { λ s. s.stream.ghost_name ∷ [] };

    fn write(&mut self, text: &[u8]) -> io::Result<usize> {
        let answer = self.stream.write(text);
        self.failed = match &answer {
            Ok(n) => *n == 0 && !text.is_empty(),
            Err(_) => true,
        };
        answer
    }
}

// Bytes in memory, a call of which never fails.
impl<'a> ReadCalls for &'a [u8] {
    ghost remaining = { ⟦<&'a [u8] as Read>⟧.remaining };

    ghost failed = { λ _. false };

    fn read(&mut self, piece: &mut [u8]) -> io::Result<usize> {
        Read::read(self, piece)
    }
}

// A sink that keeps nothing, a call of which never fails.
impl WriteCalls for Sink {
    ghost contents = { ⟦<Sink as Write>⟧.contents };

    ghost failed = { λ _. false };

    fn write(&mut self, text: &[u8]) -> io::Result<usize> {
        Write::write(self, text)
    }
}
