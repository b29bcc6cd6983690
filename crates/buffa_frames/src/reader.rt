//! The frames of a stream, one after the other.

ghost use Rattle.std.specs.Prelude.{◌≡◌, ◌<◌, ◌≤◌, ◌+◌, ℕ, List, [], IfErr, IfOk, MatchResult, OnErr, OnOk};
ghost use Rattle.std.specs.Prelude.{drop, false, length, take, vec_capacity};
ghost use Rattle.std.specs.Io.KnownBytes.{ReadConsumes};
ghost use Rattle.buffa_frames.specs.Frames.{IsNoFrame, TakesFrame};
ghost use Rattle.buffa_frames.specs.declared.error.FrameError.TheVariants.{OutOfMemory};
ghost use Rattle.buffa_frames.specs.Stream.{Fills, IsHindered, IsPart, IsMissing, ReadsBehind, ReadsOn, StopsFrame, pending};

use crate::at_front::{Front, LengthFront, frame_at_front, length_at_front};
use crate::error::{FrameError, FrameFault};
use std::alloc::{AllocError, Global};
use std::io;
use std::io::Read;

// The most bytes that are asked of a stream at once.
const PIECE: usize = 65_536;

// Makes the vector `want` bytes longer. It asks for room for as much again as it holds, but for no more than is missing, so
// that it grows seldom, and never past the frame.
fn grow(held: &mut Vec<u8>, want: usize, missing: usize) -> Result<(), AllocError>
    requires { (want ≤ missing) × (want ≤ 65536) }
    ensures items { take (length held.old.items) held.new.items ≡ held.old.items }
    ensures len { OnOk result (length held.new.items ≡ length held.old.items + want) }
    ensures err { OnErr result (held.new.items ≡ held.old.items) }
    ensures full { OnErr result (vec_capacity held.new < length held.old.items + missing) }
{
    let len = held.len();
    held.reserve_exact(len.max(want).min(missing))?;
    held.resize(len + want, 0)
}

// One read, into the bytes from `at` on.
fn read_at<R: Read>(stream: &mut R, bytes: &mut [u8], at: usize) -> io::Result<usize>
    requires { at < length bytes.old }
    ensures front { take at bytes.new ≡ take at bytes.old }
    ensures many { length bytes.new ≡ length bytes.old }
    ensures bytes { ReadConsumes (R.remaining stream.old) (R.remaining stream.new) result (drop at bytes.new) }
    ensures bound { IfOk result (λ n. at + n ≤ length bytes.old) }
{
    stream.read(&mut bytes[at..])
}

// Reads some of the bytes that are missing, and puts them behind those that are held.
fn read_behind<R: Read>(
    stream: &mut R,
    held: &mut Vec<u8>,
    missing: usize,
) -> Result<usize, FrameError>
    requires { 0 < missing }
    ensures ok { IfOk result (λ n. ReadsBehind n missing held.old.items held.new.items (R.remaining stream.old)
        (R.remaining stream.new)) }
    ensures err { IfErr result (λ e. IsHindered e held.old.items held.new.items (R.remaining stream.old)
        (R.remaining stream.new)) }
    ensures full { IfErr result (λ e. e ≡ OutOfMemory → vec_capacity held.new < length held.old.items + missing) }
{
    let len = held.len();
    grow(held, missing.min(PIECE), missing)?;
    match read_at(stream, held.as_mut_slice(), len) {
        Ok(n) => {
            held.truncate(len + n);
            Ok(n)
        }
        Err(error) => {
            held.truncate(len);
            Err(FrameError::Stream(error))
        }
    }
}

// How many bytes are missing of the frame at the front: none where it is there, and one where its length isn't.
fn missing_of(held: &[u8], maximum: usize) -> Result<usize, FrameFault>
    ensures ok { IfOk result (IsMissing maximum held.now) }
    ensures err { IfErr result (IsNoFrame maximum held.now) }
{
    match length_at_front(held, maximum) {
        LengthFront::Bad(fault) => Err(fault),
        LengthFront::Begun { .. } => Ok(1),
        LengthFront::Whole { length, digits } => Ok(length.saturating_sub(held.len() - digits)),
    }
}

// Reads on until the held bytes are a frame, or the stream ends.
fn fill<R: Read>(stream: &mut R, held: &mut Vec<u8>, maximum: usize) -> Result<bool, FrameError>
    requires { IsPart maximum held.old.items }
    ensures reads { ReadsOn held.old.items held.new.items (R.remaining stream.old) (R.remaining stream.new) }
    ensures ok { IfOk result (λ there. Fills maximum held.new.items (R.remaining stream.new) there) }
    ensures err { IfErr result (λ e. StopsFrame maximum held.new.items (R.remaining stream.new) e) }
    ensures full { IfErr result (λ e. e ≡ OutOfMemory → vec_capacity held.new < maximum + 10) }
    ensures part { IsPart maximum held.new.items }
    ensures short { length held.old.items ≤ maximum + 10 → length held.new.items ≤ maximum + 10 }
{
    let mut missing = missing_of(held, maximum)?;
    while missing > 0 {
        if read_behind(stream, held, missing)? == 0 {
            return if held.is_empty() {
                Ok(false)
            } else {
                Err(FrameError::Cut)
            };
        }
        missing = missing_of(held, maximum)?;
    }
    Ok(true)
}

/// Reads the frames of a stream, one after the other, and holds one at a time.
///
/// It asks the stream for no byte behind a frame, and for none behind a length that is refused: the length is read byte by
/// byte. So where each call of the stream is dear, let it read a `BufReader`. It holds at most `maximum` and ten bytes, and asks
/// for memory as the bytes come in, whatever the length says.
///
/// ```ignore
/// let mut frames = FrameReader::new(alloc, log, LONGEST);
/// let there = frames.next_frame()?;
/// let reading = Reading::decode_from_slice(alloc, frames.frame())?;
/// ```
#[derive(Drop)]
pub struct FrameReader<R> {
    stream: R,
    maximum: usize,
    held: Vec<u8>,
    given: bool,
    ghost part: { IsPart maximum held.items },
    ghost short: { length held.items ≤ maximum + 10 },
}

impl<R> FrameReader<R> {
    /// A reader of a stream that stands in front of a frame. Frames whose body has more than `maximum` bytes are refused.
    ///
    /// It takes no memory.
    ///
    /// ```ignore
    /// let mut frames = FrameReader::new(alloc, log, LONGEST);
    /// ```
    pub fn new(alloc: Global, stream: R, maximum: usize) -> FrameReader<R>
        ensures stream { result.stream ≡ stream }
        ensures maximum { result.maximum ≡ maximum }
        ensures held { result.held.items ≡ [] }
        ensures given { result.given ≡ false }
    {
        FrameReader {
            stream,
            maximum,
            held: Vec::new(alloc),
            given: false,
        }
    }

    /// The stream, which stands behind what was read of it. What is held of a frame that isn't whole is let go.
    ///
    /// ```ignore
    /// let rest = frames.into_inner();
    /// ```
    pub fn into_inner(self) -> R
        ensures { result ≡ self.stream }
    {
        self.stream
    }

    /// The body of the frame that [`FrameReader::next_frame`] found; no bytes where it found none.
    ///
    /// ```ignore
    /// let reading = Reading::decode_from_slice(alloc, frames.frame())?;
    /// ```
    pub fn frame(&self) -> &[u8]
        ensures body { (body rest : List ℕ) → TakesFrame self.now.maximum self.now.held.items body rest → result.now ≡ body }
        ensures none { ((body rest : List ℕ) → TakesFrame self.now.maximum self.now.held.items body rest → ⊥) → result.now ≡ [] }
    {
        match frame_at_front(&self.held, self.maximum) {
            Front::Frame { start, end } => &self.held[start..end],
            Front::More { .. } => &[],
            Front::Refused(_) => &[],
        }
    }
}

impl<R> FrameReader<R> {
    // Lets go of the frame that was given.
    #[tactic(auto, using(crate::proofs::StreamLemmas::part_of_none))]
    fn let_go(&mut self)
        ensures held { self.new.held.items ≡ pending self.old.given self.old.held.items }
        ensures given { self.new.given ≡ false }
        ensures maximum { self.new.maximum ≡ self.old.maximum }
        ensures stream { self.new.stream ≡ self.old.stream }
    {
        if !self.given {
            return;
        }
        self.held.clear();
        self.given = false;
    }
}

impl<R: Read> FrameReader<R> {
    /// Reads the next frame, and tells whether there is one: `false` where the stream ends in front of it.
    ///
    /// # Errors
    /// [`FrameError::Refused`] where the stream's bytes begin no frame of at most `maximum` bytes; it is told again then, and
    /// nothing more is read. [`FrameError::Cut`] where the stream ends within a frame. [`FrameError::Stream`] where a call of the
    /// stream failed, and [`FrameError::OutOfMemory`]: what was read of the frame is held then, and the next call goes on
    /// behind it.
    ///
    /// ```ignore
    /// let there = frames.next_frame()?;
    /// ```
    pub fn next_frame(&mut self) -> Result<bool, FrameError>
        ensures reads { ReadsOn (pending self.old.given self.old.held.items) self.new.held.items
            (R.remaining self.old.stream) (R.remaining self.new.stream) }
        ensures ok { IfOk result (λ there. Fills self.new.maximum self.new.held.items (R.remaining self.new.stream) there) }
        ensures err { IfErr result (λ e. StopsFrame self.new.maximum self.new.held.items (R.remaining self.new.stream) e) }
        ensures full { IfErr result (λ e. e ≡ OutOfMemory → vec_capacity self.new.held < self.new.maximum + 10) }
        // No byte was read in vain, and few are held.
        ensures part { IsPart self.new.maximum self.new.held.items }
        ensures short { length self.new.held.items ≤ self.new.maximum + 10 }
        ensures given { MatchResult result (λ there. self.new.given ≡ there) (λ _. self.new.given ≡ false) }
        ensures maximum { self.new.maximum ≡ self.old.maximum }
    {
        self.let_go();
        let there = fill(&mut self.stream, &mut self.held, self.maximum)?;
        self.given = there;
        Ok(there)
    }
}
