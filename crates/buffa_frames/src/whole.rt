//! All frames of a stream.

ghost use Rattle.std.specs.Prelude.{◌≡◌, ◌≢◌, ◌++◌, [], IfErr, IfOk, IfSome, OnOk, map, option_map, vec_items};
ghost use Rattle.buffa_frames.specs.Frames.{AreFrames};
ghost use Rattle.buffa_frames.specs.Stream.{GivesNext, StopsFrame, pending};
ghost use Rattle.buffa_frames.specs.declared.error.FrameError.TheVariants.{OutOfMemory};

use crate::error::FrameError;
use crate::reader::FrameReader;
use std::alloc::{AllocError, Global};
use std::io::Read;

// The bytes in a vector of their own.
fn copy_of(alloc: Global, bytes: &[u8]) -> Result<Vec<u8>, AllocError>
    ensures { IfOk result (λ copy. vec_items copy ≡ bytes.now) }
{
    let mut copy = Vec::new(alloc);
    copy.extend_from_slice(bytes)?;
    Ok(copy)
}

impl<R: Read> FrameReader<R> {
    // The body of the next frame.
    fn next_body(&mut self, alloc: Global) -> Result<Option<Vec<u8>>, FrameError>
        ensures next { IfOk result (λ next. GivesNext self.old.maximum (pending self.old.given self.old.held.items)
            (R.remaining self.old.stream) (R.remaining self.new.stream) (option_map vec_items next)) }
        ensures given { OnOk result (pending self.new.given self.new.held.items ≡ []) }
        ensures fault { IfErr result (λ e. e ≢ OutOfMemory →
            StopsFrame self.new.maximum self.new.held.items (R.remaining self.new.stream) e) }
        ensures maximum { self.new.maximum ≡ self.old.maximum }
    {
        if self.next_frame()? {
            let body = copy_of(alloc, self.frame())?;
            return Ok(Some(body));
        }
        Ok(None)
    }

    /// The bodies of all frames that the stream still has, in order. It takes memory for all of them, so limit the stream, too.
    ///
    /// # Errors
    /// Those of [`FrameReader::next_frame`], and the reader is then as that call leaves it; or [`FrameError::OutOfMemory`], also
    /// where a body can't be copied. The frames that were read are let go.
    ///
    /// ```ignore
    /// let bodies = frames.read_to_end(alloc)?;
    /// ```
    pub fn read_to_end(&mut self, alloc: Global) -> Result<Vec<Vec<u8>>, FrameError>
        ensures frames { IfOk result (λ bodies. IfSome (R.remaining self.old.stream) (λ bytes.
            AreFrames (map vec_items bodies.items) (pending self.old.given self.old.held.items ++ bytes))) }
        ensures fault { IfErr result (λ e. e ≢ OutOfMemory →
            StopsFrame self.new.maximum self.new.held.items (R.remaining self.new.stream) e) }
        ensures maximum { self.new.maximum ≡ self.old.maximum }
    {
        let mut bodies = Vec::new(alloc);
        for _ in 0..u64::MAX {
            match self.next_body(alloc)? {
                Some(body) => bodies.push(body)?,
                None => return Ok(bodies),
            }
        }
        Err(FrameError::OutOfMemory)
    }
}
