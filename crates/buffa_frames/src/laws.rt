//! Laws of frames: what the definitions say together. Each law is a function with nothing to do, whose contract is the law.

ghost use Rattle.std.specs.Prelude.{◌≡◌, ◌<◌, ◌≤◌, ◌+◌, ◌^◌, ◌++◌, ℕ, List, length};
ghost use Rattle.std.specs.List.{All};
ghost use Rattle.buffa_bytes.specs.Values.{delimited_encoding};
ghost use Rattle.buffa_bytes.specs.Varint.{varint_encoding};
ghost use Rattle.buffa_frames.specs.AtFront.{IsFrameAt, ReadsFront};
ghost use Rattle.buffa_frames.specs.Frames.{AreFrames, IsFrame, NeedsMore, frames_encoding};
ghost use Rattle.buffa_frames.specs.declared.at_front.Front.{Front};

/// Bytes have one answer: a frame at the front, how many bytes more, or why there is none.
pub fn bytes_have_one_front()
    ensures { (maximum : ℕ) (bytes : List ℕ) (one other : Front) → ReadsFront maximum bytes one →
        ReadsFront maximum bytes other → one ≡ other }
{}

/// What is written of a body is read as it, whatever follows.
pub fn a_written_frame_is_at_the_front()
    ensures { (maximum : ℕ) (body rest : List ℕ) → length body ≤ maximum → length body < 2 ^ 64 →
        let digits = length (varint_encoding (length body)) in
        IsFrameAt maximum (delimited_encoding body ++ rest) digits (digits + length body) }
{}

/// Wherever a frame is cut, more is wanted: no more than was cut off.
pub fn a_cut_frame_wants_more()
    ensures { (maximum : ℕ) (frame body front rest : List ℕ) → IsFrame frame body → length body ≤ maximum →
        frame ≡ front ++ rest → 0 < length rest → (fewest : ℕ) × NeedsMore maximum front fewest × (fewest ≤ length rest) }
{}

/// What is written of bodies, one after the other, is frames of these bodies.
pub fn written_frames_are_frames()
    ensures { (bodies : List (List ℕ)) → All (λ body. length body < 2 ^ 64) bodies → AreFrames bodies (frames_encoding bodies) }
{}

/// Bytes are frames of one list of bodies.
pub fn frames_have_one_reading()
    ensures { (bytes : List ℕ) (one other : List (List ℕ)) → AreFrames one bytes → AreFrames other bytes → one ≡ other }
{}
