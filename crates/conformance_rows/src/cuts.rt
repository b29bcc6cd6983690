// Slices that are read one after another, of any cut.

ghost use Rattle.std.specs.Prelude.{◌≡◌, ◌<◌, length, IfSome};
ghost use Rattle.buffa_bytes.specs.Pieces.{joined};

use buffa_wire::Pieces;

// The bytes of all slices, where they are fewer than 2^64.
#[tactic(auto, using(buffa_bytes::proofs::PieceLemmas::joined_step))]
fn total(pieces: &[&[u8]]) -> Option<usize>
    ensures { IfSome result (λ sum. sum ≡ length (joined pieces.now)) }
{
    let mut sum: usize = 0;
    for piece in pieces {
        sum = sum.checked_add(piece.len())?;
    }
    Some(sum)
}

/// Reads the slices in order.
pub fn pieces_of<'a>(pieces: &'a [&'a [u8]]) -> Option<Pieces<'a>> {
    total(pieces)?;
    Some(Pieces::new(pieces))
}
