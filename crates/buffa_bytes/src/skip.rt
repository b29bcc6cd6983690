//! Passing over a field that is not looked at.

ghost use Rattle.std.specs.Prelude.{◌≡◌, ◌≢◌, ◌<◌, length, OnErr};
ghost use Rattle.buffa_bytes.specs.Unread.{past_no_payload, IsTailOf};
ghost use Rattle.buffa_bytes.specs.Readings.{past, skip_at, group_at, Gives};

use crate::buf::Buf;
use crate::error::DecodeError;
use crate::tag::Tag;
use crate::varint::decode_varint;
use crate::wire_type::WireType;

// Passes over `n` bytes.
#[tactic(auto, using(crate::proofs::TailLemmas::tail_whole, crate::proofs::TailLemmas::tail_dropped), unfolding(crate::specs::Readings::past))]
fn skip_bytes<B: Buf>(buf: &mut B, n: u64) -> Result<(), DecodeError>
    ensures reads { Gives (λ _. B.unread buf.new) result (past n (B.unread buf.old)) }
    ensures short { length (B.unread buf.old) < n → B.unread buf.new ≡ B.unread buf.old }
    ensures kept { B.beyond buf.new ≡ B.beyond buf.old }
    ensures tail { IsTailOf (B.unread buf.new) (B.unread buf.old) }
{
    if n > buf.remaining() as u64 {
        return Err(DecodeError::UnexpectedEof);
    }
    buf.advance(n as usize);
    Ok(())
}

/// Passes over the payload of a field whose tag was read, with groups nested at most `depth` deep.
///
/// # Errors
/// The first fault of the payload: of a varint; [`DecodeError::UnexpectedEof`] where bytes are missing;
/// [`DecodeError::RecursionLimitExceeded`] at a start of group where `depth` is 0; inside a group the
/// faults of its tags and payloads, one level less deep; [`DecodeError::InvalidEndGroup`] for the end
/// tag of a group that is not open. It takes no memory. Where a group is refused, an end of the bytes is unread; the contract
/// leaves open which.
///
/// Source: the protobuf encoding guide, "Message Structure" and "Groups".
///
/// ```ignore
/// let tag = Tag::decode(&mut rest)?;
/// skip_field_depth(tag, &mut rest, depth)?; // `rest` is behind the field
/// ```
#[cycle(skip)]
#[tactic(auto, using(crate::proofs::TailLemmas::tail_whole, crate::proofs::TailLemmas::tail_more))]
pub fn skip_field_depth<B: Buf>(tag: Tag, buf: &mut B, depth: u32) -> Result<(), DecodeError>
    ensures reads { Gives (λ _. B.unread buf.new) result (skip_at depth tag.number tag.wire_type (B.unread buf.old)) }
    ensures end_stays { tag.wire_type ≡ WireType.EndGroup → B.unread buf.new ≡ B.unread buf.old }
    ensures left { tag.wire_type ≢ WireType.StartGroup →
        OnErr result (B.unread buf.new ≡ past_no_payload tag.wire_type (B.unread buf.old)) }
    ensures level { tag.wire_type ≡ WireType.StartGroup → depth ≡ 0 → B.unread buf.new ≡ B.unread buf.old }
    ensures kept { B.beyond buf.new ≡ B.beyond buf.old }
    ensures tail { IsTailOf (B.unread buf.new) (B.unread buf.old) }
{
    match tag.wire_type() {
        WireType::Varint => {
            decode_varint(buf)?;
            Ok(())
        }
        WireType::Fixed64 => skip_bytes(buf, 8),
        WireType::LengthDelimited => {
            let len = decode_varint(buf)?;
            skip_bytes(buf, len)
        }
        WireType::StartGroup => skip_group(tag.field_number(), buf, depth),
        WireType::EndGroup => Err(DecodeError::InvalidEndGroup(tag.field_number())),
        WireType::Fixed32 => skip_bytes(buf, 4),
    }
}

// Passes over the fields of a group, and its end tag.
#[cycle(skip)]
#[tactic(auto, using(crate::proofs::TailLemmas::tail_whole, crate::proofs::TailLemmas::tail_more))]
fn skip_group<B: Buf>(number: u32, buf: &mut B, depth: u32) -> Result<(), DecodeError>
    ensures reads { Gives (λ _. B.unread buf.new) result (group_at depth number (B.unread buf.old)) }
    ensures level { depth ≡ 0 → B.unread buf.new ≡ B.unread buf.old }
    ensures kept { B.beyond buf.new ≡ B.beyond buf.old }
    ensures tail { IsTailOf (B.unread buf.new) (B.unread buf.old) }
{
    if depth == 0 {
        return Err(DecodeError::RecursionLimitExceeded);
    }
    loop {
        let tag = Tag::decode(buf)?;
        if let WireType::EndGroup = tag.wire_type() {
            if tag.field_number() == number {
                return Ok(());
            }
            return Err(DecodeError::InvalidEndGroup(tag.field_number()));
        }
        skip_field_depth(tag, buf, depth - 1)?;
    }
}
