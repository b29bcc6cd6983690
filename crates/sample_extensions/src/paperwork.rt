//! The papers that go with a shipment: a MessageSet, whose Items are extensions.

ghost use Rattle.std.specs.Prelude.{◌≡◌, codes, string_bytes, IfOk, OnErr, OnOk};
ghost use Rattle.buffa_ext.specs.SetsAndClears.{IsSet};
ghost use Rattle.buffa_types.specs.TypeUrl.{url_of};

use crate::messages::extensions::customs_paper;
use crate::messages::{Customs, Papers};
use buffa_ext::codecs::MessageCodec;
use buffa_ext::{ExtensionCodec, ExtensionSet};
use buffa_fields::{Blank, Decode, DecodeError, EncodeError};
use buffa_types::Any;
use std::alloc::Global;
use std::string::String;

/// Which goods the papers declare; none where no paper of the customs is there, or it names none.
///
/// # Errors
/// Where the bytes are no MessageSet, or that paper is malformed, or memory runs out.
pub fn declared_goods(alloc: Global, bytes: &[u8]) -> Result<Option<String>, DecodeError> {
    let papers = Papers::decode_from_slice(alloc, bytes)?;
    let Some(customs) = papers.read_extension(alloc, &customs_paper())? else {
        return Ok(None);
    };
    Ok(customs.goods)
}

/// Adds the paper of the customs, in the place of one that is there.
///
/// # Errors
/// Where the paper is too large to be written, or memory runs out; nothing is changed then.
pub fn declare(alloc: Global, papers: &mut Papers, customs: Customs) -> Result<(), EncodeError>
    ensures ok { OnOk result (IsSet 1000 (⟦<MessageCodec<Customs> as ExtensionCodec>⟧.extension_data
        (⟦<Customs as Blank>⟧.meaning customs)) papers.old.unknown_fields papers.new.unknown_fields) }
    ensures err { OnErr result (papers.new ≡ papers.old) }
{
    papers.set_extension(alloc, &customs_paper(), customs)
}

/// Takes the paper of the customs out.
pub fn withdraw(papers: &mut Papers) {
    papers.clear_extension(&customs_paper());
}

/// The paper in an `Any`, which can hold any type of paper.
///
/// # Errors
/// Where the paper is too large to be written, or memory runs out.
pub fn packed(alloc: Global, customs: &Customs) -> Result<Any, EncodeError>
    ensures url { IfOk result (λ any. string_bytes any.type_url ≡ url_of (codes "buffa.sample.Customs")) }
{
    Any::pack(alloc, customs)
}

/// The paper in an `Any`; none where that holds another type.
///
/// # Errors
/// Where the paper is malformed, or memory runs out.
pub fn unpacked(alloc: Global, any: &Any) -> Result<Option<Customs>, DecodeError> {
    any.unpack::<Customs>(alloc)
}
