//! What the contracts leave out: any two answers that one of them allows for one input are one, but for what is
//! said beside each law.

ghost use Rattle.buffa_map_laws.specs.LeftOpen.{EntriesArePinned, RunsArePinned, ValueIsPinned};
ghost use Rattle.buffa_map_laws.specs.LeftOpenEncodings.{MapFieldIsPinned, MessagesArePinned, PutIsPinned, RewritesArePinned};

use buffa_map::map_codec::{MapCodec, MapStorage, MapValueDecode};
use buffa_wire::MessageSpec;

/// A payload is merged in one way only. It doesn't say which fault a malformed message has, and where memory runs out.
pub fn values_are_pinned<VC: MapValueDecode>()
    ensures { ValueIsPinned VC.reading }
{}

/// An entry is merged in one way only; where it is refused, there is one fault, and one budget is left. It doesn't say where
/// memory runs out; and where a payload is a message, which of its faults is returned, and what is spent for it.
pub fn entries_are_pinned<KC: MapValueDecode, VC: MapValueDecode>()
    ensures { EntriesArePinned KC.reading VC.reading }
{}

/// A run is read in one way only; where it is refused, there is one fault, after the same entries. It leaves out what
/// is left out of an entry.
pub fn runs_are_pinned<KC: MapValueDecode, VC: MapValueDecode>()
    ensures { RunsArePinned KC.reading VC.reading }
{}

/// A map field has one size and one encoding for one walk, and is refused at one entry. It doesn't say which walk a
/// storage gives that promises none, and where memory runs out.
pub fn map_fields_are_pinned<
    KC: MapCodec,
    VC: MapCodec,
    C: MapStorage<Key = KC::Value, Value = VC::Value>,
>()
    ensures { MapFieldIsPinned KC.writing VC.writing C.equal }
{}

/// A map field of small messages has one size, one encoding and one cache behind it. It doesn't say what is
/// announced and written where a message is too large, and where memory runs out.
pub fn message_fields_are_pinned<KC: MapCodec, M: MessageSpec>()
    ensures { MessagesArePinned KC.writing M.encoding M.slots }
{}

/// A run has one rewrite for one walk, and is refused for the bytes, or for the encoding, or not at all. It doesn't
/// say which walk a storage gives that promises none, and where memory runs out.
pub fn rewrites_are_pinned<
    KC: MapCodec,
    VC: MapCodec,
    C: MapStorage<Key = KC::Value, Value = VC::Value>,
>()
    ensures { RewritesArePinned KC.reading VC.reading C.equal C.keeps_order C.walks KC.writing VC.writing KC.fits VC.fits }
{}

/// A put keeps a stored key, and changes no other pair; where the order is kept, it leaves one list. Where it isn't,
/// the order of the pairs isn't said.
pub fn puts_are_pinned<C: MapStorage>()
    ensures { PutIsPinned C.Value.Meaning C.equal C.keeps_order }
{}
