//! Laws of entries, runs, sizes and rewrites: each is a function with nothing to do, whose contract is the law. A body
//! that calls it may rest on it.

ghost use Rattle.buffa_wire.specs.Parse.{Fits};
ghost use Rattle.buffa_wire.specs.Records.{records_of};
ghost use Rattle.buffa_map.specs.Message.{message_reading};
ghost use Rattle.buffa_map_laws.specs.Laws.{EntriesAreRead, ChargesUnits, OneReading, RewriteMeans};
ghost use Rattle.buffa_map_laws.specs.Laws.{RunsAreRead, RunsJoin, ValuesAreRead, WalksAgree, WrittenIsRead};
ghost use Rattle.buffa_map_laws.specs.Laws.{MessagesAreRead, NewerTakes};
ghost use Rattle.buffa_map_laws.specs.EntriesOfScalars.{EntriesAreExact};

use buffa_map::map_codec::{MapCodec, MapStorage, MapValueDecode};
use buffa_wire::MessageSpec;

/// A payload is read exactly where its wire type has one that the codec takes, and refused exactly where not.
pub fn values_are_read<VC: MapValueDecode>()
    ensures { ValuesAreRead VC.reading }
{}

/// A whole entry is read exactly where the grammar has it, and refused where the grammar has a fault; where no payload
/// is a message, with that fault and no other.
pub fn entries_are_read<KC: MapValueDecode, VC: MapValueDecode>()
    ensures { EntriesAreRead KC.reading VC.reading }
{}

/// The same of a whole run of records under a budget: what is read is its entries, and what is left of the budget.
/// Each entry costs units of element memory and what the messages in it cost; one with an undeclared value that is kept
/// costs unknown fields.
pub fn runs_are_read<KC: MapValueDecode, VC: MapValueDecode>()
    ensures { RunsAreRead KC.reading VC.reading }
{}

/// Where no payload is a message, an entry needs its units and nothing more.
///
/// ```ignore
/// plain_entries_charge_units::<KC, VC>();
/// ```
pub fn plain_entries_charge_units<KC: MapValueDecode, VC: MapValueDecode>()
    ensures { ChargesUnits KC.reading VC.reading }
{}

/// Where no payload is a message, an entry's fault is the first, and it spends its cost or nothing.
pub fn plain_entries_are_exact<KC: MapCodec, VC: MapCodec>()
    ensures { EntriesAreExact KC.reading VC.reading }
{
    plain_entries_charge_units::<KC, VC>();
}

/// Bytes are an entry, or a run, in one way at most, and in none where they have a fault.
///
/// ```ignore
/// one_reading::<KC, VC>();
/// ```
pub fn one_reading<KC: MapValueDecode, VC: MapValueDecode>()
    ensures { OneReading KC.reading VC.reading }
{}

/// Two runs, one after the other, are a run of the entries of both; it means what the second one makes of
/// what the first one makes of a map.
pub fn runs_join<
    KC: MapValueDecode,
    VC: MapValueDecode,
    C: MapStorage<Key = KC::Value, Value = VC::Value>,
>()
    ensures { RunsJoin KC.reading VC.reading C.equal }
{}

/// Two walks of one map give the same pairs, in some order, and have one size: what one walk announces is what
/// another one writes, also where no two walks are alike.
pub fn walks_agree<KC: MapCodec, VC: MapCodec, C: MapStorage<Key = KC::Value, Value = VC::Value>>()
    ensures { WalksAgree KC.writing VC.writing C.equal }
{}

/// The encoding of pairs is a run that says these pairs, so that a map that is written and then read into an
/// empty one is that map, stored keys too, in whatever order it was walked. Each entry is declared, and there
/// are as many as there are pairs.
///
/// ```ignore
/// written_is_read::<KC, VC, C>();
/// ```
pub fn written_is_read<
    KC: MapCodec,
    VC: MapCodec,
    C: MapStorage<Key = KC::Value, Value = VC::Value>,
>()
    ensures { WrittenIsRead KC.reading VC.reading KC.writing VC.writing C.equal KC.fits KC.normal VC.fits VC.normal }
{}

/// The same of messages: the encoding that `write_message_field` writes
/// of normal ones is a run that says these pairs, where a level is left for each of theirs.
pub fn written_messages_are_read<
    KC: MapCodec,
    M: MessageSpec,
    C: MapStorage<Key = KC::Value, Value = M>,
>()
    ensures { MessagesAreRead KC.reading (message_reading M.blank_is M.merged M.cost) KC.writing M.encoding C.equal KC.fits
        KC.normal (λ v. Fits (records_of (M.records v))) M.normal M.levels }
{}

/// A run that the reader of an enum accepts is accepted by the reader of a newer enum, which declares more.
///
/// ```ignore
/// newer_enums_take_it_too::<KC>();
/// ```
pub fn newer_enums_take_it_too<KC: MapCodec>()
    ensures { NewerTakes KC.reading }
{}

/// A rewrite means to a reader of a newer enum what the run means, exactly where the run is *ordered*: see
/// docs/DEFINITIONS.md.
///
/// A reader of the enum `e` reads a run, and writes the map and the entries that `e` doesn't declare. The
/// enum `f` declares all that `e` declares, and has the same default. Its reader reads the rewrite as it
/// reads the run itself: it keeps the same entries, and makes the same map of any old one, stored keys too.
///
/// ```ignore
/// rewrite_means::<KC>();
/// ```
pub fn rewrite_means<KC: MapCodec>()
    ensures { RewriteMeans KC.reading KC.writing KC.fits }
{}
