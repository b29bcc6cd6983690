//! All laws of map fields. Those of codecs are in `codecs.rt`, of entries, runs, sizes and rewrites in `entries.rt`, of
//! storages in `storages.rt`; what the contracts leave out is in `pinned.rt`; and what their words mean is in `runs.rt` and
//! `calls.rt`, and in the words of the encoding guide in `guide.rt`.

ghost use Rattle.std.specs.Prelude.{◌≡◌, ◌↔◌, List, Some, true};
ghost use Rattle.buffa_bytes.specs.Pinned.{IsCopied, SameIsOne};
ghost use Rattle.buffa_map.specs.Rewrite.{rewrite_error_text};
ghost use Rattle.buffa_map.specs.declared.rewrite.RewriteError.{RewriteError};
ghost use Rattle.buffa_map.specs.Pairs.{means};

pub use crate::calls::{
    answers_are_these, functions_of_messages_are_these, lent_lists_are_these,
    map_fields_are_written_so, meanings_are_kept_so,
};
pub use crate::codecs::{
    codecs_are_these, coded_is_this, scalars_are_these, scalars_cost_so_much,
    strings_and_bytes_are_these,
};
pub use crate::entries::{
    entries_are_read, newer_enums_take_it_too, one_reading, plain_entries_are_exact,
    plain_entries_charge_units, rewrite_means, runs_are_read, runs_join, values_are_read,
    walks_agree, written_is_read, written_messages_are_read,
};
pub use crate::in_bytes::{
    entries_are_their_fields, enums_are_read_so, fields_are_their_records,
    message_fields_are_their_records, messages_are_read_so, other_values_are_written_so,
    pairs_are_lists, rewrites_are_their_fields, runs_are_their_entries, scalars_are_read_so,
    scalars_are_written_so, strings_and_bytes_are_read_so, texts_numbers_and_defaults_are_these,
};
pub use crate::pinned::{
    entries_are_pinned, map_fields_are_pinned, message_fields_are_pinned, puts_are_pinned,
    rewrites_are_pinned, runs_are_pinned, values_are_pinned,
};
pub use crate::runs::{
    codecs_spend_so, entries_are_written_so, faults_of_entries_are_these, faults_of_runs_are_these,
    fields_of_entries_take_memory_so, fields_of_messages_are_written_so, merged_entries_are_these,
    messages_take_memory_so, named_readings_are_these, records_and_texts_are_these,
    refused_entries_are_these, rewrites_are_readings, rules_are_these, runs_are_read_so,
    runs_are_these,
};
pub use crate::storages::{
    hashed_maps_are_these, index_maps_are_these, ordered_maps_are_these, ordered_maps_have_one_walk,
};
pub use buffa_map::laws::{limits_are_reported_where_charges_are_not_left, size_is_length};
use buffa_map::map_codec::{Map, MapStorage, MapValueDecodeStatus, RewriteError, StableOrder};
use buffa_wire::{Blank, MapKey};
use std::fmt::Display;
use std::hash::Hash;

/// A refused rewrite prints the text of the error that it holds.
pub fn rewrite_errors_print()
    ensures { (e : RewriteError) → ⟦<RewriteError as Display>⟧.output e ≡ Some (rewrite_error_text e) }
{}

/// `==` says exactly whether two of these are one. It leaves nothing out.
pub fn equal_ones_are_one()
    ensures refusal { SameIsOne ⟦<RewriteError as PartialEq>⟧.eq }
    ensures status { SameIsOne ⟦<MapValueDecodeStatus as PartialEq>⟧.eq }
{}

/// What `clone` makes of each of these is the same again, and it doesn't fail. It leaves nothing out.
pub fn clones_are_these()
    ensures refusal { IsCopied ⟦<RewriteError as Clone>⟧.is_clone ⟦<RewriteError as Clone>⟧.is_infallible }
    ensures status { IsCopied ⟦<MapValueDecodeStatus as Clone>⟧.is_clone
        ⟦<MapValueDecodeStatus as Clone>⟧.is_infallible }
{}

/// A [`Map`], the usual storage, is an `IndexMap`: its entries, walked in the order in which the keys came, which it
/// keeps.
pub fn the_map_is_this<K: MapKey + Hash, V: Blank>()
    ensures pairs { (m : _) → ⟦<Map<K, V> as MapStorage>⟧.pairs m ≡ means K.meaning V.meaning m.entries }
    ensures keys { (a b : K) → ⟦<Map<K, V> as MapStorage>⟧.equal (K.meaning a) (K.meaning b) ≡ K.eq a b }
    ensures order { ⟦<Map<K, V> as MapStorage>⟧.keeps_order ≡ true }
    ensures walks { (m : _) (l : List (K.Meaning × V.Meaning)) →
        ⟦<Map<K, V> as MapStorage>⟧.walks m l ↔ (l ≡ means K.meaning V.meaning m.entries) }
    ensures walk { (m : _) → ⟦<Map<K, V> as StableOrder>⟧.walk m ≡ means K.meaning V.meaning m.entries }
{}
