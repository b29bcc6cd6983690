//! The laws, as a user names them who names the crate `buffa` alone.

use buffa::extension::codecs::Int32;
use buffa::{Map, laws};
use std::hash::RandomState;

#[test]
fn laws_of_the_crates_below_are_named(_rt: HostRuntime) {
    laws::wire::constants();
    laws::records::constants();
    laws::extension_codecs::scalars_are_read();
    laws::extensions::last_set_counts();
    laws::map_fields::scalars_cost_so_much();
    laws::law_2::<Int32>();
    laws::law_5();
    laws::law_10::<i32, i32, RandomState, Map<i32, i32>>();
    laws::items_are_pinned();
    laws::written_items_are_pinned();
}
