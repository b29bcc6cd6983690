//! A message by its fields with closed enums in each of its members: its author writes no proof. `palette.rt`, `shade.rt` and
//! `swatch.rt` are what the plugin `tools/protoc-gen-buffa` made of `palette.proto`, with the parameters that `tools/check` lists.
#![tactic(auto)]

pub mod laws;
pub mod palette;
pub mod shade;
pub mod swatch;
