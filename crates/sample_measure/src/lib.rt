//! Messages of proto2, with required fields, defaults, real numbers and a closed enum: their author writes no proof. `measure.rt`,
//! `spot.rt` and `unit.rt` are what the plugin `tools/protoc-gen-buffa` made of `measure.proto`.
#![tactic(auto)]

pub mod measure;
pub mod spot;
pub mod unit;
