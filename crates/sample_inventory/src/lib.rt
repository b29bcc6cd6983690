//! Messages from their fields: samples. All files but `laws.rt` and `maps.rt` are what the plugin `tools/protoc-gen-buffa` made
//! of `inventory.proto`, with the parameters that `tools/check` lists.
#![tactic(auto)]

pub mod assorted;
pub mod depot;
pub mod inventory;
pub mod laws;
pub mod ledger;
pub mod load;
pub mod maps;
pub mod order;
pub mod pallet;
pub mod parcel;
pub mod state;
pub mod store;
pub mod train;
pub mod wagon;
