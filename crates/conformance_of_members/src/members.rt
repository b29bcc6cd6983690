// Rows on messages from their fields, of which it is judged what stands after a refusal too.

mod branches;
mod failures;
mod lists;
mod measures;
mod payments;
mod settings;
mod words;

use crate::members::branches::Branches;
use crate::members::failures::Failures;
use crate::members::payments::Payments;
use crate::members::settings::Sections;
use conformance_messages::parted;
use conformance_rows::calls::StorageName;
use conformance_rows::case::Case;
use conformance_rows::fault::Fault;
use conformance_rows::mark::Mark;
use conformance_rows::outcome::Outcome;
use sample_inventory::assorted::Assorted;
use sample_inventory::depot::Depot;
use sample_inventory::inventory::Inventory;
use sample_inventory::ledger::Ledger;
use sample_inventory::load::Load;
use sample_inventory::order::Order;
use sample_inventory::pallet::Pallet;
use sample_inventory::parcel::Parcel;
use sample_inventory::store::Store;
use sample_inventory::train::Train;
use sample_inventory::wagon::Wagon;
use sample_measure::measure::Measure;
use sample_measure::spot::Spot;
use sample_palette::palette::Palette;
use sample_palette::swatch::Swatch;
use sample_payment::payment::Payment;
use sample_payment::transfer::Transfer;
use sample_recursive::branch::Branch;
use sample_recursive::failure::Failure;
use sample_recursive::settings::Settings;
use std::alloc::Global;

/// The words of messages from their fields.
pub struct Members;

/// What comes of a row on a message from its fields, or on a map of them.
pub fn on_members(
    alloc: Global,
    case: &Case<'_>,
    storage: StorageName,
    mark: &mut Mark,
    bytes: &[u8],
) -> Result<Outcome, Fault> {
    match case.types {
        "assorted" => parted::<Members, Assorted>(alloc, case, storage, mark, bytes),
        "branch" => parted::<Branches<()>, Branch>(alloc, case, storage, mark, bytes),
        "depot" => parted::<Members, Depot>(alloc, case, storage, mark, bytes),
        "failure" => parted::<Failures<()>, Failure>(alloc, case, storage, mark, bytes),
        "inventory" => parted::<Members, Inventory>(alloc, case, storage, mark, bytes),
        "ledger" => parted::<Members, Ledger>(alloc, case, storage, mark, bytes),
        "load" => parted::<Members, Load>(alloc, case, storage, mark, bytes),
        "measure" => parted::<Members, Measure>(alloc, case, storage, mark, bytes),
        "order" => parted::<Members, Order>(alloc, case, storage, mark, bytes),
        "palette" => parted::<Members, Palette>(alloc, case, storage, mark, bytes),
        "pallet" => parted::<Members, Pallet>(alloc, case, storage, mark, bytes),
        "parcel" => parted::<Members, Parcel>(alloc, case, storage, mark, bytes),
        "payment" => parted::<Payments<()>, Payment>(alloc, case, storage, mark, bytes),
        "settings" => parted::<Sections<()>, Settings>(alloc, case, storage, mark, bytes),
        "spot" => parted::<Members, Spot>(alloc, case, storage, mark, bytes),
        "store" => parted::<Members, Store>(alloc, case, storage, mark, bytes),
        "swatch" => parted::<Members, Swatch>(alloc, case, storage, mark, bytes),
        "train" => parted::<Members, Train>(alloc, case, storage, mark, bytes),
        "transfer" => parted::<Payments<()>, Transfer>(alloc, case, storage, mark, bytes),
        "wagon" => parted::<Members, Wagon>(alloc, case, storage, mark, bytes),
        _ => Err(Fault::Form),
    }
}
