// Where bytes are refused, by the name of a type.

use anyhow::{Context, Error};
use buffa_fields::{Budget, Message};
use buffa_locate::{Locate, Place, locate};
use sample_inventory::assorted::Assorted;
use sample_inventory::depot::Depot;
use sample_inventory::inventory::Inventory;
use sample_inventory::ledger::Ledger;
use sample_inventory::load::Load;
use sample_inventory::order::Order;
use sample_inventory::pallet::Pallet;
use sample_inventory::parcel::Parcel;
use sample_inventory::store::Store;
use sample_inventory::train::Train;
use sample_inventory::wagon::Wagon;
use sample_payment::payment::Payment;
use sample_payment::transfer::Transfer;
use sample_recursive::branch::Branch;
use sample_recursive::failure::Failure;
use sample_recursive::settings::Settings;
use std::alloc::Global;
use std::str::Split;

// What reading may take.
#[derive(Clone, Copy)]
struct Limits {
    depth: u32,
    unknown: usize,
    memory: usize,
}

// The next column of a line.
fn column<'a>(columns: &mut Split<'a, char>) -> Result<&'a str, Error> {
    columns.next().context("a line has too few columns")
}

// The fields by their numbers.
fn path_of(alloc: Global, place: &Place) -> Result<String, Error> {
    let mut path = String::new(alloc);
    for step in place.path.iter() {
        let text = match step.index {
            Some(index) => format!(in alloc; ".{}[{index}]", step.number)?,
            None => format!(in alloc; ".{}", step.number)?,
        };
        path.push_str(text.as_str())?;
    }
    Ok(path)
}

// Where the bytes are refused as a message of a type.
fn place_of<M: Locate + Message + Drop>(
    alloc: Global,
    bytes: &[u8],
    limits: &Limits,
) -> Result<String, Error> {
    let budget = Budget::new(limits.unknown).with_element_memory(limits.memory);
    let Some(place) = locate::<M>(alloc, bytes, limits.depth, budget)? else {
        return Ok(String::from_str(alloc, "read")?);
    };
    let path = path_of(alloc, &place)?;
    Ok(format!(in alloc; "{path} at {}: {}", place.offset, place.fault)?)
}

// The same, of the type that has this name.
fn place_as(alloc: Global, name: &str, bytes: &[u8], limits: &Limits) -> Result<String, Error> {
    match name {
        "assorted" => place_of::<Assorted>(alloc, bytes, limits),
        "branch" => place_of::<Branch>(alloc, bytes, limits),
        "depot" => place_of::<Depot>(alloc, bytes, limits),
        "failure" => place_of::<Failure>(alloc, bytes, limits),
        "inventory" => place_of::<Inventory>(alloc, bytes, limits),
        "ledger" => place_of::<Ledger>(alloc, bytes, limits),
        "load" => place_of::<Load>(alloc, bytes, limits),
        "order" => place_of::<Order>(alloc, bytes, limits),
        "pallet" => place_of::<Pallet>(alloc, bytes, limits),
        "parcel" => place_of::<Parcel>(alloc, bytes, limits),
        "payment" => place_of::<Payment>(alloc, bytes, limits),
        "settings" => place_of::<Settings>(alloc, bytes, limits),
        "store" => place_of::<Store>(alloc, bytes, limits),
        "train" => place_of::<Train>(alloc, bytes, limits),
        "transfer" => place_of::<Transfer>(alloc, bytes, limits),
        "wagon" => place_of::<Wagon>(alloc, bytes, limits),
        _ => Ok(String::from_str(alloc, "no such type")?),
    }
}

/// Where the bytes of a line are refused.
///
/// # Errors
/// Where a line isn't in its form, or memory runs out.
pub fn place_in(alloc: Global, line: &str) -> Result<String, Error> {
    let mut columns = line.split('\t');
    let name = column(&mut columns)?;
    let limits = Limits {
        depth: column(&mut columns)?.parse::<u32>()?,
        unknown: column(&mut columns)?.parse::<usize>()?,
        memory: column(&mut columns)?.parse::<usize>()?,
    };
    let bytes = hex::decode(alloc, column(&mut columns)?)?;
    place_as(alloc, name, &bytes, &limits)
}
