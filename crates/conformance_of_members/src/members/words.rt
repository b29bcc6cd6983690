// Messages from their fields as words; no message is read of a word.

use crate::members::Members;
use buffa_wire::{EnumValue, Enumeration};
use conformance_messages::{Parted, Parts, parted_word};
use conformance_rows::fault::Fault;
use conformance_rows::outcome::in_words;
use conformance_rows::words::{Worded, unknown_word};
use sample_inventory::assorted::Assorted;
use sample_inventory::depot::Depot;
use sample_inventory::inventory::Inventory;
use sample_inventory::ledger::Ledger;
use sample_inventory::load::Load;
use sample_inventory::order::Order;
use sample_inventory::pallet::Pallet;
use sample_inventory::parcel::Parcel;
use sample_inventory::state::State;
use sample_inventory::store::Store;
use sample_inventory::train::Train;
use sample_inventory::wagon::Wagon;
use sample_palette::palette::Palette;
use sample_palette::shade::Shade;
use sample_palette::swatch::Swatch;
use std::alloc::Global;

// A declared value is known; any other stands behind a question mark.
impl Worded<Members> for EnumValue<State> {
    fn word(&self, alloc: Global) -> Result<String, Fault> {
        match self {
            EnumValue::Known(_) => in_words(alloc, &self.to_i32()),
            EnumValue::Unknown(n) => unknown_word(alloc, *n),
        }
    }

    fn of_word(_alloc: Global, _word: &str) -> Result<EnumValue<State>, Fault> {
        Err(Fault::Form)
    }
}

// A closed enum has declared values alone.
impl Worded<Members> for Shade {
    fn word(&self, alloc: Global) -> Result<String, Fault> {
        in_words(alloc, &self.to_i32())
    }

    fn of_word(_alloc: Global, _word: &str) -> Result<Shade, Fault> {
        Err(Fault::Form)
    }
}

impl Parted<Members> for Assorted {
    fn parts(&self, parts: &mut Parts<Members>) {
        parts.maybe(1, &self.data);
        parts.maybe(2, &self.state);
        parts.list(3, self.parts.as_slice());
        parts.list(4, self.past.as_slice());
        parts.list(5, self.coming.as_slice());
        parts.map(6, &self.marks);
        parts.map(7, &self.states);
        parts.value(8, &self.shared);
        parts.kept(&self.unknown_fields);
    }
}

impl Worded<Members> for Assorted {
    fn word(&self, alloc: Global) -> Result<String, Fault> {
        parted_word::<Members, _>(alloc, self)
    }

    fn of_word(_alloc: Global, _word: &str) -> Result<Assorted, Fault> {
        Err(Fault::Form)
    }
}

impl Parted<Members> for Depot {
    fn parts(&self, parts: &mut Parts<Members>) {
        parts.value(1, &self.city);
        parts.list(2, self.parcels.as_slice());
    }
}

impl Worded<Members> for Depot {
    fn word(&self, alloc: Global) -> Result<String, Fault> {
        parted_word::<Members, _>(alloc, self)
    }

    fn of_word(_alloc: Global, _word: &str) -> Result<Depot, Fault> {
        Err(Fault::Form)
    }
}

impl Parted<Members> for Inventory {
    fn parts(&self, parts: &mut Parts<Members>) {
        parts.value(1, &self.total);
        parts.value(2, &self.note);
        parts.maybe(3, &self.listed);
        parts.map(5, &self.counts);
        parts.kept(&self.unknown_fields);
    }
}

impl Worded<Members> for Inventory {
    fn word(&self, alloc: Global) -> Result<String, Fault> {
        parted_word::<Members, _>(alloc, self)
    }

    fn of_word(_alloc: Global, _word: &str) -> Result<Inventory, Fault> {
        Err(Fault::Form)
    }
}

impl Parted<Members> for Ledger {
    fn parts(&self, parts: &mut Parts<Members>) {
        parts.map(1, &self.balances);
        parts.map(2, &self.pages);
        parts.map(3, &self.seals);
        parts.kept(&self.unknown_fields);
    }
}

impl Worded<Members> for Ledger {
    fn word(&self, alloc: Global) -> Result<String, Fault> {
        parted_word::<Members, _>(alloc, self)
    }

    fn of_word(_alloc: Global, _word: &str) -> Result<Ledger, Fault> {
        Err(Fault::Form)
    }
}

impl Parted<Members> for Load {
    fn parts(&self, parts: &mut Parts<Members>) {
        parts.maybe(1, &self.weight);
        parts.maybe(2, &self.mark);
        parts.kept(&self.unknown_fields);
    }
}

impl Worded<Members> for Load {
    fn word(&self, alloc: Global) -> Result<String, Fault> {
        parted_word::<Members, _>(alloc, self)
    }

    fn of_word(_alloc: Global, _word: &str) -> Result<Load, Fault> {
        Err(Fault::Form)
    }
}

impl Parted<Members> for Order {
    fn parts(&self, parts: &mut Parts<Members>) {
        parts.value(1, &self.id);
        parts.value(2, &self.note);
        parts.maybe(3, &self.gift);
        parts.value(4, &self.state);
        parts.map(5, &self.counts);
        parts.value(6, &self.blob);
        parts.list(7, self.steps.as_slice());
        parts.maybe(8, &self.code);
        parts.maybe(9, &self.stamp);
        parts.map(10, &self.names);
        parts.list(11, self.tags.as_slice());
        parts.maybe(12, &self.floor);
    }
}

impl Worded<Members> for Order {
    fn word(&self, alloc: Global) -> Result<String, Fault> {
        parted_word::<Members, _>(alloc, self)
    }

    fn of_word(_alloc: Global, _word: &str) -> Result<Order, Fault> {
        Err(Fault::Form)
    }
}

impl Parted<Members> for Palette {
    fn parts(&self, parts: &mut Parts<Members>) {
        parts.value(1, &self.total);
        parts.map(3, &self.shades);
        parts.maybe(4, &self.s);
        parts.list(5, self.list.as_slice());
        parts.list(6, self.packed.as_slice());
        parts.map(7, &self.ordered);
        parts.maybe(8, &self.swatch);
        parts.maybe(9, &self.patch);
        parts.kept(&self.unknown_fields);
    }
}

impl Worded<Members> for Palette {
    fn word(&self, alloc: Global) -> Result<String, Fault> {
        parted_word::<Members, _>(alloc, self)
    }

    fn of_word(_alloc: Global, _word: &str) -> Result<Palette, Fault> {
        Err(Fault::Form)
    }
}

impl Parted<Members> for Pallet {
    fn parts(&self, parts: &mut Parts<Members>) {
        parts.value(1, &self.mark);
        parts.maybe(2, &self.stock);
        parts.list(3, self.layers.as_slice());
    }
}

impl Worded<Members> for Pallet {
    fn word(&self, alloc: Global) -> Result<String, Fault> {
        parted_word::<Members, _>(alloc, self)
    }

    fn of_word(_alloc: Global, _word: &str) -> Result<Pallet, Fault> {
        Err(Fault::Form)
    }
}

impl Parted<Members> for Parcel {
    fn parts(&self, parts: &mut Parts<Members>) {
        parts.value(1, &self.id);
        parts.maybe(2, &self.stock);
    }
}

impl Worded<Members> for Parcel {
    fn word(&self, alloc: Global) -> Result<String, Fault> {
        parted_word::<Members, _>(alloc, self)
    }

    fn of_word(_alloc: Global, _word: &str) -> Result<Parcel, Fault> {
        Err(Fault::Form)
    }
}

impl Parted<Members> for Store {
    fn parts(&self, parts: &mut Parts<Members>) {
        parts.value(1, &self.name);
        parts.map(2, &self.shelves);
    }
}

impl Worded<Members> for Store {
    fn word(&self, alloc: Global) -> Result<String, Fault> {
        parted_word::<Members, _>(alloc, self)
    }

    fn of_word(_alloc: Global, _word: &str) -> Result<Store, Fault> {
        Err(Fault::Form)
    }
}

impl Parted<Members> for Swatch {
    fn parts(&self, parts: &mut Parts<Members>) {
        parts.maybe(1, &self.shade);
        parts.list(2, self.others.as_slice());
        parts.kept(&self.unknown_fields);
    }
}

impl Worded<Members> for Swatch {
    fn word(&self, alloc: Global) -> Result<String, Fault> {
        parted_word::<Members, _>(alloc, self)
    }

    fn of_word(_alloc: Global, _word: &str) -> Result<Swatch, Fault> {
        Err(Fault::Form)
    }
}

impl Parted<Members> for Train {
    fn parts(&self, parts: &mut Parts<Members>) {
        parts.map(1, &self.wagons);
        parts.list(2, self.spares.as_slice());
    }
}

impl Worded<Members> for Train {
    fn word(&self, alloc: Global) -> Result<String, Fault> {
        parted_word::<Members, _>(alloc, self)
    }

    fn of_word(_alloc: Global, _word: &str) -> Result<Train, Fault> {
        Err(Fault::Form)
    }
}

impl Parted<Members> for Wagon {
    fn parts(&self, parts: &mut Parts<Members>) {
        parts.maybe(1, &self.load);
        parts.list(2, self.loads.as_slice());
        parts.maybe(3, &self.frame);
        parts.list(4, self.beams.as_slice());
        parts.map(5, &self.shelves);
        parts.map(6, &self.berths);
        parts.value(7, &self.id);
        parts.maybe(8, &self.name);
        parts.maybe(9, &self.state);
        parts.list(10, self.seats.as_slice());
        parts.list(11, self.tags.as_slice());
        parts.map(12, &self.counts);
        parts.map(13, &self.axles);
        parts.kept(&self.unknown_fields);
    }
}

impl Worded<Members> for Wagon {
    fn word(&self, alloc: Global) -> Result<String, Fault> {
        parted_word::<Members, _>(alloc, self)
    }

    fn of_word(_alloc: Global, _word: &str) -> Result<Wagon, Fault> {
        Err(Fault::Form)
    }
}
