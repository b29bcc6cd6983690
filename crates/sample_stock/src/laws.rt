//! Under which numbers a stock is written.

ghost use Rattle.std.specs.Prelude.{◌≡◌, ◌++◌};
ghost use Rattle.sample_stock.specs.messages.Stock.{counts, name, unknown_fields};

use crate::messages::Stock;
use buffa_fields::map_codec::{Int32, Str};
use buffa_fields::{ImplicitField, MapField, Member, MessageSpec};

/// Under which numbers the members of a stock are written, and in which order; what is kept comes last. Nothing is left out.
pub fn stocks_are_written_so()
    ensures { (v : _) → ⟦<Stock as MessageSpec>⟧.records v
        ≡ ⟦<ImplicitField<Str> as Member>⟧.shape.records 1 (name v)
        ++ (⟦<MapField<Str, Int32> as Member>⟧.shape.records 5 (counts v) ++ unknown_fields v) }
{}
