//! The temperature of noon: clauses have it by its name, whatever block it stands in.

ghost use Rattle.std.specs.Prelude.{◌≡◌};
ghost use Rattle.sample_wide.specs.Day.{temperature_12, with_temperature_12};

use crate::day::Day;
use buffa_fields::Blank;

/// The temperature of noon, in tenths of a degree Celsius.
pub fn noon(day: &Day) -> i32
    ensures { result ≡ temperature_12 (⟦<Day as Blank>⟧.meaning day.now) }
{
    day.temperature_12
}

/// Sets the temperature of noon, in tenths of a degree Celsius.
pub fn set_noon(day: &mut Day, tenths: i32)
    ensures { ⟦<Day as Blank>⟧.meaning day.new ≡ with_temperature_12 tenths (⟦<Day as Blank>⟧.meaning day.old) }
{
    day.temperature_12 = tenths;
}
