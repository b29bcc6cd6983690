//! Laws: which enum a state is, and how deep trains nest.

ghost use Rattle.std.specs.Prelude.{◌≡◌, ◌∷◌, [], None, Some, map, pos};
ghost use Rattle.buffa_fields.specs.Terms.{AreExactLevels, IsCopied, SameIsOne};

use crate::load::Load;
use crate::state::State;
use crate::train::Train;
use crate::wagon::Wagon;
use buffa_fields::{Blank, Enumeration, MessageSpec};
use buffa_fields_laws::members::levels_of_fields_are_exact;

/// Which of the first three numbers states declare, by which values, and their default; `==` and `clone` of them.
pub fn states_are_these()
    ensures declared { map ⟦<State as Enumeration>⟧.of_number (pos 0 ∷ pos 1 ∷ pos 2 ∷ [])
        ≡ Some State.Open ∷ Some State.Sent ∷ None ∷ [] }
    ensures blank { ⟦<State as Blank>⟧.blank_is ≡ pos 0 }
    ensures equal { SameIsOne ⟦<State as PartialEq>⟧.eq }
    ensures copied { IsCopied ⟦<State as Clone>⟧.is_clone ⟦<State as Clone>⟧.is_infallible }
{}

/// A load nests exactly as deep as it says: at no lesser depth is its encoding merged, whatever it is merged into.
pub fn load_levels_are_exact()
    ensures { AreExactLevels ⟦<Load as MessageSpec>⟧.merged ⟦<Load as MessageSpec>⟧.encoding
        ⟦<Load as MessageSpec>⟧.records ⟦<Load as MessageSpec>⟧.normal ⟦<Load as MessageSpec>⟧.levels }
{
    levels_of_fields_are_exact::<Load>();
}

/// So does a wagon, which has loads in each kind of member that has messages.
pub fn wagon_levels_are_exact()
    ensures { AreExactLevels ⟦<Wagon as MessageSpec>⟧.merged ⟦<Wagon as MessageSpec>⟧.encoding
        ⟦<Wagon as MessageSpec>⟧.records ⟦<Wagon as MessageSpec>⟧.normal ⟦<Wagon as MessageSpec>⟧.levels }
{
    load_levels_are_exact();
    levels_of_fields_are_exact::<Wagon>();
}

/// So does a train, which has wagons.
pub fn train_levels_are_exact()
    ensures { AreExactLevels ⟦<Train as MessageSpec>⟧.merged ⟦<Train as MessageSpec>⟧.encoding
        ⟦<Train as MessageSpec>⟧.records ⟦<Train as MessageSpec>⟧.normal ⟦<Train as MessageSpec>⟧.levels }
{
    wagon_levels_are_exact();
    levels_of_fields_are_exact::<Train>();
}
