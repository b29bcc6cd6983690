//! A codec of one's own: amounts of money, which have a Rust type of their own and are written as `sint64`.

ghost use Rattle.std.specs.Prelude.{◌≡◌, ◌≤◌, ◌+◌, [], ◌∷◌, IfErr, IfOk, OnErr, OnOk, Some, option_map, pos};
ghost use Rattle.buffa_bytes.specs.Scalars.{zigzag};
ghost use Rattle.buffa_bytes.specs.declared.error.EncodeError.TheVariants.{OutOfMemory};
ghost use Rattle.buffa_bytes.proofs.ScalarLemmas.{sint64_means, zigzag_fits64};
ghost use Rattle.buffa_wire.specs.Records.{varint};
ghost use Rattle.buffa_ext.specs.SetsAndClears.{IsSet};

use crate::options::FieldOptions;
use buffa_codec::Numbered;
use buffa_ext::{Extension, ExtensionSet, set_then_read};
use buffa_wire::scalars::Sint64;
use buffa_wire::{Blank, EncodeError, Scalar};
use std::alloc::Global;

/// An amount of money in cents.
///
/// ```ignore
/// let owed = Price { cents: -3 };
/// ```
#[derive(Clone, Copy, Debug, PartialEq, Eq)]
pub struct Price {
    /// The cents, which may be owed.
    pub cents: i64,
}

impl Blank for Price {
    type Meaning = i64;

    ghost meaning = { λ m. m.cents };

    ghost blank_is = { pos 0 };

    fn blank(_alloc: Global) -> Price {
        Price { cents: 0 }
    }
}

/// The codec of prices; `Repeated<PriceCodec>` and `PackedRepeated<PriceCodec>` are those of lists of them.
///
/// ```ignore
/// let price = Extension::<PriceCodec>::new(50021, FieldOptions::PROTO_FQN);
/// ```
pub struct PriceCodec;

impl Numbered for PriceCodec {
    type Value = Price;

    type Form = <Sint64 as Scalar>::Form;

    ghost value_of = { ⟦<Sint64 as Scalar>⟧.value_of };

    ghost number_of = { ⟦<Sint64 as Scalar>⟧.number_of };

    ghost fits = { ⟦<Sint64 as Scalar>⟧.fits };

    ghost back = { λ v. v };

    fn value_of(n: u64) -> Price {
        Price {
            cents: <Sint64 as Scalar>::value_of(n),
        }
    }

    fn number_of(value: &Price) -> u64 {
        <Sint64 as Scalar>::number_of(&value.cents)
    }

    ghost spelled = { zigzag_fits64 };

    ghost means = { λ v f. sint64_means v };
}

/// Sets the option `sint64 price = 50021`, and reads it: what was set. The other options stay as they are.
///
/// # Errors
/// Where memory runs out, and nothing else: a record of a price is never too large. Nothing is changed then,
/// since reading a price takes no memory.
///
/// ```ignore
/// let stored = store_price(alloc, &mut options, owed)?; // Some(owed)
/// ```
pub fn store_price(
    alloc: Global,
    options: &mut FieldOptions,
    price: Price,
) -> Result<Option<Price>, EncodeError>
    ensures value { IfOk result (λ o. option_map (λ p. p.cents) o ≡ Some price.cents) }
    ensures set { OnOk result (IsSet 50021 (varint (zigzag price.cents) ∷ []) options.old.fields options.new.fields) }
    ensures err { OnErr result (options.new ≡ options.old) }
    ensures room { options.old.fields.spare ≤ options.new.fields.spare + 1 }
    ensures refused { IfErr result (λ e. e ≡ OutOfMemory) }
    ensures rest { options.new.deprecated ≡ options.old.deprecated }
{
    let ext = Extension::<PriceCodec>::new(50021, FieldOptions::PROTO_FQN);
    set_then_read(alloc, options, &ext, price)
}
