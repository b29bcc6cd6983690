//! A map field passed on by a reader that doesn't know all its values.

ghost use Rattle.std.specs.Prelude.{◌≡◌, ◌≤◌, IfErr, OnOk};
ghost use Rattle.buffa_wire.specs.Enums.{Refines, numbers};
ghost use Rattle.buffa_bytes.specs.Number.{IsNumber};
ghost use Rattle.buffa_map.specs.PassedList.{capacity_of};
ghost use Rattle.sample_types.specs.Passed.{IfRefused, IfUnread, IsRun, KeepsRun, MeansRun, NotRewritten, Proxy, ReadsRewrite, Stopped, proxy};

use buffa_map::map_codec::{
    ClosedEnum, MapCodec, MapStorage, MapWrite, RewriteError, read_map_field, rewrite_map_field,
};
use buffa_map_laws::map_fields::{
    newer_enums_take_it_too, one_reading, plain_entries_charge_units, rewrite_means,
};
use buffa_wire::{
    Blank, Budget, DEFAULT_ELEMENT_MEMORY_LIMIT, DEFAULT_UNKNOWN_FIELD_LIMIT, DecodeContext,
    DecodeError, Enumeration, UnknownFields,
};
use std::alloc::Global;
use std::marker::PhantomData;

/// Why a map field wasn't passed on.
///
/// ```ignore
/// return Err(PassFault::Rewrite(error));
/// ```
#[derive(Debug, Drop)]
pub enum PassFault {
    /// It couldn't be rewritten.
    Rewrite(RewriteError),
    /// The rewrite couldn't be read, since memory ran out or of budget.
    Decode(DecodeError),
}

/// Names the two readers of a proxy, for the contract of [`passed_on`] alone: the codec of keys, the enums of the older
/// one and of the newer one, and the maps of both.
///
/// ```ignore
/// ensures runs { OnOk result (IsRun ⟦<Pass<KC, E, F, C, D> as Way>⟧.way KC.fits depth number bytes.now) }
/// ```
pub struct Pass<KC, E, F, C, D> {
    of: PhantomData<(KC, E, F, C, D)>,
}

/// What a proxy is: a word of contracts, with nothing to call.
///
/// ```ignore
/// ensures runs { OnOk result (IsRun ⟦<Pass<KC, E, F, C, D> as Way>⟧.way KC.fits depth number bytes.now) }
/// ```
pub trait Way {
    /// The type of the keys.
    ///
    /// ```ignore
    /// type Key = KC::Value;
    /// ```
    type Key: Blank;

    /// How both readers read, and how keys are written.
    ghost way: { Proxy Self.Key.Meaning };
}

impl<
    KC: MapCodec,
    E: Enumeration,
    F: Enumeration,
    C: MapStorage<Key = KC::Value, Value = E>,
    D: MapStorage<Key = KC::Value, Value = F>,
> Way for Pass<KC, E, F, C, D> {
    type Key = KC::Value;

    ghost way = { proxy KC.reading KC.COST KC.writing (numbers E.of_number E.blank_is)
        (numbers F.of_number F.blank_is) C.equal C.keeps_order D.equal D.keeps_order };
}

/// Rewrites a map field through a map of the enum `E`, as a proxy does, and reads what was written into a
/// map of the enum `F`, which declares all that `E` declares and has the same default.
///
/// Where the run is ordered that is what the run itself makes of the map, stored keys too; and the entries
/// that `F` doesn't declare are kept as they are in the run. The first map then has what the run says to `E`.
///
/// # Errors
/// [`PassFault::Rewrite`] with those of [`rewrite_map_field`] at the default limits; the map and the list are as
/// they were. [`PassFault::Decode`] where memory or the budget ran out as the rewrite was read; the entries before
/// that are in the map.
///
/// ```ignore
/// passed_on::<Int32, Old, New, _, _>(alloc, 5, &bytes, 10, &mut scratch, &mut map, &mut unknown)?;
/// ```
pub fn passed_on<
    KC: MapCodec,
    E: Enumeration,
    F: Enumeration,
    C: MapWrite + MapStorage<Key = KC::Value, Value = E>,
    D: MapStorage<Key = KC::Value, Value = F>,
>(
    alloc: Global,
    number: u32,
    bytes: &[u8],
    depth: u32,
    scratch: &mut C,
    map: &mut D,
    unknown: &mut UnknownFields,
) -> Result<(), PassFault>
    requires number { IsNumber number }
    requires refines { Refines (numbers E.of_number E.blank_is) (numbers F.of_number F.blank_is) }
    requires keys { C.equal ≡ D.equal }
    ensures runs { OnOk result (IsRun ⟦<Pass<KC, E, F, C, D> as Way>⟧.way KC.fits depth number bytes.now) }
    ensures keeps { OnOk result (KeepsRun ⟦<Pass<KC, E, F, C, D> as Way>⟧.way KC.fits depth number bytes.now
        unknown.old unknown.new) }
    ensures means { OnOk result (MeansRun ⟦<Pass<KC, E, F, C, D> as Way>⟧.way KC.fits depth number bytes.now
        (D.pairs map.old) (D.pairs map.new)) }
    ensures reads { OnOk result (ReadsRewrite ⟦<Pass<KC, E, F, C, D> as Way>⟧.way KC.fits depth number bytes.now
        (C.pairs scratch.new) (D.pairs map.old) unknown.old (D.pairs map.new) unknown.new) }
    ensures refused { IfErr result (IfRefused (NotRewritten ⟦<Pass<KC, E, F, C, D> as Way>⟧.way KC.fits depth
        number bytes.now (C.walks scratch.new) (C.pairs scratch.new))) }
    ensures unchanged { IfErr result (IfRefused (λ _. (map.new ≡ map.old) × (unknown.new ≡ unknown.old))) }
    ensures stops { IfErr result (IfUnread (Stopped ⟦<Pass<KC, E, F, C, D> as Way>⟧.way KC.fits depth
        number bytes.now (C.pairs scratch.new) (D.pairs map.old) unknown.old (D.pairs map.new) unknown.new)) }
    ensures room { capacity_of unknown.old ≤ capacity_of unknown.new }
{
    let mut encoding = Vec::new(alloc);
    let mut budget = Budget::new(DEFAULT_UNKNOWN_FIELD_LIMIT);
    let mut rest = bytes;
    let ctx = DecodeContext::new(depth, &mut budget);
    match rewrite_map_field::<KC, ClosedEnum<E>, C, _, _>(
        alloc,
        scratch,
        number,
        &mut rest,
        ctx,
        &mut encoding,
    ) {
        Ok(()) => {}
        Err(error) => return Err(PassFault::Rewrite(error)),
    }
    let mut fresh = Budget::new(DEFAULT_UNKNOWN_FIELD_LIMIT);
    let mut written = encoding.as_slice();
    let ctx = DecodeContext::new(depth, &mut fresh);
    newer_enums_take_it_too::<KC>();
    rewrite_means::<KC>();
    one_reading::<KC, ClosedEnum<E>>();
    one_reading::<KC, ClosedEnum<F>>();
    plain_entries_charge_units::<KC, ClosedEnum<F>>();
    match read_map_field::<KC, ClosedEnum<F>, D, _>(
        alloc,
        map,
        number,
        &mut written,
        ctx,
        Some(unknown),
    ) {
        Ok(()) => Ok(()),
        Err(error) => Err(PassFault::Decode(error)),
    }
}
