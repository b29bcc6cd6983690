//! The second pass.

ghost use Rattle.std.specs.Prelude.{◌≡◌, ◌⊎◌, ◌+◌, ◌-◌, ◌<◌, ◌≤◌, IfOk, IfSome, MatchOption, None, Ok};
ghost use Rattle.buffa_locate.specs.Places.{AreAllMerged, ExtendsIfFound, IsPlace, LeadsTo};

use crate::inside::{Inside, Locate};
use crate::place::{Place, Step};
use crate::refused::{Refused, first_refused};
use crate::search::Search;
use buffa_wire::{Budget, Message, Tag};
use std::alloc::{AllocError, Global};

// Looks into the message that a refused field holds, as deep as a record is refused for the same fault.
#[cycle(deeper)]
#[tactic(auto, using(crate::proofs::PathLemmas::leads_extend))]
fn look_into<M: Locate + Message + Drop>(
    alloc: Global,
    search: Search<'_>,
    refused: Refused,
    tag: Tag,
    inside: Inside,
    path: &mut Vec<Step>,
) -> Result<Option<usize>, AllocError>
    requires behind { (refused.at ≤ refused.behind) × (refused.behind ≤ search.end - search.start) }
    ensures within { IfOk result (λ found. IfSome found (λ at. (search.entry.start + refused.behind ≤ at)
        × (at < search.entry.end))) }
    ensures path { IfOk result (λ found. ExtendsIfFound found path.old.items path.new.items) }
{
    let Some(inner) = search.enter::<M>(alloc, tag, refused, inside)? else {
        return Ok(None);
    };
    if !inside.own {
        return M::find_inside(tag.field_number(), alloc, inner, path);
    }
    match inner.refused::<M>(alloc)? {
        Some(next) => Ok(Some(follow::<M>(alloc, inner, next, path)?)),
        None => Ok(None),
    }
}

// Goes to the record that is refused, and into it.
#[cycle(deeper)]
#[tactic(auto, using(crate::proofs::PathLemmas::leads_now, crate::proofs::PathLemmas::leads_on, crate::proofs::PathLemmas::extends_found))]
fn follow<M: Locate + Message + Drop>(
    alloc: Global,
    search: Search<'_>,
    refused: Refused,
    path: &mut Vec<Step>,
) -> Result<usize, AllocError>
    requires at { refused.at < search.end - search.start }
    requires behind { (refused.at ≤ refused.behind) × (refused.behind ≤ search.end - search.start) }
    ensures at { IfOk result (λ at. (at ≡ search.entry.start + refused.at) ⊎ (search.entry.start + refused.behind ≤ at)) }
    ensures within { IfOk result (λ at. at < search.entry.end) }
    ensures path { IfOk result (λ at. LeadsTo refused.tag path.old.items path.new.items) }
{
    let at = search.start + refused.at;
    let Some(tag) = refused.tag else {
        return Ok(at);
    };
    let inside = M::inside(tag.field_number());
    path.push(search.step::<M>(tag, refused, inside))?;
    let Some(inside) = inside else {
        return Ok(at);
    };
    let found = look_into::<M>(alloc, search, refused, tag, inside, path)?;
    Ok(found.unwrap_or(at))
}

/// The offset of the first refused record of what is searched, a message of this type, and as deep in it as the same fault
/// is found, if it is refused for the fault that is looked for; the steps to it go behind the path. Where none is found the
/// path stays as it was.
///
/// # Errors
/// Where memory runs out. The contract leaves the path open then.
///
/// ```ignore
/// M::find_inside(tag.field_number(), alloc, inner, path)
/// ```
#[tactic(auto, using(crate::proofs::PathLemmas::leads_extend))]
pub fn find<M: Locate + Message + Drop>(
    alloc: Global,
    search: Search<'_>,
    path: &mut Vec<Step>,
) -> Result<Option<usize>, AllocError>
    ensures within { IfOk result (λ found. IfSome found (λ at. (search.entry.start ≤ at) × (at < search.entry.end))) }
    ensures path { IfOk result (λ found. ExtendsIfFound found path.old.items path.new.items) }
{
    match search.refused::<M>(alloc)? {
        Some(refused) => Ok(Some(follow::<M>(alloc, search, refused, path)?)),
        None => Ok(None),
    }
}

/// What [`Locate::find_inside`] answers for a field that holds no message of another type: nothing, and the path stays.
///
/// # Errors
/// None.
///
/// ```ignore
/// Ok(None) // what it answers
/// ```
pub fn nothing_inside(
    _search: Search<'_>,
    path: &mut Vec<Step>,
) -> Result<Option<usize>, AllocError>
    ensures none { result ≡ Ok None }
    ensures path { path.new.items ≡ path.old.items }
{
    Ok(None)
}

/// Where the bytes are refused as a message of this type, at most `depth` levels deep and under this budget; or none where
/// they are accepted.
///
/// The place is that of the first record that is refused. Where this holds a message, the place is in it, as deep as a
/// record is refused for the same fault. The contract leaves open how deep; the offset is where the first refused record begins,
/// or one behind its tag, in the bytes.
///
/// # Errors
/// Where memory runs out.
///
/// ```ignore
/// match locate::<Order>(alloc, bytes, LEVELS, limits)? { .. }
/// ```
pub fn locate<M: Locate + Message + Drop>(
    alloc: Global,
    bytes: &[u8],
    depth: u32,
    budget: Budget,
) -> Result<Option<Place>, AllocError>
    ensures { IfOk result (λ found. MatchOption found
        (AreAllMerged (M.merged depth M.blank_is bytes.now) (M.cost depth bytes.now) budget)
        (IsPlace M.merged M.cost M.Refused depth M.blank_is bytes.now budget)) }
{
    let Some(refused) = first_refused::<M>(alloc, bytes, depth, budget)? else {
        return Ok(None);
    };
    let search = Search {
        all: bytes,
        start: 0,
        end: bytes.len(),
        grouped: false,
        depth,
        unknown: refused.unknown,
        memory: refused.memory,
        fault: refused.fault,
    };
    let mut path = Vec::new(alloc);
    let offset = follow::<M>(alloc, search, refused, &mut path)?;
    Ok(Some(Place {
        path,
        offset,
        fault: refused.fault,
    }))
}
