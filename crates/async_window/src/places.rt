//! The identifiers of mailboxes in their order, and the place of each.

ghost use Rattle.std.specs.Prelude.{◌≡◌, ◌≢◌, ◌↔◌, ℕ, ◌<◌, ◌≤◌, All, AllPairs, IfOk, Option, Some, length, slice_get};
ghost use Rattle.std.specs.List.Sorted.{IsPermutation};
ghost use Rattle.async_window.specs.Sorted.{IsPlaceOf, nowhere};

use std::alloc::{AllocError, Global};

/// How many identifiers there may be: those of 11 bits.
pub const IDENTIFIERS: usize = 2_048;

/// The place of an identifier that is not in a list.
const NOWHERE: u16 = u16::MAX;

/// Some identifiers in their order, from the least to the greatest.
pub fn in_order(alloc: Global, ids: &[u16]) -> Result<Vec<u16>, AllocError>
    requires distinct { AllPairs (λ one other. one ≢ other) ids.now }
    ensures rising { IfOk result (λ sorted. AllPairs (λ one other. one < other) sorted.items) }
    ensures same { IfOk result (λ sorted. IsPermutation ids.now sorted.items) }
{
    let mut sorted = ids.to_vec(alloc)?;
    sorted.sort_unstable();
    Ok(sorted)
}

/// For each identifier of 11 bits the place at which it stands in a list of them in their order; `NOWHERE` where it
/// does not.
pub fn places(alloc: Global, ids: &[u16]) -> Result<Vec<u16>, AllocError>
    requires rising { AllPairs (λ one other. one < other) ids.now }
    requires small { All (λ id. id < 2048) ids.now }
    ensures length { IfOk result (λ table. length table.items ≡ 2048) }
    ensures places { IfOk result (λ table. (id place : ℕ) → id < 2048 → place < nowhere
        → (slice_get table.items id ≡ Some place) ↔ (slice_get ids.now place ≡ Some id)) }
{
    let mut table = vec![in alloc; NOWHERE; IDENTIFIERS]?;
    for (place, id) in ids.iter().enumerate() {
        table[usize::from(*id)] = place as u16;
    }
    Ok(table)
}

/// The place of an identifier by such a table.
pub fn place_of(places: &[u16], id: u16) -> usize
    requires length { length places.now ≡ 2048 }
    ensures place { IsPlaceOf places.now id result }
{
    match places.get(usize::from(id)) {
        Some(place) => usize::from(*place),
        None => usize::from(NOWHERE),
    }
}
