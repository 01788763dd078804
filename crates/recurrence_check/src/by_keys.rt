//! The first repeat, found by the keys of the states. The first key at each place stands in a row, and the others in an
//! ordered map.

ghost use Rattle.std.specs.Prelude.{◌≡◌, ◌≢◌, ◌+◌, ◌<◌, ◌≤◌, ℕ, IfOk, IfErr, Result, length};
ghost use Rattle.std.specs.BTreeMap.{get};
ghost use Rattle.std.specs.Vec.{vec_capacity, vec_len};
ghost use Rattle.std.specs.Prelude.{IfSome, None, OnOk, Option, Some, slice_index_or};
ghost use Rattle.profile.specs.Limits.{greatest_horizon};
ghost use Rattle.recurrence_check.specs.Course.{IsLeastRepeat};
ghost use Rattle.recurrence_check.specs.Ends.{IsEnd, IsWalkAnswer};
ghost use Rattle.recurrence_check.specs.Keys.{IsSparse, Meets, MeetsAll, MeetsRun, row_places, table};
ghost use Rattle.recurrence_check.specs.declared.walk_end.Repeat.{Repeat};
ghost use Rattle.recurrence_check.specs.declared.walk_end.WalkEnd.{WalkEnd};

use crate::walk::{Keyed, Stretch};
use crate::walk_end::{Repeat, WalkEnd};
use std::alloc::{AllocError, Global};
use std::collections::BTreeMap;

/// The key of a state. Its second number is called its place.
type Key = (u128, u64);

/// The places that the row has room for: as many as the longest period has cycles. Keys of later places stand in a map,
/// and a walk passes no stretch of them.
pub const PLACES: u64 = 100_000;

/// Of how many places at most the room is taken before the walk comes to them.
const FIRST_PLACES: u64 = 1_024;

/// Does what `lasso` does, for a walk whose states have keys, and takes time for at most about
/// `horizon` look-ups in an ordered map. Where all places are below 100,000 and none
/// comes twice, it asks no map.
///
/// The answer is the least repeat at or below `horizon`. `horizon` is at most 100,000.
///
/// # Errors
///
/// `Broken` exactly where the walk does not go on from some state below the horizon and no repeat
/// comes before. `NoRepeat` exactly where `horizon` steps were taken and no two states are the
/// same. `Memory` where there is no memory for the keys.
pub fn lasso_keyed<W: Keyed>(alloc: Global, walk: &W, horizon: u64) -> Result<Repeat, WalkEnd>
    requires horizon { horizon ≤ greatest_horizon }
    ensures repeat { IfOk result (λ again.
        IsLeastRepeat (W.course walk.now) again.first (again.first + again.length)) }
    ensures within { IfOk result (λ again. again.first + again.length ≤ horizon) }
    ensures ends { IfErr result (IsEnd (W.course walk.now) horizon) }
    ensures only { (other : Result Repeat WalkEnd) → IsWalkAnswer (W.course walk.now) horizon other
        → result ≢ Err WalkEnd.Memory → other ≢ Err WalkEnd.Memory → result ≡ other }
{
    let mut row = Vec::with_capacity(alloc, walk.places().min(FIRST_PLACES) as usize)?;
    let mut others = BTreeMap::new(alloc);
    let mut here = walk.begin(alloc)?;
    let first = walk.state(&here);
    meet(&mut row, &mut others, walk.key(&first), 0)?;
    let mut walked = 0;
    while walked < horizon {
        let Some(next) = walk.step(&mut here) else {
            return Err(WalkEnd::Broken { at: walked });
        };
        walked += 1;
        if let Some(first) = meet(&mut row, &mut others, walk.key(&next), walked)? {
            return Ok(Repeat {
                first,
                length: walked - first,
            });
        }
        let Stretch { steps, key } = walk.pass(&mut here, horizon - walked);
        if let Some(met) = meet_all(&mut row, &mut others, key, walked + 1, steps)? {
            return Ok(Repeat {
                first: met.first,
                length: walked + 1 + met.behind - met.first,
            });
        }
        walked += steps;
    }
    Err(WalkEnd::NoRepeat { walked: horizon })
}

/// A state of a stretch that has the key of an earlier state.
#[derive(Clone, Copy)]
struct Met {
    /// The steps to the earlier state.
    first: u64,
    /// How many states of the stretch stand before this one.
    behind: u64,
}

/// The first of so many states whose key was put down before. The keys of those before it are put down, and all keys
/// where there is none. `steps` are those to the first of the states, and `key` is its key. Each later one has the same
/// mark, and a place that is one further.
#[inline(always)]
fn meet_all(
    row: &mut Vec<Option<(u128, u64)>>,
    others: &mut BTreeMap<Key, u64>,
    key: Option<Key>,
    steps: u64,
    count: u64,
) -> Result<Option<Met>, WalkEnd>
    requires sparse { IsSparse row.old.items (get ⟦<Key as Ord>⟧.cmp others.old) }
    requires short { IfSome key (λ key. key.1 + count ≤ row_places) }
    requires steps { steps + count ≤ row_places + 1 }
    ensures met { IfOk result (λ met. MeetsAll
        (table row.old.items (get ⟦<Key as Ord>⟧.cmp others.old))
        (table row.new.items (get ⟦<Key as Ord>⟧.cmp others.new)) key steps count met) }
    ensures sparse { IfOk result (λ met. met ≡ None
        → IsSparse row.new.items (get ⟦<Key as Ord>⟧.cmp others.new)) }
    ensures memory { IfErr result (λ end. end ≡ WalkEnd.Memory) }
{
    let Some((mark, place)) = key else {
        return Ok(None);
    };
    if row.len() <= place as usize {
        append(row, mark, place, steps, count)?;
        return Ok(None);
    }
    meet_each(row, others, mark, place, steps, count)
}

/// Does what `meet_all` does, with one key after the other.
fn meet_each(
    row: &mut Vec<Option<(u128, u64)>>,
    others: &mut BTreeMap<Key, u64>,
    mark: u128,
    place: u64,
    steps: u64,
    count: u64,
) -> Result<Option<Met>, WalkEnd>
    requires sparse { IsSparse row.old.items (get ⟦<Key as Ord>⟧.cmp others.old) }
    requires short { place + count ≤ row_places }
    requires steps { steps + count ≤ row_places + 1 }
    ensures met { IfOk result (λ met. MeetsAll
        (table row.old.items (get ⟦<Key as Ord>⟧.cmp others.old))
        (table row.new.items (get ⟦<Key as Ord>⟧.cmp others.new)) (Some (mark, place)) steps count met) }
    ensures sparse { IfOk result (λ met. met ≡ None
        → IsSparse row.new.items (get ⟦<Key as Ord>⟧.cmp others.new)) }
    ensures memory { IfErr result (λ end. end ≡ WalkEnd.Memory) }
{
    for behind in 0..count {
        if let Some(first) = meet(row, others, Some((mark, place + behind)), steps + behind)? {
            return Ok(Some(Met { first, behind }));
        }
    }
    Ok(None)
}

/// Puts the mark down at so many places, of which the first is behind the end of the row. At each place the steps are one
/// more. The row then ends with these places.
fn append(
    row: &mut Vec<Option<(u128, u64)>>,
    mark: u128,
    place: u64,
    steps: u64,
    count: u64,
) -> Result<(), WalkEnd>
    requires behind { length row.old.items ≤ place }
    requires short { place + count ≤ row_places }
    requires steps { steps + count ≤ row_places + 1 }
    ensures met { IfOk result (λ _. (others : ℕ × ℕ → Option ℕ) → IsSparse row.old.items others
        → MeetsRun (table row.old.items others) (table row.new.items others) (Some (mark, place)) steps count) }
    ensures sparse { IfOk result (λ _. (others : ℕ × ℕ → Option ℕ) → IsSparse row.old.items others
        → IsSparse row.new.items others) }
    ensures memory { IfErr result (λ end. end ≡ WalkEnd.Memory) }
{
    reach(row, place)?;
    make_room(row, count)?;
    for behind in 0..count {
        row.push_reserved(Some((mark, steps + behind)));
    }
    Ok(())
}

/// The steps to the earlier state with this key, which is put down with these steps where there is no earlier one. At
/// each place the first key stands in the row, with its steps, and the others stand in the map.
#[inline(always)]
fn meet(
    row: &mut Vec<Option<(u128, u64)>>,
    others: &mut BTreeMap<Key, u64>,
    key: Option<Key>,
    steps: u64,
) -> Result<Option<u64>, WalkEnd>
    requires sparse { IsSparse row.old.items (get ⟦<Key as Ord>⟧.cmp others.old) }
    ensures met { IfOk result (λ before. Meets
        (table row.old.items (get ⟦<Key as Ord>⟧.cmp others.old))
        (table row.new.items (get ⟦<Key as Ord>⟧.cmp others.new)) key steps before) }
    ensures sparse { IfOk result (λ before. before ≡ None
        → IsSparse row.new.items (get ⟦<Key as Ord>⟧.cmp others.new)) }
    ensures memory { IfErr result (λ end. end ≡ WalkEnd.Memory) }
{
    let Some((mark, place)) = key else {
        return Ok(None);
    };
    if place >= PLACES {
        return note(others, mark, place, steps);
    }
    if row.len() <= place as usize {
        lengthen(row, mark, place, steps)?;
        return Ok(None);
    }
    match row[place as usize] {
        None => {
            row[place as usize] = Some((mark, steps));
            Ok(None)
        }
        Some((first, before)) => {
            if first == mark {
                Ok(Some(before))
            } else {
                note(others, mark, place, steps)
            }
        }
    }
}

/// Puts the mark and the steps down at a place behind the end of the row, which then ends with it. Where the row ends
/// before this place and has room, that is all.
#[inline(always)]
fn lengthen(
    row: &mut Vec<Option<(u128, u64)>>,
    mark: u128,
    place: u64,
    steps: u64,
) -> Result<(), WalkEnd>
    requires place { place < row_places }
    requires behind { length row.old.items ≤ place }
    ensures short { IfOk result (λ _. length row.new.items ≤ row_places) }
    ensures stands { IfOk result (λ _. slice_index_or row.new.items place None ≡ Some (mark, steps)) }
    ensures same { IfOk result (λ _. (other : ℕ) → other ≢ place
        → slice_index_or row.new.items other None ≡ slice_index_or row.old.items other None) }
    ensures memory { IfErr result (λ end. end ≡ WalkEnd.Memory) }
{
    if row.len() == place as usize && row.len() < row.capacity() {
        row.push_reserved(Some((mark, steps)));
        return Ok(());
    }
    lengthen_far(row, mark, place, steps)
}

/// The same where the row does not reach up to the place, or has no room.
#[inline(never)]
fn lengthen_far(
    row: &mut Vec<Option<(u128, u64)>>,
    mark: u128,
    place: u64,
    steps: u64,
) -> Result<(), WalkEnd>
    requires place { place < row_places }
    requires behind { length row.old.items ≤ place }
    ensures short { IfOk result (λ _. length row.new.items ≤ row_places) }
    ensures stands { IfOk result (λ _. slice_index_or row.new.items place None ≡ Some (mark, steps)) }
    ensures same { IfOk result (λ _. (other : ℕ) → other ≢ place
        → slice_index_or row.new.items other None ≡ slice_index_or row.old.items other None) }
    ensures memory { IfErr result (λ end. end ≡ WalkEnd.Memory) }
{
    reach(row, place)?;
    make_room(row, 1)?;
    row.push_reserved(Some((mark, steps)));
    Ok(())
}

/// Makes room for so many more in the row. A row without it grows by an eighth, or by as many as they are, so that it
/// takes little more memory than it needs.
fn make_room(row: &mut Vec<Option<(u128, u64)>>, count: u64) -> Result<(), AllocError>
    requires short { length row.old.items + count ≤ row_places }
    ensures room { OnOk result (vec_len row.new + count ≤ vec_capacity row.new) }
    ensures same { row.new.items ≡ row.old.items }
{
    if row.capacity() - row.len() < count as usize {
        row.reserve_exact((row.len() / 8 + 16).max(count as usize))?;
    }
    Ok(())
}

/// Makes the row reach up to the place, and changes nothing that stands in it.
fn reach(row: &mut Vec<Option<(u128, u64)>>, place: u64) -> Result<(), AllocError>
    requires behind { length row.old.items ≤ place }
    ensures reached { OnOk result (length row.new.items ≡ place) }
    ensures same { OnOk result ((other : ℕ)
        → slice_index_or row.new.items other None ≡ slice_index_or row.old.items other None) }
{
    if row.capacity() < place as usize {
        row.reserve_exact(place as usize - row.len())?;
    }
    while row.len() < place as usize {
        row.push_reserved(None);
    }
    Ok(())
}

/// The steps that stood under this mark and place in the map, where there were any. These steps now stand there.
fn note(
    others: &mut BTreeMap<Key, u64>,
    mark: u128,
    place: u64,
    steps: u64,
) -> Result<Option<u64>, WalkEnd>
    ensures met { IfOk result (λ before. Meets (get ⟦<Key as Ord>⟧.cmp others.old)
        (get ⟦<Key as Ord>⟧.cmp others.new) (Some (mark, place)) steps before) }
    ensures memory { IfErr result (λ end. end ≡ WalkEnd.Memory) }
{
    let key = (mark, place);
    let earlier = others.insert(key, steps)?;
    Ok(earlier)
}
