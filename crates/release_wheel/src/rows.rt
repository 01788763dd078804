//! The rows of a wheel: where each stands, and what is known of its instances.

ghost use Rattle.std.specs.Prelude.{◌≡◌, ℕ, ◌%◌, ◌<◌, ◌≤◌, true, not, ◌||◌, ◌&&◌, get_or, is_none, length, nat_eq, vec_capacity};
ghost use Rattle.profile.specs.Limits.{cycles_end};
ghost use Rattle.requirement_table.specs.Table.{IsInRange};
ghost use Rattle.release_wheel.specs.Wheel.{HasRoomFor, IsMovedOn, IsPutDown, is_there};
ghost use Rattle.bit_sets.specs.Sets.{has_bit};

use bit_sets::rows::{MOST_ROWS, with, without};
use requirement_table::{Entry, Placed, exists};
use std::alloc::{AllocError, Global};

/// The places of a wheel.
pub const PLACES: usize = 64;

/// What stands in a row until it is filled in.
const NO_ENTRY: Placed = Placed {
    entry: Entry {
        slot: 0,
        node: 0,
        length: 0,
        phase: 0,
        period: 0,
        deadline: 0,
        priority: 0,
    },
    origin: 0,
    end: None,
};

/// Rows, in the order of the policy.
#[derive(Drop, Debug)]
pub struct Rows {
    /// The entry of each row.
    pub entries: Vec<Placed>,
    /// The next release of each row, as if it had no end.
    pub nexts: Vec<u64>,
    /// The last cycle of the instance of each row that waits.
    pub lasts: Vec<u64>,
    /// The rows at each place of the wheel.
    pub places: Vec<u128>,
}

/// The place of a cycle.
#[inline(always)]
pub fn place_of(cycle: u64) -> usize
    ensures place { result ≡ cycle % 64 }
    ensures known { result < 64 }
{
    (cycle % PLACES as u64) as usize
}

/// Whether the entry releases an instance in each cycle, from some cycle on.
#[inline(always)]
pub fn is_always(placed: &Placed) -> bool
    ensures always { result ≡ (nat_eq placed.now.entry.period 1 && is_none placed.now.end) }
{
    placed.entry.period == 1 && placed.end.is_none()
}

/// Room for these rows, which are not filled in.
pub fn rows_of(alloc: Global, rows: &[Placed]) -> Result<Rows, AllocError> {
    Ok(Rows {
        entries: Vec::from_slice(alloc, rows)?,
        nexts: vec![in alloc; 0; rows.len()]?,
        lasts: vec![in alloc; 0; rows.len()]?,
        places: vec![in alloc; 0; PLACES]?,
    })
}

/// No rows, without memory.
pub fn no_rows(alloc: Global) -> Rows {
    Rows {
        entries: Vec::new(alloc),
        nexts: Vec::new(alloc),
        lasts: Vec::new(alloc),
        places: Vec::new(alloc),
    }
}

/// Whether there is room for so many rows.
pub fn has_room(rows: &Rows, count: usize) -> bool
    ensures room { result ≡ true → HasRoomFor count rows.now }
{
    count <= MOST_ROWS
        && count <= rows.entries.capacity()
        && count <= rows.nexts.capacity()
        && count <= rows.lasts.capacity()
        && rows.places.as_slice().len() == PLACES
}

/// Makes room for so many rows, and leaves none.
pub fn clear(rows: &mut Rows, count: usize)
    requires room { HasRoomFor count rows.old }
    ensures entries { length rows.new.entries.items ≡ count }
    ensures nexts { length rows.new.nexts.items ≡ count }
    ensures lasts { length rows.new.lasts.items ≡ count }
    ensures places { length rows.new.places.items ≡ 64 }
    ensures empty { (k : ℕ) → k < 64 → get_or rows.new.places.items k 0 ≡ 0 }
{
    resize(&mut rows.entries, count, NO_ENTRY);
    resize(&mut rows.nexts, count, 0);
    resize(&mut rows.lasts, count, 0);
    empty_places(&mut rows.places);
}

/// Makes a list so long, without memory.
fn resize<T: Copy + Drop>(list: &mut Vec<T>, count: usize, item: T)
    requires room { count ≤ vec_capacity list.old }
    ensures size { length list.new.items ≡ count }
{
    list.truncate(count);
    while list.len() < count {
        list.push_reserved(item);
    }
}

/// Takes all rows off the places.
fn empty_places(places: &mut Vec<u128>)
    requires places { length places.old.items ≡ 64 }
    ensures size { length places.new.items ≡ 64 }
    ensures empty { (k : ℕ) → k < 64 → get_or places.new.items k 0 ≡ 0 }
{
    for place in 0..PLACES {
        places[place] = 0;
    }
}

/// Takes a row that is released in the cycle off its place, and puts it where its next release comes. `last` is the last
/// cycle of the instance that is released.
#[inline(always)]
pub fn move_on(rows: &mut Rows, row: usize, placed: &Placed, cycle: u64, last: u64)
    requires cycle { cycle < cycles_end }
    requires row { row < 128 }
    requires nexts { row < length rows.old.nexts.items }
    requires lasts { row < length rows.old.lasts.items }
    requires places { length rows.old.places.items ≡ 64 }
    requires in_range { IsInRange placed.now }
    ensures moved { IsMovedOn placed.now row cycle last rows.old rows.new }
{
    let next = cycle + u64::from(placed.entry.period);
    take_off(&mut rows.places, place_of(cycle), row);
    put_on(&mut rows.places, place_of(next), row, exists(placed, next));
    rows.nexts[row] = next;
    rows.lasts[row] = last;
}

/// Fills in a row: its entry, its next release, and the last cycle of its instance. Where a release comes the row stands
/// at the place of that release.
pub fn put_down(rows: &mut Rows, row: usize, placed: &Placed, next: u64, last: u64, comes: bool)
    requires row { row < 128 }
    requires entries { row < length rows.old.entries.items }
    requires nexts { row < length rows.old.nexts.items }
    requires lasts { row < length rows.old.lasts.items }
    requires places { length rows.old.places.items ≡ 64 }
    ensures down { IsPutDown placed.now row next last comes rows.old rows.new }
{
    rows.entries[row] = *placed;
    rows.nexts[row] = next;
    rows.lasts[row] = last;
    put_on(&mut rows.places, place_of(next), row, comes);
}

/// Takes a row off a place.
#[inline(always)]
pub fn take_off(places: &mut Vec<u128>, place: usize, row: usize)
    requires place { place < length places.old.items }
    requires row { row < 128 }
    ensures size { length places.new.items ≡ length places.old.items }
    ensures rows { (k other : ℕ) → k < length places.old.items → has_bit (get_or places.new.items k 0) other
        ≡ (has_bit (get_or places.old.items k 0) other && not (is_there place row k other)) }
{
    places[place] = without(places[place], row);
}

/// Puts a row on a place, where that is wanted.
#[inline(always)]
fn put_on(places: &mut Vec<u128>, place: usize, row: usize, wanted: bool)
    requires place { place < length places.old.items }
    requires row { row < 128 }
    ensures size { length places.new.items ≡ length places.old.items }
    ensures rows { (k other : ℕ) → k < length places.old.items → has_bit (get_or places.new.items k 0) other
        ≡ (has_bit (get_or places.old.items k 0) other || (wanted && is_there place row k other)) }
{
    if !wanted {
        return;
    }
    places[place] = with(places[place], row);
}
