//! The bytes that were set for slots.

ghost use Rattle.std.specs.Prelude.{◌≡◌, ℕ, ◌<◌, ◌==◌, ◌&&◌, None, Some, slice_index_or, if◌then◌else◌};
ghost use Rattle.requirement_table.specs.Table.{IsWellPlaced};
ghost use Rattle.node_model.specs.Node.{entries_of};
ghost use Rattle.live_node.specs.Live.{keeps_bytes, origin_of};
ghost use Rattle.live_node.specs.Sending.{is_as_long, set_or};

use can_frame::Frame;
use profile::MOST_SLOTS;
use requirement_table::Placed;

/// The bytes that were set for each slot, as frames of the slots.
pub type Values = [Option<Frame>; MOST_SLOTS as usize];

/// For each slot the origin of the last of some entries.
pub type Origins = [Option<u64>; MOST_SLOTS as usize];

/// No bytes.
pub fn none_set() -> Values
    ensures none { (slot : ℕ) → slice_index_or result slot None ≡ None }
{
    [None; MOST_SLOTS as usize]
}

/// No entries.
pub fn no_origins() -> Origins
    ensures none { (slot : ℕ) → slice_index_or result slot None ≡ None }
{
    [None; MOST_SLOTS as usize]
}

/// The origins of the last entries of slots among those of a node in a list.
pub fn origins_of(number: u8, placed: &[Placed]) -> Origins
    requires well_placed { IsWellPlaced placed.now }
    ensures origins { (slot : ℕ) → slot < 96
        → slice_index_or result slot None ≡ origin_of (entries_of number placed.now) slot }
{
    let mut origins = no_origins();
    for p in placed {
        note_origin(&mut origins, number, p);
    }
    origins
}

/// Notes the origin of an entry, where it is one of a node.
fn note_origin(origins: &mut Origins, number: u8, p: &Placed)
    requires slot { p.now.entry.slot < 96 }
    ensures noted { (slot : ℕ) → slot < 96 → slice_index_or origins.new slot None
        ≡ (if (p.now.entry.node == number) && (p.now.entry.slot == slot) then Some p.now.origin
        else slice_index_or origins.old slot None) }
{
    if p.entry.node == number {
        origins[usize::from(p.entry.slot)] = Some(p.origin);
    }
}

/// Forgets the bytes of slots whose last entry is another one than before.
pub fn keep_bytes(values: &mut Values, before: &Origins, now: &Origins)
    ensures kept { (slot : ℕ) → slot < 96 → slice_index_or values.new slot None
        ≡ (if keeps_bytes (slice_index_or before.now slot None) (slice_index_or now.now slot None)
        then slice_index_or values.old slot None else None) }
{
    for slot in 0..MOST_SLOTS as usize {
        values[slot] = kept_value(&values[slot], before[slot], now[slot]);
    }
}

/// The bytes of a slot, where its last entry is still the same.
fn kept_value(value: &Option<Frame>, before: Option<u64>, now: Option<u64>) -> Option<Frame>
    ensures kept { result ≡ (if keeps_bytes before now then value.now else None) }
{
    if keeps_bytes(before, now) {
        *value
    } else {
        None
    }
}

/// Whether an entry is still the same.
fn keeps_bytes(before: Option<u64>, now: Option<u64>) -> bool
    ensures keeps { result ≡ keeps_bytes before now }
{
    match before {
        Some(before) => match now {
            Some(now) => before == now,
            None => false,
        },
        None => false,
    }
}

/// The bytes that were set for a slot.
pub fn value_of(values: &Values, slot: u8) -> Option<Frame>
    ensures set { result ≡ slice_index_or values.now slot None }
{
    match values.get(usize::from(slot)) {
        Some(set) => *set,
        None => None,
    }
}

/// Whether bytes were set, as many as a frame has.
pub fn is_as_long(set: &Option<Frame>, frame: &Frame) -> bool
    ensures as_long { result ≡ is_as_long set.now frame.now.bytes }
{
    match set {
        Some(set) => set.dlc() == frame.dlc(),
        None => false,
    }
}

/// A frame with the bytes that were set, where these are as many.
pub fn filled(set: &Option<Frame>, frame: &Frame) -> Frame
    ensures filled { result ≡ record frame.now { bytes = set_or set.now frame.now.bytes } }
{
    match set {
        Some(set) => with_bytes(frame, set),
        None => *frame,
    }
}

/// A frame with other bytes, where these are as many.
fn with_bytes(frame: &Frame, set: &Frame) -> Frame
    ensures frame { result ≡ record frame.now { bytes = set_or (Some set.now) frame.now.bytes } }
{
    if set.dlc() != frame.dlc() {
        return *frame;
    }
    match Frame::new(frame.id(), set.bytes()) {
        Ok(frame) => frame,
        Err(_) => unreachable!(),
    }
}
