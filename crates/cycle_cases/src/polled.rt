//! Runs of a bus with one node and one polled slot.

ghost use Rattle.std.specs.Prelude.{◌≡◌, ◌+◌, ◌^◌, ◌<◌, ◌≤◌, true, All, IfOk, IfSome, OnOk};
ghost use Rattle.profile.specs.Limits.{first_slots};
ghost use Rattle.requirement_table.specs.Table.{IsWellPlaced};
ghost use Rattle.sporadic_poll.specs.PolledNodes.{AreNext};

use can_frame::TimedFrame;
use cases::{CaseTable, Fault, cut, small};
use cycle_layout::Layout;
use profile::{FIRST_IDENTIFIER, FIRST_SLOTS};
use requirement_table::{Entry, Mask, Order, Placed, PlacedList, released_in, well_placed};
use sporadic_poll::{PolledNodes, Stream, read_streams, run_polled};
use std::alloc::Global;

/// The cycle's length, in bit times.
const CYCLE: u32 = 1000;

/// The longest synchronous window, in bit times: that of a frame of eight bytes.
const WINDOW: u32 = 135;

/// The number of slots.
const SLOTS: u8 = FIRST_SLOTS;

/// The longest run, in cycles.
const LONGEST_RUN: u8 = 10;

/// Runs of a table of one entry, each with the rows of a streams file, which a `;` separates.
#[derive(Drop)]
pub struct PolledCases;

impl CaseTable for PolledCases {
    ghost use Rattle.std.specs.Prelude.{⊤};

    ghost IsReady = { λ _. ⊤ };

    fn answer(&mut self, alloc: Global, given: &str) -> Result<String, Fault> {
        let (word, fields) = cut(given, ' ');
        match word {
            "run" => asked(alloc, fields),
            _ => Err(Fault::Unread),
        }
    }
}

/// Runs a table of one entry: its slot, bytes, phase, period and deadline, the number of cycles, and the rows.
fn asked(alloc: Global, fields: &str) -> Result<String, Fault> {
    let (slot, rest) = cut(fields, ' ');
    let (bytes, rest) = cut(rest, ' ');
    let (phase, rest) = cut(rest, ' ');
    let (period, rest) = cut(rest, ' ');
    let (deadline, rest) = cut(rest, ' ');
    let (count, rows) = cut(rest, ' ');
    let entry = Entry {
        slot: small(slot)?,
        node: 0,
        length: small(bytes)?,
        phase: u16::from(small(phase)?),
        period: u16::from(small(period)?),
        deadline: u16::from(small(deadline)?),
        priority: 0,
    };
    let count = small(count)?;
    let text = rows.replace(alloc, ";", "\n")?;
    match read_streams(alloc, text.as_bytes(), SLOTS) {
        Ok(streams) => run(alloc, streams.as_slice(), entry, count),
        Err(_) => Err(Fault::Unread),
    }
}

/// Whether the slots of a set are slots of the bus.
fn fits(mask: Mask) -> bool
    ensures slots { result ≡ true → mask < 2 ^ first_slots }
{
    mask.bits() < 1 << FIRST_SLOTS
}

/// The list, where it is to be learnt.
fn list_if(alloc: Global, placed: &[Placed], wanted: bool) -> Result<Option<PlacedList>, Fault>
    requires well_placed { IsWellPlaced placed.now }
    ensures well_placed { IfOk result (λ list. IfSome list IsWellPlaced) }
{
    if wanted {
        Ok(Some(PlacedList::of(Vec::from_slice(alloc, placed)?)))
    } else {
        Ok(None)
    }
}

/// Runs one cycle, in which these slots are flagged. The list is learnt before cycle 0.
fn one_cycle(
    alloc: Global,
    nodes: &mut PolledNodes,
    placed: &[Placed],
    mask: Mask,
    cycle: u64,
    length: u8,
) -> Result<Vec<TimedFrame>, Fault>
    requires well_placed { IsWellPlaced placed.now }
    requires window { nodes.old.nodes.layout.window ≡ 135 }
    requires slots { nodes.old.nodes.layout.slots ≡ first_slots }
    requires mask { mask < 2 ^ first_slots }
    requires next { AreNext cycle nodes.old }
    requires few { cycle < 10 }
    requires short { length ≤ 8 }
    ensures layout { nodes.new.nodes.layout ≡ nodes.old.nodes.layout }
    ensures next { OnOk result (AreNext (cycle + 1) nodes.new) }
{
    let worst = 55 + 10 * u32::from(length);
    let l = if mask.bits() == 0 { 0 } else { worst };
    let order = Order {
        cycle,
        mask,
        l,
        learned: list_if(alloc, placed, cycle == 0)?,
    };
    Ok(run_polled(alloc, &order, nodes)?)
}

/// Puts the cycle and the bytes of each frame of a slot behind a text.
fn tell(text: &mut String, cycle: u64, slot: u8, frames: &[TimedFrame]) -> Result<(), Fault> {
    for sent in frames {
        if sent.frame.id() == FIRST_IDENTIFIER + u16::from(slot) {
            let bytes = sent.frame.bytes();
            write!(text, " {cycle} {bytes:?}")?;
        }
    }
    Ok(())
}

/// Runs the next cycle, in which the one entry is sent where it is released, and tells its frames.
fn run_next(
    alloc: Global,
    nodes: &mut PolledNodes,
    placed: &[Placed],
    entry: Entry,
    cycle: u64,
    text: &mut String,
) -> Result<(), Fault>
    requires well_placed { IsWellPlaced placed.now }
    requires window { nodes.old.nodes.layout.window ≡ 135 }
    requires slots { nodes.old.nodes.layout.slots ≡ first_slots }
    requires next { AreNext cycle nodes.old }
    requires few { cycle < 10 }
    requires short { entry.length ≤ 8 }
    ensures layout { nodes.new.nodes.layout ≡ nodes.old.nodes.layout }
    ensures next { OnOk result (AreNext (cycle + 1) nodes.new) }
{
    let mask = released_in(placed, cycle);
    if !fits(mask) {
        return Err(Fault::Unread);
    }
    let frames = one_cycle(alloc, nodes, placed, mask, cycle, entry.length)?;
    tell(text, cycle, entry.slot, frames.as_slice())
}

/// Runs the first cycles of a bus of one node, whose one entry is sent in the cycle of each release. The answer is the
/// cycle and the bytes of each frame of the slot, and then what became of each request. Each request is of one of the
/// 40 slots of the bus.
fn run(alloc: Global, streams: &[Stream], entry: Entry, count: u8) -> Result<String, Fault>
    requires known { All (λ stream. stream.slot < first_slots) streams.now }
{
    let placed = [Placed {
        entry,
        origin: 0,
        end: None,
    }];
    let Ok(layout) = Layout::new(CYCLE, 0, WINDOW, SLOTS) else {
        return Err(Fault::Unread);
    };
    if !well_placed(&placed) || entry.length > 8 || count > LONGEST_RUN {
        return Err(Fault::Unread);
    }
    let mut nodes = PolledNodes::new(alloc, layout, 1, streams)?;
    let mut text = String::from_str(alloc, "frames")?;
    for cycle in 0..u64::from(count) {
        run_next(alloc, &mut nodes, &placed, entry, cycle, &mut text)?;
    }
    write!(text, ", fates {:?}", nodes.rides().fates())?;
    Ok(text)
}
