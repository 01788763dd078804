//! The layout of an elementary cycle: the trigger part, the turnaround, the asynchronous window and the
//! synchronous window that ends the cycle. All lengths and times are bit times.
#![tactic(auto)]

ghost use Rattle.std.specs.Prelude.{◌≡◌, ℕ, ◌+◌, ◌*◌, ◌/◌, ◌<◌, ◌≤◌, ◌↔◌, IfErr, IfOk, IsTrue};
ghost use Rattle.profile.specs.Limits.{cycles_end};
ghost use Rattle.trigger_kind.specs.Kind.{IsSlots, triggers_of};
ghost use Rattle.cycle_layout.specs.Layout.{IsAllowed, IsLayout, async_open, sync_start, trigger_part};
ghost use Rattle.cycle_layout.specs.LayoutFault.{RefusesLayout};

use profile::{LONGEST_CYCLE, LONGEST_TURNAROUND, LONGEST_WINDOW, SHORTEST_CYCLE, SHORTEST_WINDOW};
use std::error::Error;
use std::fmt;
use std::marker::Model;
use stuff_bound::bound;
use trigger_kind::Triggers;

/// What is the same in every cycle: the lengths of the cycle itself, of the turnaround behind the
/// trigger part and of the largest synchronous window, and the number of slots.
#[derive(Clone, Copy, Debug, PartialEq, Eq)]
pub struct Layout {
    cycle: u32,
    turnaround: u32,
    window: u32,
    slots: u8,
}

impl Model for Layout {
    ghost use Rattle.cycle_layout.specs.Layout.{CycleLayout, IsLayout};

    ghost Value = { CycleLayout };

    ghost view = { λ l.
        record { cycle = l.cycle; turnaround = l.turnaround; window = l.window; slots = l.slots } };

    ghost invariant = { λ l.
        IsLayout (record { cycle = l.cycle; turnaround = l.turnaround; window = l.window; slots = l.slots }) };

    ghost inverse = { λ l.
        record { cycle = l.cycle; turnaround = l.turnaround; window = l.window; slots = l.slots } };
}

/// Why numbers are no layout.
#[derive(Clone, Copy, Debug, PartialEq, Eq)]
pub enum LayoutFault {
    /// The cycle is not 400 to 100,000 bit times long.
    CycleRange,
    /// The turnaround is above 1,000 bit times.
    TurnRange,
    /// The largest synchronous window is not 55 to 16,383 bit times long.
    WindowRange,
    /// The trigger part, the turnaround and the largest synchronous window need more than the cycle
    /// has.
    TooNarrow { need: u32, have: u32 },
}

impl fmt::Display for LayoutFault {
    fn fmt<W: fmt::Write>(&self, f: &mut fmt::Formatter<W>) -> fmt::Result {
        match self {
            LayoutFault::CycleRange => write!(f, "the cycle is not 400 to 100000 bit times long"),
            LayoutFault::TurnRange => write!(f, "the turnaround is above 1000 bit times"),
            LayoutFault::WindowRange => {
                write!(f, "the window is not 55 to 16383 bit times long")
            }
            LayoutFault::TooNarrow { need, have } => {
                write!(f, "{need} bit times are needed, and the cycle has {have}")
            }
        }
    }
}

impl Error for LayoutFault {}

impl Layout {
    /// The layout with cycles of `e` bit times, the turnaround `r`, synchronous windows of at most
    /// `w` bit times, and `slots` slots, 40 or 96.
    ///
    /// A cycle out of its range is refused first, then a turnaround, then a window, then a cycle
    /// that is too narrow.
    pub fn new(e: u32, r: u32, w: u32, slots: u8) -> Result<Layout, LayoutFault>
        requires slots { IsSlots slots }
        ensures layout { IfOk result
            (λ l. l ≡ record { cycle = e; turnaround = r; window = w; slots = slots }) }
        ensures known { IfOk result IsLayout }
        ensures fault { IfErr result (RefusesLayout e r w slots) }
    {
        if !(SHORTEST_CYCLE..=LONGEST_CYCLE).contains(&e) {
            return Err(LayoutFault::CycleRange);
        }
        if r > LONGEST_TURNAROUND {
            return Err(LayoutFault::TurnRange);
        }
        if !(SHORTEST_WINDOW..=LONGEST_WINDOW).contains(&w) {
            return Err(LayoutFault::WindowRange);
        }
        let need = Triggers::of(slots).part() + r + w;
        if need > e {
            return Err(LayoutFault::TooNarrow { need, have: e });
        }
        Ok(Layout {
            cycle: e,
            turnaround: r,
            window: w,
            slots,
        })
    }

    /// The lengths are in range. This does nothing: it brings the fact to a proof.
    pub fn is_in_range(&self)
        ensures known { IsLayout self.now }
    {
        let _ = self.cycle();
    }

    /// The length of a cycle.
    pub fn cycle(&self) -> u32
        ensures value { result ≡ self.now.cycle }
        ensures known { IsLayout self.now }
    {
        self.cycle
    }

    /// The turnaround: the time that nodes have between the trigger part and the asynchronous window.
    pub fn turnaround(&self) -> u32
        ensures value { result ≡ self.now.turnaround }
        ensures known { IsLayout self.now }
    {
        self.turnaround
    }

    /// The length of the largest synchronous window.
    pub fn window(&self) -> u32
        ensures value { result ≡ self.now.window }
        ensures known { IsLayout self.now }
    {
        self.window
    }

    /// S, the number of slots: 40 or 96.
    pub fn slots(&self) -> u8
        ensures value { result ≡ self.now.slots }
        ensures known { IsLayout self.now }
    {
        self.slots
    }

    /// The trigger frames of each cycle: one with 40 slots, two with 96.
    pub fn triggers(&self) -> Triggers
        ensures kind { result ≡ triggers_of self.now.slots }
        ensures known { IsLayout self.now }
    {
        Triggers::of(self.slots)
    }

    /// G, the trigger part: the length of the longest trigger frames of a cycle together, 135 bit
    /// times with 40 slots and 270 with 96.
    pub fn trigger_part(&self) -> u32
        ensures value { result ≡ trigger_part self.now }
        ensures known { IsLayout self.now }
    {
        self.triggers().part()
    }

    /// The start of the asynchronous window of a cycle.
    pub fn async_open(&self, cycle: u64) -> u64
        requires cycle { cycle < cycles_end }
        ensures value { result ≡ async_open self.now cycle }
    {
        cycle * u64::from(self.cycle) + u64::from(self.trigger_part() + self.turnaround)
    }

    /// The start of the synchronous window of a cycle, where that window has the length `l`.
    pub fn sync_start(&self, cycle: u64, l: u32) -> u64
        requires cycle { cycle < cycles_end }
        requires window { l ≤ self.now.window }
        ensures value { result ≡ sync_start self.now cycle l }
    {
        (cycle + 1) * u64::from(self.cycle) - u64::from(l)
    }

    /// Whether a frame of `dlc` data bytes may start at the time `at`, where the synchronous window
    /// of that cycle has the length `l`: the asynchronous window has opened, and the longest frame
    /// of so many bytes ends before the synchronous window.
    pub fn fits(&self, at: u64, dlc: u8, l: u32) -> bool
        requires bytes { dlc ≤ 8 }
        requires window { l ≤ self.now.window }
        ensures allowed { IsTrue result ↔ IsAllowed self.now dlc at (at / self.now.cycle) l }
    {
        let into = at % u64::from(self.cycle);
        let opened = u64::from(self.trigger_part() + self.turnaround);
        let closed = u64::from(self.cycle - l);
        opened <= into && into + u64::from(bound(dlc)) <= closed
    }
}
