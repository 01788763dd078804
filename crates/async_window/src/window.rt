//! The asynchronous window of one cycle, and when a frame of some length may start in it. All times are bit times.

ghost use Rattle.std.specs.Prelude.{◌≡◌, ℕ, ◌+◌, ◌-◌, ◌/◌, ◌^◌, ◌<◌, ◌≤◌, ◌↔◌, IfSome, IsTrue, MatchOption};
ghost use Rattle.profile.specs.Limits.{times_end};
ghost use Rattle.stuff_bound.specs.Stuffing.{worst};
ghost use Rattle.cycle_layout.specs.Layout.{IsLayout, async_open, sync_start};
ghost use Rattle.async_window.specs.Mailbox.{IsLeastWith};

use cycle_layout::Layout;
use stuff_bound::bound;

/// How many numbers of data bytes a frame may have: 0 to 8.
const LENGTHS: u8 = 9;

/// The asynchronous window of one cycle.
#[derive(Clone, Copy)]
pub struct Window {
    /// Its start.
    pub opened: u64,
    /// The start of the synchronous window, before which each frame has to end.
    pub closed: u64,
}

/// The window of a cycle, which is that of `at`, whose synchronous window has the length `l`. No division is made.
pub fn window_in(layout: &Layout, cycle: u64, at: u64, l: u32) -> Window
    requires window { l ≤ layout.now.window }
    requires time { at < times_end }
    requires cycle { cycle ≡ at / layout.now.cycle }
    ensures opened { result.opened ≡ async_open layout.now (at / layout.now.cycle) }
    ensures closed { result.closed ≡ sync_start layout.now (at / layout.now.cycle) l }
    ensures known { IsLayout layout.now }
{
    let start = cycle * u64::from(layout.cycle());
    Window {
        opened: start + layout.async_open(0),
        closed: start + layout.sync_start(0, l),
    }
}

impl Window {
    /// The greatest number of data bytes with which a frame may start at `at`, where any may.
    pub fn room(&self, at: u64) -> Option<u8>
        requires time { at < times_end }
        ensures room { MatchOption result
            ((bytes : ℕ) → bytes ≤ 8 → self.now.opened ≤ at → at + worst bytes ≤ self.now.closed → ⊥)
            (λ room. (room ≤ 8) × (self.now.opened ≤ at) × (at + worst room ≤ self.now.closed)
            × ((bytes : ℕ) → bytes ≤ 8 → at + worst bytes ≤ self.now.closed → bytes ≤ room)) }
    {
        if at < self.opened {
            return None;
        }
        for less in 0..LENGTHS {
            let bytes = LENGTHS - 1 - less;
            if at + u64::from(bound(bytes)) <= self.closed {
                return Some(bytes);
            }
        }
        None
    }

    /// Whether no frame may start behind `at`, since even the shortest one would not end before the synchronous window.
    pub fn is_over(&self, at: u64) -> bool
        requires time { at < times_end }
        ensures over { IsTrue result ↔ (self.now.closed ≤ at + worst 0) }
    {
        self.closed <= at + u64::from(bound(0))
    }

    /// The last time at which a frame of so many data bytes may start, where it ends before the synchronous window.
    pub fn last(&self, bytes: u8) -> u64
        requires bytes { bytes ≤ 8 }
        ensures last { result ≡ self.now.closed - worst bytes }
    {
        self.closed.saturating_sub(u64::from(bound(bytes)))
    }

    /// The least time behind `at` at which a frame of so many data bytes, which arrives at `arrival`, may start.
    pub fn earliest(&self, at: u64, arrival: u64, bytes: u8) -> Option<u64>
        requires time { at < times_end }
        requires bytes { bytes ≤ 8 }
        ensures earliest { IsLeastWith (λ later. (at < later) × (arrival ≤ later) × (self.now.opened ≤ later)
            × (later + worst bytes ≤ self.now.closed)) result }
        ensures some { IfSome result (λ time. time < 2 ^ 64) }
    {
        let last = self.last(bytes);
        let earliest = arrival.max(at + 1).max(self.opened);
        if earliest <= last {
            Some(earliest)
        } else {
            None
        }
    }
}
