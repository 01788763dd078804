//! What hears the rows of a run while it goes on: a sink, the last rows, or nothing.

ghost use Rattle.std.specs.Prelude.{◌≡◌, ◌≤◌, ◌+◌, ◌++◌, [], List, ℕ, IfOk, OnErr, OnOk, Some, length};
ghost use Rattle.bus_trace.specs.EventRows.{HasItsFrames, rows_of_event};
ghost use Rattle.bus_trace.specs.LastRows.{AreRows, last_rows, rows_in};
ghost use Rattle.bus_trace.specs.Log.{end_row};
ghost use Rattle.bus_trace.specs.Logged.{IsEventNear};
ghost use Rattle.replay_run.specs.Heard.{HoldsLast, PassesOn, rows_held};

use bus_trace::laws::rows_are_whole;
use bus_trace::{Gathered, last_from, least_rows, put_end_row, put_event_rows};
use can_frame::TimedFrame;
use ftt_io::{Failed, Sink};
use master_core::Event;
use std::alloc::{AllocError, Global};
use std::mem;

/// What hears the rows of each event, when it was answered and its cycle was run, and then the last row.
///
/// Its meaning is two relations between what it was before some rows and what it is after them: it has heard them all,
/// or it broke off within them.
pub trait Listener {
    ghost heard: { Self → List ℕ → Self → Type 0 };

    ghost broke: { Self → List ℕ → Self → Type 0 };

    /// Hears the rows of an event and of the frames of the cycle that it opened.
    fn hear(&mut self, alloc: Global, event: &Event, frames: &[TimedFrame]) -> Result<(), Failed>
        requires near { IsEventNear event.now }
        requires frames { HasItsFrames event.now frames.now }
        ensures heard { OnOk result (heard self.old (rows_of_event event.now frames.now) self.new) }
        ensures broke { OnErr result (broke self.old (rows_of_event event.now frames.now) self.new) };

    /// Hears the last row, with the number of opened cycles.
    fn hear_end(&mut self, alloc: Global, next: u64) -> Result<(), Failed>
        ensures heard { OnOk result (heard self.old (end_row next) self.new) }
        ensures broke { OnErr result (broke self.old (end_row next) self.new) };

    /// Passes on what it holds back of the rows that it heard. It hears none meanwhile.
    fn pass_on(&mut self) -> Result<(), Failed>
        ensures heard { OnOk result (PassesOn heard heard self.old self.new) }
        ensures broke { OnErr result (PassesOn heard broke self.old self.new) };

    ghost nothing: { (one : Self) → heard one [] one };

    ghost more: { (one other third : Self) (rows later : List ℕ)
        → heard one rows other → heard other later third → heard one (rows ++ later) third };

    ghost broke_later: { (one other third : Self) (rows later : List ℕ)
        → heard one rows other → broke other later third → broke one (rows ++ later) third };
}

/// One who hears nothing of the rows.
#[derive(Drop)]
pub struct Silence;

impl Listener for Silence {
    ghost use Rattle.std.specs.Prelude.{⊤};

    ghost heard = { λ old rows new. ⊤ };

    ghost broke = { λ old rows new. ⊤ };

    fn hear(
        &mut self,
        _alloc: Global,
        _event: &Event,
        _frames: &[TimedFrame],
    ) -> Result<(), Failed> {
        Ok(())
    }

    fn hear_end(&mut self, _alloc: Global, _next: u64) -> Result<(), Failed> {
        Ok(())
    }

    fn pass_on(&mut self) -> Result<(), Failed> {
        Ok(())
    }

    ghost nothing = { λ one. tt };

    ghost more = { λ one other third rows later first second. tt };

    ghost broke_later = { λ one other third rows later first second. tt };
}

/// A sink to which the rows are put, those of a cycle together.
#[derive(Drop)]
pub struct ToSink<'a, O> {
    pub out: &'a mut O,
}

impl<'a, O: Sink> Listener for ToSink<'a, O> {
    ghost use Rattle.std.specs.Prelude.{◌≡◌, refl};
    ghost use Rattle.std.proofs.Common.{◌∙◌};
    ghost use Rattle.replay_run.specs.Heard.{BreaksOff, TakesRows, breaks-later, takes-more, takes-nothing};

    ghost heard = { λ old rows new. (new.out.ghost_name ≡ old.out.ghost_name)
        × TakesRows O.told_bytes O.faults old.out.now rows new.out.now };

    ghost broke = { λ old rows new. (new.out.ghost_name ≡ old.out.ghost_name)
        × BreaksOff O.told_bytes O.faults old.out.now rows new.out.now };

    fn hear(&mut self, _alloc: Global, event: &Event, frames: &[TimedFrame]) -> Result<(), Failed> {
        put_event_rows(self.out, event, frames)
    }

    fn hear_end(&mut self, _alloc: Global, next: u64) -> Result<(), Failed> {
        put_end_row(self.out, next)
    }

    fn pass_on(&mut self) -> Result<(), Failed> {
        self.out.pass_on()
    }

    ghost nothing = { λ one. (refl, takes-nothing O.told_bytes O.faults one.out.now) };

    ghost more = { λ one other third rows later first second. (
      second.0 ∙ first.0,
      takes-more O.told_bytes O.faults one.out.now other.out.now third.out.now rows later first.1 second.1,
    ) };

    ghost broke_later = { λ one other third rows later first second. (
      second.0 ∙ first.0,
      breaks-later O.told_bytes O.faults one.out.now other.out.now third.out.now rows later first.1 second.1,
    ) };
}

/// Older rows are dropped once so many bytes were heard after them, and not before.
const LEAST_TEXT: usize = 65_536;

/// The last rows. It holds no more of the log than twice these, 128 KiB, and the rows of two events.
#[derive(Drop)]
pub struct Tail {
    /// Rows before those of `newer`.
    older: Gathered,
    /// The rows that were heard last.
    newer: Gathered,
    /// How many rows the newer ones are, at least.
    count: usize,
    /// How many rows are the last ones.
    most: usize,
}

impl Tail {
    /// No rows yet; the last `rows` of them are kept.
    pub fn new(alloc: Global, rows: usize) -> Tail
        ensures none { HoldsLast [] result }
        ensures most { result.most ≡ rows }
    {
        Tail {
            older: Gathered::behind(Vec::new(alloc)),
            newer: Gathered::behind(Vec::new(alloc)),
            count: 0,
            most: rows,
        }
    }

    /// The last rows as one text.
    ///
    /// # Errors
    ///
    /// Only where memory runs out.
    pub fn text(&self, alloc: Global) -> Result<Vec<u8>, AllocError>
        ensures last { IfOk result (λ text. AreRows (rows_held self.now)
            → text.items ≡ last_rows (Some self.now.most) (rows_held self.now)) }
    {
        let mut rows = self.older.text.as_slice().to_vec(alloc)?;
        rows.extend_from_slice(self.newer.text.as_slice())?;
        let rows = rows.as_slice();
        rows[last_from(rows, self.most)..].to_vec(alloc)
    }

    /// Puts the rows of an event behind the others.
    fn add(&mut self, event: &Event, frames: &[TimedFrame]) -> Result<(), Failed>
        requires near { IsEventNear event.now }
        requires frames { HasItsFrames event.now frames.now }
        ensures older { self.new.older.text.items ≡ self.old.older.text.items }
        ensures newer { OnOk result
            (self.new.newer.text.items ≡ self.old.newer.text.items ++ rows_of_event event.now frames.now) }
        ensures count { OnOk result
            (self.new.count ≤ self.old.count + length (rows_in (rows_of_event event.now frames.now))) }
        ensures most { self.new.most ≡ self.old.most }
    {
        put_event_rows(&mut self.newer, event, frames)?;
        self.count = self.count.saturating_add(least_rows(event, frames));
        Ok(())
    }

    /// Puts the last row behind the others.
    fn add_end(&mut self, next: u64) -> Result<(), Failed>
        ensures older { self.new.older.text.items ≡ self.old.older.text.items }
        ensures newer { OnOk result (self.new.newer.text.items ≡ self.old.newer.text.items ++ end_row next) }
        ensures count { self.new.count ≡ self.old.count }
        ensures most { self.new.most ≡ self.old.most }
    {
        put_end_row(&mut self.newer, next)
    }

    /// Drops the older rows, where the newer ones are enough. It takes no memory.
    fn drop_older(&mut self)
        ensures most { self.new.most ≡ self.old.most }
        ensures kept { (past : List ℕ) → HoldsLast past self.old → HoldsLast past self.new }
    {
        rows_are_whole();
        if self.count < self.most || self.newer.text.len() < LEAST_TEXT {
            return;
        }
        mem::swap(&mut self.older, &mut self.newer);
        self.newer.text.clear();
        self.count = 0;
    }
}

impl Listener for Tail {
    ghost use Rattle.std.specs.Prelude.{⊤};
    ghost use Rattle.replay_run.specs.Heard.{Keeps, keeps-more, keeps-nothing};

    ghost heard = { Keeps };

    ghost broke = { λ old rows new. ⊤ };

    fn hear(&mut self, _alloc: Global, event: &Event, frames: &[TimedFrame]) -> Result<(), Failed> {
        rows_are_whole();
        self.add(event, frames)?;
        self.drop_older();
        Ok(())
    }

    fn hear_end(&mut self, _alloc: Global, next: u64) -> Result<(), Failed> {
        rows_are_whole();
        self.add_end(next)
    }

    /// The last rows are known at the end alone, so it passes on nothing before.
    fn pass_on(&mut self) -> Result<(), Failed> {
        Ok(())
    }

    ghost nothing = { keeps-nothing };

    ghost more = { keeps-more };

    ghost broke_later = { λ one other third rows later first second. tt };
}
