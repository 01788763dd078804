//! The last rows of a log.

ghost use Rattle.std.specs.Prelude.{◌≡◌, ◌<◌, ◌≤◌, ◌++◌, ◌∷◌, [], IfOk, OnOk, Some, drop, length, take};
ghost use Rattle.std.specs.List.{concat, flat_map};
ghost use Rattle.circular_buffer.specs.Buffer.{keep_last};
ghost use Rattle.bus_trace.specs.EventRows.{rows_of_event};
ghost use Rattle.bus_trace.specs.LastRows.{AreRows, IsTailOf, last_rows, rows_in};
ghost use Rattle.bus_trace.specs.Recent.{bytes_of};

use can_frame::TimedFrame;
use circular_buffer::HeapCircularBuffer;
use master_core::Event;
use std::alloc::{AllocError, Global};
use std::marker::Model;

/// The last rows of a log, up to a number of them. Contracts see the rows, the oldest one first, and that number.
#[derive(Drop)]
pub struct Recent {
    ring: HeapCircularBuffer<Vec<u8>>,
}

impl Model for Recent {
    ghost use Rattle.std.specs.Prelude.{map};
    ghost use Rattle.bus_trace.specs.Recent.{LastRows, bytes_of};

    ghost Value = { LastRows };

    ghost view = { λ r. record { rows = map bytes_of r.ring.items; most = r.ring.capacity } };
}

impl Recent {
    /// No rows yet, and room for the last `rows` of them.
    ///
    /// # Errors
    ///
    /// Only where memory runs out.
    pub fn new(alloc: Global, rows: usize) -> Result<Recent, AllocError>
        ensures rows { IfOk result (λ recent. recent.rows ≡ []) }
        ensures most { IfOk result (λ recent. recent.most ≡ rows) }
    {
        let ring = HeapCircularBuffer::with_capacity(alloc, rows)?;
        Ok(Recent { ring })
    }

    /// Puts a row behind the others. Where there is no room for it, the oldest row goes. It takes no memory.
    pub fn push(&mut self, row: Vec<u8>)
        ensures rows { self.new.rows ≡ keep_last self.old.most (self.old.rows ++ row.items ∷ []) }
        ensures most { self.new.most ≡ self.old.most }
    {
        self.ring.push_back(row);
    }

    /// The rows as one text, the oldest one first.
    ///
    /// # Errors
    ///
    /// Only where memory runs out.
    pub fn text(&self, alloc: Global) -> Result<Vec<u8>, AllocError>
        ensures text { IfOk result (λ text. text.items ≡ concat self.now.rows) }
    {
        let (older, newer) = self.ring.as_slices();
        let mut text = Vec::new(alloc);
        push_all(&mut text, older)?;
        push_all(&mut text, newer)?;
        Ok(text)
    }
}

/// Appends rows.
fn push_all(text: &mut Vec<u8>, rows: &[Vec<u8>]) -> Result<(), AllocError>
    ensures rows { OnOk result (text.new.items ≡ text.old.items ++ flat_map bytes_of rows.now) }
{
    for row in rows {
        text.extend_from_slice(row.as_slice())?;
    }
    Ok(())
}

/// The number of bytes of the first row of a text, its line feed included.
pub fn row_len(text: &[u8]) -> usize
    requires { 0 < length text.now }
    ensures some { 0 < result }
    ensures within { result ≤ length text.now }
    ensures first { rows_in text.now ≡ take result text.now ∷ rows_in (drop result text.now) }
{
    for (place, byte) in text.iter().enumerate() {
        if *byte == b'\n' {
            return place + 1;
        }
    }
    text.len()
}

/// How many rows those of an event and of its frames are, at least.
pub fn least_rows(event: &Event, frames: &[TimedFrame]) -> usize
    ensures rows { result ≤ length (rows_in (rows_of_event event.now frames.now)) }
{
    match event {
        Event::Submit { trail, .. } => 1 + trail.as_slice().len(),
        Event::Look { .. } => 1,
        Event::Open { .. } => 1 + frames.len(),
    }
}

/// Where the last rows of a text begin, up to `most` of them, where the text is whole rows. It looks at these rows alone,
/// from the last one back.
pub fn last_from(text: &[u8], most: usize) -> usize
    ensures within { result ≤ length text.now }
    ensures last { AreRows text.now → drop result text.now ≡ last_rows (Some most) text.now }
    ensures tail { AreRows text.now → IsTailOf text.now most (drop result text.now) }
{
    let mut place = text.len();
    let mut left = most;
    while place > 0 {
        if text[place - 1] == b'\n' {
            if left == 0 {
                return place;
            }
            left -= 1;
        }
        place -= 1;
    }
    0
}
