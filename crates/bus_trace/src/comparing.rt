//! The rows of an event, compared with a text.
//!
//! The rows are gathered in memory as they are written, and their bytes are compared with the first ones of the text. So no
//! row of the text is read, and none is made as a value.

ghost use Rattle.std.specs.Prelude.{◌∷◌, [], IfSome};
ghost use Rattle.bus_trace.specs.Compared.{BeginsWith};
ghost use Rattle.bus_trace.specs.EventRows.{told_at};
ghost use Rattle.bus_trace.specs.Logged.{IsEventNear};
ghost use Rattle.log_reader.specs.declared.row.LogRow.TheVariants.{End};

use crate::gathering::Gathered;
use crate::streaming::{put_end_row, put_rows};
use can_frame::TimedFrame;
use log_reader::strip_prefix;
use master_core::Event;

/// What stands after the rows of an event and of these frames, where a text begins with them: nothing where it does not, or
/// where there is no memory for the rows. Where the event opens a cycle, the cycle's synchronous window has this length, in
/// bit times. The rows are gathered in `room`, and what stood there goes.
///
/// The change of an event was planned from a cycle below 2^63.
pub fn behind_event<'a>(
    room: &mut Gathered,
    text: &'a [u8],
    event: &Event,
    width: u32,
    frames: &[TimedFrame],
) -> Option<&'a [u8]>
    requires near { IsEventNear event.now }
    ensures rows { IfSome result (λ rest. BeginsWith text.now (told_at width event.now frames.now) rest.now) }
{
    room.text.clear();
    match put_rows(room, event, width, frames) {
        Ok(()) => strip_prefix(text, room.text.as_slice()),
        Err(_) => None,
    }
}

/// What stands after the last row of a log with `next` opened cycles, where a text begins with it: nothing where it does
/// not, or where there is no memory for the row. The row is gathered in `room`, and what stood there goes.
pub fn behind_end<'a>(room: &mut Gathered, text: &'a [u8], next: u64) -> Option<&'a [u8]>
    ensures row { IfSome result (λ rest. BeginsWith text.now (End next ∷ []) rest.now) }
{
    room.text.clear();
    match put_end_row(room, next) {
        Ok(()) => strip_prefix(text, room.text.as_slice()),
        Err(_) => None,
    }
}
