//! The rows of one event: put to a sink, as of a log that is written while the run goes on, or appended to a text.

ghost use Rattle.std.specs.Prelude.{◌≡◌, ◌^◌, ◌<◌, ◌≤◌, ◌++◌, ◌∷◌, All, length, map, OnOk, OnErr};
ghost use Rattle.ftt_io.specs.Counts.{Rose};
ghost use Rattle.ftt_io.specs.Puts.{Puts, PutsPrefix};
ghost use Rattle.trigger_codec.specs.Bytes.{width_told};
ghost use Rattle.bus_trace.specs.EventRows.{HasItsFrames, HasWidth, rows_at, rows_of_event, told_at, told_of_event};
ghost use Rattle.bus_trace.specs.EventRows.{width_told_in};
ghost use Rattle.bus_trace.specs.Log.{end_row};
ghost use Rattle.bus_trace.specs.LogRows.{plan_told};
ghost use Rattle.bus_trace.specs.Logged.{IsEventNear};
ghost use Rattle.log_reader.specs.Row.{IsLogRow, opened_row, text_of_rows};
ghost use Rattle.log_reader.specs.declared.row.LogRow.TheVariants.{Frame as FrameRow, End};

use crate::gathering::Gathered;
use crate::rows::{
    FRAMES_TOGETHER, PLANS_TOGETHER, ROWS_ROOM, digits_for, end_row, frame_rows, lone_rows,
    look_row, open_told, opened_rows, plan_rows, submit_row,
};
use can_frame::{Frame, TimedFrame};
use ftt_io::{Failed, Sink, write_all};
use log_reader::OpenRow;
use master_core::Event;
use requirement_table::Mask;
use std::alloc::{AllocError, Global};
use std::mem;
use text_fields::{DataDigits, ROOM};

/// The length of the synchronous window that a trigger says, in bit times.
fn width_told(trigger: &Frame) -> u32
    requires bytes { 3 ≤ length trigger.now.bytes }
    ensures width { result ≡ width_told trigger.now.bytes }
{
    u32::from(trigger.byte(1)) * 256 + u32::from(trigger.byte(2))
}

/// The length of the synchronous window that the first of these frames says, in bit times.
fn width_told_in(frames: &[TimedFrame]) -> u32
    requires trigger { HasWidth frames.now }
    ensures width { result ≡ width_told_in frames.now }
{
    match frames {
        [] => 0,
        [trigger, ..] => width_told(&trigger.frame),
    }
}

/// Appends the rows of an event of a master's history, and those of the frames that were sent in the cycle that it
/// opened: its first trigger frame first, and no other frame with identifier 0. An event that opens no cycle has no
/// frames. The length of the cycle's synchronous window is the one that the first trigger frame says.
///
/// The change of an event was planned from a cycle below 2^63.
///
/// # Errors
///
/// Only where memory runs out. Then `out` is as before.
pub fn event_rows(
    alloc: Global,
    event: &Event,
    frames: &[TimedFrame],
    out: &mut Vec<u8>,
) -> Result<(), AllocError>
    requires near { IsEventNear event.now }
    requires frames { HasItsFrames event.now frames.now }
    ensures rows { OnOk result (out.new.items ≡ out.old.items ++ rows_of_event event.now frames.now) }
    ensures memory { OnErr result (out.new.items ≡ out.old.items) }
    ensures in_range { OnOk result (All IsLogRow (told_of_event event.now frames.now)) }
{
    let before = out.len();
    let mut rows = Gathered::behind(mem::replace(out, Vec::new(alloc)));
    let put = put_event_rows(&mut rows, event, frames);
    *out = rows.text;
    match put {
        Ok(()) => Ok(()),
        Err(_) => {
            out.truncate(before);
            Err(AllocError)
        }
    }
}

/// Puts the rows of a plan, one for each cycle from `from` on, below 2^63, up to 16 by a call. Most changes have none, and
/// then no array is cleared.
fn put_plan_rows<O: Sink>(out: &mut O, from: u64, masks: &[Mask]) -> Result<(), Failed>
    requires from { from < 2 ^ 63 }
    ensures faults_never_fall { O.faults out.old ≤ O.faults out.new }
    ensures all { OnOk result (Puts (O.told_bytes out.old) (O.told_bytes out.new) (text_of_rows (plan_told from masks.now))) }
    ensures failed { OnErr result (Rose (O.faults out.old) (O.faults out.new)) }
    ensures prefix { OnErr result
        (PutsPrefix (O.told_bytes out.old) (O.told_bytes out.new) (text_of_rows (plan_told from masks.now))) }
    ensures in_range { OnOk result (All IsLogRow (plan_told from masks.now)) }
{
    if masks.is_empty() {
        return Ok(());
    }
    let mut rows = [0; ROWS_ROOM];
    let mut first = from;
    let mut left = masks;
    while !left.is_empty() {
        let (some, later) = left.split_at(left.len().min(PLANS_TOGETHER));
        write_all(out, plan_rows(&mut rows, first, some))?;
        first += some.len() as u64;
        left = later;
    }
    Ok(())
}

/// Puts the rows of frames, up to 16 by a call. `data` are the digits of bytes that some of the frames have.
fn put_frame_rows<O: Sink>(
    out: &mut O,
    rows: &mut [u8; ROWS_ROOM],
    data: &DataDigits,
    frames: &[TimedFrame],
) -> Result<(), Failed>
    ensures faults_never_fall { O.faults out.old ≤ O.faults out.new }
    ensures all { OnOk result
        (Puts (O.told_bytes out.old) (O.told_bytes out.new) (text_of_rows (map FrameRow frames.now))) }
    ensures failed { OnErr result (Rose (O.faults out.old) (O.faults out.new)) }
    ensures prefix { OnErr result
        (PutsPrefix (O.told_bytes out.old) (O.told_bytes out.new) (text_of_rows (map FrameRow frames.now))) }
    ensures in_range { OnOk result (All IsLogRow (map FrameRow frames.now)) }
{
    let mut left = frames;
    while !left.is_empty() {
        let (some, later) = left.split_at(left.len().min(FRAMES_TOGETHER));
        write_all(out, frame_rows(rows, data, some))?;
        left = later;
    }
    Ok(())
}

/// Puts the row of an opened cycle and those of the frames that were sent in it, its own and up to 16 of theirs by a
/// call. Many cycles have one frame alone.
fn put_cycle<O: Sink>(out: &mut O, opened: &OpenRow, frames: &[TimedFrame]) -> Result<(), Failed>
    ensures faults_never_fall { O.faults out.old ≤ O.faults out.new }
    ensures all { OnOk result
        (Puts (O.told_bytes out.old) (O.told_bytes out.new)
        (text_of_rows (opened_row opened.now ∷ map FrameRow frames.now))) }
    ensures failed { OnErr result (Rose (O.faults out.old) (O.faults out.new)) }
    ensures prefix { OnErr result
        (PutsPrefix (O.told_bytes out.old) (O.told_bytes out.new)
        (text_of_rows (opened_row opened.now ∷ map FrameRow frames.now))) }
    ensures in_range { OnOk result (All IsLogRow (opened_row opened.now ∷ map FrameRow frames.now)) }
{
    if let [sent] = frames {
        let mut row = [0; ROOM];
        return write_all(out, lone_rows(&mut row, opened, sent));
    }
    let mut rows = [0; ROWS_ROOM];
    let data = digits_for(frames);
    let (first, later) = frames.split_at(frames.len().min(FRAMES_TOGETHER));
    write_all(out, opened_rows(&mut rows, opened, &data, first))?;
    put_frame_rows(out, &mut rows, &data, later)
}

/// Puts the rows of an event and of these frames, up to 16 frames of a cycle together. Where the event opens a cycle,
/// the cycle's synchronous window has this length, in bit times.
pub fn put_rows<O: Sink>(
    out: &mut O,
    event: &Event,
    width: u32,
    frames: &[TimedFrame],
) -> Result<(), Failed>
    requires near { IsEventNear event.now }
    ensures faults_never_fall { O.faults out.old ≤ O.faults out.new }
    ensures all { OnOk result
        (Puts (O.told_bytes out.old) (O.told_bytes out.new) (rows_at width event.now frames.now)) }
    ensures failed { OnErr result (Rose (O.faults out.old) (O.faults out.new)) }
    ensures prefix { OnErr result
        (PutsPrefix (O.told_bytes out.old) (O.told_bytes out.new) (rows_at width event.now frames.now)) }
    ensures in_range { OnOk result (All IsLogRow (told_at width event.now frames.now)) }
{
    match event {
        Event::Submit {
            caller,
            from,
            verdict,
            trail,
            ..
        } => {
            let mut row = [0; ROOM];
            write_all(out, submit_row(&mut row, *caller, *from, verdict))?;
            put_plan_rows(out, *from, trail.as_slice())
        }
        Event::Look { caller, next } => {
            let mut row = [0; ROOM];
            write_all(out, look_row(&mut row, *caller, *next))
        }
        Event::Open { cycle, mask } => { put_cycle(out, &open_told(*cycle, *mask, width), frames) }
    }
}

/// Puts the rows that [`event_rows`] appends, up to 16 frames of a cycle together, and takes no memory.
///
/// # Errors
///
/// Only where the sink fails. Then it took the first bytes of the rows.
pub fn put_event_rows<O: Sink>(
    out: &mut O,
    event: &Event,
    frames: &[TimedFrame],
) -> Result<(), Failed>
    requires near { IsEventNear event.now }
    requires frames { HasItsFrames event.now frames.now }
    ensures faults_never_fall { O.faults out.old ≤ O.faults out.new }
    ensures all { OnOk result
        (Puts (O.told_bytes out.old) (O.told_bytes out.new) (rows_of_event event.now frames.now)) }
    ensures failed { OnErr result (Rose (O.faults out.old) (O.faults out.new)) }
    ensures prefix { OnErr result
        (PutsPrefix (O.told_bytes out.old) (O.told_bytes out.new) (rows_of_event event.now frames.now)) }
    ensures in_range { OnOk result (All IsLogRow (told_of_event event.now frames.now)) }
{
    put_rows(out, event, width_told_in(frames), frames)
}

/// Puts the last row of a log, where `next` cycles were opened.
///
/// # Errors
///
/// Only where the sink fails. Then it took the first bytes of the row.
pub fn put_end_row<O: Sink>(out: &mut O, next: u64) -> Result<(), Failed>
    ensures faults_never_fall { O.faults out.old ≤ O.faults out.new }
    ensures all { OnOk result (Puts (O.told_bytes out.old) (O.told_bytes out.new) (end_row next)) }
    ensures failed { OnErr result (Rose (O.faults out.old) (O.faults out.new)) }
    ensures prefix { OnErr result (PutsPrefix (O.told_bytes out.old) (O.told_bytes out.new) (end_row next)) }
    ensures in_range { IsLogRow (End next) }
{
    let mut row = [0; ROOM];
    write_all(out, end_row(&mut row, next))
}
