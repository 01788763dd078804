//! The frames of a line, put to a sink as rows.

ghost use Rattle.std.specs.Prelude.{◌≡◌, ◌≤◌, ◌<◌, ◌^◌, length, IfErr, IfOk, OnErr, OnOk};
ghost use Rattle.std.specs.List.{flat_map};
ghost use Rattle.ftt_io.specs.Counts.{Rose};
ghost use Rattle.ftt_io.specs.Puts.{Puts, PutsPrefix};
ghost use Rattle.line_frames.specs.Listing.{Lists, ListsFile, rows_of};
ghost use Rattle.line_frames.specs.Rows.{frame_row, no_row};
ghost use Rattle.line_frames.specs.Stops.{StopsListing, StopsWriting};

use crate::bits_text::bits_in;
use crate::rows::{end_row, frame_row, no_row};
use crate::stop::ListingStop;
use bus_line::{LineFault, read_line};
use can_frame::{TimedFrame, WireFault};
use ftt_io::{Failed, Shelf, Sink, write_all};
use std::alloc::Global;
use text_fields::ROOM;

/// So many bytes a file has at most: one for each bit, of which a line has fewer than 2^28.
const LIMIT: usize = 268_435_455;

/// What the bits of a file are.
#[derive(Clone, Copy, Debug, PartialEq, Eq)]
pub enum Listing {
    /// The line of a trace, whose frames were listed.
    Whole,
    /// The line of no trace. The place at which they break was told.
    Broken,
}

/// Puts the rows of frames.
fn put_frame_rows<O: Sink>(out: &mut O, frames: &[TimedFrame]) -> Result<(), Failed>
    ensures faults_never_fall { O.faults out.old ≤ O.faults out.new }
    ensures all { OnOk result (Puts (O.told_bytes out.old) (O.told_bytes out.new) (flat_map frame_row frames.now)) }
    ensures failed { OnErr result (Rose (O.faults out.old) (O.faults out.new)) }
    ensures prefix { OnErr result
        (PutsPrefix (O.told_bytes out.old) (O.told_bytes out.new) (flat_map frame_row frames.now)) }
{
    let mut row = [0; ROOM];
    for sent in frames {
        write_all(out, frame_row(&mut row, sent))?;
    }
    Ok(())
}

/// Puts the rows of the frames of a line with so many bits.
fn put_rows<O: Sink>(out: &mut O, frames: &[TimedFrame], count: usize) -> Result<(), Failed>
    ensures faults_never_fall { O.faults out.old ≤ O.faults out.new }
    ensures all { OnOk result (Puts (O.told_bytes out.old) (O.told_bytes out.new) (rows_of frames.now count)) }
    ensures failed { OnErr result (Rose (O.faults out.old) (O.faults out.new)) }
{
    put_frame_rows(out, frames)?;
    let mut row = [0; ROOM];
    write_all(out, end_row(&mut row, count))
}

/// Puts the row of the place at which a line breaks.
fn put_break<O: Sink>(out: &mut O, start: usize, fault: &WireFault) -> Result<(), Failed>
    ensures faults_never_fall { O.faults out.old ≤ O.faults out.new }
    ensures all { OnOk result (Puts (O.told_bytes out.old) (O.told_bytes out.new) (no_row start fault.now)) }
    ensures failed { OnErr result (Rose (O.faults out.old) (O.faults out.new)) }
{
    let mut row = [0; ROOM];
    write_all(out, no_row(&mut row, start, fault))
}

/// Lists the frames of a line, or tells where its bits break. There are fewer than 2^28 bits.
fn list_bits<O: Sink>(alloc: Global, bits: &[bool], out: &mut O) -> Result<Listing, ListingStop>
    requires few { length bits.now < 2 ^ 28 }
    ensures faults_never_fall { O.faults out.old ≤ O.faults out.new }
    ensures lists { IfOk result (Lists bits.now (Puts (O.told_bytes out.old) (O.told_bytes out.new))) }
    ensures stops { IfErr result (StopsWriting (Rose (O.faults out.old) (O.faults out.new))) }
{
    match read_line(alloc, bits) {
        Ok(trace) => {
            put_rows(out, trace.as_slice(), bits.len())?;
            Ok(Listing::Whole)
        }
        Err(LineFault::Frame { start, fault }) => {
            put_break(out, start, &fault)?;
            Ok(Listing::Broken)
        }
        Err(LineFault::Memory) => Err(ListingStop::Memory),
    }
}

/// Lists the frames of the line whose bits a file has as text, or tells where these bits break.
///
/// The file has at most 268,435,455 bytes. It takes two bytes of memory for each byte of the file, or,
/// where the text is let go, one for each bit and 24 for each frame.
pub fn list_file<S: Shelf, O: Sink>(
    alloc: Global,
    name: &str,
    shelf: &mut S,
    out: &mut O,
) -> Result<Listing, ListingStop>
    ensures shelf_faults_never_fall { S.faults shelf.old ≤ S.faults shelf.new }
    ensures faults_never_fall { O.faults out.old ≤ O.faults out.new }
    ensures lists { IfOk result (ListsFile (S.told_files shelf.old) name.now
        (Puts (O.told_bytes out.old) (O.told_bytes out.new))) }
    ensures stops { IfErr result (StopsListing (S.told_files shelf.old) name.now
        (Rose (S.faults shelf.old) (S.faults shelf.new)) (Rose (O.faults out.old) (O.faults out.new))) }
{
    let text = shelf.fetch(alloc, name, LIMIT)?;
    let bits = bits_in(alloc, text.as_slice())?;
    drop(text);
    list_bits(alloc, bits.as_slice(), out)
}
