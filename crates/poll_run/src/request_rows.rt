//! The rows that tell of each request whether its instance was sent.

ghost use Rattle.std.specs.Prelude.{◌≡◌, ◌≤◌, length, OnOk, OnErr};
ghost use Rattle.ftt_io.specs.Counts.{Rose};
ghost use Rattle.ftt_io.specs.Puts.{Puts, PutsPrefix};
ghost use Rattle.poll_run.specs.RequestRows.{request_row, request_rows, ride_row, waits_row};

use ftt_io::{Failed, Sink, write_all};
use sporadic_poll::{Fate, Stream};
use text_fields::{ROOM, put_field, put_first, put_line_feed, row_from};

/// Makes the row of a request of a slot whose instance was not sent. The number is that of its row in the file.
fn waits_row<'a>(row: &'a mut [u8; ROOM], slot: u8, number: u64) -> &'a [u8]
    ensures row { result.now ≡ waits_row slot number }
{
    let start = put_line_feed(row);
    let start = put_field(row, start, number);
    let start = put_first(row, start, b"waits,", u64::from(slot));
    row_from(row, start)
}

/// Makes the row of a request of a slot whose instance was released in one cycle and sent in another or the same.
fn ride_row<'a>(
    row: &'a mut [u8; ROOM],
    slot: u8,
    number: u64,
    release: u64,
    cycle: u64,
) -> &'a [u8]
    ensures row { result.now ≡ ride_row slot number release cycle }
{
    let start = put_line_feed(row);
    let start = put_field(row, start, cycle);
    let start = put_field(row, start, release);
    let start = put_field(row, start, number);
    let start = put_first(row, start, b"ride,", u64::from(slot));
    row_from(row, start)
}

/// Makes the row of a request, by what became of it.
fn request_row<'a>(row: &'a mut [u8; ROOM], number: u64, stream: &Stream, fate: &Fate) -> &'a [u8]
    ensures row { result.now ≡ request_row number stream.now fate.now }
{
    match fate {
        Fate::Waits => waits_row(row, stream.slot, number),
        Fate::Taken { .. } => waits_row(row, stream.slot, number),
        Fate::Sent { release, cycle } => ride_row(row, stream.slot, number, *release, *cycle),
    }
}

/// Puts the rows of requests, by what became of them, each by a call of its own.
///
/// # Errors
///
/// Only where the sink fails. Then it took the first bytes of the rows.
pub fn put_request_rows<O: Sink>(
    out: &mut O,
    streams: &[Stream],
    fates: &[Fate],
) -> Result<(), Failed>
    requires each { length fates.now ≡ length streams.now }
    ensures faults_never_fall { O.faults out.old ≤ O.faults out.new }
    ensures all { OnOk result
        (Puts (O.told_bytes out.old) (O.told_bytes out.new) (request_rows 1 streams.now fates.now)) }
    ensures failed { OnErr result (Rose (O.faults out.old) (O.faults out.new)) }
    ensures prefix { OnErr result
        (PutsPrefix (O.told_bytes out.old) (O.told_bytes out.new) (request_rows 1 streams.now fates.now)) }
{
    let mut row = [0; ROOM];
    for (place, stream) in streams.iter().enumerate() {
        let number = place as u64 + 1;
        let fate = &fates[place];
        write_all(out, request_row(&mut row, number, stream, fate))?;
    }
    Ok(())
}
