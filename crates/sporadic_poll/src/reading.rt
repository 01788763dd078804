//! The streams file: rows `AT,SLOT,DATA` of comma-separated fields.
//!
//! AT is the arrival in bit times, below 2^40, and never falls from row to row. SLOT is below the number of slots of
//! the bus. DATA is two hexadecimal digits for each of 0 to 7 bytes. There are at most 10,000 rows.

ghost use Rattle.std.specs.Prelude.{◌≡◌, ◌⊎◌, ◌<◌, ◌≤◌, IfOk, IfErr, IfSome, MatchResult};
ghost use Rattle.std.specs.Prelude.{Err, Ok, map, length};
ghost use Rattle.profile.specs.Limits.{arrivals_end};
ghost use Rattle.text_fields.specs.CsvRows.{rows_of, trimmed};
ghost use Rattle.text_fields.specs.RecordReading.{fields_in};
ghost use Rattle.sporadic_poll.specs.StreamRow.{arrival_above, meaning, payload_in};
ghost use Rattle.sporadic_poll.specs.StreamsFile.{AreLegalStreams, AreStreamsOfRows, IsStreamFault, streams_of};
ghost use Rattle.sporadic_poll.specs.declared.stream_fault.StreamFault.TheVariants.{Memory};

use crate::stream::{Stream, StreamBytes};
use crate::stream_fault::{StreamFault, StreamWhy};
use profile::ARRIVALS_END;
use std::alloc::{AllocError, Global};
use text_fields::{DataBytes, Record, begin_reading, field_of, next_record, number, read_bytes};

/// The greatest arrival, in bit times.
const MAX_ARRIVAL: u64 = ARRIVALS_END - 1;

/// The greatest number that a slot's field has.
const MAX_SLOT: u64 = 255;

/// The most bytes of a request.
const MAX_PAYLOAD: usize = 7;

/// The most rows.
const MAX_STREAMS: usize = 10_000;

/// The bytes that the third field of a row writes.
fn read_payload(row: &Record<'_>) -> Option<DataBytes>
    ensures value { result ≡ payload_in (map trimmed (fields_in row.now)) }
    ensures short { IfSome result (λ bytes. length bytes ≤ 7) }
{
    let field = field_of(row, 2)?;
    let bytes = read_bytes(field)?;
    if bytes.as_slice().len() <= MAX_PAYLOAD {
        Some(bytes)
    } else {
        None
    }
}

/// The arrival in the last row, and 0 where there is none.
fn last_arrival(above: &[Stream]) -> u64
    ensures value { result ≡ arrival_above above.now }
{
    match above.last() {
        Some(stream) => stream.at,
        None => 0,
    }
}

/// What the fields of a row say.
#[derive(Drop)]
struct Fields {
    at: u64,
    slot: u8,
    bytes: DataBytes,
}

/// The fields of a row below these requests.
fn read_row(row: &Record<'_>, slots: u8, above: &[Stream]) -> Result<Fields, StreamWhy>
    ensures value { MatchResult result
        (λ read. meaning slots above.now (map trimmed (fields_in row.now))
        ≡ Ok (record { at = read.at; slot = read.slot; payload = read.bytes }))
        (λ why. meaning slots above.now (map trimmed (fields_in row.now)) ≡ Err why) }
    ensures early { IfOk result (λ read. read.at < arrivals_end) }
    ensures known { IfOk result (λ read. read.slot < slots) }
    ensures short { IfOk result (λ read. length read.bytes ≤ 7) }
    ensures in_order { IfOk result (λ read. arrival_above above.now ≤ read.at) }
    ensures few { IfOk result (λ read. length above.now < 10000) }
{
    if row.len() != 3 {
        return Err(StreamWhy::Fields);
    }
    let Some(at) = number(row, 0, 0..=MAX_ARRIVAL) else {
        return Err(StreamWhy::Number);
    };
    let Some(slot) = number(row, 1, 0..=MAX_SLOT) else {
        return Err(StreamWhy::Number);
    };
    if slot >= u64::from(slots) {
        return Err(StreamWhy::Slot);
    }
    let Some(bytes) = read_payload(row) else {
        return Err(StreamWhy::Data);
    };
    if at < last_arrival(above) {
        return Err(StreamWhy::Order);
    }
    if above.len() >= MAX_STREAMS {
        return Err(StreamWhy::Many);
    }
    Ok(Fields {
        at,
        slot: slot as u8,
        bytes,
    })
}

/// The request that fields say.
fn stream_of(alloc: Global, read: &Fields) -> Result<Stream, AllocError>
    ensures value { IfOk result
        (λ stream. stream ≡ record { at = read.now.at; slot = read.now.slot; payload = read.now.bytes }) }
{
    let bytes = read.bytes.as_slice().to_vec(alloc)?;
    Ok(Stream {
        at: read.at,
        slot: read.slot,
        payload: StreamBytes::of(bytes),
    })
}

/// Reads a streams file, where there are so many slots.
///
/// # Errors
///
/// `Row` with the first row that is none and why, and `Memory` where memory ran out.
pub fn read_streams(alloc: Global, bytes: &[u8], slots: u8) -> Result<Vec<Stream>, StreamFault>
    ensures ok { IfOk result (λ streams. AreStreamsOfRows slots (rows_of bytes.now) streams.items) }
    ensures fault { IfErr result (IsStreamFault slots (rows_of bytes.now)) }
    ensures legal { IfOk result (λ streams. AreLegalStreams slots streams.items) }
    ensures value { MatchResult result (λ streams. streams_of slots bytes.now ≡ Ok streams.items)
        (λ fault. (fault ≡ Memory) ⊎ (streams_of slots bytes.now ≡ Err fault)) }
{
    let mut reader = begin_reading(alloc, bytes);
    let mut row = Record::new(alloc);
    let mut streams = Vec::new(alloc);
    while next_record(&mut reader, &mut row)? {
        match read_row(&row, slots, &streams) {
            Ok(read) => streams.push(stream_of(alloc, &read)?)?,
            Err(why) => {
                let number = streams.len() as u64 + 1;
                return Err(StreamFault::Row { number, why });
            }
        }
    }
    Ok(streams)
}
