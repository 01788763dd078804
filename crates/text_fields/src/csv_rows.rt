//! The records of comma-separated fields of bytes in memory, and the numbers that their fields write.
//!
//! Where fields are trimmed, spaces at both ends are dropped, also inside quotes. A number is one ASCII digit or more,
//! and leading zeros are allowed.

ghost use Rattle.std.specs.Prelude.{◌≡◌, ℕ, ◌≤◌, List, [], map, IfOk, IfSome, OnOk};
ghost use Rattle.std.specs.Prelude.{Some, option_map, reverse, slice_get, true, false};
ghost use Rattle.std.specs.Range.{range_inclusive_start, range_inclusive_end};
ghost use Rattle.csv.specs.Reading.{ReadRecord, Ready, reader_trim, took_first};
ghost use Rattle.csv.specs.declared.reader.Trim.TheVariants as csv_trim;
ghost use Rattle.csv.specs.Records.{field_at, fields_of};
ghost use Rattle.text_fields.specs.CsvReading.{ReadsCsv, ReadsOneCsv};
ghost use Rattle.text_fields.specs.CsvRows.{number_at, records_of, trimmed, without_leading_spaces};

use crate::decimals::read_number;
use csv::{ByteRecord, Reader, ReaderBuilder};
use std::alloc::{AllocError, Global};
use std::ops::RangeInclusive;

/// A reader of the records of bytes, each of any number of fields, and none of them a header.
pub fn records_in(alloc: Global, bytes: &[u8]) -> Reader<&[u8]>
    ensures reads { ReadsCsv bytes.now result [] }
{
    ReaderBuilder::new()
        .has_headers(false)
        .flexible(true)
        .from_reader(alloc, bytes)
}

/// Reads the next record of bytes in memory over the one in `row`, and says whether there was one.
/// Bytes in memory are read without a fault, and records of a flexible reader may differ in length,
/// so an error is want of memory.
fn read_record(reader: &mut Reader<&[u8]>, row: &mut ByteRecord) -> Result<bool, AllocError>
    ensures ready { reader_trim reader.old ≡ csv_trim.None → OnOk result (took_first reader.new ≡ true) }
    ensures reads { IfOk result (λ found. reader_trim reader.old ≡ csv_trim.None → Ready reader.old
        → ReadRecord (λ s. Some s.now) reader.old reader.new found (fields_of row.new)) }
{
    match reader.read_byte_record(row) {
        Ok(found) => Ok(found),
        Err(_) => Err(AllocError),
    }
}

/// Reads the next record over the one in `row`, and says whether there was one.
///
/// # Errors
///
/// Only where memory runs out.
pub fn read_next(reader: &mut Reader<&[u8]>, row: &mut ByteRecord) -> Result<bool, AllocError>
    ensures one { IfOk result (λ found. found ≡ true → (bytes : List ℕ) (read : List (List (List ℕ)))
        → ReadsCsv bytes reader.old read → ReadsOneCsv bytes reader.old reader.new read (fields_of row.new)) }
    ensures all { IfOk result (λ found. found ≡ false → (bytes : List ℕ) (read : List (List (List ℕ)))
        → ReadsCsv bytes reader.old read → records_of bytes ≡ read) }
{
    let found = read_record(reader, row)?;
    Ok(found)
}

/// The field without the spaces at its start.
fn drop_leading_spaces(mut field: &[u8]) -> &[u8]
    ensures value { result.now ≡ without_leading_spaces field.now }
{
    while let [b' ', rest @ ..] = field {
        field = rest;
    }
    field
}

/// The field without the spaces at its end.
fn drop_trailing_spaces(mut field: &[u8]) -> &[u8]
    ensures value { result.now ≡ reverse (without_leading_spaces (reverse field.now)) }
{
    while let [rest @ .., b' '] = field {
        field = rest;
    }
    field
}

/// The field without the spaces at both ends.
pub fn trim(field: &[u8]) -> &[u8]
    ensures value { result.now ≡ trimmed field.now }
{
    drop_trailing_spaces(drop_leading_spaces(field))
}

/// The field at this place of a record, from 0, as it stands.
pub fn field_in(row: &ByteRecord, place: usize) -> Option<&[u8]>
    ensures value { option_map (λ field. field.now) result ≡ slice_get (fields_of row.now) place }
{
    row.get(place)
}
