//! The records of a text, read in one pass where they are plain.
//!
//! A record is plain where its row has no quote and no carriage return: its fields are then parts of the text. The first
//! record that is not plain is read by `csv`, and so are all records below it. A text that begins with the first byte of
//! a byte order mark is read by `csv` from its start.

ghost use Rattle.std.specs.Prelude.{◌≡◌, ◌≢◌, ℕ, ◌<◌, ◌≤◌, List, [], ◌∷◌, length, take, get_or, true, false};
ghost use Rattle.std.specs.Prelude.{IfOk, IfSome, None, map, option_map};
ghost use Rattle.std.specs.List.{list_all};
ghost use Rattle.std.specs.Range.{range_inclusive_start, range_inclusive_end};
ghost use Rattle.csv.specs.Records.{field_at};
ghost use Rattle.text_fields.specs.CsvRows.{number_at, records_of, trimmed};
ghost use Rattle.text_fields.specs.PlainRows.{is_plain, without_ends};
ghost use Rattle.text_fields.specs.RecordReading.{IsCut, ReadsOneRecord, ReadsRecords, fields_in, parts_in};

use crate::csv_rows::{read_next, records_in, trim};
use crate::decimals::read_number;
use crate::lanes::{LANES, plain_lanes};
use csv::{ByteRecord, Reader};
use std::alloc::{AllocError, Global};
use std::ops::RangeInclusive;

/// The most fields of a record that is cut out of the text. A record of more is read by `csv`.
const MOST_PARTS: usize = 16;

/// The first byte of a byte order mark.
const MARK: u8 = 0xEF;

/// A record: its fields.
#[derive(Drop)]
pub struct Record<'a> {
    /// Whether the fields are parts of the text.
    is_plain: bool,
    /// How many parts there are.
    count: usize,
    /// The parts.
    parts: [&'a [u8]; MOST_PARTS],
    /// The fields of a record that is not plain.
    other: ByteRecord,
}

/// A reader of the records of bytes, each of any number of fields, and none of them a header.
#[derive(Drop)]
pub struct RecordReader<'a> {
    alloc: Global,
    /// What is left of the text behind plain records, from the line feed of the last one on.
    rest: &'a [u8],
    /// The reader of all further records, from the first one on that is not plain.
    other: Option<Reader<&'a [u8]>>,
}

impl<'a> Record<'a> {
    /// A record of no fields.
    pub fn new(alloc: Global) -> Record<'a>
        ensures fields { fields_in result ≡ [] }
    {
        let none: &'a [u8] = &[];
        Record {
            is_plain: true,
            count: 0,
            parts: [none; MOST_PARTS],
            other: ByteRecord::new(alloc),
        }
    }

    /// How many fields there are.
    pub fn len(&self) -> usize
        ensures count { result ≡ length (fields_in self.now) }
    {
        if !self.is_plain {
            return self.other.len();
        }
        let parts = &self.parts[..];
        if self.count < parts.len() {
            self.count
        } else {
            parts.len()
        }
    }

    /// The field at a place, from 0, as it stands.
    fn field(&self, place: usize) -> Option<&[u8]>
        ensures value { option_map (λ field. field.now) result ≡ field_at (fields_in self.now) place }
    {
        if !self.is_plain {
            return self.other.get(place);
        }
        let parts = &self.parts[..];
        if place < self.count && place < parts.len() {
            Some(parts[place])
        } else {
            None
        }
    }
}

/// The field at this place of a row, from 0, without the spaces at both ends.
pub fn field_of<'r>(row: &'r Record<'_>, place: usize) -> Option<&'r [u8]>
    ensures value { option_map (λ field. field.now) result ≡ field_at (map trimmed (fields_in row.now)) place }
{
    let field = row.field(place)?;
    Some(trim(field))
}

/// The number in the field at this place of a row, where it is in the range.
pub fn number(row: &Record<'_>, place: usize, range: RangeInclusive<u64>) -> Option<u64>
    ensures value { result
        ≡ number_at (map trimmed (fields_in row.now)) place (range_inclusive_start range) (range_inclusive_end range) }
    ensures within { IfSome result
        (λ number. (range_inclusive_start range ≤ number) × (number ≤ range_inclusive_end range)) }
{
    let field = field_of(row, place)?;
    let number = read_number(field)?;
    if *range.start() <= number && number <= *range.end() {
        Some(number)
    } else {
        None
    }
}

/// Whether a byte stands for itself: it neither ends a field or a line nor is it a quote.
fn is_plain(byte: u8) -> bool
    ensures value { result ≡ is_plain byte }
{
    byte != b',' && byte != b'"' && byte != b'\r' && byte != b'\n'
}

/// How many bytes at the start of a text stand for themselves, seen 16 at a time: at most 16, and 0 where there are fewer.
/// There may be more.
#[inline(always)]
fn plain_run(text: &[u8]) -> usize
    ensures within { result ≤ length text.now }
    ensures plain { list_all is_plain (take result text.now) ≡ true }
{
    if text.len() < LANES {
        return 0;
    }
    plain_lanes(text)
}

/// How many bytes at the start of a text stand for themselves.
#[inline(always)]
fn field_end(text: &[u8]) -> usize
    ensures within { result ≤ length text.now }
    ensures plain { list_all is_plain (take result text.now) ≡ true }
{
    let run = plain_run(text);
    let (_, left) = text.split_at(run);
    run + plain_end(left)
}

/// The same, seen one by one.
#[inline(always)]
fn plain_end(text: &[u8]) -> usize
    ensures within { result ≤ length text.now }
    ensures plain { list_all is_plain (take result text.now) ≡ true }
{
    for (end, byte) in text.iter().enumerate() {
        if !is_plain(*byte) {
            return end;
        }
    }
    text.len()
}

/// The text without the line ends at its start: empty lines are no rows.
fn behind_ends(mut text: &[u8]) -> &[u8]
    ensures value { result.now ≡ without_ends text.now }
{
    while let [b'\r' | b'\n', rest @ ..] = text {
        text = rest;
    }
    text
}

/// Cuts the first line of a text into its fields, where it is plain, and answers how many they are and what stands
/// behind the line.
fn cut<'a>(line: &'a [u8], parts: &mut [&'a [u8]; MOST_PARTS]) -> Option<(usize, &'a [u8])>
    requires begun { get_or line.now 0 10 ≢ 10 }
    ensures cut { IfSome result (λ cut. IsCut line.now (parts_in parts.new cut.0) cut.1.now) }
{
    let mut left = line;
    let mut count = 0;
    while count < MOST_PARTS {
        let (field, behind) = left.split_at(field_end(left));
        parts[count] = field;
        count += 1;
        match behind {
            [b',', more @ ..] => left = more,
            [] => return Some((count, behind)),
            [b'\n', ..] => return Some((count, behind)),
            _ => return None,
        }
    }
    None
}

/// Reads the first record of a text, where it is plain, and answers whether there is one and what stands behind it.
fn read_plain<'a>(text: &'a [u8], row: &mut Record<'a>) -> Option<(bool, &'a [u8])>
    ensures one { IfSome result (λ read. read.0 ≡ true
        → records_of text.now ≡ fields_in row.new ∷ records_of read.1.now) }
    ensures fewer { IfSome result (λ read. read.0 ≡ true → length read.1.now < length text.now) }
    ensures none { IfSome result (λ read. read.0 ≡ false → records_of text.now ≡ []) }
{
    let line = behind_ends(text);
    if line.is_empty() {
        return Some((false, text));
    }
    if line[0] == MARK {
        return None;
    }
    let (count, behind) = cut(line, &mut row.parts)?;
    row.is_plain = true;
    row.count = count;
    Some((true, behind))
}

/// A reader of the records of these bytes.
pub fn begin_reading(alloc: Global, bytes: &[u8]) -> RecordReader<'_>
    ensures reads { ReadsRecords bytes.now result [] }
{
    RecordReader {
        alloc,
        rest: bytes,
        other: None,
    }
}

/// Reads the next record by `csv`, and has it read all further ones.
#[cold]
#[inline(never)]
fn read_other<'a>(reader: &mut RecordReader<'a>, row: &mut Record<'a>) -> Result<bool, AllocError>
    requires plain { reader.old.other ≡ None }
    ensures one { IfOk result (λ found. found ≡ true → (bytes : List ℕ) (read : List (List (List ℕ)))
        → ReadsRecords bytes reader.old read → ReadsOneRecord bytes reader.old reader.new read (fields_in row.new)) }
    ensures all { IfOk result (λ found. found ≡ false → (bytes : List ℕ) (read : List (List (List ℕ)))
        → ReadsRecords bytes reader.old read → records_of bytes ≡ read) }
{
    let mut records = records_in(reader.alloc, reader.rest);
    let found = read_next(&mut records, &mut row.other)?;
    row.is_plain = false;
    reader.other = Some(records);
    Ok(found)
}

/// Reads the next record over the one in `row`, and says whether there was one.
///
/// # Errors
///
/// Only where memory runs out.
pub fn next_record<'a>(
    reader: &mut RecordReader<'a>,
    row: &mut Record<'a>,
) -> Result<bool, AllocError>
    ensures one { IfOk result (λ found. found ≡ true → (bytes : List ℕ) (read : List (List (List ℕ)))
        → ReadsRecords bytes reader.old read → ReadsOneRecord bytes reader.old reader.new read (fields_in row.new)) }
    ensures all { IfOk result (λ found. found ≡ false → (bytes : List ℕ) (read : List (List (List ℕ)))
        → ReadsRecords bytes reader.old read → records_of bytes ≡ read) }
{
    if let Some(records) = &mut reader.other {
        let found = read_next(records, &mut row.other)?;
        row.is_plain = false;
        return Ok(found);
    }
    match read_plain(reader.rest, row) {
        Some((found, rest)) => {
            reader.rest = rest;
            Ok(found)
        }
        None => read_other(reader, row),
    }
}
