//! Rows in the form in which they are written.
//!
//! A text in this form is the rows' own texts, one after the other, and nothing else. The common rows are told by their
//! bytes. Of each other row `csv` reads the line alone, and the fields that it finds are compared with the bytes.

ghost use Rattle.std.specs.Prelude.{◌≡◌, ◌++◌, ◌∷◌, [], IfSome, List, Some, slice_get, ℕ};
ghost use Rattle.std.specs.List.{join_with_byte};
ghost use Rattle.csv.specs.Records.{fields_of};
ghost use Rattle.log_reader.specs.RowBytes.{BeginsWithRow};

use crate::lanes::are_same;
use crate::row_bytes::{behind_at, behind_common};
use crate::row_reading::read_row;
use csv::ByteRecord;
use std::alloc::Global;
use text_fields::{field_in, read_next, records_in};

/// What stands after the first bytes, where they are these. The bytes are compared 16 by 16.
pub fn strip_prefix<'a>(bytes: &'a [u8], prefix: &[u8]) -> Option<&'a [u8]>
    ensures rest { IfSome result (λ rest. bytes.now ≡ prefix.now ++ rest.now) }
{
    if bytes.len() < prefix.len() {
        return None;
    }
    let (front, rest) = bytes.split_at(prefix.len());
    if are_same(front, prefix) {
        Some(rest)
    } else {
        None
    }
}

/// What stands after the field of a record at a place and this byte, where the bytes begin with them.
fn behind_field<'a>(
    bytes: &'a [u8],
    fields: &ByteRecord,
    place: usize,
    byte: u8,
) -> Option<&'a [u8]>
    ensures rest { IfSome result (λ rest. (field : List ℕ) × (slice_get (fields_of fields.now) place ≡ Some field)
        × (bytes.now ≡ field ++ byte ∷ rest.now)) }
{
    match field_in(fields, place) {
        Some(field) => match strip_prefix(bytes, field) {
            Some(later) => behind_at(later, 0, byte),
            None => None,
        },
        None => None,
    }
}

/// What stands after the fields of a record, with a comma between each two of them, and a line feed, where the bytes begin
/// with them. A record without a field is none of these.
fn behind_fields<'a>(bytes: &'a [u8], fields: &ByteRecord) -> Option<&'a [u8]>
    ensures rest { IfSome result
        (λ rest. bytes.now ≡ (join_with_byte 44 (fields_of fields.now) ++ 10 ∷ []) ++ rest.now) }
{
    let count = fields.len();
    if count == 0 {
        return None;
    }
    let last = count - 1;
    let mut rest = bytes;
    for place in 0..last {
        match behind_field(rest, fields, place, b',') {
            Some(later) => rest = later,
            None => return None,
        }
    }
    behind_field(rest, fields, last, b'\n')
}

/// What stands after the text of a row of a log with the fields of this record, where the bytes begin with it.
fn behind_record<'a>(bytes: &'a [u8], fields: &ByteRecord) -> Option<&'a [u8]>
    ensures row { IfSome result (λ rest. BeginsWithRow bytes.now rest.now) }
{
    match read_row(fields) {
        Some(_row) => behind_fields(bytes, fields),
        None => None,
    }
}

/// The bytes up to the first line feed, with it.
fn line_ahead(bytes: &[u8]) -> &[u8] {
    for (place, byte) in bytes.iter().enumerate() {
        if *byte == b'\n' {
            return &bytes[..place + 1];
        }
    }
    bytes
}

/// What stands after the text of a row of a log, where the bytes begin with one in another than a common form. A reader of
/// records looks through all that it is given, so it gets the first line alone.
#[cold]
#[inline(never)]
fn behind_rare(alloc: Global, bytes: &[u8]) -> Option<&[u8]>
    ensures row { IfSome result (λ rest. BeginsWithRow bytes.now rest.now) }
{
    let mut records = records_in(alloc, line_ahead(bytes));
    let mut fields = ByteRecord::new(alloc);
    match read_next(&mut records, &mut fields) {
        Ok(_found) => behind_record(bytes, &fields),
        Err(_) => None,
    }
}

/// What stands after the text of a row of a log, where the bytes begin with one that is found.
#[inline(always)]
pub(crate) fn behind_next(alloc: Global, bytes: &[u8]) -> Option<&[u8]>
    ensures row { IfSome result (λ rest. BeginsWithRow bytes.now rest.now) }
{
    match behind_common(bytes) {
        Some(rest) => Some(rest),
        None => behind_rare(alloc, bytes),
    }
}
