//! The log, read back.
//!
//! The rows are the records of the text as `csv` reads them: quoted fields, carriage returns, empty lines and a last row
//! without a line feed are what that crate makes of them. Nothing is trimmed. Each field is taken in the one form that
//! the writer gives it: no leading zeros, hexadecimal digits in lower case. Each row is tested by itself: whether rows
//! follow each other rightly is not asked.

ghost use Rattle.std.specs.Prelude.{◌≡◌, ◌⊎◌, ℕ, List, All, IfOk, IfErr, MatchResult, OnOk, false, map};
ghost use Rattle.text_fields.specs.CsvRows.{records_of};
ghost use Rattle.log_reader.specs.LogReading.{HasReadRows};
ghost use Rattle.log_reader.specs.Row.{AreRowsOf, IsFirstFaultyRow, IsLogFault, IsLogRow, fields_of_row, text_of_rows};
ghost use Rattle.log_reader.specs.RowBytes.{BeginsWithRows, HasNoMark};
ghost use Rattle.log_reader.specs.declared.log_fault.LogFault.TheVariants.{Memory, Row};
ghost use Rattle.log_reader.specs.declared.row.LogRow.{LogRow};

use crate::log_fault::LogFault;
use crate::reader::LogReader;
use crate::row::LogRow;
use crate::written::behind_next;
use std::alloc::Global;

/// The rows of a log.
///
/// # Errors
///
/// The first record whose fields are those of no row, or want of memory.
pub fn read_log(alloc: Global, bytes: &[u8]) -> Result<Vec<LogRow>, LogFault>
    ensures rows { IfOk result (λ rows. All IsLogRow rows.items) }
    ensures fields { IfOk result (λ rows. records_of bytes.now ≡ map fields_of_row rows.items) }
    ensures complete { (rows : List LogRow) → All IsLogRow rows → records_of bytes.now ≡ map fields_of_row rows
        → MatchResult result (λ read. read.items ≡ rows) (λ fault. fault ≡ Memory) }
    ensures back { (rows : List LogRow) → All IsLogRow rows → bytes.now ≡ text_of_rows rows
        → MatchResult result (λ read. read.items ≡ rows) (λ fault. fault ≡ Memory) }
    ensures faulty { IfErr result (λ fault. IsLogFault bytes.now fault) }
    ensures first { (number : ℕ) → IsFirstFaultyRow bytes.now number
        → MatchResult result (λ read. ⊥) (λ fault. (fault ≡ Row number) ⊎ (fault ≡ Memory)) }
{
    let mut reader = LogReader::new(alloc, bytes);
    let mut rows = Vec::new(alloc);
    while let Some(row) = reader.next_row()? {
        rows.push(row)?;
    }
    Ok(rows)
}

/// What stands behind the rows in the form in which they are written with which a text begins, and how many these are.
#[inline(never)]
fn behind_rows(alloc: Global, bytes: &[u8]) -> (&[u8], u64)
    ensures rows { BeginsWithRows bytes.now result.0.now result.1 }
{
    let mut rest = bytes;
    let mut count = 0;
    while let Some(later) = behind_next(alloc, rest) {
        rest = later;
        count += 1;
    }
    (rest, count)
}

/// Whether a text begins as a byte order mark does.
fn has_mark(text: &[u8]) -> bool
    ensures none { result ≡ false → HasNoMark text.now }
{
    match text {
        [first, ..] => *first == 0xEF,
        _ => false,
    }
}

/// A reader of the rows of a text from the first one on that is not in the form in which it is written.
fn reader_behind<'a>(alloc: Global, bytes: &'a [u8], rest: &'a [u8], count: u64) -> LogReader<'a>
    requires rows { BeginsWithRows bytes.now rest.now count }
    ensures behind { (rows : List LogRow) × HasReadRows bytes.now result rows }
{
    if has_mark(rest) {
        return LogReader::new(alloc, bytes);
    }
    LogReader::behind(alloc, bytes, rest, count)
}

/// Whether the records of a text are those of rows of a log. It keeps one record at a time, and no row. Only from the
/// first row on that is not in the form in which it is written are the records read by `csv`.
///
/// # Errors
///
/// The first record whose fields are those of no row, or want of memory.
pub fn check_log(alloc: Global, bytes: &[u8]) -> Result<(), LogFault>
    ensures rows { OnOk result ((rows : List LogRow) × AreRowsOf bytes.now rows) }
    ensures complete { (rows : List LogRow) → AreRowsOf bytes.now rows → IfErr result (λ fault. fault ≡ Memory) }
    ensures faulty { IfErr result (λ fault. IsLogFault bytes.now fault) }
    ensures first { (number : ℕ) → IsFirstFaultyRow bytes.now number
        → MatchResult result (λ _. ⊥) (λ fault. (fault ≡ Row number) ⊎ (fault ≡ Memory)) }
{
    let (rest, count) = behind_rows(alloc, bytes);
    if rest.is_empty() {
        return Ok(());
    }
    let mut reader = reader_behind(alloc, bytes, rest, count);
    while let Some(_row) = reader.next_row()? {}
    Ok(())
}
