//! The rows of a log, one after the other.

ghost use Rattle.std.specs.Prelude.{◌≡◌, ◌++◌, ℕ, All, List, [], IfErr, IfNone, IfOk, IfSome, length};
ghost use Rattle.log_reader.specs.LogReading.{CountsAtFault, HasReadRows, ReadsRow};
ghost use Rattle.log_reader.specs.Row.{AreRowsOf, IsLogFault, IsLogRow, text_of_rows};
ghost use Rattle.log_reader.specs.RowBytes.{HasNoMark};
ghost use Rattle.log_reader.specs.declared.row.LogRow.{LogRow};

use crate::log_fault::LogFault;
use crate::row::LogRow;
use crate::row_reading::read_row;
use csv::{ByteRecord, Reader};
use std::alloc::Global;
use std::marker::Model;
use text_fields::{read_next, records_in};

/// A reader of the rows of a log. It holds one record, and no row that it gave.
#[derive(Drop)]
pub struct LogReader<'a> {
    /// The reader of the records.
    records: Reader<&'a [u8]>,
    /// The record that was read last.
    fields: ByteRecord,
    /// How many records were read.
    count: u64,
}

impl<'a> Model for LogReader<'a> {
    ghost use Rattle.log_reader.specs.LogReading.{RowReader};

    ghost Value = { RowReader };

    ghost view = { λ r. record { records = r.records; count = r.count } };
}

impl<'a> LogReader<'a> {
    /// Before the first row of a text.
    pub fn new(alloc: Global, bytes: &'a [u8]) -> LogReader<'a>
        ensures before { HasReadRows bytes.now result [] }
    {
        LogReader {
            records: records_in(alloc, bytes),
            fields: ByteRecord::new(alloc),
            count: 0,
        }
    }

    /// Behind so many rows with which a text begins, in the form in which they are written; the rest of the text is not a
    /// byte order mark and something behind it.
    pub(crate) fn behind(alloc: Global, bytes: &[u8], rest: &'a [u8], count: u64) -> LogReader<'a>
        requires no_mark { HasNoMark rest.now }
        ensures behind { (rows : List LogRow) → All IsLogRow rows → bytes.now ≡ text_of_rows rows ++ rest.now
            → count ≡ length rows → HasReadRows bytes.now result rows }
    {
        LogReader {
            records: records_in(alloc, rest),
            fields: ByteRecord::new(alloc),
            count,
        }
    }

    /// How many records were read. After the end that is all of them, and after a fault of a row the number of its record.
    pub fn count(&self) -> u64
        ensures count { result ≡ self.now.count }
    {
        self.count
    }

    /// Reads the next row, where the text has one more.
    ///
    /// # Errors
    ///
    /// `Row` where the fields of the next record are those of no row, or `Memory`. No row is to be read behind an error.
    pub fn next_row(&mut self) -> Result<Option<LogRow>, LogFault>
        ensures more { IfOk result (λ found. IfSome found (λ row. (bytes : List ℕ) (rows : List LogRow)
            → HasReadRows bytes self.old rows → ReadsRow bytes self.old self.new rows row)) }
        ensures all { IfOk result (λ found. IfNone found ((bytes : List ℕ) (rows : List LogRow)
            → HasReadRows bytes self.old rows → AreRowsOf bytes rows)) }
        ensures faulty { IfErr result (λ fault. (bytes : List ℕ) (rows : List LogRow)
            → HasReadRows bytes self.old rows → IsLogFault bytes fault) }
        ensures count_at_end { IfOk result (λ found. IfNone found (self.new.count ≡ self.old.count)) }
        ensures count_at_fault { IfErr result (CountsAtFault self.old.count self.new.count) }
    {
        if !read_next(&mut self.records, &mut self.fields)? {
            return Ok(None);
        }
        self.count = self.count.saturating_add(1);
        let Some(row) = read_row(&self.fields) else {
            return Err(LogFault::Row { number: self.count });
        };
        Ok(Some(row))
    }
}
