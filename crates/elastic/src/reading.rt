//! The wishes file: a first row `start`, and rows `add` and `remove` of comma-separated fields.
//!
//! There are 1 to 16 rows behind the first one, and an `add` has 1 to 8 periods.

ghost use Rattle.std.specs.Prelude.{◌≡◌, ◌⊎◌, ◌≤◌, ℕ, All, List, [], length, IfOk, IfErr, MatchResult, Ok, Err};
ghost use Rattle.text_fields.specs.CsvRows.{rows_of};
ghost use Rattle.text_fields.specs.RecordReading.{ReadsRecords};
ghost use Rattle.elastic.specs.Combination.{HasFewChoices};
ghost use Rattle.elastic.specs.WishesFile.{IsLegalWish, IsWishFault, ReadsStart, SayWish, wish_of};
ghost use Rattle.elastic.specs.declared.wish_fault.WishFault.TheVariants.{Memory};

use crate::wish::{Wish, WishOps};
use crate::wish_fault::{WishFault, WishWhy};
use crate::wish_rows::{read_operation, read_start};
use std::alloc::Global;
use text_fields::{Record, RecordReader, begin_reading, next_record};

/// Reads the first row, which says the start.
fn read_first<'a>(reader: &mut RecordReader<'a>, row: &mut Record<'a>) -> Result<u64, WishFault>
    ensures start { IfOk result (λ start. (bytes : List ℕ) → ReadsRecords bytes reader.old []
        → ReadsStart bytes reader.new start) }
    ensures fault { IfErr result (λ fault. (bytes : List ℕ) → ReadsRecords bytes reader.old []
        → IsWishFault (rows_of bytes) fault) }
{
    if !next_record(reader, row)? {
        return Err(WishFault::Row {
            number: 1,
            why: WishWhy::Word,
        });
    }
    match read_start(row) {
        Ok(start) => Ok(start),
        Err(why) => Err(WishFault::Row { number: 1, why }),
    }
}

/// Reads a wishes file.
///
/// # Errors
///
/// `Row` with the first row that is none and why, and `Memory` where memory ran out. Where the first row or each
/// operation is lacking, it is the row that is lacking, with `Word`.
pub fn read_wish(alloc: Global, bytes: &[u8]) -> Result<Wish, WishFault>
    ensures ok { IfOk result (SayWish (rows_of bytes.now)) }
    ensures fault { IfErr result (IsWishFault (rows_of bytes.now)) }
    ensures legal { IfOk result IsLegalWish }
    ensures few_ops { IfOk result (λ wish. length wish.ops ≤ 256) }
    ensures few_periods { IfOk result (λ wish. All HasFewChoices wish.ops) }
    ensures value { MatchResult result (λ wish. wish_of bytes.now ≡ Ok wish)
        (λ fault. (fault ≡ Memory) ⊎ (wish_of bytes.now ≡ Err fault)) }
{
    let mut reader = begin_reading(alloc, bytes);
    let mut row = Record::new(alloc);
    let start = read_first(&mut reader, &mut row)?;
    let mut ops = Vec::new(alloc);
    while next_record(&mut reader, &mut row)? {
        let op = read_operation(alloc, &row, ops.len())?;
        ops.push(op)?;
    }
    if ops.is_empty() {
        return Err(WishFault::Row {
            number: 2,
            why: WishWhy::Word,
        });
    }
    Ok(Wish {
        start,
        ops: WishOps::of(ops),
    })
}
