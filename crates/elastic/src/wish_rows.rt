//! One row of a wishes file by itself.
//!
//! | row | fields |
//! |---|---|
//! | `start` | START |
//! | `add` | SLOT, NODE, LENGTH, PHASE, DEADLINE, PRIORITY, and 1 to 8 periods |
//! | `remove` | SLOT |
//!
//! START is below 2^64, PHASE, DEADLINE and each period are 0 to 65,535, and the others are 0 to 255.

ghost use Rattle.std.specs.Prelude.{◌≡◌, ◌<◌, ◌≤◌, ◌+◌, map, length, IfOk, IfErr, IfSome, Ok, true};
ghost use Rattle.text_fields.specs.CsvRows.{trimmed};
ghost use Rattle.text_fields.specs.RecordReading.{fields_in};
ghost use Rattle.elastic.specs.WishFields.{begins, entry_in, has_fields, periods_in, said_as, verb_of, verb_of_word};
ghost use Rattle.elastic.specs.WishRow.{operation_of, start_of};
ghost use Rattle.elastic.specs.WishesFile.{HasFileChoices, IsFaultOfRow};

use crate::wish::{Periods, WishOp};
use crate::wish_fault::{WishFault, WishWhy};
use requirement_table::Entry;
use std::alloc::{AllocError, Global};
use text_fields::{Record, field_of, number};

/// The most operations.
const MOST_OPS: usize = 16;

/// The place of the first period in a row, from 0.
const FIRST_PERIOD: usize = 7;

/// What an operation does.
#[derive(Clone, Copy, Debug, PartialEq, Eq)]
pub enum WishVerb {
    /// It adds an entry.
    Add,
    /// It removes a slot's entry.
    Remove,
}

/// Whether the first field of a row is `start`.
fn begins(row: &Record<'_>) -> bool
    ensures value { result ≡ begins (map trimmed (fields_in row.now)) }
{
    match field_of(row, 0) {
        Some(word) => word == b"start".as_slice(),
        None => false,
    }
}

/// The start that a first row says.
///
/// # Errors
///
/// `Word`, `Fields` or `Number`: the first of them, in this order, that is so.
#[tactic(auto, unfolding(crate::specs::WishRow::start_of))]
pub fn read_start(row: &Record<'_>) -> Result<u64, WishWhy>
    ensures value { result ≡ start_of (map trimmed (fields_in row.now)) }
{
    if !begins(row) {
        return Err(WishWhy::Word);
    }
    if row.len() != 2 {
        return Err(WishWhy::Fields);
    }
    let Some(start) = number(row, 1, 0..=u64::MAX) else {
        return Err(WishWhy::Number);
    };
    Ok(start)
}

/// What an operation does, by its word.
fn verb_of_word(word: &[u8]) -> Option<WishVerb>
    ensures value { result ≡ verb_of_word word.now }
{
    if word == b"add".as_slice() {
        Some(WishVerb::Add)
    } else if word == b"remove".as_slice() {
        Some(WishVerb::Remove)
    } else {
        None
    }
}

/// What the operation of a row does, by the first field.
#[tactic(auto, unfolding(crate::specs::WishFields::verb_of))]
fn read_verb(row: &Record<'_>) -> Option<WishVerb>
    ensures value { result ≡ verb_of (map trimmed (fields_in row.now)) }
{
    let word = field_of(row, 0)?;
    verb_of_word(word)
}

/// Whether a row of this operation has so many fields.
fn has_fields(verb: WishVerb, fields: usize) -> bool
    ensures value { result ≡ has_fields verb fields }
{
    match verb {
        WishVerb::Add => FIRST_PERIOD < fields && fields <= FIRST_PERIOD + 8,
        WishVerb::Remove => fields == 2,
    }
}

/// The entry that a row describes, whose period is still to be chosen.
fn read_entry(row: &Record<'_>) -> Option<Entry>
    ensures value { result ≡ entry_in (map trimmed (fields_in row.now)) }
{
    let slot = number(row, 1, 0..=255)?;
    let node = number(row, 2, 0..=255)?;
    let length = number(row, 3, 0..=255)?;
    let phase = number(row, 4, 0..=65_535)?;
    let deadline = number(row, 5, 0..=65_535)?;
    let priority = number(row, 6, 0..=255)?;
    Some(Entry {
        slot: slot as u8,
        node: node as u8,
        length: length as u8,
        phase: phase as u16,
        period: 0,
        deadline: deadline as u16,
        priority: priority as u8,
    })
}

/// The periods of a row, where each is a number in its range.
#[tactic(auto, unfolding(crate::specs::WishFields::periods_in))]
fn read_periods(alloc: Global, row: &Record<'_>) -> Result<Option<Periods>, AllocError>
    requires many { 7 ≤ length (fields_in row.now) }
    ensures value { IfOk result (λ read. read ≡ periods_in (map trimmed (fields_in row.now))) }
    ensures many { IfOk result (λ read. IfSome read (λ periods. length periods + 7 ≡ length (fields_in row.now))) }
{
    let mut periods = Vec::new(alloc);
    for place in FIRST_PERIOD..row.len() {
        let Some(period) = number(row, place, 0..=65_535) else {
            return Ok(None);
        };
        periods.push(period as u16)?;
    }
    Ok(Some(Periods::of(periods)))
}

/// The operation that a row says, where each field is a number in its range.
#[tactic(auto, unfolding(crate::specs::WishFields::said_as))]
fn read_said(alloc: Global, verb: WishVerb, row: &Record<'_>) -> Result<Option<WishOp>, AllocError>
    requires fields { has_fields verb (length (fields_in row.now)) ≡ true }
    ensures value { IfOk result (λ read. read ≡ said_as verb (map trimmed (fields_in row.now))) }
    ensures choices { IfOk result (λ read. IfSome read HasFileChoices) }
{
    match verb {
        WishVerb::Add => {
            let Some(entry) = read_entry(row) else {
                return Ok(None);
            };
            match read_periods(alloc, row)? {
                Some(periods) => Ok(Some(WishOp::Add { entry, periods })),
                None => Ok(None),
            }
        }
        WishVerb::Remove => match number(row, 1, 0..=255) {
            Some(slot) => Ok(Some(WishOp::Remove { slot: slot as u8 })),
            None => Ok(None),
        },
    }
}

/// The operation that a row says below so many operations, where the first row says the start.
///
/// # Errors
///
/// `Row` with its number and with `Word`, `Fields`, `Number` or `Many`: the first of them, in this order, that is so.
/// `Memory` where memory ran out.
#[tactic(auto, unfolding(crate::specs::WishRow::operation_of))]
pub fn read_operation(alloc: Global, row: &Record<'_>, above: usize) -> Result<WishOp, WishFault>
    requires few { above ≤ 16 }
    ensures ok { IfOk result (λ op. operation_of above (map trimmed (fields_in row.now)) ≡ Ok op) }
    ensures few { IfOk result (λ op. above < 16) }
    ensures choices { IfOk result HasFileChoices }
    ensures fault { IfErr result (IsFaultOfRow (above + 2) (operation_of above (map trimmed (fields_in row.now)))) }
{
    let number = above as u64 + 2;
    let Some(verb) = read_verb(row) else {
        return Err(WishFault::Row {
            number,
            why: WishWhy::Word,
        });
    };
    if !has_fields(verb, row.len()) {
        return Err(WishFault::Row {
            number,
            why: WishWhy::Fields,
        });
    }
    let Some(op) = read_said(alloc, verb, row)? else {
        return Err(WishFault::Row {
            number,
            why: WishWhy::Number,
        });
    };
    if above >= MOST_OPS {
        return Err(WishFault::Row {
            number,
            why: WishWhy::Many,
        });
    }
    Ok(op)
}
