//! A row of a log, read from its fields.

ghost use Rattle.std.specs.Prelude.{◌≡◌, ◌<◌};
ghost use Rattle.csv.specs.Records.{fields_of};
ghost use Rattle.log_reader.specs.RowFields.{accepted_of, end_of, frame_of, horizon_of, look_of};
ghost use Rattle.log_reader.specs.RowFields.{malformed_of, miss_of, decimal_at, open_of, passed_of};
ghost use Rattle.log_reader.specs.RowFields.{plan_of, row_of, submit_of, two_numbers, until_of, verdict_of};

use crate::row::{LogRow, LogVerdict};
use crate::row_fields::{frame, mask, number};
use can_frame::TimedFrame;
use csv::ByteRecord;
use text_fields::field_in;

/// The greatest number of 8 bits.
const BYTE: u64 = 255;

/// The greatest number of 32 bits.
const WORD: u64 = 4_294_967_295;

/// Two numbers in the fields behind the word of a verdict, where there are no others.
fn two_numbers(fields: &ByteRecord) -> Option<(u64, u64)>
    ensures value { result ≡ two_numbers (fields_of fields.now) }
{
    if fields.len() != 6 {
        return None;
    }
    let first = number(fields, 4, u64::MAX)?;
    let second = number(fields, 5, u64::MAX)?;
    Some((first, second))
}

/// `accepted,FIRST,LENGTH`
fn read_accepted(fields: &ByteRecord) -> Option<LogVerdict>
    ensures value { result ≡ accepted_of (fields_of fields.now) }
{
    let (first, length) = two_numbers(fields)?;
    Some(LogVerdict::Accepted { first, length })
}

/// `passed,START,NEXT`
fn read_passed(fields: &ByteRecord) -> Option<LogVerdict>
    ensures value { result ≡ passed_of (fields_of fields.now) }
{
    let (start, next) = two_numbers(fields)?;
    Some(LogVerdict::Passed { start, next })
}

/// `horizon,FROM,WALKED`
fn read_horizon(fields: &ByteRecord) -> Option<LogVerdict>
    ensures value { result ≡ horizon_of (fields_of fields.now) }
{
    let (from, walked) = two_numbers(fields)?;
    Some(LogVerdict::Horizon { from, walked })
}

/// `miss,SLOT,RELEASE,CYCLE`
fn read_miss(fields: &ByteRecord) -> Option<LogVerdict>
    ensures value { result ≡ miss_of (fields_of fields.now) }
{
    if fields.len() != 7 {
        return None;
    }
    let slot = number(fields, 4, BYTE)?;
    let release = number(fields, 5, u64::MAX)?;
    let cycle = number(fields, 6, u64::MAX)?;
    Some(LogVerdict::Miss {
        slot: slot as u8,
        release,
        cycle,
    })
}

/// The cycle behind the number of a rule, where there is one: it may stand behind rule 10 alone.
fn read_until(fields: &ByteRecord, why: u8) -> Option<Option<u64>>
    ensures value { result ≡ until_of (fields_of fields.now) why }
{
    if fields.len() == 6 {
        return Some(None);
    }
    if fields.len() != 7 || why != 10 {
        return None;
    }
    let until = number(fields, 6, u64::MAX)?;
    Some(Some(until))
}

/// `malformed,OP,WHY`, and `,UNTIL` behind it where WHY is 10 and it is known
fn read_malformed(fields: &ByteRecord) -> Option<LogVerdict>
    ensures value { result ≡ malformed_of (fields_of fields.now) }
{
    let op = number(fields, 4, BYTE)?;
    let why = number(fields, 5, BYTE)? as u8;
    let until = read_until(fields, why)?;
    Some(LogVerdict::Malformed {
        op: op as u8,
        why,
        until,
    })
}

/// The verdict in the fields from the fourth one on.
#[tactic(auto, unfolding(crate::specs::RowFields::verdict_of))]
fn read_verdict(fields: &ByteRecord) -> Option<LogVerdict>
    ensures value { result ≡ verdict_of (fields_of fields.now) }
{
    let word = field_in(fields, 3)?;
    if word == b"accepted".as_slice() {
        read_accepted(fields)
    } else if word == b"malformed".as_slice() {
        read_malformed(fields)
    } else if word == b"passed".as_slice() {
        read_passed(fields)
    } else if word == b"miss".as_slice() {
        read_miss(fields)
    } else if word == b"horizon".as_slice() {
        read_horizon(fields)
    } else {
        None
    }
}

/// `submit,CALLER,FROM,` and a verdict
fn read_submit(fields: &ByteRecord) -> Option<LogRow>
    ensures value { result ≡ submit_of (fields_of fields.now) }
{
    let caller = number(fields, 1, BYTE)?;
    let from = number(fields, 2, u64::MAX)?;
    let verdict = read_verdict(fields)?;
    Some(LogRow::Submit {
        caller: caller as u8,
        from,
        verdict,
    })
}

/// `plan,CYCLE,MASK`
fn read_plan(fields: &ByteRecord) -> Option<LogRow>
    ensures value { result ≡ plan_of (fields_of fields.now) }
{
    if fields.len() != 3 {
        return None;
    }
    let cycle = number(fields, 1, u64::MAX)?;
    let mask = mask(fields, 2)?;
    Some(LogRow::Plan { cycle, mask })
}

/// `look,CALLER,NEXT`
fn read_look(fields: &ByteRecord) -> Option<LogRow>
    ensures value { result ≡ look_of (fields_of fields.now) }
{
    if fields.len() != 3 {
        return None;
    }
    let caller = number(fields, 1, BYTE)?;
    let next = number(fields, 2, u64::MAX)?;
    Some(LogRow::Look {
        caller: caller as u8,
        next,
    })
}

/// `open,CYCLE,MASK,WIDTH`
fn read_open(fields: &ByteRecord) -> Option<LogRow>
    ensures value { result ≡ open_of (fields_of fields.now) }
{
    if fields.len() != 4 {
        return None;
    }
    let cycle = number(fields, 1, u64::MAX)?;
    let mask = mask(fields, 2)?;
    let l = number(fields, 3, WORD)?;
    let l = l as u32;
    Some(LogRow::Open { cycle, mask, l })
}

/// `frame,START,LEN,ID,DATA`
fn read_frame(fields: &ByteRecord) -> Option<LogRow>
    ensures value { result ≡ frame_of (fields_of fields.now) }
{
    if fields.len() != 5 {
        return None;
    }
    let start = number(fields, 1, u64::MAX)?;
    let len = number(fields, 2, WORD)?;
    let frame = frame(fields)?;
    let len = len as u32;
    Some(LogRow::Frame {
        timed: TimedFrame { start, len, frame },
    })
}

/// `end,NEXT`
fn read_end(fields: &ByteRecord) -> Option<LogRow>
    ensures value { result ≡ end_of (fields_of fields.now) }
{
    if fields.len() != 2 {
        return None;
    }
    let next = number(fields, 1, u64::MAX)?;
    Some(LogRow::End { next })
}

/// The row that these fields have the form of.
#[tactic(auto, unfolding(crate::specs::RowFields::row_of))]
pub fn read_row(fields: &ByteRecord) -> Option<LogRow>
    ensures value { result ≡ row_of (fields_of fields.now) }
{
    let word = field_in(fields, 0)?;
    if word == b"submit".as_slice() {
        read_submit(fields)
    } else if word == b"plan".as_slice() {
        read_plan(fields)
    } else if word == b"look".as_slice() {
        read_look(fields)
    } else if word == b"open".as_slice() {
        read_open(fields)
    } else if word == b"frame".as_slice() {
        read_frame(fields)
    } else if word == b"end".as_slice() {
        read_end(fields)
    } else {
        None
    }
}
