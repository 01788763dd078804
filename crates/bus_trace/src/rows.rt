//! The rows of the log. Each is made from its end to its start, at the end of an array that is
//! lent for it, or before the row that follows it there.

ghost use Rattle.std.specs.Prelude.{◌≡◌, ◌+◌, ◌^◌, ◌<◌, ◌≤◌, ◌++◌, ◌∷◌, [], All, IfSome, codes, drop, length, map};
ghost use Rattle.std.specs.Fmt.{decimal};
ghost use Rattle.std.specs.List.{flat_map};
ghost use Rattle.can_frame.specs.DataFrame.{IsFrame};
ghost use Rattle.text_fields.specs.Hexadecimal.{hex_digits};
ghost use Rattle.bus_trace.specs.Log.{end_row, last_field, verdict_fields};
ghost use Rattle.bus_trace.specs.LogRows.{open_told, plan_told, until_of, verdict_told};
ghost use Rattle.log_reader.specs.Row.{IsLogRow, IsLogVerdict, opened_row, row_text, text_of_rows};
ghost use Rattle.log_reader.specs.declared.row.LogRow.TheVariants.{Submit, Plan, Look, Frame, End};

use admission::Verdict;
use can_frame::TimedFrame;
use change_protocol::Why;
use log_reader::OpenRow;
use requirement_table::Mask;
use text_fields::{
    DataDigits, HighDigits, ROOM, put_byte, put_data_bytes, put_decimal, put_field, put_first,
    put_identifier, put_length, put_line_feed, put_mask, put_word, row_from,
};

/// The most frames whose rows are made together.
pub const FRAMES_TOGETHER: usize = 16;

/// The most rows of a plan that are made together.
pub const PLANS_TOGETHER: usize = 16;

/// The room for the rows that are made together, in bytes: those of a plan, or one of a cycle and those of frames.
pub const ROWS_ROOM: usize = 1024;

/// The cycle that the reason of a refusal names, where it names one.
pub fn until_of(why: &Why) -> Option<u64>
    ensures until { result ≡ until_of why.now }
    ensures in_range { IfSome (until_of why.now) (λ cycle. cycle < 2 ^ 64) }
{
    match why {
        Why::SlotBusy { until: Some(cycle) } => Some(*cycle),
        Why::SlotBusy { until: None } => None,
        _ => None,
    }
}

/// Puts a last field, where there is one.
fn put_last_field(row: &mut [u8; ROOM], end: usize, field: Option<u64>) -> usize
    requires room { 21 ≤ end }
    requires within { end ≤ 128 }
    ensures start { result ≤ end }
    ensures few { end ≤ result + 21 }
    ensures row { drop result row.new ≡ last_field field ++ drop end row.old }
{
    match field {
        Some(number) => put_field(row, end, number),
        None => end,
    }
}

/// Puts the fields of a verdict.
fn put_verdict(row: &mut [u8; ROOM], end: usize, verdict: &Verdict) -> usize
    requires room { 72 ≤ end }
    requires within { end ≤ 128 }
    ensures start { result ≤ end }
    ensures few { end ≤ result + 72 }
    ensures row { drop result row.new ≡ verdict_fields verdict.now ++ drop end row.old }
    ensures in_range { IsLogVerdict (verdict_told verdict.now) }
{
    match verdict {
        Verdict::Malformed { op, why } => {
            let start = put_last_field(row, end, until_of(why));
            let start = put_field(row, start, u64::from(why.code()));
            put_first(row, start, b"malformed,", u64::from(*op))
        }
        Verdict::Passed { start, next } => {
            let place = put_field(row, end, *next);
            put_first(row, place, b"passed,", *start)
        }
        Verdict::Miss {
            slot,
            release,
            cycle,
        } => {
            let start = put_field(row, end, *cycle);
            let start = put_field(row, start, *release);
            put_first(row, start, b"miss,", u64::from(*slot))
        }
        Verdict::Horizon { from, walked } => {
            let start = put_field(row, end, *walked);
            put_first(row, start, b"horizon,", *from)
        }
        Verdict::Accepted { first, length } => {
            let start = put_field(row, end, *length);
            put_first(row, start, b"accepted,", *first)
        }
    }
}

/// Makes the row of a change that operator `caller` asked for, planned from the cycle `from` on.
pub fn submit_row<'a>(row: &'a mut [u8; ROOM], caller: u8, from: u64, verdict: &Verdict) -> &'a [u8]
    ensures row { result.now ≡ row_text (Submit caller from (verdict_told verdict.now)) }
    ensures in_range { IsLogRow (Submit caller from (verdict_told verdict.now)) }
{
    let start = put_line_feed(row);
    let start = put_verdict(row, start, verdict);
    let start = put_byte(row, start, b',');
    let start = put_field(row, start, from);
    let start = put_first(row, start, b"submit,", u64::from(caller));
    row_from(row, start)
}

/// Puts the row of a cycle that was planned and not opened, with the slots that are flagged in it.
#[inline(always)]
fn put_plan(rows: &mut [u8; ROWS_ROOM], end: usize, cycle: u64, mask: Mask) -> usize
    requires room { 51 ≤ end }
    requires within { end ≤ 1024 }
    ensures start { result ≤ end }
    ensures few { end ≤ result + 51 }
    ensures row { drop result rows.new ≡ row_text (Plan cycle mask) ++ drop end rows.old }
    ensures in_range { IsLogRow (Plan cycle mask) }
{
    let place = put_byte(rows, end, b'\n');
    let place = put_mask(rows, place, mask.bits());
    let place = put_byte(rows, place, b',');
    let place = put_decimal(rows, place, cycle);
    put_word(rows, place, b"plan,")
}

/// Makes the rows of a plan, one for each cycle from `from` on: from that of the last cycle to that of the first one.
pub fn plan_rows<'a>(rows: &'a mut [u8; ROWS_ROOM], from: u64, masks: &[Mask]) -> &'a [u8]
    requires few { length masks.now ≤ 16 }
    requires from { from + length masks.now ≤ 2 ^ 64 }
    ensures rows { result.now ≡ text_of_rows (plan_told from masks.now) }
    ensures in_range { All IsLogRow (plan_told from masks.now) }
{
    let mut place = ROWS_ROOM;
    for number in (0..masks.len()).rev() {
        place = put_plan(rows, place, from + number as u64, masks[number]);
    }
    row_from(rows, place)
}

/// Makes the row of a look of operator `caller`, with the cycle that was to be opened next.
pub fn look_row<'a>(row: &'a mut [u8; ROOM], caller: u8, next: u64) -> &'a [u8]
    ensures row { result.now ≡ row_text (Look caller next) }
    ensures in_range { IsLogRow (Look caller next) }
{
    let start = put_line_feed(row);
    let start = put_field(row, start, next);
    let start = put_first(row, start, b"look,", u64::from(caller));
    row_from(row, start)
}

/// Puts what stands between the start and the data bytes in the row of a frame.
#[inline(always)]
fn put_before_data<const N: usize>(rows: &mut [u8; N], end: usize, sent: &TimedFrame) -> usize
    requires room { 16 ≤ end }
    requires within { end ≤ N }
    ensures start { result ≤ end }
    ensures few { end ≤ result + 16 }
    ensures row { drop result rows.new ≡ codes "," ++ (decimal sent.now.len
        ++ (codes "," ++ (hex_digits 3 sent.now.frame.identifier ++ (codes "," ++ drop end rows.old)))) }
    ensures len { sent.now.len < 2 ^ 32 }
    ensures legal { IsFrame sent.now.frame }
{
    let place = put_byte(rows, end, b',');
    let place = put_identifier(rows, place, sent.frame.id());
    let place = put_byte(rows, place, b',');
    let place = put_length(rows, place, sent.len);
    put_byte(rows, place, b',')
}

/// Puts what stands behind the start in the row of a frame.
#[inline(always)]
fn put_behind_start<const N: usize>(rows: &mut [u8; N], end: usize, sent: &TimedFrame) -> usize
    requires room { 33 ≤ end }
    requires within { end ≤ N }
    ensures start { result ≤ end }
    ensures few { end ≤ result + 33 }
    ensures row { drop result rows.new ≡ codes "," ++ (decimal sent.now.len
        ++ (codes "," ++ (hex_digits 3 sent.now.frame.identifier ++ (codes ","
        ++ (flat_map (hex_digits 2) sent.now.frame.bytes ++ (codes "\n" ++ drop end rows.old)))))) }
    ensures len { sent.now.len < 2 ^ 32 }
    ensures legal { IsFrame sent.now.frame }
{
    let place = put_byte(rows, end, b'\n');
    let place = put_data_bytes(rows, place, sent.frame.bytes());
    put_before_data(rows, place, sent)
}

/// Puts the data bytes of a frame, one of several. `data` are the digits of bytes that some of them have.
#[inline(always)]
fn put_data(
    rows: &mut [u8; ROWS_ROOM],
    end: usize,
    data: &DataDigits,
    frame: &can_frame::Frame,
) -> usize
    requires room { 16 ≤ end }
    requires within { end ≤ 1024 }
    ensures start { result ≤ end }
    ensures few { end ≤ result + 16 }
    ensures row { drop result rows.new ≡ flat_map (hex_digits 2) frame.now.bytes ++ drop end rows.old }
{
    if frame.dlc() != 8 {
        return put_data_bytes(rows, end, frame.bytes());
    }
    if frame.number() != data.number() {
        return put_data_bytes(rows, end, frame.bytes());
    }
    data.put(rows, end)
}

/// Does what `put_behind_start` does, for one of several frames. `data` are the digits of bytes that some of them have.
#[inline(always)]
fn put_behind_its_start(
    rows: &mut [u8; ROWS_ROOM],
    end: usize,
    data: &DataDigits,
    sent: &TimedFrame,
) -> usize
    requires room { 33 ≤ end }
    requires within { end ≤ 1024 }
    ensures start { result ≤ end }
    ensures few { end ≤ result + 33 }
    ensures row { drop result rows.new ≡ codes "," ++ (decimal sent.now.len
        ++ (codes "," ++ (hex_digits 3 sent.now.frame.identifier ++ (codes ","
        ++ (flat_map (hex_digits 2) sent.now.frame.bytes ++ (codes "\n" ++ drop end rows.old)))))) }
    ensures len { sent.now.len < 2 ^ 32 }
    ensures legal { IsFrame sent.now.frame }
{
    let place = put_byte(rows, end, b'\n');
    let place = put_data(rows, place, data, &sent.frame);
    put_before_data(rows, place, sent)
}

/// Puts the row of a frame of which no other frame is told meanwhile.
#[inline(always)]
fn put_lone_frame(row: &mut [u8; ROOM], end: usize, sent: &TimedFrame) -> usize
    requires room { 59 ≤ end }
    requires within { end ≤ 128 }
    ensures start { result ≤ end }
    ensures few { end ≤ result + 59 }
    ensures row { drop result row.new ≡ row_text (Frame sent.now) ++ drop end row.old }
    ensures in_range { IsLogRow (Frame sent.now) }
{
    let start = sent.start;
    let place = put_behind_start(row, end, sent);
    let place = put_decimal(row, place, start);
    put_word(row, place, b"frame,")
}

/// Puts the row of a frame, one of several. `starts` are the digits of the start that was put before, and `data` those of
/// bytes that some of the frames have.
#[inline(always)]
fn put_frame(
    rows: &mut [u8; ROWS_ROOM],
    end: usize,
    starts: &mut HighDigits,
    data: &DataDigits,
    sent: &TimedFrame,
) -> usize
    requires room { 59 ≤ end }
    requires within { end ≤ 1024 }
    ensures start { result ≤ end }
    ensures few { end ≤ result + 59 }
    ensures row { drop result rows.new ≡ row_text (Frame sent.now) ++ drop end rows.old }
    ensures in_range { IsLogRow (Frame sent.now) }
{
    let start = sent.start;
    let place = put_behind_its_start(rows, end, data, sent);
    let place = starts.put(rows, place, start);
    put_word(rows, place, b"frame,")
}

/// From how many frames on the digits of eight bytes are kept for them: to make these costs as much as to put those of a
/// few frames.
const SEVERAL: usize = 6;

/// The digits of the data bytes of the last of several frames.
pub fn digits_for(frames: &[TimedFrame]) -> DataDigits {
    if frames.len() < SEVERAL {
        return DataDigits::zeros();
    }
    DataDigits::of(last_number(frames))
}

/// The number whose bytes the last of these frames has, where these are eight, and else 0. Frames of one cycle have most
/// often the same.
fn last_number(frames: &[TimedFrame]) -> u64 {
    match frames.last() {
        Some(sent) => number_of(&sent.frame),
        None => 0,
    }
}

/// The number whose bytes a frame has, where these are eight, and else 0.
fn number_of(frame: &can_frame::Frame) -> u64 {
    if frame.dlc() == 8 { frame.number() } else { 0 }
}

/// Puts the rows of frames, from that of the last frame to that of the first one. `data` are the digits of bytes that
/// some of the frames have.
fn put_frames(rows: &mut [u8; ROWS_ROOM], data: &DataDigits, frames: &[TimedFrame]) -> usize
    requires few { length frames.now ≤ 16 }
    ensures within { result ≤ 1024 }
    ensures room { 80 ≤ result }
    ensures rows { drop result rows.new ≡ text_of_rows (map Frame frames.now) }
    ensures in_range { All IsLogRow (map Frame frames.now) }
{
    let mut starts = HighDigits::new();
    let mut place = ROWS_ROOM;
    for number in (0..frames.len()).rev() {
        place = put_frame(rows, place, &mut starts, data, &frames[number]);
    }
    place
}

/// Makes the rows of frames. `data` are the digits of bytes that some of the frames have.
pub fn frame_rows<'a>(
    rows: &'a mut [u8; ROWS_ROOM],
    data: &DataDigits,
    frames: &[TimedFrame],
) -> &'a [u8]
    requires few { length frames.now ≤ 16 }
    ensures rows { result.now ≡ text_of_rows (map Frame frames.now) }
    ensures in_range { All IsLogRow (map Frame frames.now) }
{
    let place = put_frames(rows, data, frames);
    row_from(rows, place)
}

/// An opened cycle, as a row tells it, with its flagged slots and the length of its synchronous window in bit times.
pub fn open_told(cycle: u64, mask: Mask, width: u32) -> OpenRow
    ensures told { result ≡ open_told cycle mask width }
{
    OpenRow { cycle, mask, width }
}

/// Puts the row of an opened cycle.
fn put_open<const N: usize>(rows: &mut [u8; N], end: usize, opened: &OpenRow) -> usize
    requires room { 62 ≤ end }
    requires within { end ≤ N }
    ensures start { result ≤ end }
    ensures row { drop result rows.new ≡ row_text (opened_row opened.now) ++ drop end rows.old }
    ensures in_range { IsLogRow (opened_row opened.now) }
{
    let place = put_byte(rows, end, b'\n');
    let place = put_length(rows, place, opened.width);
    let place = put_byte(rows, place, b',');
    let place = put_mask(rows, place, opened.mask.bits());
    let place = put_byte(rows, place, b',');
    let place = put_decimal(rows, place, opened.cycle);
    put_word(rows, place, b"open,")
}

/// Makes the row of an opened cycle, and those of the first frames that were sent in it. `data` are the digits of bytes
/// that some of the frames have.
pub fn opened_rows<'a>(
    rows: &'a mut [u8; ROWS_ROOM],
    opened: &OpenRow,
    data: &DataDigits,
    frames: &[TimedFrame],
) -> &'a [u8]
    requires few { length frames.now ≤ 16 }
    ensures rows { result.now ≡ text_of_rows (opened_row opened.now ∷ map Frame frames.now) }
    ensures in_range { All IsLogRow (opened_row opened.now ∷ map Frame frames.now) }
{
    let place = put_frames(rows, data, frames);
    let place = put_open(rows, place, opened);
    row_from(rows, place)
}

/// Makes the row of an opened cycle, and that of the one frame that was sent in it.
pub fn lone_rows<'a>(row: &'a mut [u8; ROOM], opened: &OpenRow, sent: &TimedFrame) -> &'a [u8]
    ensures rows { result.now ≡ text_of_rows (opened_row opened.now ∷ Frame sent.now ∷ []) }
    ensures in_range { All IsLogRow (opened_row opened.now ∷ Frame sent.now ∷ []) }
{
    let place = put_lone_frame(row, ROOM, sent);
    let place = put_open(row, place, opened);
    row_from(row, place)
}

/// Makes the last row, with the number of opened cycles.
pub fn end_row<'a>(row: &'a mut [u8; ROOM], next: u64) -> &'a [u8]
    ensures row { result.now ≡ end_row next }
    ensures in_range { IsLogRow (End next) }
{
    let start = put_line_feed(row);
    let start = put_first(row, start, b"end,", next);
    row_from(row, start)
}
