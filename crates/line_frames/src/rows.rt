//! The rows that tell of a line. Each is made from its end to its start, at the end of an array that is
//! lent for it.

ghost use Rattle.std.specs.Prelude.{◌≡◌, ◌+◌, ◌≤◌, ◌++◌, codes, drop, length};
ghost use Rattle.std.specs.Fmt.{decimal};
ghost use Rattle.text_fields.specs.Hexadecimal.{hex_digits};
ghost use Rattle.line_frames.specs.Rows.{end_row, frame_fields, frame_row, no_row, why};

use can_frame::{Frame, TimedFrame, WireFault};
use text_fields::{
    ROOM, put_byte, put_data_bytes, put_decimal, put_first, put_hex, put_identifier, put_line_feed,
    put_word, row_from,
};

/// Makes the row of a frame.
pub fn frame_row<'a>(row: &'a mut [u8; ROOM], sent: &TimedFrame) -> &'a [u8]
    ensures row { result.now ≡ frame_row sent.now }
{
    let (start, len) = (sent.start, sent.len);
    let place = put_line_feed(row);
    let place = put_decimal(row, place, u64::from(len));
    let place = put_byte(row, place, b',');
    let place = put_frame(row, place, &sent.frame);
    let place = put_byte(row, place, b',');
    let place = put_decimal(row, place, start);
    row_from(row, place)
}

/// Puts the fields of a frame.
fn put_frame(row: &mut [u8; ROOM], end: usize, frame: &Frame) -> usize
    requires room { 41 ≤ end }
    requires within { end ≤ 128 }
    ensures start { result ≤ end }
    ensures few { end ≤ result + 41 }
    ensures row { drop result row.new ≡ frame_fields frame.now ++ drop end row.old }
{
    let place = put_data_bytes(row, end, frame.bytes());
    let place = put_byte(row, place, b',');
    let place = put_decimal(row, place, u64::from(frame.dlc()));
    let place = put_byte(row, place, b',');
    put_identifier(row, place, frame.id())
}

/// Makes the last row of a line that is whole, with the number of its bits.
pub fn end_row<'a>(row: &'a mut [u8; ROOM], count: usize) -> &'a [u8]
    ensures row { result.now ≡ end_row count }
{
    let place = put_line_feed(row);
    let place = put_first(row, place, b"end,", count as u64);
    row_from(row, place)
}

/// Makes the row of a line that breaks at a place, with what is found from there on.
pub fn no_row<'a>(row: &'a mut [u8; ROOM], start: usize, fault: &WireFault) -> &'a [u8]
    ensures row { result.now ≡ no_row start fault.now }
{
    let place = put_line_feed(row);
    let place = put_why(row, place, fault);
    let place = put_byte(row, place, b',');
    let place = put_first(row, place, b"no,", start as u64);
    row_from(row, place)
}

/// Puts what is found where no whole frame begins.
fn put_why(row: &mut [u8; ROOM], end: usize, fault: &WireFault) -> usize
    requires room { 26 ≤ end }
    requires within { end ≤ 128 }
    ensures start { result ≤ end }
    ensures few { end ≤ result + 26 }
    ensures row { drop result row.new ≡ why fault.now ++ drop end row.old }
{
    match fault {
        WireFault::Stuff { place } => put_first(row, end, b"stuff,", *place as u64),
        WireFault::Form { place } => put_first(row, end, b"form,", *place as u64),
        WireFault::Crc { sent, computed } => put_sequences(row, end, *sent, *computed),
        WireFault::Short { have } => put_first(row, end, b"short,", *have as u64),
        WireFault::Tail { place } => put_first(row, end, b"tail,", *place as u64),
        WireFault::Memory => put_word(row, end, b"memory"),
    }
}

/// Puts the two CRC sequences, that which was sent first.
fn put_sequences(row: &mut [u8; ROOM], end: usize, sent: u16, computed: u16) -> usize
    requires room { 13 ≤ end }
    requires within { end ≤ 128 }
    ensures start { result + 13 ≡ end }
    ensures row { drop result row.new ≡ (codes "crc," ++ hex_digits 4 sent ++ codes "," ++ hex_digits 4 computed)
        ++ drop end row.old }
{
    let start = put_hex(row, end, u128::from(computed), 4);
    let start = put_byte(row, start, b',');
    let start = put_hex(row, start, u128::from(sent), 4);
    put_word(row, start, b"crc,")
}
