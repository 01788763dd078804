//! The fields of a row of a log, each in the one form that the writer gives it.
//!
//! A number has decimal digits without leading zeros. A set of slots has ten hexadecimal digits in lower case where all
//! its slots are below 40, and 24 otherwise; an identifier has three, and data bytes have two each. Nothing is trimmed.

ghost use Rattle.std.specs.Prelude.{◌≡◌, ◌≤◌, IfSome, option_and_then};
ghost use Rattle.profile.specs.Limits.{greatest_identifier};
ghost use Rattle.csv.specs.Records.{fields_of};
ghost use Rattle.text_fields.specs.Decimal.{within};
ghost use Rattle.log_reader.specs.RowFields.{frame_at, hex_at, decimal_at, slots_at};

use can_frame::Frame;
use csv::ByteRecord;
use profile::GREATEST_IDENTIFIER;
use requirement_table::Mask;
use text_fields::{field_in, read_data, read_decimal, read_hex, read_mask};

/// The number of digits of an identifier.
const IDENTIFIER_DIGITS: usize = 3;

/// The number in the field at a place, where it is not above `most`.
pub fn number(row: &ByteRecord, place: usize, most: u64) -> Option<u64>
    ensures value { result ≡ decimal_at (fields_of row.now) place most }
    ensures most { IfSome result (λ number. number ≤ most) }
{
    let field = field_in(row, place)?;
    let number = read_decimal(field)?;
    if number <= most { Some(number) } else { None }
}

/// The set of slots in the field at a place.
pub fn mask(row: &ByteRecord, place: usize) -> Option<Mask>
    ensures value { result ≡ slots_at (fields_of row.now) place }
{
    let field = field_in(row, place)?;
    let bits = read_mask(field)?;
    Some(Mask::from_bits(bits))
}

/// The identifier in the fourth field of a row, where a frame can have it.
fn identifier(row: &ByteRecord) -> Option<u16>
    ensures value { result ≡ option_and_then (within 0 greatest_identifier) (hex_at (fields_of row.now) 3 3) }
    ensures range { IfSome result (λ identifier. identifier ≤ greatest_identifier) }
{
    let field = field_in(row, 3)?;
    let number = read_hex(field, IDENTIFIER_DIGITS)?;
    if number <= u128::from(GREATEST_IDENTIFIER) {
        Some(number as u16)
    } else {
        None
    }
}

/// The frame in the fourth and the fifth field of a row: its identifier and its data bytes.
pub fn frame(row: &ByteRecord) -> Option<Frame>
    ensures value { result ≡ frame_at (fields_of row.now) }
{
    let identifier = identifier(row)?;
    let field = field_in(row, 4)?;
    let bytes = read_data(field)?;
    match Frame::new(identifier, bytes.as_slice()) {
        Ok(frame) => Some(frame),
        Err(_) => unreachable!(),
    }
}
