//! Fields as text, once for all readers and writers: decimal and hexadecimal numbers, sets of slots, data bytes,
//! whole lines, and rows of comma-separated fields.
#![tactic(auto)]

mod csv_rows;
mod data_bytes;
mod data_digits;
mod decimal_pairs;
mod decimals;
mod digits;
mod hex_pairs;
mod hexadecimal;
mod high_digits;
mod lanes;
mod lines;
mod masks;
mod records;
mod row_parts;

pub use csv_rows::{field_in, read_next, records_in};
pub use data_bytes::{DataBytes, read_bytes, read_data};
pub use data_digits::DataDigits;
pub use decimals::{read_decimal, read_number};
pub use hexadecimal::{read_hex, read_hexadecimal};
pub use high_digits::HighDigits;
pub use lanes::{LANES, first_set};
pub use lines::split_line;
pub use masks::{masks_are_read, put_mask, read_mask};
pub use records::{Record, RecordReader, begin_reading, field_of, next_record, number};
pub use row_parts::{
    ROOM, put_byte, put_data_bytes, put_decimal, put_field, put_first, put_hex, put_identifier,
    put_length, put_line_feed, put_word, row_from,
};
