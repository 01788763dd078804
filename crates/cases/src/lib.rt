//! Tables of cases, for the programs that compare what the crates answer. A case has what is given and what is wanted; the
//! one loop that compares them is here. No clause says what a field means or how a value is written, since the tables
//! show that.
#![tactic(auto)]

mod asked;
mod comparing;
mod fields;
mod reading;

pub use asked::words;
pub use comparing::{CaseTable, compared, show};
pub use fields::{
    Fault, bytes, cut, hexadecimal, length, push_behind, small, text_of_frame, text_of_trace, time,
};
