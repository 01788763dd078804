//! Elastic periods: a change of which some periods may be chosen, and the first choice that a master would admit.
//!
//! Cycles are elementary cycles, counted from 0. Periods and deadlines are numbers of cycles.
#![tactic(auto)]

mod choice;
mod choice_rows;
mod choosing;
mod combining;
pub mod laws;
mod reading;
mod wish;
mod wish_fault;
mod wish_rows;

pub use choice::{Choice, ElasticFault, Verdicts};
pub use choice_rows::{choice_row, none_rows, too_many_row};
pub use choosing::choose;
pub use combining::wish_change;
pub use reading::read_wish;
pub use wish::{Periods, Wish, WishOp, WishOps};
pub use wish_fault::{WishFault, WishWhy};
