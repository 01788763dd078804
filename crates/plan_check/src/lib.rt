//! A checker of plans for the table of an FTT-CAN master: it says whether a plan keeps the table for ever, whoever made
//! the plan.
//!
//! A certificate lists the masks of some elementary cycles, and says from which of them on the list is repeated. The
//! checker knows no policy and no planner. Time is counted in elementary cycles from 0, and lengths in bit times.
#![tactic(auto)]

mod blocks;
mod breach;
mod certificate;
mod checking;
pub mod laws;
mod places;
mod plan_reading;
mod plan_runs;
mod plan_text;
mod sets;
mod text_fault;
mod widths;

pub use breach::Breach;
pub use certificate::Certificate;
pub use checking::check;
pub use plan_text::{read_plan, write_plan};
pub use text_fault::PlanTextFault;
