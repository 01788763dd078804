//! The admission of changes to the table of an FTT-CAN master: a change is taken only where no deadline can be missed
//! at any later cycle, and each refusal says why.
//!
//! Cycles are elementary cycles, counted from 0. Lengths are bit times.
#![tactic(auto)]

mod certify_fault;
mod certifying;
mod deciding;
mod decision;
pub mod laws;
mod periods;
mod safety;
mod verdict;
mod walk;

pub use admission_rules::Rules;
pub use certify_fault::CertifyFault;
pub use certifying::{certify, certify_from, certify_known};
pub use deciding::{decide, decide_ranked};
pub use decision::{Decision, Judgement, RankedTable, Trail};
pub use safety::{are_rules, safe_list};
pub use verdict::Verdict;
