//! The number of openings and looks of some steps.

use change_protocol::Act;
use steps_file::Step;

/// No more are counted, so that a huge count takes no memory before its cycles are opened.
const MOST_COUNTED: u64 = 65_536;

/// How many openings and looks a step makes.
fn plain_calls_of(step: &Step) -> u64 {
    match step {
        Step::Cycle { count } => *count,
        Step::Act { act, .. } => match act {
            Act::Look => 1,
            Act::Ask { .. } => 0,
        },
    }
}

/// How many openings and looks some steps make, or 65,536 where they make more.
pub fn count_plain_calls(steps: &[Step]) -> usize {
    let mut calls: u64 = 0;
    for step in steps {
        calls = calls.saturating_add(plain_calls_of(step));
    }
    calls.min(MOST_COUNTED) as usize
}
