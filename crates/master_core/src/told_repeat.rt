//! What an answer told of the plan that goes on from the next cycle.

ghost use Rattle.std.specs.Prelude.{◌≡◌};
ghost use Rattle.master_core.specs.Certificates.{told_after, told_by, told_of};

use crate::event::Event;
use admission::Verdict;

/// What the plan of the placed entries repeats that goes on from the next cycle, which is `next`: the first cycle of the
/// repeat, and its length. It is told where the change that was accepted last was planned from that cycle: so its answer
/// had it.
pub fn told_repeat(history: &[Event], next: u64) -> Option<(u64, u64)>
    ensures told { result ≡ told_of next history.now }
{
    let mut told = None;
    for event in history {
        told = told_after(told, event, next);
    }
    told
}

/// What is told after an event, by what was told before it.
fn told_after(told: Option<(u64, u64)>, event: &Event, next: u64) -> Option<(u64, u64)>
    ensures told { result ≡ told_after next told event.now }
{
    match event {
        Event::Submit { from, verdict, .. } => told_by(told, *from, verdict, next),
        Event::Look { .. } => told,
        Event::Open { .. } => None,
    }
}

/// What is told after an answer to a change that was planned from the cycle `from` on.
fn told_by(told: Option<(u64, u64)>, from: u64, verdict: &Verdict, next: u64) -> Option<(u64, u64)>
    ensures told { result ≡ told_by next told from verdict.now }
{
    match verdict {
        Verdict::Accepted { first, length } => {
            if from == next {
                Some((*first, *length))
            } else {
                None
            }
        }
        Verdict::Malformed { .. } => told,
        Verdict::Passed { .. } => told,
        Verdict::Miss { .. } => told,
        Verdict::Horizon { .. } => told,
    }
}
