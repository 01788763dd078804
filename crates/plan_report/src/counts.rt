//! What is counted of each identifier of 11 bits: whether it has an owner, its frames in a trace, and its requests.

ghost use Rattle.std.specs.Prelude.{◌≡◌, ℕ, ◌+◌, ◌^◌, ◌<◌, ◌||◌, ◌==◌};
ghost use Rattle.std.specs.Prelude.{IfOk, if◌then◌else◌, length, slice_index, slice_index_or, false};
ghost use Rattle.async_window.specs.Waiting.{frames_with, requests_of};
ghost use Rattle.plan_report.specs.Report.{identifiers, is_owned};

use async_window::{Owner, Request};
use can_frame::{Frame, TimedFrame};
use std::alloc::{AllocError, Global};

/// How many identifiers there are: those of 11 bits.
pub const IDENTIFIERS: u16 = 2_048;

/// Whether each identifier has an owner.
pub fn owned(alloc: Global, owners: &[Owner]) -> Result<Vec<bool>, AllocError>
    ensures length { IfOk result (λ owned. length owned.items ≡ identifiers) }
    ensures owned { IfOk result (λ owned. (id : ℕ) → id < identifiers
        → slice_index_or owned.items id false ≡ is_owned owners.now id) }
{
    let mut owned = vec![in alloc; false; usize::from(IDENTIFIERS)]?;
    for owner in owners {
        mark(&mut owned, owner.id);
    }
    Ok(owned)
}

/// Marks an identifier, where it is one of 11 bits.
fn mark(marks: &mut [bool], id: u16)
    requires length { length marks.old ≡ identifiers }
    ensures length { length marks.new ≡ identifiers }
    ensures marks { (other : ℕ) → other < identifiers
        → slice_index_or marks.new other false ≡ (slice_index_or marks.old other false || (id == other)) }
{
    if id >= IDENTIFIERS {
        return;
    }
    marks[usize::from(id)] = true;
}

/// How many frames of each identifier a trace has.
pub fn sent(alloc: Global, trace: &[TimedFrame]) -> Result<Vec<usize>, AllocError>
    ensures length { IfOk result (λ sent. length sent.items ≡ identifiers) }
    ensures sent { IfOk result (λ sent. (id : ℕ) → id < identifiers
        → slice_index sent.items id ≡ frames_with trace.now id) }
{
    let mut sent = vec![in alloc; 0; usize::from(IDENTIFIERS)]?;
    for frame in trace {
        add(&mut sent, &frame.frame);
    }
    Ok(sent)
}

/// How many requests of each identifier there are.
pub fn asked(alloc: Global, requests: &[Request]) -> Result<Vec<usize>, AllocError>
    ensures length { IfOk result (λ asked. length asked.items ≡ identifiers) }
    ensures asked { IfOk result (λ asked. (id : ℕ) → id < identifiers
        → slice_index asked.items id ≡ length (requests_of requests.now id)) }
{
    let mut asked = vec![in alloc; 0; usize::from(IDENTIFIERS)]?;
    for request in requests {
        add(&mut asked, &request.frame);
    }
    Ok(asked)
}

/// Counts a frame under its identifier.
fn add(counts: &mut [usize], frame: &Frame)
    requires length { length counts.old ≡ identifiers }
    requires few { (id : ℕ) → id < identifiers → slice_index counts.old id < 2 ^ 63 }
    ensures length { length counts.new ≡ identifiers }
    ensures counts { (id : ℕ) → id < identifiers
        → slice_index counts.new id ≡ slice_index counts.old id + (if frame.now.identifier == id then 1 else 0) }
{
    counts[usize::from(frame.id())] += 1;
}
