//! The summary of a run, which `gen` writes.

ghost use Rattle.std.specs.Prelude.{◌≡◌, IfOk, count_by, string_bytes};
ghost use Rattle.std.specs.List.{sum_by};
ghost use Rattle.master_core.specs.History.{accepts, is_open};
ghost use Rattle.fttcan_top.specs.Summary.{is_asynchronous, is_synchronous, refuses, summary_text};

use can_frame::TimedFrame;
use generated_input::GENERATED_SLOTS;
use master_core::Event;
use profile::{FIRST_IDENTIFIER, LEAST_ASYNCHRONOUS};
use std::alloc::{AllocError, Global};

/// Whether the event refuses a change.
fn refuses(event: &Event) -> bool
    ensures test { result ≡ refuses event.now }
{
    match event {
        Event::Submit { verdict, .. } => !verdict.is_accepted(),
        Event::Look { .. } | Event::Open { .. } => false,
    }
}

/// Whether the frame is a synchronous one of a generated system.
fn is_synchronous(sent: &TimedFrame) -> bool
    ensures test { result ≡ is_synchronous sent.now }
{
    let id = sent.frame.id();
    FIRST_IDENTIFIER <= id && id < FIRST_IDENTIFIER + u16::from(GENERATED_SLOTS)
}

/// Whether the frame is an asynchronous one.
fn is_asynchronous(sent: &TimedFrame) -> bool
    ensures test { result ≡ is_asynchronous sent.now }
{
    LEAST_ASYNCHRONOUS <= sent.frame.id()
}

/// The numbers of changes that were accepted and that were refused, and of opened cycles.
fn answered(history: &[Event]) -> (usize, usize, usize)
    ensures accepted { result.0 ≡ count_by accepts history.now }
    ensures refused { result.1 ≡ count_by refuses history.now }
    ensures opened { result.2 ≡ count_by is_open history.now }
{
    let accepted = history.iter().filter(|event| event.accepts()).count();
    let refused = history.iter().filter(|event| refuses(*event)).count();
    let opened = history.iter().filter(|event| event.opens_cycle()).count();
    (accepted, refused, opened)
}

/// The numbers of synchronous and of asynchronous frames, and the bit times that all frames took.
fn counted(trace: &[TimedFrame]) -> (usize, usize, u128)
    ensures synchronous { result.0 ≡ count_by is_synchronous trace.now }
    ensures asynchronous { result.1 ≡ count_by is_asynchronous trace.now }
    ensures busy { result.2 ≡ sum_by (λ sent. sent.len) trace.now }
{
    let mut synchronous = 0;
    let mut asynchronous = 0;
    let mut busy = 0u128;
    for sent in trace {
        busy += u128::from(sent.len);
        synchronous += usize::from(is_synchronous(sent));
        asynchronous += usize::from(is_asynchronous(sent));
    }
    (synchronous, asynchronous, busy)
}

/// The summary of a run of the input that a number made, with so many requests.
pub fn summary_of(
    alloc: Global,
    number: u32,
    history: &[Event],
    trace: &[TimedFrame],
    requests: usize,
) -> Result<String, AllocError>
    ensures text { IfOk result
        (λ text. string_bytes text ≡ summary_text number history.now trace.now requests) }
{
    let (accepted, refused, opened) = answered(history);
    let (synchronous, asynchronous, busy) = counted(trace);
    let left = requests.saturating_sub(asynchronous);
    let mut text = String::new(alloc);
    writeln!(text, "gen,{number}")?;
    writeln!(text, "accepted,{accepted}")?;
    writeln!(text, "refused,{refused}")?;
    writeln!(text, "cycles,{opened}")?;
    writeln!(text, "synchronous,{synchronous}")?;
    writeln!(text, "asynchronous,{asynchronous}")?;
    writeln!(text, "left,{left}")?;
    writeln!(text, "busy,{busy}")?;
    text.push_str("end\n")?;
    Ok(text)
}
