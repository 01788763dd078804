//! The report as one text.

ghost use Rattle.std.specs.Prelude.{◌≡◌, ◌++◌, IfOk, OnOk};
ghost use Rattle.std.specs.List.{flat_map};
ghost use Rattle.std.specs.String.{string_bytes};
ghost use Rattle.requirement_table.specs.Table.{IsWellPlaced};
ghost use Rattle.plan_report.specs.Report.{async_row, entry_row, identifiers, owned_below, report_text};

use crate::counts::{IDENTIFIERS, asked, owned, sent};
use crate::load::opened_load;
use crate::rows::{push_entry_row, push_load_row, push_owned_row};
use crate::sent::tallies;
use crate::tally::tally_of;
use async_window::{Owner, Request};
use can_frame::TimedFrame;
use master_core::Master;
use master_core::laws::{legal_histories, opened_cycles};
use requirement_table::Placed;
use std::alloc::{AllocError, Global};

/// The report of a master's history and a trace: a row of each placed entry with the instances of it that were sent
/// and their delays in cycles, a row of each owned identifier with its frames that were sent and its requests that
/// were not, and a row of the widths of the synchronous windows in bit times.
///
/// The trace is that of the cycles that the master opened. It takes time for the frames, the entries, the requests
/// and the events together, and for one walk over the entries for each slot. It takes memory for a row of numbers for
/// each entry and each identifier, and for the text.
///
/// # Errors
///
/// Only where memory runs out.
pub fn report(
    alloc: Global,
    master: &Master,
    trace: &[TimedFrame],
    owners: &[Owner],
    requests: &[Request],
) -> Result<Vec<u8>, AllocError>
    ensures text { IfOk result (λ text. text.items ≡ report_text master.now.history trace.now owners.now requests.now) }
{
    legal_histories();
    opened_cycles();
    let history = master.history();
    let placed = master.placed();
    let mut text = String::new(alloc);
    push_entry_rows(&mut text, alloc, placed, trace)?;
    push_async_rows(&mut text, alloc, trace, owners, requests)?;
    push_load_row(&mut text, &opened_load(placed, history))?;
    Ok(text.into_bytes())
}

/// Appends the rows of entries, in their order.
fn push_entry_rows(
    text: &mut String,
    alloc: Global,
    placed: &[Placed],
    trace: &[TimedFrame],
) -> Result<(), AllocError>
    requires well_placed { IsWellPlaced placed.now }
    ensures ok { OnOk result
        (string_bytes text.new ≡ string_bytes text.old ++ flat_map (entry_row trace.now) placed.now) }
{
    let tallies = tallies(alloc, placed, trace)?;
    for (place, p) in placed.iter().enumerate() {
        push_entry_row(text, p, &tally_of(&tallies[place]))?;
    }
    Ok(())
}

/// Appends the rows of the identifiers that have an owner, the least one first.
fn push_async_rows(
    text: &mut String,
    alloc: Global,
    trace: &[TimedFrame],
    owners: &[Owner],
    requests: &[Request],
) -> Result<(), AllocError>
    ensures ok { OnOk result (string_bytes text.new
        ≡ string_bytes text.old ++ flat_map (async_row trace.now requests.now) (owned_below owners.now identifiers)) }
{
    let owned = owned(alloc, owners)?;
    let sent = sent(alloc, trace)?;
    let asked = asked(alloc, requests)?;
    for id in 0..IDENTIFIERS {
        let place = usize::from(id);
        push_owned_row(text, id, owned[place], sent[place], asked[place])?;
    }
    Ok(())
}
