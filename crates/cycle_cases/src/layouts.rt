//! Calls of `cycle_layout`.

ghost use Rattle.std.specs.Prelude.{◌≡◌, IfOk};
ghost use Rattle.trigger_kind.specs.Kind.{IsSlots};

use cases::{CaseTable, Fault, cut, length, small, time};
use cycle_layout::Layout;
use std::alloc::{AllocError, Global};

/// Layouts of an elementary cycle: each is the first three fields behind a call's word. It has 96 slots where `96` stands
/// before the word, and 40 else.
#[derive(Drop)]
pub struct Layouts;

impl CaseTable for Layouts {
    ghost use Rattle.std.specs.Prelude.{⊤};

    ghost IsReady = { λ _. ⊤ };

    fn answer(&mut self, alloc: Global, given: &str) -> Result<String, Fault> {
        match given.strip_prefix("96 ") {
            Some(call) => answer_with(alloc, call, 96),
            None => answer_with(alloc, given, 40),
        }
    }
}

/// What a call answers of a layout with so many slots.
fn answer_with(alloc: Global, call: &str, slots: u8) -> Result<String, Fault>
    requires slots { IsSlots slots }
{
    let (word, fields) = cut(call, ' ');
    match word {
        "new" => made(alloc, fields, slots),
        "trigger" => trigger_of(alloc, fields, slots),
        "window" => window_of(alloc, fields, slots),
        "fits" => fits(alloc, fields, slots),
        _ => Err(Fault::Unread),
    }
}

/// The layout of the first three fields, with so many slots.
pub fn layout(fields: &str, slots: u8) -> Result<Layout, Fault>
    requires slots { IsSlots slots }
    ensures slots { IfOk result (λ layout. layout.slots ≡ slots) }
{
    let (cycle, rest) = cut(fields, ' ');
    let (turnaround, rest) = cut(rest, ' ');
    let (window, _) = cut(rest, ' ');
    match Layout::new(length(cycle)?, length(turnaround)?, length(window)?, slots) {
        Ok(layout) => Ok(layout),
        Err(_) => Err(Fault::Unread),
    }
}

/// What stands after the first three fields.
pub fn after_layout(fields: &str) -> &str {
    let (_, rest) = cut(fields, ' ');
    let (_, rest) = cut(rest, ' ');
    let (_, rest) = cut(rest, ' ');
    rest
}

/// The number of slots of a layout, and the length of its trigger part.
fn trigger_of(alloc: Global, fields: &str, slots: u8) -> Result<String, Fault>
    requires slots { IsSlots slots }
{
    let layout = layout(fields, slots)?;
    if !after_layout(fields).is_empty() {
        return Err(Fault::Unread);
    }
    Ok(format!(in alloc; "{} {}", layout.slots(), layout.trigger_part())?)
}

/// The lengths of a layout, or the fault.
fn made(alloc: Global, fields: &str, slots: u8) -> Result<String, Fault>
    requires slots { IsSlots slots }
{
    let (cycle, rest) = cut(fields, ' ');
    let (turnaround, window) = cut(rest, ' ');
    match Layout::new(length(cycle)?, length(turnaround)?, length(window)?, slots) {
        Ok(layout) => Ok(lengths(alloc, &layout)?),
        Err(fault) => Ok(format!(in alloc; "{fault}")?),
    }
}

/// The lengths of a layout: of its cycle, of its turnaround and of its longest window.
fn lengths(alloc: Global, layout: &Layout) -> Result<String, AllocError> {
    layout.is_in_range();
    let (cycle, turnaround, window) = (layout.cycle(), layout.turnaround(), layout.window());
    format!(in alloc; "{cycle} {turnaround} {window}")
}

/// The start and the end of the asynchronous window of a cycle.
fn window_of(alloc: Global, fields: &str, slots: u8) -> Result<String, Fault>
    requires slots { IsSlots slots }
{
    let layout = layout(fields, slots)?;
    let (cycle, l) = cut(after_layout(fields), ' ');
    let (cycle, l) = (time(cycle)?, length(l)?);
    if l > layout.window() {
        return Err(Fault::Unread);
    }
    let (start, end) = (layout.async_open(cycle), layout.sync_start(cycle, l));
    Ok(format!(in alloc; "{start} {end}")?)
}

/// Whether a frame of so many bytes may start.
fn fits(alloc: Global, fields: &str, slots: u8) -> Result<String, Fault>
    requires slots { IsSlots slots }
{
    let layout = layout(fields, slots)?;
    let (at, rest) = cut(after_layout(fields), ' ');
    let (count, l) = cut(rest, ' ');
    let (at, count, l) = (time(at)?, small(count)?, length(l)?);
    if count > 8 || l > layout.window() {
        return Err(Fault::Unread);
    }
    Ok(format!(in alloc; "{}", layout.fits(at, count, l))?)
}
