//! Calls of `bus_line`.

use crate::bits::bits;
use crate::recordings::read;
use crate::scripted::{Scripted, Station};
use bus_line::run_until;
use can_frame::TimedFrame;
use cases::{CaseTable, Fault, cut, hexadecimal, push_behind, text_of_trace, time};
use profile::SHORTEST_FRAME;
use std::alloc::Global;

/// A bus with three scripted stations, from one line that gives them to the next.
#[derive(Drop)]
pub struct ScriptedLine {
    stations: Option<Scripted>,
}

impl ScriptedLine {
    /// No stations.
    pub fn new() -> ScriptedLine {
        ScriptedLine { stations: None }
    }
}

impl CaseTable for ScriptedLine {
    ghost use Rattle.std.specs.Prelude.{⊤};

    ghost IsReady = { λ _. ⊤ };

    fn answer(&mut self, alloc: Global, given: &str) -> Result<String, Fault> {
        let (word, fields) = cut(given, ' ');
        match word {
            "stations" => {
                self.stations = scripted(fields)?;
                Ok(format!(in alloc; "{}", self.stations.is_some())?)
            }
            "run" => match &mut self.stations {
                Some(stations) => run(alloc, stations, fields),
                None => Err(Fault::Unread),
            },
            "read" => read(alloc, bits(alloc, fields)?.as_slice()),
            _ => Err(Fault::Unread),
        }
    }
}

/// The stations of three fields, where their identifiers rise.
fn scripted(fields: &str) -> Result<Option<Scripted>, Fault> {
    let (low, rest) = cut(fields, ' ');
    let (middle, high) = cut(rest, ' ');
    Ok(Scripted::of(station(low)?, station(middle)?, station(high)?))
}

/// The station of five numbers with colons between them.
fn station(field: &str) -> Result<Station, Fault> {
    let (id, rest) = cut(field, ':');
    let (from, rest) = cut(rest, ':');
    let (until, rest) = cut(rest, ':');
    let (again, again_until) = cut(rest, ':');
    Ok(Station {
        id: hexadecimal(id)?,
        from: time(from)?,
        until: time(until)?,
        again: time(again)?,
        again_until: time(again_until)?,
    })
}

/// The frames that are sent from one time to below another, and when the bus is free after them.
fn run(alloc: Global, stations: &mut Scripted, fields: &str) -> Result<String, Fault> {
    let (from, until) = cut(fields, ' ');
    let (from, until) = (time(from)?, time(until)?);
    if until < from || until - from > 10_000 {
        return Err(Fault::Unread);
    }
    let room = (until - from) / u64::from(SHORTEST_FRAME) + 1;
    let mut trace = Vec::with_capacity(alloc, room as usize)?;
    let free = run_until(stations, from, until, &mut trace);
    run_text(alloc, trace.as_slice(), free)
}

/// The text of the frames of a run, and of when the bus is free after them.
fn run_text(alloc: Global, trace: &[TimedFrame], free: u64) -> Result<String, Fault> {
    let mut text = text_of_trace(alloc, trace)?;
    let end = format!(in alloc; "free {free}")?;
    push_behind(&mut text, ' ', end.as_str())?;
    Ok(text)
}
