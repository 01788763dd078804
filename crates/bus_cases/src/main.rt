//! Cases of the crates that make up the bus without its cycles, as tables of text: what is called, and what it is to
//! answer. For each table one line is printed. The first table has tables, by which the loop that compares is compared.
//!
//! The frames of `frames.txt` whose length is called for are from outside: `canframelen` of can-utils computed
//! their wire lengths, with the three bits of intermission, and their CRC sequences. All other values were worked out
//! by hand.
#![tactic(auto)]

mod bits;
mod frames;
mod line;
mod nested;
mod recordings;
mod scripted;
mod senders;
mod stuffing;

use cases::show;
use frames::{WireFrames, Wires};
use line::ScriptedLine;
use nested::Nested;
use senders::Senders;
use std::io;
use stuffing::Stuffing;

fn main(rt: HostRuntime) -> io::Result<()> {
    show(&rt, "tables", Nested)?;
    show(&rt, "stuffing", Stuffing)?;
    show(&rt, "frames", WireFrames)?;
    show(&rt, "wires", Wires)?;
    show(&rt, "senders", Senders::new())?;
    show(&rt, "line", ScriptedLine::new())?;
    Ok(())
}
