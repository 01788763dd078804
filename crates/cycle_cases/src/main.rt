//! Cases of the crates that make up a cycle on the bus, as tables of text: what is called, and what it is to answer. For
//! each table one line is printed. All values were worked out by hand.
#![tactic(auto)]

mod entries;
mod layouts;
mod mailboxes;
mod one_node;
mod polled;
mod requests;
mod triggers;
mod values;

use cases::show;
use layouts::Layouts;
use mailboxes::WaitingMail;
use one_node::OneNode;
use polled::PolledCases;
use std::io;
use triggers::TriggerCases;

fn main(rt: HostRuntime) -> io::Result<()> {
    show(&rt, "layouts", Layouts)?;
    show(&rt, "triggers", TriggerCases)?;
    show(&rt, "mailboxes", WaitingMail::new())?;
    show(&rt, "one_node", OneNode::new())?;
    show(&rt, "polled", PolledCases)?;
    Ok(())
}
