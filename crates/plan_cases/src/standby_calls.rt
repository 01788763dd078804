//! Calls of a standby.

ghost use Rattle.std.specs.Prelude.{IfOk};
ghost use Rattle.standby.specs.Handover.{HasCaller};

use crate::admission_calls::{known, rules_of};
use crate::numbers::{count, first, number, set};
use admission::Rules;
use can_frame::Frame;
use cases::{CaseTable, Fault, cut};
use change_protocol::{Change, Op, Ops};
use planner_policies::Fill;
use profile::OPENINGS_END;
use requirement_table::Entry;
use standby::{Frames, Standby, Told, follow};
use std::alloc::{AllocError, Global};
use trigger_codec::{encode, encode_second};
use trigger_kind::are_slots;

/// A standby: `fresh` makes a new one, the other words tell it something, and behind `over` there is none.
#[derive(Drop)]
pub struct Standbys {
    standby: Option<Standby>,
}

impl Standbys {
    /// No standby.
    pub fn new() -> Standbys {
        Standbys { standby: None }
    }
}

impl CaseTable for Standbys {
    ghost use Rattle.std.specs.Prelude.{⊤};

    ghost IsReady = { λ _. ⊤ };

    fn answer(&mut self, alloc: Global, given: &str) -> Result<String, Fault> {
        let (word, rest) = cut(given, ' ');
        match word {
            "fresh" => {
                self.standby = begun(alloc, rest)?;
                Ok(format!(in alloc; "{}", self.standby.is_some())?)
            }
            "over" => match self.standby.take() {
                Some(standby) => Ok(taken_over(alloc, standby)?),
                None => Err(Fault::Unread),
            },
            _ => match &mut self.standby {
                Some(standby) => Ok(told(alloc, standby, word, rest)?),
                None => Err(Fault::Unread),
            },
        }
    }
}

/// A standby that was told nothing yet, of a bus with so many slots, window and horizon.
fn begun(alloc: Global, numbers: &str) -> Result<Option<Standby>, AllocError> {
    let (slots, rest) = first(numbers);
    let (window, horizon) = first(rest);
    let rules = Rules {
        nodes: 2,
        ..rules_of(slots, Fill::Prefix, window, number(horizon))
    };
    if !known(&rules) || !are_slots(rules.slots) {
        return Ok(None);
    }
    Ok(Some(Standby::new(alloc, rules)?))
}

/// What the standby answers to what it is told, and its next cycle then.
fn told(
    alloc: Global,
    standby: &mut Standby,
    word: &str,
    numbers: &str,
) -> Result<String, AllocError> {
    if standby.next() >= 1 << 40 || word == "add" && count(numbers) != 6 {
        return Ok(String::new(alloc));
    }
    let mut list = Vec::new(alloc);
    list.push(said(alloc, word, numbers)?)?;
    match follow(standby, alloc, list.as_slice()) {
        Ok(()) => format!(in alloc; "followed, next {}", standby.next()),
        Err(fault) => format!(in alloc; "{fault:?}, next {}", standby.next()),
    }
}

/// How many events the standby has, and what its master opens that takes over.
fn taken_over(alloc: Global, standby: Standby) -> Result<String, AllocError> {
    let events = standby.history().len();
    let mut master = standby.take_over();
    master.reserve(alloc, 1)?;
    if master.next() >= OPENINGS_END {
        return Ok(String::new(alloc));
    }
    let order = master.open();
    format!(in alloc;
        "{events} events, opens cycle {} with {}, learns {}",
        order.cycle,
        order.mask.bits(),
        order.learned.is_some()
    )
}

/// What the standby is told by a word: a change, or trigger frames.
fn said(alloc: Global, word: &str, numbers: &str) -> Result<Told, AllocError>
    ensures caller { IfOk result HasCaller }
{
    match word {
        "add" => added(alloc, numbers),
        _ => heard(alloc, word, numbers),
    }
}

/// A change of operator 1 that adds an entry: START SLOT NODE LENGTH PERIOD DEADLINE.
fn added(alloc: Global, numbers: &str) -> Result<Told, AllocError>
    ensures caller { IfOk result HasCaller }
{
    let (start, rest) = first(numbers);
    let (slot, rest) = first(rest);
    let (node, rest) = first(rest);
    let (size, rest) = first(rest);
    let (period, rest) = first(rest);
    let deadline = number(rest);
    let entry = Entry {
        slot: (slot % 0x100) as u8,
        node: (node % 0x100) as u8,
        length: (size % 0x100) as u8,
        phase: 0,
        period: (period % 0x1_0000) as u16,
        deadline: (deadline % 0x1_0000) as u16,
        priority: 0,
    };
    let ops = Ops::of(Vec::from_slice(alloc, &[Op::Add { entry }])?);
    Ok(Told::Change {
        caller: 1,
        change: Change { start, ops },
    })
}

/// The trigger frames of a word: `one` or `two` frames of CYCLE with L and the slots after it, the `second` of two
/// alone, both in the `turned` order, or `none`. The second frame is that of the cycle OTHER.
fn heard(alloc: Global, word: &str, numbers: &str) -> Result<Told, AllocError>
    ensures caller { IfOk result HasCaller }
{
    let (cycle, rest) = first(numbers);
    let (other, rest) = first(rest);
    let (l, slots) = first(rest);
    let mask = set(slots);
    let one = encode(cycle, (l % 0x4000) as u32, mask);
    let frames = frames(alloc, word, one, encode_second(other, mask))?;
    Ok(Told::Trigger {
        frames: Frames::of(frames),
    })
}

/// Those of two frames that the word names.
fn frames(alloc: Global, word: &str, one: Frame, other: Frame) -> Result<Vec<Frame>, AllocError> {
    match word {
        "one" => Vec::from_slice(alloc, &[one]),
        "second" => Vec::from_slice(alloc, &[other]),
        "two" => Vec::from_slice(alloc, &[one, other]),
        "turned" => Vec::from_slice(alloc, &[other, one]),
        _ => Ok(Vec::new(alloc)),
    }
}
