//! What a node in use does with the trigger frames that it hears.

ghost use Rattle.std.specs.Prelude.{◌≡◌, ◌≤◌, IfSome};
ghost use Rattle.profile.specs.Limits.{cycles_end};
ghost use Rattle.trigger_codec.specs.Bytes.{second_of};
ghost use Rattle.live_node.specs.Hearing.{by_first, heard_first, heard_of_cycle, heard_second, is_again, kept};
ghost use Rattle.live_node.specs.Hearing.{not_taken, said_cycle, step_of};

use can_frame::{Frame, TimedFrame};
use node_model::Node;
use profile::CYCLES_END;
use requirement_table::Mask;
use trigger_codec::{Second, Trigger, decode, decode_second};
use trigger_kind::Triggers;

/// What became of a trigger frame.
#[derive(Clone, Copy, PartialEq, Eq, Debug)]
pub enum Heard {
    /// The cycle is open.
    Opened,
    /// It is the first of two, and the second one opens the cycle.
    Noted,
    /// It is one of the open cycle, which came before. Nothing changes.
    Again,
    /// It is none of a cycle that can have come. No cycle is open, and nothing is sent until the next one that is taken.
    NotTaken,
    /// It is no trigger frame. Nothing changes.
    Other,
}

/// Hears a frame of the bus. So many cycles have passed without a trigger by a clock, which is off by at most `tolerance`.
pub fn hear(node: &mut Node, passed: u32, tolerance: u8, frame: &Frame) -> Heard
    ensures answer { result ≡ (step_of passed tolerance frame.now node.old.state).answer }
    ensures state { node.new.state ≡ (step_of passed tolerance frame.now node.old.state).state }
    ensures spare { node.new.spare ≡ node.old.spare }
{
    let id = frame.id();
    let layout = node.layout();
    if layout.triggers().opening() < id {
        return Heard::Other;
    }
    if id == 0 {
        hear_first(node, passed, tolerance, &decode(frame).ok(), frame)
    } else {
        hear_second(node, passed, tolerance, &decode_second(frame).ok(), frame)
    }
}

/// Hears a first trigger frame, which says this where it is one.
fn hear_first(
    node: &mut Node,
    passed: u32,
    tolerance: u8,
    said: &Option<Trigger>,
    frame: &Frame,
) -> Heard
    requires first { frame.now.identifier ≡ 0 }
    ensures answer { result ≡ (heard_first passed tolerance said.now frame.now node.old.state).answer }
    ensures state { node.new.state ≡ (heard_first passed tolerance said.now frame.now node.old.state).state }
    ensures spare { node.new.spare ≡ node.old.spare }
{
    match said {
        Some(trigger) => {
            if is_again(node, passed, tolerance, trigger.low) {
                return Heard::Again;
            }
            let cycle = said_cycle(node.next_cycle(), passed, tolerance, trigger.low);
            hear_of_cycle(node, cycle, trigger.l, frame)
        }
        None => close(node),
    }
}

/// Hears the first trigger frame of a cycle, with this window.
fn hear_of_cycle(node: &mut Node, cycle: Option<u64>, l: u32, frame: &Frame) -> Heard
    requires first { frame.now.identifier ≡ 0 }
    requires behind { IfSome cycle (λ cycle. node.old.state.next ≤ cycle) }
    ensures answer { result ≡ (heard_of_cycle cycle l frame.now node.old.state).answer }
    ensures state { node.new.state ≡ (heard_of_cycle cycle l frame.now node.old.state).state }
    ensures spare { node.new.spare ≡ node.old.spare }
{
    let layout = node.layout();
    let Some(cycle) = cycle else {
        return close(node);
    };
    if l <= layout.window() && cycle < CYCLES_END {
        if cycle != node.next_cycle() {
            node.pass_to(cycle);
        }
        node.hear(&timed(frame));
        by_first(layout.triggers())
    } else {
        close(node)
    }
}

/// Hears a second trigger frame, which says this where it is one.
fn hear_second(
    node: &mut Node,
    passed: u32,
    tolerance: u8,
    said: &Option<Second>,
    frame: &Frame,
) -> Heard
    ensures answer { result ≡ (heard_second passed tolerance said.now frame.now node.old.state).answer }
    ensures state { node.new.state ≡ (heard_second passed tolerance said.now frame.now node.old.state).state }
    ensures spare { node.new.spare ≡ node.old.spare }
{
    match said {
        Some(second) => {
            if is_again(node, passed, tolerance, second.low) {
                return Heard::Again;
            }
            if node.opening_trigger(frame).is_some() && node.next_cycle() < CYCLES_END {
                node.hear(&timed(frame));
                Heard::Opened
            } else {
                close(node)
            }
        }
        None => close(node),
    }
}

/// Closes the open cycle, where there is one.
fn close(node: &mut Node) -> Heard
    ensures answer { result ≡ (not_taken node.old.state).answer }
    ensures state { node.new.state ≡ (not_taken node.old.state).state }
    ensures spare { node.new.spare ≡ node.old.spare }
{
    let next = node.next_cycle();
    node.pass_to(next);
    Heard::NotTaken
}

/// What the first trigger frame of a cycle does.
fn by_first(triggers: Triggers) -> Heard
    ensures answer { result ≡ by_first triggers }
{
    match triggers {
        Triggers::One => Heard::Opened,
        Triggers::Two => Heard::Noted,
    }
}

/// Whether a number modulo 256 is that of the open cycle, and no next cycle can have come.
fn is_again(node: &Node, passed: u32, tolerance: u8, low: u8) -> bool
    ensures again { result ≡ is_again node.now.state passed tolerance low }
{
    if u32::from(tolerance) < passed {
        return false;
    }
    match node.open_cycle() {
        Some(open_cycle) => open_cycle.cycle % 256 == u64::from(low),
        None => false,
    }
}

/// The cycle that a first trigger frame is of, which has this number modulo 256, where so many cycles have passed by a
/// clock, which is off by at most `tolerance`.
fn said_cycle(next: u64, passed: u32, tolerance: u8, low: u8) -> Option<u64>
    requires few { next ≤ cycles_end }
    ensures said { result ≡ said_cycle next passed tolerance low }
    ensures behind { IfSome result (λ cycle. next ≤ cycle) }
{
    let guess = next + u64::from(passed);
    let ahead = (u64::from(low) + (256 - guess % 256)) % 256;
    if ahead <= u64::from(tolerance) {
        Some(guess + ahead)
    } else if 256 <= ahead + u64::from(tolerance) && next + 256 <= guess + ahead {
        Some(guess + ahead - 256)
    } else {
        None
    }
}

/// A frame of which nobody asks when it started.
fn timed(frame: &Frame) -> TimedFrame
    ensures timed { result ≡ record { start = 0; len = 0; frame = frame.now } }
{
    TimedFrame {
        start: 0,
        len: 0,
        frame: *frame,
    }
}

/// Slots of the open cycle, which are forgotten where a cycle was opened.
pub fn kept(heard: Heard, slots: Mask) -> Mask
    ensures kept { result ≡ kept heard slots }
{
    match heard {
        Heard::Opened => Mask::empty(),
        Heard::Noted | Heard::Again | Heard::NotTaken | Heard::Other => slots,
    }
}
