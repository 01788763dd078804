//! A gate that holds threads, and one that counts its points.

use fttcan_top::{Gate, Point};
use live_run::OPERATORS;
use std::alloc::AllocError;
use std::array;
use std::hint::spin_loop;
use std::sync::atomic::Ordering::SeqCst;
use std::sync::atomic::{AtomicU8, AtomicU64};

/// How often a thread looks whether it may go on.
const TURNS: u64 = 200_000_000;

/// At which points a gate holds threads.
#[derive(Clone, Copy)]
pub enum HeldPoints {
    /// The first answer until cycle 3 was opened, and that cycle before it is run until the second answer.
    Cycle,
    /// Cycle 0 before it is run until the first plan is begun, and that plan until cycle 1 was opened.
    Plan,
}

/// A gate that holds threads at two points.
#[derive(Drop)]
pub struct HoldingGate {
    held: HeldPoints,
    /// Not 0 once the cycle was opened for which a thread waits.
    opened: AtomicU64,
    /// Not 0 once the first answer was given, or the first plan begun.
    first: AtomicU64,
    /// Not 0 once the second answer was given.
    second: AtomicU64,
    given_up: AtomicU64,
}

impl HoldingGate {
    /// A gate that nobody passed yet.
    pub fn new(held: HeldPoints) -> HoldingGate {
        HoldingGate {
            held,
            opened: AtomicU64::new(0),
            first: AtomicU64::new(0),
            second: AtomicU64::new(0),
            given_up: AtomicU64::new(0),
        }
    }

    /// Whether a thread gave up.
    pub fn is_given_up(&self) -> bool {
        self.given_up.load(SeqCst) != 0
    }

    /// Holds the thread until the word is not 0, and gives up where that does not come.
    fn hold(&self, word: &AtomicU64) {
        for _ in 0..TURNS {
            if word.load(SeqCst) != 0 {
                return;
            }
            spin_loop();
        }
        self.given_up.store(1, SeqCst);
    }

    /// Holds a cycle for an answer, and an answer for that cycle.
    fn pass_held_cycle(&self, point: Point) {
        match point {
            Point::CycleOpen { cycle: 3 } => {
                self.opened.store(1, SeqCst);
                self.hold(&self.second);
            }
            Point::Answered { .. } => {
                if self.first.swap(1, SeqCst) == 0 {
                    self.hold(&self.opened);
                } else {
                    self.second.store(1, SeqCst);
                }
            }
            _ => {}
        }
    }

    /// Holds a cycle for a plan, and that plan for the cycle behind it.
    fn pass_held_plan(&self, point: Point) {
        match point {
            Point::CycleOpen { cycle: 0 } => self.hold(&self.first),
            Point::CycleOpen { cycle: 1 } => self.opened.store(1, SeqCst),
            Point::Planning { .. } => {
                self.first.store(1, SeqCst);
                self.hold(&self.opened);
            }
            _ => {}
        }
    }
}

impl Gate for HoldingGate {
    fn pass(&self, point: Point) {
        match self.held {
            HeldPoints::Cycle => self.pass_held_cycle(point),
            HeldPoints::Plan => self.pass_held_plan(point),
        }
    }
}

/// A gate that holds nobody, and counts the points.
#[derive(Drop)]
pub struct CountingGate {
    /// How many points of cycles came in their order: cycle 0 opened, then done, then cycle 1 opened, and so on.
    in_order: AtomicU64,
    /// How many points came beside these: of a cycle out of its order, or of a number that no operator has.
    others: AtomicU64,
    /// How many changes of each operator were about to be planned, from operator 1 on. Behind 255 comes 0.
    plans: [AtomicU8; OPERATORS],
    /// How many acts of each operator were answered, from operator 1 on. Behind 255 comes 0.
    answers: [AtomicU8; OPERATORS],
}

impl CountingGate {
    /// A gate that nobody passed yet.
    pub fn new() -> CountingGate {
        CountingGate {
            in_order: AtomicU64::new(0),
            others: AtomicU64::new(0),
            plans: array::from_fn(|_| AtomicU8::new(0)),
            answers: array::from_fn(|_| AtomicU8::new(0)),
        }
    }

    /// Counts a point of a cycle. In its order it comes where so many points of cycles came before it.
    fn count_cycle(&self, before: u64) {
        let counted = self
            .in_order
            .compare_exchange(before, before.saturating_add(1), SeqCst, SeqCst);
        if counted.is_err() {
            self.others.fetch_add(1, SeqCst);
        }
    }

    /// Counts a point of an operator, 1 to 8.
    fn count_operator(&self, counts: &[AtomicU8; OPERATORS], caller: u8) {
        let place = usize::from(caller).wrapping_sub(1);
        match counts.get(place) {
            Some(count) => {
                count.fetch_add(1, SeqCst);
            }
            None => {
                self.others.fetch_add(1, SeqCst);
            }
        }
    }

    /// Tells what was counted: of the cycles, and of each operator in two hexadecimal digits, from operator 1 on.
    pub fn put_counts(&self, told: &mut String) -> Result<(), AllocError> {
        let (in_order, others) = (self.in_order.load(SeqCst), self.others.load(SeqCst));
        writeln!(
            told,
            "{in_order} points of cycles in order, {others} others"
        )?;
        put_bytes(told, "plans", &self.plans)?;
        put_bytes(told, "answers", &self.answers)
    }
}

impl Gate for CountingGate {
    fn pass(&self, point: Point) {
        match point {
            Point::CycleOpen { cycle } => self.count_cycle(cycle.saturating_mul(2)),
            Point::CycleDone { cycle } => {
                self.count_cycle(cycle.saturating_mul(2).saturating_add(1));
            }
            Point::Planning { caller } => self.count_operator(&self.plans, caller),
            Point::Answered { caller } => self.count_operator(&self.answers, caller),
        }
    }
}

/// Puts a line of these counts behind their name, each in two hexadecimal digits.
fn put_bytes(
    told: &mut String,
    name: &str,
    counts: &[AtomicU8; OPERATORS],
) -> Result<(), AllocError> {
    write!(told, "{name} ")?;
    for count in counts.iter() {
        write!(told, "{:02x}", count.load(SeqCst))?;
    }
    writeln!(told)
}
