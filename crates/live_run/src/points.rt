//! The points of a run at which a gate is passed.

/// A point of a run.
#[derive(Clone, Copy, Debug, PartialEq, Eq)]
pub enum Point {
    /// A cycle was opened, and is not run on the bus yet.
    CycleOpen { cycle: u64 },
    /// A cycle was run on the bus.
    CycleDone { cycle: u64 },
    /// A change of this operator, 1 to 8, is about to be planned, with no turn held.
    Planning { caller: u8 },
    /// An act of this operator, 1 to 8, was answered.
    Answered { caller: u8 },
}

/// What each thread of a run passes at the points. A gate may hold a thread for a while: it tells nothing, and changes
/// nothing of the run.
pub trait Gate: Sync {
    /// Is called at a point, and lets the thread go on when it returns.
    fn pass(&self, point: Point);
}

/// A gate that holds nobody.
#[derive(Clone, Copy, Debug)]
pub struct OpenGate;

impl Gate for OpenGate {
    fn pass(&self, _point: Point) {}
}
