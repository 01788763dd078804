//! What became of a request.

ghost use Rattle.std.specs.Prelude.{◌≡◌};
ghost use Rattle.sporadic_poll.specs.Rides.{release_noted};

/// A request that an instance took.
#[derive(Clone, Copy, Debug, PartialEq, Eq)]
pub struct Ride {
    /// The elementary cycle in which the instance was released.
    pub release: u64,
    /// The place of the request in the file, from 0.
    pub place: usize,
}

/// What became of a request so far. Cycles are elementary cycles, from 0.
#[derive(Clone, Copy, Debug, PartialEq, Eq)]
pub enum Fate {
    /// No instance took it.
    Waits,
    /// The instance took it that was released in this cycle, and no frame of that instance was sent.
    Taken {
        /// The cycle of the release.
        release: u64,
    },
    /// The instance took it that was released in one cycle, and its frame was sent in another or the same.
    Sent {
        /// The cycle of the release.
        release: u64,
        /// The cycle of the frame.
        cycle: u64,
    },
}

impl Fate {
    /// The cycle of the release of the instance that took the request.
    pub fn release(&self) -> Option<u64>
        ensures value { result ≡ release_noted self.now }
    {
        match self {
            Fate::Waits => None,
            Fate::Taken { release } => Some(*release),
            Fate::Sent { release, .. } => Some(*release),
        }
    }
}
