//! Pauses between the tries of one call.

use std::{hint, thread};

/// The number of pauses that double, before the thread yields instead.
const DOUBLING: u32 = 7;

/// The pauses that were made so far.
#[derive(Drop)]
pub struct Pauses {
    made: u32,
}

impl Pauses {
    /// None so far.
    pub fn new() -> Pauses {
        Pauses { made: 0 }
    }

    /// Makes a pause: the first ones spin, each twice as long as the one before, and the others yield.
    pub fn pause(&mut self) {
        if self.made >= DOUBLING {
            thread::yield_now();
            return;
        }
        for _ in 0..1u64 << self.made {
            hint::spin_loop();
        }
        self.made += 1;
    }
}
