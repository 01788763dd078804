//! The senders that contend for the bus at one time, as a list of their identifiers that needs no
//! memory.

ghost use Rattle.std.specs.Prelude.{◌≡◌, ◌≤◌, ◌<◌, [], ◌∷◌, ◌++◌, Contains, length};
ghost use Rattle.arbitration.specs.Arbitration.{AreDistinct};

use std::marker::Model;

/// How many senders may contend at one time.
const MOST: usize = 32;

/// The distinct identifiers of at most 32 senders that contend for the bus, in the order in which
/// they were pushed.
#[derive(Drop)]
pub struct Contenders {
    ids: [u16; MOST],
    count: usize,
}

impl Model for Contenders {
    ghost use Rattle.std.specs.Prelude.{ℕ, ◌≤◌, List, take};
    ghost use Rattle.arbitration.specs.Arbitration.{AreDistinct};

    ghost Value = { List ℕ };

    ghost view = { λ contenders. take contenders.count contenders.ids };

    ghost invariant = { λ contenders.
        (contenders.count ≤ 32) × AreDistinct (take contenders.count contenders.ids) };
}

impl Contenders {
    /// No contenders.
    pub fn new() -> Contenders
        ensures empty { result ≡ [] }
    {
        Contenders {
            ids: [0; MOST],
            count: 0,
        }
    }

    /// Adds a contender behind the others.
    pub fn push(&mut self, id: u16)
        requires room { length self.old < 32 }
        requires other { ¬ Contains self.old id }
        ensures pushed { self.new ≡ self.old ++ id ∷ [] }
    {
        self.ids[self.count] = id;
        self.count += 1;
    }

    /// Takes all contenders away.
    pub fn clear(&mut self)
        ensures empty { self.new ≡ [] }
    {
        self.count = 0;
    }

    /// The identifiers, in the order in which they were pushed.
    pub fn ids(&self) -> &[u16]
        ensures value { result.now ≡ self.now }
        ensures few { length self.now ≤ 32 }
        ensures distinct { AreDistinct self.now }
    {
        &self.ids[..self.count]
    }
}
