//! Counting the calls of a shelf or a sink in memory, some of which fail.
ghost use Rattle.std.specs.Prelude.{◌≡◌, ◌≤◌};
ghost use Rattle.ftt_io.specs.Calls.{is_failing};
ghost use Rattle.ftt_io.specs.Counts.{next_count};

/// How many calls were made, the numbers of those that fail, and how many faults were counted.
#[derive(Drop)]
pub struct Calls {
    pub failing: Vec<u64>,
    pub made: u64,
    pub faults: u64,
}

impl Calls {
    pub fn new(failing: Vec<u64>) -> Calls
        ensures failing { result.failing.items ≡ failing.items }
        ensures made { result.made ≡ 0 }
        ensures faults { result.faults ≡ 0 }
    {
        Calls {
            failing,
            made: 0,
            faults: 0,
        }
    }

    /// Counts a call, and answers whether it is one that fails.
    pub fn next_fails(&mut self) -> bool
        ensures value { result ≡ is_failing self.old.failing.items self.old.made }
        ensures made { self.new.made ≡ next_count self.old.made }
        ensures made_never_falls { self.old.made ≤ self.new.made }
        ensures failing_stays { self.new.failing.items ≡ self.old.failing.items }
        ensures faults_stay { self.new.faults ≡ self.old.faults }
    {
        let fails = self.failing.contains(&self.made);
        self.made = self.made.saturating_add(1);
        fails
    }

    /// Counts a fault.
    pub fn fault(&mut self)
        ensures faults { self.new.faults ≡ next_count self.old.faults }
        ensures faults_never_fall { self.old.faults ≤ self.new.faults }
        ensures made_stays { self.new.made ≡ self.old.made }
        ensures failing_stays { self.new.failing.items ≡ self.old.failing.items }
    {
        self.faults = self.faults.saturating_add(1);
    }
}
