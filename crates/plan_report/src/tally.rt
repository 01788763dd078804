//! What is counted of an entry while the frames of a trace are walked.

ghost use Rattle.std.specs.Prelude.{◌≡◌, ◌-◌, ◌^◌, ◌<◌, IfSome, min, max};
ghost use Rattle.std.specs.Option.{option_map_or};
ghost use Rattle.requirement_table.specs.Instance.{MaySend, release_of};
ghost use Rattle.requirement_table.specs.Table.{IsInRange};
ghost use Rattle.plan_report.specs.Tally.{IsNextCount, TellsRelease, count_with, tally_of, tally_with};

use requirement_table::{Placed, exists};

/// What is counted of an entry of which something was sent.
#[derive(Clone, Copy, Debug)]
pub struct Count {
    /// How many of its instances were sent.
    pub instances: usize,
    /// The number of the last one.
    pub number: u64,
    /// The cycle in which the last one was released.
    pub release: u64,
    /// The least delay, in cycles.
    pub least: u64,
    /// The greatest delay, in cycles.
    pub greatest: u64,
}

/// What was sent of an entry.
#[derive(Clone, Copy, Debug)]
pub struct Tally {
    /// How many of its instances were sent.
    pub instances: usize,
    /// The number of the last one.
    pub last: Option<u64>,
    /// The least delay, in cycles.
    pub least: Option<u64>,
    /// The greatest delay, in cycles.
    pub greatest: Option<u64>,
}

impl Count {
    /// What is counted with one instance more, which is sent with a delay in cycles.
    #[inline(always)]
    fn with(&self, number: u64, release: u64, delay: u64) -> Count
        requires few { self.now.instances < 2 ^ 63 }
        ensures count { result ≡ count_with self.now number release delay }
    {
        Count {
            instances: self.instances + 1,
            number,
            release,
            least: self.least.min(delay),
            greatest: self.greatest.max(delay),
        }
    }

    /// What is counted once the instance after the last one is sent in a cycle, where it may be sent in it. No division
    /// is needed for it.
    #[inline(always)]
    pub fn next(&self, p: &Placed, cycle: u64) -> Option<Count>
        requires range { IsInRange p.now }
        requires few { self.now.instances < 2 ^ 63 }
        requires released { TellsRelease p.now self.now }
        requires cycle { cycle < 2 ^ 63 }
        ensures next { IfSome result (IsNextCount p.now cycle self.now) }
    {
        let release = self.release + u64::from(p.entry.period);
        if cycle < release {
            return None;
        }
        let delay = cycle - release;
        if delay >= u64::from(p.entry.deadline) || !exists(p, release) {
            return None;
        }
        Some(self.with(self.number + 1, release, delay))
    }
}

/// The cycle in which an instance is released that is sent in a cycle.
fn release_of(p: &Placed, number: u64, cycle: u64) -> u64
    requires sends { MaySend p.now number cycle }
    ensures release { result ≡ release_of p.now number }
{
    let phase = u64::from(p.entry.phase);
    let period = u64::from(p.entry.period);
    p.origin + phase + number * period
}

/// What is counted of an entry once an instance of it is sent in a cycle. Only the first sending of an instance counts,
/// and instances are sent in their order.
pub fn counted(count: &Option<Count>, p: &Placed, number: u64, cycle: u64) -> Option<Count>
    requires range { IsInRange p.now }
    requires sends { MaySend p.now number cycle }
    requires few { (tally_of count.now).instances < 2 ^ 63 }
    requires released { IfSome count.now (TellsRelease p.now) }
    requires cycle { cycle < 2 ^ 63 }
    ensures tally { tally_of result
        ≡ tally_with (tally_of count.now) number (cycle - release_of p.now number) }
    ensures released { IfSome result (TellsRelease p.now) }
{
    let release = release_of(p, number, cycle);
    let delay = cycle - release;
    match count {
        None => Some(Count {
            instances: 1,
            number,
            release,
            least: delay,
            greatest: delay,
        }),
        Some(known) => {
            if known.number == number {
                Some(*known)
            } else {
                Some(known.with(number, release, delay))
            }
        }
    }
}

/// What was sent of an entry, by what was counted of it.
pub fn tally_of(count: &Option<Count>) -> Tally
    ensures tally { result ≡ tally_of count.now }
{
    match count {
        None => Tally {
            instances: 0,
            last: None,
            least: None,
            greatest: None,
        },
        Some(count) => Tally {
            instances: count.instances,
            last: Some(count.number),
            least: Some(count.least),
            greatest: Some(count.greatest),
        },
    }
}

/// The lesser of a number and perhaps another one.
pub fn lesser(least: Option<u64>, number: u64) -> u64
    ensures lesser { result ≡ option_map_or (λ least. min least number) least number }
{
    match least {
        Some(least) => least.min(number),
        None => number,
    }
}

/// The greater of a number and perhaps another one.
pub fn greater(greatest: Option<u64>, number: u64) -> u64
    ensures greater { result ≡ option_map_or (λ greatest. max greatest number) greatest number }
{
    match greatest {
        Some(greatest) => greatest.max(number),
        None => number,
    }
}
