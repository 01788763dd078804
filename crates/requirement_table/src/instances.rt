//! The instances that a placed entry releases, by arithmetic, and the bytes that they carry.

ghost use Rattle.std.specs.Prelude.{◌≡◌, ℕ, ◌+◌, ◌*◌, ◌<◌, ◌≤◌, Some, IfSome, MatchOption, option_map, length};
ghost use Rattle.profile.specs.Limits.{cycles_end};
ghost use Rattle.requirement_table.specs.Instance.{worst, release_of, exists, payload, IsLastCycle};
ghost use Rattle.requirement_table.specs.Instance.{IsReleasedIn, MaySend, released_by, instance_of};

use crate::entries::Placed;
use std::marker::Model;

/// The worst length of a frame with `length` data bytes, in bit times: its bits, with every stuff
/// bit that they may need, and the intermission.
pub fn cost(length: u8) -> u32
    ensures worst { result ≡ worst length }
{
    55 + 10 * u32::from(length)
}

/// The cycles from the first release of the entry, were there no end, to `cycle`; `None` before it.
fn since_first_release(placed: &Placed, cycle: u64) -> Option<u64>
    ensures { MatchOption result
        (cycle < release_of placed.now 0)
        (λ since. release_of placed.now 0 + since ≡ cycle) }
{
    cycle
        .checked_sub(placed.origin)?
        .checked_sub(u64::from(placed.entry.phase))
}

/// Whether an instance of an entry with this release exists: the entry has no end, or one after the release.
#[inline(always)]
pub fn exists(placed: &Placed, release: u64) -> bool
    ensures exists { result ≡ exists placed.now release }
{
    placed.end.is_none_or(|end| release < end)
}

/// The number of the instance that is released in `cycle`, where there is one.
pub fn releases(placed: &Placed, cycle: u64) -> Option<u64>
    requires deadline { 1 ≤ placed.now.entry.deadline }
    requires period { placed.now.entry.deadline ≤ placed.now.entry.period }
    ensures released { IfSome result (λ k. IsReleasedIn placed.now k cycle) }
    ensures each { (k : ℕ) → IsReleasedIn placed.now k cycle → result ≡ Some k }
    ensures number { result ≡ released_by placed.now cycle }
{
    let since = since_first_release(placed, cycle)?;
    let period = u64::from(placed.entry.period);
    (since % period == 0 && exists(placed, cycle)).then_some(since / period)
}

/// The release and the last cycle of instance `k`. That instance need not exist.
pub fn due(placed: &Placed, k: u64) -> (u64, u64)
    requires deadline { 1 ≤ placed.now.entry.deadline }
    requires period { placed.now.entry.deadline ≤ placed.now.entry.period }
    requires release { release_of placed.now k < cycles_end }
    ensures release { result.0 ≡ release_of placed.now k }
    ensures last { IsLastCycle placed.now k result.1 }
{
    let deadline = placed.entry.deadline;
    let phase = u64::from(placed.entry.phase);
    let release = placed.origin + phase + k * u64::from(placed.entry.period);
    (release, release + u64::from(deadline) - 1)
}

/// An instance that may be sent in a cycle.
#[derive(Clone, Copy, PartialEq, Eq, Debug)]
pub struct Sendable {
    /// Its number, counted from 0.
    pub number: u64,
    /// The cycle of its release.
    pub release: u64,
}

/// The instance that may be sent in `cycle`, where there is one.
pub fn current_instance(placed: &Placed, cycle: u64) -> Option<Sendable>
    requires deadline { 1 ≤ placed.now.entry.deadline }
    requires period { placed.now.entry.deadline ≤ placed.now.entry.period }
    ensures sendable { IfSome result (λ i. MaySend placed.now i.number cycle) }
    ensures release { IfSome result (λ i. i.release ≡ release_of placed.now i.number) }
    ensures each { (k : ℕ) → MaySend placed.now k cycle
        → result ≡ Some (record { number = k; release = release_of placed.now k }) }
    ensures number { option_map (λ i. i.number) result ≡ instance_of placed.now cycle }
{
    let since = since_first_release(placed, cycle)?;
    let period = u64::from(placed.entry.period);
    let number = since / period;
    let age = since % period;
    let release = cycle - age;
    let in_time = age < u64::from(placed.entry.deadline);
    (in_time && exists(placed, release)).then_some(Sendable { number, release })
}

/// The number of the instance that may be sent in `cycle`, where there is one.
pub fn current(placed: &Placed, cycle: u64) -> Option<u64>
    requires deadline { 1 ≤ placed.now.entry.deadline }
    requires period { placed.now.entry.deadline ≤ placed.now.entry.period }
    ensures sendable { IfSome result (λ k. MaySend placed.now k cycle) }
    ensures each { (k : ℕ) → MaySend placed.now k cycle → result ≡ Some k }
    ensures number { result ≡ instance_of placed.now cycle }
{
    current_instance(placed, cycle).map(|instance| instance.number)
}

/// The data bytes of an instance's frame: the low bytes of its number, most significant first.
/// Contracts see the list of bytes.
#[derive(Drop, Debug)]
pub struct Payload {
    number: [u8; 8],
    size: u8,
}

impl Model for Payload {
    ghost use Rattle.std.specs.Prelude.{ℕ, ◌-◌, ◌≤◌, ◌≡◌, List, length, drop};

    ghost Value = { List ℕ };

    ghost view = { λ p. drop (8 - p.size) p.number };

    ghost invariant = { λ p. p.size ≤ 8 };
}

impl Payload {
    /// The low `size` bytes of `number`, at most 8.
    pub fn of(size: u8, number: u64) -> Payload
        requires { size ≤ 8 }
        ensures bytes { result ≡ payload size number }
        ensures count { length result ≡ size }
    {
        Payload {
            number: number.to_be_bytes(),
            size,
        }
    }

    /// The bytes, the first one first.
    pub fn as_slice(&self) -> &[u8]
        ensures bytes { result.now ≡ self.now }
    {
        &self.number[8 - usize::from(self.size)..]
    }
}
