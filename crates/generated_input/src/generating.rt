//! Inputs that are made from a number alone, the same ones at each time.
//!
//! A linear congruential generator of 64 bits starts at the number. Its draws, in their order, are
//! the forty changes of the steps, six draws each, and then the requests.

ghost use Rattle.std.specs.Prelude.{◌≡◌, ◌+◌, ◌*◌, ◌%◌, ◌<◌, ◌≤◌, ℕ, [], ◌∷◌, IfOk, OnOk};
ghost use Rattle.profile.specs.Limits.{arrivals_end, greatest_identifier};
ghost use Rattle.change_protocol.specs.declared.operations.Op.TheVariants.{Add};
ghost use Rattle.generated_input.specs.Generator.{bytes_made, draw, each_below, entry_made, gap_made};
ghost use Rattle.generated_input.specs.Generator.{generated, generated_slots, identifier_made, owner_made, policy_made};
ghost use Rattle.generated_input.specs.Generator.{requests_made, size_made, state_after, steps_made, system_made};
ghost use Rattle.requests_file.specs.RequestsFile.{AreLegal};
ghost use Rattle.steps_file.specs.StepsFile.{AreLegalSteps};
ghost use Rattle.steps_file.specs.StepsReading.{asking};
ghost use Rattle.system_file.specs.SystemFile.{IsSystem};

use admission_rules::Rules;
use async_window::{Owner, Request};
use can_frame::Frame;
use change_protocol::{Act, Change, Op, Ops};
use cycle_layout::Layout;
use planner_policies::{Fill, Policy};
use profile::LEAST_ASYNCHRONOUS;
use requests_file::RequestList;
use requirement_table::Entry;
use std::alloc::{AllocError, Global};
use steps_file::{Step, StepList};
use system_file::{OwnerList, System};

/// An input that was made from a number.
#[derive(Drop, Debug)]
pub struct Generated {
    /// The layout, the rules and the owners.
    pub system: System,
    /// The forty changes, and the cycles behind them.
    pub steps: StepList,
    /// The requests, in the order of their arrivals.
    pub requests: RequestList,
}

/// The multiplier of the generator.
const MULTIPLIER: u64 = 6_364_136_223_846_793_005;

/// What the generator adds.
const INCREMENT: u64 = 1_442_695_040_888_963_407;

/// The lowest bits of a state, which no draw shows.
const HIDDEN_BITS: u32 = 33;

/// How many nodes there are.
const NODES: u8 = 8;

/// The largest synchronous window, in bit times.
const WINDOW: u32 = 810;

/// How many asynchronous identifiers have owners, from the least one on.
const IDS: u8 = 32;

/// How many slots a generated system has. An entry is asked for in each of them.
pub const GENERATED_SLOTS: u8 = 40;

/// The periods from which one is drawn, in elementary cycles.
const PERIODS: [u16; 8] = [2, 3, 4, 5, 6, 8, 10, 12];

/// How many elementary cycles run.
const CYCLES: u64 = 5_000;

/// How many requests there are.
const REQUESTS: usize = 20_000;

/// The generator, by its state.
#[derive(Clone, Copy)]
struct Draws {
    state: u64,
}

impl Draws {
    /// One that starts at this number.
    fn new(number: u32) -> Draws
        ensures state { result.state ≡ number }
    {
        Draws {
            state: u64::from(number),
        }
    }

    /// The next draw.
    #[tactic(auto, using(crate::proofs::GeneratorDraws::one_after, crate::proofs::GeneratorDraws::one_drawn))]
    fn next(&mut self) -> u64
        ensures value { result ≡ draw self.old.state 1 }
        ensures state { self.new.state ≡ state_after self.old.state 1 }
    {
        self.state = self.state.wrapping_mul(MULTIPLIER).wrapping_add(INCREMENT);
        self.state >> HIDDEN_BITS
    }

    /// The next draw modulo this.
    fn below(&mut self, end: u64) -> u64
        requires some { 1 ≤ end }
        ensures value { result ≡ draw self.old.state 1 % end }
        ensures below { result < end }
        ensures state { self.new.state ≡ state_after self.old.state 1 }
    {
        self.next() % end
    }

    /// An entry of this slot, of six draws.
    #[tactic(auto, unfolding(crate::specs::Generator::entry_made), using(crate::proofs::GeneratorDraws::draw_again, crate::proofs::GeneratorDraws::after_again))]
    fn entry(&mut self, slot: u8) -> Entry
        ensures value { result ≡ entry_made self.old.state 0 slot }
        ensures state { self.new.state ≡ state_after self.old.state 6 }
    {
        let node = self.below(u64::from(NODES)) as u8;
        let length = self.below(9) as u8;
        let phase = self.below(8) as u16;
        let period = PERIODS[self.below(8) as usize];
        let deadline = 1 + self.below(u64::from(period)) as u16;
        let priority = self.below(4) as u8;
        Entry {
            slot,
            node,
            length,
            phase,
            period,
            deadline,
            priority,
        }
    }

    /// A frame of this identifier, of a draw for the number of its bytes and one for each of them.
    fn frame(&mut self, id: u16) -> Frame
        requires identifier { id ≤ greatest_identifier }
        ensures value { result ≡ record {
          identifier = id;
          bytes = each_below (draw self.old.state 1 % 9) (λ place. draw self.old.state (2 + place) % 256);
        } }
        ensures state { self.new.state ≡ state_after self.old.state (1 + draw self.old.state 1 % 9) }
    {
        let count = self.below(9) as u8;
        let mut number = 0;
        for _ in 0..count {
            number = number * 256 + self.below(256);
        }
        Frame::of_number(id, count, number)
    }

    /// The request behind one that arrives at this time, of three draws and one for each byte.
    fn request(&mut self, last: u64) -> Request
        requires early { last < arrivals_end }
        ensures early { result.at < last + 1000 }
        ensures at { result.at ≡ last + gap_made self.old.state 0 }
        ensures identifier { result.frame.identifier ≡ identifier_made self.old.state 0 }
        ensures bytes { result.frame.bytes ≡ bytes_made self.old.state 0 }
        ensures state { self.new.state ≡ state_after self.old.state (3 + size_made self.old.state 0) }
    {
        let at = last + self.below(1_000);
        let id = LEAST_ASYNCHRONOUS + self.below(u64::from(IDS)) as u16;
        let frame = self.frame(id);
        Request { at, frame }
    }
}

/// The policy that is picked by the number.
fn policy(number: u32) -> Policy
    ensures value { result ≡ policy_made number }
{
    match number % 3 {
        0 => Policy::Rm,
        1 => Policy::Dm,
        _ => Policy::Edf,
    }
}

/// The owners, each of one identifier, and the nodes in turn.
fn owners(alloc: Global) -> Result<OwnerList, AllocError>
    ensures value { IfOk result (λ owners. owners ≡ each_below 32 owner_made) }
{
    let mut owners = Vec::new(alloc);
    for place in 0..IDS {
        let id = LEAST_ASYNCHRONOUS + u16::from(place);
        let node = place % NODES;
        owners.push(Owner { id, node })?;
    }
    Ok(OwnerList::of(owners))
}

/// The layout.
fn layout() -> Layout
    ensures value { result ≡ record { cycle = 2000; turnaround = 10; window = 810; slots = generated_slots } }
{
    match Layout::new(2_000, 10, WINDOW, GENERATED_SLOTS) {
        Ok(layout) => layout,
        Err(_) => unreachable!(),
    }
}

/// The system.
fn system(alloc: Global, number: u32) -> Result<System, AllocError>
    ensures value { IfOk result (λ system. system ≡ system_made number) }
{
    let owners = owners(alloc)?;
    let rules = Rules {
        nodes: NODES,
        slots: GENERATED_SLOTS,
        policy: policy(number),
        fill: Fill::Prefix,
        window: WINDOW,
        horizon: 10_000,
    };
    Ok(System {
        layout: layout(),
        rules,
        owners,
    })
}

/// The change by which operator 1 asks for one entry more.
fn change(alloc: Global, entry: Entry) -> Result<Step, AllocError>
    ensures value { IfOk result (λ step. step ≡ asking 1 0 (Add entry ∷ [])) }
{
    let ops = vec![in alloc; Op::Add { entry }]?;
    let change = Change {
        start: 0,
        ops: Ops::of(ops),
    };
    Ok(Step::Act {
        caller: 1,
        act: Act::Ask { change },
    })
}

/// The steps.
fn steps(alloc: Global, draws: &mut Draws) -> Result<StepList, AllocError>
    ensures value { IfOk result (λ steps. steps ≡ steps_made draws.old.state) }
    ensures state { OnOk result (draws.new.state ≡ state_after draws.old.state (6 * generated_slots)) }
{
    let mut steps = Vec::new(alloc);
    for slot in 0..GENERATED_SLOTS {
        let entry = draws.entry(slot);
        steps.push(change(alloc, entry)?)?;
    }
    steps.push(Step::Cycle { count: CYCLES })?;
    Ok(StepList::of(steps))
}

/// The requests, where the draws of the steps were taken.
fn requests(alloc: Global, mut draws: Draws) -> Result<RequestList, AllocError>
    ensures value { (number : ℕ) → draws.state ≡ state_after number (6 * generated_slots)
        → IfOk result (λ requests. requests ≡ requests_made number) }
{
    let mut requests = Vec::with_capacity(alloc, REQUESTS)?;
    let mut last = 0;
    for _ in 0..REQUESTS {
        let request = draws.request(last);
        last = request.at;
        requests.push_reserved(request);
    }
    Ok(RequestList::of(requests))
}

/// The input that the number makes: a bus of 8 nodes, 40 changes, 5,000 cycles and 20,000 requests.
///
/// # Errors
///
/// Where memory ran out.
pub fn generate(alloc: Global, number: u32) -> Result<Generated, AllocError>
    ensures value { IfOk result (λ made. made ≡ generated number) }
    ensures valid { IfOk result (λ made. IsSystem made.system) }
    ensures legal_steps { IfOk result (λ made. AreLegalSteps made.steps) }
    ensures legal_requests { IfOk result (λ made. AreLegal made.system.owners made.requests) }
{
    let system = system(alloc, number)?;
    let mut draws = Draws::new(number);
    let steps = steps(alloc, &mut draws)?;
    let requests = requests(alloc, draws)?;
    Ok(Generated {
        system,
        steps,
        requests,
    })
}
