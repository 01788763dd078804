//! The numbers of a state, and the state that numbers stand for.

ghost use Rattle.std.specs.Prelude.{◌≡◌, ◌<◌, ◌/◌, ◌++◌, All, IfOk, IfSome, None, length};
ghost use Rattle.saved_state.specs.Bytes.{IsTypedSaved, IsTypedPlaced, IsTypedHead, fill_number, head_numbers, list_numbers, numbers_of, placed_numbers, policy_number};
ghost use Rattle.saved_state.specs.Numbers.{fill_in, placed_in, places_in, policy_in, state_in};

use admission_rules::Rules;
use master_core::Saved;
use planner_policies::{Fill, PlanState, Policy};
use requirement_table::{Entry, Mask, Placed, PlacedList};
use std::alloc::{AllocError, Global};

/// The version of the form.
const FORM: u64 = 1;

/// How many numbers a placed entry has.
const PLACED_NUMBERS: usize = 10;

/// The number of a policy.
fn policy_number(policy: Policy) -> u64
    ensures number { result ≡ policy_number policy }
{
    match policy {
        Policy::Rm => 0,
        Policy::Dm => 1,
        Policy::Edf => 2,
    }
}

/// The number of a filling.
fn fill_number(fill: Fill) -> u64
    ensures number { result ≡ fill_number fill }
{
    match fill {
        Fill::Prefix => 0,
        Fill::Skip => 1,
    }
}

/// The numbers of a placed entry.
fn placed_numbers(placed: Placed) -> [u64; 10]
    ensures numbers { result ≡ placed_numbers placed }
    ensures typed { IsTypedPlaced placed }
{
    let Placed { entry, origin, end } = placed;
    let (has, end) = match end {
        None => (0, 0),
        Some(end) => (1, end),
    };
    [
        u64::from(entry.slot),
        u64::from(entry.node),
        u64::from(entry.length),
        u64::from(entry.phase),
        u64::from(entry.period),
        u64::from(entry.deadline),
        u64::from(entry.priority),
        origin,
        has,
        end,
    ]
}

/// The numbers of a state without its list.
fn head_numbers(
    rules: Rules,
    state: PlanState,
    accepted: u64,
    forgets: bool,
    learns: bool,
) -> [u64; 13]
    ensures numbers { result ≡ head_numbers rules state accepted forgets learns }
    ensures typed { IsTypedHead rules state accepted }
{
    let pending = state.pending.bits();
    [
        FORM,
        u64::from(rules.nodes),
        u64::from(rules.slots),
        policy_number(rules.policy),
        fill_number(rules.fill),
        u64::from(rules.window),
        rules.horizon,
        state.cycle,
        (pending % (1 << 64)) as u64,
        (pending >> 64) as u64,
        accepted,
        u64::from(forgets),
        u64::from(learns),
    ]
}

/// The numbers of a state.
pub fn numbers_of(alloc: Global, saved: &Saved) -> Result<Vec<u64>, AllocError>
    ensures numbers { IfOk result (λ numbers. numbers.items ≡ numbers_of saved.now) }
    ensures typed { IfOk result (λ numbers. IsTypedSaved saved.now) }
{
    let head = head_numbers(
        saved.rules,
        saved.state,
        saved.accepted,
        saved.forgets,
        saved.learns,
    );
    let mut numbers = Vec::new(alloc);
    numbers.extend_from_slice(&head)?;
    push_list(&mut numbers, saved.placed.as_slice())?;
    Ok(numbers)
}

/// Puts the numbers of a list behind others.
fn push_list(numbers: &mut Vec<u64>, placed: &[Placed]) -> Result<(), AllocError>
    ensures numbers { IfOk result (λ _. numbers.new.items ≡ numbers.old.items ++ list_numbers placed.now) }
    ensures typed { IfOk result (λ _. All IsTypedPlaced placed.now) }
{
    for p in placed {
        numbers.extend_from_slice(&placed_numbers(*p))?;
    }
    Ok(())
}

/// The policy of a number.
fn policy_in(number: u64) -> Policy
    ensures policy { result ≡ policy_in number }
{
    match number {
        0 => Policy::Rm,
        1 => Policy::Dm,
        _ => Policy::Edf,
    }
}

/// The filling of a number.
fn fill_in(number: u64) -> Fill
    ensures fill { result ≡ fill_in number }
{
    match number {
        0 => Fill::Prefix,
        _ => Fill::Skip,
    }
}

/// The placed entry of ten numbers.
fn placed_in(numbers: &[u64]) -> Placed
    requires ten { length numbers.now ≡ 10 }
    ensures placed { result ≡ placed_in numbers.now }
{
    Placed {
        entry: Entry {
            slot: (numbers[0] % 256) as u8,
            node: (numbers[1] % 256) as u8,
            length: (numbers[2] % 256) as u8,
            phase: (numbers[3] % 65_536) as u16,
            period: (numbers[4] % 65_536) as u16,
            deadline: (numbers[5] % 65_536) as u16,
            priority: (numbers[6] % 256) as u8,
        },
        origin: numbers[7],
        end: if numbers[8] == 1 {
            Some(numbers[9])
        } else {
            None
        },
    }
}

/// The placed entries of numbers.
fn places_in(alloc: Global, numbers: &[u64]) -> Result<Vec<Placed>, AllocError>
    ensures list { IfOk result (λ list. list.items ≡ places_in (length numbers.now / 10) numbers.now) }
{
    let mut list = Vec::new(alloc);
    let mut rest = numbers;
    for _ in 0..numbers.len() / PLACED_NUMBERS {
        let (front, behind) = rest.split_at(PLACED_NUMBERS);
        list.push(placed_in(front))?;
        rest = behind;
    }
    Ok(list)
}

/// The state that numbers stand for, where they are those of a state.
#[tactic(auto, unfolding(crate::specs::Numbers::state_in))]
pub fn state_in(alloc: Global, numbers: &[u64]) -> Result<Option<Saved>, AllocError>
    ensures state { IfOk result (λ found. IfSome found (λ saved. saved ≡ state_in numbers.now)) }
    ensures none { IfOk result (λ found. found ≡ None → length numbers.now < 13) }
{
    let [
        _,
        nodes,
        slots,
        policy,
        fill,
        window,
        horizon,
        cycle,
        low,
        high,
        accepted,
        forgets,
        learns,
        places @ ..,
    ] = numbers
    else {
        return Ok(None);
    };
    let placed = places_in(alloc, places)?;
    let pending = (u128::from(*high % (1 << 32)) << 64) + u128::from(*low);
    Ok(Some(Saved {
        rules: Rules {
            nodes: (*nodes % 256) as u8,
            slots: (*slots % 256) as u8,
            policy: policy_in(*policy),
            fill: fill_in(*fill),
            window: (*window % (1 << 32)) as u32,
            horizon: *horizon,
        },
        placed: PlacedList::of(placed),
        state: PlanState {
            cycle: *cycle,
            pending: Mask::from_bits(pending),
        },
        accepted: *accepted,
        forgets: *forgets == 1,
        learns: *learns == 1,
    }))
}
