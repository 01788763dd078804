//! Passes of one thread, and of several, at one lock.

ghost use Rattle.std.specs.Prelude.{◌≡◌, ◌≢◌, ◌<◌, ◌∷◌, ◌++◌, [], length, All, IfOk, MatchBool, vec_len};
ghost use Rattle.turn_lock.specs.Passes.{IsReady};

use crate::desk::CountDesk;
use std::alloc::{AllocError, Global};
use std::rt::Env;
use std::sync::Wait;
use std::thread::Threads;
use std::{env, hint, thread};
use turn_lock::{Busy, Pass, Turn};

/// How many calls each thread notes.
const ROUNDS: u64 = 10_000;

/// Tries once to get the turn, and notes a call if it is got and the call is wanted.
fn note_once(turn: &Turn<CountDesk>, pass: &mut Pass<CountDesk>, count: u64, wanted: bool) -> bool
    requires ready { IsReady turn.now pass.old }
    ensures ready { IsReady turn.now pass.new }
    ensures number { pass.new.view.number ≡ pass.old.view.number }
    ensures out { pass.new.view.out ≡ pass.old.view.out }
    ensures mine { MatchBool result (pass.new.view.mine ≡ pass.old.view.mine ++ (pass.old.view.number, count) ∷ [])
        (pass.new.view.mine ≡ pass.old.view.mine) }
{
    let number = pass.number();
    match pass.try_turn(turn) {
        Ok(mut held) => {
            if wanted && held.value_mut().note((number, count)) {
                held.commit();
                true
            } else {
                held.give_back();
                false
            }
        }
        Err(_busy) => false,
    }
}

/// The seed of the pauses: the number in the variable `TURN_LOCK_SEED`, or 0.
fn seed_of<R: Env + Alloc>(rt: &R) -> u64 {
    let Ok(text) = env::var(rt, "TURN_LOCK_SEED") else {
        return 0;
    };
    text.parse().unwrap_or(0)
}

/// Spins for a while that follows from a seed, and answers the next seed.
fn pause(seed: u64) -> u64 {
    let next = seed
        .wrapping_mul(6_364_136_223_846_793_005)
        .wrapping_add(1_442_695_040_888_963_407);
    for _ in 0..next >> 57 {
        hint::spin_loop();
    }
    next
}

/// Notes so many calls, gives the turn back at each fourth try, and pauses after each.
fn play<R: Wait>(rt: &R, turn: &Turn<CountDesk>, pass: &mut Pass<CountDesk>, rounds: u64, seed: u64)
    requires ready { IsReady turn.now pass.old }
    ensures ready { IsReady turn.now pass.new }
    ensures number { pass.new.view.number ≡ pass.old.view.number }
{
    let mut done = 0;
    let mut tries = 0u64;
    let mut seed = seed;
    for _ in rt.forever() {
        if done >= rounds {
            break;
        }
        tries = tries.saturating_add(1);
        seed = pause(seed);
        if note_once(turn, pass, done, tries % 4 != 0) {
            done += 1;
        } else {
            thread::yield_now();
        }
    }
}

/// Plays each pass in a thread of its own.
fn play_all<R: Threads + Wait + Sync>(
    rt: &R,
    turn: &Turn<CountDesk>,
    passes: &mut [Pass<CountDesk>],
    rounds: u64,
    seed: u64,
)
    requires ready { All (λ pass. IsReady turn.now pass × (pass.view.number ≢ 0)) passes.old }
    ensures ready { All (λ pass. IsReady turn.now pass × (pass.view.number ≢ 0)) passes.new }
    ensures length { length passes.new ≡ length passes.old }
{
    thread::for_each_mut(
        rt,
        passes,
        8,
        &|i, pass| { play(rt, turn, pass, rounds, seed.wrapping_add(i as u64)) },
    );
}

/// Splits so many passes from the first one.
fn hire(
    alloc: Global,
    turn: &Turn<CountDesk>,
    first: &mut Pass<CountDesk>,
    count: usize,
) -> Result<Vec<Pass<CountDesk>>, AllocError>
    requires ready { IsReady turn.now first.old }
    requires first { (first.old.view.number ≡ 0) × (first.old.view.made ≡ 0) × (first.old.view.out ≡ 0) }
    requires few { count < 100 }
    ensures first { IfOk result
        (λ passes. IsReady turn.now first.new × (first.new.view.number ≡ 0) × (first.new.view.out ≡ vec_len passes)) }
    ensures passes { IfOk result (λ passes. All (λ pass. IsReady turn.now pass × (pass.view.number ≢ 0)) passes.items) }
{
    let mut passes = Vec::new(alloc);
    for _ in 0..count {
        passes.push(turn.split_pass(first))?;
    }
    Ok(passes)
}

/// Joins the passes into the first one.
fn retire(turn: &Turn<CountDesk>, first: &mut Pass<CountDesk>, mut passes: Vec<Pass<CountDesk>>)
    requires ready { IsReady turn.now first.old }
    requires first { (first.old.view.number ≡ 0) × (first.old.view.out ≡ vec_len passes) }
    requires passes { All (λ pass. IsReady turn.now pass × (pass.view.number ≢ 0)) passes.items }
    ensures first { IsReady turn.now first.new × (first.new.view.number ≡ 0) × (first.new.view.out ≡ 0) }
{
    while let Some(pass) = passes.pop() {
        turn.join_pass(first, pass);
    }
}

/// Whether the calls of each pass are counted from 0, each once, in their order.
fn is_in_order(calls: &[(u64, u64)]) -> bool {
    let mut next = [0u64; 9];
    for (by, count) in calls {
        if *by >= 9 || next[*by as usize] != *count {
            return false;
        }
        next[*by as usize] = count.saturating_add(1);
    }
    true
}

/// What a try finds: the word if it is refused, and else how many calls stand there, which are given
/// back.
fn look(turn: &Turn<CountDesk>, pass: &mut Pass<CountDesk>) -> Result<usize, Busy>
    requires ready { IsReady turn.now pass.old }
    ensures ready { IsReady turn.now pass.new }
    ensures same { (pass.new.view.number ≡ pass.old.view.number) × (pass.new.view.out ≡ pass.old.view.out) }
{
    match pass.try_turn(turn) {
        Ok(held) => {
            let count = held.value().calls.len();
            held.give_back();
            Ok(count)
        }
        Err(busy) => Err(busy),
    }
}

/// Tries for the turn at the lock, and gives it back. It is the last call of the pass.
fn is_free(turn: &Turn<CountDesk>, pass: &mut Pass<CountDesk>) -> bool
    requires ready { IsReady turn.now pass.old }
{
    match turn.try_turn(pass) {
        Ok(held) => {
            held.give_back();
            true
        }
        Err(_busy) => false,
    }
}

/// Notes a call by the first pass, where that is wanted, or gives the turn back, and answers what the second one finds
/// while the first one holds the turn.
fn found_meanwhile(
    turn: &Turn<CountDesk>,
    first: &mut Pass<CountDesk>,
    second: &mut Pass<CountDesk>,
    wanted: bool,
) -> Option<Result<usize, Busy>>
    requires first { IsReady turn.now first.old × (first.old.view.number ≡ 0) }
    requires second { IsReady turn.now second.old }
    ensures first { IsReady turn.now first.new × (first.new.view.number ≡ 0) }
    ensures second { IsReady turn.now second.new × (second.new.view.number ≡ second.old.view.number) }
{
    match first.try_turn(turn) {
        Ok(mut held) => {
            let found = look(turn, second);
            if wanted && held.value_mut().note((0, 5)) {
                held.commit();
            } else {
                held.give_back();
            }
            Some(found)
        }
        Err(_busy) => None,
    }
}

/// Two passes: their numbers, and what the second one finds while the first one holds the turn, and afterwards. Then
/// the first one is alone.
fn two_passes(alloc: Global, told: &mut String) -> Result<(), AllocError> {
    let (turn, mut first) = Turn::new(alloc, CountDesk::empty(alloc, 7))?;
    let mut second = turn.split_pass(&mut first);
    let (number, made, out) = (first.number(), first.made(), first.out());
    let (other_number, other_made, other_out) = (second.number(), second.made(), second.out());
    let meanwhile = found_meanwhile(&turn, &mut first, &mut second, true);
    let length = turn.length(&mut second);
    let found = look(&turn, &mut second);
    turn.join_pass(&mut first, second);
    let free = is_free(&turn, &mut first);
    writeln!(told, "number {number}, made {made}, out {out}")?;
    writeln!(
        told,
        "number {other_number}, made {other_made}, out {other_out}"
    )?;
    writeln!(told, "meanwhile {meanwhile:?}")?;
    writeln!(told, "length {length}, found {found:?}\nfree: {free}")
}

/// A pass that is refused while the first one holds the turn, and one that did not ask then: what each finds once the
/// first one has noted a call, where that is wanted, or has given the turn back.
fn asked_again(alloc: Global, wanted: bool, told: &mut String) -> Result<(), AllocError> {
    let (turn, mut first) = Turn::new(alloc, CountDesk::empty(alloc, 7))?;
    let mut refused = turn.split_pass(&mut first);
    let mut other = turn.split_pass(&mut first);
    let meanwhile = found_meanwhile(&turn, &mut first, &mut refused, wanted);
    let again = look(&turn, &mut refused);
    let never = look(&turn, &mut other);
    writeln!(
        told,
        "meanwhile {meanwhile:?}, then {again:?}, never refused {never:?}"
    )
}

/// A lock that is closed after one call.
fn closed(alloc: Global, told: &mut String) -> Result<(), AllocError> {
    let (turn, mut first) = Turn::new(alloc, CountDesk::empty(alloc, 7))?;
    let noted = note_once(&turn, &mut first, 5, true);
    let desk = turn.close(first);
    let (name, calls) = (desk.name, desk.calls.as_slice());
    writeln!(told, "{noted}, name {name}, calls {calls:?}")
}

/// Eight threads, of which each notes its calls.
fn shared<T: Threads + Wait + Sync>(
    threads: &T,
    alloc: Global,
    seed: u64,
    told: &mut String,
) -> Result<(), AllocError> {
    let (turn, mut first) = Turn::new(alloc, CountDesk::empty(alloc, 7))?;
    let mut passes = hire(alloc, &turn, &mut first, 8)?;
    play_all(threads, &turn, passes.as_mut_slice(), ROUNDS, seed);
    retire(&turn, &mut first, passes);
    let desk = turn.close(first);
    let count = desk.calls.len();
    let in_order = is_in_order(desk.calls.as_slice());
    writeln!(told, "{count} calls, in order: {in_order}")
}

/// What is told of the passes that are named.
pub fn told<T: Threads + Wait + Sync>(
    rt: &HostRuntime,
    threads: &T,
    given: &str,
    told: &mut String,
) -> Result<(), AllocError> {
    match given.trim_end() {
        "two passes" => two_passes(rt.alloc(), told),
        "refused, then committed" => asked_again(rt.alloc(), true, told),
        "refused, then given back" => asked_again(rt.alloc(), false, told),
        "closed" => closed(rt.alloc(), told),
        "threads" => shared(threads, rt.alloc(), seed_of(rt), told),
        _ => Ok(()),
    }
}
