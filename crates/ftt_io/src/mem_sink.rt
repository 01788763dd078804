//! A sink in memory, for tests.
ghost use Rattle.std.specs.Prelude.{◌≡◌, ◌-◌, ◌<◌, ◌≤◌, ◌↔◌, [], ◌++◌};
ghost use Rattle.std.specs.Prelude.{length, take, min, if◌then◌else◌, IfOk, OnErr, IsErr, IsTrue};
ghost use Rattle.ftt_io.specs.Counts.{next_count};
ghost use Rattle.ftt_io.specs.MemSink.{fails_next};

use crate::calls::Calls;
use crate::put::{Failed, Sink};
use std::alloc::{AllocError, Global};
use std::marker::Model;

/// A sink in memory, with room for so many bytes. It tells the bytes that it took.
#[derive(Drop)]
pub struct MemSink {
    taken: Vec<u8>,
    room: usize,
    puts: Calls,
}

impl Model for MemSink {
    ghost use Rattle.std.specs.Prelude.{◌≤◌, vec_len, vec_capacity};
    ghost use Rattle.ftt_io.specs.MemSink.{MemSinkState};

    ghost Value = { MemSinkState };

    ghost view = { λ sink. record {
      taken = sink.taken.items;
      room = sink.room;
      failing = sink.puts.failing.items;
      puts = sink.puts.made;
      faults = sink.puts.faults;
    } };

    ghost invariant = { λ sink. (vec_len sink.taken ≤ sink.room)
        × (sink.room ≤ vec_capacity sink.taken) };
}

impl MemSink {
    /// An empty sink, with memory for `room` bytes. The puts whose number, from 0, stands in
    /// `failing` count a fault and fail, and so does each put that finds no room left.
    pub fn new(alloc: Global, room: usize, failing: Vec<u64>) -> Result<MemSink, AllocError>
        ensures taken { IfOk result (λ sink. sink.taken ≡ []) }
        ensures room { IfOk result (λ sink. sink.room ≡ room) }
        ensures failing { IfOk result (λ sink. sink.failing ≡ failing.items) }
        ensures puts { IfOk result (λ sink. sink.puts ≡ 0) }
        ensures faults { IfOk result (λ sink. sink.faults ≡ 0) }
    {
        Ok(MemSink {
            taken: Vec::with_capacity(alloc, room)?,
            room,
            puts: Calls::new(failing),
        })
    }

    /// The bytes taken so far.
    pub fn bytes(&self) -> &[u8]
        ensures value { result.now ≡ self.now.taken }
    {
        &self.taken
    }

    /// The count of faults.
    pub fn faults(&self) -> u64
        ensures value { result ≡ self.now.faults }
    {
        self.puts.faults
    }
}

impl Sink for MemSink {
    ghost use Rattle.std.specs.Prelude.{Some};

    ghost told_bytes = { λ sink. Some sink.taken };

    ghost faults = { λ sink. sink.faults };

    fn put(&mut self, piece: &[u8]) -> Result<usize, Failed>
        requires { 0 < length piece.now }

        // What stays, and the counts.
        ensures room_stays { self.new.room ≡ self.old.room }
        ensures failing_stays { self.new.failing ≡ self.old.failing }
        ensures counted { self.new.puts ≡ next_count self.old.puts }
        ensures faults_never_fall { self.old.faults ≤ self.new.faults }
        ensures raised { self.new.faults ≡ (if fails_next self.old
            then next_count self.old.faults else self.old.faults) }

        // At `Ok`.
        ensures some { IfOk result (λ n. 0 < n) }
        ensures within { IfOk result (λ n. n ≤ length piece.now) }
        ensures fills { IfOk result
            (λ n. n ≡ min (length piece.now) (self.old.room - length self.old.taken)) }
        ensures puts { IfOk result (λ n. self.new.taken ≡ self.old.taken ++ take n piece.now) }

        // At `Failed`.
        ensures failed { IsErr result ↔ IsTrue (fails_next self.old) }
        ensures nothing { OnErr result (self.new.taken ≡ self.old.taken) }
    {
        let free = self.room - self.taken.len();
        if self.puts.next_fails() || free == 0 {
            self.puts.fault();
            return Err(Failed);
        }
        let taken = piece.len().min(free);
        self.taken.extend_from_slice(&piece[..taken]).unwrap();
        Ok(taken)
    }

    /// It holds nothing back, so there is nothing to do.
    fn pass_on(&mut self) -> Result<(), Failed> {
        Ok(())
    }
}
