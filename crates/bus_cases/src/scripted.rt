//! Three scripted stations on a bus line.

ghost use Rattle.std.specs.Prelude.{◌≡◌, ◌==◌, ◌&&◌, ◌++◌, ◌∷◌, ◌<◌, ◌≤◌, ℕ, []};
ghost use Rattle.std.specs.Prelude.{⊤, Contains, length, nat_le, nat_lt, if◌then◌else◌};
ghost use Rattle.profile.specs.Limits.{greatest_identifier, times_end};
ghost use Rattle.can_frame.specs.declared.data_frame.TimedFrame.{TimedFrame};
ghost use Rattle.bus_line.specs.Stations.{IsWake, sooner};

use arbitration::Contenders;
use bus_line::Stations;
use bus_line::laws::sooner_wake;
use can_frame::{Frame, TimedFrame};
use profile::GREATEST_IDENTIFIER;

/// A station that offers an empty frame from one time to below another, and once that is sent, from
/// `again` to below `again_until`.
#[derive(Clone, Copy)]
pub struct Station {
    pub id: u16,
    pub from: u64,
    pub until: u64,
    pub again: u64,
    pub again_until: u64,
}

impl Station {
    /// Adds the station's offer at a time, if it has one.
    fn offer(&self, at: u64, ids: &mut Contenders)
        requires room { length ids.old < 32 }
        requires other { ¬ Contains ids.old self.now.id }
        ensures offer { ids.new ≡ ids.old
            ++ (if nat_le self.now.from at && nat_lt at self.now.until
            then self.now.id ∷ [] else []) }
    {
        if self.from <= at && at < self.until {
            ids.push(self.id);
        }
    }

    /// The least time behind `at` at which the station offers its frame.
    fn wake(&self, at: u64) -> Option<u64>
        requires time { at < times_end }
        ensures wake { IsWake
            (λ later. if nat_le self.now.from later && nat_lt later self.now.until
            then self.now.id ∷ [] else []) at result }
    {
        let next = self.from.max(at + 1);
        (next < self.until).then_some(next)
    }

    /// The station once a frame was sent.
    fn heard(&self, id: u16) -> Station
        ensures next { let end = self.now.again_until in
            result ≡ (if self.now.id == id
            then record self.now { from = self.now.again; until = end; again = end; again_until = end }
            else self.now) }
    {
        if self.id != id {
            return *self;
        }
        Station {
            from: self.again,
            until: self.again_until,
            again: self.again_until,
            ..*self
        }
    }
}

/// Three stations with identifiers of their own.
#[derive(Drop)]
pub struct Scripted {
    low: Station,
    middle: Station,
    high: Station,
    ghost apart: { (low.id < middle.id) × (middle.id < high.id) },
    ghost range: { high.id ≤ greatest_identifier },
}

impl Scripted {
    /// The three stations, where their identifiers rise and are those of frames.
    pub fn of(low: Station, middle: Station, high: Station) -> Option<Scripted> {
        if low.id < middle.id && middle.id < high.id && high.id <= GREATEST_IDENTIFIER {
            Some(Scripted { low, middle, high })
        } else {
            None
        }
    }
}

impl Stations for Scripted {
    ghost use Rattle.bus_cases.specs.declared.scripted.Station.{Station};
    ghost use Rattle.bus_cases.specs.declared.scripted.Scripted.{Scripted};

    ghost State = { Station × Station × Station };

    ghost line = { let offer = λ (station : Station) (at : ℕ).
        if nat_le station.from at && nat_lt at station.until then station.id ∷ [] else [] in
        let heard = λ (station : Station) (id : ℕ). let end = station.again_until in
        if station.id == id
        then record station { from = station.again; until = end; again = end; again_until = end }
        else station in
        record {
          offered = λ stations at. offer stations.0 at ++ offer stations.1 at ++ offer stations.2 at;
          framed = λ stations at id. record { identifier = id; bytes = [] };
          next = λ stations sent. let id = sent.frame.identifier in
              (heard stations.0 id, heard stations.1 id, heard stations.2 id);
        } };

    ghost state = { λ stations. (stations.low, stations.middle, stations.high) };

    ghost Fixed = { ⊤ };

    ghost fixed = { λ _. tt };

    fn offers(&self, at: u64, ids: &mut Contenders) {
        ids.clear();
        self.low.offer(at, ids);
        self.middle.offer(at, ids);
        self.high.offer(at, ids);
    }

    fn wake(&self, at: u64) -> Option<u64> {
        sooner_wake();
        let low = self.low.wake(at);
        let middle = self.middle.wake(at);
        let high = self.high.wake(at);
        sooner(sooner(low, middle), high)
    }

    fn frame(&self, _at: u64, id: u16) -> Frame {
        match Frame::new(id, &[]) {
            Ok(frame) => frame,
            Err(_) => unreachable!(),
        }
    }

    fn sent(&mut self, sent: &TimedFrame) {
        let id = sent.frame.id();
        self.low = self.low.heard(id);
        self.middle = self.middle.heard(id);
        self.high = self.high.heard(id);
    }
}

/// The sooner of two times, where there is one.
fn sooner(one: Option<u64>, other: Option<u64>) -> Option<u64>
    ensures sooner { result ≡ sooner one other }
{
    match (one, other) {
        (Some(one), Some(other)) => Some(one.min(other)),
        (one, None) => one,
        (None, other) => other,
    }
}
