//! Whether requests belong to streams.

ghost use Rattle.std.specs.Prelude.{◌≡◌, ℕ, ◌+◌, ◌<◌, ◌≤◌, ◌++◌, ◌==◌, ◌∷◌, [], All, AllPairs, Any, IfErr, IfNone, IfOk, IfSome};
ghost use Rattle.std.specs.Prelude.{OnOk, List, None, Some, false, true, if◌then◌else◌, length, slice_get, slice_index_or, take};
ghost use Rattle.async_bound.specs.Streams.{AreStreams, IsStream};
ghost use Rattle.bounded_runs.specs.declared.of_streams.StrayFault.TheVariants.{Memory};
ghost use Rattle.bounded_runs.specs.declared.of_streams.Traffic.{Traffic};
ghost use Rattle.bounded_runs.specs.Requests.{AreOfStreams};
ghost use Rattle.bounded_runs.specs.Strays.{Allows, FollowsStreams, IsCloseTo, IsFirstClose, IsStrayFault, Strays, arrivals_of, streams_of};

use async_bound::BurstStream;
use async_window::Request;
use std::alloc::{AllocError, AllocFailed, Global};

/// How many identifiers of 11 bits there are.
const IDENTIFIERS: usize = 2_048;

/// Why a request does not belong to streams, behind the requests before it. They are tested in this order.
#[derive(Clone, Copy, PartialEq, Eq, Debug)]
pub enum StrayWhy {
    /// No stream has its identifier.
    Unknown,
    /// Its frame has more bytes than any stream of its identifier allows. The first of these streams is told.
    Long(BurstStream),
    /// A request before it, of its identifier, arrives later. The first stream of the identifier is told.
    Early(BurstStream),
    /// It arrives less than `gap` behind the request of its identifier that stands `burst` places before it. The first
    /// stream is told for which it does.
    Close(BurstStream),
}

/// Why requests are not known to belong to streams.
#[derive(Clone, Copy, PartialEq, Eq, Debug)]
pub enum StrayFault {
    /// The first request that does not: those before it do.
    Stray {
        /// Its place among all requests, from 0.
        place: usize,
        /// Why it does not.
        why: StrayWhy,
    },
    /// Memory ran out, which says nothing of the requests.
    Memory,
}

impl From<AllocError> for StrayFault {
    ghost use Rattle.std.specs.Prelude.{◌≡◌};
    ghost use Rattle.bounded_runs.specs.declared.of_streams.StrayFault.TheVariants.{Memory};

    ghost from_gives = { λ _ fault. fault ≡ Memory };

    fn from(_: AllocError) -> StrayFault {
        StrayFault::Memory
    }
}

/// What is known of an identifier: its streams, and when its requests so far arrived.
#[derive(Drop)]
struct Traffic {
    streams: Vec<BurstStream>,
    arrived: Vec<u64>,
}

/// For so many identifiers, that nothing is known of them.
fn no_traffic(alloc: Global, count: usize) -> Result<Vec<Traffic>, AllocError>
    ensures count { IfOk result (λ all. length all.items ≡ count) }
    ensures none { IfOk result (λ all. (id : ℕ) (d : Traffic) → id < count
        → ((slice_index_or all.items id d).streams.items ≡ []) × ((slice_index_or all.items id d).arrived.items ≡ [])) }
{
    let mut all = Vec::with_capacity(alloc, count)?;
    for _ in 0..count {
        all.push(Traffic {
            streams: Vec::new(alloc),
            arrived: Vec::new(alloc),
        })?;
    }
    Ok(all)
}

/// Puts a stream behind those of its identifier.
fn add_stream(all: &mut [Traffic], stream: &BurstStream) -> Result<(), AllocError>
    requires whole { length all.old ≡ 2048 }
    requires known { IsStream stream.now }
    ensures count { OnOk result (length all.new ≡ 2048) }
    ensures streams { OnOk result ((id : ℕ) (d : Traffic) → id < 2048
        → (slice_index_or all.new id d).streams.items ≡ (slice_index_or all.old id d).streams.items
        ++ (if stream.now.id == id then stream.now ∷ [] else [])) }
    ensures arrived { OnOk result ((id : ℕ) (d : Traffic) → id < 2048
        → (slice_index_or all.new id d).arrived.items ≡ (slice_index_or all.old id d).arrived.items) }
{
    all[usize::from(stream.id)].streams.push(*stream)?;
    Ok(())
}

/// The streams of each identifier, and no arrivals yet.
fn by_identifier(alloc: Global, streams: &[BurstStream]) -> Result<Vec<Traffic>, AllocError>
    requires known { AreStreams streams.now }
    ensures count { IfOk result (λ all. length all.items ≡ 2048) }
    ensures streams { IfOk result (λ all. (id : ℕ) (d : Traffic) → id < 2048
        → (slice_index_or all.items id d).streams.items ≡ streams_of streams.now id) }
    ensures arrived { IfOk result (λ all. (id : ℕ) (d : Traffic) → id < 2048
        → (slice_index_or all.items id d).arrived.items ≡ []) }
{
    let mut all = no_traffic(alloc, IDENTIFIERS)?;
    for stream in streams {
        add_stream(&mut all, stream)?;
    }
    Ok(all)
}

/// Whether some stream allows frames of so many bytes.
fn is_allowed(streams: &[BurstStream], bytes: usize) -> bool
    ensures yes { result ≡ true → Allows streams.now bytes }
    ensures no { result ≡ false → All (λ stream. stream.bytes < bytes) streams.now }
{
    for stream in streams {
        if bytes <= usize::from(stream.bytes) {
            return true;
        }
    }
    false
}

/// Whether one of these arrivals, which do not fall, is later than a time.
fn is_passed(arrived: &[u64], at: u64) -> bool
    requires rising { AllPairs (λ one other. one ≤ other) arrived.now }
    ensures yes { result ≡ true → Any (λ before. at < before) arrived.now }
    ensures no { result ≡ false → All (λ before. before ≤ at) arrived.now }
{
    match arrived.last() {
        Some(last) => at < *last,
        None => false,
    }
}

/// Whether what arrives then, behind these, is too close for a stream.
fn is_close(stream: &BurstStream, arrived: &[u64], at: u64) -> bool
    requires known { IsStream stream.now }
    requires behind { All (λ before. before ≤ at) arrived.now }
    ensures yes { result ≡ true → IsCloseTo arrived.now at stream.now }
    ensures no { result ≡ false → IsCloseTo arrived.now at stream.now → ⊥ }
{
    let burst = stream.burst as usize;
    burst <= arrived.len() && at - arrived[arrived.len() - burst] < stream.gap
}

/// The first stream for which what arrives then, behind these, is too close.
fn first_close(streams: &[BurstStream], arrived: &[u64], at: u64) -> Option<BurstStream>
    requires known { AreStreams streams.now }
    requires behind { All (λ before. before ≤ at) arrived.now }
    ensures some { IfSome result (IsFirstClose streams.now arrived.now at) }
    ensures none { IfNone result (All (λ stream. IsCloseTo arrived.now at stream → ⊥) streams.now) }
{
    for stream in streams {
        if is_close(stream, arrived, at) {
            return Some(*stream);
        }
    }
    None
}

/// Why the request belongs to none of the streams of its identifier, behind the earlier arrivals of that identifier.
fn why_stray(traffic: &Traffic, request: &Request) -> Option<StrayWhy>
    requires known { AreStreams traffic.now.streams.items }
    requires rising { AllPairs (λ one other. one ≤ other) traffic.now.arrived.items }
    ensures stray { IfSome result (Strays traffic.now.streams.items traffic.now.arrived.items request.now) }
    ensures none { IfNone result (FollowsStreams traffic.now.streams.items traffic.now.arrived.items request.now) }
{
    let streams = traffic.streams.as_slice();
    let arrived = traffic.arrived.as_slice();
    let Some(first) = streams.first() else {
        return Some(StrayWhy::Unknown);
    };
    if !is_allowed(streams, request.frame.bytes().len()) {
        return Some(StrayWhy::Long(*first));
    }
    if is_passed(arrived, request.at) {
        return Some(StrayWhy::Early(*first));
    }
    match first_close(streams, arrived, request.at) {
        Some(stream) => Some(StrayWhy::Close(stream)),
        None => None,
    }
}

/// Notes the arrival of a request.
fn add_arrival(all: &mut [Traffic], request: &Request) -> Result<(), AllocError>
    requires whole { length all.old ≡ 2048 }
    ensures count { OnOk result (length all.new ≡ 2048) }
    ensures streams { OnOk result ((id : ℕ) (d : Traffic) → id < 2048
        → (slice_index_or all.new id d).streams.items ≡ (slice_index_or all.old id d).streams.items) }
    ensures arrived { OnOk result ((id : ℕ) (d : Traffic) → id < 2048
        → (slice_index_or all.new id d).arrived.items ≡ (slice_index_or all.old id d).arrived.items
        ++ (if request.now.frame.identifier == id then request.now.at ∷ [] else [])) }
{
    all[usize::from(request.frame.id())]
        .arrived
        .push(request.at)?;
    Ok(())
}

/// Whether requests belong to streams: whether each has the identifier of a stream and no more bytes than that allows,
/// and whether those of each identifier arrive in their order, and as far apart as each stream of it says. `place` and
/// `why` of the error are of the first request for which that ends.
///
/// The work grows with the streams and with the requests, each of them times the streams of its identifier. The memory
/// does too: eight bytes for each arrival, and some 100 KB for the identifiers.
///
/// # Errors
///
/// `Stray` with the first request that does not belong to the streams and why, and `Memory` where memory ran out.
pub fn are_of_streams(
    alloc: Global,
    streams: &[BurstStream],
    requests: &[Request],
) -> Result<(), StrayFault>
    requires known { AreStreams streams.now }
    ensures belong { IfOk result (λ _. AreOfStreams streams.now requests.now) }
    ensures fault { IfErr result (IsStrayFault streams.now requests.now) }
    ensures only { IfErr result (λ fault. AreOfStreams streams.now requests.now → fault ≡ Memory) }
{
    let mut all = by_identifier(alloc, streams)?;
    for (place, request) in requests.iter().enumerate() {
        match why_stray(&all[usize::from(request.frame.id())], request) {
            Some(why) => return Err(StrayFault::Stray { place, why }),
            None => add_arrival(&mut all, request)?,
        }
    }
    Ok(())
}
