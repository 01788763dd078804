//! Laws of traces, for the crates whose contracts speak of them.

ghost use Rattle.std.specs.Prelude.{◌≡◌, ◌↔◌, ◌<◌, ◌≤◌, ◌⊎◌, ℕ, All, Bool, List, [], ◌++◌, Option, Result, Ok, Err, max};
ghost use Rattle.can_frame.specs.declared.data_frame.TimedFrame.{TimedFrame};
ghost use Rattle.bus_line.specs.Trace.{AgreeAlong, Follows, IsDetermined, IsOrdered, IsTrace, Offers, free_after};
ghost use Rattle.bus_line.specs.Stations.{IsWake, offers_of, sooner};
ghost use Rattle.can_frame.specs.declared.wire_fault.WireFault.{WireFault};
ghost use Rattle.bus_line.specs.declared.line_fault.LineFault.{LineFault};
ghost use Rattle.bus_line.specs.declared.line_fault.LineFault.TheVariants.{Memory};
ghost use Rattle.bus_line.specs.Recording.{BreaksAt, IsRecording, ReadsLine, counted_from};

use crate::stations::Stations;
use std::marker::PhantomData;

/// A kind of offers on a bus, for the laws below: a crate that speaks of its own offers implements
/// this for a type that stands for them.
pub trait Offering {
    /// What the offers depend on.
    ghost Setting: { Type 0 };

    /// The offers in a setting.
    ghost offers: { Setting → Offers };
}

/// The offers of stations, which depend on the state in which a run finds them.
pub struct StationOffers<S: Stations> {
    stations: PhantomData<S>,
}

impl<S: Stations> Offering for StationOffers<S> {
    ghost Setting = { S.State };

    ghost offers = { λ state. offers_of S.line state };
}

/// What is true of the traces of any offers. The function does nothing.
pub fn trace_laws<O: Offering>()
    // The CAN trace is given frame by frame, each the next one behind those before it.
    ensures one_by_one { (setting : O.Setting) (until : ℕ) (trace : List TimedFrame)
        → IsTrace (O.offers setting) until trace ↔ Follows (O.offers setting) [] 0 until trace }

    // There is at most one CAN trace.
    ensures only_one { (setting : O.Setting) → IsDetermined (O.offers setting)
        → (until : ℕ) (one other : List TimedFrame)
        → IsTrace (O.offers setting) until one → IsTrace (O.offers setting) until other → one ≡ other }

    // Frames that follow one another are ordered, and start from the first free time on.
    ensures ordered { (setting : O.Setting) (past : List TimedFrame) (free until : ℕ)
        → (frames : List TimedFrame) → Follows (O.offers setting) past free until frames → IsOrdered frames }
    ensures within { (setting : O.Setting) (past : List TimedFrame) (free until : ℕ)
        → (frames : List TimedFrame) → Follows (O.offers setting) past free until frames
        → All (λ sent. (free ≤ sent.start) × (sent.start < until)) frames }

    // What stands behind a front of them follows that front.
    ensures behind { (setting : O.Setting) (past : List TimedFrame) (free until : ℕ)
        → (front back : List TimedFrame) → Follows (O.offers setting) past free until (front ++ back)
        → Follows (O.offers setting) (past ++ front) (free_after free front) until back }

    // Frames up to a time, and behind them those from that time or the first free one on, are all
    // frames.
    ensures joined { (setting : O.Setting) (past : List TimedFrame) (free middle until : ℕ)
        → (front back : List TimedFrame) → middle ≤ until
        → Follows (O.offers setting) past free middle front
        → Follows (O.offers setting) (past ++ front) (max middle (free_after free front)) until back
        → Follows (O.offers setting) past free until (front ++ back) }
{}

/// Two kinds of offers that agree along some frames have these frames both. The function does
/// nothing.
pub fn same_along<One: Offering, Other: Offering>()
    ensures along { (one : One.Setting) (other : Other.Setting) (past other_past : List TimedFrame)
        → (free until : ℕ) (frames : List TimedFrame)
        → AgreeAlong (One.offers one) (Other.offers other) past other_past free until frames
        → Follows (One.offers one) past free until frames
        → Follows (Other.offers other) other_past free until frames }
{}

/// The sooner of two times is that at which something is offered of both together. The function
/// does nothing.
pub fn sooner_wake()
    ensures together { (one other : ℕ → List ℕ) (at : ℕ) (first second : Option ℕ)
        → IsWake one at first → IsWake other at second
        → IsWake (λ later. one later ++ other later) at (sooner first second) }
{}

/// What the bits of a line tell of its trace. The function does nothing.
pub fn one_recording()
    // A trace has one line.
    ensures one_line { (trace : List TimedFrame) (from until : ℕ) (one other : List Bool)
        → IsRecording trace from until one → IsRecording trace from until other → one ≡ other }

    // Bits are the line of one trace.
    ensures one_trace { (from until : ℕ) (bits : List Bool) (one other : List TimedFrame)
        → IsRecording one from until bits → IsRecording other from until bits → one ≡ other }

    // The line of a trace breaks nowhere, and bits that break do so at one place, with one fault.
    ensures unbroken { (trace : List TimedFrame) (from until : ℕ) (bits : List Bool) (start : ℕ)
        → (fault : WireFault) → IsRecording trace from until bits → BreaksAt bits start fault → ⊥ }
    ensures one_break { (bits : List Bool) (start other : ℕ) (fault another : WireFault)
        → BreaksAt bits start fault → BreaksAt bits other another
        → (start ≡ other) × (fault ≡ another) }

    // What is read from the line of a trace is that trace, its starts counted from the first bit.
    ensures read_back { (trace : List TimedFrame) (from until : ℕ) (bits : List Bool)
        → IsRecording trace from until bits → (answer : Result (List TimedFrame) LineFault)
        → ReadsLine bits answer
        → (answer ≡ Err Memory) ⊎ (answer ≡ Ok (counted_from from trace)) }
{}
