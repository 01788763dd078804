//! Why a certificate is not taken.

use thiserror::Error;

/// The first reason for which a certificate is not taken. Its text is what a program prints behind `no,`.
///
/// They are looked for in the order of the variants, where the three in the middle are looked for in each listed cycle
/// before the next.
#[derive(Clone, Copy, PartialEq, Eq, Debug, Error)]
pub enum Breach {
    /// The slot has an entry that doesn't go round with the repeated part: a live one whose period does not divide the
    /// length of that part, or whose origin + phase is above its first cycle, or one with an end whose end + deadline -
    /// 1 is above its first cycle.
    #[error("badloop,{slot}")]
    BadLoop {
        /// The least such slot.
        slot: u8,
    },
    /// A cycle flags a slot that has no unplanned instance which may be sent in it.
    #[error("notreleased,{cycle},{slot}")]
    NotReleased {
        /// The cycle.
        cycle: u64,
        /// The least such slot.
        slot: u8,
    },
    /// The worst lengths of the slots that a cycle flags sum to more than the window.
    #[error("toowide,{cycle},{sum}")]
    TooWide {
        /// The cycle.
        cycle: u64,
        /// The sum, in bit times.
        sum: u32,
    },
    /// An instance is not planned by its last cycle.
    #[error("missed,{slot},{release},{cycle}")]
    Missed {
        /// The slot of the instance, the least one of those in this cycle.
        slot: u8,
        /// The cycle of its release.
        release: u64,
        /// Its last cycle.
        cycle: u64,
    },
    /// The slot is pending where the repeated part begins and not behind its end, or the other way.
    #[error("notclosed,{slot}")]
    NotClosed {
        /// The least such slot.
        slot: u8,
    },
}
