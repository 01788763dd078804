//! The limits of this profile of FTT-CAN: numbers of identifiers, lengths, counts and times that the code and the
//! contracts of all crates name.
#![tactic(auto)]

pub mod laws;

/// The greatest identifier of a frame: the seven most significant of its 11 bits are not all recessive (CAN 2.0
/// Part A, arbitration field).
pub const GREATEST_IDENTIFIER: u16 = 0x7EF;

/// The identifier of slot 0. That of slot s is s more.
pub const FIRST_IDENTIFIER: u16 = 0x100;

/// The least identifier of an asynchronous frame.
pub const LEAST_ASYNCHRONOUS: u16 = 0x200;

/// The length of a frame without data bytes and stuff bits, in bit times, its intermission included. No frame is
/// shorter (CAN 2.0 Part A, data frame and interframe space).
pub const SHORTEST_FRAME: u32 = 47;

/// The most frames that start in one cycle: no cycle is longer than the longest one, and no frame is shorter than the
/// shortest one.
pub const MOST_FRAMES: usize = (LONGEST_CYCLE / SHORTEST_FRAME) as usize + 1;

/// The least length of an elementary cycle, in bit times.
pub const SHORTEST_CYCLE: u32 = 400;

/// The greatest length of an elementary cycle, in bit times.
pub const LONGEST_CYCLE: u32 = 100_000;

/// The greatest turnaround, in bit times.
pub const LONGEST_TURNAROUND: u32 = 1_000;

/// The least length that the largest synchronous window may have, in bit times.
pub const SHORTEST_WINDOW: u32 = 55;

/// The greatest length that the largest synchronous window may have, in bit times: 14 bits of the two bytes in which a
/// trigger tells it.
pub const LONGEST_WINDOW: u32 = 16_383;

/// The number of slots that one trigger frame flags: those below it, five bytes of flags.
pub const FIRST_SLOTS: u8 = 40;

/// The greatest number of slots of a bus, which is the room of a set of slots. Slots are numbered from 0, and two trigger
/// frames flag so many.
pub const MOST_SLOTS: u8 = 96;

/// The greatest number of nodes of a bus.
pub const MOST_NODES: u8 = 30;

/// The greatest horizon: within so many planned cycles the repeat of a plan has to be found.
pub const GREATEST_HORIZON: u64 = 100_000;

/// The greatest number of cycles of a run.
pub const MOST_CYCLES: u64 = 20_000;

/// Cycle numbers are below this.
pub const CYCLES_END: u64 = 1 << 42;

/// The cycles that a master opens are below this.
pub const OPENINGS_END: u64 = 1 << 41;

/// The cycles in which a change may begin to be felt are below this.
pub const STARTS_END: u64 = 1 << 40;

/// All times are below this, in bit times.
pub const TIMES_END: u64 = 1 << 60;

/// The times at which requests arrive are below this, in bit times.
pub const ARRIVALS_END: u64 = 1 << 40;
