//! What crosses to C: structs of plain numbers, laid out as C does it.

/// A set of slots: bit s of `low` is slot s, and bit s of `high` is slot s + 64. `high` is below 2^32.
#[repr(C)]
#[derive(Clone, Copy, PartialEq, Eq, Debug)]
pub struct FttMask {
    pub low: u64,
    pub high: u64,
}

/// A data frame: an identifier up to 0x7EF, and the first `len` of the bytes, at most 8.
#[repr(C)]
#[derive(Clone, Copy, PartialEq, Eq, Debug)]
pub struct FttFrame {
    pub id: u16,
    pub len: u8,
    pub bytes: [u8; 8],
}

/// What the trigger of a cycle says: the flagged slots, the cycle, and the length of its synchronous window in bit
/// times.
#[repr(C)]
#[derive(Clone, Copy, PartialEq, Eq, Debug)]
pub struct FttTrigger {
    pub flags: FttMask,
    pub cycle: u64,
    pub window: u32,
}

/// The rules of a master: the horizon in cycles, 1 to 100,000; the longest window in bit times, 55 to 16,383; 1 to 30
/// nodes; 40 or 96 slots; a policy, 0 for rm, 1 for dm, 2 for edf; and a filling, 0 for prefix, 1 for skip.
#[repr(C)]
#[derive(Clone, Copy, PartialEq, Eq, Debug)]
pub struct FttRules {
    pub horizon: u64,
    pub window: u32,
    pub nodes: u8,
    pub slots: u8,
    pub policy: u8,
    pub fill: u8,
}

/// An entry of the table. Phase, period and deadline are elementary cycles, and `length` is bytes.
#[repr(C)]
#[derive(Clone, Copy, PartialEq, Eq, Debug)]
pub struct FttEntry {
    pub phase: u16,
    pub period: u16,
    pub deadline: u16,
    pub slot: u8,
    pub node: u8,
    pub length: u8,
    pub priority: u8,
}

/// An entry in its place in time: its origin, and its end where `ended` is not 0, both elementary cycles.
#[repr(C)]
#[derive(Clone, Copy, PartialEq, Eq, Debug)]
pub struct FttPlaced {
    pub origin: u64,
    pub end: u64,
    pub entry: FttEntry,
    pub ended: u8,
}

/// An operation of a change: its kind is 0 for add, 1 for remove, of which only the entry's slot counts, and 2 for
/// change.
#[repr(C)]
#[derive(Clone, Copy, PartialEq, Eq, Debug)]
pub struct FttOp {
    pub kind: u8,
    pub entry: FttEntry,
}

/// The next cycle, and the slots that are pending before it.
#[repr(C)]
#[derive(Clone, Copy, PartialEq, Eq, Debug)]
pub struct FttState {
    pub cycle: u64,
    pub pending: FttMask,
}

/// The answer to a change. Its kind is 0 malformed (the operation `op`, the rule `why`, and the cycle `first` where
/// `known` is 1), 1 passed (the start `first`, the next cycle `second`), 2 miss (the slot, the release `first`, the last
/// cycle `second`), 3 horizon (from `first`, `second` cycles walked) and 4 accepted (the repeat `first` and its length
/// `second`). A number that its kind does not name is 0.
#[repr(C)]
#[derive(Clone, Copy, PartialEq, Eq, Debug)]
pub struct FttVerdict {
    pub first: u64,
    pub second: u64,
    pub kind: u8,
    pub op: u8,
    pub why: u8,
    pub slot: u8,
    pub known: u8,
}

/// What a cycle sends: the flagged slots, and the length of its synchronous window in bit times.
#[repr(C)]
#[derive(Clone, Copy, PartialEq, Eq, Debug)]
pub struct FttPlan {
    pub flags: FttMask,
    pub window: u32,
}

/// What a master orders for a cycle: its number, the flagged slots, and the length of its synchronous window in bit
/// times. `learned` is 1 where the table changed since the last opening, so that the nodes are to be told it.
#[repr(C)]
#[derive(Clone, Copy, PartialEq, Eq, Debug)]
pub struct FttOrder {
    pub cycle: u64,
    pub flags: FttMask,
    pub window: u32,
    pub learned: u8,
}

/// Why a plan does not keep a table. Its kind is 0 badloop (the slot), 1 notreleased (the cycle `first`, the slot), 2
/// toowide (the cycle `first`, the sum `second` in bit times), 3 missed (the slot, the release `first`, the last cycle
/// `second`) and 4 notclosed (the slot). A number that its kind does not name is 0.
#[repr(C)]
#[derive(Clone, Copy, PartialEq, Eq, Debug)]
pub struct FttBreach {
    pub first: u64,
    pub second: u64,
    pub kind: u8,
    pub slot: u8,
}

/// Why a standby does not follow a trigger. Its kind is 0 where the frames are not the trigger of the cycle `first`, 1 where
/// they flag other slots in the cycle `first` than the planned ones, and 2 where they say a window of `first` bit times for
/// slots that need `second`. A number that its kind does not name is 0.
#[repr(C)]
#[derive(Clone, Copy, PartialEq, Eq, Debug)]
pub struct FttFollow {
    pub heard: FttMask,
    pub planned: FttMask,
    pub first: u64,
    pub second: u64,
    pub kind: u8,
}

/// The layout of a cycle, in bit times: the cycle itself, 400 to 100,000; the turnaround, at most 1,000; and the longest
/// synchronous window, 55 to 16,383. There are 40 or 96 slots.
#[repr(C)]
#[derive(Clone, Copy, PartialEq, Eq, Debug)]
pub struct FttLayout {
    pub cycle: u32,
    pub turnaround: u32,
    pub window: u32,
    pub slots: u8,
}
