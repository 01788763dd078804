//! Why a call that tries once was not answered.

use master_core::Planned;

/// Why a call was not answered. It left no event.
#[derive(Clone, Copy, Debug, PartialEq, Eq)]
pub enum TryFault {
    /// Another pass held the turn. The word that was found is twice the length of the history then, and one.
    Busy { word: u64 },
    /// Memory ran out.
    Memory,
}

/// Why a change that was planned apart was not settled. It left no event.
#[derive(Drop, Debug)]
pub enum SettleFault {
    /// Another pass held the turn. The word that was found is twice the length of the history then, and one. The plan
    /// is handed back, and may be settled later.
    Busy { word: u64, planned: Planned },
    /// Memory ran out. The plan is dropped.
    Memory,
}
