//! What a handle can hold.

use admission::Trail;
use master_core::{Core, CorePlanned, CoreSnapshot};

/// What a handle holds.
#[derive(Drop)]
pub enum HandleContent {
    /// A master, and the slots that were flagged up to the miss that its last answer told: nothing after other answers.
    Master { core: Core, trail: Trail },
    /// A standby that follows a master: the core that it would go on with.
    Standby { core: Core },
    /// What a change is planned from in another thread.
    Snapshot { snapshot: CoreSnapshot },
    /// A change that was planned so.
    Planned { planned: CorePlanned },
    /// Nothing any more: what was held was moved out.
    Moved,
}
