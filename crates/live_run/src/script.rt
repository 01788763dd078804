//! Scripts of operators.

use change_protocol::Act;
use items::Items;

/// A list of acts that a value holds. Contracts see the list.
pub type ActList = Items<Act>;

/// What one operator asks for, act by act.
#[derive(Drop, Debug)]
pub struct Script {
    /// The acts, in their order.
    pub acts: ActList,
}
