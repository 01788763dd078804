//! What a pass knows. No value of it is made: it stands in proofs alone.

use std::collections::LinkedList;

/// What a pass knows of the lock.
pub struct View<E, F> {
    /// Whether the pass was joined, so that nothing else is known of it.
    pub spent: bool,
    /// The list that was found under the turn, while the pass holds it.
    pub found: Option<LinkedList<E>>,
    /// 0 for the first pass.
    pub number: u64,
    /// How many tries found the turn held.
    pub refused: u64,
    /// The odd word that the last of these found.
    pub last: u64,
    /// How many passes were split from it.
    pub made: u64,
    /// How many of these were not joined back.
    pub out: u64,
    /// The fixed part of the values in the lock.
    pub fixed: Option<F>,
    /// A beginning of the history.
    pub seen: LinkedList<E>,
    /// The pass's own entries, in their order.
    pub mine: LinkedList<E>,
    /// The entries of the passes that were joined into it, under their numbers.
    pub ended: LinkedList<(u64, LinkedList<E>)>,
    /// For each turn that it, or a pass joined into it, was granted: that pass's number, and the
    /// length of the history then.
    pub taken: LinkedList<(u64, u64)>,
    /// What the two passes had seen that met in the last joining.
    pub met: LinkedList<LinkedList<E>>,
}
