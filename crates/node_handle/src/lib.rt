//! What C can hold of a node: one pointer.
#![tactic(auto)]

mod handle;
mod held;
mod loose;

pub use handle::FttNode;
pub use held::HeldNode;
