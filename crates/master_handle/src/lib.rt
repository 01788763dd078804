//! What C can hold: a master, a standby, a snapshot or a planned change behind one pointer.
#![tactic(auto)]

mod handle;
mod held;
mod loose;

pub use handle::FttHandle;
pub use held::HandleContent;
