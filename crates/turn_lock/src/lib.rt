//! A turn lock: one history that only grows, on one word and one slot.
#![tactic(auto)]

mod held;
pub mod laws;
mod pass;
mod rule;
mod stands;
mod turn;
mod view;

pub use held::{Busy, Held};
pub use pass::Pass;
pub use stands::Stands;
pub use turn::Turn;
pub use view::View;
