//! The cycles that a history opened.

ghost use Rattle.std.specs.Prelude.{◌≡◌, IfOk, map};
ghost use Rattle.master_core.specs.Openings.{openings_of};

use crate::event::Event;
use requirement_table::Mask;
use std::alloc::{AllocError, Global};

/// The masks of the opened cycles, in their order.
pub fn opened_masks(alloc: Global, history: &[Event]) -> Result<Vec<Mask>, AllocError>
    ensures masks { IfOk result (λ masks. masks.items ≡ map (λ o. o.mask) (openings_of history.now)) }
{
    let mut masks = Vec::new(alloc);
    for event in history {
        if let Event::Open { mask, .. } = event {
            masks.push(*mask)?;
        }
    }
    Ok(masks)
}
