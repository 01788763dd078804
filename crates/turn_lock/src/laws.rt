//! Laws of what passes know, for the crates whose contracts speak of it.

ghost use Rattle.std.specs.Prelude.{◌≡◌};
ghost use Rattle.turn_lock.specs.Passes.{Facts, IsCovered};
ghost use Rattle.turn_lock.specs.declared.view.View.{View};

use crate::stands::Stands;

/// What follows from what is true of every pass. The function does nothing.
pub fn pass_laws<T: Stands>()
    // Where the first pass has none out, each entry that it has seen is its own, or one of a pass that was joined.
    ensures covered { (v : View T.Entry T.Fixed) → Facts T.number v → v.number ≡ 0 → v.out ≡ 0 → IsCovered v }
{}
