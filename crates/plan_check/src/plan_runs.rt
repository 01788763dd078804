//! What the lines of a plan text speak of: runs of cycles, in one of two versions.

ghost use Rattle.std.specs.Prelude.{◌≡◌};
ghost use Rattle.plan_check.specs.PlanText.{mask_bound};

use requirement_table::Mask;

/// Cycles one after the other that have the same mask.
#[derive(Clone, Copy, Debug)]
pub struct MaskRun {
    /// The flagged slots.
    pub mask: Mask,
    /// The number of cycles.
    pub count: u64,
}

/// The version of a plan text.
#[derive(Clone, Copy, Debug)]
pub enum Version {
    /// It has a line for each cycle, and names slots below 40 alone.
    One,
    /// It has a line for each run.
    Two,
}

impl Version {
    /// The number above those of all sets of slots that the version names.
    pub fn mask_bound(self) -> u128
        ensures bound { result ≡ mask_bound self }
    {
        match self {
            Version::One => 1 << 40,
            Version::Two => 1 << 96,
        }
    }
}
