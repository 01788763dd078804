//! What a value in the lock stands for.

/// A value that stands for a list of entries.
pub trait Stands {
    ghost use Rattle.std.specs.Prelude.{ℕ, ◌<◌, ◌^◌, List, length};

    type Entry;

    type Fixed;

    /// The list of entries that a value stands for.
    ghost entries: { Self → List Self.Entry };

    /// The part that is the same at every turn.
    ghost fixed: { Self → Self.Fixed };

    /// The number of the one pass that may make an entry.
    ghost number: { Self.Entry → ℕ };

    /// A list is short enough for twice its length to be counted.
    ghost few: { (value : Self) → length (entries value) < 2 ^ 62 };
}
