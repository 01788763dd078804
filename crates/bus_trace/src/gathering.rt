//! Rows that are gathered in memory.

ghost use Rattle.std.specs.Prelude.{◌≡◌};

use ftt_io::{Failed, Sink};

/// Rows in memory, as a sink. Where memory runs out it takes nothing of a piece.
#[derive(Drop)]
pub struct Gathered {
    /// The rows.
    pub text: Vec<u8>,
    /// How often memory ran out.
    faults: u64,
}

impl Gathered {
    /// Rows behind a text.
    pub fn behind(text: Vec<u8>) -> Gathered
        ensures text { result.text.items ≡ text.items }
    {
        Gathered { text, faults: 0 }
    }
}

impl Sink for Gathered {
    ghost use Rattle.std.specs.Prelude.{Some};

    ghost told_bytes = { λ rows. Some rows.text.items };

    ghost faults = { λ rows. rows.faults };

    fn put(&mut self, piece: &[u8]) -> Result<usize, Failed> {
        if self.text.extend_from_slice(piece).is_err() {
            self.faults = self.faults.saturating_add(1);
            return Err(Failed);
        }
        Ok(piece.len())
    }

    fn pass_on(&mut self) -> Result<(), Failed> {
        Ok(())
    }
}
