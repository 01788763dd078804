//! Tables in a table: what the loop that compares says of them.

use cases::{CaseTable, Fault, compared};
use std::alloc::Global;

/// Tables as text, in which `\n` stands for a line feed.
#[derive(Drop)]
pub struct Nested;

impl CaseTable for Nested {
    ghost use Rattle.std.specs.Prelude.{⊤};

    ghost IsReady = { λ _. ⊤ };

    fn answer(&mut self, alloc: Global, given: &str) -> Result<String, Fault> {
        let text = given.replace(alloc, "\\n", "\n")?;
        let line = compared(alloc, "table", text.as_str(), &mut Echo)?;
        Ok(format!(in alloc; "{line}\n")?)
    }
}

/// A table that tells what is given. The word `unread` it does not read.
#[derive(Drop)]
struct Echo;

impl CaseTable for Echo {
    ghost use Rattle.std.specs.Prelude.{⊤};

    ghost IsReady = { λ _. ⊤ };

    fn answer(&mut self, alloc: Global, given: &str) -> Result<String, Fault> {
        if given == "unread" {
            return Err(Fault::Unread);
        }
        Ok(String::from_str(alloc, given)?)
    }
}
