//! Marks for bytes that can't be seen.

use std::alloc::{AllocError, Global};

/// A text with its marks replaced: `\n`, `\r` and `\0` stand for these bytes, and `\b` for a byte order mark.
pub fn plain(alloc: Global, text: &str) -> Result<String, AllocError> {
    let text = text.replace(alloc, "\\n", "\n")?;
    let text = text.replace(alloc, "\\r", "\r")?;
    let text = text.replace(alloc, "\\0", "\0")?;
    text.replace(alloc, "\\b", "\u{feff}")
}
