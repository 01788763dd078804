//! Recorded lines, read back.

use bus_line::{LineFault, line_bits, read_line};
use cases::{Fault, text_of_trace};
use std::alloc::Global;

/// So many bits, and more, are no line.
const TOO_MANY: usize = 1 << 28;

/// The frames that are read from the bits of a line, or the fault. Where the line of these frames has other bits, that
/// is told.
pub fn read(alloc: Global, bits: &[bool]) -> Result<String, Fault> {
    if bits.len() >= TOO_MANY {
        return Err(Fault::Unread);
    }
    let trace = match read_line(alloc, bits) {
        Ok(trace) => trace,
        Err(LineFault::Memory) => return Err(Fault::Memory),
        Err(fault) => return Ok(format!(in alloc; "{fault}")?),
    };
    let again = line_bits(alloc, trace.as_slice(), 0, bits.len() as u64)?;
    let told = if again.as_slice() != bits {
        "other bits"
    } else if trace.is_empty() {
        "-"
    } else {
        return text_of_trace(alloc, trace.as_slice());
    };
    Ok(String::from_str(alloc, told)?)
}
