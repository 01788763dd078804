//! Bits as text. A list of none is `-`.

use cases::Fault;
use std::alloc::Global;

/// The bits of a field of `0` and `1`.
pub fn bits(alloc: Global, field: &str) -> Result<Vec<bool>, Fault> {
    let mut bits = Vec::new(alloc);
    if field == "-" {
        return Ok(bits);
    }
    for digit in field.as_bytes() {
        match digit {
            b'0' => bits.push(false)?,
            b'1' => bits.push(true)?,
            _ => return Err(Fault::Unread),
        }
    }
    Ok(bits)
}

/// The text of bits.
pub fn text_of_bits(alloc: Global, bits: &[bool]) -> Result<String, Fault> {
    if bits.is_empty() {
        return Ok(String::from_str(alloc, "-")?);
    }
    let mut text = String::new(alloc);
    for bit in bits {
        text.push(if *bit { '1' } else { '0' })?;
    }
    Ok(text)
}
