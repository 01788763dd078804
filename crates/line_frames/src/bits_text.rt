//! Bits as text: `0` is a dominant bit and `1` a recessive one, and line feeds write none.

ghost use Rattle.std.specs.Prelude.{◌≡◌, ◌+◌, ◌<◌, ◌≤◌, All, length, take, IfErr, IfOk, OnOk};
ghost use Rattle.line_frames.specs.BitsText.{IsBitByte, IsBitsText, bits_in};
ghost use Rattle.line_frames.specs.Stops.{TellsOf};

use crate::stop::ListingStop;
use std::alloc::Global;

/// The bits that a text writes. It takes one byte for each byte of the text.
///
/// `NoBit` tells of the first byte that is none of `0`, `1` and line feed.
pub fn bits_in(alloc: Global, text: &[u8]) -> Result<Vec<bool>, ListingStop>
    ensures bits { IfOk result (λ bits. bits.items ≡ bits_in text.now) }
    ensures few { IfOk result (λ bits. length bits.items ≤ length text.now) }
    ensures written { OnOk result (IsBitsText text.now) }
    ensures fault { IfErr result (TellsOf text.now) }
{
    let mut bits = Vec::with_capacity(alloc, text.len())?;
    for place in 0..text.len() {
        push_bit(&mut bits, text, place)?;
    }
    Ok(bits)
}

/// Puts the bit that the byte at this place writes, if it writes one, behind the bits of the bytes
/// before it.
fn push_bit(bits: &mut Vec<bool>, text: &[u8], place: usize) -> Result<(), ListingStop>
    requires within { place < length text.now }
    requires before { All IsBitByte (take place text.now) }
    requires bits { bits.old.items ≡ bits_in (take place text.now) }
    requires few { length bits.old.items ≤ place }
    ensures bits { OnOk result (bits.new.items ≡ bits_in (take (place + 1) text.now)) }
    ensures few { OnOk result (length bits.new.items ≤ place + 1) }
    ensures written { OnOk result (All IsBitByte (take (place + 1) text.now)) }
    ensures fault { IfErr result (TellsOf text.now) }
{
    match text[place] {
        b'0' => bits.push(false)?,
        b'1' => bits.push(true)?,
        b'\n' => {}
        _ => return Err(ListingStop::NoBit { place }),
    }
    Ok(())
}
