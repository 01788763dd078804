//! Frames, and the bits that they are on the wire.

use crate::bits::{bits, text_of_bits};
use can_frame::{Frame, crc, read_wire, wire, wire_len};
use cases::{CaseTable, Fault, bytes, cut, hexadecimal, text_of_frame};
use std::alloc::Global;

/// Frames of an identifier and data bytes. The answer is the CRC sequence, the wire length and, where `wire` asks for it,
/// the wire.
#[derive(Drop)]
pub struct WireFrames;

impl CaseTable for WireFrames {
    ghost use Rattle.std.specs.Prelude.{⊤};

    ghost IsReady = { λ _. ⊤ };

    fn answer(&mut self, alloc: Global, given: &str) -> Result<String, Fault> {
        let (word, fields) = cut(given, ' ');
        match word {
            "wire" => with_wire(alloc, &frame(alloc, fields)?),
            "length" => with_length(alloc, &frame(alloc, fields)?),
            _ => Err(Fault::Unread),
        }
    }
}

/// The frame of two fields, the identifier and the data bytes.
fn frame(alloc: Global, fields: &str) -> Result<Frame, Fault> {
    let (id, data) = cut(fields, ' ');
    match Frame::new(hexadecimal(id)?, bytes(alloc, data)?.as_slice()) {
        Ok(frame) => Ok(frame),
        Err(_) => Err(Fault::Unread),
    }
}

/// The CRC sequence and the wire length of a frame, and its wire.
fn with_wire(alloc: Global, frame: &Frame) -> Result<String, Fault> {
    let text = read_back(alloc, frame)?;
    Ok(format!(in alloc; "{:04x} {} {text}", crc(frame), wire_len(frame))?)
}

/// The CRC sequence and the wire length of a frame.
fn with_length(alloc: Global, frame: &Frame) -> Result<String, Fault> {
    read_back(alloc, frame)?;
    Ok(format!(in alloc; "{:04x} {}", crc(frame), wire_len(frame))?)
}

/// The wire of a frame, where it has the frame's length and is read back as the frame.
fn read_back(alloc: Global, frame: &Frame) -> Result<String, Fault> {
    let bits = wire(alloc, frame)?;
    if bits.len() != wire_len(frame) as usize || read_wire(alloc, bits.as_slice()) != Ok(*frame) {
        return Err(Fault::Unread);
    }
    text_of_bits(alloc, bits.as_slice())
}

/// Calls that make a frame, or read one from the bits of a wire.
#[derive(Drop)]
pub struct Wires;

impl CaseTable for Wires {
    ghost use Rattle.std.specs.Prelude.{⊤};

    ghost IsReady = { λ _. ⊤ };

    fn answer(&mut self, alloc: Global, given: &str) -> Result<String, Fault> {
        let (word, fields) = cut(given, ' ');
        match word {
            "new" => made(alloc, fields),
            "read" => read(alloc, fields),
            _ => Err(Fault::Unread),
        }
    }
}

/// The frame of an identifier and data bytes, or the fault.
fn made(alloc: Global, fields: &str) -> Result<String, Fault> {
    let (id, data) = cut(fields, ' ');
    match Frame::new(hexadecimal(id)?, bytes(alloc, data)?.as_slice()) {
        Ok(frame) => text_of_frame(alloc, &frame),
        Err(fault) => Ok(format!(in alloc; "{fault}")?),
    }
}

/// The frame that is read from bits, or the fault.
fn read(alloc: Global, field: &str) -> Result<String, Fault> {
    match read_wire(alloc, bits(alloc, field)?.as_slice()) {
        Ok(frame) => text_of_frame(alloc, &frame),
        Err(fault) => Ok(format!(in alloc; "{fault}")?),
    }
}
