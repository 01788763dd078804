//! Frames: their bits on the wire, the triggers of a cycle, the payload of an instance, and when an asynchronous frame
//! may start.

ghost use Rattle.std.specs.Prelude.{◌≡◌, ◌≢◌, ◌/◌, ◌≤◌, ◌↔◌, ℕ, All, Bool, Err, Ok, IfErr, IfOk, IsTrue, OnOk, length, map};
ghost use Rattle.std.specs.Int.{from_bool};
ghost use Rattle.can_frame.specs.DataFrame.{DataFrame, IsFrame};
ghost use Rattle.can_frame.specs.Reading.{Reads};
ghost use Rattle.can_frame.specs.Wire.{wire_length, wire_of};
ghost use Rattle.can_frame.specs.declared.wire_fault.WireFault.{WireFault as WireFaultOf};
ghost use Rattle.cycle_layout.specs.Layout.{IsAllowed, IsLayout};
ghost use Rattle.requirement_table.specs.Instance.{payload};
ghost use Rattle.c_values.specs.declared.refusal.ExportRefusal.{ExportRefusal as RefusalOf};
ghost use Rattle.c_values.specs.declared.refusal.ExportRefusal.TheVariants.{Argument};
ghost use Rattle.fttcan_c.specs.Framing.{IsFitAsked, RefusesBits, RefusesFits, RefusesWire, data_frame};
ghost use Rattle.c_values.specs.Plain.{bit_of, layout_of};
ghost use Rattle.c_values.specs.Refused.{status_of};
ghost use Rattle.c_values.specs.Room.{IsRoomFilled, IsRoomShort};
ghost use Rattle.c_values.specs.Told.{frame_told, place_told};

use c_values::{ExportRefusal, FttFrame, FttLayout, OK, frame_out, layout_in, put};
use can_frame::laws::wire_lengths;
use can_frame::{Frame, WireFault, read_wire, wire, wire_len};
use requirement_table::Payload;
use std::alloc::{AllocError, Global};

/// The wire length of the frame with this identifier, up to 0x7EF, and these data bytes, at most 8: bit times with the
/// three of intermission.
#[unsafe(no_mangle)]
pub extern "C" fn fttcan_wire_length(id: u16, bytes: &[u8], bits: &mut u32) -> u32
    ensures length { result ≡ 0 → IsFrame (data_frame id bytes.now)
        × (bits.new ≡ wire_length (data_frame id bytes.now)) }
    ensures most { result ≡ 0 → bits.new ≤ 135 }
    ensures refused { result ≢ 0 → (bits.new ≡ bits.old) × (result ≡ 2) × (IsFrame (data_frame id bytes.now) → ⊥) }
{
    match Frame::new(id, bytes) {
        Ok(frame) => {
            *bits = wire_len(&frame);
            OK
        }
        Err(_) => ExportRefusal::Argument.status(),
    }
}

/// The bits of a frame on the wire, one a byte: 0 is dominant and 1 recessive.
fn wire_bytes(alloc: Global, id: u16, bytes: &[u8]) -> Result<Vec<u8>, ExportRefusal>
    ensures bits { IfOk result (λ bits. IsFrame (data_frame id bytes.now)
        × (bits.items ≡ map from_bool (wire_of (data_frame id bytes.now)))) }
    ensures most { IfOk result (λ bits. length bits.items ≤ 135) }
    ensures refused { IfErr result (RefusesWire id bytes.now) }
{
    let Ok(frame) = Frame::new(id, bytes) else {
        return Err(ExportRefusal::Argument);
    };
    wire_lengths();
    let bits = wire(alloc, &frame)?;
    let bytes = bytes_of(alloc, bits.as_slice())?;
    Ok(bytes)
}

/// Bits as bytes.
fn bytes_of(alloc: Global, bits: &[bool]) -> Result<Vec<u8>, AllocError>
    ensures bytes { IfOk result (λ bytes. bytes.items ≡ map from_bool bits.now) }
{
    bits.iter().map(|bit| u8::from(*bit)).collect(alloc)
}

/// The bits on the wire of the frame with this identifier, up to 0x7EF, and these data bytes, at most 8: one a byte, 0
/// dominant and 1 recessive, with the three of intermission. `count` is how many they are, also where the room is too
/// small.
#[unsafe(no_mangle)]
pub extern "C" fn fttcan_wire_bits(
    alloc: Global,
    id: u16,
    bytes: &[u8],
    room: &mut [u8],
    count: &mut usize,
) -> u32
    ensures bits { result ≡ 0 → IsFrame (data_frame id bytes.now)
        × IsRoomFilled (map from_bool (wire_of (data_frame id bytes.now))) room.old room.new count.new }
    ensures most { result ≡ 0 → count.new ≤ 135 }
    ensures short { result ≡ 5 → IsFrame (data_frame id bytes.now)
        × IsRoomShort (map from_bool (wire_of (data_frame id bytes.now))) room.old room.new count.new }
    ensures refused { result ≢ 0 → result ≢ 5 → (room.new ≡ room.old) × (count.new ≡ count.old)
        × ((refusal : RefusalOf) × (result ≡ status_of refusal) × RefusesWire id bytes.now refusal) }
{
    match wire_bytes(alloc, id, bytes) {
        Ok(bits) => match put(bits.as_slice(), room, count) {
            Ok(()) => OK,
            Err(refusal) => refusal.status(),
        },
        Err(refusal) => refusal.status(),
    }
}

/// Whether each byte is a bit, 0 or 1.
fn are_bits(bytes: &[u8]) -> bool
    ensures bits { IsTrue result ↔ All (λ byte. byte ≤ 1) bytes.now }
{
    bytes.iter().all(|byte| *byte <= 1)
}

/// Bytes as bits.
fn bits_of(alloc: Global, bytes: &[u8]) -> Result<Vec<bool>, AllocError>
    ensures bits { IfOk result (λ bits. bits.items ≡ map bit_of bytes.now) }
{
    bytes.iter().map(|byte| *byte != 0).collect(alloc)
}

/// Bytes as bits, which are 0 or 1 each.
fn bits_in(alloc: Global, bytes: &[u8]) -> Result<Vec<bool>, ExportRefusal>
    ensures bits { IfOk result (λ bits. bits.items ≡ map bit_of bytes.now) }
    ensures known { OnOk result (All (λ byte. byte ≤ 1) bytes.now) }
    ensures refused { IfErr result (RefusesBits bytes.now) }
{
    if !are_bits(bytes) {
        return Err(ExportRefusal::Argument);
    }
    let bits = bits_of(alloc, bytes)?;
    Ok(bits)
}

/// The place at which a reader of so many bits stops.
fn place_of(count: usize, fault: &WireFault) -> usize
    ensures place { result ≡ place_told count fault.now }
{
    match *fault {
        WireFault::Stuff { place } | WireFault::Form { place } | WireFault::Tail { place } => place,
        WireFault::Short { have } => have,
        WireFault::Crc { .. } | WireFault::Memory => count,
    }
}

/// The frame whose wire these bits are, one a byte: 0 dominant and 1 recessive.
///
/// Where they are no wire of a frame the answer is `Text`, and `place` is that of the first fault: where they end early,
/// or have another CRC sequence, their number.
#[unsafe(no_mangle)]
pub extern "C" fn fttcan_read_wire(
    alloc: Global,
    bits: &[u8],
    frame: &mut FttFrame,
    place: &mut usize,
) -> u32
    ensures read { result ≡ 0 → (read : DataFrame) × Reads (map bit_of bits.now) (Ok read)
        × (All (λ byte. byte ≤ 1) bits.now)
        × (frame.new ≡ frame_told read) × (place.new ≡ place.old) }
    ensures fault { result ≡ 9 → (fault : WireFaultOf) × Reads (map bit_of bits.now) (Err fault)
        × (All (λ byte. byte ≤ 1) bits.now)
        × (place.new ≡ place_told (length bits.now) fault) × (frame.new ≡ frame.old) }
    ensures refused { result ≢ 0 → result ≢ 9 → (frame.new ≡ frame.old) × (place.new ≡ place.old)
        × ((refusal : RefusalOf) × (result ≡ status_of refusal) × RefusesBits bits.now refusal) }
{
    let read = match bits_in(alloc, bits) {
        Ok(read) => read,
        Err(refusal) => return refusal.status(),
    };
    match read_wire(alloc, read.as_slice()) {
        Ok(made) => {
            *frame = frame_out(&made);
            OK
        }
        Err(fault) => {
            *place = place_of(bits.len(), &fault);
            ExportRefusal::Text.status()
        }
    }
}

/// The data bytes of the frame of instance `number`, as many as there is room for, at most 8.
#[unsafe(no_mangle)]
pub extern "C" fn fttcan_payload(number: u64, room: &mut [u8]) -> u32
    ensures bytes { result ≡ 0 → (length room.old ≤ 8) × (room.new ≡ payload (length room.old) number) }
    ensures refused { result ≢ 0 → (room.new ≡ room.old) × (result ≡ 2) × (length room.old ≤ 8 → ⊥) }
{
    if room.len() > 8 {
        return ExportRefusal::Argument.status();
    }
    let payload = Payload::of(room.len() as u8, number);
    room.copy_from_slice(payload.as_slice());
    OK
}

/// Whether an asynchronous frame of `dlc` data bytes that starts at the bit time `at` starts behind the turnaround of
/// its cycle, and ends before the synchronous window, of `window` bit times, at the end of that cycle.
#[unsafe(no_mangle)]
pub extern "C" fn fttcan_fits(
    layout: &FttLayout,
    at: u64,
    dlc: u8,
    window: u32,
    fits: &mut u8,
) -> u32
    ensures fits { result ≡ 0 → (answer : Bool) × (fits.new ≡ from_bool answer)
        × (IsTrue answer ↔ IsAllowed (layout_of layout.now) dlc at (at / layout.now.cycle) window) }
    ensures known { result ≡ 0 → IsFitAsked layout.now dlc window }
    ensures refused { result ≢ 0 → (fits.new ≡ fits.old) × (result ≡ 2) × RefusesFits layout.now dlc window }
{
    if dlc > 8 || window > layout.window {
        return ExportRefusal::Argument.status();
    }
    match layout_in(layout) {
        Ok(made) => {
            *fits = u8::from(made.fits(at, dlc, window));
            OK
        }
        Err(refusal) => refusal.status(),
    }
}
