//! Reading the bits of a frame back, from left to right, up to the first wrong place.

ghost use Rattle.std.specs.Prelude.{◌≡◌, ◌+◌, ◌*◌, ◌<◌, ◌≤◌, ◌^◌, Bool, List, [], ◌∷◌, ◌++◌};
ghost use Rattle.std.specs.Prelude.{length, take, drop, reverse, nat_le, Result, Err, IfOk, IfErr, OnOk, MatchOption};
ghost use Rattle.std.specs.List.{flat_map};
ghost use Rattle.profile.specs.Limits.{greatest_identifier};
ghost use Rattle.stuff_bound.specs.Stuffing.{run, HasNoSix, at_stuff_place, stuffed};
ghost use Rattle.can_frame.specs.declared.data_frame.Front.{Front};
ghost use Rattle.can_frame.specs.declared.wire_fault.WireFault.{WireFault};
ghost use Rattle.can_frame.specs.DataFrame.{DataFrame, IsFrame};
ghost use Rattle.stuff_bound.specs.Fields.{bits};
ghost use Rattle.can_frame.specs.Wire.{dominant, recessive, header, plain, with_sequence};
ghost use Rattle.can_frame.specs.Reading.{carried, plain_length, IsMisplaced, IsPlaced, IsBegun, Reads, ReadsFront};
ghost use Rattle.can_frame.specs.Progress.{all_bits, Expects, Went, EndsPlain};

use crate::data_frame::{Frame, Front, MAX_BYTES};
use crate::sequence::crc;
use crate::wire_bits::TRAILER;
use crate::wire_fault::WireFault;
use std::alloc::Global;
use std::marker::Model;
use stuff_bound::BitRun;

/// Seven recessive bits, with which no identifier begins.
const ALL_RECESSIVE: u16 = 0x7F;

/// The greatest data length code.
const MAX_CODE: u16 = 8;

/// A reader of wire bits at a place, with the run of equal bits before it.
#[derive(Drop)]
struct Reader<'a> {
    bits: &'a [bool],
    place: usize,
    run: BitRun,
}

impl<'a> Model for Reader<'a> {
    ghost use Rattle.std.specs.Prelude.{◌≤◌, length, take, drop, reverse};
    ghost use Rattle.stuff_bound.specs.Stuffing.{Tracks};
    ghost use Rattle.can_frame.specs.Progress.{Progress};

    ghost Value = { Progress };

    ghost view = { λ r. record { read = take r.place r.bits.now; rest = drop r.place r.bits.now } };

    ghost invariant = { λ r. (r.place ≤ length r.bits.now) × Tracks r.run (reverse (take r.place r.bits.now)) };
}

impl<'a> Reader<'a> {
    /// Before the first bit.
    fn new(bits: &'a [bool]) -> Self
        ensures value { result ≡ record { read = []; rest = bits.now } }
    {
        Reader {
            bits,
            place: 0,
            run: BitRun::new(),
        }
    }

    /// The place of the next bit.
    fn place(&self) -> usize
        ensures value { result ≡ length self.now.read }
    {
        self.place
    }

    /// The number of all bits.
    fn len(&self) -> usize
        ensures value { result ≡ length (all_bits self.now) }
    {
        self.bits.len()
    }

    /// The next bit, if there is one.
    fn peek(&self) -> Option<bool>
        ensures value { MatchOption result (self.now.rest ≡ []) (λ bit. self.now.rest ≡ bit ∷ drop 1 self.now.rest) }
    {
        if self.place < self.bits.len() {
            Some(self.bits[self.place])
        } else {
            None
        }
    }

    /// Whether the next place is a stuff place.
    fn is_at_stuff_place(&self) -> bool
        ensures value { result ≡ at_stuff_place (reverse self.now.read) }
    {
        self.run.is_full()
    }

    /// Whether this bit would be the sixth of six equal ones.
    fn is_sixth(&self, bit: bool) -> bool
        ensures value { result ≡ nat_le 6 (run (bit ∷ reverse self.now.read)) }
    {
        self.run.is_sixth(bit)
    }

    /// Goes over the next bit, which is this one.
    fn advance(&mut self, bit: bool)
        requires next { self.old.rest ≡ bit ∷ drop 1 self.old.rest }
        ensures value { self.new ≡ record { read = self.old.read ++ bit ∷ []; rest = drop 1 self.old.rest } }
    {
        self.run = self.run.then(bit);
        self.place += 1;
    }

    /// The place of the bit that was read last.
    fn last_place(&self) -> usize
        requires read { 0 < length self.now.read }
        ensures value { result + 1 ≡ length self.now.read }
    {
        self.place - 1
    }

    /// Goes over a stuff bit, where the next place is a stuff place.
    fn stuff_bit(&mut self) -> Result<(), WireFault>
        requires begun { IsBegun self.old.read }
        ensures ok { OnOk result (Went self.old self.new []) }
        ensures no_stuff_place { OnOk result (run (reverse self.new.read) < 5) }
        ensures fault { IfErr result (λ fault. ReadsFront (all_bits self.old) (Err fault)) }
    {
        if !self.is_at_stuff_place() {
            return Ok(());
        }
        let Some(bit) = self.peek() else {
            return Err(WireFault::Short { have: self.len() });
        };
        if self.is_sixth(bit) {
            return Err(WireFault::Stuff {
                place: self.place(),
            });
        }
        self.advance(bit);
        Ok(())
    }

    /// The next bit of the plain part.
    fn bit(&mut self) -> Result<bool, WireFault>
        requires expects { Expects self.old 1 }
        ensures ok { IfOk result (λ bit. Went self.old self.new (bit ∷ [])) }
        ensures last { OnOk result (EndsPlain self.new.read) }
        ensures fault { IfErr result (λ fault. ReadsFront (all_bits self.old) (Err fault)) }
    {
        self.stuff_bit()?;
        let Some(bit) = self.peek() else {
            return Err(WireFault::Short { have: self.len() });
        };
        self.advance(bit);
        Ok(bit)
    }

    /// A bit that is dominant in each frame.
    fn dominant(&mut self) -> Result<(), WireFault>
        requires expects { Expects self.old 1 }
        requires fixed { IsMisplaced (carried self.old.read) recessive }
        ensures ok { OnOk result (Went self.old self.new (dominant ∷ [])) }
        ensures fault { IfErr result (λ fault. ReadsFront (all_bits self.old) (Err fault)) }
    {
        if self.bit()? {
            return Err(WireFault::Form {
                place: self.last_place(),
            });
        }
        Ok(())
    }

    /// The number in a field of `width` bits.
    fn field(&mut self, width: u8) -> Result<u16, WireFault>
        requires some { 0 < width }
        requires narrow { width ≤ 16 }
        requires expects { Expects self.old width }
        ensures ok { IfOk result (λ value. Went self.old self.new (bits width value)) }
        ensures range { IfOk result (λ value. value < 2 ^ width) }
        ensures last { OnOk result (EndsPlain self.new.read) }
        ensures fault { IfErr result (λ fault. ReadsFront (all_bits self.old) (Err fault)) }
    {
        let mut value = 0;
        for _ in 0..width {
            value = 2 * value + u16::from(self.bit()?);
        }
        Ok(value)
    }

    /// The identifier, whose seven most significant bits are not all recessive.
    fn identifier(&mut self) -> Result<u16, WireFault>
        requires no_six { HasNoSix (reverse self.old.read) }
        requires at { carried self.old.read ≡ dominant ∷ [] }
        ensures ok { IfOk result (λ id. Went self.old self.new (bits 11 id)) }
        ensures range { IfOk result (λ id. id ≤ greatest_identifier) }
        ensures fault { IfErr result (λ fault. ReadsFront (all_bits self.old) (Err fault)) }
    {
        let high = self.field(7)?;
        if high == ALL_RECESSIVE {
            return Err(WireFault::Form {
                place: self.last_place(),
            });
        }
        let low = self.field(4)?;
        Ok(16 * high + low)
    }

    /// The data length code, at most 8.
    fn code(&mut self) -> Result<u8, WireFault>
        requires no_six { HasNoSix (reverse self.old.read) }
        requires placed { IsPlaced (carried self.old.read) }
        requires at { length (carried self.old.read) ≡ 15 }
        ensures ok { IfOk result (λ code. Went self.old self.new (bits 4 code)) }
        ensures range { IfOk result (λ code. code ≤ 8) }
        ensures fault { IfErr result (λ fault. ReadsFront (all_bits self.old) (Err fault)) }
    {
        let code = self.field(4)?;
        if code > MAX_CODE {
            return Err(WireFault::Form {
                place: self.last_place(),
            });
        }
        Ok(code as u8)
    }

    /// The identifier and the data length code, with the fixed bits round them.
    fn header(&mut self) -> Result<(u16, u8), WireFault>
        requires start { self.old.read ≡ [] }
        ensures ok { IfOk result (λ fields. Went self.old self.new (header fields.0 fields.1)) }
        ensures id { IfOk result (λ fields. fields.0 ≤ greatest_identifier) }
        ensures code { IfOk result (λ fields. fields.1 ≤ 8) }
        ensures fault { IfErr result (λ fault. ReadsFront (all_bits self.old) (Err fault)) }
    {
        self.dominant()?; // start of frame
        let id = self.identifier()?;
        self.dominant()?; // RTR
        self.dominant()?; // r1
        self.dominant()?; // r0
        let code = self.code()?;
        Ok((id, code))
    }

    /// The data bytes, of which there are `len`, and zeros behind them.
    fn data(&mut self, len: u8) -> Result<[u8; MAX_BYTES], WireFault>
        requires few { len ≤ 8 }
        requires expects { Expects self.old (8 * len) }
        ensures ok { IfOk result (λ bytes. Went self.old self.new (flat_map (bits 8) (take len bytes))) }
        ensures room { IfOk result (λ bytes. length bytes ≡ 8) }
        ensures fault { IfErr result (λ fault. ReadsFront (all_bits self.old) (Err fault)) }
    {
        let mut bytes = [0; MAX_BYTES];
        for place in 0..usize::from(len) {
            bytes[place] = self.field(8)? as u8;
        }
        Ok(bytes)
    }

    /// The stuffed part: a frame, and the CRC sequence that was sent with it.
    fn stuffed_part(&mut self) -> Result<(Frame, u16), WireFault>
        requires start { self.old.read ≡ [] }
        ensures all { OnOk result (all_bits self.new ≡ all_bits self.old) }
        ensures ok { IfOk result (λ part. self.new.read ≡ stuffed (with_sequence part.0 part.1)) }
        ensures legal { IfOk result (λ part. IsFrame part.0) }
        ensures narrow { IfOk result (λ part. part.1 < 2 ^ 15) }
        ensures fault { IfErr result (λ fault. ReadsFront (all_bits self.old) (Err fault)) }
    {
        let (id, len) = self.header()?;
        let bytes = self.data(len)?;
        let sequence = self.field(15)?;
        self.stuff_bit()?; // behind a sequence that ends with five equal bits
        match Frame::new(id, &bytes[..usize::from(len)]) {
            Ok(frame) => Ok((frame, sequence)),
            Err(_) => unreachable!(),
        }
    }

    /// The frame whose stuffed part was read, and where its wire ends, if the bits behind that part
    /// are right.
    fn finish(&mut self, frame: Frame) -> Result<Front, WireFault>
        requires legal { IsFrame frame }
        requires stuffed { self.old.read ≡ stuffed (plain frame) }
        ensures reads { ReadsFront (all_bits self.old) result }
    {
        for due in TRAILER {
            let Some(bit) = self.peek() else {
                return Err(WireFault::Short { have: self.len() });
            };
            if bit != due {
                return Err(WireFault::Form {
                    place: self.place(),
                });
            }
            self.advance(bit);
        }
        Ok(Front {
            frame,
            end: self.place(),
        })
    }
}

/// What is found at the front of the bits, from left to right.
fn find_front(bits: &[bool]) -> Result<Front, WireFault>
    ensures reads { ReadsFront bits.now result }
{
    let mut reader = Reader::new(bits);
    let (frame, sent) = reader.stuffed_part()?;
    let computed = crc(&frame);
    if sent != computed {
        return Err(WireFault::Crc { sent, computed });
    }
    reader.finish(frame)
}

/// The frame that stands at the front of the bits, and where its wire ends; what is behind it is not
/// read.
///
/// The first wrong place decides, as `read_wire` says, and `Short` tells of bits that end before the
/// frame does. No answer is `Tail`. It takes no memory, and so never answers `Memory`.
pub fn read_front(bits: &[bool]) -> Result<Front, WireFault>
    ensures reads { ReadsFront bits.now result }
    ensures only { (answer : Result Front WireFault) → ReadsFront bits.now answer → result ≡ answer }
{
    find_front(bits)
}

/// What is found in the bits, from left to right.
fn read(bits: &[bool]) -> Result<Frame, WireFault>
    ensures reads { Reads bits.now result }
{
    let front = find_front(bits)?;
    if front.end < bits.len() {
        return Err(WireFault::Tail { place: front.end });
    }
    Ok(front.frame)
}

/// The frame whose wire these bits are.
///
/// The bits are read from left to right, and the first wrong place decides. A sixth equal bit is found
/// where a stuff bit is due, any other wrong bit where it stands. The CRC sequence is tested behind the
/// stuffed part and before the CRC delimiter. It takes no memory, and so never answers `Memory`.
pub fn read_wire(_alloc: Global, bits: &[bool]) -> Result<Frame, WireFault>
    ensures reads { Reads bits.now result }
    ensures only { (answer : Result DataFrame WireFault) → Reads bits.now answer → result ≡ answer }
{
    read(bits)
}
