//! What follows from the definitions, each as the contract of a function that does nothing.

ghost use Rattle.std.specs.Prelude.{◌≡◌, ℕ, ◌+◌, ◌*◌, ◌<◌, ◌≤◌, Bool, List, ◌∷◌, drop, length, Result, Ok};
ghost use Rattle.profile.specs.Limits.{shortest_frame};
ghost use Rattle.stuff_bound.specs.Stuffing.{worst};
ghost use Rattle.can_frame.specs.declared.data_frame.Front.{Front};
ghost use Rattle.can_frame.specs.declared.wire_fault.WireFault.{WireFault};
ghost use Rattle.can_frame.specs.DataFrame.{DataFrame, IsFrame};
ghost use Rattle.can_frame.specs.Crc.{IsRemainder, IsSequence, sequence_of};
ghost use Rattle.can_frame.specs.Wire.{dominant, wire_of, wire_length};
ghost use Rattle.can_frame.specs.Reading.{Reads, ReadsFront};

/// Division by the generator leaves one remainder, and `sequence_of` computes it.
pub fn one_crc_sequence()
    ensures there { (covered : List Bool) → IsSequence covered (sequence_of covered) }
    ensures one { (dividend first second : ℕ) → IsRemainder dividend first → IsRemainder dividend second
        → first ≡ second }
{}

/// A wire is not empty, and its length is from 47 + 8n to 55 + 10n bits, where n is the number of bytes.
pub fn wire_lengths()
    ensures not_empty { (frame : DataFrame) → 0 < wire_length frame }
    ensures at_least { (frame : DataFrame) → shortest_frame + 8 * length frame.bytes ≤ wire_length frame }
    ensures at_most { (frame : DataFrame) → wire_length frame ≤ worst (length frame.bytes) }
{}

/// Bits have one answer, and two frames never have one wire.
pub fn one_answer()
    ensures one { (bits : List Bool) (first second : Result DataFrame WireFault) → Reads bits first
        → Reads bits second → first ≡ second }
    ensures read_back { (frame : DataFrame) (answer : Result DataFrame WireFault) → IsFrame frame
        → Reads (wire_of frame) answer → answer ≡ Ok frame }
    ensures one_frame { (first second : DataFrame) → IsFrame first → IsFrame second
        → wire_of first ≡ wire_of second → first ≡ second }
{}

/// Bits have one answer as to the frame at their front, and a wire begins with a dominant bit.
pub fn one_front()
    ensures one { (bits : List Bool) (first second : Result Front WireFault) → ReadsFront bits first
        → ReadsFront bits second → first ≡ second }
    ensures starts { (frame : DataFrame) → wire_of frame ≡ dominant ∷ drop 1 (wire_of frame) }
{}
