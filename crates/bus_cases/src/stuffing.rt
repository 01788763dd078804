//! Calls of `stuff_bound`.

ghost use Rattle.std.specs.Prelude.{◌+◌, ◌≤◌, IfOk};

use crate::bits::{bits, text_of_bits};
use cases::{CaseTable, Fault, bytes, cut, length, small};
use std::alloc::Global;
use stuff_bound::{BitRun, Sender, bound, stuff, stuffed_len, stuffed_len_bytes, unstuff};

/// Bits that are stuffed, and how long they are.
#[derive(Drop)]
pub struct Stuffing;

impl CaseTable for Stuffing {
    ghost use Rattle.std.specs.Prelude.{⊤};

    ghost IsReady = { λ _. ⊤ };

    fn answer(&mut self, alloc: Global, given: &str) -> Result<String, Fault> {
        let (word, fields) = cut(given, ' ');
        match word {
            "stuff" => stuffed(alloc, fields),
            "unstuff" => unstuffed(alloc, fields),
            "run" => run_after(alloc, fields),
            "length" => length_of(alloc, fields),
            "sender" => sender(alloc, fields),
            "bound" => longest(alloc, fields),
            _ => Err(Fault::Unread),
        }
    }
}

/// The stuffed bits, and how many there are by the count that takes no memory.
fn stuffed(alloc: Global, field: &str) -> Result<String, Fault> {
    let plain = bits(alloc, field)?;
    if plain.len() > 1_000 {
        return Err(Fault::Unread);
    }
    let text = text_of_bits(alloc, stuff(alloc, plain.as_slice())?.as_slice())?;
    Ok(format!(in alloc; "{text} {}", stuffed_len(plain.as_slice()))?)
}

/// The bits that were stuffed, or the fault.
fn unstuffed(alloc: Global, field: &str) -> Result<String, Fault> {
    match unstuff(alloc, bits(alloc, field)?.as_slice()) {
        Ok(plain) => text_of_bits(alloc, plain.as_slice()),
        Err(fault) => Ok(format!(in alloc; "{fault}")?),
    }
}

/// Whether five equal bits came last, the opposite of the last one, and whether a dominant or a recessive bit would be a
/// sixth one.
fn run_after(alloc: Global, field: &str) -> Result<String, Fault> {
    let run = run_of(bits(alloc, field)?.as_slice());
    let (is_full, opposite) = (run.is_full(), run.opposite());
    let (dominant, recessive) = (run.is_sixth(false), run.is_sixth(true));
    Ok(format!(in alloc; "{is_full} {opposite} {dominant} {recessive}")?)
}

/// The run of equal bits that came last.
fn run_of(sent: &[bool]) -> BitRun {
    let mut run = BitRun::new();
    for bit in sent {
        run = run.then(*bit);
    }
    run
}

/// The stuffed length of the first bits of some bytes: their number, and the bytes.
fn length_of(alloc: Global, fields: &str) -> Result<String, Fault> {
    let (count, data) = cut(fields, ' ');
    let count = length(count)?;
    let bytes = bytes(alloc, data)?;
    if bytes.len() > 100 || count as usize > 8 * bytes.len() {
        return Err(Fault::Unread);
    }
    Ok(format!(in alloc; "{}", stuffed_len_bytes(bytes.as_slice(), count))?)
}

/// The stuff bits of a sender that was given bytes, after at most two fields of fewer bits. The bytes stand before the
/// fields, each of which is a width and a number.
fn sender(alloc: Global, fields: &str) -> Result<String, Fault> {
    let (data, rest) = cut(fields, ' ');
    let (width, rest) = cut(rest, ' ');
    let (value, rest) = cut(rest, ' ');
    let (other_width, other_value) = cut(rest, ' ');
    let sender = put(Sender::new(), width, value)?;
    let sender = put(sender, other_width, other_value)?;
    let bytes = bytes(alloc, data)?;
    if bytes.len() > 100 {
        return Err(Fault::Unread);
    }
    Ok(format!(in alloc; "{}", sender.then_bytes(bytes.as_slice()).stuff_bits())?)
}

/// A sender that was given a field too, where there is one.
fn put(sender: Sender, width: &str, value: &str) -> Result<Sender, Fault>
    requires few { sender.stuff_bits ≤ 10 }
    ensures few { IfOk result (λ after. after.stuff_bits ≤ sender.stuff_bits + 2) }
{
    if width.is_empty() {
        return Ok(sender);
    }
    let (width, value) = (small(width)?, small(value)?);
    if width > 8 || u16::from(value) >= 1 << width {
        return Err(Fault::Unread);
    }
    Ok(sender.then(u32::from(width), value))
}

/// The worst length of a frame of so many bytes.
fn longest(alloc: Global, field: &str) -> Result<String, Fault> {
    let count = small(field)?;
    if count > 8 {
        return Err(Fault::Unread);
    }
    Ok(format!(in alloc; "{}", bound(count))?)
}
