//! The fields of a line, and values as text. A list of nothing is `-`.

ghost use Rattle.std.specs.Prelude.{◌<◌, ◌^◌, IfOk};

use can_frame::{Frame, TimedFrame};
use std::alloc::{AllocError, AllocFailed, Global};
use std::io;

/// Why a case has no answer.
#[derive(Debug, Drop)]
pub enum Fault {
    /// What is given has no meaning.
    Unread,
    /// There was no memory.
    Memory,
    /// A file or a stream failed that the case does not speak of.
    Stream(io::Error),
}

impl From<io::Error> for Fault {
    fn from(fault: io::Error) -> Fault {
        Fault::Stream(fault)
    }
}

impl From<AllocError> for Fault {
    fn from(_failed: AllocError) -> Fault {
        Fault::Memory
    }
}

impl<T: Drop> From<AllocFailed<T>> for Fault {
    fn from(_failed: AllocFailed<T>) -> Fault {
        Fault::Memory
    }
}

/// What stands before the first mark of a text, and what stands after it. Without a mark that is the text, and nothing.
pub fn cut(text: &str, mark: char) -> (&str, &str) {
    text.split_once(mark).unwrap_or((text, ""))
}

/// The decimal number that a field writes.
fn number(field: &str) -> Result<u64, Fault> {
    match field.parse::<u64>() {
        Ok(number) => Ok(number),
        Err(_) => Err(Fault::Unread),
    }
}

/// The decimal number of 32 bits that a field writes.
pub fn length(field: &str) -> Result<u32, Fault> {
    match field.parse::<u32>() {
        Ok(number) => Ok(number),
        Err(_) => Err(Fault::Unread),
    }
}

/// The decimal number of 8 bits that a field writes.
pub fn small(field: &str) -> Result<u8, Fault> {
    match field.parse::<u8>() {
        Ok(number) => Ok(number),
        Err(_) => Err(Fault::Unread),
    }
}

/// The time that a field writes, in bit times.
pub fn time(field: &str) -> Result<u64, Fault>
    ensures below { IfOk result (λ at. at < 2 ^ 40) }
{
    let at = number(field)?;
    if at < 1 << 40 {
        Ok(at)
    } else {
        Err(Fault::Unread)
    }
}

/// The hexadecimal number that a field writes.
pub fn hexadecimal(field: &str) -> Result<u16, Fault> {
    match u16::from_str_radix(field, 16) {
        Ok(number) => Ok(number),
        Err(_) => Err(Fault::Unread),
    }
}

/// The bytes that a field writes, each by two hexadecimal digits.
pub fn bytes(alloc: Global, field: &str) -> Result<Vec<u8>, Fault> {
    if field == "-" {
        return Ok(Vec::new(alloc));
    }
    match hex::decode(alloc, field) {
        Ok(bytes) => Ok(bytes),
        Err(_) => Err(Fault::Unread),
    }
}

/// The text of a frame: its identifier, a hash sign and its bytes.
pub fn text_of_frame(alloc: Global, frame: &Frame) -> Result<String, Fault> {
    let mut text = format!(in alloc; "{:03x}#", frame.id())?;
    for byte in frame.bytes() {
        write!(text, "{byte:02x}")?;
    }
    Ok(text)
}

/// The text of frames on the bus: the start, the length and the identifier of each.
pub fn text_of_trace(alloc: Global, trace: &[TimedFrame]) -> Result<String, Fault> {
    let mut text = String::new(alloc);
    for sent in trace {
        push_sent(&mut text, sent)?;
    }
    Ok(text)
}

/// Puts the start, the length and the identifier of a frame behind those before it.
fn push_sent(text: &mut String, sent: &TimedFrame) -> Result<(), AllocError> {
    if !text.is_empty() {
        text.push(' ')?;
    }
    write!(text, "{}:{}:{:03x}", sent.start, sent.len, sent.frame.id())
}

/// Puts a part behind the parts before it, with a mark between two of them.
pub fn push_behind(text: &mut String, mark: char, part: &str) -> Result<(), Fault> {
    if !text.is_empty() {
        text.push(mark)?;
    }
    text.push_str(part)?;
    Ok(())
}
