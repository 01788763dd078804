//! Putting bytes to a sink.
ghost use Rattle.std.specs.Prelude.{◌≡◌, ℕ, ◌<◌, ◌≤◌, List, length, take, IfOk, OnOk, OnErr, Option};
ghost use Rattle.ftt_io.specs.Counts.{Rose};
ghost use Rattle.ftt_io.specs.Puts.{Stays, Puts, PutsPrefix};

use thiserror::Error;

/// The sink counted a fault.
#[derive(Clone, Copy, Debug, PartialEq, Eq, Error)]
#[error("the bytes can't be written")]
pub struct Failed;

/// What bytes are put to, piece by piece.
pub trait Sink {
    /// The bytes taken so far, where the sink tells them.
    ghost told_bytes: { Self → Option (List ℕ) };

    /// The count of faults.
    ghost faults: { Self → ℕ };

    /// Takes the first bytes of a piece that isn't empty, at least one, and answers how many. At
    /// `Failed` it took none.
    fn put(&mut self, piece: &[u8]) -> Result<usize, Failed>
        requires { 0 < length piece.now }
        ensures faults_never_fall { faults self.old ≤ faults self.new }

        // At `Ok`.
        ensures some { IfOk result (λ n. 0 < n) }
        ensures within { IfOk result (λ n. n ≤ length piece.now) }
        ensures puts { IfOk result
            (λ n. Puts (told_bytes self.old) (told_bytes self.new) (take n piece.now)) }

        // At `Failed`.
        ensures failed { OnErr result (Rose (faults self.old) (faults self.new)) }
        ensures nothing { OnErr result (Stays (told_bytes self.old) (told_bytes self.new)) };

    /// Passes on what the sink holds back of the bytes that it took, so that a reader behind it sees
    /// them now. It takes no byte, and gives back none. What is passed on, and what stays held back
    /// at `Failed`, no clause says.
    fn pass_on(&mut self) -> Result<(), Failed>
        ensures faults_never_fall { faults self.old ≤ faults self.new }
        ensures failed { OnErr result (Rose (faults self.old) (faults self.new)) }
        ensures stays { Stays (told_bytes self.old) (told_bytes self.new) };
}

/// Puts all of the bytes, in as many pieces as the sink makes of them. At `Failed` it put those
/// before the piece that failed.
///
/// A sink that takes them at once, as one that gathers bytes does, costs one call.
#[inline(always)]
pub fn write_all<O: Sink>(sink: &mut O, bytes: &[u8]) -> Result<(), Failed>
    ensures faults_never_fall { O.faults sink.old ≤ O.faults sink.new }
    ensures all { OnOk result (Puts (O.told_bytes sink.old) (O.told_bytes sink.new) bytes.now) }
    ensures failed { OnErr result (Rose (O.faults sink.old) (O.faults sink.new)) }
    ensures prefix { OnErr result
        (PutsPrefix (O.told_bytes sink.old) (O.told_bytes sink.new) bytes.now) }
{
    if bytes.is_empty() {
        return Ok(());
    }
    let taken = sink.put(bytes)?;
    if taken == bytes.len() {
        return Ok(());
    }
    write_rest(sink, &bytes[taken..])
}

/// Puts the bytes that a first piece has left.
#[cold]
#[inline(never)]
fn write_rest<O: Sink>(sink: &mut O, bytes: &[u8]) -> Result<(), Failed>
    ensures faults_never_fall { O.faults sink.old ≤ O.faults sink.new }
    ensures all { OnOk result (Puts (O.told_bytes sink.old) (O.told_bytes sink.new) bytes.now) }
    ensures failed { OnErr result (Rose (O.faults sink.old) (O.faults sink.new)) }
    ensures prefix { OnErr result
        (PutsPrefix (O.told_bytes sink.old) (O.told_bytes sink.new) bytes.now) }
{
    let mut rest = bytes;
    while !rest.is_empty() {
        let taken = sink.put(rest)?;
        rest = &rest[taken..];
    }
    Ok(())
}
