//! The sink over a writer of std. It tells the bytes that its writer tells, and the streams of the system tell none.
ghost use Rattle.std.specs.Prelude.{◌≡◌, ◌≤◌, [], OnOk, OnErr};
ghost use Rattle.std.specs.Io.Buffered.{writer_buffer, writer_contents};
ghost use Rattle.ftt_io.specs.Counts.{next_count, Rose};
ghost use Rattle.ftt_io.specs.Puts.{Stays};

use crate::put::{Failed, Sink};
use std::io::{BufWriter, Write};
use std::marker::Model;

/// A sink over a writer. It is seen as the writer and its count of faults.
#[derive(Drop)]
pub struct StdSink<W> {
    writer: W,
    faults: u64,
}

impl<W> Model for StdSink<W> {
    ghost use Rattle.ftt_io.specs.StdSink.{StdSinkState};

    ghost Value = { StdSinkState W };

    ghost view = { λ sink. record {
      writer = sink.writer;
      faults = sink.faults;
    } };
}

impl<W: Write + Drop> StdSink<W> {
    /// A sink that puts to the writer. Each error of the writer counts as a fault, and so does a
    /// write that takes nothing.
    pub fn over(writer: W) -> StdSink<W>
        ensures writer { result.writer ≡ writer }
        ensures faults { result.faults ≡ 0 }
    {
        StdSink { writer, faults: 0 }
    }
}

impl<W: Write + Drop> StdSink<BufWriter<W>> {
    /// Writes what the gathering writer holds back. At `Ok` it holds back nothing; `Failed` where
    /// the stream has an error.
    pub fn flush(&mut self) -> Result<(), Failed>
        ensures all { OnOk result (writer_buffer self.new.writer ≡ []) }
        ensures stays { Stays (writer_contents W.contents self.old.writer)
            (writer_contents W.contents self.new.writer) }
        ensures done { OnOk result (self.new.faults ≡ self.old.faults) }
        ensures failed { OnErr result (Rose self.old.faults self.new.faults) }
        ensures faults_never_fall { self.old.faults ≤ self.new.faults }
    {
        if self.writer.flush().is_err() {
            return Err(count_fault(&mut self.faults));
        }
        Ok(())
    }
}

impl<W: Write + Drop> Sink for StdSink<W> {
    ghost told_bytes = { λ sink. W.contents sink.writer };

    ghost faults = { λ sink. sink.faults };

    #[inline(always)]
    fn put(&mut self, piece: &[u8]) -> Result<usize, Failed> {
        let taken = self.writer.write(piece).unwrap_or(0);
        if taken == 0 {
            return Err(count_fault(&mut self.faults));
        }
        Ok(taken)
    }

    fn pass_on(&mut self) -> Result<(), Failed> {
        match self.writer.flush() {
            Ok(()) => Ok(()),
            Err(_) => Err(count_fault(&mut self.faults)),
        }
    }
}

/// Counts a fault, and answers it.
#[cold]
fn count_fault(faults: &mut u64) -> Failed
    ensures raised { faults.new ≡ next_count faults.old }
    ensures never_falls { faults.old ≤ faults.new }
{
    *faults = faults.saturating_add(1);
    Failed
}
