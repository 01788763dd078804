//! The program: words, files, streams and threads of the operating system, given to [`fttcan_top::plain`] or
//! [`fttcan_top::live`], and to [`fttcan_top::flushed`].
#![tactic(auto)]

use command_words::Verb;
use ftt_io::{FileShelf, StdSink, write_all};
use fttcan_top::{OpenGate, Status, flushed, live, plain};
use std::env;
use std::io::{self, BufWriter, ErrorKind};
use std::process::ExitCode;
use std::sync::Wait;
use std::thread::Threads;

/// The room for output that is gathered, in bytes. A row of the log has about forty, so some 800 rows go with one
/// call of the system.
const GATHERED: usize = 32_768;

fn main(rt: HostRuntime) -> ExitCode {
    ExitCode::from(call(&rt, &rt).code())
}

/// Carries out the words of this call, by these threads where they ask for that.
fn call<T: Threads + Wait + Sync>(rt: &HostRuntime, threads: &T) -> Status {
    let Ok(words) = words(rt) else {
        return stopped(rt, "out of memory\n", Status::Memory);
    };
    let Ok(writer) = BufWriter::with_capacity(rt.alloc(), GATHERED, io::writer(rt)) else {
        return stopped(rt, "out of memory\n", Status::Memory);
    };
    let mut shelf = FileShelf::new(rt);
    let mut out = StdSink::over(writer);
    let mut err = StdSink::over(rt.stderr());
    let alloc = rt.alloc();
    let words = words.as_slice();
    let status = if asks_for_threads(words) {
        live(
            threads, alloc, words, &mut shelf, &mut out, &mut err, &OpenGate,
        )
    } else {
        plain(alloc, words, &mut shelf, &mut out, &mut err)
    };
    flushed(status, &mut out, &mut err)
}

/// Whether the words are those of a command that runs by threads: the first one says so.
fn asks_for_threads(words: &[String]) -> bool {
    match words.first() {
        Some(name) => Verb::named(true, name.as_str()).is_some(),
        None => false,
    }
}

/// The words of this call after the program's name. Words that are not UTF-8 count as none, which is no command.
fn words(rt: &HostRuntime) -> io::Result<Vec<String>> {
    match env::args(rt) {
        Ok(all) => Ok(all.skip(1).collect(rt.alloc())?),
        Err(fault) if fault.kind() == ErrorKind::InvalidData => Ok(Vec::new(rt.alloc())),
        Err(fault) => Err(fault),
    }
}

/// Says why the call ended with this status.
fn stopped(rt: &HostRuntime, message: &str, status: Status) -> Status {
    let _ = write_all(&mut StdSink::over(rt.stderr()), message.as_bytes());
    status
}
