//! The frames of recorded lines: each file has the bits of a bus, one for each bit time, as text of
//! `0` and `1`, and each frame that is read from them is a row.
#![tactic(auto)]

mod bits_text;
mod listing;
mod rows;
mod stop;

use ftt_io::{FileShelf, StdSink};
use listing::{Listing, list_file};
use std::env;
use std::io::{self, BufWriter};
use std::process::ExitCode;
use stop::ListingStop;

/// The room for output that is gathered, in bytes.
const GATHERED: usize = 65_536;

fn main(rt: HostRuntime) -> ExitCode {
    match call(&rt) {
        Ok(Listing::Whole) => ExitCode::from(0),
        Ok(Listing::Broken) => ExitCode::from(7),
        Err(stop) => {
            let _ = eprintln!(rt; "{stop}");
            ExitCode::from(stop.code())
        }
    }
}

/// Lists the frames of each file that the words name, in their order, up to the first file that is not
/// read. `Broken` tells that the bits of some file are the line of no frames.
fn call(rt: &HostRuntime) -> Result<Listing, ListingStop> {
    let alloc = rt.alloc();
    let names = names(rt)?;
    let Ok(writer) = BufWriter::with_capacity(alloc, GATHERED, io::writer(rt)) else {
        return Err(ListingStop::Memory);
    };
    let mut shelf = FileShelf::new(rt);
    let mut out = StdSink::over(writer);
    let mut all = Listing::Whole;
    for name in &names {
        if list_file(alloc, name.as_str(), &mut shelf, &mut out)? == Listing::Broken {
            all = Listing::Broken;
        }
    }
    out.flush()?;
    Ok(all)
}

/// The words of this call after the program's name: one at least, and each is UTF-8.
fn names(rt: &HostRuntime) -> Result<Vec<String>, ListingStop> {
    match env::args(rt) {
        Ok(all) => {
            let names: Vec<String> = all.skip(1).collect(rt.alloc())?;
            if names.is_empty() {
                Err(ListingStop::Words)
            } else {
                Ok(names)
            }
        }
        Err(_) => Err(ListingStop::Words),
    }
}
