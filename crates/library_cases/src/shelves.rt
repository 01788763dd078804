//! Fetching from shelves.

use crate::marks::plain;
use ftt_io::{FileShelf, MemShelf, Shelf};
use std::alloc::{AllocError, Global};

/// Fetches as a line says, by a name and a limit, and tells the text or the fault.
fn fetch<S: Shelf>(
    alloc: Global,
    shelf: &mut S,
    line: &str,
    told: &mut String,
) -> Result<(), AllocError> {
    let line = plain(alloc, line)?;
    let (name, limit) = line.as_str().rsplit_once(' ').unwrap_or(("", ""));
    match shelf.fetch(alloc, name, limit.parse().unwrap_or(0)) {
        Ok(bytes) => {
            let text = str::from_utf8(bytes.as_slice()).unwrap_or("no text");
            write!(told, "{text:?}")
        }
        Err(fault) => write!(told, "{fault}"),
    }
}

/// A shelf in memory with a file `steps`, whose fetch of number 3, from 0, fails.
fn shelf_in_memory(alloc: Global) -> Result<MemShelf, AllocError> {
    let name = String::from_str(alloc, "steps")?;
    let files = vec![in alloc; (name, b"cycle,1".to_vec(alloc)?)]?;
    Ok(MemShelf::new(files, vec![in alloc; 3]?))
}

/// Fetches by the lines from a shelf in memory, and tells the count of faults after each fetch.
pub fn fetched_from_memory(
    alloc: Global,
    given: &str,
    told: &mut String,
) -> Result<(), AllocError> {
    let mut shelf = shelf_in_memory(alloc)?;
    for line in given.lines() {
        fetch(alloc, &mut shelf, line, told)?;
        writeln!(told, ", {} faults", shelf.faults())?;
    }
    Ok(())
}

/// Fetches by the lines from the files of the system.
pub fn fetched_from_files(
    rt: &HostRuntime,
    given: &str,
    told: &mut String,
) -> Result<(), AllocError> {
    let mut shelf = FileShelf::new(rt);
    for line in given.lines() {
        fetch(rt.alloc(), &mut shelf, line, told)?;
        writeln!(told)?;
    }
    Ok(())
}
