//! Why a folder is no case.

use std::alloc::AllocError;
use std::io;
use thiserror::Error;

/// Why a folder is no case.
#[derive(Debug, Drop, Error)]
pub enum CaseFault {
    /// A file is there and was not read.
    #[error("{name}: {fault}")]
    File { name: String, fault: io::Error },
    /// A file is no text.
    #[error("{name}: no text")]
    Text { name: &'static str },
    /// A line of a file does not hold the number that should stand there.
    #[error("{name}: no number")]
    Number { name: &'static str },
    /// The file of calls is empty.
    #[error("calls: no call")]
    NoCall,
    /// Memory ran out.
    #[error("out of memory")]
    Memory(#[from(alloc)] AllocError),
}
