//! The words of a program.

use std::rt::Env;
use std::{env, io};

/// The words of this call.
pub fn words<R: Env + AllocGlobal>(rt: &R) -> io::Result<Vec<String>> {
    Ok(env::args(rt)?.skip(1).collect(rt.alloc())?)
}
