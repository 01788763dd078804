//! The cases that are asked for.

use crate::tables::{TABLES, Topic};
use cases::words;
use std::alloc::{AllocError, Global};
use std::{fs, io};

/// Where the files of the tables stand.
const TABLES_FOLDER: &str = "tables";

/// What is run: the folder of a call, or the file of a table.
#[derive(Clone, Copy)]
pub enum RunKind {
    Call,
    Cases(Topic),
}

/// The paths that the words of this call name, without the `.txt` of a table, or all of them where there are no words:
/// those of the calls first, in the order of their names, and then those of the tables.
pub fn asked_cases(rt: &HostRuntime) -> io::Result<Vec<String>> {
    let words = words(rt)?;
    if words.is_empty() {
        all_cases(rt)
    } else {
        Ok(words)
    }
}

/// What is run for a path.
pub fn kind_of(path: &str) -> RunKind {
    let Some((folder, last)) = path.split_once('/') else {
        return RunKind::Call;
    };
    for (name, topic) in TABLES {
        if folder == TABLES_FOLDER && last == name {
            return RunKind::Cases(topic);
        }
    }
    RunKind::Call
}

/// All calls two levels below this folder, in the order of their names, and all tables.
fn all_cases(rt: &HostRuntime) -> io::Result<Vec<String>> {
    let mut cases = Vec::new(rt.alloc());
    add_groups(rt, &mut cases)?;
    add_tables(rt.alloc(), &mut cases)?;
    Ok(cases)
}

/// Adds the calls of all groups.
fn add_groups(rt: &HostRuntime, cases: &mut Vec<String>) -> io::Result<()> {
    let groups = names_in(rt, ".")?;
    for group in groups.iter() {
        if fs::metadata(rt, group.as_str())?.is_dir() {
            add_calls(rt, group.as_str(), cases)?;
        }
    }
    Ok(())
}

/// Adds the calls of a group.
fn add_calls(rt: &HostRuntime, group: &str, cases: &mut Vec<String>) -> io::Result<()> {
    let names = names_in(rt, group)?;
    for name in names.iter() {
        add_call(rt, group, name.as_str(), cases)?;
    }
    Ok(())
}

/// Adds the call of a group that has this name, where it is one.
fn add_call(rt: &HostRuntime, group: &str, name: &str, cases: &mut Vec<String>) -> io::Result<()> {
    let folder = format!(in rt.alloc(); "{group}/{name}")?;
    if is_call(rt, folder.as_str())? {
        cases.push(folder)?;
    }
    Ok(())
}

/// Adds the tables.
fn add_tables(alloc: Global, cases: &mut Vec<String>) -> Result<(), AllocError> {
    for (name, _) in TABLES {
        cases.push(format!(in alloc; "{TABLES_FOLDER}/{name}")?)?;
    }
    Ok(())
}

/// Whether something is expected of the folder.
fn is_call(rt: &HostRuntime, folder: &str) -> Result<bool, AllocError> {
    Ok(has_file(rt, folder, "expected.log")? || has_file(rt, folder, "expected.err")?)
}

/// Whether the folder has a file of this name.
fn has_file(rt: &HostRuntime, folder: &str, name: &str) -> Result<bool, AllocError> {
    let path = format!(in rt.alloc(); "{folder}/{name}")?;
    Ok(fs::metadata(rt, path.as_str()).is_ok())
}

/// The names in a folder, in the order of their bytes.
fn names_in(rt: &HostRuntime, folder: &str) -> io::Result<Vec<String>> {
    let mut names = Vec::new(rt.alloc());
    for entry in fs::read_dir(rt, folder)? {
        names.push(String::from_str(rt.alloc(), entry?.file_name())?)?;
    }
    names.sort()?;
    Ok(names)
}
