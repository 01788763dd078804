//! The files of a case.

use crate::answer::CaseAnswer;
use crate::fault::CaseFault;
use std::alloc::{AllocError, Global};
use std::fs;
use std::io::ErrorKind;

/// The folder of a case.
#[derive(Drop)]
pub struct Folder<'a> {
    pub rt: &'a HostRuntime,
    pub path: &'a str,
}

impl Folder<'_> {
    /// The bytes of a file; nothing where there is no such file.
    pub fn bytes(&self, name: &str) -> Result<Option<Vec<u8>>, CaseFault> {
        let path = format!(in self.rt.alloc(); "{}/{name}", self.path)?;
        let fault = match fs::read(self.rt, path.as_str()) {
            Ok(bytes) => return Ok(Some(bytes)),
            Err(fault) => fault,
        };
        if is_absence(fault.kind()) {
            return Ok(None);
        }
        let name = String::from_str(self.rt.alloc(), name)?;
        Err(CaseFault::File { name, fault })
    }

    /// The bytes of a file; an empty list where there is no such file.
    fn bytes_or_none(&self, name: &str) -> Result<Vec<u8>, CaseFault> {
        match self.bytes(name)? {
            Some(bytes) => Ok(bytes),
            None => Ok(Vec::new(self.rt.alloc())),
        }
    }

    /// The text of a file; nothing where there is no such file.
    pub fn text(&self, name: &'static str) -> Result<Option<String>, CaseFault> {
        let Some(bytes) = self.bytes(name)? else {
            return Ok(None);
        };
        match String::from_utf8(bytes) {
            Ok(text) => Ok(Some(text)),
            Err(_) => Err(CaseFault::Text { name }),
        }
    }

    /// The numbers of a file, one a line; none where there is no such file.
    pub fn numbers(&self, name: &'static str) -> Result<Vec<u64>, CaseFault> {
        match self.text(name)? {
            Some(text) => numbers_in(self.rt.alloc(), name, text.as_str()),
            None => Ok(Vec::new(self.rt.alloc())),
        }
    }

    /// The one number of a file; this one where there is no such file.
    pub fn number(&self, name: &'static str, absent: u64) -> Result<u64, CaseFault> {
        match self.numbers(name)?.as_slice() {
            [] => Ok(absent),
            [number] => Ok(*number),
            _ => Err(CaseFault::Number { name }),
        }
    }

    /// The answer that is wanted.
    pub fn wanted(&self) -> Result<CaseAnswer, CaseFault> {
        Ok(CaseAnswer {
            status: self.number("status", 0)?,
            output: self.bytes_or_none("expected.log")?,
            errors: self.bytes_or_none("expected.err")?,
            faults: self.number("read-faults", 0)?,
        })
    }

    /// The words of each call. They stand in the file `calls`, else in the file `words`, else they are the usual ones.
    pub fn calls(&self) -> Result<Vec<Vec<String>>, CaseFault> {
        let alloc = self.rt.alloc();
        if let Some(text) = self.text("calls")? {
            return Ok(calls_in(alloc, text.as_str())?);
        }
        let words = match self.text("words")? {
            Some(text) => lines(alloc, text.as_str())?,
            None => self.usual_words()?,
        };
        Ok(vec![in alloc; words]?)
    }

    /// The words of a replay, with the requests where there are some.
    fn usual_words(&self) -> Result<Vec<String>, CaseFault> {
        let alloc = self.rt.alloc();
        let mut words = lines(alloc, "replay\nsystem.toml\nsteps.csv")?;
        if self.bytes("requests.csv")?.is_some() {
            words.push(String::from_str(alloc, "requests.csv")?)?;
        }
        Ok(words)
    }

    /// The input files that these words name, and those that the file `repeat` makes.
    pub fn inputs(&self, words: &[String]) -> Result<Vec<(String, Vec<u8>)>, CaseFault> {
        let mut files = Vec::new(self.rt.alloc());
        self.add_repeated(&mut files)?;
        for word in words {
            self.add_input(word, &mut files)?;
        }
        Ok(files)
    }

    /// Adds the input file of this name, where there is one.
    fn add_input(
        &self,
        name: &String,
        files: &mut Vec<(String, Vec<u8>)>,
    ) -> Result<(), CaseFault> {
        match self.bytes(name.as_str())? {
            Some(bytes) => Ok(add_file(name.clone()?, bytes, files)?),
            None => Ok(()),
        }
    }

    /// Adds the files that the file `repeat` makes: a line of it has a name, a count and the row that stands so often.
    fn add_repeated(&self, files: &mut Vec<(String, Vec<u8>)>) -> Result<(), CaseFault> {
        let Some(text) = self.text("repeat")? else {
            return Ok(());
        };
        for line in text.lines() {
            add_rows(self.rt.alloc(), line, files)?;
        }
        Ok(())
    }
}

/// The numbers of a file's text, one a line.
fn numbers_in(alloc: Global, name: &'static str, text: &str) -> Result<Vec<u64>, CaseFault> {
    let mut numbers = Vec::new(alloc);
    for line in text.lines() {
        match line.parse::<u64>() {
            Ok(number) => numbers.push(number)?,
            Err(_) => return Err(CaseFault::Number { name }),
        }
    }
    Ok(numbers)
}

/// Adds a file.
fn add_file(
    name: String,
    bytes: Vec<u8>,
    files: &mut Vec<(String, Vec<u8>)>,
) -> Result<(), AllocError> {
    files.push((name, bytes))?;
    Ok(())
}

/// Adds the file that a line of the file `repeat` makes.
fn add_rows(
    alloc: Global,
    line: &str,
    files: &mut Vec<(String, Vec<u8>)>,
) -> Result<(), CaseFault> {
    let Some((name, count, row)) = parts(line) else {
        return Err(CaseFault::Number { name: "repeat" });
    };
    let bytes = rows(alloc, row, count)?;
    Ok(add_file(String::from_str(alloc, name)?, bytes, files)?)
}

/// Whether a read failed since there is no such file.
fn is_absence(kind: ErrorKind) -> bool {
    matches!(
        kind,
        ErrorKind::NotFound | ErrorKind::IsADirectory | ErrorKind::NotADirectory
    )
}

/// The lines of a text.
fn lines(alloc: Global, text: &str) -> Result<Vec<String>, AllocError> {
    let mut list = Vec::new(alloc);
    for line in text.lines() {
        list.push(String::from_str(alloc, line)?)?;
    }
    Ok(list)
}

/// The words of a line, split at single blanks.
pub fn words(alloc: Global, line: &str) -> Result<Vec<String>, AllocError> {
    let mut list = Vec::new(alloc);
    for word in line.split(' ') {
        list.push(String::from_str(alloc, word)?)?;
    }
    Ok(list)
}

/// The words of each line.
fn calls_in(alloc: Global, text: &str) -> Result<Vec<Vec<String>>, AllocError> {
    let mut calls = Vec::new(alloc);
    for line in text.lines() {
        calls.push(words(alloc, line)?)?;
    }
    Ok(calls)
}

/// The name, the count and the row of a line of the file `repeat`.
fn parts(line: &str) -> Option<(&str, u32, &str)> {
    let (name, rest) = line.split_once(' ')?;
    let (count, row) = rest.split_once(' ')?;
    Some((name, count.parse().ok()?, row))
}

/// So many lines of this text.
fn rows(alloc: Global, row: &str, count: u32) -> Result<Vec<u8>, AllocError> {
    let mut file = Vec::new(alloc);
    for _ in 0..count {
        file.extend_from_slice(row.as_bytes())?;
        file.push(b'\n')?;
    }
    Ok(file)
}
