//! Why bytes are no system file.

ghost use Rattle.std.specs.Prelude.{◌≡◌, IfOk, Some};
ghost use Rattle.std.specs.String.{string_bytes};
ghost use Rattle.system_file.specs.SystemText.{shown_character, shown_path, system_fault_line, system_fault_text};

use std::alloc::{AllocError, AllocFailed, Global};
use std::error::Error;
use std::fmt;
use std::marker::Model;

/// The path of a key of the system file, as `bus.cycle` or `async.0.id`. Keys stand in it as they
/// are in the file. Contracts see its bytes.
#[derive(Drop, Debug)]
pub struct PathText {
    text: String,
}

impl Model for PathText {
    ghost use Rattle.std.specs.Prelude.{List, ℕ};
    ghost use Rattle.std.specs.String.{string_bytes};

    ghost Value = { List ℕ };

    ghost view = { λ p. string_bytes p.text };
}

impl PathText {
    /// The path that the text writes.
    pub fn of(text: String) -> PathText
        ensures bytes { result ≡ string_bytes text }
    {
        PathText { text }
    }

    /// The path as a text, with its keys as they are in the file.
    pub fn as_str(&self) -> &str
        ensures bytes { result.now ≡ self.now }
    {
        self.text.as_str()
    }
}

/// A character as a path shows it.
fn shown(character: char) -> char
    ensures shown { result ≡ shown_character character }
{
    if character.is_control() {
        '?'
    } else {
        character
    }
}

/// The path with `?` in place of each control character, which are those of the Unicode category
/// Cc.
impl fmt::Display for PathText {
    ghost output = { λ path. Some (shown_path path) };

    fn fmt<W: fmt::Write>(&self, f: &mut fmt::Formatter<W>) -> fmt::Result {
        for character in self.as_str().chars() {
            f.write_char(shown(character))?;
        }
        Ok(())
    }
}

/// Why bytes are no system file.
#[derive(Drop, Debug)]
pub enum SystemFault {
    /// The bytes are not TOML in UTF-8.
    Toml,
    /// A key is unknown or missing, or what stands there is of another kind.
    Key { path: PathText },
    /// A value is out of its range, or an identifier has an owner already.
    Range { path: PathText },
    /// The longest trigger, the turnaround and the largest synchronous window need more bit times
    /// than the elementary cycle has.
    Narrow { need: u32, have: u32 },
    /// Memory ran out.
    Memory,
}

impl fmt::Display for SystemFault {
    ghost output = { λ fault. Some (system_fault_text fault) };

    fn fmt<W: fmt::Write>(&self, f: &mut fmt::Formatter<W>) -> fmt::Result {
        match self {
            SystemFault::Toml => write!(f, "toml"),
            SystemFault::Key { path } => write!(f, "key {path}"),
            SystemFault::Range { path } => write!(f, "range {path}"),
            SystemFault::Narrow { need, have } => write!(f, "narrow {need} {have}"),
            SystemFault::Memory => write!(f, "out of memory"),
        }
    }
}

impl Error for SystemFault {}

impl From<AllocError> for SystemFault {
    ghost use Rattle.std.specs.Prelude.{◌≡◌};
    ghost use Rattle.system_file.specs.declared.system_fault.SystemFault.TheVariants.{Memory};

    ghost from_gives = { λ _ e. e ≡ Memory };

    fn from(_: AllocError) -> SystemFault {
        SystemFault::Memory
    }
}

impl<T: Drop> From<AllocFailed<T>> for SystemFault {
    ghost use Rattle.std.specs.Prelude.{◌≡◌};
    ghost use Rattle.system_file.specs.declared.system_fault.SystemFault.TheVariants.{Memory};

    ghost from_gives = { λ _ e. e ≡ Memory };

    fn from(_: AllocFailed<T>) -> SystemFault {
        SystemFault::Memory
    }
}

impl SystemFault {
    /// The line that tells the fault to a user, with its line feed.
    ///
    /// # Errors
    ///
    /// Only where memory ran out.
    pub fn message(&self, alloc: Global) -> Result<String, AllocError>
        ensures line { IfOk result (λ text. string_bytes text ≡ system_fault_line self.now) }
    {
        match self {
            SystemFault::Memory => format!(in alloc; "{self}\n"),
            _ => format!(in alloc; "system: {self}\n"),
        }
    }
}
