//! Calls of `arbitration`.

ghost use Rattle.std.specs.Prelude.{◌<◌, All};

use arbitration::{Contenders, arbitrate};
use cases::{CaseTable, Fault, cut, hexadecimal};
use std::alloc::Global;

/// Senders that begin together. They are the same list for all lines, which is cleared for each.
#[derive(Drop)]
pub struct Senders {
    contenders: Contenders,
}

impl Senders {
    /// No senders.
    pub fn new() -> Senders {
        Senders {
            contenders: Contenders::new(),
        }
    }
}

impl CaseTable for Senders {
    ghost use Rattle.std.specs.Prelude.{⊤};

    ghost IsReady = { λ _. ⊤ };

    fn answer(&mut self, alloc: Global, given: &str) -> Result<String, Fault> {
        let (word, ids) = cut(given, ' ');
        match word {
            "arbitrate" => {
                self.contenders.clear();
                contend(&mut self.contenders, ids)?;
                told(alloc, &self.contenders)
            }
            _ => Err(Fault::Unread),
        }
    }
}

/// Adds the senders of these identifiers to none.
fn contend(contenders: &mut Contenders, ids: &str) -> Result<(), Fault>
    requires eleven_bits { All (λ id. id < 0x800) contenders.old }
    ensures eleven_bits { All (λ id. id < 0x800) contenders.new }
{
    if ids.is_empty() {
        return Ok(());
    }
    for id in ids.split(' ') {
        push(contenders, hexadecimal(id)?)?;
    }
    Ok(())
}

/// Adds a sender.
fn push(contenders: &mut Contenders, id: u16) -> Result<(), Fault>
    requires eleven_bits { All (λ id. id < 0x800) contenders.old }
    ensures eleven_bits { All (λ id. id < 0x800) contenders.new }
{
    let has_room = contenders.ids().len() < 32;
    let is_other = !contenders.ids().contains(&id);
    if has_room && is_other && id < 0x800 {
        contenders.push(id);
        Ok(())
    } else {
        Err(Fault::Unread)
    }
}

/// The place of the sender that is left, and all senders.
fn told(alloc: Global, contenders: &Contenders) -> Result<String, Fault>
    requires eleven_bits { All (λ id. id < 0x800) contenders.now }
{
    let Some(place) = arbitrate(contenders.ids()) else {
        return Ok(String::from_str(alloc, "none")?);
    };
    let mut text = format!(in alloc; "place {place} of")?;
    for id in contenders.ids() {
        write!(text, " {id:03x}")?;
    }
    Ok(text)
}
