//! Calls of `async_window`.

ghost use Rattle.trigger_kind.specs.Kind.{IsSlots};

use crate::layouts::{after_layout, layout};
use crate::requests::{are_in_order, requests};
use crate::values::{text_of_offer, text_of_stay};
use async_window::Mailboxes;
use cases::{CaseTable, Fault, cut, hexadecimal, length, text_of_frame, time};
use cycle_layout::Layout;
use std::alloc::Global;

/// The mailboxes of 0x201 and 0x200, in a layout.
#[derive(Drop)]
struct Waiting {
    layout: Layout,
    boxes: Mailboxes,
}

/// Requests that wait in mailboxes, from one line that gives them to the next.
#[derive(Drop)]
pub struct WaitingMail {
    waiting: Option<Waiting>,
}

impl WaitingMail {
    /// No mailboxes.
    pub fn new() -> WaitingMail {
        WaitingMail { waiting: None }
    }
}

impl CaseTable for WaitingMail {
    ghost use Rattle.std.specs.Prelude.{⊤};

    ghost IsReady = { λ _. ⊤ };

    fn answer(&mut self, alloc: Global, given: &str) -> Result<String, Fault> {
        let (word, fields) = cut(given, ' ');
        match word {
            "new" => self.renew(alloc, fields, 40),
            "96" => match fields.strip_prefix("new ") {
                Some(fields) => self.renew(alloc, fields, 96),
                None => Err(Fault::Unread),
            },
            _ => match &mut self.waiting {
                Some(waiting) => waiting.answer(alloc, word, fields),
                None => Err(Fault::Unread),
            },
        }
    }
}

impl WaitingMail {
    /// Requests that wait in a layout with so many slots. The answer is how many there are.
    fn renew(&mut self, alloc: Global, fields: &str, slots: u8) -> Result<String, Fault>
        requires slots { IsSlots slots }
    {
        let layout = layout(fields, slots)?;
        let boxes = mailboxes(alloc, after_layout(fields))?;
        let left = boxes.left();
        self.waiting = Some(Waiting { layout, boxes });
        Ok(format!(in alloc; "{left}")?)
    }
}

/// The mailboxes of 0x201 and 0x200 with these requests.
fn mailboxes(alloc: Global, fields: &str) -> Result<Mailboxes, Fault> {
    let requests = requests(alloc, fields)?;
    if !are_in_order(requests.as_slice()) {
        return Err(Fault::Unread);
    }
    Ok(Mailboxes::new(alloc, &[0x201, 0x200], requests.as_slice())?)
}

impl Waiting {
    /// What a call answers.
    fn answer(&mut self, alloc: Global, word: &str, fields: &str) -> Result<String, Fault> {
        match word {
            "at" => self.offer_and_wake(alloc, fields),
            "until" => self.offer_until(alloc, fields),
            "head" => self.head(alloc, hexadecimal(fields)?),
            "sent" => self.sent(alloc, hexadecimal(fields)?),
            "take" => self.take(alloc, hexadecimal(fields)?),
            _ => Err(Fault::Unread),
        }
    }

    /// The identifier that is offered at a time, and when something is offered behind it.
    fn offer_and_wake(&self, alloc: Global, fields: &str) -> Result<String, Fault> {
        let (at, l) = cut(fields, ' ');
        let (at, l) = (time(at)?, length(l)?);
        if l > self.layout.window() {
            return Err(Fault::Unread);
        }
        let offer = self.boxes.offer(&self.layout, at, l);
        text_of_offer(alloc, offer, self.boxes.wake(&self.layout, at, l))
    }

    /// The same by the calls that are told the cycle, and how long it is offered.
    fn offer_until(&self, alloc: Global, fields: &str) -> Result<String, Fault> {
        let (at, l) = cut(fields, ' ');
        let (at, l) = (time(at)?, length(l)?);
        if l > self.layout.window() {
            return Err(Fault::Unread);
        }
        let layout = &self.layout;
        let cycle = at / u64::from(layout.cycle());
        let offer = self.boxes.offer_in(layout, cycle, at, l);
        let wake = self.boxes.wake_in(layout, cycle, at, l);
        let until = match self.boxes.offer_until(layout, cycle, at, l) {
            Some(offer) => Some(offer.until),
            None => None,
        };
        text_of_stay(alloc, offer, wake, until)
    }

    /// The first frame of an identifier.
    fn head(&self, alloc: Global, id: u16) -> Result<String, Fault> {
        match self.boxes.head(id) {
            Some(frame) => text_of_frame(alloc, &frame),
            None => Ok(String::from_str(alloc, "-")?),
        }
    }

    /// Takes the first request of an identifier, where there is one. The answer is whether there was, and how many are left.
    fn take(&mut self, alloc: Global, id: u16) -> Result<String, Fault> {
        let taken = self.boxes.take(id);
        Ok(format!(in alloc; "{taken} {}", self.boxes.left())?)
    }

    /// Takes the first request of an identifier away. The answer is how many requests are left.
    fn sent(&mut self, alloc: Global, id: u16) -> Result<String, Fault> {
        match self.boxes.head(id) {
            Some(_) => self.boxes.sent(id),
            None => return Err(Fault::Unread),
        }
        Ok(format!(in alloc; "{}", self.boxes.left())?)
    }
}
