//! Certificates of a plan.

ghost use Rattle.std.specs.Prelude.{◌≡◌, ◌+◌, ◌<◌, ◌≤◌, length};
ghost use Rattle.plan_check.specs.Certificate.{length_of};

use requirement_table::Mask;
use std::marker::Model;

/// A plan of a table for ever: a mask for each cycle from its first cycle on, of which the last part is repeated.
/// Contracts see its numbers and the list of masks.
#[derive(Drop, Debug)]
pub struct Certificate {
    from: u64,
    pending: Mask,
    first: u64,
    masks: Vec<Mask>,
}

impl Model for Certificate {
    ghost use Rattle.std.specs.Prelude.{};
    ghost use Rattle.plan_check.specs.Certificate.{CertificateView, IsCertificate};

    ghost Value = { CertificateView };

    ghost view = { λ c. record { from = c.from; pending = c.pending; first = c.first; masks = c.masks.items } };

    ghost invariant = { λ c. IsCertificate c.from c.first c.masks.items };
}

impl Certificate {
    /// The certificate whose masks are those of the cycles from `from` on, before which the slots in `pending` have an
    /// instance that is not sent yet, and which are repeated from those of cycle `first` on. That cycle is one of the
    /// listed ones.
    pub fn new(from: u64, pending: Mask, first: u64, masks: Vec<Mask>) -> Certificate
        requires after { from ≤ first }
        requires within { first < from + length masks.items }
        ensures from { result.from ≡ from }
        ensures pending { result.pending ≡ pending }
        ensures first { result.first ≡ first }
        ensures masks { result.masks ≡ masks.items }
    {
        Certificate {
            from,
            pending,
            first,
            masks,
        }
    }

    /// The cycle of the first mask.
    pub fn from(&self) -> u64
        ensures value { result ≡ self.now.from }
    {
        self.from
    }

    /// The slots that have an instance pending before the cycle of the first mask.
    pub fn pending(&self) -> Mask
        ensures value { result ≡ self.now.pending }
    {
        self.pending
    }

    /// The first cycle of the part that is repeated, which is listed.
    pub fn first(&self) -> u64
        ensures value { result ≡ self.now.first }
        ensures after { self.now.from ≤ result }
        ensures within { result < self.now.from + length self.now.masks }
    {
        self.first
    }

    /// The number of cycles in the part that is repeated, at least 1.
    pub fn length(&self) -> u64
        ensures value { result ≡ length_of self.now }
        ensures some { 1 ≤ result }
    {
        self.masks.len() as u64 - (self.first - self.from)
    }

    /// The masks, that of the first cycle first.
    pub fn masks(&self) -> &[Mask]
        ensures list { result.now ≡ self.now.masks }
    {
        self.masks.as_slice()
    }
}
