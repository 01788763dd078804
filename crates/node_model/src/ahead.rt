//! A look ahead to a node's next offer.

ghost use Rattle.std.specs.Prelude.{◌≡◌, ◌<◌, ◌≤◌, true, IfSome};
ghost use Rattle.node_model.specs.Ahead.{IsOfferedAt, IsQuietAt, IsTold, next_time};

use async_window::Offer;

/// What a node offers next.
#[derive(Clone, Copy)]
pub struct Next {
    /// The first time at which it offers something, in bit times.
    pub from: u64,
    /// What it offers from then on, and up to when it is the same.
    pub offer: Offer,
}

/// A look ahead: what the node offers next behind the time `since`, in bit times, where it ever does.
#[derive(Clone, Copy)]
pub struct OfferAhead {
    pub since: u64,
    pub next: Option<Next>,
}

impl OfferAhead {
    /// The first time behind the look at which something is offered, in bit times.
    pub fn next_time(&self) -> Option<u64>
        ensures next { result ≡ next_time self.now.next }
    {
        match self.next {
            Some(next) => Some(next.from),
            None => None,
        }
    }

    /// Whether the time lies behind the look and before what it found.
    pub fn is_quiet(&self, at: u64) -> bool
        ensures quiet { result ≡ true → IsQuietAt self.now at }
    {
        self.since < at && is_before(at, &self.next)
    }

    /// Whether the next offer behind a time is the one that the look found: the time is that of the look, or it lies
    /// behind it and before what the look found.
    pub fn tells_behind(&self, at: u64) -> bool
        ensures since { result ≡ true → self.now.since ≤ at }
        ensures before { result ≡ true → IfSome self.now.next (λ next. at < next.from) }
    {
        self.since <= at && is_before(at, &self.next)
    }

    /// What is offered at a time, where the look ahead tells it.
    pub fn offer_at(&self, at: u64) -> Option<Option<u16>>
        ensures told { IfSome result (IsTold self.now at) }
    {
        match self.found_at(at) {
            Some(id) => Some(Some(id)),
            None => self.is_quiet(at).then_some(None),
        }
    }

    /// The identifier that the look found, where by it that one is offered at a time.
    fn found_at(&self, at: u64) -> Option<u16>
        ensures found { IfSome result (IsOfferedAt self.now at) }
    {
        let next = self.next?;
        (next.from <= at && at <= next.offer.until).then_some(next.offer.id)
    }
}

/// Whether a time lies before the next offer, which may never come.
fn is_before(at: u64, next: &Option<Next>) -> bool
    ensures before { result ≡ true → IfSome next.now (λ found. at < found.from) }
{
    match next {
        Some(next) => at < next.from,
        None => true,
    }
}
