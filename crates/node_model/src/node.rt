//! A node, which offers what follows from what it learnt and heard.

ghost use Rattle.std.specs.Prelude.{◌≡◌, ◌≢◌, ◌↔◌, ℕ, ◌+◌, ◌-◌, ◌*◌, ◌/◌, ◌%◌, ◌^◌, ◌<◌, ◌≤◌, min};
ghost use Rattle.std.specs.Prelude.{All, AllPairs, IfOk, IfSome};
ghost use Rattle.std.specs.Prelude.{IsSome, MatchOption, OnErr, OnOk, Some, None, false, true, length, map, option_map};
ghost use Rattle.profile.specs.Limits.{arrivals_end, cycles_end, first_identifier, least_asynchronous, times_end};
ghost use Rattle.bit_sets.specs.Sets.{most_slots};
ghost use Rattle.requirement_table.specs.Table.{IsWellPlaced};
ghost use Rattle.async_window.specs.Mailbox.{IsNextInCycle, left};
ghost use Rattle.async_window.specs.Owners.{AreOwners};
ghost use Rattle.node_model.specs.Node.{IsNextOffer, IsNode, after_hearing, after_request, after_slot, entries_of};
ghost use Rattle.node_model.specs.Node.{fresh_node};
ghost use Rattle.node_model.specs.Node.{is_own_slot, learnt, next_trigger, node_frame, node_offer, with_node};
ghost use Rattle.trigger_kind.specs.Kind.{opening_identifier};
ghost use Rattle.node_model.specs.Node.{opened_by, opening_trigger};
ghost use Rattle.node_model.specs.Ahead.{IsAhead, StaysOffered, next_time};
ghost use Rattle.node_model.specs.Kept.{IsClosedAt, IsOpenAt, kept_of};
ghost use Rattle.node_model.specs.Own.{HasRequest, counting};

use crate::ahead::{Next, OfferAhead};
use crate::cycle::{self, Open};
use crate::entries::{self, Remaining};
use async_window::{Mailboxes, Offer, Owner, Request};
use can_frame::{Frame, TimedFrame};
use cycle_layout::Layout;
use profile::{FIRST_IDENTIFIER, LEAST_ASYNCHRONOUS, TIMES_END};
use requirement_table::{Mask, Placed};
use std::alloc::{AllocError, Global};
use std::marker::Model;
use trigger_codec::{Noted, Trigger, decode, first_heard, last_heard};

/// A node of the bus. Contracts see what it knows, and the greatest length of a list that it can learn without memory.
#[derive(Drop)]
pub struct Node {
    pub(crate) frames: u64,
    /// The slots in which the node has an entry.
    pub(crate) own: Mask,
    pub(crate) mailboxes: Mailboxes,
    /// What the node found when it last looked ahead, where nothing has changed since.
    pub(crate) ahead: Option<OfferAhead>,
    pub(crate) opened: Option<Open>,
    pub(crate) next: u64,
    /// What the node heard of the trigger frames of the next cycle, of which the last one did not come yet.
    pub(crate) noted: Noted,
    pub(crate) layout: Layout,
    number: u8,
    /// The node's entries, as it learnt them. This vector and that of the remaining ones have room for a list that can
    /// be learnt without memory.
    entries: Vec<Placed>,
    /// Those of them that are not over, from which the node sends.
    pub(crate) remaining: Remaining,
}

impl Model for Node {
    ghost use Rattle.std.specs.Prelude.{min, option_map, vec_capacity};
    ghost use Rattle.node_model.specs.Node.{NodeView};
    ghost use Rattle.node_model.specs.Kept.{IsNodeKept, opened_of};

    ghost Value = { NodeView };

    ghost view = { λ n. record {
      state = record {
        number = n.number;
        layout = n.layout;
        entries = n.entries.items;
        mail = n.mailboxes;
        opened = option_map opened_of n.opened;
        next = n.next;
        frames = n.frames;
        noted = n.noted;
      };
      spare = min (vec_capacity n.entries) (vec_capacity n.remaining.entries);
    } };

    ghost invariant = { λ n. IsNodeKept (record {
      number = n.number;
      layout = n.layout;
      entries = n.entries.items;
      mail = n.mailboxes;
      opened = option_map opened_of n.opened;
      next = n.next;
      frames = n.frames;
      noted = n.noted;
    }) n.own n.remaining.entries.items n.remaining.ready n.opened n.ahead };
}

impl Node {
    /// A node before cycle 0, of a number, in a layout. It owns the identifiers that `owners` gives to its number, and
    /// their requests.
    ///
    /// The owners' identifiers are distinct and 0x200 to 0x7EF. Arrivals never fall and are below 2^40.
    pub fn new(
        alloc: Global,
        number: u8,
        layout: Layout,
        owners: &[Owner],
        requests: &[Request],
    ) -> Result<Node, AllocError>
        requires owners { AreOwners owners.now }
        requires arrivals { AllPairs (λ one other. one.at ≤ other.at) requests.now }
        requires early { All (λ request. request.at < arrivals_end) requests.now }
        ensures fresh { IfOk result (λ node. node.state ≡ fresh_node layout owners.now requests.now number) }
        ensures known { IfOk result (λ node. IsNode node.state) }
    {
        let ids = entries::identifiers_of(alloc, number, owners)?;
        let mailboxes = Mailboxes::new(alloc, ids.as_slice(), requests)?;
        Ok(Node {
            frames: 0,
            own: Mask::empty(),
            mailboxes,
            ahead: None,
            opened: None,
            next: 0,
            noted: None,
            layout,
            number,
            entries: Vec::new(alloc),
            remaining: Remaining::new(alloc),
        })
    }

    /// Makes the node able to learn a list of so many entries without memory.
    pub fn reserve(&mut self, _alloc: Global, entries: usize) -> Result<(), AllocError>
        ensures room { OnOk result (entries ≤ self.new.spare) }
        ensures same { self.new.state ≡ self.old.state }
        ensures spare { self.old.spare ≤ self.new.spare }
    {
        let additional = entries.saturating_sub(self.entries.len());
        self.entries.reserve(additional)?;
        let remaining = &mut self.remaining.entries;
        let additional = entries.saturating_sub(remaining.len());
        remaining.reserve(additional)
    }

    /// Replaces the node's entries by those of its number in a list.
    pub fn learn(&mut self, alloc: Global, placed: &[Placed]) -> Result<(), AllocError>
        requires well_placed { IsWellPlaced placed.now }
        ensures learnt { OnOk result (self.new.state ≡ learnt placed.now self.old.state) }
        ensures same { OnErr result (self.new.state ≡ self.old.state) }
        ensures spare { self.old.spare ≤ self.new.spare }
    {
        self.reserve(alloc, placed.len())?;
        self.learn_in(placed);
        Ok(())
    }

    /// The same without memory, where the list is not longer than what is reserved.
    pub fn learn_in(&mut self, placed: &[Placed])
        requires well_placed { IsWellPlaced placed.now }
        requires room { length placed.now ≤ self.old.spare }
        ensures learnt { self.new.state ≡ learnt placed.now self.old.state }
        ensures spare { self.old.spare ≤ self.new.spare }
    {
        self.learn_from(placed, false);
    }

    /// Replaces the node's entries by all of a list, each with the node's own number, without memory.
    pub fn learn_all(&mut self, placed: &[Placed])
        requires well_placed { IsWellPlaced placed.now }
        requires room { length placed.now ≤ self.old.spare }
        ensures learnt { self.new.state ≡ learnt (map (with_node self.old.state.number) placed.now) self.old.state }
        ensures spare { self.old.spare ≤ self.new.spare }
    {
        self.learn_from(placed, true);
    }

    /// Replaces the node's entries by those of its number in a list, where these are not more than what is reserved.
    pub fn learn_own(&mut self, placed: &[Placed])
        requires well_placed { IsWellPlaced placed.now }
        requires room { length (entries_of self.old.state.number placed.now) ≤ self.old.spare }
        ensures learnt { self.new.state ≡ learnt placed.now self.old.state }
        ensures spare { self.old.spare ≤ self.new.spare }
    {
        self.learn_from(placed, false);
    }

    /// The number of the node.
    pub fn number(&self) -> u8
        ensures number { result ≡ self.now.state.number }
    {
        self.number
    }

    /// Replaces the node's entries by those of its number in a list, or with `all` by each one of it, without memory.
    fn learn_from(&mut self, placed: &[Placed], all: bool)
        requires well_placed { IsWellPlaced placed.now }
        requires room { length (kept_of all self.old.state.number placed.now) ≤ self.old.spare }
        ensures learnt { self.new.state
            ≡ record self.old.state { entries = kept_of all self.old.state.number placed.now } }
        ensures spare { self.old.spare ≤ self.new.spare }
    {
        self.ahead = None;
        self.own = entries::keep_own(self.number, all, placed, &mut self.entries);
        let from = cycle::sends_from(&self.opened, self.next);
        self.remaining.keep(self.entries.as_slice(), from);
        self.opened = cycle::after_learning(
            &self.opened,
            self.remaining.entries.as_slice(),
            &mut self.remaining.ready,
        );
    }

    /// Hears a frame of the bus.
    pub fn hear(&mut self, heard: &TimedFrame)
        requires cycle { heard.now.frame.identifier ≡ opening_identifier self.old.state.layout.slots
            → self.old.state.next < cycles_end }
        ensures heard { self.new.state ≡ after_hearing self.old.state heard.now }
        ensures spare { self.new.spare ≡ self.old.spare }
    {
        let id = heard.frame.id();
        let opening = self.layout.triggers().opening();
        if id == opening {
            self.hear_last(heard);
        } else if id < opening {
            self.note(heard);
        } else if self.hear_other(heard) {
            self.look_ahead(last_bit(heard));
        }
    }

    /// Hears the last trigger frame of a cycle, which opens the next cycle.
    #[inline(never)]
    fn hear_last(&mut self, heard: &TimedFrame)
        requires opens { heard.now.frame.identifier ≡ opening_identifier self.old.state.layout.slots }
        requires cycle { self.old.state.next < cycles_end }
        ensures heard { self.new.state ≡ after_hearing self.old.state heard.now }
        ensures spare { self.new.spare ≡ self.old.spare }
    {
        self.count();
        let trigger = self.opening_trigger(&heard.frame);
        self.open_next(trigger);
        self.look_ahead(last_bit(heard));
    }

    /// Notes a trigger frame that is not the last one.
    #[inline(never)]
    fn note(&mut self, heard: &TimedFrame)
        requires earlier { heard.now.frame.identifier < opening_identifier self.old.state.layout.slots }
        ensures heard { self.new.state ≡ after_hearing self.old.state heard.now }
        ensures spare { self.new.spare ≡ self.old.spare }
    {
        self.count();
        self.noted = self.next_trigger(&heard.frame);
    }

    /// Hears a frame that is none of the trigger frames, without a look ahead. The answer is whether the frame is
    /// one of the node's own; another one is only counted.
    fn hear_other(&mut self, heard: &TimedFrame) -> bool
        requires behind { opening_identifier self.old.state.layout.slots < heard.now.frame.identifier }
        ensures heard { self.new.state ≡ after_hearing self.old.state heard.now }
        ensures spare { self.new.spare ≡ self.old.spare }
    {
        self.count();
        let id = heard.frame.id();
        if let Some(slot) = self.own_slot(id) {
            self.mark(slot);
            true
        } else {
            self.take_request(id)
        }
    }

    /// Takes away the node's first unsent request of a frame's identifier, where it has one, and answers whether it had
    /// one. The frame is not counted.
    pub fn take_own(&mut self, heard: &TimedFrame) -> bool
        ensures taken { self.new.state ≡ after_request self.old.state heard.now.frame.identifier }
        ensures own { result ≡ true → HasRequest self.old.state heard.now.frame.identifier }
        ensures none { result ≡ false → self.new.state ≡ self.old.state }
        ensures spare { self.new.spare ≡ self.old.spare }
    {
        let taken = self.take_request(heard.frame.id());
        if taken {
            self.look_ahead(last_bit(heard));
        }
        taken
    }

    /// Counts a frame, and does nothing else with it.
    pub fn count(&mut self)
        ensures counted { self.new.state ≡ counting self.old.state }
        ensures spare { self.new.spare ≡ self.old.spare }
    {
        self.frames = self.frames.saturating_add(1);
    }

    /// Keeps what the node offers next behind a time, so that it need not look again before that time comes or
    /// something changes. That is often the request that arrives soonest, which needs no search.
    #[inline(never)]
    fn look_ahead(&mut self, at: u64)
        ensures same { self.new ≡ self.old }
    {
        if TIMES_END <= at {
            self.ahead = None;
            return;
        }
        if let Some(next) = self.soon(at) {
            self.ahead = Some(OfferAhead {
                since: at,
                next: Some(next),
            });
            return;
        }
        self.search_ahead(at);
    }

    /// What the node offers next behind a time, where the mailboxes tell it without a search.
    #[inline(always)]
    fn soon(&self, at: u64) -> Option<Next>
        requires time { at < times_end }
        ensures next { IfSome result (λ next. IsNextOffer self.now.state at (Some next.from)) }
        ensures stays { IfSome result (λ next. StaysOffered self.now.state next.from next.offer) }
    {
        if self.mailboxes.left() == 0 {
            return None;
        }
        let open_cycle = self.open_at(at)?;
        let layout = &self.layout;
        match self
            .mailboxes
            .soon(layout, open_cycle.cycle, at, open_cycle.width)
        {
            Some(soon) => Some(Next {
                from: soon.from,
                offer: soon.offer,
            }),
            None => None,
        }
    }

    /// The same by a search.
    #[inline(never)]
    fn search_ahead(&mut self, at: u64)
        requires time { at < times_end }
        ensures same { self.new ≡ self.old }
    {
        self.ahead = self.find_ahead(at);
    }

    /// What a search finds that the node offers next behind a time.
    #[inline(always)]
    fn find_ahead(&self, at: u64) -> Option<OfferAhead>
        requires time { at < times_end }
        ensures ahead { IfSome result (IsAhead self.now.state) }
    {
        match self.find_next_offer(at) {
            Some(from) => self.ahead_to(at, from),
            None => Some(OfferAhead {
                since: at,
                next: None,
            }),
        }
    }

    /// The look ahead behind a time, where the time of the next offer is known.
    #[inline(never)]
    fn ahead_to(&self, since: u64, from: u64) -> Option<OfferAhead>
        requires next { IsNextOffer self.now.state since (Some from) }
        ensures ahead { IfSome result (IsAhead self.now.state) }
    {
        if TIMES_END <= from {
            return None;
        }
        match self.find_offer(from) {
            Some(offer) => Some(OfferAhead {
                since,
                next: Some(Next { from, offer }),
            }),
            None => None,
        }
    }

    /// Opens the next cycle as its trigger frames say; without such a trigger it has nothing synchronous.
    #[inline(always)]
    fn open_next(&mut self, trigger: Option<Trigger>)
        requires cycle { self.old.state.next < cycles_end }
        requires fits { IfSome trigger (λ said. said.l ≤ self.old.state.layout.window) }
        ensures opened { self.new.state ≡ record self.old.state {
          opened = Some (opened_by self.old.state.next trigger);
          next = self.old.state.next + 1;
          noted = None;
        } }
        ensures spare { self.new.spare ≡ self.old.spare }
    {
        self.ahead = None;
        self.noted = None;
        self.remaining.pass(self.next);
        self.opened = Some(cycle::opened_by(
            self.next,
            trigger,
            self.remaining.entries.as_slice(),
            &mut self.remaining.ready,
        ));
        self.next += 1;
    }

    /// What a frame says as the first trigger frame of the next cycle, where it is that.
    pub fn next_trigger(&self, frame: &Frame) -> Option<Trigger>
        ensures trigger { result ≡ next_trigger self.now.state frame.now }
        ensures fits { IfSome result (λ trigger. trigger.l ≤ self.now.state.layout.window) }
        ensures same { IfSome result (λ trigger. trigger.low ≡ self.now.state.next % 256) }
    {
        first_heard(self.layout.window(), self.next, &decode(frame).ok())
    }

    /// What the trigger frames of the next cycle say, where the frame is the last of them.
    pub fn opening_trigger(&self, frame: &Frame) -> Option<Trigger>
        ensures trigger { result ≡ opening_trigger self.now.state frame.now }
        ensures fits { IfSome result (λ trigger. trigger.l ≤ self.now.state.layout.window) }
    {
        let layout = &self.layout;
        last_heard(
            layout.triggers(),
            layout.window(),
            self.next,
            &self.noted,
            frame,
        )
    }

    /// The slot of an identifier, where the node has an entry in it.
    fn own_slot(&self, id: u16) -> Option<u8>
        ensures slot { MatchOption result (is_own_slot self.now.state.entries id ≡ false)
            (λ slot. (is_own_slot self.now.state.entries id ≡ true) × (first_identifier + slot ≡ id) × (slot < most_slots)) }
    {
        cycle::slot_among(self.own, id)
    }

    /// Marks a slot in the open cycle, where one is open.
    fn mark(&mut self, slot: u8)
        requires slot { slot < most_slots }
        ensures marked { self.new.state ≡ after_slot self.old.state slot }
        ensures spare { self.new.spare ≡ self.old.spare }
    {
        self.ahead = None;
        self.opened = cycle::after_slot(&self.opened, slot);
    }

    /// Takes away the first unsent request of an identifier, where there is one, and answers whether there was.
    fn take_request(&mut self, id: u16) -> bool
        ensures taken { self.new.state ≡ after_request self.old.state id }
        ensures own { result ≡ true → HasRequest self.old.state id }
        ensures none { result ≡ false → self.new.state ≡ self.old.state }
        ensures spare { self.new.spare ≡ self.old.spare }
    {
        if !self.mailboxes.take(id) {
            return false;
        }
        self.ahead = None;
        true
    }

    /// The identifier that the node offers at a time.
    pub fn offer(&self, at: u64) -> Option<u16>
        requires time { at < times_end }
        ensures offer { result ≡ node_offer self.now.state at }
        ensures known { IsNode self.now.state }
    {
        match self.foreseen(at) {
            Some(offered) => offered,
            None => match self.find_offer(at) {
                Some(offer) => Some(offer.id),
                None => None,
            },
        }
    }

    /// What the node offers at a time, where it found that when it looked ahead.
    fn foreseen(&self, at: u64) -> Option<Option<u16>>
        ensures foreseen { IfSome result (λ offered. node_offer self.now.state at ≡ offered) }
        ensures known { IsNode self.now.state }
    {
        match self.ahead {
            Some(ahead) => ahead.offer_at(at),
            None => None,
        }
    }

    /// What the node offers at a time, and how long, with no use of a look ahead.
    pub fn find_offer(&self, at: u64) -> Option<Offer>
        requires time { at < times_end }
        ensures offer { option_map (λ offer. offer.id) result ≡ node_offer self.now.state at }
        ensures stays { IfSome result (StaysOffered self.now.state at) }
        ensures known { IsNode self.now.state }
    {
        let open_cycle = self.open_at(at)?;
        let window = self.layout.sync_start(open_cycle.cycle, open_cycle.width);
        if window <= at {
            let end = self.layout.sync_start(open_cycle.cycle, 0);
            cycle::offer_due(&open_cycle, end)
        } else {
            let layout = &self.layout;
            self.mailboxes
                .offer_until(layout, open_cycle.cycle, at, open_cycle.width)
        }
    }

    /// The open cycle, where the time lies in it.
    fn open_at(&self, at: u64) -> Option<Open>
        requires time { at < times_end }
        ensures open_cycle { MatchOption result (IsClosedAt self.now.state at) (IsOpenAt self.now.state at) }
        ensures known { IsNode self.now.state }
    {
        let open_cycle = self.opened?;
        let length = u64::from(self.layout.cycle());
        cycle::is_in(at, open_cycle.cycle, length).then_some(open_cycle)
    }

    /// The least time behind `at`, in the cycle of `at`, at which `offer` is something while nothing is heard.
    #[inline(never)]
    pub fn wake(&self, at: u64) -> Option<u64>
        requires time { at < times_end }
        ensures next { IsNextInCycle self.now.state.layout.cycle at
            (λ later. IsSome (node_offer self.now.state later)) result }
    {
        let open_cycle = self.open_at(at)?;
        let window = self.layout.sync_start(open_cycle.cycle, open_cycle.width);
        let end = self.layout.sync_start(open_cycle.cycle, 0);
        if window <= at {
            return cycle::next_due(&open_cycle, at, window, end);
        }
        let layout = &self.layout;
        match self
            .mailboxes
            .wake_in(layout, open_cycle.cycle, at, open_cycle.width)
        {
            Some(next) => Some(next),
            None => cycle::next_due(&open_cycle, at, window, end),
        }
    }

    /// The least time behind `at`, in whatever cycle, at which `offer` is something while nothing is heard; `None`
    /// exactly where there is none.
    pub fn next_offer(&self, at: u64) -> Option<u64>
        requires time { at < times_end }
        ensures next { IsNextOffer self.now.state at result }
    {
        match self.told_behind(at) {
            Some(ahead) => ahead.next_time(),
            None => self.next_behind(at),
        }
    }

    /// The same, where something may be offered at the time itself. What stays behind it needs no search.
    fn next_behind(&self, at: u64) -> Option<u64>
        requires time { at < times_end }
        ensures next { IsNextOffer self.now.state at result }
    {
        if self.stays_at(at + 1) {
            Some(at + 1)
        } else {
            self.find_next_offer(at)
        }
    }

    /// Whether the node found, when it looked ahead, that it offers something at a time.
    fn stays_at(&self, at: u64) -> bool
        ensures stays { result ≡ true → IsSome (node_offer self.now.state at) }
    {
        match self.foreseen(at) {
            Some(offered) => offered.is_some(),
            None => false,
        }
    }

    /// What the node found when it looked ahead, where by that the next offer behind a time is the same. Right behind a
    /// frame, the time is that of the look.
    fn told_behind(&self, at: u64) -> Option<OfferAhead>
        ensures told { IfSome result (λ look. IsNextOffer self.now.state at (next_time look.next)) }
    {
        match self.ahead {
            Some(ahead) => {
                if ahead.tells_behind(at) {
                    Some(ahead)
                } else {
                    None
                }
            }
            None => None,
        }
    }

    /// The same, with no use of a look ahead. Where no request arrives before the synchronous window, the mailboxes are
    /// not searched.
    fn find_next_offer(&self, at: u64) -> Option<u64>
        requires time { at < times_end }
        ensures next { IsNextOffer self.now.state at result }
    {
        let open_cycle = self.opened?;
        let window = self.layout.sync_start(open_cycle.cycle, open_cycle.width);
        if !self.mailboxes.has_arrived(window) {
            let end = self.layout.sync_start(open_cycle.cycle, 0);
            return cycle::next_due(&open_cycle, at, window, end);
        }
        let start = open_cycle.cycle * u64::from(self.layout.cycle());
        self.wake(at.max(start))
    }

    /// The frame that the node offers at a time under an identifier.
    pub fn frame(&self, at: u64, id: u16) -> Frame
        requires time { at < times_end }
        requires offered { node_offer self.now.state at ≡ Some id }
        ensures frame { result ≡ node_frame self.now.state at id }
        ensures identifier { result.identifier ≡ id }
    {
        if id >= LEAST_ASYNCHRONOUS {
            self.request_frame(at, id)
        } else {
            self.slot_frame(at, id)
        }
    }

    /// The frame that the node offers at a time under an identifier, where it offers that one.
    pub fn offered_frame(&self, at: u64, id: u16) -> Option<Frame>
        requires time { at < times_end }
        ensures frame { MatchOption result (node_offer self.now.state at ≡ Some id → ⊥)
            (λ frame. (node_offer self.now.state at ≡ Some id)
            × (frame ≡ node_frame self.now.state at id) × (frame.identifier ≡ id)) }
    {
        if self.offers(at, id) {
            Some(self.frame(at, id))
        } else {
            None
        }
    }

    /// Whether the node offers an identifier at a time.
    fn offers(&self, at: u64, id: u16) -> bool
        requires time { at < times_end }
        ensures yes { result ≡ true → node_offer self.now.state at ≡ Some id }
        ensures no { result ≡ false → node_offer self.now.state at ≡ Some id → ⊥ }
    {
        match self.foreseen(at) {
            Some(offered) => offered == Some(id),
            None => self.may_offer(id) && is_offer_of(&self.find_offer(at), id),
        }
    }

    /// Whether the node may offer an identifier at some time: an asynchronous one only where it has an unsent request
    /// of it.
    fn may_offer(&self, id: u16) -> bool
        ensures never { result ≡ false → (at : ℕ) → node_offer self.now.state at ≡ Some id → ⊥ }
    {
        if id < LEAST_ASYNCHRONOUS {
            return true;
        }
        match self.mailboxes.head(id) {
            Some(_) => true,
            None => false,
        }
    }

    /// The frame of the first unsent request of an offered identifier.
    fn request_frame(&self, at: u64, id: u16) -> Frame
        requires time { at < times_end }
        requires offered { node_offer self.now.state at ≡ Some id }
        requires asynchronous { least_asynchronous ≤ id }
        ensures frame { result ≡ node_frame self.now.state at id }
    {
        match self.mailboxes.head(id) {
            Some(frame) => frame,
            None => unreachable!(),
        }
    }

    /// The frame of the instance of an offered slot.
    fn slot_frame(&self, at: u64, id: u16) -> Frame
        requires time { at < times_end }
        requires offered { node_offer self.now.state at ≡ Some id }
        requires synchronous { id < least_asynchronous }
        ensures frame { result ≡ node_frame self.now.state at id }
    {
        let _ = &self.mailboxes;
        let slot = (id - FIRST_IDENTIFIER) as u8;
        self.due_frame(slot)
    }

    /// The number of frames that the node heard; it stands still at the greatest u64.
    pub fn heard(&self) -> u64
        ensures frames { result ≡ self.now.state.frames }
    {
        self.frames
    }

    /// The number of the node's requests that are not sent.
    pub fn left(&self) -> usize
        ensures left { result ≡ left self.now.state.mail }
    {
        self.mailboxes.left()
    }
}

/// The last bit time of a frame. Behind it the bus is free.
pub fn last_bit(sent: &TimedFrame) -> u64
    ensures last { result ≡ min (sent.now.start + (sent.now.len - 1)) (2 ^ 64 - 1) }
{
    sent.start
        .saturating_add(u64::from(sent.len.saturating_sub(1)))
}

/// Whether an offer is one of an identifier.
fn is_offer_of(offer: &Option<Offer>, id: u16) -> bool
    ensures test { result ≡ true ↔ option_map (λ found. found.id) offer.now ≡ Some id }
{
    match offer {
        Some(found) => found.id == id,
        None => false,
    }
}
