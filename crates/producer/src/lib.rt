// The producer's end of the ring: chains are submitted, completions polled.
// SPDX-License-Identifier: Apache-2.0
// Copyright 2026 The Hyperlight Authors.
// Translated from src/virtq/ring.rs of hyperlight-common 0.18.0 (RingProducer) and changed: by value, over one lent byte slice
// and lent tables of 16-bit numbers, and every record and slice that is handed in is tested.
#![tactic(auto, unfolding(ring::specs::Asked::ask_of))]

mod refuse;
mod write;

ghost use Rattle.std.specs.Prelude.{◌≡◌, cond, [], ◌∷◌, ◌-◌, eqb};
ghost use Rattle.base.specs.Answer.{bit, answer_of};
ghost use Rattle.cursor.specs.Cursor.{values_of};
ghost use Rattle.event.specs.Event.{ENABLE, DISABLE};
ghost use Rattle.notify.specs.Notify as notified;
ghost use Rattle.ring.specs.Events.{told};
ghost use Rattle.ring.specs.Asked.{ask_of, count_answer, bool_answer, cursor_answer, table_answer};
ghost use Rattle.producer.specs.Outcome.{outcome, changed};
ghost use Rattle.producer.specs.Record.{bad_record};
ghost use Rattle.producer.specs.Submit.{submitted_answer, top_of, submit_of};
ghost use Rattle.producer.specs.Tell.{told_answer, tell_of};
ghost use Rattle.producer.specs.Poll.{polled_answer, poll_of, next_answer, next_of};
ghost use Rattle.producer.specs.Notices.{turn_of, arm_of, since_of};
ghost use Rattle.producer.specs.Fresh.{fresh_of, opened_answer, opened, open_of, reset_of};

use base::{RingError, pick};
use chain::BufferChain;
use cursor::RingCursor;
use desc::DescTable;
use event::EventSuppression;
use layout::Layout;

#[derive(Clone, Copy, PartialEq, Eq)]
pub struct RingProducer {
    pub layout: Layout,
    // The next slot to make available, and the next to look at for a completion.
    pub avail: RingCursor,
    pub used: RingCursor,
    // Free slots, the height of the stack of free IDs, and the flags that this end takes the driver's event area to have.
    pub free: u16,
    pub height: u16,
    pub shadow: u16,
}

// The ID that a submission got, and whether the device is to be told.
#[derive(Clone, Copy, PartialEq, Eq)]
pub struct SubmitResult {
    pub id: u16,
    pub notify: bool,
}

// A completion: the ID of the submission, and the length that the device wrote.
#[derive(Clone, Copy, PartialEq, Eq)]
pub struct UsedBuffer {
    pub id: u16,
    pub len: u32,
}

// The record of a fresh ring.
#[tactic(auto, unfolding(crate::specs::Fresh::fresh_of))]
fn fresh(layout: Layout) -> RingProducer
    ensures { result ≡ fresh_of layout }
{
    RingProducer {
        layout,
        avail: RingCursor::new(),
        used: RingCursor::new(),
        free: layout.size,
        height: layout.size,
        shadow: event::ENABLE,
    }
}

// A call that takes the record by value hands it back beside its answer, on a refusal as it was.
// The ring and the two tables are no struct: which of them a call may write stands in its signature.
impl RingProducer {
    // Opening: the tables' first entries are filled, and no byte of the ring is touched.
    #[tactic(auto, unfolding(crate::specs::Fresh::open_of, layout::specs::Layout::open_refusal))]
    pub fn new(
        layout: Layout,
        ring: &[u8],
        ids: &mut [u16],
        counts: &mut [u16],
    ) -> Result<RingProducer, RingError>
        ensures { opened (opened_answer result) ids.new counts.new
            ≡ open_of layout.size layout.table layout.driver layout.device ring.now ids.old counts.old }
    {
        layout.check(ring.len())?;
        let size = layout.size;
        let slots = usize::from(size);
        if ids.len() < slots || counts.len() < slots {
            return Err(RingError::BadLent);
        }
        ring::tables::count_up(ids, size);
        ring::tables::fill(counts, size, 0);
        Ok(fresh(layout))
    }

    // A chain of one element.
    pub fn submit_one(
        self,
        ring: &mut [u8],
        ids: &[u16],
        counts: &mut [u16],
        addr: u64,
        len: u32,
        writable: bool,
    ) -> (RingProducer, Result<u16, RingError>)
        ensures { outcome (submitted_answer result.1) result.0 ring.new ids.now counts.new
            ≡ submit_of self ring.old ids.now counts.old (addr ∷ []) (len ∷ []) (cond writable 0 1) }
    {
        let chain = BufferChain {
            addrs: &[addr],
            lens: &[len],
            readable: pick::pick(writable, 0, 1),
        };
        self.submit_available(ring, ids, counts, chain)
    }

    // A chain made available: its tails, then its head.
    #[tactic(auto, unfolding(crate::specs::Submit::submit_of), using(crate::proofs::Goes::submits))]
    pub fn submit_available(
        self,
        ring: &mut [u8],
        ids: &[u16],
        counts: &mut [u16],
        chain: BufferChain,
    ) -> (RingProducer, Result<u16, RingError>)
        ensures { outcome (submitted_answer result.1) result.0 ring.new ids.now counts.new
            ≡ submit_of self ring.old ids.now counts.old chain.entry.addrs.now chain.entry.lens.now chain.entry.readable }
    {
        if let Err(e) = refuse::submit(self, ring.len(), ids, counts, chain) {
            return (self, Err(e));
        }
        let id = self.top(ids);
        let avail = write::chain(ring, self.layout, chain, id, self.avail);
        let few = chain.addrs.len() as u16;
        pick::set(counts, usize::from(id), few);
        let taken = RingProducer {
            avail,
            free: self.free - few,
            height: self.height - 1,
            ..self
        };
        (taken, Ok(id))
    }

    #[tactic(auto, unfolding(crate::specs::Tell::tell_of))]
    pub fn submit_available_with_notify(
        self,
        ring: &mut [u8],
        ids: &[u16],
        counts: &mut [u16],
        chain: BufferChain,
    ) -> (RingProducer, Result<SubmitResult, RingError>)
        ensures { outcome (told_answer result.1) result.0 ring.new ids.now counts.new
            ≡ tell_of self.avail (submit_of self ring.old ids.now counts.old chain.entry.addrs.now chain.entry.lens.now chain.entry.readable) }
    {
        let (p, answer) = self.submit_available(ring, ids, counts, chain);
        (p, p.told(ring, self.avail, answer))
    }

    #[tactic(auto, unfolding(crate::specs::Tell::tell_of))]
    pub fn submit_one_with_notify(
        self,
        ring: &mut [u8],
        ids: &[u16],
        counts: &mut [u16],
        addr: u64,
        len: u32,
        writable: bool,
    ) -> (RingProducer, Result<SubmitResult, RingError>)
        ensures { outcome (told_answer result.1) result.0 ring.new ids.now counts.new
            ≡ tell_of self.avail (submit_of self ring.old ids.now counts.old (addr ∷ []) (len ∷ []) (cond writable 0 1)) }
    {
        let (p, answer) = self.submit_one(ring, ids, counts, addr, len, writable);
        (p, p.told(ring, self.avail, answer))
    }

    // The completion at the used cursor, if there is one: its ID and its slots are free again.
    #[tactic(auto, unfolding(crate::specs::Poll::poll_of), using(crate::proofs::Goes::polls))]
    pub fn poll_used(
        self,
        ring: &[u8],
        ids: &mut [u16],
        counts: &mut [u16],
    ) -> (RingProducer, Result<UsedBuffer, RingError>)
        ensures { outcome (polled_answer result.1) result.0 ring.now ids.new counts.new
            ≡ poll_of self ring.now ids.old counts.old }
    {
        let d = ring::look(ring, self.layout.table, self.used);
        if let Err(e) = refuse::poll(self, ring.len(), d, ids.len(), counts) {
            return (self, Err(e));
        }
        let id = d.id;
        let n = pick::at(counts, usize::from(id), 0);
        pick::set(ids, usize::from(self.height), id);
        pick::set(counts, usize::from(id), 0);
        let freed = RingProducer {
            used: self.used.moved(self.layout.size, n),
            free: self.free + n,
            height: self.height + 1,
            ..self
        };
        (freed, Ok(UsedBuffer { id, len: d.len }))
    }

    // The ID that the next submission gets.
    #[tactic(auto, unfolding(crate::specs::Poll::next_of))]
    pub fn next_id(self, ids: &[u16], counts: &[u16]) -> Result<u16, RingError>
        ensures { next_answer result ≡ next_of self ids.now counts.now }
    {
        refuse::next_id(self, ids, counts)?;
        Ok(self.top(ids))
    }

    // What is asked of the record. Both ends have these, each over its own record and definitions (see `turned`).
    pub fn num_free(self) -> Result<u16, RingError>
        ensures { count_answer result ≡ ask_of (bad_record self) (self.free ∷ []) }
    {
        refuse::record(self)?;
        Ok(self.free)
    }

    #[tactic(auto, using(crate::proofs::Ready::no_more_free), unfolding(ring::specs::Asked::ask_of))]
    pub fn num_inflight(self) -> Result<u16, RingError>
        ensures { count_answer result ≡ ask_of (bad_record self) ((self.layout.size - self.free) ∷ []) }
    {
        refuse::record(self)?;
        Ok(self.layout.size - self.free)
    }

    pub fn is_full(self) -> Result<bool, RingError>
        ensures { bool_answer result ≡ ask_of (bad_record self) (bit (eqb self.free 0) ∷ []) }
    {
        refuse::record(self)?;
        Ok(self.free == 0)
    }

    pub fn len(self) -> Result<u16, RingError>
        ensures { count_answer result ≡ ask_of (bad_record self) (self.layout.size ∷ []) }
    {
        refuse::record(self)?;
        Ok(self.layout.size)
    }

    pub fn desc_table(self) -> Result<DescTable, RingError>
        ensures { table_answer result ≡ ask_of (bad_record self) (self.layout.table ∷ self.layout.size ∷ []) }
    {
        refuse::record(self)?;
        Ok(DescTable::from_raw_parts(self.layout.table, usize::from(self.layout.size)))
    }

    pub fn avail_cursor(self) -> Result<RingCursor, RingError>
        ensures { cursor_answer result ≡ ask_of (bad_record self) (values_of self.avail) }
    {
        refuse::record(self)?;
        Ok(self.avail)
    }

    pub fn used_cursor(self) -> Result<RingCursor, RingError>
        ensures { cursor_answer result ≡ ask_of (bad_record self) (values_of self.used) }
    {
        refuse::record(self)?;
        Ok(self.used)
    }

    // Does the device ask to be told of all that was submitted since old?
    #[tactic(auto, unfolding(crate::specs::Notices::since_of))]
    pub fn should_notify_since(self, ring: &[u8], old: RingCursor) -> Result<bool, RingError>
        ensures { notified.answer_of result ≡ since_of self ring.now old }
    {
        refuse::since(self, ring.len(), old)?;
        Ok(self.asks(ring, old))
    }

    pub fn disable_used_notifications(
        self,
        ring: &mut [u8],
    ) -> (RingProducer, Result<(), RingError>)
        ensures { changed (answer_of result.1) result.0 ring.new ≡ turn_of self ring.old DISABLE }
    {
        self.turned(ring, event::DISABLE)
    }

    pub fn enable_used_notifications(self, ring: &mut [u8]) -> (RingProducer, Result<(), RingError>)
        ensures { changed (answer_of result.1) result.0 ring.new ≡ turn_of self ring.old ENABLE }
    {
        self.turned(ring, event::ENABLE)
    }

    // Armed at a slot of a round; alike in both ends, as `turned` is.
    #[tactic(auto, unfolding(crate::specs::Notices::notice_of, crate::specs::Notices::shadow_of))]
    pub fn enable_used_notifications_desc(
        self,
        ring: &mut [u8],
        off: u16,
        wrap: bool,
    ) -> (RingProducer, Result<(), RingError>)
        ensures { changed (answer_of result.1) result.0 ring.new ≡ arm_of self ring.old off wrap }
    {
        if let Err(e) = refuse::bytes(self, ring.len()) {
            return (self, Err(e));
        }
        ring::arm(ring, self.layout.driver, off, wrap);
        let armed = RingProducer {
            shadow: event::DESC,
            ..self
        };
        (armed, Ok(()))
    }

    // At the slot that is looked at next.
    pub fn enable_used_notifications_for_next(
        self,
        ring: &mut [u8],
    ) -> (RingProducer, Result<(), RingError>)
        ensures { changed (answer_of result.1) result.0 ring.new ≡ arm_of self ring.old self.used.head self.used.wrap }
    {
        self.enable_used_notifications_desc(ring, self.used.head, self.used.wrap)
    }

    // The table and the driver's event zero, and everything fresh.
    #[tactic(auto, unfolding(crate::specs::Fresh::reset_of))]
    pub fn reset(
        self,
        ring: &mut [u8],
        ids: &mut [u16],
        counts: &mut [u16],
    ) -> (RingProducer, Result<(), RingError>)
        ensures { outcome (answer_of result.1) result.0 ring.new ids.new counts.new
            ≡ reset_of self ring.old ids.old counts.old }
    {
        if let Err(e) = refuse::all(self, ring.len(), ids.len(), counts.len()) {
            return (self, Err(e));
        }
        let layout = self.layout;
        let size = layout.size;
        // Both areas are whole in the bytes: their answers cannot be refusals here.
        let _ = DescTable::from_raw_parts(layout.table, usize::from(size)).clear(ring);
        let _ = EventSuppression::clear(ring, layout.driver);
        ring::tables::count_up(ids, size);
        ring::tables::fill(counts, size, 0);
        (fresh(layout), Ok(()))
    }

    // The consumer has its own over its record: ring::turn is what both share, and a trait for the rest would be longer.
    #[tactic(auto, unfolding(crate::specs::Notices::notice_of, crate::specs::Notices::shadow_of))]
    fn turned(self, ring: &mut [u8], flags: u16) -> (RingProducer, Result<(), RingError>)
        ensures { changed (answer_of result.1) result.0 ring.new ≡ turn_of self ring.old flags }
    {
        if let Err(e) = refuse::bytes(self, ring.len()) {
            return (self, Err(e));
        }
        ring::turn(ring, self.layout.driver, self.shadow, flags);
        let turned = RingProducer {
            shadow: flags,
            ..self
        };
        (turned, Ok(()))
    }

    // The ID on top of the stack of free ones; 0 where there is none, as `top_of` has it: `refuse::top` has asked before.
    fn top(self, ids: &[u16]) -> u16
        ensures { result ≡ top_of self ids.now }
    {
        pick::at(ids, usize::from(self.height.saturating_sub(1)), 0)
    }

    // Does the device's event area ask to be told of the move from old to the avail cursor?
    fn asks(self, ring: &[u8], old: RingCursor) -> bool
        ensures { result ≡ told self.layout.device self.layout.size old self.avail ring.now }
    {
        ring::should_notify_evt(ring, self.layout.device, self.layout.size, old, self.avail)
    }

    // A submission's answer, with whether the device is to be told.
    #[tactic(auto, unfolding(crate::specs::Tell::tell_of))]
    fn told(
        self,
        ring: &[u8],
        old: RingCursor,
        answer: Result<u16, RingError>,
    ) -> Result<SubmitResult, RingError>
        ensures { told_answer result ≡ (tell_of old (outcome (submitted_answer answer) self ring.now [] [])).answer }
    {
        let id = answer?;
        Ok(SubmitResult {
            id,
            notify: self.asks(ring, old),
        })
    }
}
