// The consumer's end of the ring: chains are polled, completed, and given back.
// SPDX-License-Identifier: Apache-2.0
// Copyright 2026 The Hyperlight Authors.
// Translated from src/virtq/ring.rs of hyperlight-common 0.18.0 (RingConsumer) and changed: by value, over one lent byte slice
// and a lent table of 16-bit numbers, and every record and slice that is handed in is tested.
#![tactic(auto, unfolding(ring::specs::Asked::ask_of))]

mod refuse;

ghost use Rattle.std.specs.Prelude.{◌≡◌, false, [], ◌∷◌, ◌+◌, ◌-◌, ◌≤◌, eqb};
ghost use Rattle.base.specs.Answer.{bit, answer_of};
ghost use Rattle.cursor.specs.Cursor.{values_of, bad_move};
ghost use Rattle.event.specs.Event.{ENABLE, DISABLE};
ghost use Rattle.ring.specs.Asked.{ask_of, count_answer, bool_answer, cursor_answer};
ghost use Rattle.consumer.specs.Record.{bad_record};
ghost use Rattle.consumer.specs.Outcome.{outcome, changed, rolled};
ghost use Rattle.consumer.specs.Poll.{taken, polled_answer, past_of, poll_of, peek_of};
ghost use Rattle.consumer.specs.Complete.{completed_of, complete_of, tell_of, told_answer};
ghost use Rattle.consumer.specs.Rollback.{checkpoint_of, checkpoint_values, checkpoint_answer, stale_of, back_of, rollback_of};
ghost use Rattle.consumer.specs.Notices.{shadow_of, turn_of, arm_of};
ghost use Rattle.consumer.specs.Fresh.{fresh_of, opened_answer, opened, open_of, reset_of};

use base::{RingError, pick};
use cursor::RingCursor;
use desc::Descriptor;
use event::EventSuppression;
use layout::Layout;
use walk::Slots;

#[derive(Clone, Copy, PartialEq, Eq)]
pub struct RingConsumer {
    pub layout: Layout,
    // The next slot to look at for a chain, and the next to mark used.
    pub avail: RingCursor,
    pub used: RingCursor,
    // Slots polled and not yet completed, and the flags that this end takes the device's event area to have.
    pub inflight: u16,
    pub shadow: u16,
}

// What is needed to undo the polls since it was taken. No chain may be completed between.
#[derive(Clone, Copy, PartialEq, Eq)]
pub struct Checkpoint {
    pub avail: RingCursor,
    pub used: RingCursor,
    pub inflight: u16,
}

// A chain that was polled: its ID, its elements, and how many of them, the first ones, are readable.
#[derive(Clone, Copy, PartialEq, Eq)]
pub struct PolledChain {
    pub id: u16,
    pub count: u16,
    pub readable: u16,
}

// The record of a fresh ring.
#[tactic(auto, unfolding(crate::specs::Fresh::fresh_of))]
fn fresh(layout: Layout) -> RingConsumer
    ensures { result ≡ fresh_of layout }
{
    RingConsumer {
        layout,
        avail: RingCursor::new(),
        used: RingCursor::new(),
        inflight: 0,
        shadow: event::ENABLE,
    }
}

// A call that takes the record by value hands it back beside its answer, on a refusal as it was. The bytes and the counts are no
// struct: which of them a call may change stands in its signature.
impl RingConsumer {
    // Opening: the counts' first entries are filled, and no byte of the ring is touched.
    #[tactic(auto, unfolding(crate::specs::Fresh::open_of, layout::specs::Layout::open_refusal))]
    pub fn new(layout: Layout, ring: &[u8], counts: &mut [u16]) -> Result<RingConsumer, RingError>
        ensures { opened (opened_answer result) counts.new
            ≡ open_of layout.size layout.table layout.driver layout.device ring.now counts.old }
    {
        layout.check(ring.len())?;
        let size = layout.size;
        if counts.len() < usize::from(size) {
            return Err(RingError::BadLent);
        }
        ring::tables::fill(counts, size, 0);
        Ok(fresh(layout))
    }

    // The chain at the avail cursor, if there is one: its elements are in the first places of both outputs.
    #[tactic(auto, unfolding(crate::specs::Poll::poll_of, crate::specs::Poll::poll_refusal, crate::specs::Poll::polled_of))]
    pub fn poll_available(
        self,
        ring: &[u8],
        counts: &mut [u16],
        addrs: &mut [u64],
        lens: &mut [u32],
    ) -> (RingConsumer, Result<PolledChain, RingError>)
        ensures { taken (polled_answer result.1) result.0 counts.new addrs.new lens.new
            ≡ poll_of self ring.now counts.old addrs.old lens.old }
    {
        let Layout { table, size, .. } = self.layout;
        let slots = Slots { ring, table, size };
        let d = ring::look(ring, table, self.avail);
        if let Err(e) = refuse::head(self, ring.len(), d, counts.len(), addrs.len(), lens.len()) {
            return (self, Err(e));
        }
        let w = slots.chain(self.avail);
        if let Err(e) = refuse::walk(self, w, d.id, counts) {
            return (self, Err(e));
        }
        slots.copy_out(self.avail, w.count, addrs, lens);
        pick::set(counts, usize::from(d.id), w.count);
        let chain = PolledChain {
            id: d.id,
            count: w.count,
            readable: w.readable,
        };
        (self.past(w.at, w.count), Ok(chain))
    }

    // The chain of this ID is done with: one used slot for all of its slots.
    #[tactic(auto, unfolding(crate::specs::Complete::complete_of))]
    pub fn submit_used(
        self,
        ring: &mut [u8],
        counts: &mut [u16],
        id: u16,
        len: u32,
    ) -> (RingConsumer, Result<(), RingError>)
        ensures { outcome (answer_of result.1) result.0 ring.new counts.new
            ≡ complete_of self ring.old counts.old id len }
    {
        if let Err(e) = refuse::complete(self, ring.len(), id, counts) {
            return (self, Err(e));
        }
        let n = pick::at(counts, usize::from(id), 0);
        let d = Descriptor::new(0, len, id, 0).mark_used(self.used.wrap);
        ring::write(ring, self.layout.table, self.used, d);
        pick::set(counts, usize::from(id), 0);
        (self.completed(n), Ok(()))
    }

    #[tactic(auto, unfolding(crate::specs::Complete::tell_of))]
    pub fn submit_used_with_notify(
        self,
        ring: &mut [u8],
        counts: &mut [u16],
        id: u16,
        len: u32,
    ) -> (RingConsumer, Result<bool, RingError>)
        ensures { outcome (told_answer result.1) result.0 ring.new counts.new
            ≡ tell_of self.used (complete_of self ring.old counts.old id len) }
    {
        let old = self.used;
        let (p, answer) = self.submit_used(ring, counts, id, len);
        if let Err(e) = answer {
            return (p, Err(e));
        }
        let yes = ring::should_notify_evt(ring, p.layout.driver, p.layout.size, old, p.used);
        (p, Ok(yes))
    }

    // Is there a chain to poll? Nothing is taken.
    #[tactic(auto, unfolding(crate::specs::Poll::peek_of))]
    pub fn peek_available(self, ring: &[u8]) -> Result<bool, RingError>
        ensures { bool_answer result ≡ peek_of self ring.now }
    {
        refuse::bytes(self, ring.len())?;
        let d = ring::look(ring, self.layout.table, self.avail);
        Ok(d.is_avail(self.avail.wrap))
    }

    pub fn poll_checkpoint(self) -> Result<Checkpoint, RingError>
        ensures { checkpoint_answer result ≡ ask_of (bad_record self) (checkpoint_values (checkpoint_of self)) }
    {
        refuse::record(self)?;
        Ok(Checkpoint {
            avail: self.avail,
            used: self.used,
            inflight: self.inflight,
        })
    }

    // The polls since the checkpoint are undone: `ids` is to name each chain polled since, once.
    #[tactic(auto, unfolding(crate::specs::Rollback::rollback_of, crate::specs::Rollback::rollback_refusal))]
    pub fn rollback_polls(
        self,
        counts: &mut [u16],
        cp: Checkpoint,
        ids: &[u16],
    ) -> (RingConsumer, Result<(), RingError>)
        ensures { rolled (answer_of result.1) result.0 counts.new
            ≡ rollback_of self counts.old cp ids.now }
    {
        if let Err(e) = refuse::handed(self, cp, counts.len()) {
            return (self, Err(e));
        }
        let Ok(n) = undo::sum(counts, self.layout.size, self.inflight, ids) else {
            return (self, Err(RingError::BadRollback));
        };
        if stale(self, cp, n) {
            return (self, Err(RingError::BadRollback));
        }
        undo::clear(counts, ids);
        (self.back(cp), Ok(()))
    }

    // What is asked of the record. Both ends have these, each over its own record and definitions (see `turned`).
    pub fn num_free(self) -> Result<u16, RingError>
        ensures { count_answer result ≡ ask_of (bad_record self) ((self.layout.size - self.inflight) ∷ []) }
    {
        refuse::record(self)?;
        Ok(self.layout.size - self.inflight)
    }

    pub fn num_inflight(self) -> Result<u16, RingError>
        ensures { count_answer result ≡ ask_of (bad_record self) (self.inflight ∷ []) }
    {
        refuse::record(self)?;
        Ok(self.inflight)
    }

    pub fn is_full(self) -> Result<bool, RingError>
        ensures { bool_answer result ≡ ask_of (bad_record self) (bit (eqb self.inflight self.layout.size) ∷ []) }
    {
        refuse::record(self)?;
        Ok(self.inflight == self.layout.size)
    }

    pub fn len(self) -> Result<u16, RingError>
        ensures { count_answer result ≡ ask_of (bad_record self) (self.layout.size ∷ []) }
    {
        refuse::record(self)?;
        Ok(self.layout.size)
    }

    pub fn avail_cursor(self) -> Result<RingCursor, RingError>
        ensures { cursor_answer result ≡ ask_of (bad_record self) (values_of self.avail) }
    {
        refuse::record(self)?;
        Ok(self.avail)
    }

    pub fn used_cursor(self) -> Result<RingCursor, RingError>
        ensures { cursor_answer result ≡ ask_of (bad_record self) (values_of self.used) }
    {
        refuse::record(self)?;
        Ok(self.used)
    }

    pub fn disable_avail_notifications(
        self,
        ring: &mut [u8],
    ) -> (RingConsumer, Result<(), RingError>)
        ensures { changed (answer_of result.1) result.0 ring.new ≡ turn_of self ring.old DISABLE }
    {
        self.turned(ring, event::DISABLE)
    }

    pub fn enable_avail_notifications(
        self,
        ring: &mut [u8],
    ) -> (RingConsumer, Result<(), RingError>)
        ensures { changed (answer_of result.1) result.0 ring.new ≡ turn_of self ring.old ENABLE }
    {
        self.turned(ring, event::ENABLE)
    }

    // Armed at a slot of a round; alike in both ends, as `turned` is.
    #[tactic(auto, unfolding(crate::specs::Notices::notice_of))]
    pub fn enable_avail_notifications_desc(
        self,
        ring: &mut [u8],
        off: u16,
        wrap: bool,
    ) -> (RingConsumer, Result<(), RingError>)
        ensures { changed (answer_of result.1) result.0 ring.new ≡ arm_of self ring.old off wrap }
    {
        if let Err(e) = refuse::bytes(self, ring.len()) {
            return (self, Err(e));
        }
        ring::arm(ring, self.layout.device, off, wrap);
        (self.shadowed(event::DESC), Ok(()))
    }

    // At the slot that is polled next.
    pub fn enable_avail_notifications_for_next(
        self,
        ring: &mut [u8],
    ) -> (RingConsumer, Result<(), RingError>)
        ensures { changed (answer_of result.1) result.0 ring.new ≡ arm_of self ring.old self.avail.head self.avail.wrap }
    {
        let next = self.avail;
        self.enable_avail_notifications_desc(ring, next.head, next.wrap)
    }

    // The device's event zero, and everything fresh. The table of slots is the producer's to clear.
    #[tactic(auto, unfolding(crate::specs::Fresh::reset_of))]
    pub fn reset(self, ring: &mut [u8], counts: &mut [u16]) -> (RingConsumer, Result<(), RingError>)
        ensures { outcome (answer_of result.1) result.0 ring.new counts.new
            ≡ reset_of self ring.old counts.old }
    {
        if let Err(e) = refuse::all(self, ring.len(), counts.len()) {
            return (self, Err(e));
        }
        // whether the event is whole in the bytes was asked above, so this answer says no more
        let _ = EventSuppression::clear(ring, self.layout.device);
        ring::tables::fill(counts, self.layout.size, 0);
        (fresh(self.layout), Ok(()))
    }

    // The producer has its own over its record: `ring::turn` is what both share, and a trait for the rest would be longer.
    #[tactic(auto, unfolding(crate::specs::Notices::notice_of))]
    fn turned(self, ring: &mut [u8], flags: u16) -> (RingConsumer, Result<(), RingError>)
        ensures { changed (answer_of result.1) result.0 ring.new ≡ turn_of self ring.old flags }
    {
        if let Err(e) = refuse::bytes(self, ring.len()) {
            return (self, Err(e));
        }
        ring::turn(ring, self.layout.device, self.shadow, flags);
        (self.shadowed(flags), Ok(()))
    }

    // The record with other flags in its shadow.
    #[tactic(auto, unfolding(crate::specs::Notices::shadow_of))]
    fn shadowed(self, flags: u16) -> RingConsumer
        ensures { result ≡ shadow_of self flags }
    {
        RingConsumer {
            shadow: flags,
            ..self
        }
    }

    // The record behind a poll of n slots.
    #[tactic(auto, unfolding(crate::specs::Poll::past_of))]
    fn past(self, at: RingCursor, n: u16) -> RingConsumer
        requires { self.inflight + n ≤ self.layout.size }
        ensures { result ≡ past_of self at n }
    {
        RingConsumer {
            avail: at,
            inflight: self.inflight + n,
            ..self
        }
    }

    // The record behind a completion of n slots.
    #[tactic(auto, unfolding(crate::specs::Complete::completed_of))]
    fn completed(self, n: u16) -> RingConsumer
        requires { (n ≤ self.inflight) × (bad_move self.layout.size n self.used ≡ false) }
        ensures { result ≡ completed_of self n }
    {
        RingConsumer {
            used: self.used.moved(self.layout.size, n),
            inflight: self.inflight - n,
            ..self
        }
    }

    // The record behind a rollback.
    #[tactic(auto, unfolding(crate::specs::Rollback::back_of))]
    fn back(self, cp: Checkpoint) -> RingConsumer
        ensures { result ≡ back_of self cp }
    {
        RingConsumer {
            avail: cp.avail,
            inflight: cp.inflight,
            ..self
        }
    }
}

// Is the checkpoint not the record's own, n slots before?
#[tactic(auto, unfolding(crate::specs::Rollback::stale_of))]
fn stale(p: RingConsumer, cp: Checkpoint, n: u16) -> bool
    requires { bad_move p.layout.size n cp.avail ≡ false }
    ensures { result ≡ stale_of p cp n }
{
    p.used != cp.used
        || u32::from(p.inflight) != u32::from(cp.inflight) + u32::from(n)
        || p.avail != cp.avail.moved(p.layout.size, n)
}
