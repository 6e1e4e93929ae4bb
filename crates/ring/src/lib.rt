// What both ends do to the lent bytes: a slot looked at and written, an event area turned, armed and asked.
// SPDX-License-Identifier: Apache-2.0
// Copyright 2026 The Hyperlight Authors.
// Translated from src/virtq/ring.rs of hyperlight-common 0.18.0 and changed: what RingProducer and RingConsumer both have,
// said once, over one lent byte slice.
#![tactic(auto)]

pub mod tables;

ghost use Rattle.std.specs.Prelude.{◌≡◌, cond, ◌+◌, ◌*◌, leb};
ghost use Rattle.ring.specs.Slots.{slot_of, slot_put};
ghost use Rattle.ring.specs.Events.{turned, armed, told};

use cursor::RingCursor;
use desc::Descriptor;
use event::EventSuppression;

// A place past the largest number is the largest: no slot is whole there either.
fn place(table: usize, head: u16) -> usize
    ensures { result ≡ cond (leb (table + head * 16) 18446744073709551615) (table + head * 16) 18446744073709551615 }
{
    table.saturating_add(usize::from(head) * 16)
}

// The descriptor in the cursor's slot, as if it were zero where the slot is not whole in the bytes.
#[tactic(auto, unfolding(crate::specs::Slots::slot_of), using(crate::proofs::Laws::clamped_get))]
pub fn look(ring: &[u8], table: usize, c: RingCursor) -> Descriptor
    ensures { result ≡ slot_of table c ring.now }
{
    Descriptor::decode(desc::load(ring, place(table, c.head)))
}

// A descriptor into the cursor's slot; nothing where the slot is not whole in the bytes. Whether it is was asked of the record and the
// bytes before, so the answer of a store says no more here.
pub fn write(ring: &mut [u8], table: usize, c: RingCursor, d: Descriptor)
    ensures { ring.new ≡ slot_put table c d ring.old }
{
    let at = place(table, c.head);
    let _ = desc::store(ring, at, d.encode());
}

// The event area's flags set, its offset word kept; nothing is written where the end's shadow already says so.
#[tactic(auto, unfolding(crate::specs::Events::turned))]
pub fn turn(ring: &mut [u8], at: usize, shadow: u16, flags: u16)
    ensures { ring.new ≡ turned at shadow flags ring.old }
{
    if shadow == flags {
        return;
    }
    let e = EventSuppression::read(ring, at).set_flags(flags);
    let _ = e.write(ring, at);
}

// The event area set to DESC at a slot of a round.
#[tactic(auto, unfolding(crate::specs::Events::armed))]
pub fn arm(ring: &mut [u8], at: usize, off: u16, wrap: bool)
    ensures { ring.new ≡ armed at off wrap ring.old }
{
    let e = EventSuppression::read(ring, at)
        .set_desc_event(off, wrap)
        .set_flags(event::DESC);
    let _ = e.write(ring, at);
}

// Does the event area ask to be told of a move from old to new?
#[tactic(auto, unfolding(crate::specs::Events::told))]
pub fn should_notify_evt(
    ring: &[u8],
    at: usize,
    size: u16,
    old: RingCursor,
    new: RingCursor,
) -> bool
    ensures { result ≡ told at size old new ring.now }
{
    notify::decide(EventSuppression::read(ring, at), size, old, new)
}
