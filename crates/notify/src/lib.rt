// Whether the other end is to be told.
// SPDX-License-Identifier: Apache-2.0
// Copyright 2026 The Hyperlight Authors.
// Translated from src/virtq/ring.rs of hyperlight-common 0.18.0 (should_notify, ring_need_event) and changed: by value, and
// heads are tested.
#![tactic(auto)]

ghost use Rattle.std.specs.Prelude.{◌≡◌};
ghost use Rattle.notify.specs.Notify.{need_event, awaited, notify_of, answer_of, should_notify_of};

use base::RingError;
use cursor::RingCursor;
use event::EventSuppression;

// Is the awaited index one of those from old up to new?
#[tactic(auto, unfolding(crate::specs::Notify::need_event, crate::specs::Notify::sub16))]
pub fn ring_need_event(event_idx: u16, new: u16, old: u16) -> bool
    ensures { result ≡ need_event event_idx new old }
{
    new.wrapping_sub(event_idx).wrapping_sub(1) < new.wrapping_sub(old)
}

// Called alone: the cursors are tested.
#[tactic(auto, unfolding(crate::specs::Notify::should_notify_of))]
pub fn should_notify(
    evt: EventSuppression,
    ring_len: u16,
    old: RingCursor,
    new: RingCursor,
) -> Result<bool, RingError>
    ensures { answer_of result ≡ should_notify_of evt ring_len old new }
{
    if ring_len <= old.head || ring_len <= new.head {
        return Err(RingError::BadRecord);
    }
    Ok(decide(evt, ring_len, old, new))
}

// The decision, for an end that has tested its cursors.
#[tactic(auto, unfolding(crate::specs::Notify::notify_of))]
pub fn decide(evt: EventSuppression, ring_len: u16, old: RingCursor, new: RingCursor) -> bool
    ensures { result ≡ notify_of evt ring_len old new }
{
    match evt.flags() {
        event::DISABLE => false,
        event::ENABLE => true,
        event::DESC if evt.desc_event_off() < ring_len => {
            ring_need_event(awaited_index(evt, ring_len, new), new.head, old.head)
        }
        _ => false,
    }
}

// The event's offset, seen from the round of the new cursor.
#[tactic(auto, unfolding(crate::specs::Notify::awaited, crate::specs::Notify::sub16))]
fn awaited_index(evt: EventSuppression, ring_len: u16, new: RingCursor) -> u16
    ensures { result ≡ awaited evt ring_len new }
{
    let off = evt.desc_event_off();
    if evt.desc_event_wrap() == new.wrap {
        off
    } else {
        off.wrapping_sub(ring_len)
    }
}
