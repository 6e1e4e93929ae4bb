// The chains that a list of IDs names: their slots summed, and their entries cleared.
// SPDX-License-Identifier: Apache-2.0
// Copyright 2026 The Hyperlight Authors.
// Translated from src/virtq/ring.rs of hyperlight-common 0.18.0 (RingConsumer's rollback_polls) and changed: over a lent table
// of 16-bit numbers, and what the Rust asserts of the list in debug builds only is always tested.
#![tactic(auto, unfolding(crate::specs::Undo::sum_of))]

ghost use Rattle.std.specs.Prelude.{◌≡◌, ◌-◌, ◌%◌, ◌≤◌, ◌||◌, length, ◌==◌, nat_le, nat_lt, slice_index, slice_set};
ghost use Rattle.undo.specs.Undo.{outcome, answer_of, sum_of, cleared_of, flipped};

use base::{RingError, pick};

// The slots of the chains that the list names, if it names each once and they are no more than `most`, which bounds the work
// too. The table is lent mutably for the marks of `walk`, which nobody sees: it is handed back as it was.
pub fn sum(counts: &mut [u16], size: u16, most: u16, ids: &[u16]) -> Result<u16, RingError>
    ensures { outcome (answer_of result) counts.new
        ≡ outcome (sum_of size most counts.old ids.now) counts.old }
{
    if size > 32768 || most > size {
        return Err(RingError::BadRecord);
    }
    if counts.len() < usize::from(size) {
        return Err(RingError::BadLent);
    }
    walk(counts, size, most, ids)
}

// Each named entry 0. Nothing is tested: a caller clears what a sum has accepted.
pub fn clear(counts: &mut [u16], ids: &[u16])
    ensures { counts.new ≡ cleared_of counts.old ids.now }
{
    for &id in ids {
        pick::set(counts, usize::from(id), 0);
    }
}

// One pass marks the entry of each ID, a second one takes the marks away. A marked entry is above all that is left of `most`,
// so the pass stops at an ID that is named again, and after `most` IDs at the latest, however long the list is.
fn walk(counts: &mut [u16], size: u16, most: u16, ids: &[u16]) -> Result<u16, RingError>
    requires { (size ≤ 32768) × ((most ≤ size) × (size ≤ length counts.old)) }
    ensures { outcome (answer_of result) counts.new
        ≡ outcome (sum_of size most counts.old ids.now) counts.old }
{
    let mut left = most;
    for (k, &id) in ids.iter().enumerate() {
        if stops(counts, size, left, id) {
            flip_each(counts, &ids[..k]);
            return Err(RingError::BadRollback);
        }
        left -= pick::at(counts, usize::from(id), 0);
        flip(counts, id);
    }
    flip_each(counts, ids);
    Ok(most - left)
}

// Is the ID not below the size, with count 0, or with more than is left?
fn stops(counts: &[u16], size: u16, left: u16, id: u16) -> bool
    ensures { result ≡ nat_le size id
        || ((slice_index counts.now id == 0) || nat_lt left (slice_index counts.now id)) }
{
    let v = pick::at(counts, usize::from(id), 0);
    size <= id || v == 0 || left < v
}

// The entries of these IDs flipped: where each was, all is as before.
fn flip_each(counts: &mut [u16], ids: &[u16])
    ensures { counts.new ≡ flipped counts.old ids.now }
{
    for &id in ids {
        flip(counts, id);
    }
}

// The entry v becomes 65,536 - v, and 0 stays 0: twice is as before, so a mark is taken away by what made it.
fn flip(counts: &mut [u16], id: u16)
    ensures { counts.new ≡ slice_set counts.old id ((65536 - slice_index counts.old id) % 65536) }
{
    let v = pick::at(counts, usize::from(id), 0);
    pick::set(counts, usize::from(id), 0u16.wrapping_sub(v));
}
