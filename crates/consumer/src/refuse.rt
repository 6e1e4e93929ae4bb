// When a call of the consumer is refused: the tests in the order of their numbers, as the rules list them for each call.
// SPDX-License-Identifier: Apache-2.0
// Copyright 2026 The Hyperlight Authors.
// Translated from src/virtq/ring.rs of hyperlight-common 0.18.0 (the tests of RingConsumer's calls) and changed: over lent slices.
ghost use Rattle.std.specs.Prelude.{◌≡◌, cond};
ghost use Rattle.base.specs.Answer.{refusal};
ghost use Rattle.consumer.specs.Record.{bad_record, bad_lent, bytes_refusal, lent_refusal};
ghost use Rattle.consumer.specs.Poll.{head_refusal, walk_refusal};
ghost use Rattle.consumer.specs.Complete.{complete_refusal};
ghost use Rattle.consumer.specs.Rollback.{handed_refusal};

use crate::{Checkpoint, RingConsumer};
use base::{RingError, pick};
use desc::Descriptor;
use walk::Walk;

// A call that is lent nothing.
// Inlined: a call would copy the record, which costs as much as the tests.
#[inline(always)]
#[tactic(auto, unfolding(crate::specs::Record::bad_record))]
pub fn record(p: RingConsumer) -> Result<(), RingError>
    ensures { refusal result ≡ cond (bad_record p) 7 0 }
{
    let size = p.layout.size;
    if p.layout.is_bad() || p.avail.head >= size || p.used.head >= size || p.inflight > size {
        return Err(RingError::BadRecord);
    }
    Ok(())
}

// A call that is lent the bytes alone. Each end has its own, over its record: a trait for one test would be longer.
#[tactic(auto, unfolding(crate::specs::Record::bytes_refusal))]
pub fn bytes(p: RingConsumer, lent: usize) -> Result<(), RingError>
    ensures { refusal result ≡ bytes_refusal p lent }
{
    record(p)?;
    if p.layout.is_outside(lent) {
        return Err(RingError::BadLent);
    }
    Ok(())
}

// Are bytes and counts of these lengths too few? Two lengths, and no struct of them: each caller would build it for one call.
#[tactic(auto, unfolding(crate::specs::Record::bad_lent))]
fn is_short(p: RingConsumer, bytes: usize, counts: usize) -> bool
    ensures { result ≡ bad_lent p bytes counts }
{
    p.layout.is_outside(bytes) || counts < usize::from(p.layout.size)
}

// A call that is lent the bytes and the counts.
#[inline(always)]
#[tactic(auto, unfolding(crate::specs::Record::lent_refusal))]
pub fn all(p: RingConsumer, bytes: usize, counts: usize) -> Result<(), RingError>
    ensures { refusal result ≡ lent_refusal p bytes counts }
{
    record(p)?;
    if is_short(p, bytes, counts) {
        return Err(RingError::BadLent);
    }
    Ok(())
}

// A poll, up to the head that it found: what comes after is for the walk to say. Four lengths, as the definition has them: a
// struct of them would be built for this one call.
#[tactic(auto, unfolding(crate::specs::Poll::head_refusal))]
pub fn head(
    p: RingConsumer,
    bytes: usize,
    d: Descriptor,
    counts: usize,
    addrs: usize,
    lens: usize,
) -> Result<(), RingError>
    ensures { refusal result ≡ head_refusal p bytes d counts addrs lens 0 }
{
    record(p)?;
    let size = usize::from(p.layout.size);
    if is_short(p, bytes, counts) || addrs < size || lens < size {
        return Err(RingError::BadLent);
    }
    if !d.is_avail(p.avail.wrap) {
        return Err(RingError::WouldBlock);
    }
    Ok(())
}

// The same poll, behind its walk.
#[tactic(auto, unfolding(crate::specs::Poll::walk_refusal))]
pub fn walk(p: RingConsumer, w: Walk, id: u16, counts: &[u16]) -> Result<(), RingError>
    ensures { refusal result ≡ walk_refusal p w id counts.now }
{
    if w.bad || w.more {
        return Err(RingError::BadChain);
    }
    let size = p.layout.size;
    let held = pick::at(counts, usize::from(id), 0) != 0;
    let over = u32::from(p.inflight) + u32::from(w.count) > u32::from(size);
    if id >= size || held || over {
        return Err(RingError::InvalidState);
    }
    Ok(())
}

#[tactic(auto, unfolding(crate::specs::Complete::complete_refusal, crate::specs::Record::lent_refusal))]
pub fn complete(p: RingConsumer, bytes: usize, id: u16, counts: &[u16]) -> Result<(), RingError>
    ensures { refusal result ≡ complete_refusal p bytes id counts.now }
{
    all(p, bytes, counts.len())?;
    let n = pick::at(counts, usize::from(id), 0);
    if id >= p.layout.size || n == 0 || p.inflight < n {
        return Err(RingError::InvalidState);
    }
    Ok(())
}

// A rollback, before its list is looked at.
#[tactic(auto, unfolding(crate::specs::Rollback::handed_refusal))]
pub fn handed(p: RingConsumer, cp: Checkpoint, counts: usize) -> Result<(), RingError>
    ensures { refusal result ≡ handed_refusal p cp counts 0 }
{
    record(p)?; // 7, also for the cursors below, comes before 8
    let size = p.layout.size;
    if cp.avail.head >= size || cp.used.head >= size {
        return Err(RingError::BadRecord);
    }
    if counts < usize::from(size) {
        return Err(RingError::BadLent);
    }
    Ok(())
}
