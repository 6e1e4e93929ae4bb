// When a call of the producer is refused: one early return for each test, in the order of the definitions.
// SPDX-License-Identifier: Apache-2.0
// Copyright 2026 The Hyperlight Authors.
// Translated from src/virtq/ring.rs of hyperlight-common 0.18.0 (the tests of RingProducer's calls) and changed: over lent slices.
ghost use Rattle.std.specs.Prelude.{◌≡◌, cond, length};
ghost use Rattle.base.specs.Answer.{refusal};
ghost use Rattle.producer.specs.Record.{bad_record, bytes_refusal, lent_refusal};
ghost use Rattle.producer.specs.Submit.{top_refusal, submit_refusal};
ghost use Rattle.producer.specs.Poll.{poll_refusal, next_refusal};
ghost use Rattle.producer.specs.Notices.{since_refusal};

use crate::RingProducer;
use base::{RingError, pick};
use chain::BufferChain;
use cursor::RingCursor;
use desc::Descriptor;

// Inlined: a call would copy the record, which costs as much as the tests.
#[inline(always)]
#[tactic(auto, unfolding(crate::specs::Record::bad_record))]
pub fn record(p: RingProducer) -> Result<(), RingError>
    ensures { refusal result ≡ cond (bad_record p) 7 0 }
{
    let size = p.layout.size;
    if p.layout.is_bad()
        || size <= p.avail.head
        || size <= p.used.head
        || size < p.free
        || size < p.height
    {
        return Err(RingError::BadRecord);
    }
    Ok(())
}

// A call that is lent the bytes alone. Each end has its own, over its record: a trait for one test would be longer.
#[tactic(auto, unfolding(crate::specs::Record::bytes_refusal))]
pub fn bytes(p: RingProducer, lent: usize) -> Result<(), RingError>
    ensures { refusal result ≡ bytes_refusal p lent }
{
    record(p)?;
    if p.layout.is_outside(lent) {
        return Err(RingError::BadLent);
    }
    Ok(())
}

// The same, with a cursor that is handed in.
#[tactic(auto, unfolding(crate::specs::Notices::since_refusal))]
pub fn since(p: RingProducer, lent: usize, old: RingCursor) -> Result<(), RingError>
    ensures { refusal result ≡ since_refusal p lent old }
{
    record(p)?;
    if p.layout.size <= old.head {
        return Err(RingError::BadRecord);
    }
    if p.layout.is_outside(lent) {
        return Err(RingError::BadLent);
    }
    Ok(())
}

// A call that is lent the bytes and both tables, of these lengths.
#[inline(always)]
#[tactic(auto, unfolding(crate::specs::Record::bad_lent, crate::specs::Record::lent_refusal))]
pub fn all(p: RingProducer, bytes: usize, ids: usize, counts: usize) -> Result<(), RingError>
    ensures { refusal result ≡ lent_refusal p bytes ids counts }
{
    record(p)?;
    let size = usize::from(p.layout.size);
    if p.layout.is_outside(bytes) || ids < size || counts < size {
        return Err(RingError::BadLent);
    }
    Ok(())
}

// Is there a free ID, below the size and with no count yet?
fn top(p: RingProducer, ids: &[u16], counts: &[u16]) -> Result<(), RingError>
    ensures { refusal result ≡ top_refusal p ids.now counts.now }
{
    if p.height == 0 {
        return Err(RingError::OutOfMemory);
    }
    let id = p.top(ids);
    if p.layout.size <= id || pick::at(counts, usize::from(id), 0) != 0 {
        return Err(RingError::InvalidState);
    }
    Ok(())
}

#[tactic(auto, unfolding(crate::specs::Record::lent_refusal, crate::specs::Submit::submit_refusal))]
pub fn submit(
    p: RingProducer,
    bytes: usize,
    ids: &[u16],
    counts: &[u16],
    chain: BufferChain,
) -> Result<(), RingError>
    ensures { refusal result ≡ submit_refusal p bytes ids.now counts.now
        (length chain.entry.addrs.now) (length chain.entry.lens.now) chain.entry.readable }
{
    all(p, bytes, ids.len(), counts.len())?;
    if chain.is_bad() {
        return Err(RingError::BadLent);
    }
    if chain.addrs.is_empty() {
        return Err(RingError::EmptyChain);
    }
    if usize::from(p.free) < chain.addrs.len() {
        return Err(RingError::WouldBlock);
    }
    top(p, ids, counts)
}

// A poll that found this descriptor at the used cursor.
#[tactic(auto, unfolding(crate::specs::Record::lent_refusal, crate::specs::Poll::poll_refusal))]
pub fn poll(
    p: RingProducer,
    bytes: usize,
    d: Descriptor,
    ids: usize,
    counts: &[u16],
) -> Result<(), RingError>
    ensures { refusal result ≡ poll_refusal p bytes d ids counts.now }
{
    all(p, bytes, ids, counts.len())?;
    if !d.is_used(p.used.wrap) {
        return Err(RingError::WouldBlock);
    }
    let size = p.layout.size;
    let n = pick::at(counts, usize::from(d.id), 0);
    let over = u32::from(size) < u32::from(p.free) + u32::from(n);
    if size <= d.id || n == 0 || over || size <= p.height {
        return Err(RingError::InvalidState);
    }
    Ok(())
}

#[tactic(auto, unfolding(crate::specs::Poll::next_refusal))]
pub fn next_id(p: RingProducer, ids: &[u16], counts: &[u16]) -> Result<(), RingError>
    ensures { refusal result ≡ next_refusal p ids.now counts.now }
{
    record(p)?;
    let size = usize::from(p.layout.size);
    if ids.len() < size || counts.len() < size {
        return Err(RingError::BadLent);
    }
    top(p, ids, counts)
}
