// A chain's descriptors, written at consecutive slots.
// SPDX-License-Identifier: Apache-2.0
// Copyright 2026 The Hyperlight Authors.
// Translated from src/virtq/ring.rs of hyperlight-common 0.18.0 (RingProducer's submit_available) and changed: over lent slices.
ghost use Rattle.std.specs.Prelude.{◌≡◌, ◌-◌, length};
ghost use Rattle.producer.specs.Submit.{element_of, put_tails, put_chain, written};

use base::pick;
use chain::BufferChain;
use cursor::RingCursor;
use desc::Descriptor;
use layout::Layout;

// Element i, as yet in no round.
#[tactic(auto, unfolding(crate::specs::Submit::element_of))]
fn element(chain: BufferChain, id: u16, i: usize) -> Descriptor
    ensures { result ≡ element_of id chain.entry.addrs.now chain.entry.lens.now chain.entry.readable i }
{
    // The sum stops at the largest place, which no chain is long enough to have.
    let next = pick::pick(i.saturating_add(1) < chain.addrs.len(), desc::NEXT, 0);
    let write = pick::pick(i < chain.readable, 0, desc::WRITE);
    Descriptor {
        addr: pick::at(chain.addrs, i, 0),
        len: pick::at(chain.lens, i, 0),
        id,
        flags: next + write,
    }
}

// The elements behind the first, from the cursor on; the cursor past the last one is handed back.
#[tactic(auto, using(crate::proofs::Chain::tails_more, crate::proofs::Chain::tails_none))]
fn tails(
    ring: &mut [u8],
    layout: Layout,
    chain: BufferChain,
    id: u16,
    from: RingCursor,
) -> RingCursor
    ensures { written result ring.new
        ≡ put_tails layout (element_of id chain.entry.addrs.now chain.entry.lens.now chain.entry.readable)
        (length chain.entry.addrs.now - 1) 1 from ring.old }
{
    let mut c = from;
    // By number: `element_of` and `put_tails` are said of an element's number.
    for i in 1..chain.addrs.len() {
        let d = element(chain, id, i).mark_avail(c.wrap);
        ring::write(ring, layout.table, c, d);
        c = c.stepped(layout.size);
    }
    c
}

// The tails first, then the head: a consumer that sees the head sees the whole chain.
#[tactic(auto, unfolding(crate::specs::Submit::put_chain))]
pub fn chain(
    ring: &mut [u8],
    layout: Layout,
    chain: BufferChain,
    id: u16,
    from: RingCursor,
) -> RingCursor
    ensures { written result ring.new
        ≡ put_chain layout (element_of id chain.entry.addrs.now chain.entry.lens.now chain.entry.readable)
        (length chain.entry.addrs.now) from ring.old }
{
    let past = tails(ring, layout, chain, id, from.stepped(layout.size));
    let head = element(chain, id, 0).mark_avail(from.wrap);
    ring::write(ring, layout.table, from, head);
    past
}
