// The chain at a cursor: walked slot by slot, and copied out.
// SPDX-License-Identifier: Apache-2.0
// Copyright 2026 The Hyperlight Authors.
// Translated from src/virtq/ring.rs of hyperlight-common 0.18.0 (RingConsumer's poll_available) and changed: a walk that
// only counts, and a copy into lent slices, so that a chain that is refused leaves nothing behind.
#![tactic(auto, unfolding(crate::specs::Walk::look_of))]

ghost use Rattle.std.specs.Prelude.{◌≡◌, map, ◌<◌};
ghost use Rattle.std.proofs.lemmas.List.Edits.{sets};
ghost use Rattle.desc.specs.declared.Descriptor.{Descriptor};
ghost use Rattle.walk.specs.Walk.{start, look_of, walk_of, slots_from, addr_of, len_of};

use base::pick;
use cursor::RingCursor;
use desc::Descriptor;

// How far a walk has come: the next slot, what was counted, whether NEXT says that there is more, whether a writable element was
// seen, and whether the chain is bad. Its fields stay as they are: `look_of` and `walk_of` of specs/ are said of them.
#[derive(Clone, Copy, PartialEq, Eq)]
pub struct Walk {
    pub at: RingCursor,
    pub count: u16,
    pub readable: u16,
    pub more: bool,
    pub writing: bool,
    pub bad: bool,
}

// One slot is looked at.
fn look(w: Walk, d: Descriptor, size: u16) -> Walk
    requires { (w.count < 65535) × (w.readable < 65535) }
    ensures { result ≡ look_of size w d }
{
    let write = d.is_writable();
    let bad = d.is_indirect() || (!write && w.writing);
    Walk {
        at: w.at.stepped(size),
        count: w.count + 1,
        readable: w.readable + u16::from(!write),
        more: d.is_next() && !bad,
        writing: write || w.writing,
        bad,
    }
}

// The slots of a ring: the lent bytes, where the table of slots begins in them, and how many there are.
#[derive(Clone, Copy)]
pub struct Slots<'a> {
    pub ring: &'a [u8],
    pub table: usize,
    pub size: u16,
}

impl Slots<'_> {
    // The chain at the cursor, at most `size` slots of it.
    pub fn chain(self, from: RingCursor) -> Walk
        ensures { result ≡ walk_of self.entry.table self.entry.size self.entry.ring.now self.entry.size (start from) }
    {
        let mut w = Walk {
            at: from,
            count: 0,
            readable: 0,
            more: true,
            writing: false,
            bad: false,
        };
        for _ in 0..self.size {
            if !w.more {
                return w;
            }
            w = look(w, ring::look(self.ring, self.table, w.at), self.size);
        }
        w
    }

    // The addresses and lengths of n slots from the cursor on, as far as there is room for them.
    pub fn copy_out(self, from: RingCursor, n: u16, addrs: &mut [u64], lens: &mut [u32])
        ensures { (addrs.new ≡ sets addrs.old 0 (map addr_of (slots_from self.entry.table self.entry.size self.entry.ring.now from n)))
            × (lens.new ≡ sets lens.old 0 (map len_of (slots_from self.entry.table self.entry.size self.entry.ring.now from n))) }
    {
        let mut c = from;
        // by place, and not over both slices at once: each takes what it has room for, also where the other is shorter
        for i in 0..usize::from(n) {
            let d = ring::look(self.ring, self.table, c);
            pick::set(addrs, i, d.addr);
            pick::set(lens, i, d.len);
            c = c.stepped(self.size);
        }
    }
}
