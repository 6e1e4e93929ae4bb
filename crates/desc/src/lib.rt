// A descriptor of the ring: sixteen little-endian bytes, its flags, and the table of slots.
// SPDX-License-Identifier: Apache-2.0
// Copyright 2026 The Hyperlight Authors.
// Translated from src/virtq/desc.rs of hyperlight-common 0.18.0 and changed: by value, over one lent byte slice.
#![tactic(auto)]

ghost use Rattle.std.specs.Prelude.{◌≡◌, ◌*◌, replicate, eqb};
ghost use Rattle.base.specs.Answer.{outcome, answer_of};
ghost use Rattle.base.specs.Bytes.{put_of, get_of};
ghost use Rattle.desc.specs.Flags.{NEXT, WRITE, INDIRECT, has, known, others, is_avail, is_used};
ghost use Rattle.desc.specs.Desc.{descriptor, encode_of, decode_of, mark_avail, mark_used};
ghost use Rattle.desc.specs.Table.{table, desc_addr_of};
ghost use Rattle.desc.specs.Table as places;

use base::{RingError, bytes, pick};

// Plain 16-bit numbers, as document 01 asks of every flag ("`bitflags`: plain 16-bit numbers").
pub const NEXT: u16 = 1;

pub const WRITE: u16 = 2;

pub const INDIRECT: u16 = 4;

pub const AVAIL: u16 = 128;

pub const USED: u16 = 32768;

#[derive(Clone, Copy, PartialEq, Eq)]
pub struct Descriptor {
    pub addr: u64,
    pub len: u32,
    pub id: u16,
    pub flags: u16,
}

// Did the driver make a slot with these flags available in the round `wrap`? AVAIL alone does not tell: a used slot
// of round true has it too.
#[tactic(auto, using(crate::proofs::Masks::has_avail, crate::proofs::Masks::has_used), unfolding(crate::specs::Flags::is_avail))]
pub fn is_avail(flags: u16, wrap: bool) -> bool
    ensures { result ≡ is_avail flags wrap }
{
    let avail = flags & AVAIL != 0;
    let used = flags & USED != 0;
    avail == wrap && used != wrap
}

// Did the device mark it used in the round `wrap`?
#[tactic(auto, using(crate::proofs::Masks::has_avail, crate::proofs::Masks::has_used), unfolding(crate::specs::Flags::is_used))]
pub fn is_used(flags: u16, wrap: bool) -> bool
    ensures { result ≡ is_used flags wrap }
{
    let avail = flags & AVAIL != 0;
    let used = flags & USED != 0;
    avail == wrap && used == wrap
}

// Every bit but AVAIL and USED.
#[tactic(auto, using(crate::proofs::Masks::mask_others))]
fn unmarked(flags: u16) -> u16
    ensures { result ≡ others flags }
{
    flags & !(AVAIL | USED)
}

impl Descriptor {
    pub fn new(addr: u64, len: u32, id: u16, flags: u16) -> Self
        ensures { result ≡ descriptor addr len id flags }
    {
        Descriptor {
            addr,
            len,
            id,
            flags,
        }
    }

    // The five flags that there are; the others are ignored.
    #[tactic(auto, using(crate::proofs::Masks::mask_known))]
    pub fn flags(self) -> u16
        ensures { result ≡ known self.flags }
    {
        self.flags & (NEXT | WRITE | INDIRECT | AVAIL | USED)
    }

    pub fn is_avail(self, wrap: bool) -> bool
        ensures { result ≡ is_avail self.flags wrap }
    {
        is_avail(self.flags, wrap)
    }

    pub fn is_used(self, wrap: bool) -> bool
        ensures { result ≡ is_used self.flags wrap }
    {
        is_used(self.flags, wrap)
    }

    #[tactic(auto, using(crate::proofs::Masks::has_write))]
    pub fn is_writable(self) -> bool
        ensures { result ≡ has self.flags WRITE }
    {
        self.flags & WRITE != 0
    }

    #[tactic(auto, using(crate::proofs::Masks::has_next))]
    pub fn is_next(self) -> bool
        ensures { result ≡ has self.flags NEXT }
    {
        self.flags & NEXT != 0
    }

    // The Rust asks for INDIRECT where it polls; no table behind a descriptor is ever followed.
    #[tactic(auto, using(crate::proofs::Masks::has_indirect))]
    pub fn is_indirect(self) -> bool
        ensures { result ≡ has self.flags INDIRECT }
    {
        self.flags & INDIRECT != 0
    }

    #[tactic(auto, using(crate::proofs::Masks::marked_avail), unfolding(crate::specs::Desc::mark_avail))]
    pub fn mark_avail(self, wrap: bool) -> Descriptor
        ensures { result ≡ mark_avail self wrap }
    {
        Descriptor {
            flags: unmarked(self.flags) | pick::pick(wrap, AVAIL, USED),
            ..self
        }
    }

    #[tactic(auto, using(crate::proofs::Masks::marked_used), unfolding(crate::specs::Desc::mark_used))]
    pub fn mark_used(self, wrap: bool) -> Descriptor
        ensures { result ≡ mark_used self wrap }
    {
        Descriptor {
            flags: unmarked(self.flags) | pick::pick(wrap, AVAIL | USED, 0),
            ..self
        }
    }

    pub fn encode(self) -> [u8; 16]
        ensures { result ≡ encode_of self }
    {
        let [a0, a1, a2, a3, a4, a5, a6, a7] = self.addr.to_le_bytes();
        let [l0, l1, l2, l3] = self.len.to_le_bytes();
        let [i0, i1] = self.id.to_le_bytes();
        let [f0, f1] = self.flags.to_le_bytes();
        [
            a0, a1, a2, a3, a4, a5, a6, a7, l0, l1, l2, l3, i0, i1, f0, f1,
        ]
    }

    // By constant places of the array, and not by `u64::read`: no place is tested while a ring is polled.
    #[tactic(auto, unfolding(crate::specs::Desc::decode_of, base::specs::Bytes::word_at))]
    pub fn decode(b: [u8; 16]) -> Descriptor
        ensures { result ≡ decode_of b }
    {
        Descriptor {
            addr: u64::from_le_bytes([b[0], b[1], b[2], b[3], b[4], b[5], b[6], b[7]]),
            len: u32::from_le_bytes([b[8], b[9], b[10], b[11]]),
            id: u16::from_le_bytes([b[12], b[13]]),
            flags: u16::from_le_bytes([b[14], b[15]]),
        }
    }
}

// The sixteen bytes b into the slot at `at`. The flags are its last two bytes, so they are stored last.
pub fn store(ring: &mut [u8], at: usize, b: [u8; 16]) -> Result<(), RingError>
    ensures { outcome (answer_of result) ring.new ≡ put_of ring.old at b }
{
    bytes::put(ring, at, &b)
}

// The sixteen bytes of the slot at `at`; zeros where it is not whole in the lent bytes.
pub fn load(ring: &[u8], at: usize) -> [u8; 16]
    ensures { result ≡ get_of ring.now at 16 }
{
    bytes::get(ring, at)
}

// A table of `len` slots from `base_addr` of the lent bytes on.
#[derive(Clone, Copy, PartialEq, Eq)]
pub struct DescTable {
    pub base_addr: usize,
    pub len: usize,
}

impl DescTable {
    pub const DEFAULT_LEN: usize = 256;

    pub fn from_raw_parts(base_addr: usize, len: usize) -> Self
        ensures { result ≡ table base_addr len }
    {
        DescTable { base_addr, len }
    }

    // Where a slot is, if the table has it.
    #[tactic(auto, unfolding(crate::specs::Table::desc_addr_of))]
    pub fn desc_addr(self, idx: u16) -> Option<usize>
        ensures { places.answer_of result ≡ desc_addr_of self idx }
    {
        let i = idx as usize;
        if self.len <= i {
            return None;
        }
        self.base_addr.checked_add(i * 16)
    }

    // Zeros in every slot.
    pub fn clear(self, ring: &mut [u8]) -> Result<(), RingError>
        ensures { outcome (answer_of result) ring.new ≡ put_of ring.old self.base_addr (replicate (16 * self.len) 0) }
    {
        if ring.len() / 16 < self.len {
            return Err(RingError::BadLent);
        }
        bytes::zero(ring, self.base_addr, 16 * self.len)
    }

    pub fn len(self) -> usize
        ensures { result ≡ self.len }
    {
        self.len
    }

    pub fn is_empty(self) -> bool
        ensures { result ≡ eqb self.len 0 }
    {
        self.len == 0
    }

    pub fn base_addr(self) -> usize
        ensures { result ≡ self.base_addr }
    {
        self.base_addr
    }

    pub fn default_len() -> usize
        ensures { result ≡ 256 }
    {
        DescTable::DEFAULT_LEN
    }
}
