// A chain of buffers: lent addresses, lent lengths, and how many of its elements the device reads. Readables come
// first by form. Addresses and lengths are two slices, and not one of pairs: the rules lend them so.
// SPDX-License-Identifier: Apache-2.0
// Copyright 2026 The Hyperlight Authors.
// Translated from src/virtq/ring.rs of hyperlight-common 0.18.0 (BufferChain) and changed: the parts are of one lent slice.
#![tactic(auto, unfolding(crate::specs::Chain::bad_slices, crate::specs::Chain::check_of))]

ghost use Rattle.std.specs.Prelude.{◌≡◌, length};
ghost use Rattle.base.specs.Answer.{answer_of};
ghost use Rattle.base.specs.Part.{slice};
ghost use Rattle.chain.specs.Chain.{bad_slices, check_of, readables_of, writables_of};
ghost use Rattle.std.specs.Mem.{type_size};

use base::RingError;

// The part that the device reads, of a chain's addresses or of its lengths.
pub fn readables<T>(s: &[T], readable: usize) -> &[T]
    ensures { slice result.ref_ptr result.now ≡ readables_of (type_size T.row) readable (slice s.entry.ref_ptr s.now) }
{
    // the contract says where an empty part lies too, which `s.get(..)` leaves open
    if readable <= s.len() {
        return &s[..readable];
    }
    &s[s.len()..]
}

// The part after it, which the device writes.
pub fn writables<T>(s: &[T], readable: usize) -> &[T]
    ensures { slice result.ref_ptr result.now ≡ writables_of (type_size T.row) readable (slice s.entry.ref_ptr s.now) }
{
    // the contract says where an empty part lies too, which `s.get(..)` leaves open
    if readable <= s.len() {
        return &s[readable..];
    }
    &s[s.len()..]
}

// May slices of these lengths, with this count, be no chain? Of numbers, and not of a chain: `lent` asks it of lengths that no
// slice has.
pub fn is_bad(addrs: usize, lens: usize, readable: usize) -> bool
    ensures { result ≡ bad_slices addrs lens readable }
{
    addrs != lens || addrs < readable
}

// A lent chain: the addresses of its buffers, their lengths, and how many of them the device reads.
#[derive(Clone, Copy)]
pub struct BufferChain<'a> {
    pub addrs: &'a [u64],
    pub lens: &'a [u32],
    pub readable: usize,
}

impl BufferChain<'_> {
    // May these slices, with this count, be no chain?
    pub fn is_bad(self) -> bool
        ensures { result ≡ bad_slices (length self.entry.addrs.now) (length self.entry.lens.now) self.entry.readable }
    {
        is_bad(self.addrs.len(), self.lens.len(), self.readable)
    }

    // The Rust's builder can make no such chain; here the caller lends one.
    pub fn check(self) -> Result<(), RingError>
        ensures { answer_of result ≡ check_of (length self.entry.addrs.now) (length self.entry.lens.now) self.entry.readable }
    {
        if self.is_bad() {
            return Err(RingError::BadLent);
        }
        Ok(())
    }
}
