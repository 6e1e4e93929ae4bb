// The lent tables, filled at opening and reset.
// SPDX-License-Identifier: Apache-2.0
// Copyright 2026 The Hyperlight Authors.
// Translated from src/virtq/ring.rs of hyperlight-common 0.18.0 (the tables of RingProducer and RingConsumer) and changed: over lent slices.
ghost use Rattle.std.specs.Prelude.{◌≡◌, map, replicate};
ghost use Rattle.std.proofs.lemmas.List.Edits.{sets};
ghost use Rattle.ring.specs.Tables.{up_to};

use base::bytes::Word;

// The same value in the first n entries, or in all that there are.
pub fn fill<T: Copy>(s: &mut [T], n: u16, v: T)
    ensures { s.new ≡ sets s.old 0 (replicate n v) }
{
    let n = s.len().min(usize::from(n));
    // Not by `fill`: it requires of every type that a clone can't fail, which `Copy` alone did not prove.
    for x in s[..n].iter_mut() {
        *x = v;
    }
}

// 0 upward in the first n entries, or in all that there are.
pub fn count_up<W: Word>(s: &mut [W], n: u16)
    ensures { s.new ≡ sets s.old 0 (map W.of (up_to n)) }
{
    let k = s.len().min(usize::from(n));
    for (i, x) in s[..k].iter_mut().enumerate() {
        *x = W::from(i as u16);
    }
}
