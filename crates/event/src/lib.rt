// An event area of the ring: when the other end is to be told.
// SPDX-License-Identifier: Apache-2.0
// Copyright 2026 The Hyperlight Authors.
// Translated from src/virtq/event.rs of hyperlight-common 0.18.0 and changed: by value, over one lent byte slice.
#![tactic(auto)]

ghost use Rattle.std.specs.Prelude.{◌≡◌};
ghost use Rattle.base.specs.Answer.{outcome, answer_of};
ghost use Rattle.base.specs.Bytes.{put_of, get_of};
ghost use Rattle.event.specs.Event.{ENABLE, event, flags_of, off_of, wrap_of, set_flags, set_desc_event, encode_of, decode_of};

use base::{RingError, bytes, pick};

// EventFlags: plain 16-bit numbers, as document 01 asks of every flag ("`bitflags`: plain 16-bit numbers").
pub const ENABLE: u16 = 0;

pub const DISABLE: u16 = 1;

pub const DESC: u16 = 2;

// The two bits of the flags, of the second word.
const FLAGS: u16 = 3;

// The bit of the wrap, of the first word; the offset has the others.
const WRAP: u16 = 32768;

// The two words of the area: offset and wrap, then flags. Of the second, fourteen bits are reserved.
#[derive(Clone, Copy, PartialEq, Eq)]
pub struct EventSuppression {
    pub off_wrap: u16,
    pub flags: u16,
}

impl EventSuppression {
    pub fn new(off_wrap: u16, flags: u16) -> Self
        ensures { result ≡ event off_wrap flags }
    {
        EventSuppression { off_wrap, flags }
    }

    pub fn flags(self) -> u16
        ensures { result ≡ flags_of self }
    {
        self.flags & FLAGS
    }

    // The reserved bits stay: they are not this end's to clear.
    #[tactic(auto, using(crate::proofs::Masks::flags_kept), unfolding(crate::specs::Event::set_flags))]
    pub fn set_flags(self, flags: u16) -> EventSuppression
        ensures { result ≡ set_flags self flags }
    {
        EventSuppression {
            flags: self.flags & !FLAGS | flags & FLAGS,
            ..self
        }
    }

    pub fn desc_event_off(self) -> u16
        ensures { result ≡ off_of self }
    {
        self.off_wrap & !WRAP
    }

    pub fn desc_event_wrap(self) -> bool
        ensures { result ≡ wrap_of self }
    {
        self.off_wrap & WRAP != 0
    }

    #[tactic(auto, using(crate::proofs::Masks::wrap_beside), unfolding(crate::specs::Event::set_desc_event))]
    pub fn set_desc_event(self, off: u16, wrap: bool) -> EventSuppression
        ensures { result ≡ set_desc_event self off wrap }
    {
        EventSuppression {
            off_wrap: off & !WRAP | pick::pick(wrap, WRAP, 0),
            ..self
        }
    }

    #[tactic(auto, unfolding(crate::specs::Event::encode_of, base::specs::Bytes::bytes_of))]
    pub fn encode(self) -> [u8; 4]
        ensures { result ≡ encode_of self }
    {
        let [o0, o1] = self.off_wrap.to_le_bytes();
        let [f0, f1] = self.flags.to_le_bytes();
        [o0, o1, f0, f1]
    }

    // By constant places of the array, as a descriptor is.
    #[tactic(auto, unfolding(crate::specs::Event::decode_of, base::specs::Bytes::word_at))]
    pub fn decode(b: [u8; 4]) -> EventSuppression
        ensures { result ≡ decode_of b }
    {
        EventSuppression {
            off_wrap: u16::from_le_bytes([b[0], b[1]]),
            flags: u16::from_le_bytes([b[2], b[3]]),
        }
    }

    // The area at `at`; as if it were zero where it is not whole in the lent bytes.
    pub fn read(ring: &[u8], at: usize) -> EventSuppression
        ensures { result ≡ decode_of (get_of ring.now at 4) }
    {
        EventSuppression::decode(bytes::get(ring, at))
    }

    // The flags are the last two bytes, so they are stored last.
    pub fn write(self, ring: &mut [u8], at: usize) -> Result<(), RingError>
        ensures { outcome (answer_of result) ring.new ≡ put_of ring.old at (encode_of self) }
    {
        bytes::put(ring, at, &self.encode())
    }

    pub fn clear(ring: &mut [u8], at: usize) -> Result<(), RingError>
        ensures { outcome (answer_of result) ring.new ≡ put_of ring.old at (encode_of (event 0 ENABLE)) }
    {
        EventSuppression::new(0, ENABLE).write(ring, at)
    }
}
