// A place in a ring, and the round that it is in.
// SPDX-License-Identifier: Apache-2.0
// Copyright 2026 The Hyperlight Authors.
// Translated from src/virtq/ring.rs of hyperlight-common 0.18.0 (RingCursor) and changed: by value, the size handed in.
#![tactic(auto)]

ghost use Rattle.std.specs.Prelude.{◌≡◌, false};
ghost use Rattle.cursor.specs.Cursor.{fresh, step, steps, bad_move, outcome, answer_of, advance_of};

use base::RingError;

#[derive(Clone, Copy, PartialEq, Eq)]
pub struct RingCursor {
    pub head: u16,
    pub wrap: bool,
}

impl RingCursor {
    pub fn new() -> Self
        ensures { result ≡ fresh }
    {
        RingCursor {
            head: 0,
            wrap: true,
        }
    }

    // To the next slot: the cursor that is left, and the answer.
    #[tactic(auto, using(crate::proofs::Laws::steps_one), unfolding(crate::specs::Cursor::advance_of))]
    pub fn advance(self, size: u16) -> (RingCursor, Result<(), RingError>)
        ensures { outcome (answer_of result) result.0 ≡ advance_of size 1 self }
    {
        if self.refuses(size, 1) {
            return (self, Err(RingError::BadRecord));
        }
        (self.stepped(size), Ok(()))
    }

    // By n slots.
    #[tactic(auto, unfolding(crate::specs::Cursor::advance_of))]
    pub fn advance_by(self, size: u16, n: u16) -> (RingCursor, Result<(), RingError>)
        ensures { outcome (answer_of result) result.0 ≡ advance_of size n self }
    {
        if self.refuses(size, n) {
            return (self, Err(RingError::BadRecord));
        }
        (self.divided(size, n), Ok(()))
    }

    // The next slot's cursor, for an end whose record was tested as a whole: it has nothing to refuse any more.
    #[tactic(auto, unfolding(crate::specs::Cursor::step))]
    pub fn stepped(self, size: u16) -> RingCursor
        ensures { result ≡ step size self }
    {
        if u32::from(self.head) + 1 < u32::from(size) {
            return RingCursor {
                head: self.head + 1,
                ..self
            };
        }
        RingCursor {
            head: 0,
            wrap: !self.wrap,
        }
    }

    // The cursor that `advance_by` hands back, for the same use.
    pub fn moved(self, size: u16, n: u16) -> RingCursor
        ensures { result ≡ (advance_of size n self).cursor }
    {
        self.advance_by(size, n).0
    }

    pub fn head(self) -> u16
        ensures { result ≡ self.head }
    {
        self.head
    }

    pub fn wrap(self) -> bool
        ensures { result ≡ self.wrap }
    {
        self.wrap
    }

    pub fn reset(self) -> RingCursor
        ensures { result ≡ fresh }
    {
        RingCursor::new()
    }

    #[tactic(auto, unfolding(crate::specs::Cursor::bad_move))]
    fn refuses(self, size: u16, n: u16) -> bool
        ensures { result ≡ bad_move size n self }
    {
        size == 0 || 32768 < size || size <= self.head || size < n
    }

    // Both the slot and the round by division, as the Rust has it.
    fn divided(self, size: u16, n: u16) -> RingCursor
        requires { bad_move size n self ≡ false }
        ensures { result ≡ steps size n self }
    {
        let new = self.head + n;
        let wraps = new / size;
        if wraps % 2 == 0 {
            return RingCursor {
                head: new % size,
                ..self
            };
        }
        RingCursor {
            head: new % size,
            wrap: !self.wrap,
        }
    }
}
