// A cursor moved in place.
// SPDX-License-Identifier: Apache-2.0
// Copyright 2026 The Hyperlight Authors.
// Translated from src/virtq/ring.rs of hyperlight-common 0.18.0 (RingCursor's `advance(&mut self)`) and changed: the size
// handed in, and a bad move refused.
#![tactic(auto)]

ghost use Rattle.std.specs.Prelude.{◌≡◌};
ghost use Rattle.cursor.specs.Cursor.{advance_of};
ghost use Rattle.in_place.specs.InPlace.{outcome_of};

use base::RingError;
use cursor::RingCursor;

// By n slots. A refused move leaves the cursor as it was.
pub fn advance_by(cursor: &mut RingCursor, size: u16, n: u16) -> Result<(), RingError>
    ensures { outcome_of result cursor.new ≡ advance_of size n cursor.old }
{
    let (left, answer) = cursor.advance_by(size, n);
    *cursor = left;
    answer
}

// To the next slot, which is a move by one.
pub fn advance(cursor: &mut RingCursor, size: u16) -> Result<(), RingError>
    ensures { outcome_of result cursor.new ≡ advance_of size 1 cursor.old }
{
    advance_by(cursor, size, 1)
}

// A cursor of this function's own is moved in place: its callers hand over plain values.
pub fn advance_own(cursor: RingCursor, size: u16, n: u16) -> (RingCursor, Result<(), RingError>)
    ensures { outcome_of result.1 result.0 ≡ advance_of size n cursor }
{
    let mut c = cursor;
    let answer = advance_by(&mut c, size, n);
    (c, answer)
}
