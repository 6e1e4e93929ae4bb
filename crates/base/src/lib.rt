// What every crate of the ring speaks: the refusals by name, and total reads and picks.
// SPDX-License-Identifier: Apache-2.0
// Copyright 2026 The Hyperlight Authors.
// Translated from src/virtq/ring.rs of hyperlight-common 0.18.0 (RingError) and changed.
#![tactic(auto)]

pub mod bytes;
pub mod pick;

ghost use Rattle.std.specs.Prelude.{◌≡◌};
ghost use Rattle.base.specs.Refusals.{number_of, listed};

// The Rust's names, without Bookkeeping and MemError (nothing is allocated and no memory call fails), and three of the
// port's own, for what a caller hands in.
#[derive(Clone, Copy, PartialEq, Eq)]
pub enum RingError {
    EmptyChain = 1,
    BadChain = 2,
    WouldBlock = 3,
    OutOfMemory = 4,
    InvalidState = 5,
    InvalidLayout = 6,
    BadRecord = 7,
    BadLent = 8,
    BadRollback = 9,
}

impl RingError {
    pub fn number(self) -> u8
        ensures { result ≡ number_of self }
    {
        self as u8
    }

    // The refusal of a number. One that no refusal has is taken for the last, and not refused as by
    // `TryFrom`: `leaves` prints what it gives for 0, 10 and 255.
    pub fn numbered(number: u8) -> RingError
        ensures { number_of result ≡ listed number }
    {
        match number {
            1 => RingError::EmptyChain,
            2 => RingError::BadChain,
            3 => RingError::WouldBlock,
            4 => RingError::OutOfMemory,
            5 => RingError::InvalidState,
            6 => RingError::InvalidLayout,
            7 => RingError::BadRecord,
            8 => RingError::BadLent,
            _ => RingError::BadRollback,
        }
    }
}
