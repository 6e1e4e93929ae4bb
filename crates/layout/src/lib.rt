// Where a ring's three areas are in the lent bytes.
// The Rust's Layout (src/virtq/mod.rs of hyperlight-common 0.18.0) is not moved; this one stands in its place, with
// document 01's tests.
#![tactic(auto, unfolding(crate::specs::Layout::apart, crate::specs::Layout::bad_layout, crate::specs::Layout::outside))]

ghost use Rattle.std.specs.Prelude.{◌≡◌};
ghost use Rattle.base.specs.Answer.{refusal};
ghost use Rattle.layout.specs.Layout.{layout, apart, bad_layout, outside, answer_of, open_refusal, open_of};

use base::{RingError, pick};

// Offsets of the table of slots and of the two event areas, and the number of slots.
#[derive(Clone, Copy, PartialEq, Eq)]
pub struct Layout {
    pub table: usize,
    pub driver: usize,
    pub device: usize,
    pub size: u16,
}

// n bytes from a, and m from b, do not overlap.
fn are_apart(a: usize, n: usize, b: usize, m: usize) -> bool
    ensures { result ≡ apart a n b m }
{
    pick::ends_by(a, n, b) || pick::ends_by(b, m, a)
}

impl Layout {
    // A layout of these numbers that passes the test at opening.
    #[tactic(auto, unfolding(crate::specs::Layout::open_refusal, crate::specs::Layout::open_of))]
    pub fn new(
        size: u16,
        table: usize,
        driver: usize,
        device: usize,
        bytes: usize,
    ) -> Result<Layout, RingError>
        ensures { answer_of result ≡ open_of (layout size table driver device) bytes }
    {
        let l = Layout {
            table,
            driver,
            device,
            size,
        };
        l.check(bytes)?;
        Ok(l)
    }

    // The test at opening, over so many lent bytes.
    #[tactic(auto, unfolding(crate::specs::Layout::open_refusal))]
    pub fn check(self, bytes: usize) -> Result<(), RingError>
        ensures { refusal result ≡ open_refusal self bytes }
    {
        if self.is_bad() || self.is_outside(bytes) {
            return Err(RingError::InvalidLayout);
        }
        Ok(())
    }

    // A stored geometry that no opening would have taken, whatever it was lent.
    pub fn is_bad(self) -> bool
        ensures { result ≡ bad_layout self }
    {
        let span = usize::from(self.size) * 16;
        self.size == 0
            || self.size > 32768
            || self.table % 16 != 0
            || self.driver % 4 != 0
            || self.device % 4 != 0
            || !are_apart(self.table, span, self.driver, 4)
            || !are_apart(self.table, span, self.device, 4)
            || !are_apart(self.driver, 4, self.device, 4)
    }

    // Are so many bytes too few for the three areas?
    pub fn is_outside(self, bytes: usize) -> bool
        ensures { result ≡ outside self bytes }
    {
        let span = usize::from(self.size) * 16;
        !pick::ends_by(self.table, span, bytes)
            || !pick::ends_by(self.driver, 4, bytes)
            || !pick::ends_by(self.device, 4, bytes)
    }
}
