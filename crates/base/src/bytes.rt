// Little-endian words, and runs of bytes in a lent slice.
ghost use Rattle.std.specs.Prelude.{ℕ, ◌≡◌, drop, length, replicate};
ghost use Rattle.base.specs.Answer.{outcome, answer_of};
ghost use Rattle.base.specs.Bytes.{word_at, put_of, get_of};

use crate::{RingError, pick};

// A number of so many bytes, the lowest first.
pub trait Word: Copy + From<u16> {
    ghost width: { ℕ };

    // The word of a number.
    ghost of: { ℕ → Self };

    // The word from place `at` on. Past the end there are zeros.
    fn read(s: &[u8], at: usize) -> Self
        ensures { result ≡ of (word_at s.now at width) };

    ghost from_same: { (n : ℕ) (x : Self) → Self.from_gives n x → x ≡ of n };
}

// Each width reads its own bytes one by one: past the end there are zeros, which no array taken from a slice has.
impl Word for u16 {
    ghost width = { 2 };

    ghost of = { λ n. n };

    ghost from_same = { λ n x e. e };

    fn read(s: &[u8], at: usize) -> u16 {
        let s = from(s, at);
        u16::from_le_bytes([pick::at(s, 0, 0), pick::at(s, 1, 0)])
    }
}

impl Word for u32 {
    ghost width = { 4 };

    ghost of = { λ n. n };

    ghost from_same = { λ n x e. e };

    fn read(s: &[u8], at: usize) -> u32 {
        let s = from(s, at);
        u32::from_le_bytes([
            pick::at(s, 0, 0),
            pick::at(s, 1, 0),
            pick::at(s, 2, 0),
            pick::at(s, 3, 0),
        ])
    }
}

impl Word for u64 {
    ghost width = { 8 };

    ghost of = { λ n. n };

    ghost from_same = { λ n x e. e };

    fn read(s: &[u8], at: usize) -> u64 {
        let s = from(s, at);
        u64::from_le_bytes([
            pick::at(s, 0, 0),
            pick::at(s, 1, 0),
            pick::at(s, 2, 0),
            pick::at(s, 3, 0),
            pick::at(s, 4, 0),
            pick::at(s, 5, 0),
            pick::at(s, 6, 0),
            pick::at(s, 7, 0),
        ])
    }
}

// What is left of a slice from a place on: nothing past its end.
fn from(s: &[u8], at: usize) -> &[u8]
    ensures { result.now ≡ drop at s.now }
{
    s.get(at..).unwrap_or_default()
}

// N zeros. Their number is proved once, of every N: a proof that sees a very long array written out counts it.
pub fn zeros<const N: usize>() -> [u8; N]
    ensures value { result ≡ replicate N 0 }
    ensures len { N ≡ length result }
{
    [0; N]
}

// The N bytes from place `at` on; zeros where they are not whole in the slice.
#[tactic(auto, using(crate::proofs::Runs::get_fits, crate::proofs::Runs::get_short))]
pub fn get<const N: usize>(s: &[u8], at: usize) -> [u8; N]
    ensures { result ≡ get_of s.now at N }
{
    match from(s, at).first_chunk::<N>() {
        Some(bytes) => *bytes,
        None => [0; N],
    }
}

// The bytes b from place `at` on, whatever their number. They are stored one by one in their order, so that what is last in b, as
// a slot's flags, is stored last: `copy_from_slice` has no order.
pub fn put(ring: &mut [u8], at: usize, b: &[u8]) -> Result<(), RingError>
    ensures { outcome (answer_of result) ring.new ≡ put_of ring.old at b.now }
{
    if !pick::ends_by(at, b.len(), ring.len()) {
        return Err(RingError::BadLent);
    }
    for (k, &byte) in b.iter().enumerate() {
        ring[at + k] = byte;
    }
    Ok(())
}

// n zeros from place `at` on.
pub fn zero(ring: &mut [u8], at: usize, n: usize) -> Result<(), RingError>
    ensures { outcome (answer_of result) ring.new ≡ put_of ring.old at (replicate n 0) }
{
    if !pick::ends_by(at, n, ring.len()) {
        return Err(RingError::BadLent);
    }
    ring[at..at + n].fill(0);
    Ok(())
}
