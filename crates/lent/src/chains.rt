// Lent chains: the check, and the two parts of both slices.
ghost use Rattle.std.specs.Prelude.{◌≤◌};

use crate::seen::outcome;
use chain::BufferChain;
use say::bit;

// The first n of three addresses and the first m of three lengths.
fn checked(n: usize, m: usize, readable: usize, want: u64) {
    let addrs = [1u64, 2, 3];
    let lens = [4u32, 5, 6];
    let a = chain::readables(&addrs, n);
    let l = chain::readables(&lens, m);
    let chain = BufferChain {
        addrs: a,
        lens: l,
        readable,
    };
    say::case(b"check", outcome(chain.check(), 0), want);
}

fn lengths(n: usize, m: usize, readable: usize, want: u64) {
    say::case(b"is_bad", bit(chain::is_bad(n, m, readable)), want);
}

// How many of three elements the readable part has, and ten times the writable one, of addresses and of lengths.
fn parted(readable: usize, want: u64) {
    let addrs = [1u64, 2, 3];
    let lens = [4u32, 5, 6];
    let a = few(chain::readables(&addrs, readable));
    let b = few(chain::writables(&addrs, readable));
    let c = few(chain::readables(&lens, readable));
    let d = few(chain::writables(&lens, readable));
    say::case(b"parts", a + 10 * b + 100 * c + 1000 * d, want);
}

// How many a part has, where there are no more than 9.
fn few<T>(part: &[T]) -> u64
    ensures { result ≤ 9 }
{
    part.len().min(9) as u64
}

// 8 for slices of unequal length and for a readable count above it.
pub fn checks() {
    checked(0, 0, 0, 0);
    checked(0, 0, 1, 8000);
    checked(3, 3, 0, 0);
    checked(3, 3, 3, 0);
    checked(3, 3, 4, 8000);
    checked(2, 3, 1, 8000);
    checked(3, 2, 1, 8000);
    checked(3, 3, 18446744073709551615, 8000);
    lengths(
        18446744073709551615,
        18446744073709551615,
        18446744073709551615,
        0,
    );
    lengths(18446744073709551615, 18446744073709551614, 0, 1);
}

// A part of the slice, or its empty end.
pub fn parts() {
    parted(0, 3030);
    parted(1, 2121);
    parted(2, 1212);
    parted(3, 303);
    parted(4, 0);
    parted(18446744073709551615, 0);
}
