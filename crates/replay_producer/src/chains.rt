// The chain that a record submits: addresses and lengths each in a slice of their own, as the ring is lent them.
use base::bytes::Word;
use chain::BufferChain;
use format::{input, part};

// The chain's numbers into the first entries of both slices, and the chain of those.
pub fn read<'a>(
    op: u8,
    record: &[u8],
    addrs: &'a mut [u64],
    lens: &'a mut [u32],
) -> BufferChain<'a> {
    if op == 71 {
        return apart(record, addrs, lens);
    }
    elements(record, addrs, lens)
}

// Elements one after the other.
fn elements<'a>(record: &[u8], addrs: &'a mut [u64], lens: &'a mut [u32]) -> BufferChain<'a> {
    let n = u16::read(record, 1);
    input::numbers(record, 5, 12, n, addrs);
    input::numbers(record, 13, 12, n, lens);
    BufferChain {
        addrs: part::first(addrs, usize::from(n)),
        lens: part::first(lens, usize::from(n)),
        readable: usize::from(u16::read(record, 3)),
    }
}

// All addresses and then all lengths, each of their own number.
fn apart<'a>(record: &[u8], addrs: &'a mut [u64], lens: &'a mut [u32]) -> BufferChain<'a> {
    let n = u16::read(record, 1);
    let m = u16::read(record, 3);
    input::numbers(record, 13, 8, n, addrs);
    input::numbers(record, 13 + 8 * usize::from(n), 4, m, lens);
    BufferChain {
        addrs: part::first(addrs, usize::from(n)),
        lens: part::first(lens, usize::from(m)),
        readable: u64::read(record, 5) as usize,
    }
}
