// The chain check, and the parts of a chain whose addresses and lengths are 0, 1, ..
ghost use Rattle.std.specs.Prelude.{◌≡◌};

use base::RingError;
use base::bytes::Word;
use chain::BufferChain;
use format::part;
use lines::answer::Number;
use lines::{answer, output};
use ring::tables;
use text::Line;

// The ops 107 to 111, the format's bytes (docs/TRACE.md): a line from the op to the last value.
pub fn answer(op: u8, record: &[u8], line: &mut Line<'_>)
    ensures { line.new.out.ghost_name ≡ line.old.out.ghost_name }
{
    if op == 107 {
        return output::answer(line, op, check(record).and(answer::done()));
    }
    output::start(line, op, 0);
    // Each op has an array of its own kind alone: to set out the other as well would take longer than all else here.
    if op == 108 || op == 109 {
        let mut addrs = [0u64; 4096];
        return values(record, op == 108, &mut addrs, line);
    }
    let mut lens = [0u32; 4096];
    values(record, op == 110, &mut lens, line);
}

fn check(record: &[u8]) -> Result<(), RingError> {
    let addrs = [0u64; 4096];
    let lens = [0u32; 4096];
    let chain = BufferChain {
        addrs: part::first(&addrs, usize::from(u16::read(record, 1))),
        lens: part::first(&lens, usize::from(u16::read(record, 3))),
        readable: u64::read(record, 5) as usize,
    };
    chain.check()
}

// The part that the device reads, or the one after it, of 0, 1, .. in a slice that has room for the longest chain.
fn values<W: Word + Number>(record: &[u8], read: bool, s: &mut [W], line: &mut Line<'_>)
    ensures { line.new.out.ghost_name ≡ line.old.out.ghost_name }
{
    let s = counted(s, u16::read(record, 1));
    let readable = u64::read(record, 3) as usize;
    if read {
        return output::values(line, chain::readables(s, readable));
    }
    output::values(line, chain::writables(s, readable));
}

// 0, 1, .. n - 1 in the first entries of a slice that has room for the longest.
fn counted<W: Word>(s: &mut [W], n: u16) -> &[W] {
    tables::count_up(s, n);
    part::first(s, usize::from(n))
}
