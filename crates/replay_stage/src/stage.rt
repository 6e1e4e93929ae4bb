// What a trace does to its memory past the ring's two ends: it sets it out at its start, and overwrites it.
ghost use Rattle.std.specs.Prelude.{◌≡◌};
ghost use Rattle.replay_stage.specs.Kept.{KeptBesideRegion, KeptBesideTables, KeptBesideLoans, KeptByCheckpoint};

use crate::memory::{AT_START, Memory};
use crate::region;
use base::bytes::Word;
use base::{bytes, pick};
use consumer::Checkpoint;
use format::lend::Lent;
use format::{header, input, lend, part};

// As a trace starts: the region of the header's length and seed, every bit of the tables and the outputs 1, all lent.
pub fn set_out(memory: &mut Memory, header: &[u8], length: usize)
    ensures { memory.new.length ≡ length }
{
    region::sow(&mut memory.region.all, length, header::seed(header));
    memory.length = length;
    memory.ids.all.fill(u16::MAX);
    memory.taken.all.fill(u16::MAX);
    memory.held.all.fill(u16::MAX);
    memory.addrs.all.fill(u64::MAX);
    memory.lens.all.fill(u32::MAX);
    memory.registers = [AT_START; 256];
    lend(memory, lend::whole(length));
}

// The ops 64, 68, 69 and 70, the format's bytes (docs/TRACE.md). None of them makes the region longer
// or shorter: later records' places are tested against its length. So each function called here has to promise it too. What
// else each leaves is in specs/Kept.antt.
pub fn overwrite(memory: &mut Memory, op: u8, record: &[u8])
    ensures length { memory.new.length ≡ memory.old.length }
    ensures bytes { op ≡ 64 → KeptBesideRegion memory.old memory.new }
    ensures entry { op ≡ 68 → KeptBesideTables memory.old memory.new }
    ensures loans { op ≡ 69 → KeptBesideLoans memory.old memory.new }
    ensures register { op ≡ 70 → KeptByCheckpoint memory.old memory.new }
{
    match op {
        64 => set_bytes(memory, record),
        68 => set_entry(memory, record),
        69 => lend(memory, lend::read(record, memory.length)),
        _ => memory.registers[usize::from(input::byte(record, 1))] = checkpoint(record),
    }
}

fn lend(memory: &mut Memory, lent: Lent)
    ensures { KeptBesideLoans memory.old memory.new }
{
    memory.region.lent = lent.bytes;
    memory.ids.lent = lent.ids;
    memory.taken.lent = lent.taken;
    memory.held.lent = lent.held;
    memory.addrs.lent = lent.addrs;
    memory.lens.lent = lent.lens;
}

fn set_bytes(memory: &mut Memory, record: &[u8])
    ensures { KeptBesideRegion memory.old memory.new }
{
    let at = u32::read(record, 1) as usize;
    // Never refused: the form's tests have seen to it that the place is within the region.
    let _ = bytes::put(&mut memory.region.all, at, part::from(record, 7));
}

fn set_entry(memory: &mut Memory, record: &[u8])
    ensures { KeptBesideTables memory.old memory.new }
{
    let k = usize::from(u16::read(record, 2));
    let v = u16::read(record, 4);
    match input::byte(record, 1) {
        0 => pick::set(&mut memory.ids.all, k, v),
        1 => pick::set(&mut memory.taken.all, k, v),
        _ => pick::set(&mut memory.held.all, k, v),
    }
}

fn checkpoint(record: &[u8]) -> Checkpoint {
    Checkpoint {
        avail: input::cursor(record, 2),
        used: input::cursor(record, 5),
        inflight: u16::read(record, 8),
    }
}
