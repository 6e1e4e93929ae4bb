// Checkpoints taken and rolled back to. What a trace keeps of them are its registers.
ghost use Rattle.replay_stage.specs.Kept.{KeptByCheckpoint, KeptByRollback};

use base::bytes::Word;
use consumer::RingConsumer;
use format::{input, part};
use lines::answer;
use lines::answer::{Answer, Values};
use replay_stage::memory::{Memory, first_mut};

// A refusal leaves the register as it was.
pub fn taken(c: RingConsumer, record: &[u8], memory: &mut Memory) -> Answer
    ensures { KeptByCheckpoint memory.old memory.new }
{
    let cp = c.poll_checkpoint()?;
    memory.registers[usize::from(input::byte(record, 1))] = cp;
    Ok(Values::of([
        cp.avail.head.into(),
        cp.avail.wrap.into(),
        cp.used.head.into(),
        cp.used.wrap.into(),
        cp.inflight.into(),
    ]))
}

pub fn rolled_back(c: RingConsumer, record: &[u8], memory: &mut Memory) -> (RingConsumer, Answer)
    ensures { KeptByRollback memory.old memory.new }
{
    let cp = memory.registers[usize::from(input::byte(record, 1))];
    let n = u16::read(record, 2);
    let mut ids = [0u16; 4096];
    input::numbers(record, 4, 2, n, &mut ids);
    let ids = part::first(&ids, usize::from(n));
    let counts = first_mut(&mut memory.held.all, memory.held.lent);
    let (c, r) = c.rollback_polls(counts, cp, ids);
    (c, r.and(answer::done()))
}
