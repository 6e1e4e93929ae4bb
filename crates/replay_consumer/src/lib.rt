// The consumer's records of a trace: every call of RingConsumer, opening again, its record forged, and checkpoints.
// (`call`, `forged`, `asks` and `notices` are like the producer's, each over its own end's methods and fields: a trait of them
// would have to name all of those, and each of its two impls once more.)
#![tactic(auto)]

mod asks;
mod notes;
mod notices;
mod polls;

ghost use Rattle.std.specs.Prelude.{◌≡◌};
ghost use Rattle.replay_stage.specs.Kept.{KeptByConsumer};

use base::bytes::Word;
use consumer::RingConsumer;
use format::{forge, input};
use lines::answer::Answer;
use lines::{answer, output};
use replay_stage::memory::{Memory, first_mut};
use text::Line;

// The call that a record asks for, over what is lent, and its line from the op to the last value: the end that is left.
// An op is the format's byte (docs/TRACE.md), here and in the modules below: an enum of some sixty names would be no plainer
// than its table. It goes beside the record, whose first byte it is, since each match would else read it again.
pub fn call(
    c: RingConsumer,
    op: u8,
    record: &[u8],
    memory: &mut Memory,
    line: &mut Line<'_>,
) -> RingConsumer
    ensures lent { line.new.out.ghost_name ≡ line.old.out.ghost_name }
    ensures kept { KeptByConsumer memory.old memory.new }
{
    if op == 33 {
        return polls::available(c, memory, line);
    }
    let (c, answer) = answered(c, op, record, memory);
    output::answer(line, op, answer);
    c
}

fn answered(c: RingConsumer, op: u8, record: &[u8], memory: &mut Memory) -> (RingConsumer, Answer)
    ensures { KeptByConsumer memory.old memory.new }
{
    match op {
        34 | 35 | 46 | 75 => polls::answer(c, op, record, memory),
        36 | 42..=45 => {
            let ring = first_mut(&mut memory.region.all, memory.region.lent);
            notices::answer(c, op, record, ring)
        }
        37..=39 => (c, asks::answer(c, op)),
        40 => (c, notes::taken(c, record, memory)),
        41 => notes::rolled_back(c, record, memory),
        _ => (forged(c, record), answer::done()),
    }
}

// A field of the record set, whatever the ring is.
fn forged(c: RingConsumer, record: &[u8]) -> RingConsumer {
    let field = input::byte(record, 1);
    let v = u64::read(record, 2);
    RingConsumer {
        layout: forge::geometry(c.layout, field, v),
        avail: forge::cursor(c.avail, 4, 5, field, v),
        used: forge::cursor(c.used, 6, 7, field, v),
        inflight: forge::half(c.inflight, 8, field, v),
        shadow: forge::half(c.shadow, 9, field, v),
    }
}
