// The producer's records of a trace: every call of RingProducer, opening again, and its record forged.
// (`call`, `forged`, `asks` and `notices` have their like in replay_consumer, whose head says why.)
#![tactic(auto)]

mod asks;
mod chains;
mod notices;
mod submits;
mod tables;

ghost use Rattle.std.specs.Prelude.{◌≡◌};
ghost use Rattle.replay_stage.specs.Kept.{KeptByProducer};

use base::bytes::Word;
use format::{forge, input};
use lines::answer::Answer;
use lines::{answer, output};
use producer::RingProducer;
use replay_stage::memory::{Memory, first_mut};
use text::Line;

// The call that a record asks for, over what is lent, and its line from the op to the last value: the end that is left.
// An op is the format's byte (docs/TRACE.md), here and in the modules below: an enum of some sixty names would be no plainer
// than its table. It goes beside the record, whose first byte it is, since each match would else read it again.
pub fn call(
    p: RingProducer,
    op: u8,
    record: &[u8],
    memory: &mut Memory,
    line: &mut Line<'_>,
) -> RingProducer
    ensures lent { line.new.out.ghost_name ≡ line.old.out.ghost_name }
    ensures kept { KeptByProducer memory.old memory.new }
{
    let (p, answer) = answered(p, op, record, memory);
    output::answer(line, op, answer);
    p
}

fn answered(p: RingProducer, op: u8, record: &[u8], memory: &mut Memory) -> (RingProducer, Answer)
    ensures { KeptByProducer memory.old memory.new }
{
    match op {
        1..=4 | 71 => submits::answer(p, op, record, memory),
        5 | 6 | 15 | 74 => tables::answer(p, op, record, memory),
        7..=9 => (p, asks::answer(p, op)),
        10..=14 => {
            let ring = first_mut(&mut memory.region.all, memory.region.lent);
            notices::answer(p, op, record, ring)
        }
        _ => (forged(p, record), answer::done()),
    }
}

// A field of the record set, whatever the ring is.
fn forged(p: RingProducer, record: &[u8]) -> RingProducer {
    let field = input::byte(record, 1);
    let v = u64::read(record, 2);
    RingProducer {
        layout: forge::geometry(p.layout, field, v),
        avail: forge::cursor(p.avail, 4, 5, field, v),
        used: forge::cursor(p.used, 6, 7, field, v),
        free: forge::half(p.free, 8, field, v),
        height: forge::half(p.height, 9, field, v),
        shadow: forge::half(p.shadow, 10, field, v),
    }
}
