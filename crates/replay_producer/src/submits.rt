// Submissions.
ghost use Rattle.replay_stage.specs.Kept.{KeptBySubmission};

use crate::chains;
use base::bytes::Word;
use format::input;
use lines::answer::{Answer, Values};
use producer::{RingProducer, SubmitResult};
use replay_stage::memory::{Memory, first_mut};

pub fn answer(p: RingProducer, op: u8, record: &[u8], memory: &mut Memory) -> (RingProducer, Answer)
    ensures { KeptBySubmission memory.old memory.new }
{
    match op {
        1 | 2 => one(p, op, record, memory),
        _ => listed(p, op, record, memory),
    }
}

fn one(p: RingProducer, op: u8, record: &[u8], memory: &mut Memory) -> (RingProducer, Answer)
    ensures { KeptBySubmission memory.old memory.new }
{
    let addr = u64::read(record, 1);
    let len = u32::read(record, 9);
    let writable = input::bit(record, 13);
    let ring = first_mut(&mut memory.region.all, memory.region.lent);
    let ids = memory.ids.lent();
    let counts = first_mut(&mut memory.taken.all, memory.taken.lent);
    if op == 2 {
        let (p, r) = p.submit_one_with_notify(ring, ids, counts, addr, len, writable);
        return (p, r.map(told));
    }
    let (p, id) = p.submit_one(ring, ids, counts, addr, len, writable);
    (p, id.map(submitted))
}

// The chain that stands in the record.
fn listed(p: RingProducer, op: u8, record: &[u8], memory: &mut Memory) -> (RingProducer, Answer)
    ensures { KeptBySubmission memory.old memory.new }
{
    let mut addrs = [0u64; 4096];
    let mut lens = [0u32; 4096];
    let chain = chains::read(op, record, &mut addrs, &mut lens);
    let ring = first_mut(&mut memory.region.all, memory.region.lent);
    let ids = memory.ids.lent();
    let counts = first_mut(&mut memory.taken.all, memory.taken.lent);
    if op == 4 {
        let (p, r) = p.submit_available_with_notify(ring, ids, counts, chain);
        return (p, r.map(told));
    }
    let (p, id) = p.submit_available(ring, ids, counts, chain);
    (p, id.map(submitted))
}

fn submitted(id: u16) -> Values {
    Values::of([id.into()])
}

fn told(r: SubmitResult) -> Values {
    Values::of([r.id.into(), r.notify.into()])
}
