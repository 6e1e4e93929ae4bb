// The calls that are lent the producer's tables: opening again, completions, the next ID, reset.
ghost use Rattle.replay_stage.specs.Kept.{KeptByProducer};

use format::header;
use lines::answer::{Answer, Values};
use lines::{answer, asked};
use producer::RingProducer;
use replay_stage::memory::{Memory, first_mut};

pub fn answer(p: RingProducer, op: u8, record: &[u8], memory: &mut Memory) -> (RingProducer, Answer)
    ensures { KeptByProducer memory.old memory.new }
{
    let ring = first_mut(&mut memory.region.all, memory.region.lent);
    let ids = first_mut(&mut memory.ids.all, memory.ids.lent);
    let counts = first_mut(&mut memory.taken.all, memory.taken.lent);
    match op {
        5 => {
            let (p, used) = p.poll_used(ring, ids, counts);
            (p, used.map(|u| Values::of([u.id.into(), u.len.into()])))
        }
        6 => (p, asked::value(p.next_id(ids, counts))),
        15 => {
            let (p, r) = p.reset(ring, ids, counts);
            (p, r.and(answer::done()))
        }
        _ => {
            let opened = RingProducer::new(header::geometry(op, record), ring, ids, counts);
            // A refused opening leaves the record that was there.
            (opened.unwrap_or(p), opened.and(answer::done()))
        }
    }
}
