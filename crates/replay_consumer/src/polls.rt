// Opening again, polls, completions, reset.
ghost use Rattle.std.specs.Prelude.{◌≡◌};
ghost use Rattle.replay_stage.specs.Kept.{KeptByCompletion, KeptByConsumer};

use base::bytes::Word;
use consumer::RingConsumer;
use format::{header, part};
use lines::answer::{Answer, Values};
use lines::{answer, asked, output};
use replay_stage::memory::{Memory, first_mut};
use text::Line;

pub fn answer(c: RingConsumer, op: u8, record: &[u8], memory: &mut Memory) -> (RingConsumer, Answer)
    ensures { KeptByCompletion memory.old memory.new }
{
    let ring = first_mut(&mut memory.region.all, memory.region.lent);
    let counts = first_mut(&mut memory.held.all, memory.held.lent);
    let id = u16::read(record, 1);
    let len = u32::read(record, 3);
    match op {
        34 => {
            let (c, r) = c.submit_used(ring, counts, id, len);
            (c, r.and(answer::done()))
        }
        35 => {
            let (c, notify) = c.submit_used_with_notify(ring, counts, id, len);
            (c, asked::value(notify))
        }
        46 => {
            let (c, r) = c.reset(ring, counts);
            (c, r.and(answer::done()))
        }
        _ => {
            let opened = RingConsumer::new(header::geometry(op, record), ring, counts);
            // A refused opening leaves the record that was there.
            (opened.unwrap_or(c), opened.and(answer::done()))
        }
    }
}

// The op 33. A chain's elements are after its numbers: as many as were polled.
pub fn available(c: RingConsumer, memory: &mut Memory, line: &mut Line<'_>) -> RingConsumer
    ensures lent { line.new.out.ghost_name ≡ line.old.out.ghost_name }
    ensures kept { KeptByConsumer memory.old memory.new }
{
    let ring = first_mut(&mut memory.region.all, memory.region.lent);
    let counts = first_mut(&mut memory.held.all, memory.held.lent);
    let addrs = first_mut(&mut memory.addrs.all, memory.addrs.lent);
    let lens = first_mut(&mut memory.lens.all, memory.lens.lent);
    let (c, polled) = c.poll_available(ring, counts, addrs, lens);
    match polled {
        Ok(chain) => {
            let n = usize::from(chain.count);
            let values = [chain.id.into(), chain.count.into(), chain.readable.into()];
            output::answer(line, 33, Ok(Values::of(values)));
            output::pairs(line, part::first(addrs, n), lens);
        }
        Err(e) => output::refused(line, 33, e),
    }
    c
}
