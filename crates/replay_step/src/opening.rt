// A trace's header: what the trace lends is set out, and both ends are opened over it.
ghost use Rattle.std.specs.Prelude.{◌≡◌};
ghost use Rattle.replay_stage.specs.Kept.{KeptBesideTables};

use crate::{Ends, Trace};
use base::RingError;
use consumer::RingConsumer;
use format::header;
use layout::Layout;
use lines::{answer, output};
use producer::RingProducer;
use replay_stage::memory::{Memory, first_mut};
use replay_stage::{hash, stage};
use text::Line;

// The trace whose header stands at the start of s, and how many bytes that takes; none where it is bad. A refused opening
// has a line, with 0 for its hash (docs/TRACE.md), and a trace whose records are passed over.
pub fn header(s: &[u8], memory: &mut Memory, line: &mut Line<'_>) -> Option<(Trace, usize)>
    ensures { line.new.out.ghost_name ≡ line.old.out.ghost_name }
{
    let header = header::read(s)?;
    stage::set_out(memory, s, header.region);
    let ends = open(header::geometry(header::OP, s), memory);
    let hash = ends.map_or(0, |e| hash::of(e.producer, e.consumer, memory));
    output::answer(line, header::OP, ends.and(answer::done()));
    output::last(line, hash.into());
    let trace = Trace {
        ends: ends.ok(),
        every: header.every,
        records: header.records,
        done: 0,
    };
    Some((trace, header::LENGTH))
}

// The producer first: its refusal is the header's.
fn open(layout: Layout, memory: &mut Memory) -> Result<Ends, RingError>
    ensures { KeptBesideTables memory.old memory.new }
{
    let producer = RingProducer::new(
        layout,
        memory.region.lent(),
        first_mut(&mut memory.ids.all, memory.ids.lent),
        first_mut(&mut memory.taken.all, memory.taken.lent),
    )?;
    let consumer = RingConsumer::new(
        layout,
        memory.region.lent(),
        first_mut(&mut memory.held.all, memory.held.lent),
    )?;
    Ok(Ends { producer, consumer })
}
