// A trace's records, and the call that each asks for.
ghost use Rattle.std.specs.Prelude.{◌≡◌};

use crate::{Ends, Trace};
use format::{form, input};
use lines::output;
use replay_leaf::{leaf, parts};
use replay_stage::memory::Memory;
use replay_stage::{hash, look, stage};
use text::Line;

// The trace after the record that stands at the start of s, and how many bytes that takes; none where it is bad or cut.
// Where the ends are not open a record is passed over, and has no line.
pub fn record(
    trace: Trace,
    s: &[u8],
    memory: &mut Memory,
    line: &mut Line<'_>,
) -> Option<(Trace, usize)>
    ensures lent { line.new.out.ghost_name ≡ line.old.out.ghost_name }
    ensures length { memory.new.length ≡ memory.old.length }
{
    let n = form::length(s, memory.length)?;
    let record = s.get(..n)?;
    let mut trace = trace;
    // No wrap: the trace has a record left.
    trace.done = trace.done.wrapping_add(1);
    if let Some(before) = trace.ends {
        let ends = call(before, record, memory, line);
        output::last(line, hashed(trace, ends, memory).into());
        trace.ends = Some(ends);
    }
    Some((trace, n))
}

// The line from the op to the last value, and the ends that the call leaves. An op is the format's byte (docs/TRACE.md), here
// and in the crates below: an enum of some sixty names would be no plainer than its table. It goes with its record, whose
// first byte it is, so that each match below need not read it again.
fn call(ends: Ends, record: &[u8], memory: &mut Memory, line: &mut Line<'_>) -> Ends
    ensures lent { line.new.out.ghost_name ≡ line.old.out.ghost_name }
    ensures length { memory.new.length ≡ memory.old.length }
{
    let op = input::byte(record, 0);
    match op {
        1..=15 | 66 | 71 | 74 => {
            let producer = replay_producer::call(ends.producer, op, record, memory, line);
            return Ends { producer, ..ends };
        }
        33..=46 | 67 | 75 => {
            let consumer = replay_consumer::call(ends.consumer, op, record, memory, line);
            return Ends { consumer, ..ends };
        }
        64 | 68..=70 => {
            stage::overwrite(memory, op, record);
            output::start(line, op, 0);
        }
        65 => look::bytes(record, memory, line),
        72 => look::outputs(record, memory, line),
        73 => look::table(record, memory, line),
        96..=106 => leaf::answer(op, record, ends.producer.desc_table(), line),
        _ => parts::answer(op, record, line),
    }
    ends
}

// The hash where the record's line has one, and 0 elsewhere: the format has a 0 there (docs/TRACE.md), and no gap.
fn hashed(trace: Trace, ends: Ends, memory: &Memory) -> u32 {
    if trace.done == trace.records || trace.every != 0 && trace.done % trace.every == 0 {
        return hash::of(ends.producer, ends.consumer, memory);
    }
    0
}
