// Runs traces over the port: a header, its records one at a time, the next header. Each step reads one of them,
// makes the call that it asks for and puts its line into a lent buffer.
#![tactic(auto)]

mod calls;
mod opening;

ghost use Rattle.std.specs.Prelude.{◌≡◌, length};
ghost use Rattle.replay_step.specs.Run.{Onward};

use consumer::RingConsumer;
use lines::output;
use producer::RingProducer;
use replay_stage::memory::Memory;
use text::Line;

#[derive(Clone, Copy)]
pub struct Ends {
    pub producer: RingProducer,
    pub consumer: RingConsumer,
}

// A trace: how often its lines have a hash, how many records it has, and how many are done.
#[derive(Clone, Copy)]
pub struct Trace {
    // The ring's two ends, if the header opened both.
    pub ends: Option<Ends>,
    pub every: u32,
    pub records: u32,
    pub done: u32,
}

// The place in the input, and the trace that is run there.
#[derive(Clone, Copy)]
pub struct Run {
    pub at: usize,
    pub trace: Trace,
}

impl Run {
    // Before the first trace. No record is left of the one before it.
    pub fn new() -> Run
        ensures { result.at ≡ 0 }
    {
        Run {
            at: 0,
            trace: Trace {
                ends: None,
                every: 0,
                records: 0,
                done: 0,
            },
        }
    }
}

// One header or one record. None where the input has ended or a line did not fit, and where what comes next is bad,
// which is the run's last line. A run goes on only further on in the input, and never past it.
pub fn step(run: Run, input: &[u8], memory: &mut Memory, line: &mut Line<'_>) -> Option<Run>
    ensures lent { line.new.out.ghost_name ≡ line.old.out.ghost_name }
    ensures onward { Onward run.at (length input.now) result }
{
    let rest = input.get(run.at..)?;
    let is_record = run.trace.done < run.trace.records;
    if line.at == text::LOST || !is_record && rest.is_empty() {
        return None;
    }
    let next = if is_record {
        calls::record(run.trace, rest, memory, line)
    } else {
        opening::header(rest, memory, line)
    };
    let Some((trace, n)) = next else {
        output::bad(line);
        return None;
    };
    // Every header and every record takes a byte at least, and none is taken past the end. That is tested here, once,
    // so that no call on the way has to promise it.
    if n == 0 || rest.len() < n {
        return None;
    }
    let at = run.at + n;
    Some(Run { at, trace })
}
