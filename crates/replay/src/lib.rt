// Runs a whole input and writes the lines to standard output.
#![tactic(auto)]

ghost use Rattle.std.specs.Prelude.{◌≡◌, ◌≤◌, length};

use base::bytes;
use replay_stage::memory::{AT_START, Memory, Store};
use replay_step::{Run, step};
use text::Line;

const STDIN_FILENO: i32 = 0;

const STDOUT_FILENO: i32 = 1;

// The longest line: 4,096 addresses and lengths, of 32 bytes with their spaces, and a few numbers more.
const LINE: usize = 131200;

// Reads traces on standard input and writes what the port answers.
pub fn run_input() {
    // A buffer of fixed size and how much of it was read: programs have no heap.
    let mut input = bytes::zeros::<262144>();
    let mut out = bytes::zeros::<262144>();
    // Before the first trace nothing is lent: a header sets it all out. Built in its place, and not handed over by a function,
    // which would have the stack hold it twice.
    let mut memory = Memory {
        region: store(0),
        length: 0,
        ids: store(0),
        taken: store(0),
        held: store(0),
        addrs: store(0),
        lens: store(0),
        registers: [AT_START; 256],
    };
    let n = io::read_full(STDIN_FILENO, &mut input);
    run_all(&input[..n], &mut out, &mut memory);
}

fn store<T: Copy, const N: usize>(x: T) -> Store<T, N> {
    Store {
        all: [x; N],
        lent: 0,
    }
}

// Answers how many bytes of the input were run: all of them, unless a record was bad or a line could not be written.
pub fn run_all(input: &[u8], out: &mut [u8], memory: &mut Memory) -> usize
    ensures { result ≤ length input.now }
{
    let mut line = Line::new(out, 0);
    let mut run = Run::new();
    while let Some(next) = step(run, input, memory, &mut line) {
        run = next;
        make_room(&mut line);
    }
    write(&line);
    run.at
}

// Writes out what there is once a longest line might not fit after it. Where that fails the next line is lost, which
// ends the run.
fn make_room(line: &mut Line<'_>)
    ensures { line.new.out.ghost_name ≡ line.old.out.ghost_name }
{
    if LINE < line.out.len().saturating_sub(line.at) {
        return;
    }
    line.at = if write(line) { 0 } else { text::LOST };
}

// Nothing where a line did not fit.
fn write(line: &Line<'_>) -> bool {
    let at = line.at;
    line.out
        .get(..at)
        .is_some_and(|lines| io::write_all(STDOUT_FILENO, lines))
}
