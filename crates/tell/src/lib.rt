// What `worth` prints: a line is a ring's size, the case, and what a call of an end answered.
#![tactic(auto)]

use base::RingError;
use consumer::PolledChain;
use cursor::RingCursor;
use say::{number, words};

// "size 4, CASE:", the size as the ring itself says it. (The match on `Ok` and `Err` stands in each function here: one that
// takes what to print as a closure would need a clause for the closure's own `requires`.)
pub fn case(size: Result<u16, RingError>, name: &[u8]) {
    match size {
        Ok(n) => sized(n, name),
        Err(e) => refused(e),
    }
}

pub fn sized(size: u16, name: &[u8]) {
    number(b"size ", u64::from(size));
    words(b", ");
    words(name);
    words(b":");
}

fn refused(e: RingError) {
    number(b" refused ", u64::from(e.number()));
}

// What keeps a case from being run: a ring that does not open, a call that it begins with.
pub fn missing(case: Result<(), RingError>) {
    if let Err(e) = case {
        words(b"no ring:");
        refused(e);
        words(b"\n");
    }
}

pub fn id(answer: Result<u16, RingError>) {
    match answer {
        Ok(id) => number(b" id ", u64::from(id)),
        Err(e) => refused(e),
    }
}

pub fn chain(answer: Result<PolledChain, RingError>) {
    match answer {
        Ok(c) => {
            id(Ok(c.id));
            number(b", elements ", u64::from(c.count));
        }
        Err(e) => refused(e),
    }
}

pub fn done(answer: Result<(), RingError>) {
    match answer {
        Ok(()) => words(b" done"),
        Err(e) => refused(e),
    }
}

pub fn opened(size: Result<u16, RingError>) {
    match size {
        Ok(n) => number(b" opened, size ", u64::from(n)),
        Err(e) => refused(e),
    }
}

// ", cursor HEAD WRAP" ends a line.
pub fn cursor(asked: Result<RingCursor, RingError>) {
    match asked {
        Ok(c) => at(c),
        Err(e) => refused(e),
    }
    words(b"\n");
}

fn at(c: RingCursor) {
    number(b", cursor ", u64::from(c.head()));
    say::either(c.wrap(), b" 1", b" 0");
}
