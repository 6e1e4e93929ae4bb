// The notify test: 0 no, 1 yes, a refusal by 1,000 for each number.
use base::RingError;
use cursor::RingCursor;
use event::EventSuppression;
use say::{bit, refusal};

fn answer(n: Result<bool, RingError>) -> u64 {
    match n {
        Ok(b) => bit(b),
        Err(e) => refusal(e.number(), 0),
    }
}

// A cursor in round true.
fn at(head: u16) -> RingCursor {
    RingCursor { head, wrap: true }
}

fn asked(name: &[u8], e: EventSuppression, size: u16, old: u16, new: u16, want: u64) {
    let n = notify::should_notify(e, size, at(old), at(new));
    say::case(name, answer(n), want);
}

// Size 8, from (2, true) to (5, true).
fn told(off_wrap: u16, flags: u16, want: u64) {
    asked(
        b"notify",
        EventSuppression::new(off_wrap, flags),
        8,
        2,
        5,
        want,
    );
}

// DESC at (0, true), from a head to another in round true.
fn over(size: u16, old: u16, new: u16, want: u64) {
    asked(
        b"heads",
        EventSuppression::new(32768, event::DESC),
        size,
        old,
        new,
        want,
    );
}

fn need(event: u16, new: u16, old: u16, want: u64) {
    let told = notify::ring_need_event(event, new, old);
    say::case(b"ring_need_event", bit(told), want);
}

// Every value of the flags, and DESC around the slots passed.
pub fn flags() {
    told(0, 0, 1);
    told(32770, 1, 0);
    told(32769, 2, 0);
    told(32770, 2, 1);
    told(32772, 2, 1);
    told(32773, 2, 0);
    told(2, 2, 0);
    told(32776, 2, 0);
    told(65535, 2, 0);
    told(32770, 3, 0);
    told(32770, 65534, 1);
    told(32770, 65535, 0);
    need(65535, 0, 65535, 1);
    need(3, 3, 3, 0);
    need(3, 4, 3, 1);
    need(0, 65535, 0, 1);
    need(65535, 65535, 0, 0);
}

// 7 exactly if a head is not below the size.
pub fn refusals() {
    over(0, 0, 0, 7000);
    over(8, 8, 0, 7000);
    over(8, 0, 8, 7000);
    over(8, 65535, 65535, 7000);
    over(1, 0, 0, 0);
    over(32768, 0, 32767, 1);
    over(65535, 0, 1, 1);
}
