// The cursor. What a move gives is twice the head and the wrap, and 1,000,000 for each number of a refusal.
use base::RingError;
use cursor::RingCursor;
use say::bit;

fn code(c: RingCursor) -> u64 {
    (2 * u64::from(c.head())).wrapping_add(bit(c.wrap()))
}

fn moved((c, answer): (RingCursor, Result<(), RingError>)) -> u64 {
    match answer {
        Ok(()) => code(c),
        Err(e) => (1000000 * u64::from(e.number())).wrapping_add(code(c)),
    }
}

fn step(size: u16, head: u16, wrap: bool, want: u64) {
    let c = RingCursor { head, wrap };
    say::case(b"advance", moved(c.advance(size)), want);
}

fn stepped(size: u16, head: u16, wrap: bool, want: u64) {
    let c = RingCursor { head, wrap };
    say::case(b"stepped", code(c.stepped(size)), want);
}

fn by(size: u16, head: u16, wrap: bool, n: u16, want: u64) {
    let c = RingCursor { head, wrap };
    say::case(b"advance_by", moved(c.advance_by(size, n)), want);
}

fn kept(size: u16, head: u16, wrap: bool, n: u16, want: u64) {
    let c = RingCursor { head, wrap };
    say::case(b"moved", code(c.moved(size, n)), want);
}

fn lent(size: u16, head: u16, wrap: bool, n: u16, want: u64) {
    let c = RingCursor { head, wrap };
    say::case(b"in_place", moved(in_place::advance_own(c, size, n)), want);
}

fn fresh(head: u16, wrap: bool, want: u64) {
    let c = RingCursor { head, wrap };
    say::case(b"reset", code(c.reset()), want);
}

// One step: the wrap flips where the head lands on 0.
pub fn steps() {
    step(1, 0, true, 0);
    step(1, 0, false, 1);
    step(2, 0, true, 3);
    step(2, 1, true, 0);
    step(2, 1, false, 1);
    step(8, 6, true, 15);
    step(8, 7, true, 0);
    step(32767, 32766, true, 0);
    step(32768, 32766, false, 65534);
    step(32768, 32767, false, 1);
    stepped(8, 7, true, 0);
    stepped(0, 65535, true, 0);
    fresh(7, false, 1);
}

// Moves: none, all of the ring, and landing exactly on slot 0.
pub fn moves() {
    by(8, 3, true, 0, 7);
    by(8, 3, true, 4, 15);
    by(8, 3, true, 5, 0);
    by(8, 3, false, 5, 1);
    by(8, 3, true, 8, 6);
    by(8, 0, true, 8, 0);
    by(1, 0, true, 0, 1);
    by(1, 0, true, 1, 0);
    by(5, 4, false, 5, 9);
    by(32767, 32766, true, 32767, 65532);
    by(32768, 32767, true, 1, 0);
    by(32768, 32767, true, 32768, 65534);
}

// 7, the cursor handed back as it was.
pub fn refusals() {
    by(0, 0, true, 0, 7000001);
    by(32769, 0, true, 0, 7000001);
    by(65535, 0, false, 0, 7000000);
    by(8, 8, true, 0, 7000017);
    by(8, 65535, false, 1, 7131070);
    by(8, 3, true, 9, 7000007);
    by(1, 0, true, 2, 7000001);
    by(1, 0, true, 65535, 7000001);
    step(0, 0, true, 7000001);
    step(32769, 0, true, 7000001);
    step(8, 8, true, 7000017);
    kept(8, 6, true, 3, 2);
    kept(8, 3, true, 9, 7);
}

// In place: D5 to D7, landing on slot 0, and each reason for a 7.
pub fn in_place() {
    lent(1, 0, true, 1, 0);
    lent(8, 6, true, 3, 2);
    lent(8, 3, true, 8, 6);
    lent(8, 3, false, 5, 1);
    lent(32768, 32767, true, 32768, 65534);
    lent(0, 0, true, 0, 7000001);
    lent(32769, 0, true, 0, 7000001);
    lent(8, 8, true, 0, 7000017);
    lent(8, 3, true, 9, 7000007);
}
