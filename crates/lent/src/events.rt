// The event area: its two words, and its four bytes.
use crate::seen::{byte, outcome};
use event::EventSuppression;
use say::bit;

// Offset, wrap and flags of two words: the flags' word behind a set_flags, 10 for each.
fn seen(off_wrap: u16, flags: u16, want: u64) {
    let e = EventSuppression::new(off_wrap, flags);
    let low = 10 * bit(e.desc_event_wrap()) + u64::from(e.flags());
    say::case(b"event", 100 * u64::from(e.desc_event_off()) + low, want);
}

fn flagged(flags: u16, new: u16, want: u64) {
    let e = EventSuppression::new(65535, flags).set_flags(new);
    let kept = bit(e.off_wrap == 65535);
    say::case(b"set_flags", u64::from(e.flags) + 100000 * kept, want);
}

fn armed(flags: u16, off: u16, wrap: bool, want: u64) {
    let e = EventSuppression::new(9, flags).set_desc_event(off, wrap);
    let kept = bit(e.flags == flags);
    say::case(
        b"set_desc_event",
        u64::from(e.off_wrap) + 100000 * kept,
        want,
    );
}

// Six lent bytes, each 7: what a write at a place leaves at another.
fn written(at: usize, look: usize, want: u64) {
    let mut ring = [7u8; 6];
    let r = EventSuppression::new(513, 1027).write(&mut ring, at);
    say::case(b"write", outcome(r, byte(&ring, look)), want);
}

fn cleared(at: usize, look: usize, want: u64) {
    let mut ring = [7u8; 6];
    let r = EventSuppression::clear(&mut ring, at);
    say::case(b"clear", outcome(r, byte(&ring, look)), want);
}

fn read(at: usize, want: u64) {
    let e = EventSuppression::read(&[7; 6], at);
    say::case(b"read", u64::from(e.flags), want);
}

fn back(off_wrap: u16, flags: u16, want: u64) {
    let e = EventSuppression { off_wrap, flags };
    let b = EventSuppression::new(off_wrap, flags).encode();
    say::case(b"decode", bit(EventSuppression::decode(b) == e), want);
}

// Flags in two bits, the offset in fifteen, the wrap above it.
pub fn words() {
    seen(0, 0, 0);
    seen(1, 1, 101);
    seen(32767, 2, 3276702);
    seen(32768, 3, 13);
    seen(65535, 65535, 3276713);
    seen(0, 65532, 0);
    flagged(65535, 0, 165532);
    flagged(65535, 1, 165533);
    flagged(65532, 2, 165534);
    flagged(0, 65535, 100003);
    armed(65535, 65535, true, 165535);
    armed(7, 32768, false, 100000);
    armed(7, 32769, true, 132769);
    armed(0, 32767, false, 132767);
}

// Four bytes that are whole in the lent bytes, and such that are not.
pub fn places() {
    back(0, 0, 1);
    back(1, 32768, 1);
    back(65535, 65535, 1);
    written(2, 2, 1);
    written(2, 3, 2);
    written(2, 4, 3);
    written(2, 5, 4);
    written(2, 1, 7);
    written(3, 3, 8007);
    written(18446744073709551615, 0, 8007);
    read(2, 1799);
    read(3, 0);
    cleared(2, 5, 0);
    cleared(2, 1, 7);
    cleared(3, 5, 8007);
}
