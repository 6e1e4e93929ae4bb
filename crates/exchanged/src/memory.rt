// The bytes of the ring, the port's and the captured ones, side by side.
use crate::record::Record;
use base::RingError;
use event::EventSuppression;
use layout::Layout;

// What Linux or QEMU wrote: a slot's sixteen bytes, or an event area's four.
pub fn put(s: &mut [u8], l: Layout, r: Record) -> Result<(), RingError> {
    let at = r.place(l);
    if r.is_area() {
        EventSuppression::read(&r.bytes, 0).write(s, at)
    } else {
        desc::store(s, at, r.bytes)
    }
}

// The slots and areas of s that t has otherwise.
pub fn places(l: Layout, s: &[u8], t: &[u8]) {
    // By number, since a slot's number is printed.
    for k in 0..l.size {
        slot(k, s, t);
    }
    area(b" drv:", l.driver, s, t);
    area(b" dev:", l.device, s, t);
}

fn slot(k: u16, s: &[u8], t: &[u8]) {
    let at = 16 * usize::from(k);
    let b = desc::load(s, at);
    if b != desc::load(t, at) {
        say::number(b" ", u64::from(k));
        say::words(b":");
        hex(&b);
    }
}

fn area(name: &[u8], at: usize, s: &[u8], t: &[u8]) {
    let e = EventSuppression::read(s, at);
    if e != EventSuppression::read(t, at) {
        say::words(name);
        hex(&e.encode());
    }
}

fn hex(s: &[u8]) {
    for b in s {
        say::hex(*b);
    }
}
