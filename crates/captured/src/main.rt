// What Linux's driver and QEMU's device put into memory (see oracle/captured), decoded by the ring's own leaves.
// Standard input: 1 to 240 records of seventeen bytes, 'S' and a slot's sixteen, or 'E', an event area's four and twelve more.
// What is none is answered with the line `bad`.
#![tactic(auto)]

use desc::Descriptor;
use event::EventSuppression;
use say::{either, number, words};

fn main() {
    // A buffer of fixed size and how much of it was read: programs have no heap.
    let mut input = io::buffer();
    let n = io::read_full(0, &mut input);
    let records = &input[..n];
    if say::are_records(records, 17, b"SE") {
        for record in records.chunks_exact(17) {
            show(record);
        }
    } else {
        words(b"bad\n");
    }
}

fn show(record: &[u8]) {
    match record {
        [b'S', bytes @ ..] => slot(Descriptor::decode(desc::load(bytes, 0))),
        [_, bytes @ ..] => area(EventSuppression::read(bytes, 0)),
        [] => {}
    }
}

// slot ADDRESS LENGTH ID, readable or writable, next or last, and the one round in which it is available or used.
fn slot(d: Descriptor) {
    number(b"slot ", d.addr);
    number(b" ", u64::from(d.len));
    number(b" ", u64::from(d.id));
    either(d.is_writable(), b" writable", b" readable");
    either(d.is_next(), b" next", b" last");
    either(d.is_indirect(), b" indirect", b"");
    either(d.is_avail(true), b" available 1", b"");
    either(d.is_avail(false), b" available 0", b"");
    either(d.is_used(true), b" used 1", b"");
    either(d.is_used(false), b" used 0", b"");
    words(b"\n");
}

// event OFFSET WRAP FLAGS
fn area(e: EventSuppression) {
    number(b"event ", u64::from(e.desc_event_off()));
    either(e.desc_event_wrap(), b" 1", b" 0");
    number(b" ", u64::from(e.flags()));
    words(b"\n");
}
