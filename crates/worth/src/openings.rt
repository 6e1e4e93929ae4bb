// The edges of a ring's size. What is lent has room for 32,769 slots, so that the size alone can be refused. A ring that opens is
// asked for its size and no more: programs run rings of at most 2,048 slots.
use base::{RingError, bytes};
use consumer::RingConsumer;
use producer::RingProducer;

pub fn sizes() {
    opened(0);
    opened(32768);
    opened(32769);
}

// Both ends.
fn opened(size: u16) {
    let ring = bytes::zeros::<524312>();
    let mut ids = [0u16; 32769];
    let mut counts = [0u16; 32769];
    let layout = crate::laid(size);
    let p = RingProducer::new(layout, &ring, &mut ids, &mut counts);
    told(size, b"producer", p.and_then(|p| p.len()));
    let c = RingConsumer::new(layout, &ring, &mut counts);
    told(size, b"consumer", c.and_then(|c| c.len()));
}

fn told(size: u16, end: &[u8], asked: Result<u16, RingError>) {
    tell::sized(size, end);
    tell::opened(asked);
    say::words(b"\n");
}
