// One number for the whole state of a trace: h = 1, then h = (h * 257 + x % 1000000007) % 1000000007 for each number x.
use crate::memory::Memory;
use consumer::RingConsumer;
use cursor::RingCursor;
use format::part;
use layout::Layout;
use producer::RingProducer;

fn take<T: Into<u64>>(h: u32, x: T) -> u32 {
    ((u64::from(h) * 257 + x.into() % 1000000007) % 1000000007) as u32
}

fn all<T: Into<u64> + Copy>(h: u32, s: &[T]) -> u32 {
    s.iter().copied().fold(h, take)
}

// The first n entries, or all that there are.
fn entries(h: u32, s: &[u16], n: u16) -> u32 {
    all(h, part::first(s, usize::from(n)))
}

fn cursor(h: u32, c: RingCursor) -> u32 {
    take(take(h, c.head), c.wrap)
}

fn geometry(h: u32, l: Layout) -> u32 {
    let places = [l.table as u64, l.driver as u64, l.device as u64];
    all(take(h, l.size), &places)
}

fn producer(h: u32, p: RingProducer, ids: &[u16], counts: &[u16]) -> u32 {
    let h = geometry(h, p.layout);
    let h = cursor(h, p.avail);
    let h = cursor(h, p.used);
    let h = all(h, &[p.free, p.shadow, p.height]);
    let h = entries(h, ids, p.height);
    entries(h, counts, p.layout.size)
}

fn consumer(h: u32, c: RingConsumer, counts: &[u16]) -> u32 {
    let h = geometry(h, c.layout);
    let h = cursor(h, c.avail);
    let h = cursor(h, c.used);
    let h = all(h, &[c.inflight, c.shadow]);
    entries(h, counts, c.layout.size)
}

// Both ends, their tables, and the region's bytes.
pub fn of(p: RingProducer, c: RingConsumer, memory: &Memory) -> u32 {
    let h = producer(1, p, &memory.ids.all, &memory.taken.all);
    let h = consumer(h, c, &memory.held.all);
    all(h, part::first(&memory.region.all, memory.length))
}
