// Chains as long as the ring, and longer: what a submission and a poll make of them.
use base::RingError;
use chain::BufferChain;
use consumer::RingConsumer;
use desc::Descriptor;
use producer::RingProducer;

// A ring of one slot, whose only descriptor is available and has these flags.
pub fn lone(flags: u16, name: &[u8]) -> Result<(), RingError> {
    let mut ring = [0u8; 24];
    let mut counts = [0u16; 1];
    let d = Descriptor::new(4096, 16, 0, flags).mark_avail(true);
    desc::store(&mut ring, 0, d.encode())?;
    let c = RingConsumer::new(crate::laid(1), &ring, &mut counts)?;
    polled(c, name, &ring, &mut counts);
    Ok(())
}

// A ring of four slots: a chain over all of them, polled as it is and then with NEXT on its last slot.
pub fn four() -> Result<(), RingError> {
    let mut ring = [0u8; 72];
    submitted(&mut ring)?;
    looked(b"chain of four polled", &ring)?;
    run_on(&mut ring, 48)?;
    looked(b"NEXT on the fourth", &ring)
}

// Two readable elements and two writable ones. (`ring`, `ids` and `counts` stay apart here and in the other cases: each lends
// arrays of its own sizes, as the ends take them.)
fn submitted(ring: &mut [u8]) -> Result<(), RingError> {
    let mut ids = [0u16; 4];
    let mut counts = [0u16; 4];
    let p = RingProducer::new(crate::laid(4), ring, &mut ids, &mut counts)?;
    let addrs = [4096u64, 8192, 12288, 16384];
    let lens = [16u32, 32, 48, 64];
    tell::case(p.len(), b"chain of four submitted");
    let chain = BufferChain {
        addrs: &addrs,
        lens: &lens,
        readable: 2,
    };
    let (p, id) = p.submit_available(ring, &ids, &mut counts, chain);
    tell::id(id);
    tell::cursor(p.avail_cursor());
    Ok(())
}

// The descriptor at a place has NEXT from now on.
fn run_on(ring: &mut [u8], at: usize) -> Result<(), RingError> {
    let d = Descriptor::decode(desc::load(ring, at));
    let longer = Descriptor {
        flags: d.flags | desc::NEXT,
        ..d
    };
    desc::store(ring, at, longer.encode())
}

// A fresh consumer's first poll.
fn looked(name: &[u8], ring: &[u8]) -> Result<(), RingError> {
    let mut counts = [0u16; 4];
    let c = RingConsumer::new(crate::laid(4), ring, &mut counts)?;
    polled(c, name, ring, &mut counts);
    Ok(())
}

fn polled(c: RingConsumer, name: &[u8], ring: &[u8], counts: &mut [u16]) {
    let mut addrs = [0u64; 4];
    let mut lens = [0u32; 4];
    tell::case(c.len(), name);
    let (c, chain) = c.poll_available(ring, counts, &mut addrs, &mut lens);
    tell::chain(chain);
    tell::cursor(c.avail_cursor());
}
